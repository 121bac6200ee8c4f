//! What is the same for all commands: where the levels of groups lead, and how they break.
ghost use Rattle.std.specs.Prelude.{◌≡◌, ◌<◌, ◌++◌, IfOk, IfSome, OnOk, length, option_to_list};
ghost use Rattle.std.specs.List.{filter_map};
ghost use Rattle.dia_book.specs.Dictionary.{definitions};
ghost use Rattle.dia_valid.specs.Rules.{rules_in};
ghost use Rattle.dia_breaking.specs.Exits.{AreExits, IsInnerOrNone, exit_by};
ghost use Rattle.dia_breaking.specs.LevelCosts.{PicksShortest};
ghost use Rattle.dia_breaking.specs.Outlooks.{group_rules};
ghost use Rattle.dia_breaking.specs.Sender.{costs_of, sender_in};
ghost use Rattle.dia_breaking.specs.TheLines.{AreAllOutlooks, AreLinesOf};

use crate::books::{group_of, rules_of};
use crate::keys::Recording;
use crate::lengths::Lengths;
use crate::levels::LevelCost;
use dia_book::{Book, DRule, DefId, Key};
use dia_breaking_levels::Line as LevelLine;
use dia_breaking_shortest::shortest_head;
use std::alloc::{AllocError, Global};

/// The AVPs of which there is something to report, in the levels of a definition of A.
#[derive(Drop)]
pub(crate) struct Exits {
    /// The length of a least level.
    pub base: u64,
    /// The AVPs that a rule lists: the place of each in `Recording::own`, and the length of a least level that has one.
    pub listed: Vec<(usize, u64)>,
    /// What a least level with an AVP that comes through the wildcard takes besides that AVP.
    pub beside: u64,
}

impl Exits {
    pub fn of<A: Book>(
        alloc: Global,
        def: DefId,
        recording: &Recording,
        lengths: &Lengths<'_, A>,
    ) -> Result<Self, AllocError>
        requires { def < length (definitions (sender_in lengths.now)) }
        ensures { IfOk result (AreExits recording.now (costs_of lengths.now) (rules_in (sender_in lengths.now) def)) }
    {
        let level = lengths.of_level(def);
        let cost = LevelCost::new(lengths.book, def, &level);
        let listed = exits_by(
            alloc,
            rules_of(lengths.book, def),
            recording,
            lengths,
            &cost,
        )?;
        Ok(Exits {
            base: cost.base,
            listed,
            beside: cost.beside,
        })
    }
}

fn exits_by<A: Book>(
    alloc: Global,
    rules: &[DRule],
    recording: &Recording,
    lengths: &Lengths<'_, A>,
    cost: &LevelCost,
) -> Result<Vec<(usize, u64)>, AllocError>
    ensures { IfOk result (λ listed. listed.items
        ≡ filter_map (exit_by recording.now (costs_of lengths.now).listed cost.now) rules.now) }
{
    let mut listed = Vec::new(alloc);
    for rule in rules {
        push_exit(&mut listed, exit_by(rule, recording, lengths, cost))?;
    }
    Ok(listed)
}

fn push_exit(listed: &mut Vec<(usize, u64)>, exit: Option<(usize, u64)>) -> Result<(), AllocError>
    ensures { OnOk result (listed.new.items ≡ listed.old.items ++ option_to_list exit) }
{
    if let Some(exit) = exit {
        listed.push(exit)?;
    }
    Ok(())
}

/// The place of the rule's key, if there is something to report of it, with the length of a least level that has one.
fn exit_by<A: Book>(
    rule: &DRule,
    recording: &Recording,
    lengths: &Lengths<'_, A>,
    cost: &LevelCost,
) -> Option<(usize, u64)>
    ensures { result ≡ exit_by recording.now (costs_of lengths.now).listed cost.now rule.now }
{
    let key = rule.key?;
    let place = recording.places.get(&key).copied()?;
    Some((place, cost.with_listed(rule, lengths.listed(key))))
}

/// The level of an AVP that is a group for both dictionaries.
#[derive(Drop)]
pub(crate) struct Inner {
    /// The length of a least level.
    pub least: u64,
    pub exits: Exits,
    /// How A's levels break B's rules.
    pub lines: Vec<LevelLine>,
}

/// An AVP of which there is something to report.
#[derive(Drop)]
pub(crate) struct Outlook {
    pub key: Key,
    /// The length of a shortest AVP of the key, where it comes through a wildcard.
    pub other: u64,
    pub inner: Option<Inner>,
}

/// The AVPs of which there is something to report, in the order of `Recording::own`.
pub(crate) fn outlooks<A: Book, B: Book>(
    alloc: Global,
    b: &B,
    recording: &Recording,
    lengths: &Lengths<'_, A>,
) -> Result<Vec<Outlook>, AllocError>
    requires { PicksShortest (sender_in lengths.now) (B.meaning b.now) (costs_of lengths.now) }
    ensures { IfOk result (λ outlooks. AreAllOutlooks
        (sender_in lengths.now) (B.meaning b.now) recording.now (costs_of lengths.now) outlooks.items) }
{
    let mut outlooks = Vec::new(alloc);
    for own in &recording.own {
        let key = own.key;
        let inner = inner_of(alloc, b, key, recording, lengths)?;
        outlooks.push(Outlook {
            key,
            other: lengths.other(key),
            inner,
        })?;
    }
    Ok(outlooks)
}

fn inner_of<A: Book, B: Book>(
    alloc: Global,
    b: &B,
    key: Key,
    recording: &Recording,
    lengths: &Lengths<'_, A>,
) -> Result<Option<Inner>, AllocError>
    requires { PicksShortest (sender_in lengths.now) (B.meaning b.now) (costs_of lengths.now) }
    ensures exact { IfOk result (IsInnerOrNone (sender_in lengths.now) (B.meaning b.now) recording.now (costs_of lengths.now) key) }
    ensures levels { IfOk result (λ inner. IfSome inner (λ inner. AreLinesOf (costs_of lengths.now)
        (group_rules (sender_in lengths.now) key) (group_rules (B.meaning b.now) key) inner.lines.items)) }
{
    let Some(a_def) = group_of(lengths.book, key) else {
        return Ok(None);
    };
    let Some(b_def) = group_of(b, key) else {
        return Ok(None);
    };
    Ok(Some(Inner {
        least: lengths.listed(key).saturating_sub(shortest_head(key)),
        exits: Exits::of(alloc, a_def, recording, lengths)?,
        lines: lengths.lines_between(alloc, a_def, b, b_def)?,
    }))
}
