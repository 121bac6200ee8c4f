//! What no valid message has.
ghost use Rattle.std.specs.Prelude.{◌≡◌, ◌<◌, ◌++◌, find, length, IfOk, OnOk, option_to_list};
ghost use Rattle.dia_book.specs.Dictionary.{definitions};
ghost use Rattle.dia_lint.specs.Costs.{sender_of};
ghost use Rattle.dia_lint.specs.Exact.{AreAscending, AreOfMessages, NoLevelIsExact, NoMessageIsExact, OthersHaveAvps};
ghost use Rattle.dia_lint.specs.Exact.{OthersHaveMessages, is_no_level, is_no_message, reported};
ghost use Rattle.dia_lint.specs.ExactLines.{AreExactLines, command_lines, definition_lines, group_lines, is_of, is_unmet};
ghost use Rattle.dia_lint.specs.ExactLines.{level_lines, message_lines, rules_lines, stands_lines, unmet_by, unmet_in, why_never};
ghost use Rattle.dia_lint.specs.Gathered.{gathered};
ghost use Rattle.dia_lint.specs.Guidelines.{at_head};
ghost use Rattle.dia_lint.specs.Held.{NeverHeldIsTrue, NeverListedIsTrue, NeverStandsIsTrue, NoOthersIsTrue};
ghost use Rattle.dia_lint.specs.Held.{OthersAreHeld, OthersAreListed, OthersStand, OtherWildcardsStand};
ghost use Rattle.dia_lint.specs.WayLines.{rule_length};
ghost use Rattle.dia_lint.specs.Ways.{side_of};

use crate::books::{command_at, group_of, rules_of};
use crate::costs::Lengths;
use crate::detail::Detail;
use crate::finding::{Finding, Place, Subject, push};
use crate::levels::{LevelCost, has_no_level};
use crate::own_rules::named;
use crate::reached::{Reached, has_room};
use crate::rule::Rule;
use crate::unreached::push_unreached;
use dia_book::{Book, DRule, DefHead, DefId, Entry, Key};
use dia_breaking_levels::TOO_LONG;
use dia_terms::{Sends, Unknown};
use std::alloc::{AllocError, Global};

/// The commands without a valid message, the groups without an AVP that fits, and the rules and AVPs that no valid message has;
/// and the AVPs that only wildcards let in.
pub fn exact_findings<B: Book>(
    alloc: Global,
    book: &B,
    unknown: Unknown,
) -> Result<Vec<Finding>, AllocError>
    ensures lines { IfOk result (λ found. AreExactLines (B.meaning book.now) unknown found.items) }
    ensures rules { IfOk result (λ found. AreOfMessages found.items) }
    ensures no_message { IfOk result (λ found. NoMessageIsExact (B.meaning book.now) unknown found.items) }
    ensures no_level { IfOk result (λ found. NoLevelIsExact (B.meaning book.now) unknown found.items) }
    ensures others_have_messages { IfOk result (λ found. OthersHaveMessages (B.meaning book.now) unknown found.items) }
    ensures others_have_avps { IfOk result (λ found. OthersHaveAvps (B.meaning book.now) unknown found.items) }
    ensures messages_once { IfOk result (λ found. AreAscending (reported is_no_message found.items)) }
    ensures levels_once { IfOk result (λ found. AreAscending (reported is_no_level found.items)) }
    ensures never_held { IfOk result (λ found. NeverHeldIsTrue (B.meaning book.now) unknown found.items) }
    ensures never_listed { IfOk result (λ found. NeverListedIsTrue (B.meaning book.now) found.items) }
    ensures never_stands { IfOk result (λ found. NeverStandsIsTrue (B.meaning book.now) unknown found.items) }
    ensures no_others { IfOk result (λ found. NoOthersIsTrue (B.meaning book.now) unknown found.items) }
    ensures others_are_held { IfOk result (λ found. OthersAreHeld (B.meaning book.now) unknown found.items) }
    ensures others_are_listed { IfOk result (λ found. OthersAreListed (B.meaning book.now) unknown found.items) }
    ensures others_stand { IfOk result (λ found. OthersStand (B.meaning book.now) unknown found.items) }
    ensures other_wildcards_stand { IfOk result (λ found. OtherWildcardsStand (B.meaning book.now) unknown found.items) }
{
    let lengths = Lengths::new(alloc, book, sender_of(unknown))?;
    let reached = Reached::of(alloc, &lengths)?;
    let mut found = Vec::new(alloc);
    push_groups(&mut found, &lengths, &reached)?;
    push_commands(&mut found, &lengths, &reached)?;
    push_unreached(alloc, &mut found, &lengths, &reached)?;
    Ok(found)
}

/// The side that sends what is valid.
fn sender_of(unknown: Unknown) -> Sends
    ensures { result ≡ sender_of unknown }
{
    match unknown {
        Unknown::Kept => Sends::Any,
        Unknown::Refused => Sends::Known,
    }
}

fn push_groups<B: Book>(
    found: &mut Vec<Finding>,
    lengths: &Lengths<'_, B>,
    reached: &Reached,
) -> Result<(), AllocError>
    ensures { OnOk result (found.new.items ≡ found.old.items ++ gathered (group_lines (side_of B.meaning lengths.now) reached.now)
        (length (B.meaning lengths.now.book.now).entries)) }
{
    for index in 0..lengths.book.entries() {
        push_group(found, lengths, reached, lengths.book.entry_at(index))?;
    }
    Ok(())
}

/// Adds what there is to report of the entry's group, if it has one.
fn push_group<B: Book>(
    found: &mut Vec<Finding>,
    lengths: &Lengths<'_, B>,
    reached: &Reached,
    entry: Entry,
) -> Result<(), AllocError>
    requires { entry < length (B.meaning lengths.now.book.now).entries }
    ensures { OnOk result (found.new.items ≡ found.old.items ++ group_lines (side_of B.meaning lengths.now) reached.now entry) }
{
    match group_of(lengths.book, entry) {
        Some(def) => {
            push(found, no_level(lengths, entry, def))?;
            push_reached(found, lengths, def, reached.way(entry.index()))
        }
        None => Ok(()),
    }
}

/// The finding of a group of which no AVP fits.
fn no_level<B: Book>(lengths: &Lengths<'_, B>, entry: Entry, def: DefId) -> Option<Finding>
    requires { def < length (definitions (B.meaning lengths.now.book.now)) }
    ensures { option_to_list result ≡ level_lines (side_of B.meaning lengths.now) entry def }
{
    if has_no_level(lengths, entry) {
        Some(needs(lengths, def, Rule::NoLevel))
    } else {
        None
    }
}

fn push_commands<B: Book>(
    found: &mut Vec<Finding>,
    lengths: &Lengths<'_, B>,
    reached: &Reached,
) -> Result<(), AllocError>
    ensures { OnOk result (found.new.items ≡ found.old.items ++ gathered (command_lines (side_of B.meaning lengths.now) reached.now)
        (length (B.meaning lengths.now.book.now).commands)) }
{
    for index in 0..lengths.book.commands() {
        push_command(found, lengths, reached, index)?;
    }
    Ok(())
}

/// Adds what there is to report of the command at a place.
fn push_command<B: Book>(
    found: &mut Vec<Finding>,
    lengths: &Lengths<'_, B>,
    reached: &Reached,
    index: usize,
) -> Result<(), AllocError>
    requires { index < length (B.meaning lengths.now.book.now).commands }
    ensures { OnOk result (found.new.items ≡ found.old.items ++ command_lines (side_of B.meaning lengths.now) reached.now index) }
{
    let def = command_at(lengths.book, index);
    push(found, no_message(lengths, def))?;
    push_reached(
        found,
        lengths,
        def,
        reached.way(lengths.book.entries() + index),
    )
}

/// The finding of a command without a valid message.
fn no_message<B: Book>(lengths: &Lengths<'_, B>, def: DefId) -> Option<Finding>
    requires { def < length (definitions (B.meaning lengths.now.book.now)) }
    ensures { option_to_list result ≡ message_lines (side_of B.meaning lengths.now) def }
{
    if LevelCost::of(lengths, def).base >= TOO_LONG {
        Some(needs(lengths, def, Rule::NoMessage))
    } else {
        None
    }
}

/// The finding of a definition whose least level no message has room for.
fn needs<B: Book>(lengths: &Lengths<'_, B>, def: DefId, rule: Rule) -> Finding
    requires { def < length (definitions (B.meaning lengths.now.book.now)) }
    ensures { result ≡ at_head def rule (unmet_in (side_of B.meaning lengths.now) def) }
{
    Finding {
        rule,
        place: Place::Head(def),
        subject: Subject::Definition(def),
        detail: why_unmet(lengths, def),
    }
}

/// Why no message has room for a least level of a definition.
fn why_unmet<B: Book>(lengths: &Lengths<'_, B>, def: DefId) -> Detail
    requires { def < length (definitions (B.meaning lengths.now.book.now)) }
    ensures { result ≡ unmet_in (side_of B.meaning lengths.now) def }
{
    let filler = LevelCost::of(lengths, def).filler;
    let definition = lengths.book.def(def);
    match first_unmet(lengths, filler, &definition.rules) {
        Some(rule) => unmet_by(definition.head, &rule),
        None => Detail::TooLong,
    }
}

/// The first rule whose least count no AVPs meet.
fn first_unmet<B: Book>(lengths: &Lengths<'_, B>, filler: u64, rules: &[DRule]) -> Option<DRule>
    ensures { result ≡ find (is_unmet (side_of B.meaning lengths.now) filler) rules.now }
{
    rules.iter().copied().find(|rule| 0 < rule.min && TOO_LONG <= length_of(lengths, filler, rule))
}

fn unmet_by(head: DefHead, rule: &DRule) -> Detail
    ensures { result ≡ unmet_by head rule.now }
{
    match rule.key {
        Some(key) if is_of(head, key) => Detail::NeedsItself,
        Some(key) => Detail::Needs(key),
        None => Detail::NeedsOthers,
    }
}

/// Whether the definition is that of the key's group.
fn is_of(head: DefHead, key: Key) -> bool
    ensures { result ≡ is_of head key }
{
    match head {
        DefHead::Group(own) => own == key,
        DefHead::Command { .. } => false,
        DefHead::Error { .. } => false,
    }
}

/// The length of a shortest AVP of the rule, where `filler` is that of one that no rule lists.
fn length_of<B: Book>(lengths: &Lengths<'_, B>, filler: u64, rule: &DRule) -> u64
    ensures { result ≡ rule_length (side_of B.meaning lengths.now) filler rule.now }
{
    match rule.key {
        Some(key) => lengths.key(key),
        None => filler,
    }
}

/// Adds the rules of a definition whose AVPs no message has in its levels, where messages have such levels.
fn push_reached<B: Book>(
    found: &mut Vec<Finding>,
    lengths: &Lengths<'_, B>,
    def: DefId,
    way: Option<u64>,
) -> Result<(), AllocError>
    requires { def < length (definitions (B.meaning lengths.now.book.now)) }
    ensures { OnOk result (found.new.items ≡ found.old.items ++ definition_lines (side_of B.meaning lengths.now) def way) }
{
    match way {
        Some(way) => push_rules(found, lengths, def, way),
        None => Ok(()),
    }
}

/// The same, where a message takes so much around them.
fn push_rules<B: Book>(
    found: &mut Vec<Finding>,
    lengths: &Lengths<'_, B>,
    def: DefId,
    way: u64,
) -> Result<(), AllocError>
    requires { def < length (definitions (B.meaning lengths.now.book.now)) }
    ensures { OnOk result (found.new.items ≡ found.old.items ++ rules_lines (side_of B.meaning lengths.now) def way) }
{
    let cost = LevelCost::of(lengths, def);
    let rules = rules_of(lengths.book, def);
    for index in 0..rules.len() {
        push(
            found,
            never_stands(lengths, &cost, way, def, index, &rules[index]),
        )?;
    }
    Ok(())
}

/// The finding of a rule, at a place of its definition, of which no message has an AVP in levels of the definition.
fn never_stands<B: Book>(
    lengths: &Lengths<'_, B>,
    cost: &LevelCost,
    way: u64,
    def: DefId,
    at: usize,
    rule: &DRule,
) -> Option<Finding>
    ensures { option_to_list result ≡ stands_lines (side_of B.meaning lengths.now) cost.now def way at rule.now }
{
    let length = length_of(lengths, cost.filler, rule);
    if rule.max == Some(0) || has_room(way, cost.with(rule, length)) {
        return None;
    }
    Some(Finding {
        rule: Rule::NeverStands,
        place: Place::Rule(def, at),
        subject: Subject::Within(def, named(rule)),
        detail: why_never(rule, length),
    })
}

/// Why no message has an AVP of a rule, of which a shortest one has this length.
fn why_never(rule: &DRule, length: u64) -> Detail
    ensures { result ≡ why_never rule.now length }
{
    match rule.key {
        Some(key) if TOO_LONG <= length => Detail::ThereIsNo(key),
        Some(_) => Detail::NoRoom,
        None => Detail::NoneLeft,
    }
}
