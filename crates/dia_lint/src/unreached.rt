//! What AVPs no valid message has.
ghost use Rattle.std.specs.Prelude.{◌≡◌, ◌<◌, ◌++◌, length, OnOk, option_to_list};
ghost use Rattle.dia_lint.specs.ExactLines.{AddsAvpLines, avp_lines, of_avp, why_never_listed};
ghost use Rattle.dia_lint.specs.Gathered.{gathered};
ghost use Rattle.dia_lint.specs.ListedAvps.{AreMarked, listed_places};
ghost use Rattle.dia_lint.specs.WayLines.{is_long_group};
ghost use Rattle.dia_lint.specs.Ways.{side_of};

use crate::books::group_of;
use crate::costs::Lengths;
use crate::detail::Detail;
use crate::finding::{Finding, Place, Subject, push};
use crate::held::reached_by;
use crate::levels::has_no_level;
use crate::listed::listed_avps;
use crate::reached::Reached;
use crate::rule::Rule;
use dia_book::{Book, Entry};
use dia_terms::Sends;
use std::alloc::{AllocError, Global};

/// Adds the AVPs that no message has, and those that none has by rules alone, if there is a command.
pub(crate) fn push_unreached<B: Book>(
    alloc: Global,
    found: &mut Vec<Finding>,
    lengths: &Lengths<'_, B>,
    reached: &Reached,
) -> Result<(), AllocError>
    ensures { OnOk result (AddsAvpLines (side_of B.meaning lengths.now) reached.now found.old.items found.new.items) }
{
    if lengths.book.commands() == 0 {
        return Ok(());
    }
    let listed = reached_by(alloc, lengths.book, Sends::Listed)?;
    let named = listed_avps(alloc, lengths.book)?;
    push_avps(found, lengths, reached, &listed, &named)
}

/// The same, where some rule lists the AVPs that are `named`.
fn push_avps<B: Book>(
    found: &mut Vec<Finding>,
    lengths: &Lengths<'_, B>,
    reached: &Reached,
    listed: &Reached,
    named: &[bool],
) -> Result<(), AllocError>
    requires { AreMarked (listed_places (B.meaning lengths.now.book.now)) (length (B.meaning lengths.now.book.now).entries) named.now }
    ensures { OnOk result (found.new.items ≡ found.old.items ++ gathered (avp_lines (side_of B.meaning lengths.now) reached.now
        listed.now) (length (B.meaning lengths.now.book.now).entries)) }
{
    for index in 0..lengths.book.entries() {
        push(
            found,
            avp_finding(
                lengths,
                reached,
                listed,
                named,
                lengths.book.entry_at(index),
            ),
        )?;
    }
    Ok(())
}

/// The finding of an AVP, unless it is a group of which no AVP fits.
fn avp_finding<B: Book>(
    lengths: &Lengths<'_, B>,
    reached: &Reached,
    listed: &Reached,
    named: &[bool],
    entry: Entry,
) -> Option<Finding>
    requires within { entry < length (B.meaning lengths.now.book.now).entries }
    requires named { AreMarked (listed_places (B.meaning lengths.now.book.now)) (length (B.meaning lengths.now.book.now).entries) named.now }
    ensures { option_to_list result ≡ avp_lines (side_of B.meaning lengths.now) reached.now listed.now entry }
{
    if is_long_group(lengths, entry) {
        return None;
    }
    if !reached.has(entry) {
        return Some(about_avp(entry, Rule::NeverHeld, Detail::NotHeld));
    }
    if !listed.has(entry) {
        let detail = why_never_listed(lengths, named, entry);
        return Some(about_avp(entry, Rule::NeverListed, detail));
    }
    None
}

/// Why no message has the AVP by rules alone.
fn why_never_listed<B: Book>(lengths: &Lengths<'_, B>, named: &[bool], entry: Entry) -> Detail
    requires within { entry < length (B.meaning lengths.now.book.now).entries }
    requires named { AreMarked (listed_places (B.meaning lengths.now.book.now)) (length (B.meaning lengths.now.book.now).entries) named.now }
    ensures { result ≡ why_never_listed (B.meaning lengths.now.book.now) entry }
{
    if named.get(entry.index()).copied().unwrap_or(false) {
        Detail::NotByRulesAlone
    } else {
        Detail::OnlyWildcards
    }
}

/// Whether it is a group of which no AVP fits.
fn is_long_group<B: Book>(lengths: &Lengths<'_, B>, entry: Entry) -> bool
    requires { entry < length (B.meaning lengths.now.book.now).entries }
    ensures { result ≡ is_long_group (side_of B.meaning lengths.now) entry }
{
    group_of(lengths.book, entry).is_some() && has_no_level(lengths, entry)
}

fn about_avp(entry: Entry, rule: Rule, detail: Detail) -> Finding
    ensures { result ≡ of_avp entry rule detail }
{
    Finding {
        rule,
        place: Place::Avp(entry),
        subject: Subject::Avp(entry),
        detail,
    }
}
