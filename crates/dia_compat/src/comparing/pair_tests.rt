//! The test of a pair itself, and which test its definitions fail.
ghost use Rattle.std.specs.Prelude.{◌≡◌, ◌<◌, ◌+◌, ◌↔◌, ◌⊎◌};
ghost use Rattle.std.specs.Prelude.{IfSome, IsTrue, Some, length, slice_get};
ghost use Rattle.dia_data.specs.Plain.{Grouped, plain_format};
ghost use Rattle.dia_data.specs.Below.{FormatBelow};
ghost use Rattle.dia_book.specs.Dictionary.{DictEntry, definitions, groups};
ghost use Rattle.dia_compat.specs.PairTests.{all_selected, failed_commands, failed_groups, failed_rules};
ghost use Rattle.dia_valid.specs.Rules.{rules_in};
ghost use Rattle.dia_compat.specs.Closed.{AvpPair};
ghost use Rattle.dia_compat.specs.FirstFailures.{FailsEntries};

use super::commands::may_stand_for;
use super::covers::Cover;
use super::nine_tests::failed_rules;
use crate::checking::Test;
use dia_book::{Book, DefId, Entry, Format, MRule};
use dia_data::format_below;

/// The first test that a pair of commands fails, by their places. `selected` says that the table has what may be selected for
/// messages of the first.
pub(super) fn failed_commands<A: Book, B: Book>(
    cover: &Cover<'_, A, B>,
    first: usize,
    second: usize,
    selected: bool,
) -> Option<Test>
    requires first { first < length cover.now.sides.first.commands }
    requires second { second < length cover.now.sides.second.commands }
    requires selected { slice_get (all_selected cover.now) first ≡ Some selected }
    ensures { result ≡ failed_commands cover.now (length (groups cover.now.sides.first) + first)
        (length (groups cover.now.sides.second) + second) }
{
    let sides = cover.sides();
    let a = sides.first();
    let b = sides.second();
    let first = a.command_at(first);
    let second = b.command_at(second);
    if may_stand_for(a.def(first), b.def(second)) && selected {
        failed_definitions(cover, first, second)
    } else {
        Some(Test::N10)
    }
}

/// The first test that a pair of AVPs fails, by their places.
pub(super) fn failed_avps<A: Book, B: Book>(
    cover: &Cover<'_, A, B>,
    first: Entry,
    second: Entry,
) -> Option<Test>
    requires first { first < length cover.now.sides.first.entries }
    requires second { second < length cover.now.sides.second.entries }
    ensures { FailsEntries cover.now first second result }
{
    let a = cover.sides().first();
    let b = cover.sides().second();
    if !is_avp_pair(a, b, first, second) {
        return Some(Test::N10);
    }
    failed_groups(cover, a.group(first), b.group(second))
}

/// The first test that two definitions fail.
fn failed_definitions<A: Book, B: Book>(
    cover: &Cover<'_, A, B>,
    first: DefId,
    second: DefId,
) -> Option<Test>
    requires first { first < length (definitions cover.now.sides.first) }
    requires second { second < length (definitions cover.now.sides.second) }
    ensures { result ≡ failed_rules cover.now (rules_in cover.now.sides.first first)
        (rules_in cover.now.sides.second second) }
{
    let sides = cover.sides();
    failed_rules(
        &sides.first_rules(first),
        &sides.second_rules(second),
        cover,
    )
}

/// The first test that the definitions of two Grouped AVPs fail.
fn failed_groups<A: Book, B: Book>(
    cover: &Cover<'_, A, B>,
    first: Option<DefId>,
    second: Option<DefId>,
) -> Option<Test>
    requires first { IfSome first (λ x. x < length (definitions cover.now.sides.first)) }
    requires second { IfSome second (λ y. y < length (definitions cover.now.sides.second)) }
    ensures { result ≡ failed_groups cover.now first second }
{
    match first {
        Some(first) => match second {
            Some(second) => failed_definitions(cover, first, second),
            None => None,
        },
        None => None,
    }
}

/// Whether two AVPs have one key, the second's M rule is the first's or leaves M open, and its format is one that the first's
/// is below, or both are Grouped.
fn is_avp_pair<A: Book, B: Book>(a: &A, b: &B, first: Entry, second: Entry) -> bool
    requires first { first < length (A.meaning a.now).entries }
    requires second { second < length (B.meaning b.now).entries }
    ensures { (e f : DictEntry) → slice_get (A.meaning a.now).entries first ≡ Some e
        → slice_get (B.meaning b.now).entries second ≡ Some f → IsTrue result ↔ AvpPair e f }
{
    a.entry_key(first) == b.entry_key(second)
        && is_m_kept(a.rule(first), b.rule(second))
        && is_format_kept(a.format(first), b.format(second))
}

pub(super) fn is_m_kept(rule: MRule, other: MRule) -> bool
    ensures { IsTrue result ↔ (other ≡ MRule.Any) ⊎ (other ≡ rule) }
{
    match other {
        MRule::Any => true,
        MRule::Must => rule == MRule::Must,
        MRule::MustNot => rule == MRule::MustNot,
    }
}

pub(super) fn is_format_kept(format: &Format, other: &Format) -> bool
    ensures { IsTrue result ↔ FormatBelow (plain_format format.now) (plain_format other.now) ⊎
        ((plain_format format.now ≡ Grouped) × (plain_format other.now ≡ Grouped)) }
{
    format_below(format, other) || (is_grouped(format) && is_grouped(other))
}

fn is_grouped(format: &Format) -> bool
    ensures { IsTrue result ↔ (plain_format format.now ≡ Grouped) }
{
    matches!(format, Format::Grouped)
}
