//! Data of one form, which a receiver reads as another: any bytes, leaves of a format, or levels of AVPs.

ghost use Rattle.std.specs.Prelude.{◌≡◌, ◌<◌, ◌↔◌, ℕ, List, Some, IsTrue, length, slice_get};
ghost use Rattle.std.specs.Option.{option_map};
ghost use Rattle.dia_data.specs.Leaf.{IsLeaf};
ghost use Rattle.dia_data.specs.Plain.{plain_format};
ghost use Rattle.dia_book.specs.Dictionary.{Dictionary, DictEntry, PlainDefinition, definitions};
ghost use Rattle.dia_terms.specs.declared.Unknown.{Unknown as AnyPolicy};
ghost use Rattle.dia_valid.specs.Valid.{Fits, IsLevel};
ghost use Rattle.dia_breaking_data.specs.Shortest.{witness_bytes};
ghost use Rattle.dia_breaking_avps.specs.Answers.{IsShortestBreak, IsEntryData, IsLeafBreak};
ghost use Rattle.dia_breaking_avps.specs.Answers.{IsLevelAsLeaf, IsLevelBreak, break_of};
ghost use Rattle.dia_breaking_avps.specs.Levels.{AskForNone};

use crate::addresses::level_as_address;
use crate::breaking::DataBreak;
use dia_book::{Book, DRule, DefId, Entry, Format};
use dia_breaking_data::{Witness, shortest, witness};
use dia_data::FormatKind;
use dia_terms::Sends;

/// What breaks of leaves of a format, where B's entry says how they are read.
pub(crate) fn sent_leaf<B: Book>(format: &Format, b: &B, entry: Entry) -> DataBreak
    requires { entry < length (B.meaning b.now).entries }
    ensures { (u : AnyPolicy) (e : DictEntry) → slice_get (B.meaning b.now).entries entry ≡ Some e
        → IsLeafBreak (IsLeaf (plain_format format.now)) (IsEntryData (B.meaning b.now) u e) result }
{
    match b.group(entry) {
        Some(group) => break_of(shortest_no_level(format, &b.def(group).rules)),
        None => break_of(witness(format, b.format(entry))),
    }
}

fn break_of(found: Option<Witness>) -> DataBreak
    ensures { result ≡ break_of found }
{
    match found {
        Some(data) => DataBreak::Data(data),
        None => DataBreak::Fits,
    }
}

/// What breaks of levels of a group of A, where B's entry says how they are read.
pub(crate) fn sent_level<A: Book, B: Book>(
    a: &A,
    group: DefId,
    sends: Sends,
    b: &B,
    entry: Entry,
) -> DataBreak
    requires group { group < length (definitions (A.meaning a.now)) }
    requires entry { entry < length (B.meaning b.now).entries }
    ensures { (x : PlainDefinition) (e : DictEntry) → slice_get (definitions (A.meaning a.now)) group ≡ Some x
        → slice_get (B.meaning b.now).entries entry ≡ Some e
        → IsLevelBreak (A.meaning a.now) (B.meaning b.now) sends group x.rules e result }
{
    match b.group(entry) {
        Some(other) => DataBreak::Groups { a: group, b: other },
        None => level_as_leaf(a, sends, &a.def(group).rules, b.format(entry)),
    }
}

/// What breaks of levels of these rules that are read as leaves of a format.
fn level_as_leaf<A: Book>(a: &A, sends: Sends, rules: &[DRule], format: &Format) -> DataBreak
    ensures { IsLevelAsLeaf (A.meaning a.now) sends rules.now (plain_format format.now) result }
{
    match format.kind() {
        FormatKind::AnyBytes => DataBreak::Fits,
        FormatKind::EightBytes(_) => DataBreak::EightBytes,
        FormatKind::Address => level_as_address(a, sends, rules),
        FormatKind::Utf8String => DataBreak::Undecided,
        FormatKind::FourBytes(_)
        | FormatKind::Grouped
        | FormatKind::DiameterIdentity
        | FormatKind::DiameterUri
        | FormatKind::Enumerated => DataBreak::LeastLevel,
    }
}

/// Shortest data of the format that is no level of these rules; none where the format has no data. A level is empty or has 8
/// bytes, and an AVP isn't as short as an AVP Length of 0 says.
fn shortest_no_level(format: &Format, rules: &[DRule]) -> Option<Witness>
    ensures { (d : Dictionary) (u : AnyPolicy)
        → IsShortestBreak (IsLeaf (plain_format format.now)) (λ bytes. (n : ℕ) × IsLevel (Fits d u n) rules.now bytes)
        (option_map witness_bytes result) }
{
    let least = shortest(format)?;
    let length = least.as_slice().len();
    if length == 8 {
        Some(Witness::new(&[0; 8]))
    } else if length > 0 {
        Some(least)
    } else if asks_for_none(rules) {
        Some(Witness::new(b"a"))
    } else {
        Some(least)
    }
}

/// Whether an empty level is as the rules say.
pub(crate) fn asks_for_none(rules: &[DRule]) -> bool
    ensures { IsTrue result ↔ AskForNone rules.now }
{
    rules.iter().all(|rule| rule.min == 0)
}
