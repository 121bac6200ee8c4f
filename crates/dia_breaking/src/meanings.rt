//! AVPs whose data B's side accepts and reads as another format.
ghost use Rattle.std.specs.Prelude.{◌≡◌, ◌↔◌, IsSome, IsTrue};
ghost use Rattle.dia_data.specs.Plain.{plain_format};
ghost use Rattle.dia_breaking_avps.specs.Breaks.{IsDataBreak, TakesLevels};
ghost use Rattle.dia_breaking_avps.specs.Sent.{group_of};
ghost use Rattle.dia_breaking_avps.specs.declared.breaking.DataBreak.TheVariants.{Fits as NoBreak};
ghost use Rattle.dia_breaking.specs.Meanings.{AreAlike, AreOtherFormats, IsReadAsOther, ShareFlags, share_flag};
ghost use Rattle.dia_breaking.specs.Sides.{sides};

use crate::books::{format_of, group_of, m_rule_of};
use dia_book::{Book, Format, Key, MRule};
use dia_breaking_avps::{AvpBreaks, DataBreak};
use dia_data::format_below;
use dia_terms::{Sends, Unknown};

/// Whether B's side accepts all data of AVPs of the key, and reads them as another format. `breaks` says how these break.
pub(crate) fn is_read_as_other<A: Book, B: Book>(
    a: &A,
    b: &B,
    key: Key,
    sends: Sends,
    unknown: Unknown,
    breaks: &AvpBreaks,
) -> bool
    requires content { IsDataBreak (A.meaning a.now) (B.meaning b.now) sends unknown key breaks.now.data }
    requires levels { IsSome (group_of (A.meaning a.now) key) → breaks.now.data ≡ NoBreak
        → TakesLevels (A.meaning a.now) (B.meaning b.now) sends key }
    ensures { IsTrue result ↔ IsReadAsOther (sides (A.meaning a.now) (B.meaning b.now) sends unknown) key }
{
    match breaks.data {
        DataBreak::Fits => are_other_formats(a, b, key) && share_flags(a, b, key),
        DataBreak::Groups { .. } => false,
        DataBreak::Data(_) => false,
        DataBreak::LeastLevel => false,
        DataBreak::EightBytes => false,
        DataBreak::Undecided => false,
    }
}

/// Whether both know the AVPs, and B's format for them is another than A's: a level for one of them alone, or leaves, and A's
/// format isn't below B's.
fn are_other_formats<A: Book, B: Book>(a: &A, b: &B, key: Key) -> bool
    ensures { IsTrue result ↔ AreOtherFormats (A.meaning a.now) (B.meaning b.now) key }
{
    match (format_of(a, key), format_of(b, key)) {
        (Some(sent), Some(read)) => !are_alike(a, b, key, sent, read),
        _ => false,
    }
}

/// Whether the AVPs are levels for both, or leaves for both, and A's format is below B's.
fn are_alike<A: Book, B: Book>(a: &A, b: &B, key: Key, sent: &Format, read: &Format) -> bool
    ensures { IsTrue result ↔ AreAlike (A.meaning a.now) (B.meaning b.now) key (plain_format sent.now) (plain_format read.now) }
{
    match (group_of(a, key), group_of(b, key)) {
        (Some(_), Some(_)) => true,
        (None, None) => format_below(sent, read),
        (Some(_), None) => false,
        (None, Some(_)) => false,
    }
}

/// Whether both dictionaries know the AVPs, and allow one M flag together.
fn share_flags<A: Book, B: Book>(a: &A, b: &B, key: Key) -> bool
    ensures { IsTrue result ↔ ShareFlags (A.meaning a.now) (B.meaning b.now) key }
{
    match (m_rule_of(a, key), m_rule_of(b, key)) {
        (Some(sent), Some(read)) => share_flag(sent, read),
        _ => false,
    }
}

/// Whether one M flag meets both rules.
fn share_flag(sent: MRule, read: MRule) -> bool
    ensures { result ≡ share_flag sent read }
{
    match (sent, read) {
        (MRule::Must, MRule::MustNot) => false,
        (MRule::MustNot, MRule::Must) => false,
        _ => true,
    }
}
