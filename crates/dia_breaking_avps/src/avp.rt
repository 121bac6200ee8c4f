//! The AVPs of one key.
ghost use Rattle.std.specs.Prelude.{◌≡◌, IsSome, Some};
ghost use Rattle.dia_book.specs.Dictionary.{entry_of};
ghost use Rattle.dia_terms.specs.declared.Unknown.{Unknown as AnyPolicy};
ghost use Rattle.dia_breaking_avps.specs.Breaks.{IsDataBreak, IsHeadBreak, IsSilent, TakesLevels};
ghost use Rattle.dia_breaking_avps.specs.Laws.{FitKeyAlone};
ghost use Rattle.dia_breaking_avps.specs.Sent.{group_of};
ghost use Rattle.dia_breaking_avps.specs.declared.breaking.DataBreak.TheVariants.{Fits as NoBreak};

use crate::breaking::{AvpBreaks, DataBreak, HeadBreak};
use crate::flags::{m_flags, own_policy, refused_flag};
use crate::forms::{sent_leaf, sent_level};
use dia_book::{Book, Entry, Format, Key};
use dia_terms::{Sends, Unknown};

/// What an AVP of the key that A's side sends breaks by itself under B, with this policy for AVPs that B doesn't know. Where A
/// doesn't know the key, and its side sends only AVPs that it knows, nothing breaks. A message needn't have room for an AVP of a
/// key that A knows.
pub fn avp_breaks<A: Book, B: Book>(
    a: &A,
    b: &B,
    key: Key,
    sends: Sends,
    unknown: Unknown,
) -> AvpBreaks
    ensures head { IsHeadBreak (A.meaning a.now) (B.meaning b.now) sends unknown key result.head }
    ensures content { IsDataBreak (A.meaning a.now) (B.meaning b.now) sends unknown key result.data }
    ensures levels { IsSome (group_of (A.meaning a.now) key) → result.data ≡ NoBreak
        → TakesLevels (A.meaning a.now) (B.meaning b.now) sends key }
    ensures alone { IsSilent result
        → FitKeyAlone (A.meaning a.now) (B.meaning b.now) sends unknown key }
{
    let head = head_break(a, b, key, sends, unknown);
    let data = data_break(a, b, key, sends);
    AvpBreaks { head, data }
}

/// What breaks of the M flags.
fn head_break<A: Book, B: Book>(
    a: &A,
    b: &B,
    key: Key,
    sends: Sends,
    unknown: Unknown,
) -> Option<HeadBreak>
    ensures { IsHeadBreak (A.meaning a.now) (B.meaning b.now) sends unknown key result }
{
    let sent = m_flags(a, key, own_policy(sends));
    let m = refused_flag(sent, m_flags(b, key, unknown))?;
    match b.avp(key) {
        Some(_) => Some(HeadBreak::MBit { m }),
        None => Some(HeadBreak::Unknown { m }),
    }
}

/// What breaks of the data.
fn data_break<A: Book, B: Book>(a: &A, b: &B, key: Key, sends: Sends) -> DataBreak
    ensures content { (u : AnyPolicy)
        → IsDataBreak (A.meaning a.now) (B.meaning b.now) sends u key result }
    ensures levels { IsSome (group_of (A.meaning a.now) key) → result ≡ NoBreak
        → TakesLevels (A.meaning a.now) (B.meaning b.now) sends key }
{
    match b.avp(key) {
        Some(entry) => known_break(a, b, key, entry, sends),
        None => DataBreak::Fits,
    }
}

/// What breaks of the data of an AVP that B knows. Of one that A doesn't know any data is sent.
fn known_break<A: Book, B: Book>(a: &A, b: &B, key: Key, entry: Entry, sends: Sends) -> DataBreak
    requires { Some entry ≡ entry_of (B.meaning b.now) key }
    ensures content { (u : AnyPolicy)
        → IsDataBreak (A.meaning a.now) (B.meaning b.now) sends u key result }
    ensures levels { IsSome (group_of (A.meaning a.now) key) → result ≡ NoBreak
        → TakesLevels (A.meaning a.now) (B.meaning b.now) sends key }
{
    match a.avp(key) {
        Some(own) => match a.group(own) {
            Some(group) => sent_level(a, group, sends, b, entry),
            None => sent_leaf(a.format(own), b, entry),
        },
        None => match sends {
            Sends::Any => sent_leaf(&Format::OctetString, b, entry),
            Sends::Known | Sends::Filled | Sends::Listed => DataBreak::Fits,
        },
    }
}
