//! The lines of AVPs that break by themselves.
ghost use Rattle.std.specs.Prelude.{◌≡◌, [], None, IfOk, IfSome, MatchBool, OnOk, drop, option_to_list, slice_get};
ghost use Rattle.std.specs.Option.{option_map, option_map_or};
ghost use Rattle.dia_data.specs.Leaf.{IsLeafAnswer};
ghost use Rattle.dia_data.specs.Plain.{plain_format};
ghost use Rattle.dia_breaking_shortest.specs.Bytes.{least_avp};
ghost use Rattle.dia_breaking.specs.Listing.{AddsRecorded, KeepsUnchecked, head_cause, own_cause, own_line};
ghost use Rattle.dia_breaking.specs.Listing.{own_lines, reach_at, reached_line, subject, subject_with, with_data};
ghost use Rattle.dia_breaking.specs.OwnBreaks.{HasDataBreak, KeepsData, RecordsIfBreaks, eight_cause};
ghost use Rattle.dia_breaking.specs.Sender.{costs_of};
ghost use Rattle.dia_breaking.specs.Tried.{IsRecordedOfTry, TakesAsLeaf};
ghost use Rattle.dia_breaking.specs.Upgrades.{KeepsIfKnown, sides_of};

use crate::books::format_of;
use crate::line::{Cause, Line};
use crate::lines::push_with_room;
use crate::own_breaks::OwnBreaks;
use crate::sites::Numbers;
use crate::upgrade::Upgrade;
use dia_book::{Book, Format, Key};
use dia_breaking_avps::{DataBreak, HeadBreak};
use dia_breaking_data::Witness;
use dia_breaking_levels::TOO_LONG;
use dia_breaking_shortest::{push_least, shortest_head};
use dia_breaking_ways::Reach;
use dia_data::{Leaf, accepts};
use std::alloc::{AllocError, Global};

/// The most bytes of a shortest AVP whose data are tried, where it is Grouped for A, and UTF8String or Address for B.
const MOST_TRIED: u64 = 65_536;

/// What is reported of an AVP by itself, in the order of the lines of a site.
#[derive(Clone, Copy)]
pub(crate) enum Kind {
    /// B doesn't know it.
    Unknown,
    /// B's rule forbids an M flag.
    MBit,
    /// Its data.
    Data,
    /// Nothing: its data are read as another format.
    Meaning,
}

impl<'a, A: Book, B: Book> Upgrade<'a, A, B> {
    /// Adds the lines of one kind of the AVPs that break by themselves, in the order of their places.
    pub(crate) fn push_own_lines(
        &self,
        alloc: Global,
        kind: Kind,
        numbers: Numbers,
        reached: &[Option<Reach>],
        lines: &mut Vec<Line>,
    ) -> Result<(), AllocError>
        ensures recorded { OnOk result (AddsRecorded lines.old.items lines.new.items
            (own_lines kind numbers.first numbers.count self.now.own.items reached.now)) }
        ensures formats { OnOk result (KeepsIfKnown self.now lines.old.items lines.new.items) }
        ensures unchecked { OnOk result (KeepsUnchecked lines.old.items lines.new.items) }
    {
        for place in 0..self.own.len() {
            self.push_own_at(alloc, kind, numbers, reached, place, lines)?;
        }
        Ok(())
    }

    fn push_own_at(
        &self,
        alloc: Global,
        kind: Kind,
        numbers: Numbers,
        reached: &[Option<Reach>],
        place: usize,
        lines: &mut Vec<Line>,
    ) -> Result<(), AllocError>
        ensures recorded { OnOk result (AddsRecorded lines.old.items lines.new.items (option_map_or
            (reached_line kind numbers.first numbers.count reached.now place) (slice_get self.now.own.items place) [])) }
        ensures formats { OnOk result (KeepsIfKnown self.now lines.old.items lines.new.items) }
        ensures unchecked { OnOk result (KeepsUnchecked lines.old.items lines.new.items) }
    {
        match self.own.get(place) {
            Some(own) => match reach_at(reached, place) {
                Some(reach) => self.push_own(alloc, kind, numbers, own, &reach, lines),
                None => Ok(()),
            },
            None => Ok(()),
        }
    }

    /// Adds the line of one kind of an AVP that breaks by itself. `reach` is the shortest way to it.
    fn push_own(
        &self,
        alloc: Global,
        kind: Kind,
        numbers: Numbers,
        own: &OwnBreaks,
        reach: &Reach,
        lines: &mut Vec<Line>,
    ) -> Result<(), AllocError>
        ensures recorded { OnOk result (AddsRecorded lines.old.items lines.new.items
            (option_to_list (own_line kind numbers.first numbers.count own.now reach.now))) }
        ensures formats { OnOk result
            (HasDataBreak (sides_of self.now) self.now.lengths.least self.now.lengths.entries.items own.now
            → KeepsData (sides_of self.now) lines.old.items lines.new.items) }
        ensures unchecked { OnOk result (KeepsUnchecked lines.old.items lines.new.items) }
    {
        match self.own_cause(alloc, kind, own, reach.length)? {
            Some((cause, length)) => {
                push_with_room(lines, numbers.site(reach.level), cause, length)
            }
            None => Ok(()),
        }
    }

    /// What breaks of an AVP, and what a message that shows it takes. A message with a least AVP takes `length`.
    fn own_cause(
        &self,
        alloc: Global,
        kind: Kind,
        own: &OwnBreaks,
        length: u64,
    ) -> Result<Option<(Cause, u64)>, AllocError>
        ensures recorded { IfOk result (λ found. option_map subject_with found ≡ own_cause kind own.now length) }
        ensures formats { IfOk result (RecordsIfBreaks (sides_of self.now)
            self.now.lengths.least self.now.lengths.entries.items own.now) }
    {
        match kind {
            Kind::Data => self.data_cause(alloc, own, length),
            Kind::Meaning => Ok(meaning_cause(own, length)),
            Kind::Unknown | Kind::MBit => match own.breaks.head {
                Some(found) => Ok(head_cause(kind, own.key, found).map(|cause| (cause, length))),
                None => Ok(None),
            },
        }
    }

    fn data_cause(
        &self,
        alloc: Global,
        own: &OwnBreaks,
        length: u64,
    ) -> Result<Option<(Cause, u64)>, AllocError>
        ensures recorded { IfOk result (λ found. option_map subject_with found ≡ own_cause Kind.Data own.now length) }
        ensures formats { IfOk result (RecordsIfBreaks (sides_of self.now)
            self.now.lengths.least self.now.lengths.entries.items own.now) }
    {
        let key = own.key;
        match own.breaks.data {
            DataBreak::Fits => Ok(None),
            DataBreak::Groups { .. } => Ok(None),
            DataBreak::Data(data) => {
                let cause = Cause::Format {
                    key,
                    data: Some(data),
                };
                Ok(Some((cause, with_data(own, length, &data))))
            }
            DataBreak::LeastLevel => Ok(Some((Cause::Format { key, data: None }, length))),
            DataBreak::EightBytes => Ok(Some((eight_cause(own), length))),
            DataBreak::Undecided => {
                let cause = self.tried(alloc, key)?;
                Ok(Some((cause, length)))
            }
        }
    }

    /// Whether B's leaf refuses the data of a shortest AVP, if that isn't too long.
    fn tried(&self, alloc: Global, key: Key) -> Result<Cause, AllocError>
        ensures recorded { IfOk result (λ cause. subject cause ≡ Cause.Format key None) }
        ensures exact { IfOk result (IsRecordedOfTry (TakesAsLeaf (sides_of self.now).receiver key) key
            (least_avp (sides_of self.now).sender self.now.lengths.least key) ((costs_of self.now.lengths).listed key)) }
    {
        let Some(format) = format_of(self.b, key) else {
            return Ok(Cause::LevelAsLeaf { key });
        };
        if MOST_TRIED < self.lengths.listed(key) {
            return Ok(Cause::LevelAsLeaf { key });
        }
        let mut bytes = Vec::new(alloc);
        push_least(&mut bytes, self.lengths.book, &self.lengths.least, key)?;
        let head = shortest_head(key) as usize;
        if is_refused(format, &bytes, head) {
            Ok(Cause::Format { key, data: None })
        } else {
            Ok(Cause::LevelAsLeaf { key })
        }
    }
}

/// What breaks of levels that are read as leaves of 8 bytes: the data of a shortest AVP, unless they have 8 bytes.
fn eight_cause(own: &OwnBreaks) -> Cause
    ensures recorded { subject result ≡ Cause.Format own.now.key None }
    ensures cause { result ≡ eight_cause own.now }
{
    let key = own.key;
    if own.least.saturating_sub(shortest_head(key)) == 8 {
        Cause::LevelAsLeaf { key }
    } else {
        Cause::Format { key, data: None }
    }
}

/// That the data are read as another format, in a message with a least AVP.
fn meaning_cause(own: &OwnBreaks, length: u64) -> Option<(Cause, u64)>
    ensures recorded { option_map subject_with result ≡ own_cause Kind.Meaning own.now length }
    ensures cause { IfSome result (λ found. found.0 ≡ Cause.Meaning own.now.key) }
{
    if own.is_other {
        Some((Cause::Meaning { key: own.key }, length))
    } else {
        None
    }
}

/// The shortest way to the AVP at a place.
fn reach_at(reached: &[Option<Reach>], place: usize) -> Option<Reach>
    ensures { result ≡ reach_at reached.now place }
{
    *reached.get(place)?
}

/// What breaks of the head of an AVP, if it is of this kind.
fn head_cause(kind: Kind, key: Key, found: HeadBreak) -> Option<Cause>
    ensures { result ≡ head_cause kind key found }
{
    match (kind, found) {
        (Kind::Unknown, HeadBreak::Unknown { m }) => Some(Cause::Unknown { key, m }),
        (Kind::MBit, HeadBreak::MBit { m }) => Some(Cause::MBit { key, m }),
        _ => None,
    }
}

/// What a message takes with these data in the place of a shortest AVP.
fn with_data(own: &OwnBreaks, length: u64, found: &Witness) -> u64
    ensures { result ≡ with_data own.now length found.now }
{
    let size = shortest_head(own.key).saturating_add(found.as_slice().len() as u64);
    let padded = size.saturating_add(3) / 4 * 4;
    length
        .saturating_sub(own.least)
        .saturating_add(padded)
        .min(TOO_LONG)
}

/// Whether the format refuses what follows so many bytes.
fn is_refused(format: &Format, bytes: &[u8], head: usize) -> bool
    ensures { MatchBool result (¬ IsLeafAnswer Leaf.Fine (plain_format format.now) (drop head bytes.now))
        (IsLeafAnswer Leaf.Fine (plain_format format.now) (drop head bytes.now)) }
{
    match accepts(format, following(bytes, head)) {
        Leaf::Fine => false,
        Leaf::BadLength => true,
        Leaf::BadValue => true,
    }
}

fn following(bytes: &[u8], head: usize) -> &[u8]
    ensures { result.now ≡ drop head bytes.now }
{
    bytes.get(head..).unwrap_or(b"".as_slice())
}
