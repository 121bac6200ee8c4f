//! The known groups around a fault.

ghost use Rattle.std.specs.Prelude.{◌≡◌, IfOk, MatchOption, None, find, option_and_then};
ghost use Rattle.std.specs.Option.{option_map};
ghost use Rattle.dia_wire.specs.Wire.{head_length, padded_length, plain_avp};
ghost use Rattle.dia_valid.specs.Valid.{known};
ghost use Rattle.dia_answer.specs.Failed.{
  IsAround,
  IsStep,
  IsWay,
  count_before,
  counts,
  entered,
  entered_in,
  here,
  innermost,
  is_rule_of,
  least_count,
  may_have,
  up_to,
};
ghost use Rattle.dia_answer.specs.Helds.{plains};
ghost use Rattle.dia_answer.specs.Levels.{plain_inside, plain_level, plain_step, plain_way};
ghost use Rattle.dia_answer.specs.Requests.{AreFront};

use crate::held::Held;
use crate::request::front_of;
use crate::stock::is_listed;
use dia_book::{Book, DRule, Key};
use dia_check::{Fault, Reason, Subject};
use dia_wire::{AVP_HEAD_LENGTH, Avp, HEADER_LENGTH, VENDOR_AVP_HEAD_LENGTH};
use std::alloc::{AllocError, Global};

/// A level of AVPs, and a place in it.
#[derive(Drop)]
pub(crate) struct Level<'a> {
    pub(crate) rules: &'a [DRule],
    pub(crate) bytes: &'a [u8],
    /// Its AVPs, up to bytes with which none begins.
    pub(crate) avps: Vec<Held<'a>>,
    /// The place, in bytes from the level's first.
    pub(crate) place: usize,
}

/// A known group around a place, and its data.
#[derive(Drop)]
pub(crate) struct Step<'a> {
    pub(crate) group: Avp<'a>,
    pub(crate) level: Level<'a>,
}

/// A known group around a place, its rules, and the place in its data.
#[derive(Clone, Copy)]
pub(crate) struct Inside<'a> {
    pub(crate) group: Avp<'a>,
    pub(crate) rules: &'a [DRule],
    pub(crate) place: usize,
}

impl<'a> Level<'a> {
    fn new(
        alloc: Global,
        rules: &'a [DRule],
        bytes: &'a [u8],
        place: usize,
    ) -> Result<Self, AllocError>
        ensures level { IfOk result (λ l. plain_level l
            ≡ record { rules = rules.now; bytes = bytes.now; avps = plains l.avps.items; place = place }) }
        ensures front { IfOk result (λ l. AreFront (plains l.avps.items) bytes.now) }
    {
        let avps = front_of(alloc, bytes)?;
        Ok(Level {
            rules,
            bytes,
            avps,
            place,
        })
    }

    /// The bytes from the place on.
    pub(crate) fn here(&self) -> &'a [u8]
        ensures { result.now ≡ here (plain_level self.now) }
    {
        if self.place < self.bytes.len() {
            &self.bytes[self.place..]
        } else {
            &[]
        }
    }

    /// The known group that begins before the place and doesn't end before it.
    fn group<B: Book>(&self, book: &'a B) -> Option<Inside<'a>>
        ensures { option_map plain_inside result
            ≡ entered_in (B.meaning book.now) self.now.place (plains self.now.avps.items) }
    {
        let mut place = self.place;
        for held in &self.avps {
            if let Some(inside) = entered(book, place, held) {
                return Some(inside);
            }
            place = place.saturating_sub(padded_length(&held.avp));
        }
        None
    }

    /// Whether the fault can be one of this level.
    fn may_have(&self, fault: &Fault) -> bool
        ensures { result ≡ may_have fault.now.reason fault.now.subject (plain_level self.now) }
    {
        match fault.reason {
            Reason::Missing => {
                self.count_before(fault.subject) < least_count(self.rules, fault.subject)
            }
            _ => self.place < self.bytes.len(),
        }
    }

    /// How many AVPs that begin before the place count for the subject.
    fn count_before(&self, subject: Subject) -> usize
        ensures { result ≡ count_before (plain_level self.now) subject }
    {
        let mut place = self.place;
        let mut count = 0;
        for held in &self.avps {
            if place == 0 {
                return count;
            }
            if counts(self.rules, subject, held.key()) {
                count += 1;
            }
            place = place.saturating_sub(padded_length(&held.avp));
        }
        count
    }
}

/// The known group that an AVP is, if it begins before the place, counted from its first byte, and doesn't end before it.
fn entered<'a, B: Book>(book: &'a B, place: usize, held: &Held<'a>) -> Option<Inside<'a>>
    ensures { option_map plain_inside result
        ≡ entered (B.meaning book.now) place (plain_avp held.now.avp) }
{
    let group = held.avp;
    if 0 < place && place <= group.length() {
        let rules = group_rules(book, held.key())?;
        let place = place.saturating_sub(head_length(group.vendor));
        Some(Inside {
            group,
            rules,
            place,
        })
    } else {
        None
    }
}

/// The rules of a known group.
fn group_rules<B: Book>(book: &B, key: Key) -> Option<&[DRule]>
    ensures { option_map (λ r. r.now) result ≡ option_map (λ g. g.rules)
        (option_and_then (λ e. e.group) (known (B.meaning book.now) key)) }
{
    let entry = book.avp(key)?;
    let group = book.group(entry)?;
    Some(&book.def(group).rules)
}

/// The least count of a subject's rule.
fn least_count(rules: &[DRule], subject: Subject) -> usize
    ensures { result ≡ least_count rules.now subject }
{
    match rule_of(rules, subject) {
        Some(rule) => rule.min as usize,
        None => 0,
    }
}

/// The rule that a subject is of.
fn rule_of(rules: &[DRule], subject: Subject) -> Option<DRule>
    ensures { result ≡ find (is_rule_of subject) rules.now }
{
    rules.iter().copied().find(|rule| is_rule_of(subject, rule))
}

fn is_rule_of(subject: Subject, rule: &DRule) -> bool
    ensures { result ≡ is_rule_of subject rule.now }
{
    match subject {
        Subject::Nothing => false,
        Subject::Avp(key) => rule.key == Some(key),
        Subject::Wildcard => rule.key.is_none(),
    }
}

/// Whether an AVP of this key counts for the rule that the subject is of.
fn counts(rules: &[DRule], subject: Subject, key: Key) -> bool
    ensures { result ≡ counts rules.now subject key }
{
    match subject {
        Subject::Nothing => false,
        Subject::Avp(wanted) => key == wanted,
        Subject::Wildcard => !is_listed(rules, key),
    }
}

/// How many bytes an AVP with this Vendor-ID takes before its data.
pub(crate) fn head_length(vendor: Option<u32>) -> usize
    ensures { result ≡ head_length vendor }
{
    match vendor {
        Some(_) => VENDOR_AVP_HEAD_LENGTH,
        None => AVP_HEAD_LENGTH,
    }
}

/// How many bytes an AVP takes with its padding.
pub(crate) fn padded_length(avp: &Avp<'_>) -> usize
    ensures { result ≡ padded_length (plain_avp avp.now) }
{
    (avp.length() + 3) / 4 * 4
}

/// The body of a request, and the groups around its fault, the outermost first.
#[derive(Drop)]
pub(crate) struct Around<'a> {
    pub(crate) outer: Level<'a>,
    pub(crate) groups: Vec<Step<'a>>,
}

impl<'a> Around<'a> {
    pub(crate) fn new<B: Book>(
        alloc: Global,
        book: &'a B,
        rules: &'a [DRule],
        body: &'a [u8],
        fault: &Fault,
    ) -> Result<Self, AllocError>
        ensures around { IfOk result (λ a. IsAround (B.meaning book.now) rules.now body.now fault.now
            (plain_level a.outer) (plain_way a.groups.items)) }
    {
        let place = (fault.place as usize).saturating_sub(HEADER_LENGTH);
        let outer = Level::new(alloc, rules, body, place)?;
        let mut groups = way_from(alloc, book, &outer)?;
        leave(fault, &mut groups);
        Ok(Around { outer, groups })
    }

    /// The bytes of the fault's level from the place on.
    pub(crate) fn here(&self) -> &'a [u8]
        ensures { result.now ≡ here (innermost
            (plain_level self.now.outer) (plain_way self.now.groups.items)) }
    {
        let Some(step) = self.groups.last() else {
            return self.outer.here();
        };
        step.level.here()
    }
}

/// All groups around the place of a level, the outermost first.
fn way_from<'a, B: Book>(
    alloc: Global,
    book: &'a B,
    outer: &Level<'a>,
) -> Result<Vec<Step<'a>>, AllocError>
    ensures { IfOk result
        (λ way. IsWay (B.meaning book.now) (plain_level outer.now) (plain_way way.items)) }
{
    let mut way = Vec::new(alloc);
    let mut next = step_from(alloc, book, outer)?;
    while let Some(step) = next {
        next = step_from(alloc, book, &step.level)?;
        way.push(step)?;
    }
    Ok(way)
}

/// The outermost of these groups.
fn step_from<'a, B: Book>(
    alloc: Global,
    book: &'a B,
    level: &Level<'a>,
) -> Result<Option<Step<'a>>, AllocError>
    ensures { IfOk result (λ found. MatchOption found
        (entered_in (B.meaning book.now) level.now.place (plains level.now.avps.items) ≡ None)
        (λ step. IsStep (B.meaning book.now) (plain_level level.now) (plain_step step))) }
{
    let Some(inside) = level.group(book) else {
        return Ok(None);
    };
    let group = inside.group;
    let level = Level::new(alloc, inside.rules, group.bytes, inside.place)?;
    Ok(Some(Step { group, level }))
}

/// Leaves the innermost groups whose levels can't have the fault.
fn leave(fault: &Fault, way: &mut Vec<Step<'_>>)
    ensures { plain_way way.new.items
        ≡ up_to (may_have fault.now.reason fault.now.subject) (plain_way way.old.items) }
{
    while let Some(step) = way.last() {
        if step.level.may_have(fault) {
            return;
        }
        way.pop();
    }
}
