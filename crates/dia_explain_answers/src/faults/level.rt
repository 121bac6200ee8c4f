//! The level of a fault, and the rule that counts its AVP there.

use crate::books::{Level, avp_of, definition, rule_at, slot, wildcard_of};
use crate::faults::avp_bytes::{head_of, part};
use crate::faults::in_body::InBody;
use dia_book::{DRule, Definition, Key, Slot};
use dia_check::{Reason, Subject};
use dia_dict::IndexedBook;
use dia_wire::{Avps, HEADER_LENGTH, key, next_avp};

/// A rule that counts the AVP of a fault: its place in the definition, the rule, and how many AVPs before the fault it counts.
#[derive(Clone, Copy)]
pub struct Counting {
    pub place: usize,
    pub rule: DRule,
    pub found: u32,
}

impl<'a> InBody<'a> {
    /// The level, and where it begins and ends in the message.
    pub fn level(&self) -> (Level, usize, usize) {
        match self.groups.last() {
            Some(group) => {
                let head = head_of(part(self.message.bytes, group.place, group.end));
                let begin = group.place.saturating_add(head);
                (Level::Group(group.key), begin, group.end)
            }
            None => (self.body, HEADER_LENGTH, self.message.bytes.len()),
        }
    }

    /// Where the level begins in the message, and its bytes.
    pub fn bytes(&self) -> (usize, &'a [u8]) {
        let (_, begin, end) = self.level();
        (begin, part(self.message.bytes, begin, end))
    }

    /// The bytes of the level from the fault on.
    pub fn own(&self) -> &'a [u8] {
        let (_, _, end) = self.level();
        part(self.message.bytes, self.fault.place as usize, end)
    }

    /// What the level is made of.
    pub fn def(&self) -> Option<&'a Definition> {
        definition(self.side.book, self.level().0)
    }

    /// This fault in the innermost of its open groups that continues after the place, or ends there and lacks the AVP of the
    /// fault; else in the body.
    pub fn in_level(&self) -> Self {
        let place = self.fault.place as usize;
        let mut fault = *self;
        for _ in self.groups {
            fault.counting = fault.rule();
            let (_, _, end) = fault.level();
            if place < end || fault.lacks() {
                return fault;
            }
            let outer = fault.groups.len().saturating_sub(1);
            fault.groups = fault.groups.get(..outer).unwrap_or(fault.groups);
        }
        fault.counting = fault.rule();
        fault
    }

    /// The rule that counts the AVP of the fault in the level. For an AVP that no rule names it is the wildcard's.
    fn rule(&self) -> Option<Counting> {
        let (level, begin, _) = self.level();
        let own = match self.key() {
            Some(key) => slot(self.side.book, level, key),
            None => Slot::Unlisted,
        };
        let def = definition(self.side.book, level);
        let place = match own {
            Slot::Fixed(place) | Slot::Loose(place) => Some(place),
            Slot::Unlisted => wildcard_of(def),
        };
        let before = part(self.message.bytes, begin, self.fault.place as usize);
        Some(Counting {
            place: place?,
            rule: rule_at(def, place)?,
            found: count(self.side.book, level, own, before),
        })
    }

    /// Whether the level has fewer AVPs than the rule for the AVP of the fault requires.
    fn lacks(&self) -> bool {
        match self.counting {
            Some(Counting { rule, found, .. }) if self.fault.reason == Reason::Missing => {
                found < rule.min && rule.key.is_none() == (self.fault.subject == Subject::Wildcard)
            }
            _ => false,
        }
    }
}

/// How many of some AVPs of a level belong to a slot.
fn count(book: &IndexedBook, level: Level, own: Slot, avps: &[u8]) -> u32 {
    let mut found = 0u32;
    for avp in Avps::new(avps) {
        match avp {
            Ok(avp) if slot(book, level, key(&avp)) == own => found = found.saturating_add(1),
            _ => {}
        }
    }
    found
}

/// How many bytes precede the first AVP with one of these keys, and its key.
pub fn find_key(avps: &[u8], keys: &[Key]) -> Option<(usize, Key)> {
    let mut rest = avps;
    for _ in avps {
        let Ok(Some((avp, next))) = next_avp(rest) else {
            return None;
        };
        let found = key(&avp);
        if keys.contains(&found) {
            return Some((avps.len().saturating_sub(rest.len()), found));
        }
        rest = next;
    }
    None
}

/// How many bytes precede the first unknown AVP of the code of a key and another vendor; and this vendor.
pub fn find_other_vendor(book: &IndexedBook, avps: &[u8], wanted: Key) -> Option<(usize, u32)> {
    let mut rest = avps;
    for _ in avps {
        let Ok(Some((avp, next))) = next_avp(rest) else {
            return None;
        };
        let found = key(&avp);
        if found.code == wanted.code && avp_of(book, found).is_none() {
            return Some((avps.len().saturating_sub(rest.len()), found.vendor));
        }
        rest = next;
    }
    None
}
