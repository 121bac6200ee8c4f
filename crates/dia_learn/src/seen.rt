//! What is kept of the levels of messages.
ghost use Rattle.std.specs.Prelude.{◌≡◌, [], OnOk, cond, max, true};
ghost use Rattle.dia_wire.specs.declared.Key.{Key as AnyKey};
ghost use Rattle.dia_wire.specs.Wire.{key_of, plain_avp};
ghost use Rattle.dia_book.specs.Keys.{same_key};
ghost use Rattle.dia_learn.specs.declared.place.Place.{Place as AnyPlace};
ghost use Rattle.dia_learn.specs.Levels.{has_m, same_place, same_spot};
ghost use Rattle.dia_learn.specs.Kept.{IsKept, flags_of, is_in, most_of, with_flag};

use crate::place::{Place, Spot};
use dia_wire::{Avp, Key, key};
use indexmap::{IndexMap, IndexSet};
use std::alloc::{AllocError, Global};

/// The M flags of the AVPs of one key (RFC 6733 section 4.1).
#[derive(Clone, Copy, PartialEq, Eq)]
pub struct Flags {
    /// Some AVP has M set.
    pub set: bool,
    /// Some AVP has M clear.
    pub clear: bool,
}

/// What is kept of the levels that were read, whatever their order.
#[derive(Drop)]
pub struct Seen {
    /// Where there was a level.
    pub places: IndexSet<Place>,
    /// The M flags of the AVPs of each key.
    pub flags: IndexMap<Key, Flags>,
    /// The greatest count of a key in one level.
    pub most: IndexMap<Spot, usize>,
}

impl Seen {
    /// No level was read.
    pub fn new(alloc: Global) -> Self
        ensures { IsKept [] result }
    {
        Seen {
            places: IndexSet::new(alloc),
            flags: IndexMap::new(alloc),
            most: IndexMap::new(alloc),
        }
    }

    /// There is a level at this place.
    pub(crate) fn open(&mut self, place: Place) -> Result<(), AllocError>
        ensures places { OnOk result ((w : AnyPlace) → is_in self.new w ≡ cond (same_place place w) true (is_in self.old w)) }
        ensures flags { OnOk result (self.new.flags ≡ self.old.flags) }
        ensures most { OnOk result (self.new.most ≡ self.old.most) }
    {
        self.places.insert(place)?;
        Ok(())
    }

    /// A level of this place has one more AVP, so many of its key now.
    pub(crate) fn note(
        &mut self,
        place: Place,
        avp: &Avp<'_>,
        count: usize,
    ) -> Result<(), AllocError>
        ensures places { OnOk result (self.new.places ≡ self.old.places) }
        ensures flags { OnOk result ((k : AnyKey) → flags_of self.new k
            ≡ cond (same_key (key_of (plain_avp avp.now)) k) (with_flag (has_m avp.now.flags) (flags_of self.old k)) (flags_of self.old k)) }
        ensures most { OnOk result ((w : AnyPlace) (k : AnyKey) → most_of self.new w k
            ≡ cond (same_spot (record { place = place; key = key_of (plain_avp avp.now) }) (record { place = w; key = k }))
            (max count (most_of self.old w k)) (most_of self.old w k)) }
    {
        let key = key(avp);
        self.note_flag(key, avp.is_mandatory())?;
        self.note_count(Spot { place, key }, count)
    }

    fn note_flag(&mut self, key: Key, set: bool) -> Result<(), AllocError>
        ensures places { OnOk result (self.new.places ≡ self.old.places) }
        ensures flags { OnOk result ((k : AnyKey) → flags_of self.new k
            ≡ cond (same_key key k) (with_flag set (flags_of self.old k)) (flags_of self.old k)) }
        ensures most { OnOk result (self.new.most ≡ self.old.most) }
    {
        let flags = self.flags_of(key);
        self.flags.insert(
            key,
            Flags {
                set: flags.set || set,
                clear: flags.clear || !set,
            },
        )?;
        Ok(())
    }

    fn note_count(&mut self, spot: Spot, count: usize) -> Result<(), AllocError>
        ensures places { OnOk result (self.new.places ≡ self.old.places) }
        ensures flags { OnOk result (self.new.flags ≡ self.old.flags) }
        ensures most { OnOk result ((w : AnyPlace) (k : AnyKey) → most_of self.new w k
            ≡ cond (same_spot spot (record { place = w; key = k })) (max count (most_of self.old w k)) (most_of self.old w k)) }
    {
        let most = self.most_of(spot);
        self.most.insert(spot, count.max(most))?;
        Ok(())
    }

    /// The M flags of the AVPs of a key.
    pub fn flags_of(&self, key: Key) -> Flags
        ensures { result ≡ flags_of self.now key }
    {
        match self.flags.get(&key) {
            Some(flags) => *flags,
            None => Flags {
                set: false,
                clear: false,
            },
        }
    }

    /// The greatest count of a key in one level of a place.
    pub fn most_of(&self, spot: Spot) -> usize
        ensures { result ≡ most_of self.now spot.place spot.key }
    {
        match self.most.get(&spot) {
            Some(most) => *most,
            None => 0,
        }
    }
}
