//! The levels of a message, one after the other.
ghost use Rattle.std.specs.Prelude.{◌≡◌, ◌⊎◌, [], ◌∷◌, ◌++◌, ◌<◌, ◌+◌, ◌^◌, List, IfNone, IfOk, IfSome, OnOk, cond, drop, length, map, take, ℕ};
ghost use Rattle.std.specs.List.{filter_map};
ghost use Rattle.dia_wire.specs.declared.Key.{Key as AnyKey};
ghost use Rattle.dia_wire.specs.Lengths.{header_length};
ghost use Rattle.dia_wire.specs.Wire.{BeginsWith, BeginsWithNone, IsHead, IsMessageLength, PlainAvp, plain_avp};
ghost use Rattle.dia_book.specs.Keys.{same_key};
ghost use Rattle.dia_learn.specs.Levels.{AreLevelsIn, AreLevelsOf, PlainLevel, Reads, group_number, of_command, of_group};
ghost use Rattle.dia_learn.specs.Kept.{IsKept};
ghost use Rattle.dia_learn.specs.Open.{count_in, group_in, plain_open};

use crate::place::Place;
use crate::seen::Seen;
use dia_book::{Book, Class, DefId};
use dia_check::class_of;
use dia_wire::{Avp, Header, Key, key, next_avp, split_message};
use indexmap::IndexMap;
use std::alloc::{AllocError, Global};

/// A level that has to be read yet.
#[derive(Clone, Copy)]
struct Level<'a> {
    place: Place,
    bytes: &'a [u8],
}

impl Seen {
    /// Takes the levels of a message in, at every depth. Bytes that are no message of a command of the dictionary have none.
    /// After an error a part of them may have been taken in.
    ///
    /// The levels that have to be read yet wait in a list, so depth takes memory and no stack.
    pub fn take_in<B: Book>(
        &mut self,
        alloc: Global,
        book: &B,
        bytes: &[u8],
    ) -> Result<(), AllocError>
        ensures { OnOk result ((ls : List PlainLevel) → IsKept ls self.old
            → (more : List PlainLevel) × AreLevelsOf (B.meaning book.now) bytes.now more × IsKept (more ++ ls) self.new) }
    {
        match split_message(bytes) {
            Ok((header, body)) => self.take_body(alloc, book, &header, body),
            Err(_) => Ok(()),
        }
    }

    /// Takes the levels of a message in that has this header and body.
    fn take_body<B: Book>(
        &mut self,
        alloc: Global,
        book: &B,
        header: &Header,
        body: &[u8],
    ) -> Result<(), AllocError>
        requires { length body.now < 2 ^ 32 }
        ensures { OnOk result ((bytes : List ℕ) → IsHead header.now (length bytes) (take header_length bytes) → IsMessageLength (length bytes)
            → body.now ≡ drop header_length bytes → (ls : List PlainLevel) → IsKept ls self.old
            → (more : List PlainLevel) × AreLevelsOf (B.meaning book.now) bytes more × IsKept (more ++ ls) self.new) }
    {
        let class = class_of(header);
        match book.select(header.code, class, header.app) {
            Some(def) => {
                let place = command_place(def, class, header.app);
                self.take_levels(alloc, book, Level { place, bytes: body })
            }
            None => Ok(()),
        }
    }

    /// Takes in the level and all that lie in it.
    fn take_levels<B: Book>(
        &mut self,
        alloc: Global,
        book: &B,
        level: Level<'_>,
    ) -> Result<(), AllocError>
        requires { length level.bytes.now < 2 ^ 32 }
        ensures { OnOk result ((ls : List PlainLevel) → IsKept ls self.old
            → (more : List PlainLevel) × AreLevelsIn (B.meaning book.now) level.entry.place level.entry.bytes.now more × IsKept (more ++ ls) self.new) }
    {
        let mut open = Vec::new(alloc);
        open.push(level)?;
        while let Some(level) = open.pop() {
            self.take_level(alloc, book, level, &mut open)?;
        }
        Ok(())
    }

    /// Takes in the level, and opens those of its groups.
    fn take_level<'a, B: Book>(
        &mut self,
        alloc: Global,
        book: &B,
        level: Level<'a>,
        open: &mut Vec<Level<'a>>,
    ) -> Result<(), AllocError>
        requires { length level.bytes.now < 2 ^ 32 }
        ensures { OnOk result ((avps : List PlainAvp) × Reads avps level.entry.bytes.now
            × ((ls : List PlainLevel) → IsKept ls self.old → IsKept (record { place = level.entry.place; avps = avps } ∷ ls) self.new)
            × (map plain_open open.new.items ≡ map plain_open open.old.items ++ filter_map (group_in (B.meaning book.now)) avps)) }
    {
        self.open(level.place)?;
        let mut counts = IndexMap::new(alloc);
        let mut rest = level.bytes;
        while let Some((avp, following)) = first_avp(rest) {
            let count = count_one(&mut counts, key(&avp))?;
            self.note(level.place, &avp, count)?;
            open_group(book, &avp, open)?;
            rest = following;
        }
        Ok(())
    }
}

/// What reads the AVPs of a message.
fn command_place(def: DefId, class: Class, app: u32) -> Place
    ensures { result ≡ of_command def class app }
{
    Place {
        def: def.index(),
        app: match class {
            Class::Request | Class::Answer => app,
            Class::Error => 0,
        },
    }
}

/// What reads the data of a group.
fn group_place(def: DefId) -> Place
    ensures { result ≡ of_group def }
{
    Place {
        def: def.index(),
        app: 0,
    }
}

/// The definition of a group that the dictionary knows.
fn group_of<B: Book>(book: &B, avp: &Avp<'_>) -> Option<DefId>
    ensures { result ≡ group_number (B.meaning book.now) (plain_avp avp.now) }
{
    book.group(book.avp(key(avp))?)
}

/// Adds the level that the AVP is, if it is a group that the dictionary knows.
fn open_group<'a, B: Book>(
    book: &B,
    avp: &Avp<'a>,
    open: &mut Vec<Level<'a>>,
) -> Result<(), AllocError>
    ensures { OnOk result (map plain_open open.new.items
        ≡ map plain_open open.old.items ++ filter_map (group_in (B.meaning book.now)) (plain_avp avp.now ∷ [])) }
{
    if let Some(def) = group_of(book, avp) {
        open.push(Level {
            place: group_place(def),
            bytes: avp.bytes,
        })?;
    }
    Ok(())
}

/// The AVP at the front of a level, and what follows it.
fn first_avp(level: &[u8]) -> Option<(Avp<'_>, &[u8])>
    ensures avp { IfSome result (λ found. BeginsWith (plain_avp found.0) level.now found.1.now) }
    ensures none { IfNone result ((length level.now ≡ 0) ⊎ BeginsWithNone level.now) }
{
    match next_avp(level) {
        Ok(found) => found,
        Err(_) => None,
    }
}

/// Counts one more of the key, and answers how many there are now.
fn count_one(counts: &mut IndexMap<Key, usize>, key: Key) -> Result<usize, AllocError>
    requires { count_in counts.now key < 2 ^ 63 }
    ensures count { IfOk result (λ n. n ≡ count_in counts.old key + 1) }
    ensures counts { OnOk result ((k : AnyKey) → count_in counts.new k ≡ cond (same_key key k) (count_in counts.old key + 1) (count_in counts.old k)) }
{
    let count = match counts.get(&key) {
        Some(count) => *count + 1,
        None => 1,
    };
    counts.insert(key, count)?;
    Ok(count)
}
