//! Whether an AVP by itself is as a dictionary says.

ghost use Rattle.std.specs.Prelude.{◌≡◌, ◌<◌, ◌↔◌, length, IfOk, IsTrue};
ghost use Rattle.dia_wire.specs.Wire.{plain_avp};
ghost use Rattle.dia_valid.specs.Valid.{IsValid};
ghost use Rattle.dia_book.specs.Dictionary.{IsDictionary, groups as groups_of, plain_definition};
ghost use Rattle.dia_answer.specs.Dictionaries.{alone, any_command};
ghost use Rattle.dia_answer.specs.Stocks.{IsFit};
ghost use Rattle.dia_book.specs.Opened.{opened};

use crate::held::Held;
use dia_book::{
    Book, Class, DRule, DefHead, DefId, Definition, Entry, Format, Key, MRule, Pxy, RuleKind, Slot,
};
use dia_check::{Levels, Refusal, Unknown, check};
use dia_wire::{COMMAND_ERROR, Header, PutFault, put_message};
use std::alloc::{AllocError, Global};

/// A dictionary with one command in place of its own: an error message, which may hold any AVPs. So its messages are valid
/// where their AVPs are.
#[derive(Drop)]
pub(crate) struct Alone<'a, B: Book> {
    book: &'a B,
    /// How many groups the dictionary defines.
    groups: usize,
    any: Definition,
    ghost counted: { groups ≡ length (groups_of (B.meaning book.now)) },
    ghost named: { plain_definition any ≡ any_command },
    ghost sound: { ∥ IsDictionary (alone (B.meaning book.now)) ∥₁ },
}

impl<'a, B: Book> Alone<'a, B> {
    pub(crate) fn new(alloc: Global, book: &'a B) -> Result<Self, AllocError>
        requires { 0 < length (B.meaning book.now).commands }
        ensures { IfOk result (λ made. made.book.now ≡ book.now) }
    {
        let wildcard = DRule {
            kind: RuleKind::Optional,
            key: None,
            min: 0,
            max: None,
        };
        let name = String::from_str(alloc, "Any")?;
        let head = DefHead::Error { p: Pxy::Either };
        let rules = vec![in alloc; wildcard]?;
        Ok(Alone {
            book,
            groups: book.command_at(0).index(),
            any: Definition::new(alloc, name, head, rules)?,
        })
    }

    fn the_command(&self) -> DefId
        ensures { result ≡ length (groups_of (B.meaning self.now.book.now)) }
    {
        DefId::new(self.groups)
    }
}

impl<'a, B: Book> Book for Alone<'a, B> {
    ghost meaning = { λ a. alone (B.meaning a.book.now) };

    ghost sound = { λ a. opened (alone (B.meaning a.book.now)) a.sound };

    fn avp(&self, key: Key) -> Option<Entry> {
        self.book.avp(key)
    }

    fn entry_key(&self, entry: Entry) -> Key {
        self.book.entry_key(entry)
    }

    fn entry_name(&self, entry: Entry) -> &str {
        self.book.entry_name(entry)
    }

    fn format(&self, entry: Entry) -> &Format {
        self.book.format(entry)
    }

    fn rule(&self, entry: Entry) -> MRule {
        self.book.rule(entry)
    }

    fn group(&self, entry: Entry) -> Option<DefId> {
        self.book.group(entry)
    }

    fn select(&self, _code: u32, class: Class, _app: u32) -> Option<DefId> {
        match class {
            Class::Error => Some(self.the_command()),
            Class::Request | Class::Answer => None,
        }
    }

    fn has_command(&self, _code: u32, class: Class) -> bool {
        class == Class::Error
    }

    fn def(&self, def: DefId) -> &Definition {
        if def.index() < self.groups {
            self.book.def(def)
        } else {
            &self.any
        }
    }

    fn slot(&self, def: DefId, key: Key) -> Slot {
        if def.index() < self.groups {
            self.book.slot(def, key)
        } else {
            Slot::Unlisted
        }
    }

    fn entries(&self) -> usize {
        self.book.entries()
    }

    fn entry_at(&self, index: usize) -> Entry {
        self.book.entry_at(index)
    }

    fn commands(&self) -> usize {
        1
    }

    fn command_at(&self, _index: usize) -> DefId {
        self.the_command()
    }
}

/// What the AVPs of a request are checked by.
#[derive(Drop)]
pub(crate) struct Judge<'a, B: Book> {
    pub(crate) alloc: Global,
    pub(crate) book: Alone<'a, B>,
    pub(crate) unknown: Unknown,
    pub(crate) levels: Levels,
}

impl<'a, B: Book> Judge<'a, B> {
    /// Whether a message that holds this AVP alone, and any AVPs by its command, is valid.
    pub(crate) fn fits(&self, held: &Held<'_>) -> Result<bool, AllocError>
        ensures { IfOk result (λ ok. IsTrue ok ↔ IsFit (B.meaning self.now.book.book.now)
            self.now.unknown self.now.levels (plain_avp held.now.avp)) }
    {
        let header = Header {
            flags: COMMAND_ERROR,
            code: 0,
            app: 0,
            hop: 0,
            e2e: 0,
        };
        let mut bytes = Vec::new(self.alloc);
        match put_message(&mut bytes, &header, &[held.avp]) {
            Ok(()) => self.is_valid(&bytes),
            Err(PutFault::TooLong) => Ok(false),
            Err(PutFault::NoMemory) => Err(AllocError),
        }
    }

    fn is_valid(&self, bytes: &[u8]) -> Result<bool, AllocError>
        ensures { IfOk result (λ ok. IsTrue ok ↔ IsValid (alone (B.meaning self.now.book.book.now))
            self.now.unknown self.now.levels bytes.now) }
    {
        match check(self.alloc, &self.book, self.unknown, self.levels, bytes) {
            Ok(_) => Ok(true),
            Err(Refusal::Fault(_)) => Ok(false),
            Err(Refusal::Truncated) => Ok(false),
            Err(Refusal::Trailing) => Ok(false),
            Err(Refusal::NoMemory) => Err(AllocError),
            Err(Refusal::Spent) => unreachable!(),
        }
    }
}
