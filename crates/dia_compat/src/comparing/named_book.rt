//! Look-up by name.
ghost use Rattle.std.specs.Prelude.{◌≡◌, IfOk, map};
ghost use Rattle.dia_compat.specs.PairTests.{entry_named, command_named, key_named};

use dia_book::{Book, Entry, Key};
use indexmap::IndexSet;
use std::alloc::{AllocError, Global};
use std::marker::Model;

/// A dictionary with the names of its AVPs and of its commands, each at its place. The sets are boxed: the prover takes long for
/// a function that holds several by value.
#[derive(Drop)]
pub(crate) struct NamedBook<'a, B: Book> {
    book: &'a B,
    avps: Box<IndexSet<&'a str>>,
    commands: Box<IndexSet<&'a str>>,
}

impl<'a, B: Book> Model for NamedBook<'a, B> {
    ghost use Rattle.std.specs.Prelude.{◌≡◌, map};
    ghost use Rattle.dia_book.specs.Dictionary.{Dictionary};

    ghost Value = { Dictionary };

    ghost view = { λ n. B.meaning n.book.now };

    ghost invariant = { λ n. (map (λ name. name.now) n.avps.value.keys ≡ map (λ e. e.name) (B.meaning n.book.now).entries)
        × (map (λ name. name.now) n.commands.value.keys ≡ map (λ c. c.name) (B.meaning n.book.now).commands) };
}

impl<'a, B: Book> NamedBook<'a, B> {
    pub fn new(alloc: Global, book: &'a B) -> Result<Self, AllocError>
        ensures { IfOk result (λ named. named ≡ B.meaning book.now) }
    {
        Ok(NamedBook {
            book,
            avps: names_of_avps(alloc, book)?,
            commands: names_of_commands(alloc, book)?,
        })
    }

    /// The AVP of a name.
    pub fn avp(&self, name: &str) -> Option<Entry>
        ensures { result ≡ entry_named self.now name.now }
    {
        match self.avps.get_index_of(&name) {
            Some(place) => Some(self.book.entry_at(place)),
            None => None,
        }
    }

    /// The key of the AVP of a name.
    pub fn key(&self, name: &str) -> Option<Key>
        ensures { result ≡ key_named self.now name.now }
    {
        match self.avp(name) {
            Some(entry) => Some(self.book.entry_key(entry)),
            None => None,
        }
    }

    /// The place of the command of a name.
    pub fn command(&self, name: &str) -> Option<usize>
        ensures { result ≡ command_named self.now name.now }
    {
        self.commands.get_index_of(&name)
    }
}

fn names_of_avps<B: Book>(alloc: Global, book: &B) -> Result<Box<IndexSet<&str>>, AllocError>
    ensures { IfOk result
        (λ names. map (λ n. n.now) names.value.keys ≡ map (λ e. e.name) (B.meaning book.now).entries) }
{
    let mut names = Box::new(alloc, IndexSet::new(alloc))?;
    for index in 0..book.entries() {
        names.insert(book.entry_name(book.entry_at(index)))?;
    }
    Ok(names)
}

/// The names of the commands, each at its place.
pub(crate) fn names_of_commands<B: Book>(
    alloc: Global,
    book: &B,
) -> Result<Box<IndexSet<&str>>, AllocError>
    ensures { IfOk result
        (λ names. map (λ n. n.now) names.value.keys ≡ map (λ c. c.name) (B.meaning book.now).commands) }
{
    let mut names = Box::new(alloc, IndexSet::new(alloc))?;
    for index in 0..book.commands() {
        names.insert(book.def(book.command_at(index)).name.as_str())?;
    }
    Ok(names)
}
