//! The names of a dictionary's AVPs and commands.
ghost use Rattle.std.specs.Prelude.{◌≡◌, IfOk, OnOk, map, option_and_then, []};
ghost use Rattle.std.specs.Option.{option_map};
ghost use Rattle.dia_book.specs.Dictionary.{plain_definition};
ghost use Rattle.dia_text.specs.Keys.{entry_named, command_named};

use dia_book::{Book, Definition, Key};
use indexmap::IndexSet;
use std::alloc::{AllocError, Global};
use std::marker::Model;

/// A dictionary with the names of its AVPs and of its commands, each at its place. These are boxed: the prover takes long for a
/// function that holds several sets by value.
#[derive(Drop)]
pub struct NamedBook<'a, B: Book> {
    book: &'a B,
    names: Box<Names<'a>>,
}

#[derive(Drop)]
struct Names<'a> {
    avps: IndexSet<&'a [u8]>,
    commands: IndexSet<&'a [u8]>,
}

impl<'a, B: Book> Model for NamedBook<'a, B> {
    ghost use Rattle.std.specs.Prelude.{◌≡◌, map};
    ghost use Rattle.dia_book.specs.Dictionary.{Dictionary};

    ghost Value = { Dictionary };

    ghost view = { λ n. B.meaning n.book.now };

    ghost invariant = { λ n. (map (λ name. name.now) n.names.value.avps.keys ≡ map (λ e. e.name) (B.meaning n.book.now).entries)
        × (map (λ name. name.now) n.names.value.commands.keys ≡ map (λ c. c.name) (B.meaning n.book.now).commands) };
}

impl<'a, B: Book> NamedBook<'a, B> {
    pub fn new(alloc: Global, book: &'a B) -> Result<Self, AllocError>
        ensures { IfOk result (λ named. named ≡ B.meaning book.now) }
    {
        let names = Names {
            avps: IndexSet::new(alloc),
            commands: IndexSet::new(alloc),
        };
        let mut names = Box::new(alloc, names)?;
        insert_avps(&mut names.avps, book)?;
        insert_commands(&mut names.commands, book)?;
        Ok(NamedBook { book, names })
    }

    /// The dictionary.
    pub fn book(&self) -> &'a B
        ensures { B.meaning result.now ≡ self.now }
    {
        self.book
    }

    /// The key of the AVP of a name.
    pub fn key(&self, name: &[u8]) -> Option<Key>
        ensures { result ≡ option_map (λ e. e.key) (entry_named self.now name.now) }
    {
        let place = self.names.avps.get_index_of(&name)?;
        Some(self.book.entry_key(self.book.entry_at(place)))
    }

    /// The command of a name.
    pub fn command(&self, name: &[u8]) -> Option<&'a Definition>
        ensures { option_map (λ definition. plain_definition definition.now) result
            ≡ command_named self.now name.now }
    {
        let place = self.names.commands.get_index_of(&name)?;
        Some(self.book.def(self.book.command_at(place)))
    }
}

/// Puts the names of a dictionary's AVPs into an empty set.
fn insert_avps<'a, B: Book>(names: &mut IndexSet<&'a [u8]>, book: &'a B) -> Result<(), AllocError>
    requires { names.old.keys ≡ [] }
    ensures { OnOk result
        (map (λ n. n.now) names.new.keys ≡ map (λ e. e.name) (B.meaning book.now).entries) }
{
    for index in 0..book.entries() {
        names.insert(book.entry_name(book.entry_at(index)).as_bytes())?;
    }
    Ok(())
}

/// Puts the names of a dictionary's commands into an empty set.
fn insert_commands<'a, B: Book>(
    names: &mut IndexSet<&'a [u8]>,
    book: &'a B,
) -> Result<(), AllocError>
    requires { names.old.keys ≡ [] }
    ensures { OnOk result
        (map (λ n. n.now) names.new.keys ≡ map (λ c. c.name) (B.meaning book.now).commands) }
{
    for index in 0..book.commands() {
        names.insert(book.def(book.command_at(index)).name.as_bytes())?;
    }
    Ok(())
}
