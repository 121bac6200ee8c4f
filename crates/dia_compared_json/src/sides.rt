//! A dictionary, and what a name of a pair denotes in it.

ghost use Rattle.std.specs.Prelude.{◌≡◌, ◌<◌, length, option_and_then, slice_get};
ghost use Rattle.std.specs.Str.{bytes_eq};
ghost use Rattle.dia_book.specs.Dictionary.{definitions, group_place};
ghost use Rattle.dia_compat.specs.PairTests.{command_named, entry_named};
ghost use Rattle.dia_compared_json.specs.Objects.{plain_found};

use dia_book::{Book, DRule, Definition, Entry, Key};
use dia_compat::PairKind;
use std::marker::Model;

/// A dictionary, and what a name of a pair denotes in it.
#[derive(Drop)]
pub(crate) struct Side<'a, B: Book> {
    book: &'a B,
    /// The definition of the command, or of the AVP if it is Grouped.
    def: Option<&'a Definition>,
    /// The AVP.
    avp: Option<Key>,
}

impl<'a, B: Book> Model for Side<'a, B> {
    ghost use Rattle.dia_compared_json.specs.Objects.{plain_found};
    ghost use Rattle.dia_compared_json.specs.Parts.{Side as PlainSide};

    ghost Value = { PlainSide };

    ghost view = { λ s. record {
      dictionary = B.meaning s.book.now;
      definition = plain_found s.def;
      avp = s.avp;
    } };
}

impl<'a, B: Book> Side<'a, B> {
    ghost use Rattle.std.specs.Prelude.{◌≡◌, ◌<◌, IfSome, length, position};
    ghost use Rattle.dia_valid.specs.Valid.{is_wildcard};
    ghost use Rattle.dia_compared_json.specs.Objects.{plain_found};
    ghost use Rattle.dia_compared_json.specs.Parts.{avp_side, key_at, rules_of, side_of};

    /// What a name denotes.
    pub fn of(book: &'a B, kind: PairKind, name: &str) -> Self
        ensures { result ≡ side_of (B.meaning book.now) kind name.now }
    {
        match kind {
            PairKind::Command => Side {
                book,
                def: command_named(book, name),
                avp: None,
            },
            PairKind::Avp => Side::of_avp(book, entry_named(book, name)),
        }
    }

    fn of_avp(book: &'a B, entry: Option<Entry>) -> Self
        requires { IfSome entry (λ e. e < length (B.meaning book.now).entries) }
        ensures { result ≡ avp_side (B.meaning book.now) entry }
    {
        match entry {
            Some(entry) => Side {
                book,
                def: group_of(book, entry),
                avp: Some(book.entry_key(entry)),
            },
            None => Side {
                book,
                def: None,
                avp: None,
            },
        }
    }

    pub fn book(&self) -> &'a B
        ensures { B.meaning result.now ≡ self.now.dictionary }
    {
        self.book
    }

    pub fn avp(&self) -> Option<Key>
        ensures { result ≡ self.now.avp }
    {
        self.avp
    }

    pub fn definition(&self) -> Option<&'a Definition>
        ensures { plain_found result ≡ self.now.definition }
    {
        self.def
    }

    /// The rules of the definition.
    pub fn rules(&self) -> &'a [DRule]
        ensures { result.now ≡ rules_of self.now }
    {
        match self.def {
            Some(def) => def.rules.as_slice(),
            None => &[],
        }
    }

    /// The AVP that the rule at this place names.
    pub fn key_at(&self, place: usize) -> Option<Key>
        ensures { result ≡ key_at self.now place }
    {
        match self.rules().get(place) {
            Some(rule) => rule.key,
            None => None,
        }
    }

    /// The place of the wildcard.
    pub fn wildcard(&self) -> Option<usize>
        ensures { result ≡ position is_wildcard (rules_of self.now) }
    {
        match self.def {
            Some(def) => def.shape.wildcard,
            None => None,
        }
    }
}

/// The command of a name.
fn command_named<'a, B: Book>(book: &'a B, name: &str) -> Option<&'a Definition>
    ensures { plain_found result
        ≡ option_and_then (slice_get (B.meaning book.now).commands) (command_named (B.meaning book.now) name.now) }
{
    for index in 0..book.commands() {
        let command = book.def(book.command_at(index));
        if is_named(command.name.as_str(), name) {
            return Some(command);
        }
    }
    None
}

/// The AVP of a name.
fn entry_named<B: Book>(book: &B, name: &str) -> Option<Entry>
    ensures { result ≡ entry_named (B.meaning book.now) name.now }
{
    for index in 0..book.entries() {
        let entry = book.entry_at(index);
        if is_named(book.entry_name(entry), name) {
            return Some(entry);
        }
    }
    None
}

fn is_named(own: &str, name: &str) -> bool
    ensures { result ≡ bytes_eq name.now own.now }
{
    name == own
}

/// The definition of an AVP, if it is Grouped.
fn group_of<B: Book>(book: &B, entry: Entry) -> Option<&Definition>
    requires { entry < length (B.meaning book.now).entries }
    ensures { plain_found result
        ≡ option_and_then (slice_get (definitions (B.meaning book.now))) (group_place (B.meaning book.now) entry) }
{
    match book.group(entry) {
        Some(group) => Some(book.def(group)),
        None => None,
    }
}
