//! A dictionary with Failed-AVP as OctetString.

ghost use Rattle.std.specs.Prelude.{◌≡◌, ◌<◌, ◌^◌, false, nat_eq};
ghost use Rattle.std.specs.Option.{option_map_or};
ghost use Rattle.dia_data.specs.Plain.{plain_format, AnyBytes, OctetString};
ghost use Rattle.dia_answer.specs.Dictionaries.{opaque, grouped_failed, lowered, raised};
ghost use Rattle.dia_book.specs.Dictionary.{IsDictionary};
ghost use Rattle.dia_book.specs.Opened.{opened};

use crate::codes::{FAILED_AVP, base_key};
use dia_book::{Book, Class, DefId, Definition, Entry, Format, Key, MRule, Slot};

/// A dictionary with Failed-AVP as OctetString, where it is Grouped: what is in it isn't to fit the dictionary (RFC 6733
/// section 7.5).
pub(crate) struct Opaque<'a, B: Book> {
    book: &'a B,
    /// The Grouped Failed-AVP, and its definition.
    hidden: Option<(Entry, DefId)>,
    octets: Format,
    ghost placed: { hidden ≡ grouped_failed (B.meaning book.now) },
    ghost sound: { ∥ IsDictionary (opaque (B.meaning book.now)) ∥₁ },
    ghost any_bytes: { plain_format octets ≡ AnyBytes OctetString },
}

impl<'a, B: Book> Drop for Opaque<'a, B> {
    fn drop(self) {
        let Opaque {
            book: _,
            hidden: _,
            octets: _,
        } = self;
    }
}

impl<'a, B: Book> Opaque<'a, B> {
    pub(crate) fn new(book: &'a B) -> Self
        ensures { result.book.now ≡ book.now }
    {
        Opaque {
            book,
            hidden: hidden_in(book),
            octets: Format::OctetString,
        }
    }

    fn hides(&self, entry: Entry) -> bool
        ensures { result ≡ option_map_or (λ place. nat_eq entry place.0) self.now.hidden false }
    {
        match self.hidden {
            Some((hidden, _)) => entry == hidden,
            None => false,
        }
    }

    /// The number here of a definition that isn't the hidden one.
    fn lowered(&self, def: DefId) -> DefId
        ensures { result ≡ option_map_or (λ place. lowered place.1 def) self.now.hidden def }
    {
        match self.hidden {
            Some((_, hidden)) if hidden.index() < def.index() => DefId::new(def.index() - 1),
            _ => def,
        }
    }

    /// The number in the whole dictionary of a definition here.
    fn raised(&self, def: DefId) -> DefId
        requires { def < 2 ^ 31 }
        ensures { result ≡ option_map_or (λ place. raised place.1 def) self.now.hidden def }
    {
        match self.hidden {
            Some((_, hidden)) if hidden.index() <= def.index() => DefId::new(def.index() + 1),
            _ => def,
        }
    }
}

fn hidden_in<B: Book>(book: &B) -> Option<(Entry, DefId)>
    ensures { result ≡ grouped_failed (B.meaning book.now) }
{
    let entry = book.avp(base_key(FAILED_AVP))?;
    let group = book.group(entry)?;
    Some((entry, group))
}

impl<'a, B: Book> Book for Opaque<'a, B> {
    ghost meaning = { λ o. opaque (B.meaning o.book.now) };

    ghost sound = { λ o. opened (opaque (B.meaning o.book.now)) o.sound };

    fn avp(&self, key: Key) -> Option<Entry> {
        self.book.avp(key)
    }

    fn entry_key(&self, entry: Entry) -> Key {
        self.book.entry_key(entry)
    }

    fn entry_name(&self, entry: Entry) -> &str {
        self.book.entry_name(entry)
    }

    fn format(&self, entry: Entry) -> &Format {
        if self.hides(entry) {
            &self.octets
        } else {
            self.book.format(entry)
        }
    }

    fn rule(&self, entry: Entry) -> MRule {
        self.book.rule(entry)
    }

    fn group(&self, entry: Entry) -> Option<DefId> {
        if self.hides(entry) {
            return None;
        }
        let group = self.book.group(entry)?;
        Some(self.lowered(group))
    }

    fn select(&self, code: u32, class: Class, app: u32) -> Option<DefId> {
        let def = self.book.select(code, class, app)?;
        Some(self.lowered(def))
    }

    fn has_command(&self, code: u32, class: Class) -> bool {
        self.book.has_command(code, class)
    }

    fn def(&self, def: DefId) -> &Definition {
        self.book.def(self.raised(def))
    }

    fn slot(&self, def: DefId, key: Key) -> Slot {
        self.book.slot(self.raised(def), key)
    }

    fn entries(&self) -> usize {
        self.book.entries()
    }

    fn entry_at(&self, index: usize) -> Entry {
        self.book.entry_at(index)
    }

    fn commands(&self) -> usize {
        self.book.commands()
    }

    fn command_at(&self, index: usize) -> DefId {
        self.lowered(self.book.command_at(index))
    }
}
