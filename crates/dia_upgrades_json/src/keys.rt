//! The AVPs of dictionaries by what lines call them.

ghost use Rattle.std.specs.Prelude.{◌≡◌, List, None, OnOk, Some, if◌then◌else◌, string_bytes, ℕ};
ghost use Rattle.std.specs.BTreeMap.{get_by_text};
ghost use Rattle.std.specs.Option.{option_or};
ghost use Rattle.std.specs.Str.{bytes_eq};

use crate::spots::Texts;
use dia_book::{Book, Key};
use dia_names::key_text;
use std::alloc::{AllocError, Global};
use std::collections::BTreeMap;

/// The AVPs of a dictionary by their names, and by their codes and vendors.
#[derive(Drop)]
pub struct Keys {
    /// The code and vendor of each AVP, by its name and by `CODE:VENDOR`.
    pub(crate) keys: BTreeMap<String, Key>,
}

/// The AVPs of two dictionaries by their names, and their texts.
#[derive(Drop)]
pub struct Names<'s> {
    pub first: Keys,
    pub second: Keys,
    pub texts: Box<Texts<'s>>,
}

impl Keys {
    ghost use Rattle.std.specs.Prelude.{◌≡◌, IfOk, List, ℕ};
    ghost use Rattle.dia_upgrades_json.specs.Keys.{key_in, key_named};

    /// The AVPs of a book.
    pub fn new<B: Book>(alloc: Global, book: &B) -> Result<Keys, AllocError>
        ensures { IfOk result (λ keys. (name : List ℕ) → key_in keys name ≡ key_named (B.meaning book.now) name) }
    {
        let mut keys = BTreeMap::new(alloc);
        for index in 0..book.entries() {
            let entry = book.entry_at(index);
            let name = String::from_str(alloc, book.entry_name(entry))?;
            let key = book.entry_key(entry);
            let number = key_text(alloc, key)?;
            add_first(&mut keys, name, key)?;
            add_first(&mut keys, number, key)?;
        }
        Ok(Keys { keys })
    }

    /// The AVP of this name, or of this `CODE:VENDOR`.
    pub(crate) fn get(&self, name: &str) -> Option<Key>
        ensures { result ≡ key_in self.now name.now }
    {
        self.keys.get(name).copied()
    }
}

/// Adds the key of a text that has none.
fn add_first(keys: &mut BTreeMap<String, Key>, text: String, key: Key) -> Result<(), AllocError>
    ensures { OnOk result ((q : List ℕ) → get_by_text keys.new q
        ≡ option_or (get_by_text keys.old q) (if bytes_eq (string_bytes text) q then Some key else None)) }
{
    if !keys.contains_key(text.as_str()) {
        keys.insert(text, key)?;
    }
    Ok(())
}
