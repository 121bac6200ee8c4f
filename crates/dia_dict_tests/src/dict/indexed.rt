//! Books with maps for their look-ups: many rules, and keys that crowd in a map.

use super::{declarations, finds, indexed_of};
use dia_dict::{Book, Class, IndexedBook, Key, Slot};
use std::alloc::{AllocError, Global};
use std::hash::{FoldHasher, Hash, Hasher};
use std::process::Abort;

/// A command of so many rules, each for an AVP of its own.
fn rules(alloc: Global, count: u32) -> Result<String, AllocError> {
    let mut text = declarations(alloc, count)?;
    text.push_str("<T> ::= < Diameter Header: 302, REQ >")?;
    for code in 0..count {
        write!(text, " [ A{code} ]")?;
    }
    Ok(text)
}

/// Checks the slot of an AVP in the command.
fn occurs(rt: &impl Abort, book: &IndexedBook, code: u32, slot: Slot) {
    let key = Key { code, vendor: 0 };
    let found = book
        .select(302, Class::Request, 0)
        .map(|def| book.slot(def, key));
    assert!(rt; found == Some(slot));
}

/// Checks that each rule is found.
fn finds_rules(rt: &impl Abort, book: &IndexedBook) {
    for code in 0..1024u32 {
        let slot = Slot::Loose(code as usize);
        occurs(rt, book, code, slot);
    }
    occurs(rt, book, 1024, Slot::Unlisted);
}

#[test]
fn finds_each_of_1024_rules(rt: HostRuntime) {
    let text = rules(rt.alloc(), 1024).expect(&rt, "memory");
    finds_rules(&rt, &*indexed_of(&rt, text.as_str()));
}

/// Where a search for the key begins, in a map of a thousand keys that hashes by the first seed of a dictionary.
fn place(key: Key) -> u64 {
    let mut hasher = FoldHasher::default();
    hasher.write_u32(0);
    key.hash(&mut hasher);
    let hash = hasher.finish();
    (hash ^ hash >> 32) % 128
}

/// Keys whose searches all begin at one place.
fn crowd(alloc: Global, count: usize) -> Result<Vec<Key>, AllocError> {
    let mut keys = Vec::new(alloc);
    for code in 0..1_000_000u32 {
        let key = Key {
            code,
            vendor: 10415,
        };
        if keys.len() < count && place(key) == 0 {
            keys.push(key)?;
        }
    }
    Ok(keys)
}

/// AVPs of these keys.
fn avps(alloc: Global, keys: &[Key]) -> Result<String, AllocError> {
    let mut text = String::new(alloc);
    for Key { code, vendor } in keys {
        write!(text, "%avp A{code} {code} vendor {vendor} Time any\n")?;
    }
    Ok(text)
}

/// Checks that each key is found, and its neighbour not.
fn finds_crowd(rt: &impl Abort, book: &IndexedBook, keys: &[Key]) {
    assert!(rt; book.entries() == 1000);
    for (place, key) in keys.iter().enumerate() {
        if place < book.entries() {
            finds(rt, book, *key, Some(book.entry_at(place)));
        }
        let vendor = key.vendor.wrapping_add(1);
        finds(
            rt,
            book,
            Key {
                code: key.code,
                vendor,
            },
            None,
        );
    }
}

#[test]
fn finds_keys_that_crowd(rt: HostRuntime) {
    let keys = crowd(rt.alloc(), 1000).expect(&rt, "memory");
    let text = avps(rt.alloc(), &keys).expect(&rt, "memory");
    finds_crowd(&rt, &*indexed_of(&rt, text.as_str()), &keys);
}
