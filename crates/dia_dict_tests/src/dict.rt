//! Dictionaries out of texts, and what they answer.

mod answers;
mod base;
mod faults;
mod findings;
mod indexed;
mod limits;
mod lookups;
mod memory;

use dia_ccf::parse;
use dia_dict::{Book, DictFault, Entry, IndexedBook, Key, PlainBook, resolve};
use std::alloc::{AllocError, Global};
use std::process::Abort;

/// The dictionary that a text names, or why it names none.
fn read(rt: &(impl AllocGlobal + Abort), text: &str) -> Result<PlainBook, DictFault> {
    let source = parse(rt.alloc(), text).expect(rt, text);
    resolve(rt.alloc(), source)
}

/// The book of a text, with its maps.
fn indexed_of(rt: &(impl AllocGlobal + Abort), text: &str) -> Box<IndexedBook> {
    let plain = read(rt, text).expect(rt, text);
    let indexed = IndexedBook::from_plain(rt.alloc(), plain).expect(rt, "memory");
    Box::new(rt.alloc(), indexed).ok().expect(rt, "memory")
}

/// Checks that two values are equal.
fn same<T: PartialEq>(rt: &impl Abort, one: &T, other: &T) {
    assert!(rt; one == other);
}

/// Checks which AVP has a key.
fn finds<B: Book>(rt: &impl Abort, book: &B, key: Key, entry: Option<Entry>) {
    assert!(rt; book.avp(key) == entry);
}

/// So many declarations.
fn declarations(alloc: Global, count: u32) -> Result<String, AllocError> {
    let mut text = String::new(alloc);
    for code in 0..count {
        write!(text, "%avp A{code} {code} Time any\n")?;
    }
    Ok(text)
}
