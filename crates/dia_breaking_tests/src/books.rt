//! Dictionaries of rows, as both kinds of book, and what rows share.

use dia_ccf::parse;
use dia_dict::{IndexedBook, PlainBook, resolve};
use dia_rows::{Names, RowFault};
use dia_terms::{Sends, Unknown};
use dia_wire::Key;
use std::alloc::Global;
use std::process::Abort;
use std::test::Fail;

/// The AVP of which rows ask what breaks by itself.
pub const X: Key = Key {
    code: 9002,
    vendor: 0,
};

/// The dictionary of a text.
pub fn plain_of(alloc: Global, names: &Names, text: &str) -> Result<Box<PlainBook>, Fail> {
    let text = names.text(text)?;
    let book = resolve(alloc, parse(alloc, str::from_utf8(text.as_slice())?)?)?;
    Ok(Box::new(alloc, book)?)
}

/// The same with tables.
pub fn indexed_of(alloc: Global, names: &Names, text: &str) -> Result<Box<IndexedBook>, Fail> {
    let plain = plain_of(alloc, names, text)?;
    let book = IndexedBook::from_plain(alloc, Box::into_inner(plain))?;
    Ok(Box::new(alloc, book)?)
}

/// What the side of A sends.
pub fn sends_of(word: &str) -> Result<Sends, RowFault> {
    match word {
        "any" => Ok(Sends::Any),
        "known" => Ok(Sends::Known),
        "filled" => Ok(Sends::Filled),
        "listed" => Ok(Sends::Listed),
        _ => Err(RowFault::Row),
    }
}

/// What the side of A sends, and the policy of the side of B.
pub fn sides_of(words: &str) -> Result<(Sends, Unknown), RowFault> {
    let (sends, policy) = words.split_once(' ').ok_or(RowFault::Row)?;
    Ok((sends_of(sends)?, policy_of(policy)?))
}

fn policy_of(word: &str) -> Result<Unknown, RowFault> {
    match word {
        "kept" => Ok(Unknown::Kept),
        "refused" => Ok(Unknown::Refused),
        _ => Err(RowFault::Row),
    }
}

/// Two texts are the same, those of a row.
pub fn same(rt: &impl Abort, found: &str, wanted: &str, line: &str) {
    assert_eq!(rt; found, wanted, "{line}");
}
