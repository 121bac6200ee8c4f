//! The AVPs that are asked for.
ghost use Rattle.std.specs.Prelude.{◌≡◌, IfErr, IfOk, map, string_bytes};
ghost use Rattle.std.specs.Option.{option_map};
ghost use Rattle.dia_text.specs.Keys.{key_of_code, numbered};
ghost use Rattle.dia_places.specs.Asked.{AreKeysOf, IsFirstUnknown, key_of};

use dia_book::Book;
use dia_text::{NamedBook, numbered};
use dia_wire::Key;
use std::alloc::{AllocError, Global};

/// The keys of the AVPs that the words name, or the first word that names none.
pub fn asked<'a, B: Book>(
    alloc: Global,
    book: &B,
    words: &'a [String],
) -> Result<Result<Vec<Key>, &'a str>, AllocError>
    ensures known { IfOk result (λ asked. IfOk asked (λ keys.
        AreKeysOf (B.meaning book.now) (map (λ word. string_bytes word) words.now) keys.items)) }
    ensures unknown { IfOk result (λ asked. IfErr asked (λ word.
        IsFirstUnknown (B.meaning book.now) (map (λ word. string_bytes word) words.now) word.now)) }
{
    let named = NamedBook::new(alloc, book)?;
    let mut keys = Vec::new(alloc);
    for word in words {
        match key_of(&named, word.as_str()) {
            Some(key) => keys.push(key)?,
            None => return Ok(Err(word.as_str())),
        }
    }
    Ok(Ok(keys))
}

/// The key that a word names: that of the AVP of this name, or of `CODE`, `CODE:VENDOR` or `CODE/VENDOR`. No name is a number.
fn key_of<B: Book>(named: &NamedBook<'_, B>, word: &str) -> Option<Key>
    ensures { result ≡ key_of named.now word.now }
{
    match named.key(word.as_bytes()) {
        Some(key) => Some(key),
        None => key_by_numbers(word),
    }
}

fn key_by_numbers(word: &str) -> Option<Key>
    ensures { result ≡ option_map key_of_code (numbered word.now) }
{
    let code = numbered(word.as_bytes())?;
    Some(code.key())
}
