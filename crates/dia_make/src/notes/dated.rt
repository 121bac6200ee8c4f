//! A date after a value that isn't its number.

use crate::notes::valued::name_at;
use dia_dict::IndexedBook;
use dia_explain_places::Note;
use dia_text::{Line, NamedBook, NotRead, line_of};
use std::alloc::{AllocError, Global};

/// Whether a word has the length and the signs of a date.
pub fn is_dated(word: &[u8]) -> bool {
    matches!(
        word,
        [
            _,
            _,
            _,
            _,
            b'-',
            _,
            _,
            b'-',
            _,
            _,
            b'T',
            _,
            _,
            b':',
            _,
            _,
            b':',
            _,
            _,
            b'Z'
        ]
    )
}

/// Adds the number of the date at a place of a line, if its AVP is a Time.
pub fn push_date(note: &mut Note, book: &IndexedBook, line: &[u8], at: usize, date: &[u8]) {
    match number_at(note.allocator(), book, line, at, date) {
        Ok(Some(number)) => {
            note.put("hint: the number of this date is ");
            note.put_number(u64::from(number));
            note.put(", and no other time may precede it: leave out one of the two\n");
        }
        Ok(None) => {}
        Err(error) => note.keep(Err(error)),
    }
}

fn number_at(
    alloc: Global,
    book: &IndexedBook,
    line: &[u8],
    at: usize,
    date: &[u8],
) -> Result<Option<u32>, AllocError> {
    match name_at(alloc, line, at)? {
        Some(name) => number_of(alloc, book, name, date),
        None => Ok(None),
    }
}

/// The number of a date as the value of an AVP, if this is a Time.
fn number_of(
    alloc: Global,
    book: &IndexedBook,
    name: &[u8],
    date: &[u8],
) -> Result<Option<u32>, AllocError> {
    let named = NamedBook::new(alloc, book)?;
    let mut line = Vec::from_slice(alloc, name)?;
    line.push(b' ')?;
    line.extend_from_slice(date)?;
    match line_of(alloc, &named, &line) {
        Ok(Line::Leaf(_, data, _)) => Ok(number_in(&data)),
        Ok(_) | Err(NotRead::Misfit(_)) => Ok(None),
        Err(NotRead::NoMemory) => Err(AllocError),
    }
}

fn number_in(data: &[u8]) -> Option<u32> {
    match data {
        [a, b, c, d] => Some(u32::from_be_bytes([*a, *b, *c, *d])),
        _ => None,
    }
}
