//! Words of values in a text that is refused.

use crate::numbered::{Insertion, ends_piece, lacked, quoted_after};
use crate::tables::Tables;
use crate::words::next_word;
use dia_explain_places::{Note, nearest_name};
use std::alloc::{AllocError, Global};
use std::str;

/// How many words of an AVP are listed.
const LISTED: usize = 8;

/// What to do about a word for which no file of words was given.
const NO_FILE: &str =
    "hint: with --values FILE a word is read as the number that FILE has for it\n";

/// A piece of a line, and where it begins.
#[derive(Clone, Copy)]
struct Piece<'p> {
    start: usize,
    text: &'p [u8],
}

impl<'p> Piece<'p> {
    /// Where in the line the word is for which the piece lacks a number.
    fn place_of(&self, found: &Insertion<'_, '_>) -> usize {
        let front = self.text.len().saturating_sub(found.rest.len());
        self.start.saturating_add(front)
    }

    /// The name of its AVP.
    fn name(&self) -> &'p [u8] {
        let (name, _) = next_word(self.text);
        name
    }
}

/// The place in a line that is at this place in the line with its numbers.
pub fn given_place(
    alloc: Global,
    tables: &Tables<'_>,
    line: &[u8],
    at: usize,
) -> Result<usize, AllocError> {
    let mut at = at;
    for piece in pieces_of(alloc, line)? {
        if let Some(found) = lacked(tables, piece.text) {
            let place = piece.place_of(&found);
            // With the blank after the number.
            let added = found.number.len().saturating_add(1);
            if at > place {
                at = at.saturating_sub(added).max(place);
            }
        }
    }
    Ok(at)
}

/// Adds what is known of a word at a place of a line, where a number or the end of the line is wanted.
pub fn push_word(
    note: &mut Note,
    tables: Option<&Tables<'_>>,
    line: &[u8],
    at: usize,
    word: &[u8],
) {
    let Some(tables) = tables else {
        note.put(NO_FILE);
        return;
    };
    match piece_at(note.allocator(), line, at) {
        Ok(Some(piece)) => push_known(note, tables, piece.name(), word),
        Ok(None) => {}
        Err(error) => note.keep(Err(error)),
    }
}

/// The number in front of a word at a place of a line, if the line lacks it.
pub fn number_at<'t>(
    alloc: Global,
    tables: Option<&Tables<'t>>,
    line: &[u8],
    at: usize,
) -> Result<Option<&'t [u8]>, AllocError> {
    let (Some(tables), Some(piece)) = (tables, piece_at(alloc, line, at)?) else {
        return Ok(None);
    };
    match lacked(tables, piece.text) {
        Some(found) if piece.place_of(&found) == at => Ok(Some(found.number)),
        _ => Ok(None),
    }
}

/// Adds the number that a word is for.
pub fn push_number(note: &mut Note, word: &[u8], number: &[u8]) {
    note.put("hint: ");
    note.put_shown(word);
    note.put(" is the word for ");
    note.put_shown(number);
    note.put("\n");
}

/// Adds the words of an AVP that may be meant.
fn push_known(note: &mut Note, tables: &Tables<'_>, name: &[u8], word: &[u8]) {
    // Nothing where the word is no UTF-8.
    let spelt = str::from_utf8(word).unwrap_or("");
    match tables.words_of(note.allocator(), name) {
        Ok(words) => match nearest_name(spelt, &words) {
            Some(near) => note.put_near(near),
            None => push_words(note, name, &words),
        },
        Err(error) => note.keep(Err(error)),
    }
}

/// Adds which words an AVP has.
fn push_words(note: &mut Note, name: &[u8], words: &[&str]) {
    let listed = words.get(..LISTED).unwrap_or(words);
    if listed.is_empty() {
        note.put("hint: there are no words of values for ");
        note.put_shown(name);
        note.put("\n");
        return;
    }
    note.put("hint: the words of values for ");
    note.put_shown(name);
    let mut sign = " are ";
    for word in listed {
        note.put_all(&[sign, *word]);
        sign = ", ";
    }
    if words.len() > listed.len() {
        note.put(", ..");
    }
    note.put("\n");
}

/// The name of the AVP whose piece of a line holds a place.
pub fn name_at<'p>(
    alloc: Global,
    line: &'p [u8],
    at: usize,
) -> Result<Option<&'p [u8]>, AllocError> {
    match piece_at(alloc, line, at)? {
        Some(piece) => Ok(Some(piece.name())),
        None => Ok(None),
    }
}

/// The piece of a line that holds a place.
fn piece_at<'p>(alloc: Global, line: &'p [u8], at: usize) -> Result<Option<Piece<'p>>, AllocError> {
    let mut found = None;
    for piece in pieces_of(alloc, line)? {
        if piece.start <= at {
            found = Some(piece);
        }
    }
    Ok(found)
}

/// The pieces of a line.
fn pieces_of<'p>(alloc: Global, line: &'p [u8]) -> Result<Vec<Piece<'p>>, AllocError> {
    let mut pieces = Vec::new(alloc);
    let mut start = 0usize;
    let mut quoted = false;
    for (index, byte) in line.iter().enumerate() {
        if ends_piece(quoted, *byte) {
            let text = line.get(start..index).unwrap_or(line);
            pieces.push(Piece { start, text })?;
            start = index.saturating_add(1);
        }
        quoted = quoted_after(quoted, *byte);
    }
    let text = line.get(start..).unwrap_or(line);
    pieces.push(Piece { start, text })?;
    Ok(pieces)
}
