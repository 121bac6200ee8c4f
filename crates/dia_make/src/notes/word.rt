//! The word at a place of a text.

use crate::words::{is_blank, is_mark};

/// The word that begins at a place. A text in quotes is one word, also where its closing quote is missing, and so is a brace or a
/// comma. The word is empty at a comment and at the end of a line.
pub fn word_at(text: &[u8], at: usize) -> &[u8] {
    let rest = text.get(at..).unwrap_or(b"".as_slice());
    let length = match rest {
        [b'"', following @ ..] => quoted_length(following),
        [first, ..] if is_mark(*first) => 1,
        _ => rest.iter().take_while(|byte| is_of_word(**byte)).count(),
    };
    rest.get(..length).unwrap_or(rest)
}

/// How long a text in quotes is, with its quotes, of which the opening one is before these bytes.
fn quoted_length(following: &[u8]) -> usize {
    let inside = following
        .iter()
        .take_while(|byte| !matches!(byte, b'"' | b'\n'))
        .count();
    let is_closed = matches!(following.get(inside), Some(b'"'));
    inside.saturating_add(if is_closed { 2 } else { 1 })
}

fn is_of_word(byte: u8) -> bool {
    !is_mark(byte) && !is_blank(byte) && !matches!(byte, b'\n' | b'#' | b';')
}

/// The place after the last word of the line that begins at a place: that of its comment, or of its end.
pub fn end_of_words(text: &[u8], start: usize) -> usize {
    let mut at = start;
    for _ in text {
        at = at.saturating_add(blanks_at(text, at));
        let length = word_at(text, at).len();
        if length == 0 {
            return at;
        }
        at = at.saturating_add(length);
    }
    at
}

fn blanks_at(text: &[u8], at: usize) -> usize {
    let rest = text.get(at..).unwrap_or(b"".as_slice());
    rest.iter().take_while(|byte| is_blank(**byte)).count()
}
