//! Two dictionaries and a table.

use crate::sides::Side;
use dia_check::Unknown;
use dia_compat::{PairKind, Table, words_of};
use dia_explain_places::line_from;

/// Two dictionaries, compared by a table.
#[derive(Clone, Copy)]
pub struct Pairing<'a> {
    pub a: Side<'a>,
    pub b: Side<'a>,
    pub unknown: Unknown,
    pub table: &'a Table,
    /// The word that names the table's text, and the text.
    pub name: &'a str,
    pub text: &'a [u8],
}

/// The place in a table's text of a pair, by its number among those of its kind.
pub fn place_of_pair(text: &[u8], kind: PairKind, number: usize) -> Option<usize> {
    let word: &[u8] = match kind {
        PairKind::Command => b"command",
        PairKind::Avp => b"avp",
    };
    let mut seen = 0usize;
    let mut begins = true;
    for (start, byte) in text.iter().enumerate() {
        if begins {
            let kind = words_of(line_from(text, start)).kind;
            if kind.text == word && seen == number {
                return Some(start.saturating_add(kind.at));
            }
            seen = seen.saturating_add(usize::from(kind.text == word));
        }
        begins = *byte == b'\n';
    }
    None
}
