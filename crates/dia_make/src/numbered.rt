//! The text that `make` reads with words of values.

ghost use Rattle.std.specs.Prelude.{◌≡◌, ◌==◌, ◌++◌, IfOk, List, OnOk, Some, option_map};
ghost use Rattle.std.specs.Char.{is_ascii_alphabetic, is_ascii_digit};
ghost use Rattle.std.specs.List.{list_all, list_any};
ghost use Rattle.dia_show.specs.Words.{Word, is_number, is_positive};
ghost use Rattle.dia_text.specs.Values.{begins_value, is_keyword};
ghost use Rattle.dia_make.specs.Numbered.{after_field, begins_digits, ends_piece, is_field_word, is_header_field, is_value_word, is_word_of};
ghost use Rattle.dia_make.specs.Numbered.{lacked, lacked_at, may_be_word, number_after, number_alone, numbered};
ghost use Rattle.dia_make.specs.Numbered.{quoted_after, with_lacked};
ghost use Rattle.dia_make.specs.Tables.{AreTablesOf, plain_insertion};

use crate::tables::Tables;
use crate::words::{is_mark, next_word, without_blanks};
use std::alloc::{AllocError, Global};

/// A number that a piece of a line lacks, and the piece from the word for it on.
#[derive(Clone, Copy)]
pub(crate) struct Insertion<'t, 'p> {
    pub number: &'t [u8],
    pub rest: &'p [u8],
}

/// The text with a number in front of each word that lacks it.
pub(crate) fn numbered(
    alloc: Global,
    tables: &Tables<'_>,
    text: &[u8],
) -> Result<Vec<u8>, AllocError>
    ensures { IfOk result (λ made. (words : List Word) → AreTablesOf tables.now words
        → made.items ≡ numbered words text.now) }
{
    let mut made = Vec::new(alloc);
    let mut start = 0;
    let mut quoted = false;
    for index in 0..text.len() {
        let byte = text[index];
        if ends_piece(quoted, byte) {
            push_piece(&mut made, tables, &text[start..index])?;
            made.push(byte)?;
            start = index + 1;
        }
        quoted = quoted_after(quoted, byte);
    }
    push_piece(&mut made, tables, &text[start..])?;
    Ok(made)
}

/// Whether a byte ends a piece: a line feed, or a mark that isn't in quotes.
pub(crate) fn ends_piece(quoted: bool, byte: u8) -> bool
    ensures { result ≡ ends_piece quoted byte }
{
    byte == b'\n' || !quoted && is_mark(byte)
}

/// Whether a quote is open after a byte.
pub(crate) fn quoted_after(quoted: bool, byte: u8) -> bool
    ensures { result ≡ quoted_after quoted byte }
{
    if ends_piece(quoted, byte) {
        false
    } else if byte == b'"' {
        !quoted
    } else {
        quoted
    }
}

/// Adds a piece, with the number that it lacks.
fn push_piece(made: &mut Vec<u8>, tables: &Tables<'_>, piece: &[u8]) -> Result<(), AllocError>
    ensures { OnOk result ((words : List Word) → AreTablesOf tables.now words
        → made.new.items ≡ made.old.items ++ with_lacked piece.now (lacked words piece.now)) }
{
    match lacked(tables, piece) {
        Some(found) => push_lacked(made, piece, &found),
        None => made.extend_from_slice(piece),
    }
}

/// Adds a piece with this number and a blank in front of the word for it.
fn push_lacked(
    made: &mut Vec<u8>,
    piece: &[u8],
    found: &Insertion<'_, '_>,
) -> Result<(), AllocError>
    ensures { OnOk result (made.new.items ≡ made.old.items ++ with_lacked piece.now (Some (plain_insertion found.now))) }
{
    let front = piece.len().saturating_sub(found.rest.len());
    made.extend_from_slice(&piece[..front])?;
    made.extend_from_slice(found.number)?;
    made.push(b' ')?;
    made.extend_from_slice(found.rest)
}

/// The number that a piece of a line lacks.
pub(crate) fn lacked<'t, 'p>(tables: &Tables<'t>, piece: &'p [u8]) -> Option<Insertion<'t, 'p>>
    ensures { (words : List Word) → AreTablesOf tables.now words
        → option_map plain_insertion result ≡ lacked words piece.entry.now }
{
    let (name, fields) = next_word(piece);
    lacked_at(
        tables,
        name,
        after_field(
            b"length".as_slice(),
            after_field(b"flags".as_slice(), fields),
        ),
    )
}

/// The number that is lacked in the place of the value of the AVP of this name, or after it.
fn lacked_at<'t, 'p>(tables: &Tables<'t>, name: &[u8], text: &'p [u8]) -> Option<Insertion<'t, 'p>>
    ensures { (words : List Word) → AreTablesOf tables.now words
        → option_map plain_insertion result ≡ lacked_at words name.now text.entry.now }
{
    let (value, following) = next_word(text);
    if is_number(value) {
        let (word, _) = next_word(following);
        let number = number_after(tables, name, value, word)?;
        Some(Insertion {
            number,
            rest: without_blanks(following),
        })
    } else {
        let number = number_alone(tables, name, value)?;
        Some(Insertion {
            number,
            rest: without_blanks(text),
        })
    }
}

/// What follows a field, where the text begins with it.
fn after_field<'p>(field: &[u8], text: &'p [u8]) -> &'p [u8]
    ensures { result.now ≡ after_field field.now text.entry.now }
{
    let (word, value) = next_word(text);
    if word == field {
        let (_, following) = next_word(value);
        following
    } else {
        text
    }
}

/// The number for a word in the place of a value.
fn number_alone<'t>(tables: &Tables<'t>, name: &[u8], word: &[u8]) -> Option<&'t [u8]>
    ensures { (words : List Word) → AreTablesOf tables.now words
        → option_map (λ number. number.now) result ≡ number_alone words name.now word.now }
{
    if may_be_word(word) {
        tables.number(name, word)
    } else {
        None
    }
}

/// The number for a word after another number, whose word it isn't.
fn number_after<'t>(
    tables: &Tables<'t>,
    name: &[u8],
    number: &[u8],
    word: &[u8],
) -> Option<&'t [u8]>
    ensures { (words : List Word) → AreTablesOf tables.now words
        → option_map (λ n. n.now) result ≡ number_after words name.now number.now word.now }
{
    if is_word_of(tables, name, number, word) {
        None
    } else {
        number_alone(tables, name, word)
    }
}

fn is_word_of(tables: &Tables<'_>, name: &[u8], number: &[u8], word: &[u8]) -> bool
    ensures { (words : List Word) → AreTablesOf tables.now words
        → result ≡ is_word_of words name.now number.now word.now }
{
    match tables.word(name, number) {
        Some(found) => found == word,
        None => false,
    }
}

/// Whether a word may stand for a number: it has a letter, and is neither a value nor a word of a line's fields.
pub(crate) fn may_be_word(word: &[u8]) -> bool
    ensures { result ≡ may_be_word word.now }
{
    has_letter(word) && !(is_value_word(word) || is_field_word(word))
}

pub(crate) fn has_letter(word: &[u8]) -> bool
    ensures { result ≡ list_any is_ascii_alphabetic word.now }
{
    word.iter().any(|byte| byte.is_ascii_alphabetic())
}

/// Whether a word is bytes, a text, a number after `0x`, or a date.
fn is_value_word(word: &[u8]) -> bool
    ensures { result ≡ is_value_word word.now }
{
    begins_value(word) || begins_digits(word) || has_colon(word)
}

fn begins_value(word: &[u8]) -> bool
    ensures { result ≡ begins_value word.now }
{
    matches!(word, [b'x' | b'"', ..])
}

fn begins_digits(word: &[u8]) -> bool
    ensures { result ≡ begins_digits word.now }
{
    matches!(word, [b'0', b'x', ..])
}

fn has_colon(word: &[u8]) -> bool
    ensures { result ≡ list_any (λ c. c == 58) word.now }
{
    word.iter().any(|byte| *byte == b':')
}

/// Whether a word is one of a header or of an AVP's fields.
fn is_field_word(word: &[u8]) -> bool
    ensures { result ≡ is_field_word word.now }
{
    is_avp_field(word) || is_header_field(word)
}

fn is_avp_field(word: &[u8]) -> bool
    ensures { result ≡ is_keyword word.now }
{
    word == b"flags".as_slice() || word == b"length".as_slice() || word == b"pad".as_slice()
}

fn is_header_field(word: &[u8]) -> bool
    ensures { result ≡ is_header_field word.now }
{
    word == b"app".as_slice() || word == b"hop".as_slice() || word == b"end".as_slice()
}

/// Whether a word is a number as `show` prints it.
fn is_number(word: &[u8]) -> bool
    ensures { result ≡ is_number word.now }
{
    match word {
        [b'-', digits @ ..] => is_positive(digits),
        _ => is_positive(word) || word == b"0".as_slice(),
    }
}

/// Whether these are digits that begin with no zero.
fn is_positive(digits: &[u8]) -> bool
    ensures { result ≡ is_positive digits.now }
{
    match digits {
        [first, ..] => *first != b'0' && are_digits(digits),
        [] => false,
    }
}

fn are_digits(word: &[u8]) -> bool
    ensures { result ≡ list_all is_ascii_digit word.now }
{
    word.iter().all(|byte| byte.is_ascii_digit())
}
