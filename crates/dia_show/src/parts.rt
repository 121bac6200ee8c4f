//! The parts of a line of words.

ghost use Rattle.std.specs.Prelude.{◌≡◌, IfSome, None, false, true};
ghost use Rattle.dia_show.specs.Words.{after_part, front_part, has_form, is_comment, is_name};
ghost use Rattle.dia_show.specs.Words.{is_number, is_positive, is_skipped, is_word};

use crate::byte_kinds::{ByteKind, all_are};

/// A word, and the number of an AVP that it is the word of.
#[derive(Clone, Copy)]
pub(crate) struct Entry<'a> {
    pub name: &'a str,
    pub number: &'a str,
    pub word: &'a str,
}

/// What a line `NAME NUMBER WORD` says, or none of another line.
pub(crate) fn entry_of(line: &str) -> Option<Entry<'_>>
    ensures form { IfSome result (λ entry. has_form line.now ≡ true) }
    ensures name { IfSome result (λ entry. entry.name.now ≡ front_part line.now) }
    ensures number { IfSome result (λ entry. entry.number.now ≡ front_part (after_part line.now)) }
    ensures word { IfSome result (λ entry. entry.word.now ≡ after_part (after_part line.now)) }
    ensures none { result ≡ None → has_form line.now ≡ false }
{
    let (name, rest) = parts(line);
    let (number, word) = parts(rest);
    if is_name(name.as_bytes()) && is_number(number.as_bytes()) && is_word(word.as_bytes()) {
        Some(Entry { name, number, word })
    } else {
        None
    }
}

/// Whether a line says nothing: it is blank, or a comment.
pub(crate) fn is_skipped(line: &[u8]) -> bool
    ensures { result ≡ is_skipped line.now }
{
    is_comment(line) || all_are(ByteKind::Blank, line)
}

fn is_comment(line: &[u8]) -> bool
    ensures { result ≡ is_comment line.now }
{
    match line {
        [first, ..] => *first == b'#',
        [] => false,
    }
}

/// What precedes the first blank, and what follows it.
fn parts(text: &str) -> (&str, &str)
    ensures front { result.0.now ≡ front_part text.now }
    ensures following { result.1.now ≡ after_part text.now }
{
    match text.split_once(' ') {
        Some((front, following)) => (front, following),
        None => (text, ""),
    }
}

fn is_name(text: &[u8]) -> bool
    ensures { result ≡ is_name text.now }
{
    !text.is_empty() && all_are(ByteKind::Name, text)
}

fn is_word(text: &[u8]) -> bool
    ensures { result ≡ is_word text.now }
{
    !text.is_empty() && all_are(ByteKind::Graphic, text)
}

/// Whether this is a number as it is printed.
fn is_number(text: &[u8]) -> bool
    ensures { result ≡ is_number text.now }
{
    match text {
        [b'-', digits @ ..] => is_positive(digits),
        _ => is_positive(text) || text == b"0".as_slice(),
    }
}

/// Whether these are digits that begin with no zero.
fn is_positive(digits: &[u8]) -> bool
    ensures { result ≡ is_positive digits.now }
{
    match digits {
        [first, ..] => *first != b'0' && all_are(ByteKind::Digit, digits),
        [] => false,
    }
}
