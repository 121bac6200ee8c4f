//! A line of a connection: `END [TIME] HEX`.

ghost use Rattle.std.specs.Prelude.{◌≡◌, ◌<◌, ◌≤◌, IfSome, length, not, option_map, position, unwrap_or};
ghost use Rattle.dia_follow_text.specs.Entries.{after_end, after_second, cut_word, end_of, entry_of, is_blank, is_comment, next_word, with_time};

use crate::times::read_time;
use dia_follow::End;
use std::marker::Model;
use thiserror::Error;

/// A line that has a message.
#[derive(Drop)]
pub struct Entry<'a> {
    /// The end that sent the message.
    pub end: End,
    /// When it was captured, in nanoseconds.
    pub time: Option<u64>,
    /// The word of its bytes.
    pub digits: &'a [u8],
}

impl<'a> Model for Entry<'a> {
    ghost use Rattle.dia_follow_text.specs.Entries.{PlainEntry};

    ghost Value = { PlainEntry };

    ghost view = { λ e. record { end = e.end; time = e.time; digits = e.digits.now } };
}

/// Why a line is refused, in this order.
#[derive(Clone, Copy, Debug, PartialEq, Eq, Error)]
pub enum BadLine {
    /// It has more bytes than the text of a message may have.
    #[error("the line is too long")]
    TooLong,
    /// It hasn't two or three words, of which the first is `>` or `<`.
    #[error("the line hasn't the form END [TIME] HEX")]
    Syntax,
    /// TIME isn't 1 to 10 digits, with a point and 1 to 9 digits after them or without.
    #[error("no time")]
    Time,
    /// HEX isn't pairs of hexadecimal digits.
    #[error("not hexadecimal")]
    NotHexadecimal,
}

impl BadLine {
    ghost use Rattle.std.specs.Prelude.{◌≡◌};
    ghost use Rattle.dia_follow_text.specs.Entries.{bad_word};

    pub fn word(self) -> &'static str
        ensures { result.now ≡ bad_word self }
    {
        match self {
            BadLine::TooLong => "too long",
            BadLine::Syntax => "syntax",
            BadLine::Time => "time",
            BadLine::NotHexadecimal => "not hexadecimal",
        }
    }
}

/// The words of a line. `None` for a line without words and for one that begins with `#`.
pub fn read_line(line: &[u8]) -> Result<Option<Entry<'_>>, BadLine>
    ensures { result ≡ entry_of line.entry.now }
{
    if is_comment(line) {
        return Ok(None);
    }
    match next_word(line) {
        Some((first, rest)) => match end_of(first) {
            Ok(end) => after_end(end, rest),
            Err(bad) => Err(bad),
        },
        None => Ok(None),
    }
}

fn is_comment(line: &[u8]) -> bool
    ensures { result ≡ is_comment line.now }
{
    match line.first() {
        Some(byte) => *byte == b'#',
        None => false,
    }
}

/// The words after END.
fn after_end(end: End, text: &[u8]) -> Result<Option<Entry<'_>>, BadLine>
    ensures { result ≡ after_end end (next_word text.entry.now) }
{
    match next_word(text) {
        Some((word, rest)) => after_second(end, word, rest),
        None => Err(BadLine::Syntax),
    }
}

/// The words after the second.
fn after_second<'a>(
    end: End,
    second: &'a [u8],
    text: &'a [u8],
) -> Result<Option<Entry<'a>>, BadLine>
    ensures { result ≡ after_second end second.entry.now (next_word text.entry.now) }
{
    match next_word(text) {
        Some((digits, rest)) => with_time(end, second, digits, rest),
        None => Ok(Some(Entry {
            end,
            time: None,
            digits: second,
        })),
    }
}

/// Three words, and what follows them.
fn with_time<'a>(
    end: End,
    time: &[u8],
    digits: &'a [u8],
    rest: &[u8],
) -> Result<Option<Entry<'a>>, BadLine>
    ensures { result ≡ with_time end time.now digits.entry.now (next_word rest.now) }
{
    if next_word(rest).is_some() {
        return Err(BadLine::Syntax);
    }
    match read_time(time) {
        Some(time) => Ok(Some(Entry {
            end,
            time: Some(time),
            digits,
        })),
        None => Err(BadLine::Time),
    }
}

fn end_of(word: &[u8]) -> Result<End, BadLine>
    ensures { result ≡ end_of word.now }
{
    if word == b">".as_slice() {
        Ok(End::Initiator)
    } else if word == b"<".as_slice() {
        Ok(End::Responder)
    } else {
        Err(BadLine::Syntax)
    }
}

/// The first word of a text, and what follows it.
fn next_word(text: &[u8]) -> Option<(&[u8], &[u8])>
    ensures { option_map (λ parts. (parts.0.now, parts.1.now)) result ≡ next_word text.entry.now }
{
    match word_begin(text) {
        Some(from) => {
            let (word, rest) = cut_word(&text[from..]);
            Some((word, rest))
        }
        None => None,
    }
}

/// The word that a text begins with, and what follows it.
fn cut_word(text: &[u8]) -> (&[u8], &[u8])
    ensures { (result.0.now, result.1.now) ≡ cut_word text.entry.now }
{
    let to = word_end(text);
    (&text[..to], &text[to..])
}

fn word_begin(text: &[u8]) -> Option<usize>
    ensures place { result ≡ position (λ byte. not (is_blank byte)) text.now }
    ensures inside { IfSome result (λ from. from < length text.now) }
{
    text.iter().position(|byte| !is_blank(*byte))
}

fn word_end(text: &[u8]) -> usize
    ensures place { result ≡ unwrap_or (position is_blank text.now) (length text.now) }
    ensures inside { result ≤ length text.now }
{
    let end = blank_place(text);
    end.unwrap_or(text.len())
}

fn blank_place(text: &[u8]) -> Option<usize>
    ensures place { result ≡ position is_blank text.now }
    ensures inside { IfSome result (λ to. to < length text.now) }
{
    text.iter().position(|byte| is_blank(*byte))
}

/// Whether a byte separates words.
fn is_blank(byte: u8) -> bool
    ensures { result ≡ is_blank byte }
{
    byte == b' ' || byte == b'\t' || byte == b'\r'
}
