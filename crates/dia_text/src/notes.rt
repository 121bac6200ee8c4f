//! What may follow a value for the reader of a text: the word of a number, and the date of a Time.
ghost use Rattle.std.specs.Prelude.{◌≡◌};
ghost use Rattle.std.specs.Char.{is_ascii_alphabetic};
ghost use Rattle.std.specs.List.{list_any};
ghost use Rattle.std.specs.Option.{option_map};
ghost use Rattle.byteorder.specs.Endian.{big_bytes};
ghost use Rattle.dia_terms.specs.Names.{same_bytes};
ghost use Rattle.dia_data.specs.Plain.{plain_format};
ghost use Rattle.dia_text.specs.Values.{after_note, after_date, is_time, is_date_of};
ghost use Rattle.dia_text.specs.Values.{after_remark, takes_remark, is_number};
ghost use Rattle.dia_text.specs.Values.{is_remark, is_value, begins_value, is_keyword};

use crate::dates::time_of;
use crate::numbers::any_number;
use crate::words::next_word;
use byteorder::{BigEndian, ByteOrder};
use dia_data::{Format, FormatKind, Reading};

/// What follows the word and the date of this data, where they are written.
pub(crate) fn after_note<'a>(format: Option<&Format>, bytes: &[u8], text: &'a [u8]) -> &'a [u8]
    ensures { result.now ≡ after_note
        (option_map (λ format. plain_format format.now) format.entry) bytes.now text.entry.now }
{
    after_date(format, bytes, after_remark(format, text))
}

/// What follows the word after a number, where there is one.
fn after_remark<'a>(format: Option<&Format>, text: &'a [u8]) -> &'a [u8]
    ensures { result.now ≡ after_remark
        (option_map (λ format. plain_format format.now) format.entry) text.entry.now }
{
    let (word, following) = next_word(text);
    if takes_remark(format) && is_remark(word) {
        following
    } else {
        text
    }
}

/// Whether a word may follow a value of this format.
fn takes_remark(format: Option<&Format>) -> bool
    ensures { result
        ≡ takes_remark (option_map (λ format. plain_format format.now) format.entry) }
{
    match format {
        Some(Format::Time) | None => false,
        Some(format) => is_number(format.kind()),
    }
}

fn is_number(kind: FormatKind) -> bool
    ensures { result ≡ is_number kind }
{
    matches!(
        kind,
        FormatKind::FourBytes(Reading::Signed | Reading::Unsigned)
            | FormatKind::EightBytes(Reading::Signed | Reading::Unsigned)
            | FormatKind::Enumerated
    )
}

/// Whether a word has a letter, and is neither a value nor a keyword.
fn is_remark(word: &[u8]) -> bool
    ensures { result ≡ is_remark word.now }
{
    has_letter(word) && !(is_value(word) || is_keyword(word))
}

fn has_letter(word: &[u8]) -> bool
    ensures { result ≡ list_any is_ascii_alphabetic word.now }
{
    word.iter().any(|byte| byte.is_ascii_alphabetic())
}

fn is_value(word: &[u8]) -> bool
    ensures { result ≡ is_value word.now }
{
    begins_value(word) || any_number(word).is_some() || time_of(word).is_some()
}

/// Whether bytes or a text begin.
fn begins_value(word: &[u8]) -> bool
    ensures { result ≡ begins_value word.now }
{
    matches!(word, [b'x' | b'"', ..])
}

fn is_keyword(word: &[u8]) -> bool
    ensures { result ≡ is_keyword word.now }
{
    word == b"flags".as_slice() || word == b"length".as_slice() || word == b"pad".as_slice()
}

/// What follows the date of a Time after its number, where there is one.
fn after_date<'a>(format: Option<&Format>, bytes: &[u8], text: &'a [u8]) -> &'a [u8]
    ensures { result.now ≡ after_date
        (option_map (λ format. plain_format format.now) format.entry) bytes.now text.entry.now }
{
    let (word, following) = next_word(text);
    if is_time(format) && is_date_of(bytes, word) {
        following
    } else {
        text
    }
}

fn is_time(format: Option<&Format>) -> bool
    ensures { result ≡ is_time (option_map (λ format. plain_format format.now) format.entry) }
{
    matches!(format, Some(Format::Time))
}

/// Whether a word is the date of this data.
fn is_date_of(bytes: &[u8], word: &[u8]) -> bool
    ensures { result ≡ is_date_of bytes.now word.now }
{
    match time_of(word) {
        Some(number) => are_bytes_of(number, bytes),
        None => false,
    }
}

/// Whether these are the four bytes of a number.
fn are_bytes_of(number: u32, bytes: &[u8]) -> bool
    ensures { result ≡ same_bytes (big_bytes 4 number) bytes.now }
{
    let mut four = [0; 4];
    BigEndian::write_u32(&mut four, number);
    four.as_slice() == bytes
}
