//! What may be meant by a word that is at fault.

use crate::notes::dated::is_dated;
use crate::notes::hints::{
    CLOSED, COMMA, DICTIONARY, DIGITS, ESCAPED, MEMBER, NUMBER, OTHER_QUOTES, PAIRS, RETURNS,
    SHOWN, SIGN,
};
use crate::notes::others::{is_digits_of_message, is_of_dictionary};
use crate::notes::shown::is_shown;
use crate::numbered::{has_letter, may_be_word};
use dia_text::Wanted;
use std::str;

/// What may be meant by a word.
#[derive(Clone, Copy)]
pub enum Meant {
    Nothing,
    /// A command of the dictionary.
    Command,
    /// An AVP of the dictionary.
    Avp,
    /// A text without its quotes.
    Text,
    /// The same, or an address of four numbers as bytes.
    Address,
    /// A word of values.
    Word,
    /// A date after another value.
    Date,
    /// What the hint says.
    Hint(&'static str),
}

/// What may be meant by a word in place of what is wanted. `line` has the word, and `before` is the text before the line.
pub fn meant_of(wanted: Wanted, word: &[u8], line: &[u8], before: &[u8]) -> Meant {
    match wanted {
        _ if is_shown(line) => Meant::Hint(SHOWN),
        Wanted::CommandName if is_of_dictionary(line) => Meant::Hint(DICTIONARY),
        Wanted::CommandName if is_digits_of_message(word) => Meant::Hint(DIGITS),
        Wanted::CommandName | Wanted::AvpName | Wanted::Hop | Wanted::End | Wanted::AnyValue
            if has_sign(word) => { Meant::Hint(SIGN) }
        Wanted::CommandName if has_letter(word) => Meant::Command,
        Wanted::AvpName if before.ends_with(b"\n\r\n") => Meant::Hint(RETURNS),
        Wanted::AvpName if has_letter(word) => Meant::Avp,
        Wanted::Text | Wanted::TextOrBytes | Wanted::BytesOfUnknown => meant_text(wanted, word),
        Wanted::Unsigned32 | Wanted::Signed32 | Wanted::Unsigned64 | Wanted::Signed64
            if may_be_word(word) && !has_sign(word) => { Meant::Word }
        Wanted::Unsigned32
        | Wanted::Signed32
        | Wanted::Unsigned64
        | Wanted::Signed64
        | Wanted::Group
        | Wanted::Address
        | Wanted::Bytes => meant_number(word),
        Wanted::LineEnd | Wanted::NextMember if is_dated(word) => Meant::Date,
        Wanted::LineEnd if word == b",".as_slice() => Meant::Hint(COMMA),
        Wanted::NextMember if !word.is_empty() => Meant::Hint(MEMBER),
        _ => Meant::Nothing,
    }
}

fn meant_number(word: &[u8]) -> Meant {
    match word {
        [b'=' | b':', ..] => Meant::Hint(SIGN),
        [b'"' | b'\'', ..] => Meant::Hint(NUMBER),
        _ if is_uneven(word) => Meant::Hint(PAIRS),
        _ => Meant::Nothing,
    }
}

fn meant_text(wanted: Wanted, word: &[u8]) -> Meant {
    match word {
        _ if is_uneven(word) => Meant::Hint(PAIRS),
        [b'x', ..] => Meant::Nothing,
        [b'=' | b':', ..] => Meant::Hint(SIGN),
        [b'"'] => Meant::Hint(CLOSED),
        [b'"', .., b'"'] => Meant::Hint(ESCAPED),
        [b'"', ..] => Meant::Hint(CLOSED),
        _ if after_other_quote(word).is_some() && in_other_quotes(word).is_none() => {
            Meant::Hint(OTHER_QUOTES)
        }
        _ if wanted != Wanted::Text && is_dotted(word) => Meant::Address,
        _ => Meant::Text,
    }
}

/// Whether a word has `=` in it, or ends with `:`.
fn has_sign(word: &[u8]) -> bool {
    word.contains(&b'=') || word.ends_with(b":")
}

/// `x` and hexadecimal digits, of which one has no second.
fn is_uneven(word: &[u8]) -> bool {
    match word {
        [b'x', digits @ ..] => {
            digits.len() % 2 == 1 && digits.iter().all(|byte| byte.is_ascii_hexdigit())
        }
        _ => false,
    }
}

/// Four numbers below 256 with dots between them.
fn is_dotted(word: &[u8]) -> bool {
    let parts = word.split(|byte| *byte == b'.').count();
    parts == 4
        && word
            .split(|byte| *byte == b'.')
            .all(|part| byte_of(part).is_some())
}

/// The text of a word that is in quotes other than double ones.
pub fn in_other_quotes(word: &[u8]) -> Option<&[u8]> {
    match after_other_quote(word)? {
        [text @ .., b'\'' | b'`'] => Some(text),
        // The curly quotes of UTF-8.
        [text @ .., 0xe2, 0x80, 0x98..=0x9f] => Some(text),
        _ => None,
    }
}

/// What follows an opening quote other than a double one.
fn after_other_quote(word: &[u8]) -> Option<&[u8]> {
    match word {
        [b'\'' | b'`', text @ ..] => Some(text),
        [0xe2, 0x80, 0x98..=0x9f, text @ ..] => Some(text),
        _ => None,
    }
}

/// The number of decimal digits, if it is below 256.
pub fn byte_of(part: &[u8]) -> Option<u8> {
    if !part.iter().all(|byte| byte.is_ascii_digit()) {
        return None;
    }
    match str::from_utf8(part) {
        Ok(digits) => digits.parse::<u8>().ok(),
        Err(_) => None,
    }
}
