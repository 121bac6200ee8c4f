//! The parts of a line after its first word: a keyword and its value, which may be left out.
ghost use Rattle.std.specs.Prelude.{◌≡◌, ◌<◌, ◌≤◌, ◌^◌, IfOk, length};
ghost use Rattle.std.specs.Prelude.{option_and_then};
ghost use Rattle.std.specs.Option.{option_map};
ghost use Rattle.dia_text.specs.Fields.{number_field, flags_field, flags_of};
ghost use Rattle.dia_text.specs.Fields.{length_field, padding_field, bytes_of};
ghost use Rattle.dia_text.specs.Fields.{letters_value, columns_value, column, reserved_value};
ghost use Rattle.dia_text.specs.Fields.{by_letters, decoded};
ghost use Rattle.hex.specs.Hex.{decode_of};
ghost use Rattle.dia_text.specs.Numbers.{any_below, within};
ghost use Rattle.dia_text.specs.Reading.{Gives, IsRead, Reads, some_or, at_word};
ghost use Rattle.dia_text.specs.Words.{first_word};

use crate::fault::{Kind, Misfit, Misread, NotRead, Wanted, misfit_at};
use crate::numbers::{any_below, any_below32, hex_byte_of};
use crate::words::{after_letter, next_word};
use hex::FromHexError;
use std::alloc::Global;

/// A number after its keyword, or the default where the keyword is missing; and what follows. `wanted` is what could be in place
/// of a keyword that is missing and has no default.
#[tactic(auto, unfolding(crate::specs::Fields::number_field))]
pub(crate) fn number_field<'a>(
    keyword: &[u8],
    default: Option<u32>,
    wanted: Wanted,
    text: &'a [u8],
) -> Result<(u32, &'a [u8]), Misfit>
    ensures { IsRead (λ x. (x.0, x.1.now)) result
        (number_field keyword.now default wanted text.entry.now) }
{
    let (word, following) = next_word(text);
    if word == keyword {
        let number = number_at(following)?;
        let (_, rest) = next_word(following);
        Ok((number, rest))
    } else {
        let number = default_at(text, wanted, default)?;
        Ok((number, text))
    }
}

/// Flags after their keyword, or the default where the keyword is missing; and what follows. `flags` is what could be in place
/// of wrong flags, and `wanted` in place of a keyword that is missing and has no default.
#[tactic(auto, unfolding(crate::specs::Fields::flags_field))]
pub(crate) fn flags_field<'a>(
    letters: &[(u8, u8)],
    flags: Wanted,
    default: Option<u8>,
    wanted: Wanted,
    text: &'a [u8],
) -> Result<(u8, &'a [u8]), Misfit>
    requires { length letters.now ≤ 4 }
    ensures { IsRead (λ x. (x.0, x.1.now)) result
        (flags_field letters.now flags default wanted text.entry.now) }
{
    let (word, following) = next_word(text);
    if word == b"flags".as_slice() {
        let found = flags_at(letters, flags, following)?;
        let (_, rest) = next_word(following);
        Ok((found, rest))
    } else {
        let found = default_at(text, wanted, default)?;
        Ok((found, text))
    }
}

/// The number that the first word writes.
fn number_at(text: &[u8]) -> Result<u32, Misfit>
    ensures { result ≡ at_word text.now Wanted.Number
        (some_or (any_below (2 ^ 32) (first_word text.now)) Kind.Value) }
{
    let (word, _) = next_word(text);
    match any_below32(word) {
        Some(number) => Ok(number),
        None => Err(misfit_at(text, Wanted::Number, Kind::Value)),
    }
}

/// The default of what is missing before a text.
fn default_at<T: Copy>(text: &[u8], wanted: Wanted, default: Option<T>) -> Result<T, Misfit>
    ensures { result ≡ at_word text.now wanted (some_or default Kind.Syntax) }
{
    match default {
        Some(value) => Ok(value),
        None => Err(misfit_at(text, wanted, Kind::Syntax)),
    }
}

/// The flags that the first word writes.
fn flags_at(letters: &[(u8, u8)], wanted: Wanted, text: &[u8]) -> Result<u8, Misfit>
    requires { length letters.now ≤ 4 }
    ensures { result ≡ at_word text.now wanted
        (some_or (flags_of letters.now (first_word text.now)) Kind.Value) }
{
    let (word, _) = next_word(text);
    match flags_of(letters, word) {
        Some(flags) => Ok(flags),
        None => Err(misfit_at(text, wanted, Kind::Value)),
    }
}

/// The flags that a word writes: `-` for none, two hexadecimal digits, or letters in their order.
fn flags_of(letters: &[(u8, u8)], word: &[u8]) -> Option<u8>
    requires { length letters.now ≤ 4 }
    ensures { result ≡ flags_of letters.now word.now }
{
    if word.is_empty() {
        return None;
    }
    if word == b"-".as_slice() {
        return Some(0);
    }
    match hex_byte_of(word) {
        Some(flags) => Some(flags),
        None => flags_by_letters(letters, word),
    }
}

fn flags_by_letters(letters: &[(u8, u8)], word: &[u8]) -> Option<u8>
    requires { length letters.now ≤ 4 }
    ensures { result ≡ option_and_then (within 256) (by_letters letters.now word.now) }
{
    let total = by_letters(letters, word)?;
    if total < 256 { Some(total as u8) } else { None }
}

/// The sum of the flags of a word: as `show --names` prints them, or of those that are set alone.
fn by_letters(letters: &[(u8, u8)], word: &[u8]) -> Option<u32>
    requires { length letters.now ≤ 4 }
    ensures { result ≡ by_letters letters.now word.now }
{
    match letters_value(letters, word) {
        Some(total) => Some(total),
        None => columns_value(letters, word),
    }
}

/// The sum of the flags of a word that has a sign for each letter: the letter, or a dash where the flag is clear.
fn columns_value(letters: &[(u8, u8)], word: &[u8]) -> Option<u32>
    requires { length letters.now ≤ 4 }
    ensures { result ≡ columns_value letters.now word.now }
{
    let mut total = 0u32;
    let mut rest = word;
    for row in letters {
        let (flag, following) = column(row, rest)?;
        total += u32::from(flag);
        rest = following;
    }
    let reserved = reserved_value(rest)?;
    Some(total + u32::from(reserved))
}

/// The flag that the first sign of a word has in its column, and what follows.
fn column<'a>(row: &(u8, u8), word: &'a [u8]) -> Option<(u8, &'a [u8])>
    ensures { option_map (λ x. (x.0, x.1.now)) result ≡ column row.now word.entry.now }
{
    match word {
        [first, following @ ..] if *first == row.0 => Some((row.1, following)),
        [b'-', following @ ..] => Some((0, following)),
        _ => None,
    }
}

/// The bits without a name, after the letters.
fn reserved_value(word: &[u8]) -> Option<u8>
    ensures { result ≡ reserved_value word.now }
{
    match word {
        [] => Some(0),
        [b'+', digits @ ..] => hex_byte_of(digits),
        _ => None,
    }
}

/// An AVP Length after its keyword; and what follows.
#[tactic(auto, unfolding(crate::specs::Fields::length_field))]
pub(crate) fn length_field(text: &[u8]) -> Result<(Option<u32>, &[u8]), Misfit>
    ensures { IsRead (λ x. (x.0, x.1.now)) result (length_field text.entry.now) }
{
    let (word, following) = next_word(text);
    if word == b"length".as_slice() {
        let length = three_byte_number(following, Wanted::AvpLength)?;
        let (_, rest) = next_word(following);
        Ok((Some(length), rest))
    } else {
        Ok((None, text))
    }
}

/// The number that the first word writes, and that three bytes hold.
pub(crate) fn three_byte_number(text: &[u8], wanted: Wanted) -> Result<u32, Misfit>
    ensures value { result ≡ at_word text.now wanted
        (some_or (any_below (2 ^ 24) (first_word text.now)) Kind.Value) }
    ensures small { IfOk result (λ n. n < 2 ^ 24) }
{
    let (word, _) = next_word(text);
    match any_below(1 << 24, word) {
        Some(number) => Ok(number as u32),
        None => Err(misfit_at(text, wanted, Kind::Value)),
    }
}

/// Padding after its keyword; and what follows.
#[tactic(auto, unfolding(crate::specs::Fields::padding_field))]
pub(crate) fn padding_field(alloc: Global, text: &[u8]) -> Result<(Option<Vec<u8>>, &[u8]), NotRead>
    ensures { Reads (λ x. (option_map (λ bytes. bytes.items) x.0, x.1.now)) result
        (padding_field text.entry.now) }
{
    let (word, following) = next_word(text);
    if word == b"pad".as_slice() {
        let bytes = bytes_at(alloc, following)?;
        let (_, rest) = next_word(following);
        Ok((Some(bytes), rest))
    } else {
        Ok((None, text))
    }
}

/// The bytes that the first word writes.
pub(crate) fn bytes_at(alloc: Global, text: &[u8]) -> Result<Vec<u8>, NotRead>
    ensures { Reads (λ bytes. bytes.items) result
        (at_word text.now Wanted.Bytes (bytes_of (first_word text.now))) }
{
    let (word, _) = next_word(text);
    match bytes_of(alloc, word) {
        Ok(bytes) => Ok(bytes),
        Err(misread) => Err(misread.at(text, Wanted::Bytes)),
    }
}

/// The bytes that `x` and hexadecimal digits write.
pub(crate) fn bytes_of(alloc: Global, word: &[u8]) -> Result<Vec<u8>, Misread>
    ensures { Gives (λ bytes. bytes.items) result (bytes_of word.now) }
{
    match word {
        [] => Err(Misread::Fault(Kind::Syntax)),
        [b'x', digits @ ..] => decode(alloc, digits),
        _ => Err(Misread::Fault(Kind::Value)),
    }
}

fn decode(alloc: Global, digits: &[u8]) -> Result<Vec<u8>, Misread>
    ensures { Gives (λ bytes. bytes.items) result (decoded (decode_of digits.now)) }
{
    match hex::decode(alloc, digits) {
        Ok(bytes) => Ok(bytes),
        Err(FromHexError::OutOfMemory) => Err(Misread::NoMemory),
        Err(_) => Err(Misread::Fault(Kind::Value)),
    }
}

/// The sum of the flags whose letters the word has, in their order.
fn letters_value(letters: &[(u8, u8)], word: &[u8]) -> Option<u32>
    requires { length letters.now ≤ 4 }
    ensures { result ≡ letters_value letters.now word.now }
{
    let mut total = 0u32;
    let mut rest = word;
    for row in letters {
        if let Some(following) = after_letter(row.0, rest) {
            total += u32::from(row.1);
            rest = following;
        }
    }
    if rest.is_empty() { Some(total) } else { None }
}
