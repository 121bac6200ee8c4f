//! Numbers in decimal, and bytes in hexadecimal.
ghost use Rattle.std.specs.Prelude.{◌≡◌, ◌<◌, ◌≤◌, ◌*◌, ◌^◌, IfSome, length, true};
ghost use Rattle.std.specs.List.{list_all};
ghost use Rattle.std.specs.Char.{is_ascii_digit};
ghost use Rattle.dia_text.specs.Numbers.{number_of, number_below};
ghost use Rattle.dia_text.specs.Numbers.{complement, signed_below, hex_byte_of};
ghost use Rattle.dia_text.specs.Numbers.{any_number, any_below, prefixed, hex_number, sixteen};

use crate::words::after_letter;
use byteorder::{BigEndian, ByteOrder};
use hex::decode_to_slice;
use std::str;

/// The number that a word of decimal digits writes, if it is below 2^64.
pub(crate) fn number_of(word: &[u8]) -> Option<u64>
    ensures { result ≡ number_of word.now }
{
    if word.is_empty() || !is_digits(word) {
        return None;
    }
    match str::from_utf8(word) {
        Ok(digits) => parsed(digits),
        Err(_) => None,
    }
}

fn parsed(digits: &str) -> Option<u64>
    requires some { 0 < length digits.now }
    requires digits { list_all is_ascii_digit digits.now ≡ true }
    ensures { result ≡ number_of digits.now }
{
    digits.parse::<u64>().ok()
}

fn is_digits(word: &[u8]) -> bool
    ensures { result ≡ list_all is_ascii_digit word.now }
{
    for index in 0..word.len() {
        if !word[index].is_ascii_digit() {
            return false;
        }
    }
    true
}

/// The number that a word writes, if it is below the limit.
pub(crate) fn number_below(limit: u64, word: &[u8]) -> Option<u64>
    ensures value { result ≡ number_below limit word.now }
    ensures small { IfSome result (λ n. n < limit) }
{
    let number = number_of(word)?;
    if number < limit { Some(number) } else { None }
}

/// The number that a word writes, if it is below 2^32.
pub(crate) fn number32(word: &[u8]) -> Option<u32>
    ensures { result ≡ number_below (2 ^ 32) word.now }
{
    let number = number_below(1 << 32, word)?;
    Some(number as u32)
}

/// The number that a word writes, in decimal or in hexadecimal after `0x`, if it is below the limit.
pub(crate) fn any_below(limit: u64, word: &[u8]) -> Option<u64>
    ensures value { result ≡ any_below limit word.now }
    ensures small { IfSome result (λ n. n < limit) }
{
    let number = any_number(word)?;
    if number < limit { Some(number) } else { None }
}

/// Such a number below 2^32.
pub(crate) fn any_below32(word: &[u8]) -> Option<u32>
    ensures { result ≡ any_below (2 ^ 32) word.now }
{
    let number = any_below(1 << 32, word)?;
    Some(number as u32)
}

/// The number that a word writes, in decimal or in hexadecimal after `0x`, if it is below 2^64.
pub(crate) fn any_number(word: &[u8]) -> Option<u64>
    ensures { result ≡ any_number word.now }
{
    match number_of(word) {
        Some(number) => Some(number),
        None => prefixed(word),
    }
}

fn prefixed(word: &[u8]) -> Option<u64>
    ensures { result ≡ prefixed word.now }
{
    let following = after_letter(b'0', word)?;
    let digits = after_letter(b'x', following)?;
    hex_number(digits)
}

/// The number that 1 to 16 hexadecimal digits write.
fn hex_number(digits: &[u8]) -> Option<u64>
    ensures { result ≡ hex_number digits.now }
{
    if digits.is_empty() || digits.len() > 16 {
        return None;
    }
    let digits = sixteen(digits);
    let mut bytes = [0u8; 8];
    match decode_to_slice(digits.as_slice(), &mut bytes) {
        Ok(()) => Some(BigEndian::read_u64(&bytes)),
        Err(_) => None,
    }
}

/// Sixteen digits, with zeros before fewer.
fn sixteen(digits: &[u8]) -> [u8; 16]
    requires { length digits.now ≤ 16 }
    ensures { result ≡ sixteen digits.now }
{
    let mut all = [b'0'; 16];
    all[16 - digits.len()..].copy_from_slice(digits);
    all
}

/// The number that a word with or without `-` writes, in two's complement: `half` of all numbers are those below zero.
pub(crate) fn signed_below(half: u64, word: &[u8]) -> Option<u64>
    requires some { 0 < half }
    requires small { half ≤ 2 ^ 63 }
    ensures value { result ≡ signed_below half word.now }
    ensures small { IfSome result (λ n. n < 2 * half) }
{
    match word {
        [] => None,
        [b'-', digits @ ..] => {
            let number = number_below(half + 1, digits)?;
            Some(complement(half, number))
        }
        _ => any_below(half, word),
    }
}

fn complement(half: u64, number: u64) -> u64
    requires half { half ≤ 2 ^ 63 }
    requires small { number ≤ half }
    ensures value { result ≡ complement half number }
    ensures small { 0 < half → result < 2 * half }
{
    if number == 0 {
        0
    } else {
        (half - number) + half
    }
}

/// The byte that two hexadecimal digits write.
pub(crate) fn hex_byte_of(word: &[u8]) -> Option<u8>
    ensures { result ≡ hex_byte_of word.now }
{
    let mut byte = [0u8];
    match decode_to_slice(word, &mut byte) {
        Ok(()) => Some(byte[0]),
        Err(_) => None,
    }
}
