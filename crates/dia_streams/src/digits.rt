//! The bytes that hexadecimal digits spell, as the digits come.

ghost use Rattle.std.specs.Prelude.{◌≡◌, [], ℕ, None, Some};
ghost use Rattle.hex.specs.Hex.{hex_digit_value};

use crate::pairs::decode_digits;
use dia_terms::is_white;
use memchr::memchr;
use std::alloc::{AllocError, Global};

/// Digits that come in pieces, with white space anywhere between them.
#[derive(Drop)]
pub struct Digits {
    /// The value of a digit whose pair isn't whole yet.
    pub half: Option<u8>,
    /// The bytes of the pairs.
    pub bytes: Vec<u8>,
    /// Room for the bytes of a line.
    space: Vec<u8>,
}

impl Digits {
    ghost use Rattle.std.specs.Prelude.{◌≡◌, ◌≤◌, ◌++◌, ◌∷◌, List, ℕ, [], None, Some, IfOk, OnOk, length};
    ghost use Rattle.hex.specs.Hex.{hex_digit_value};
    ghost use Rattle.dia_streams.specs.StreamUnderWay.{AreDigits, Takes};

    /// No digit came yet.
    pub fn new(alloc: Global) -> Digits
        ensures half { result.half ≡ None }
        ensures bytes { result.bytes.items ≡ [] }
    {
        Digits {
            half: None,
            bytes: Vec::new(alloc),
            space: Vec::new(alloc),
        }
    }

    /// Takes the digits of a text, up to a character that is neither a digit nor white space. `false` where there is one.
    ///
    /// The digits of a line are decoded together, where no white space is among them.
    pub fn take(&mut self, alloc: Global, text: &[u8]) -> Result<bool, AllocError>
        ensures { IfOk result (λ good. Takes good self.old.half self.new.half
            self.old.bytes.items self.new.bytes.items text.now) }
    {
        let mut rest = text;
        while let Some(at) = memchr(b'\n', rest) {
            if !self.take_line(alloc, &rest[..at])? {
                return Ok(false);
            }
            if !self.take_one(rest[at])? {
                return Ok(false);
            }
            rest = rest.split_at(at + 1).1;
        }
        self.take_line(alloc, rest)
    }

    /// Takes a line: the other digit of a pair whose first one came, then whole pairs, and the rest.
    fn take_line(&mut self, alloc: Global, line: &[u8]) -> Result<bool, AllocError>
        ensures { IfOk result (λ good. Takes good self.old.half self.new.half
            self.old.bytes.items self.new.bytes.items line.now) }
    {
        let (first, following) = line.split_at(self.lacking(line));
        if !self.take_each(first)? {
            return Ok(false);
        }
        let (pairs, last) = following.split_at(following.len() / 2 * 2);
        if !self.take_pairs(alloc, pairs)? {
            return Ok(false);
        }
        self.take_each(last)
    }

    /// How many characters of a line complete a pair whose first digit came before it, if no white space is among them.
    fn lacking(&self, line: &[u8]) -> usize
        ensures { result ≤ length line.now }
    {
        if self.half.is_some() && !line.is_empty() {
            1
        } else {
            0
        }
    }

    /// Takes digits that are likely to be pairs.
    fn take_pairs(&mut self, alloc: Global, text: &[u8]) -> Result<bool, AllocError>
        ensures { IfOk result (λ good. Takes good self.old.half self.new.half
            self.old.bytes.items self.new.bytes.items text.now) }
    {
        if self.half.is_none() {
            if let Some(count) = decode_digits(alloc, text, &mut self.space)? {
                self.bytes.extend_from_slice(&self.space[..count])?;
                return Ok(true);
            }
        }
        self.take_each(text)
    }

    /// Takes character by character.
    fn take_each(&mut self, text: &[u8]) -> Result<bool, AllocError>
        ensures { IfOk result (λ good. Takes good self.old.half self.new.half
            self.old.bytes.items self.new.bytes.items text.now) }
    {
        for &byte in text {
            if !self.take_one(byte)? {
                return Ok(false);
            }
        }
        Ok(true)
    }

    /// Takes a character, if it is a digit or white space.
    fn take_one(&mut self, byte: u8) -> Result<bool, AllocError>
        ensures { IfOk result (λ good. Takes good self.old.half self.new.half
            self.old.bytes.items self.new.bytes.items (byte ∷ [])) }
    {
        match digit_value(byte) {
            Some(value) => {
                self.add(value)?;
                Ok(true)
            }
            None => Ok(is_white(byte)),
        }
    }

    /// Adds a digit of this value.
    fn add(&mut self, value: u8) -> Result<(), AllocError>
        ensures { OnOk result ((more : List ℕ) × (self.new.bytes.items ≡ self.old.bytes.items ++ more)
            × ((digit : ℕ) → hex_digit_value digit ≡ Some value → (read before : List ℕ)
            → AreDigits self.old.half read before
            → AreDigits self.new.half (read ++ digit ∷ []) (before ++ more))) }
    {
        match self.half {
            Some(high) => {
                self.bytes.push(high.wrapping_mul(16).wrapping_add(value))?;
                self.half = None;
            }
            None => self.half = Some(value),
        }
        Ok(())
    }
}

fn digit_value(byte: u8) -> Option<u8>
    ensures value { result ≡ hex_digit_value byte }
{
    match byte {
        b'0'..=b'9' => Some(byte - b'0'),
        b'a'..=b'f' => Some(byte - b'a' + 10),
        b'A'..=b'F' => Some(byte - b'A' + 10),
        _ => None,
    }
}
