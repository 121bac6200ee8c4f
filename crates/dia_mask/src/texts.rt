//! Texts with their words replaced.

ghost use Rattle.std.specs.Prelude.{◌≡◌, ◌++◌, ◌∷◌, [], ℕ, List, OnOk, Some, replicate, reverse};
ghost use Rattle.std.specs.Prelude.{encode_utf8_all, string_bytes};
ghost use Rattle.dia_mask.specs.Kinds.{from_last, kind_of, word_at};
ghost use Rattle.dia_mask.specs.Replaced.{Numbering, byte_word, new_bytes, new_utf8};

use crate::kinds::Kind;
use crate::words::Words;
use byteorder::{BigEndian, ByteOrder};
use std::alloc::{AllocError, Global};

/// The words that came before, and memory for the word under way.
#[derive(Drop)]
pub(crate) struct Masking {
    words: Words,
    /// The word under way, the first word of the same kinds, and the kinds of its characters.
    word: String,
    pattern: String,
    kinds: Vec<Kind>,
    /// The characters of a new word, the last one first.
    characters: Vec<char>,
    /// The text that replaces another.
    masked: String,
    /// The data that replaces another.
    pub(crate) data: Vec<u8>,
}

impl Masking {
    ghost use Rattle.dia_mask.specs.Texts.{Agrees, Continues, EndsWord, GoesOn, IsWord, Puts};
    ghost use Rattle.dia_mask.specs.Words.{AreAllNumbers, Grows};

    pub(crate) fn new(alloc: Global) -> Masking
        ensures { AreAllNumbers result.words }
    {
        Masking {
            words: Words::new(alloc),
            word: String::new(alloc),
            pattern: String::new(alloc),
            kinds: Vec::new(alloc),
            characters: Vec::new(alloc),
            masked: String::new(alloc),
            data: Vec::new(alloc),
        }
    }

    /// Adds what replaces a text: each longest run of digits, ASCII letters and characters of 2 to 4 bytes is a word, and each
    /// word becomes the one of its kinds that has its number. All other characters stay.
    pub(crate) fn push_text(&mut self, alloc: Global, text: &str) -> Result<(), AllocError>
        ensures grows { OnOk result (Grows self.old.words self.new.words) }
        ensures text { OnOk result ((numbers : Numbering) → Agrees self.new.words numbers
            → self.new.data.items ≡ self.old.data.items ++ new_utf8 numbers text.now) }
    {
        self.masked.clear();
        self.clear_word();
        self.mask(alloc, text)?;
        self.data.extend_from_slice(self.masked.as_bytes())?;
        Ok(())
    }

    fn mask(&mut self, alloc: Global, text: &str) -> Result<(), AllocError>
        requires none { IsWord self.old [] }
        ensures goes_on { OnOk result (GoesOn self.old self.new) }
        ensures text { OnOk result ((numbers : Numbering) → Agrees self.new.words numbers
            → string_bytes self.new.masked ≡ string_bytes self.old.masked ++ new_utf8 numbers text.now) }
    {
        for character in text.chars() {
            self.push_character(alloc, character)?;
        }
        self.end_word(alloc)
    }

    fn push_character(&mut self, alloc: Global, character: char) -> Result<(), AllocError>
        ensures goes_on { OnOk result (GoesOn self.old self.new) }
        ensures text { OnOk result ((numbers : Numbering) (before whole : List ℕ) → Agrees self.new.words numbers
            → Continues numbers self.old before whole → Continues numbers self.new before (whole ++ character ∷ [])) }
    {
        match Kind::of(character) {
            Some(kind) => self.extend_word(kind, character),
            None => {
                self.end_word(alloc)?;
                self.masked.push(character)?;
                Ok(())
            }
        }
    }

    fn extend_word(&mut self, kind: Kind, character: char) -> Result<(), AllocError>
        requires { kind_of character ≡ Some kind }
        ensures goes_on { OnOk result (GoesOn self.old self.new) }
        ensures masked { OnOk result (self.new.masked ≡ self.old.masked) }
        ensures word { OnOk result ((word : List ℕ) → IsWord self.old word → IsWord self.new (word ++ character ∷ [])) }
    {
        self.kinds.push(kind)?;
        self.word.push(character)?;
        self.pattern.push(kind.character(0))?;
        Ok(())
    }

    fn clear_word(&mut self)
        ensures goes_on { GoesOn self.old self.new }
        ensures masked { self.new.masked ≡ self.old.masked }
        ensures none { IsWord self.new [] }
    {
        self.kinds.clear();
        self.word.clear();
        self.pattern.clear();
    }

    /// Adds what replaces the word under way, if there is one.
    fn end_word(&mut self, alloc: Global) -> Result<(), AllocError>
        ensures { OnOk result (EndsWord self.old self.new) }
    {
        if self.kinds.is_empty() {
            return Ok(());
        }
        let number = self
            .words
            .number_of_text(alloc, self.pattern.as_str(), self.word.as_bytes())?;
        self.push_word(number)?;
        self.clear_word();
        Ok(())
    }

    /// Adds the word with a number, of the kinds of the word under way.
    fn push_word(&mut self, number: u64) -> Result<(), AllocError>
        ensures words { OnOk result (self.new.words ≡ self.old.words) }
        ensures data { OnOk result (self.new.data ≡ self.old.data) }
        ensures text { OnOk result (string_bytes self.new.masked
            ≡ string_bytes self.old.masked ++ encode_utf8_all (word_at self.old.kinds.items number)) }
    {
        self.characters.clear();
        push_from_last(&mut self.kinds, number, &mut self.characters)?;
        push_reversed(&mut self.characters, &mut self.masked)
    }

    /// Adds what replaces bytes: their number in network byte order. No bytes stay so.
    pub(crate) fn push_bytes(&mut self, alloc: Global, bytes: &[u8]) -> Result<(), AllocError>
        ensures { OnOk result (Puts (λ numbers more. more ≡ new_bytes numbers bytes.now) self.old self.new) }
    {
        if bytes.is_empty() {
            return Ok(());
        }
        let number = self.words.number_of_bytes(alloc, bytes)?;
        push_number(&mut self.data, number, bytes.len())?;
        Ok(())
    }
}

/// Adds the characters of the word with a number, the last one first. The kinds are used up.
fn push_from_last(kinds: &mut Vec<Kind>, number: u64, out: &mut Vec<char>) -> Result<(), AllocError>
    ensures { OnOk result (out.new.items ≡ out.old.items ++ from_last (reverse kinds.old.items) number) }
{
    let mut left = number;
    while let Some(kind) = kinds.pop() {
        out.push(kind.character(left))?;
        left /= kind.count();
    }
    Ok(())
}

/// Adds characters to a text, the last one first. They are used up.
fn push_reversed(characters: &mut Vec<char>, out: &mut String) -> Result<(), AllocError>
    ensures { OnOk result (string_bytes out.new ≡ string_bytes out.old ++ encode_utf8_all (reverse characters.old.items)) }
{
    while let Some(character) = characters.pop() {
        out.push(character)?;
    }
    Ok(())
}

/// Adds the last bytes of a number in network byte order, so many.
fn push_number(out: &mut Vec<u8>, number: u64, count: usize) -> Result<(), AllocError>
    ensures { OnOk result (out.new.items ≡ out.old.items ++ byte_word count number) }
{
    let mut digits = [0; 8];
    BigEndian::write_u64(&mut digits, number);
    if count < 8 {
        out.extend_from_slice(&digits[8 - count..])?;
        Ok(())
    } else {
        push_many(out, 0, count - 8)?;
        out.extend_from_slice(&digits)?;
        Ok(())
    }
}

/// Adds a byte so many times.
#[tactic(auto, using(crate::proofs::Bytes::none_added, crate::proofs::Bytes::one_added))]
pub(crate) fn push_many(out: &mut Vec<u8>, byte: u8, count: usize) -> Result<(), AllocError>
    ensures { OnOk result (out.new.items ≡ out.old.items ++ replicate count byte) }
{
    for _ in 0..count {
        out.push(byte)?;
    }
    Ok(())
}
