//! The text of words of values, and the words by name and number.

ghost use Rattle.std.specs.Prelude.{◌≡◌, ◌≢◌, ◌++◌, ◌∷◌, [], Err, IfErr, IfOk, None, OnOk, Some, map, option_map};
ghost use Rattle.dia_show.specs.Words.{line_fault, plain_words, values_fault, word_of, words_by, words_of};

use crate::parts::{entry_of, is_skipped};
use indexmap::IndexMap;
use std::alloc::{AllocError, AllocFailed, Global};
use thiserror::Error;

/// The most bytes of a text of words (our profile).
pub const MAX_VALUES: usize = 4_194_304;

/// The most lines of a text of words (our profile).
pub const MAX_LINES: u32 = 65_536;

/// The words for numbers of AVPs: by the AVP's name, and the number as it is printed.
#[derive(Drop)]
pub struct Words<'t> {
    words: IndexMap<(&'t str, &'t str), &'t str>,
}

/// Why a text is none of words. Lines count from 1.
#[derive(Clone, Copy, Debug, PartialEq, Eq, Error)]
pub enum ValuesFault {
    /// The line isn't `NAME NUMBER WORD`.
    #[error("line {line}: no name, number and word")]
    Syntax { line: u32 },
    /// A line before has the same name and number.
    #[error("line {line}: a line before has the same name and number")]
    Duplicate { line: u32 },
    /// The line is one more than [`MAX_LINES`].
    #[error("line {line}: too many lines")]
    Limit { line: u32 },
    /// Memory was refused.
    #[error("out of memory")]
    NoMemory,
}

impl From<AllocError> for ValuesFault {
    ghost use Rattle.std.specs.Prelude.{◌≡◌};
    ghost use Rattle.dia_show.specs.declared.words.ValuesFault.TheVariants.{NoMemory};

    ghost from_gives = { λ _ fault. fault ≡ NoMemory };

    fn from(_error: AllocError) -> ValuesFault {
        ValuesFault::NoMemory
    }
}

impl<'t> Words<'t> {
    ghost use Rattle.std.specs.Prelude.{◌≡◌, ◌≢◌, ◌++◌, [], IfErr, IfOk, None, OnOk, Some, option_map};
    ghost use Rattle.dia_show.specs.Words.{line_fault, plain_words, values_fault, word_of, words_by, words_of};

    /// No words.
    pub fn new(alloc: Global) -> Self
        ensures { plain_words result ≡ [] }
    {
        Words {
            words: IndexMap::new(alloc),
        }
    }

    /// The word for a number of the AVP of this name, as it is printed.
    pub fn get(&self, name: &str, number: &str) -> Option<&'t str>
        ensures { option_map (λ word. word.now) result ≡ word_of (plain_words self.now) name.now number.now }
    {
        match self.words.get(&(name, number)) {
            Some(word) => Some(*word),
            None => None,
        }
    }

    /// Adds what the lines of a text say to no words.
    fn add_lines(&mut self, text: &'t str) -> Result<(), ValuesFault>
        requires { plain_words self.old ≡ [] }
        ensures words { OnOk result (plain_words self.new ≡ words_of text.now) }
        ensures form { OnOk result (values_fault text.now ≡ None) }
        ensures fault { IfErr result (λ fault. fault ≢ ValuesFault.NoMemory → values_fault text.now ≡ Some fault) }
    {
        let mut number = 0;
        for line in text.lines() {
            number += 1;
            match self.add(number, line) {
                Ok(()) => {}
                Err(fault) => return Err(fault),
            }
        }
        Ok(())
    }

    /// Adds what a line says, if it says something.
    fn add(&mut self, number: u32, line: &'t str) -> Result<(), ValuesFault>
        ensures added { OnOk result (plain_words self.new ≡ plain_words self.old ++ words_by line.now) }
        ensures form { OnOk result (line_fault number (plain_words self.old) line.now ≡ None) }
        ensures fault { IfErr result (λ fault. fault ≢ ValuesFault.NoMemory
            → line_fault number (plain_words self.old) line.now ≡ Some fault) }
    {
        if number > MAX_LINES {
            return Err(ValuesFault::Limit { line: number });
        }
        if is_skipped(line.as_bytes()) {
            return Ok(());
        }
        let Some(entry) = entry_of(line) else {
            return Err(ValuesFault::Syntax { line: number });
        };
        if self.get(entry.name, entry.number).is_some() {
            return Err(ValuesFault::Duplicate { line: number });
        }
        self.insert(entry.name, entry.number, entry.word)?;
        Ok(())
    }

    /// Adds a word after the others, where there is none for the number.
    fn insert(&mut self, name: &'t str, number: &'t str, word: &'t str) -> Result<(), AllocError>
        requires { word_of (plain_words self.old) name.now number.now ≡ None }
        ensures { OnOk result (plain_words self.new ≡ plain_words self.old ++ ((name.now, number.now), word.now) ∷ []) }
    {
        self.words.insert((name, number), word)?;
        Ok(())
    }
}

/// Reads a text of words (our profile): lines `NAME NUMBER WORD`, with a blank between two of them. Lines of spaces and tabs
/// alone are skipped, and so are those that begin with `#`. A line ends with a line feed, or with a carriage return and a line
/// feed; the last line may do without. The fault is that of the first line that has one. `NoMemory` comes only where memory was
/// refused.
pub fn read_words<'t>(alloc: Global, text: &'t str) -> Result<Words<'t>, ValuesFault>
    ensures words { IfOk result (λ words. plain_words words ≡ words_of text.now) }
    ensures form { IfOk result (λ words. values_fault text.now ≡ None) }
    ensures fault { IfErr result (λ fault. fault ≢ ValuesFault.NoMemory → values_fault text.now ≡ Some fault) }
{
    let mut words = Words::new(alloc);
    words.add_lines(text)?;
    Ok(words)
}
