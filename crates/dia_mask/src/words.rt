//! The words of a run, and their numbers.

ghost use Rattle.std.specs.Prelude.{◌≡◌, None, IfOk, length};

use std::alloc::{AllocError, Global};
use std::boxed::BoxedSlice;
use std::collections::HashMap;

/// The words of one pattern, each with its number: how many others came before it.
#[derive(Drop)]
pub(crate) struct Numbered {
    numbers: HashMap<BoxedSlice<u8>, u64>,
}

impl Numbered {
    ghost use Rattle.dia_mask.specs.Numbers.{IsFresh, IsNew, IsNumber, number_in};

    fn new(alloc: Global) -> Numbered
        ensures { IsFresh result }
    {
        Numbered {
            numbers: HashMap::new(alloc),
        }
    }

    /// The number of a word, which is the next one where the word is new.
    fn number(&mut self, alloc: Global, word: &[u8]) -> Result<u64, AllocError>
        ensures { IfOk result (λ n. IsNumber self.old word.now n self.new) }
    {
        match self.numbers.get(word) {
            Some(number) => Ok(*number),
            None => self.add(alloc, word),
        }
    }

    fn add(&mut self, alloc: Global, word: &[u8]) -> Result<u64, AllocError>
        requires { number_in self.old word.now ≡ None }
        ensures { IfOk result (λ n. IsNew self.old word.now n self.new) }
    {
        let number = self.numbers.len() as u64;
        let key = BoxedSlice::from_slice(alloc, word)?;
        self.numbers.insert(key, number)?;
        Ok(number)
    }
}

/// The words of texts by the first word of the same kinds of characters, and bytes by how many they are.
#[derive(Drop)]
pub(crate) struct Words {
    texts: HashMap<String, Numbered>,
    bytes: HashMap<usize, Numbered>,
}

impl Words {
    ghost use Rattle.dia_mask.specs.Words.{AreAllNumbers, IsNumbered, bytes_at, texts_at};

    pub(crate) fn new(alloc: Global) -> Words
        ensures { AreAllNumbers result }
    {
        Words {
            texts: HashMap::new(alloc),
            bytes: HashMap::new(alloc),
        }
    }

    /// The number of a word of a text, whose pattern has this first word.
    pub(crate) fn number_of_text(
        &mut self,
        alloc: Global,
        pattern: &str,
        word: &[u8],
    ) -> Result<u64, AllocError>
        ensures { IfOk result (IsNumbered self.old self.new (texts_at self.old pattern.now)
            (texts_at self.new pattern.now) word.now) }
    {
        match self.texts.get_mut(pattern) {
            Some(numbered) => numbered.number(alloc, word),
            None => self.begin_texts(alloc, pattern, word),
        }
    }

    fn begin_texts(&mut self, alloc: Global, pattern: &str, word: &[u8]) -> Result<u64, AllocError>
        requires { texts_at self.old pattern.now ≡ None }
        ensures { IfOk result (IsNumbered self.old self.new (texts_at self.old pattern.now)
            (texts_at self.new pattern.now) word.now) }
    {
        let mut numbered = Numbered::new(alloc);
        let number = numbered.number(alloc, word)?;
        let key = String::from_str(alloc, pattern)?;
        self.texts.insert(key, numbered)?;
        Ok(number)
    }

    /// The number of bytes.
    pub(crate) fn number_of_bytes(&mut self, alloc: Global, word: &[u8]) -> Result<u64, AllocError>
        ensures { IfOk result (IsNumbered self.old self.new (bytes_at self.old (length word.now))
            (bytes_at self.new (length word.now)) word.now) }
    {
        match self.bytes.get_mut(&word.len()) {
            Some(numbered) => numbered.number(alloc, word),
            None => self.begin_bytes(alloc, word),
        }
    }

    fn begin_bytes(&mut self, alloc: Global, word: &[u8]) -> Result<u64, AllocError>
        requires { bytes_at self.old (length word.now) ≡ None }
        ensures { IfOk result (IsNumbered self.old self.new (bytes_at self.old (length word.now))
            (bytes_at self.new (length word.now)) word.now) }
    {
        let mut numbered = Numbered::new(alloc);
        let number = numbered.number(alloc, word)?;
        self.bytes.insert(word.len(), numbered)?;
        Ok(number)
    }
}
