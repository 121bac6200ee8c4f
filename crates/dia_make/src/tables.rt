//! The words of values by name and number, and the numbers by name and word.

ghost use Rattle.std.specs.Prelude.{◌≡◌, IfErr, IfOk, List};
ghost use Rattle.std.specs.List.{list_all};
ghost use Rattle.dia_show.specs.Words.{IsNoValuesText, IsValuesText, Word, after_part, front_part};
ghost use Rattle.dia_show.specs.Words.{is_blank, is_comment, is_skipped};
ghost use Rattle.dia_make.specs.Tables.{AreTablesOf};

use dia_io::Input;
use dia_show::{BadValues, MAX_VALUES, read_manner};
use indexmap::IndexMap;
use std::alloc::{AllocError, AllocFailed, Global};

/// Texts by the name of an AVP and another text.
#[derive(Drop)]
pub(crate) struct Table<'t> {
    found: IndexMap<(&'t [u8], &'t [u8]), &'t [u8]>,
}

/// Words of values, both ways. They are boxed: the prover takes long for a function that holds several maps by value.
#[derive(Drop)]
pub(crate) struct Tables<'t> {
    pub words: Box<Table<'t>>,
    pub numbers: Box<Table<'t>>,
}

impl<'t> Table<'t> {
    ghost use Rattle.std.specs.Prelude.{◌≡◌, ◌∷◌, ◌++◌, [], List, OnOk, map, option_map};
    ghost use Rattle.std.specs.Map.{lookup};
    ghost use Rattle.dia_show.specs.Words.{Word, is_key, plain_word};
    ghost use Rattle.dia_make.specs.Tables.{IsTableOf, entries_of};

    fn new(alloc: Global) -> Self
        ensures { entries_of result ≡ [] }
    {
        Table {
            found: IndexMap::new(alloc),
        }
    }

    /// What is found for a name and another text.
    fn get(&self, name: &[u8], key: &[u8]) -> Option<&'t [u8]>
        ensures { option_map (λ text. text.now) result ≡ lookup (is_key name.now key.now) (entries_of self.now) }
    {
        match self.found.get(&(name, key)) {
            Some(text) => Some(*text),
            None => None,
        }
    }

    /// Adds a text, unless one is found.
    fn add(&mut self, name: &'t [u8], key: &'t [u8], text: &'t [u8]) -> Result<(), AllocError>
        ensures { OnOk result ((entries : List Word) → IsTableOf self.old entries
            → IsTableOf self.new (entries ++ ((name.now, key.now), text.now) ∷ [])) }
    {
        match self.get(name, key) {
            Some(_) => Ok(()),
            None => {
                self.found.insert((name, key), text)?;
                Ok(())
            }
        }
    }
}

impl<'t> Tables<'t> {
    ghost use Rattle.std.specs.Prelude.{◌≡◌, ◌++◌, List, OnOk, IfOk, [], option_map};
    ghost use Rattle.dia_show.specs.Words.{Word, word_of, words_by, words_of};
    ghost use Rattle.dia_make.specs.Numbered.{number_of};
    ghost use Rattle.dia_make.specs.Tables.{AreTablesOf};

    fn new(alloc: Global) -> Result<Self, AllocError>
        ensures { IfOk result (λ tables. AreTablesOf tables []) }
    {
        Ok(Tables {
            words: Box::new(alloc, Table::new(alloc))?,
            numbers: Box::new(alloc, Table::new(alloc))?,
        })
    }

    /// The word for a number of the AVP of this name.
    pub(crate) fn word(&self, name: &[u8], number: &[u8]) -> Option<&'t [u8]>
        ensures { (words : List Word) → AreTablesOf self.now words
            → option_map (λ word. word.now) result ≡ word_of words name.now number.now }
    {
        self.words.get(name, number)
    }

    /// The first number of the AVP of this name that has this word.
    pub(crate) fn number(&self, name: &[u8], word: &[u8]) -> Option<&'t [u8]>
        ensures { (words : List Word) → AreTablesOf self.now words
            → option_map (λ number. number.now) result ≡ number_of words name.now word.now }
    {
        self.numbers.get(name, word)
    }

    /// The words of a text.
    fn of_text(alloc: Global, text: &'t str) -> Result<Self, AllocError>
        ensures { IfOk result (λ tables. AreTablesOf tables (words_of text.now)) }
    {
        let mut tables = Tables::new(alloc)?;
        tables.add_lines(text)?;
        Ok(tables)
    }

    /// The words of the AVP of this name, in order.
    pub(crate) fn words_of(&self, alloc: Global, name: &[u8]) -> Result<Vec<&'t str>, AllocError> {
        let mut words = Vec::new(alloc);
        for ((named, _), word) in self.words.found.iter() {
            if *named == name
                && let Ok(word) = str::from_utf8(*word)
            {
                words.push(word)?;
            }
        }
        Ok(words)
    }

    /// Adds the words of a text's lines to none.
    fn add_lines(&mut self, text: &'t str) -> Result<(), AllocError>
        requires { AreTablesOf self.old [] }
        ensures { OnOk result (AreTablesOf self.new (words_of text.now)) }
    {
        for line in text.lines() {
            self.add_line(line)?;
        }
        Ok(())
    }

    /// Adds the word of a line, if it has one.
    fn add_line(&mut self, line: &'t str) -> Result<(), AllocError>
        ensures { OnOk result ((words : List Word) → AreTablesOf self.old words
            → AreTablesOf self.new (words ++ words_by line.now)) }
    {
        if is_skipped(line.as_bytes()) {
            return Ok(());
        }
        let (name, rest) = parts(line);
        let (number, word) = parts(rest);
        let (name, number, word) = (name.as_bytes(), number.as_bytes(), word.as_bytes());
        self.words.add(name, number, word)?;
        self.numbers.add(name, word, number)
    }
}

/// Whether a line says nothing: it is blank, or a comment.
fn is_skipped(line: &[u8]) -> bool
    ensures { result ≡ is_skipped line.now }
{
    is_comment(line) || are_blanks(line)
}

fn is_comment(line: &[u8]) -> bool
    ensures { result ≡ is_comment line.now }
{
    match line {
        [first, ..] => *first == b'#',
        [] => false,
    }
}

fn are_blanks(line: &[u8]) -> bool
    ensures { result ≡ list_all is_blank line.now }
{
    line.iter().all(|byte| *byte == b' ' || *byte == b'\t')
}

/// What precedes the first blank, and what follows it.
fn parts(text: &str) -> (&str, &str)
    ensures front { result.0.now ≡ front_part text.now }
    ensures following { result.1.now ≡ after_part text.now }
{
    match text.split_once(' ') {
        Some((front, following)) => (front, following),
        None => (text, ""),
    }
}

/// The tables of the words that an input's text has, or why it has none.
pub(crate) fn read_tables<'t>(
    alloc: Global,
    input: &'t Input,
) -> Result<Result<Tables<'t>, BadValues>, AllocError>
    ensures words { IfOk result (λ read. IfOk read
        (λ tables. (words : List Word) × IsValuesText input.now words × AreTablesOf tables words)) }
    ensures bad { IfOk result (λ read. IfErr read (IsNoValuesText input.now)) }
{
    match read_manner(alloc, false, input)? {
        Ok(_) => tables_of(alloc, input),
        Err(bad) => Ok(Err(bad)),
    }
}

/// The tables of the words of an input's text.
fn tables_of<'t>(
    alloc: Global,
    input: &'t Input,
) -> Result<Result<Tables<'t>, BadValues>, AllocError>
    requires { (words : List Word) × IsValuesText input.now words }
    ensures words { IfOk result (λ read. IfOk read
        (λ tables. (words : List Word) × IsValuesText input.now words × AreTablesOf tables words)) }
    ensures bad { IfOk result (λ read. IfErr read (IsNoValuesText input.now)) }
{
    let Some(bytes) = input.within(MAX_VALUES) else {
        return Ok(Err(BadValues::TooLong));
    };
    match str::from_utf8(bytes) {
        Ok(text) => Ok(Ok(Tables::of_text(alloc, text)?)),
        Err(error) => Ok(Err(BadValues::NotText {
            at: error.valid_up_to(),
        })),
    }
}
