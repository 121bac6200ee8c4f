//! Where the text of each input comes from.

ghost use Rattle.std.specs.Prelude.{◌≡◌, count_by};
ghost use Rattle.dia_cli.specs.Origins.{dictionary_origin, message_origin};
ghost use Rattle.dia_cli.specs.Origins.{messages_origin, origin_within, table_origin};
ghost use Rattle.dia_cli.specs.Origins.{is_standard_input, reads_twice};

use dia_ccf::MAX_TEXT;
use dia_terms::{MAX_MESSAGE_TEXT, MAX_TABLE};

/// The word for standard input.
pub const STANDARD_INPUT: &str = "-";

/// The word that names the base dictionary.
pub const BASE_DICTIONARY: &str = "@base";

/// The word that names a dictionary, a table or a list without lines.
pub const NO_TABLE: &str = "@none";

/// Where the text of an input comes from. A limit is the most bytes that the text may have.
#[derive(Clone, Copy)]
pub enum Origin<'a> {
    /// The command takes no such input.
    Nowhere,
    /// The base dictionary.
    Base,
    /// The dictionary without lines.
    Empty,
    StandardInput { limit: usize },
    File { path: &'a str, limit: usize },
}

impl<'a> Origin<'a> {
    /// The origin of a dictionary that this word names.
    pub fn of_dictionary(word: &'a str) -> Origin<'a>
        ensures { result ≡ dictionary_origin word.entry }
    {
        if word == BASE_DICTIONARY {
            Origin::Base
        } else if word == NO_TABLE {
            Origin::Empty
        } else {
            Origin::within(word, MAX_TEXT)
        }
    }

    /// The origin of a table of pairs, or of a list of accepted lines, that this word names.
    pub fn of_table(word: &'a str) -> Origin<'a>
        ensures { result ≡ table_origin word.entry }
    {
        if word == NO_TABLE {
            Origin::Nowhere
        } else {
            Origin::within(word, MAX_TABLE)
        }
    }

    /// The origin of a message, or of a text of messages, that this word names.
    pub fn of_message(word: &'a str) -> Origin<'a>
        ensures { result ≡ message_origin word.entry }
    {
        Origin::within(word, MAX_MESSAGE_TEXT)
    }

    /// The origin of messages without a limit, which are read a piece at a time.
    pub fn of_messages(word: &'a str) -> Origin<'a>
        ensures { result ≡ messages_origin word.entry }
    {
        Origin::within(word, usize::MAX)
    }

    fn within(word: &'a str, limit: usize) -> Origin<'a>
        ensures { result ≡ origin_within word.entry limit }
    {
        if word == STANDARD_INPUT {
            Origin::StandardInput { limit }
        } else {
            Origin::File { path: word, limit }
        }
    }

    fn is_standard_input(&self) -> bool
        ensures { result ≡ is_standard_input self.entry.now }
    {
        matches!(self, Origin::StandardInput { .. })
    }
}

/// Where each input comes from: the first four by the fields of `Inputs`, and messages that are read a piece at a time.
#[derive(Clone, Copy)]
pub struct Origins<'a> {
    pub first: Origin<'a>,
    pub second: Origin<'a>,
    pub table: Origin<'a>,
    pub message: Origin<'a>,
    /// Messages without a limit, which are read a piece at a time.
    pub messages: Origin<'a>,
}

impl<'a> Origins<'a> {
    ghost use Rattle.dia_cli.specs.InputWords.{one_origin, pair_origins};

    /// The origins where a dictionary is the only input.
    pub(crate) fn of_one(first: Origin<'a>) -> Origins<'a>
        ensures { result ≡ one_origin first.entry }
    {
        Origins {
            first,
            second: Origin::Nowhere,
            table: Origin::Nowhere,
            message: Origin::Nowhere,
            messages: Origin::Nowhere,
        }
    }

    /// The origins where two dictionaries are the only inputs.
    pub(crate) fn of_pair(first: Origin<'a>, second: Origin<'a>) -> Origins<'a>
        ensures { result ≡ pair_origins first.entry second.entry }
    {
        Origins {
            second,
            ..Origins::of_one(first)
        }
    }

    /// Whether standard input is named more than once.
    pub fn reads_twice(&self) -> bool
        ensures { result ≡ reads_twice self.now }
    {
        let origins = [
            self.first,
            self.second,
            self.table,
            self.message,
            self.messages,
        ];
        standard_inputs(&origins) > 1
    }
}

fn standard_inputs(origins: &[Origin<'_>]) -> usize
    ensures { result ≡ count_by is_standard_input origins.now }
{
    origins
        .iter()
        .filter(|origin| origin.is_standard_input())
        .count()
}
