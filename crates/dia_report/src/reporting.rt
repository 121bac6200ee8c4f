//! What a command answers: its text, how it ends, and what it read and found.

use crate::bad_input::BadInput;
use dia_ccf::Source;
use dia_check::{Levels, Refusal, Selected, Unknown};
use dia_compat::{Answer, Failing, Table};
use dia_dict::IndexedBook;
use dia_io::Exit;

/// What a command writes, how it ends, and its report.
#[derive(Drop)]
pub struct Answered {
    pub text: String,
    pub exit: Exit,
    pub report: Report,
}

/// How a command ended that has written its text, and its report.
#[derive(Drop)]
pub struct Reported {
    pub exit: Exit,
    pub report: Report,
}

/// A dictionary that was read: what its text says, and the dictionary that this names.
pub struct ReadBook {
    pub source: Source,
    pub book: IndexedBook,
}

// Written out: for a derived `Drop`, each crate that drops this type proves the drops of all its parts again.
impl Drop for ReadBook {
    fn drop(self) {
        let ReadBook { source: _, book: _ } = self;
    }
}

/// Both dictionaries of a command.
#[derive(Drop)]
pub struct BothBooks {
    pub first: Box<ReadBook>,
    pub second: Box<ReadBook>,
}

/// A listing that ends where no AVP begins.
#[derive(Drop)]
pub struct CutListing {
    pub first: Box<ReadBook>,
    pub message: Vec<u8>,
}

/// A message that isn't valid.
#[derive(Drop)]
pub struct Invalid {
    pub first: Box<ReadBook>,
    pub message: Vec<u8>,
    pub unknown: Unknown,
    pub levels: Levels,
    pub refusal: Refusal,
}

/// A message that refutes nothing, and what a check of it finds under each dictionary.
#[derive(Drop)]
pub struct Unrefuting {
    pub books: BothBooks,
    pub message: Vec<u8>,
    pub unknown: Unknown,
    pub levels: Levels,
    pub under_first: Result<Selected, Refusal>,
    pub under_second: Result<Selected, Refusal>,
}

/// A table of pairs, and what the tests of its pairs find.
#[derive(Drop)]
pub struct Compared {
    pub books: BothBooks,
    pub table: Table,
    pub unknown: Unknown,
    pub answer: Answer,
    /// All that fails the test that the answer names, of the pair that it names.
    pub failings: Vec<Failing>,
}

/// What a command read of its inputs, and what it found: all by which its answer is explained.
pub enum Report {
    /// There is nothing to explain.
    Done,
    /// An input is refused: the first, in the order in which they are judged.
    Refused(BadInput),
    /// A name that is asked for is that of no command of the first dictionary.
    NoCommand(BothBooks),
    /// A message that was shown: its bytes. `show` has shown it to its end; `show --as-text` may have reported where it is cut.
    Shown(Vec<u8>),
    Cut(CutListing),
    Invalid(Invalid),
    Unrefuting(Unrefuting),
    Compared(Compared),
}

// Written out: for a derived `Drop`, each crate that drops this type proves the drops of all its parts again.
impl Drop for Report {
    fn drop(self) {
        match self {
            Report::Done => {}
            Report::Refused(_) => {}
            Report::NoCommand(_) => {}
            Report::Shown(_) => {}
            Report::Cut(_) => {}
            Report::Invalid(_) => {}
            Report::Unrefuting(_) => {}
            Report::Compared(_) => {}
        }
    }
}
