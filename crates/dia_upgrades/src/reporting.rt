//! What is answered: how it ends, and what was read and found.

use crate::list::BadList;
use dia_accepted::{Entry, Recorded};
use dia_io::Exit;
use dia_report::{BadInput, BothBooks};

/// How much there is of all.
#[derive(Clone, Copy)]
pub struct Counts {
    /// How many lines the list leaves; where there are more than can be counted, the greatest number.
    pub lines: usize,
    /// How many causes these have.
    pub causes: usize,
    /// How many lines the list accepts, counted in the same way.
    pub accepted: usize,
    /// How many entries of the list are stale.
    pub stale: usize,
}

/// What was found of two dictionaries and a list of accepted lines.
#[derive(Drop)]
pub enum Findings {
    /// What breaks was listed.
    Listed {
        /// The entries of the list of accepted lines that accept nothing of it.
        unused: Vec<Entry>,
        /// The stale ones among them.
        stale: Vec<Entry>,
        /// How many lines the list leaves; where there are more than can be counted, the greatest number.
        lines: usize,
        /// How many the list accepts, counted in the same way.
        accepted: usize,
        /// A line for each cause of these. It has its message only where each cause has one line.
        causes: Vec<Recorded>,
        /// Where meanings aren't asked for: a line for each AVP that the second side reads as another format, but for those
        /// that the list accepts.
        meanings: Vec<Recorded>,
    },
    /// The text of the list is refused.
    NoList(BadList),
    /// The first dictionary has no commands.
    NoCommands,
    /// A name that is asked for is that of no command of the first dictionary.
    NoCommand,
}

/// What was read of the inputs, and what was found: all by which an answer is explained.
pub enum Report {
    /// A dictionary is refused.
    Refused(BadInput),
    Read { books: BothBooks, found: Findings },
}

// Written out: for a derived `Drop`, each crate that drops this type proves the drops of all its parts again.
impl Drop for Report {
    fn drop(self) {
        match self {
            Report::Refused(_) => {}
            Report::Read { books: _, found: _ } => {}
        }
    }
}

/// How it ended, once the text is written, and the report.
#[derive(Drop)]
pub struct BreakingAnswer {
    pub exit: Exit,
    pub report: Report,
}

/// How it ended over two dictionaries that were read, once the text is written, and what was found.
#[derive(Drop)]
pub struct BooksAnswer {
    pub exit: Exit,
    pub found: Findings,
}
