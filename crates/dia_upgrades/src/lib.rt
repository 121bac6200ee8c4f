//! The command `breaking`, as a function over values: all that can break where messages of one dictionary are read by another.
#![tactic(auto)]

mod asked;
mod command;
mod counting;
mod ending;
mod judging;
mod laws;
mod lines;
mod list;
mod naming;
mod nowhere;
mod pending;
mod reporting;
mod seen;
mod showing;
mod shown;
mod stale;
mod words;
mod writer;

pub use asked::{Asked, Stale};
pub use command::breaking;
pub use counting::lines_left;
pub use dia_accepted::{Entry, MAX_LINES, MAX_LIST, Recorded};
pub use judging::breaking_of;
pub use laws::{confirmed_texts_break, message_texts_are_one};
pub use list::BadList;
pub use naming::named;
pub use reporting::{BooksAnswer, BreakingAnswer, Counts, Findings, Report};
pub use words::InWords;
pub use writer::LineWriter;
