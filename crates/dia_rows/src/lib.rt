//! Tests as texts, a row a line.
//!
//! A line that is empty or begins with `#` is no row. `let NAME = TEXT` names a text. Each other line is a row: a call and
//! what it is to answer, with `=>` between them. The fields of a call stand apart by `|`. How a call is written, the tests of
//! each subject say.
//!
//! In a text `$NAME` stands for the text of that name, `$NAME*COUNT` for it so many times, and `\n`, `\t`, `\r` and `\xHH`
//! for one byte each.
#![tactic(auto)]

mod fault;
mod names;
mod words;

pub use fault::RowFault;
pub use names::Names;
pub use words::{Row, bytes_of, field, without_blanks, word};
