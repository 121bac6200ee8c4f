//! What is answered: its text, how it ends, and what was read and found.

use crate::reading::BadValues;
use dia_io::Exit;

/// What was read and found.
#[derive(Drop)]
pub enum Report {
    /// What `show` reports.
    OfShow(dia_report::Report),
    /// The text of words of values is refused.
    NoValues(BadValues),
}

/// How it ended, once the text is written, and the report.
#[derive(Drop)]
pub struct Reported {
    pub exit: Exit,
    pub report: Report,
}

/// What is written, how it ends, and the report.
#[derive(Drop)]
pub struct Answered {
    pub text: String,
    pub exit: Exit,
    pub report: Report,
}
