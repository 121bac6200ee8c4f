//! What a command answers.

use dia_io::Exit;
use dia_report::{BadInput, ReadBook};
use dia_show::BadValues;
use dia_text::Fault;
use std::fmt;
use thiserror::Error;

/// Why a text makes no messages.
#[derive(Clone, Copy, Debug, Error)]
pub enum BadText {
    /// More bytes than the text may have.
    TooLong,
    /// The first line that can't follow those before it.
    Fault(Fault),
}

/// A text that makes no messages, and the dictionary by which it was read.
#[derive(Drop)]
pub struct RefusedText {
    pub first: Box<ReadBook>,
    /// Whether it was read with the words of values that the table's input has.
    pub values: bool,
    pub why: BadText,
}

/// What a command found in its inputs.
#[derive(Drop)]
pub enum Report {
    /// There is nothing to explain.
    Done,
    /// The dictionary or the message is refused.
    Refused(BadInput),
    /// The words of values are refused.
    NoValues(BadValues),
    /// The text is refused.
    Text(RefusedText),
    /// At this byte of the message, outside groups, no AVP begins.
    Cut { place: usize },
}

/// How a command ended that has written its text, and its report.
#[derive(Drop)]
pub struct Reported {
    pub exit: Exit,
    pub report: Report,
}

/// What is written, how a command ends, and its report.
#[derive(Drop)]
pub(crate) struct Answered {
    pub text: String,
    pub exit: Exit,
    pub report: Report,
}

impl fmt::Display for BadText {
    ghost use Rattle.std.specs.Prelude.{Some};
    ghost use Rattle.dia_make.specs.Outcome.{bad_text_words};

    ghost output = { λ bad. Some (bad_text_words bad) };

    fn fmt<W: fmt::Write>(&self, f: &mut fmt::Formatter<W>) -> fmt::Result {
        match self {
            BadText::TooLong => write!(f, "too long"),
            BadText::Fault(Fault { kind, line, .. }) => write!(f, "{kind} at line {line}"),
        }
    }
}
