//! What an answer is, and why there is none.

use dia_check::Fault;
use thiserror::Error;

/// By which definition an answer is made.
#[derive(Debug, Clone, Copy, PartialEq, Eq)]
pub enum Form {
    /// The command's own answer, with E clear (RFC 6733 section 7.1.5).
    Own,
    /// An error message, with E set (RFC 6733 section 7.2), by the dictionary's `code, ERR`.
    Error,
    /// The same by the base dictionary's.
    Base,
}

/// The answer to a request.
#[derive(Drop)]
pub struct Made {
    pub bytes: Vec<u8>,
    pub form: Form,
    /// The first fault of the request, which the answer reports.
    pub fault: Fault,
}

/// Why a request gets no answer (our profile), in the order in which it is looked for.
#[derive(Debug, Clone, Copy, PartialEq, Eq, Error)]
pub enum NoAnswer {
    /// There are fewer bytes than a header's 20.
    #[error("shorter than a header")]
    Short,
    /// R is clear: it is no request (RFC 6733 section 7.2).
    #[error("no request")]
    Answer,
    /// There are fewer bytes than the Message Length says.
    #[error("shorter than its Message Length")]
    Truncated,
    /// There are more bytes than the Message Length says.
    #[error("longer than its Message Length")]
    Trailing,
    /// The request has no fault.
    #[error("the request is valid")]
    Valid,
    /// Each answer would be longer than 16,777,212 bytes.
    #[error("each answer is too long")]
    TooLong,
}

impl NoAnswer {
    ghost use Rattle.std.specs.Prelude.{◌≡◌};
    ghost use Rattle.dia_answer.specs.Reports.{no_answer_word};

    /// Its word, as in the line of a request that gets no answer.
    pub fn word(&self) -> &'static str
        ensures { result.now ≡ no_answer_word self.now }
    {
        match self {
            NoAnswer::Short => "short",
            NoAnswer::Answer => "answer",
            NoAnswer::Truncated => "truncated",
            NoAnswer::Trailing => "trailing",
            NoAnswer::Valid => "valid",
            NoAnswer::TooLong => "too long",
        }
    }
}
