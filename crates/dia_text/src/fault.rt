//! Why a text is no message.
ghost use Rattle.std.specs.Prelude.{◌≡◌};
ghost use Rattle.dia_text.specs.Reading.{at_text, misfit};

use crate::words::without_blanks;
use std::alloc::{AllocError, AllocFailed};
use std::fmt;
use thiserror::Error;

/// What is wrong with a line.
#[derive(Debug, Clone, Copy, Error)]
pub enum Kind {
    /// A word is missing, or one is where none is allowed.
    Syntax,
    /// The dictionary has no AVP or no command of the name.
    Name,
    /// A number, flags, digits or a text that can't be what is wanted there.
    Value,
    /// A closing brace without its opening brace, or an opening brace that isn't closed.
    Braces,
    /// A length above the limit of its field.
    Limit,
}

/// Prints the kind's word, such as `syntax`.
impl fmt::Display for Kind {
    ghost use Rattle.std.specs.Prelude.{Some};
    ghost use Rattle.dia_text.specs.Faults.{kind_word};

    ghost output = { λ kind. Some (kind_word kind) };

    fn fmt<W: fmt::Write>(&self, f: &mut fmt::Formatter<W>) -> fmt::Result {
        f.write_str(match self {
            Kind::Syntax => "syntax",
            Kind::Name => "name",
            Kind::Value => "value",
            Kind::Braces => "braces",
            Kind::Limit => "limit",
        })
    }
}

/// What could be where a text has its fault.
#[derive(Debug, Clone, Copy, PartialEq, Eq)]
pub enum Wanted {
    /// The line of a header.
    HeaderLine,
    /// The name of a command that has a code, or `code`.
    CommandName,
    /// A number below 2^24, after `code`.
    CommandCode,
    /// `flags`, which is required after `code`.
    Flags,
    /// A dash, two hexadecimal digits, or letters of R, P, E and T in this order.
    CommandFlags,
    /// `app`, which is required after `code`.
    App,
    /// `hop`.
    Hop,
    /// `end`.
    End,
    /// A number below 2^32.
    Number,
    /// The name or the code of an AVP, or a closing brace.
    AvpName,
    /// A dash, two hexadecimal digits, or letters of V, M and P in this order.
    AvpFlags,
    /// A number below 2^24, after `length`.
    AvpLength,
    /// A value, or an opening brace.
    AnyValue,
    /// A number below 2^32, or `x` and pairs of hexadecimal digits.
    Unsigned32,
    /// A number from -2^31 up to 2^31, or these digits.
    Signed32,
    /// A number below 2^64, or these digits.
    Unsigned64,
    /// A number from -2^63 up to 2^63, or these digits.
    Signed64,
    /// An opening brace, or these digits.
    Group,
    /// An IPv4 or IPv6 address, `family` with its number and digits, or these digits.
    Address,
    /// A number below 2^16, after `family`.
    Family,
    /// A text in quotes, or these digits.
    Text,
    /// The same for a format of any bytes.
    TextOrBytes,
    /// `x` and pairs of hexadecimal digits.
    Bytes,
    /// The same, since the dictionary doesn't know the AVP.
    BytesOfUnknown,
    /// No word more.
    LineEnd,
    /// A comma, or the closing brace of a group on one line.
    NextMember,
    /// Another line than a closing brace, since no group is open.
    OpenGroup,
    /// A closing brace, since a group is open where the text ends, or on one line where this ends.
    ClosingBrace,
    /// Less data in a value: an AVP Length is below 2^24.
    ShorterData,
    /// A shorter group, for the same reason.
    ShorterGroup,
    /// A shorter message: a Message Length is below 2^24.
    ShorterMessage,
}

/// What is wrong with a word of a line, and where.
#[derive(Debug, Clone, Copy, Error)]
#[error("{kind}")]
pub struct Misfit {
    pub kind: Kind,
    pub wanted: Wanted,
    /// How many bytes of the line are left from the word on. Where a word is missing, from the comment on, or none.
    pub left: usize,
}

/// Why a line wasn't read.
#[derive(Clone, Copy, Debug, Error)]
pub enum NotRead {
    #[error("{0}")]
    Misfit(Misfit),
    #[error("out of memory")]
    NoMemory,
}

/// Why a word wasn't read.
#[derive(Clone, Copy, Debug, Drop, Error)]
pub enum Misread {
    #[error("{0}")]
    Fault(Kind),
    #[error("out of memory")]
    NoMemory,
}

/// The first line with which no message can go on, and what is wrong with it. It prints as `syntax at line 3`.
#[derive(Clone, Copy, Debug, Error)]
#[error("{kind} at line {line}")]
pub struct Fault {
    pub kind: Kind,
    /// The number of the line, from 1. Where the text ends too early, it is the last line.
    pub line: usize,
    /// The offset of the word in the line, in bytes; that of the comment or of the line's end where a word is missing. None where
    /// the text ends too early.
    pub at: Option<usize>,
    pub wanted: Wanted,
}

/// Why no message was made.
#[derive(Clone, Copy, Debug, Drop, Error)]
pub enum NotMade {
    #[error("{0}")]
    Fault(Fault),
    #[error("out of memory")]
    NoMemory,
}

/// What is wrong with the first word of a text.
pub(crate) fn misfit_at(text: &[u8], wanted: Wanted, kind: Kind) -> Misfit
    ensures { result ≡ misfit text.now wanted kind }
{
    Misfit {
        kind,
        wanted,
        left: without_blanks(text).len(),
    }
}

impl Misread {
    /// The same of the first word of a text.
    pub(crate) fn at(self, text: &[u8], wanted: Wanted) -> NotRead
        ensures { result ≡ at_text self text.now wanted }
    {
        match self {
            Misread::Fault(kind) => NotRead::Misfit(misfit_at(text, wanted, kind)),
            Misread::NoMemory => NotRead::NoMemory,
        }
    }
}

impl From<Kind> for Misread {
    ghost use Rattle.std.specs.Prelude.{◌≡◌};
    ghost use Rattle.dia_text.specs.declared.fault.Misread.TheVariants.{Fault};

    ghost from_gives = { λ kind e. e ≡ Fault kind };

    fn from(kind: Kind) -> Misread {
        Misread::Fault(kind)
    }
}

impl From<Misfit> for NotRead {
    ghost use Rattle.std.specs.Prelude.{◌≡◌};
    ghost use Rattle.dia_text.specs.declared.fault.NotRead.TheVariants.{Misfit};

    ghost from_gives = { λ misfit e. e ≡ Misfit misfit };

    fn from(misfit: Misfit) -> NotRead {
        NotRead::Misfit(misfit)
    }
}

impl From<AllocError> for Misread {
    ghost use Rattle.std.specs.Prelude.{◌≡◌};
    ghost use Rattle.dia_text.specs.declared.fault.Misread.TheVariants.{NoMemory};

    ghost from_gives = { λ _ e. e ≡ NoMemory };

    fn from(_error: AllocError) -> Misread {
        Misread::NoMemory
    }
}

impl<T: Drop> From<AllocFailed<T>> for Misread {
    ghost use Rattle.std.specs.Prelude.{◌≡◌};
    ghost use Rattle.dia_text.specs.declared.fault.Misread.TheVariants.{NoMemory};

    ghost from_gives = { λ _ e. e ≡ NoMemory };

    fn from(_error: AllocFailed<T>) -> Misread {
        Misread::NoMemory
    }
}

impl From<AllocError> for NotRead {
    ghost use Rattle.std.specs.Prelude.{◌≡◌};
    ghost use Rattle.dia_text.specs.declared.fault.NotRead.TheVariants.{NoMemory};

    ghost from_gives = { λ _ e. e ≡ NoMemory };

    fn from(_error: AllocError) -> NotRead {
        NotRead::NoMemory
    }
}

impl From<AllocError> for NotMade {
    ghost use Rattle.std.specs.Prelude.{◌≡◌};
    ghost use Rattle.dia_text.specs.declared.fault.NotMade.TheVariants.{NoMemory};

    ghost from_gives = { λ _ e. e ≡ NoMemory };

    fn from(_error: AllocError) -> NotMade {
        NotMade::NoMemory
    }
}
