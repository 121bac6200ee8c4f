//! Where a text is refused, and what would fit there.
ghost use Rattle.std.specs.Prelude.{◌≡◌};
ghost use Rattle.dia_ccf.specs.Refusals.{fault_of};

use crate::fault::CcfFault;
use crate::wanted::Wanted;
use std::fmt;
use thiserror::Error;

/// Why a text is no dictionary, and where.
#[derive(Clone, Copy, Error)]
pub enum Refused {
    /// The text is longer than [`MAX_TEXT`](crate::MAX_TEXT).
    #[error("the text is too long")]
    TooLong,
    /// Memory was refused.
    #[error("out of memory")]
    NoMemory,
    /// A token doesn't fit where it is, or the text can't end where it ends.
    #[error("{}", .0.fault)]
    At(Misfit),
}

/// Prints as `Display` does.
impl fmt::Debug for Refused {
    fn fmt<W: fmt::Write>(&self, f: &mut fmt::Formatter<W>) -> fmt::Result {
        fmt::Display::fmt(self, f)
    }
}

/// The first token with which no text of the grammar begins, or the end of the text.
#[derive(Clone, Copy)]
pub struct Misfit {
    pub fault: CcfFault,
    /// The place in bytes where the token begins, or the length of the text.
    pub at: usize,
    /// What would fit there.
    pub wanted: Wanted,
    /// The places of the token before it, and of the one before that.
    pub last: Option<usize>,
    pub earlier: Option<usize>,
}

impl Refused {
    /// What [`parse`](crate::parse) answers.
    pub fn fault(self) -> CcfFault
        ensures { result ≡ fault_of self }
    {
        match self {
            Refused::TooLong => CcfFault::Limit { line: 0 },
            Refused::NoMemory => CcfFault::NoMemory,
            Refused::At(misfit) => misfit.fault,
        }
    }
}
