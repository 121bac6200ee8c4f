ghost use Rattle.std.specs.Prelude.{◌≡◌, IfSome, IsNone};
ghost use Rattle.dia_io.specs.Exit.{status_of};
ghost use Rattle.dia_io.specs.Inputs.{Holds, IsOver};

use crate::streams::Failed;
use dia_terms::{Levels, Unknown};
use std::alloc::AllocError;
use thiserror::Error;

/// What the program is to do.
#[derive(PartialEq, Eq, Drop)]
pub enum Command {
    /// Prints a message, an AVP a line.
    Show,
    /// Prints the canonical text of a dictionary.
    Render,
    /// Reports whether a message is valid, or its first fault.
    Check {
        unknown: Unknown,
        levels: Levels,
    },
    /// Reports whether a table of pairs shows that each valid message of a command that it lists is valid under the second
    /// dictionary, too.
    Compare {
        unknown: Unknown,
    },
    /// Reports whether a message is valid under the first dictionary and not under the second.
    Refute {
        unknown: Unknown,
        levels: Levels,
    },
    /// Prints the least table of pairs for these commands of the first dictionary.
    Propose {
        unknown: Unknown,
        names: Vec<String>,
    },
}

/// A text that was read whole.
#[derive(Drop)]
pub enum Input {
    Bytes(Vec<u8>),
    /// More bytes than the text may have.
    TooLong,
}

impl Input {
    /// The bytes, if there are at most so many.
    pub fn within(&self, limit: usize) -> Option<&[u8]>
        ensures some { IfSome result (λ bytes. Holds self.entry.now limit bytes.now) }
        ensures none { IsNone result → IsOver self.entry.now limit }
    {
        match self {
            Input::Bytes(bytes) if bytes.len() <= limit => Some(bytes.as_slice()),
            Input::Bytes(_) | Input::TooLong => None,
        }
    }
}

/// The texts of a command. One that the command doesn't use isn't looked at.
#[derive(Drop)]
pub struct Inputs {
    /// The first or only dictionary.
    pub first: Input,
    /// The second dictionary.
    pub second: Input,
    /// The table of pairs.
    pub table: Input,
    /// The message, as hexadecimal text.
    pub message: Input,
}

/// How a command ended.
#[derive(Debug, Clone, Copy, PartialEq, Eq)]
pub enum Exit {
    /// Status 0.
    Yes,
    /// Status 1.
    No,
    /// Status 2: an input was refused.
    Bad,
}

/// Why a command didn't end.
#[derive(Clone, Copy, Debug, PartialEq, Eq, Error)]
pub enum RunFault {
    /// The sink failed. What it has taken is a prefix of the text.
    #[error("device failed")]
    Device,
    /// Nothing was written.
    #[error("no memory")]
    NoMemory,
}

impl From<Failed> for RunFault {
    ghost use Rattle.std.specs.Prelude.{◌≡◌};
    ghost use Rattle.dia_io.specs.declared.command.RunFault.TheVariants.{Device};

    ghost from_gives = { λ _ fault. fault ≡ Device };

    fn from(_failed: Failed) -> RunFault {
        RunFault::Device
    }
}

impl From<AllocError> for RunFault {
    ghost use Rattle.std.specs.Prelude.{◌≡◌};
    ghost use Rattle.dia_io.specs.declared.command.RunFault.TheVariants.{NoMemory};

    ghost from_gives = { λ _ fault. fault ≡ NoMemory };

    fn from(_error: AllocError) -> RunFault {
        RunFault::NoMemory
    }
}

impl Exit {
    /// The status that the process ends with.
    pub fn status(self) -> u8
        ensures { result ≡ status_of self }
    {
        match self {
            Exit::Yes => 0,
            Exit::No => 1,
            Exit::Bad => 2,
        }
    }
}
