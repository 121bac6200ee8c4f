use dia_io::Failed;
use std::alloc::AllocError;
use thiserror::Error;

/// Why the lines of a feed weren't answered to their end.
#[derive(Clone, Copy, Debug, PartialEq, Eq, Error)]
pub enum LinesFault {
    /// The feed or the sink failed. What the sink has taken is a prefix of the answers.
    #[error("device failed")]
    Device,
    /// Memory was refused. The answers of whole lines were put, and nothing else.
    #[error("no memory")]
    NoMemory,
    /// The feed gave more pieces than can be counted. The answers of whole lines were put, and nothing else.
    #[error("the lines have no end")]
    Endless,
}

impl From<Failed> for LinesFault {
    ghost use Rattle.std.specs.Prelude.{◌≡◌};
    ghost use Rattle.dia_streams.specs.declared.fault.LinesFault.TheVariants.{Device};

    ghost from_gives = { λ _ fault. fault ≡ Device };

    fn from(_failed: Failed) -> LinesFault {
        LinesFault::Device
    }
}

impl From<AllocError> for LinesFault {
    ghost use Rattle.std.specs.Prelude.{◌≡◌};
    ghost use Rattle.dia_streams.specs.declared.fault.LinesFault.TheVariants.{NoMemory};

    ghost from_gives = { λ _ fault. fault ≡ NoMemory };

    fn from(_error: AllocError) -> LinesFault {
        LinesFault::NoMemory
    }
}
