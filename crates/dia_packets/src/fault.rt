use std::alloc::AllocError;
use thiserror::Error;

/// Why a capture can't be read on.
#[derive(Clone, Copy, Debug, PartialEq, Eq, Error)]
pub enum Cause {
    /// The file ends within a header, a packet or a block.
    #[error("cut")]
    Cut,
    /// A packet has more captured bytes than the limit, or a block has a wrong length.
    #[error("length")]
    Length,
    /// The file has another version.
    #[error("version")]
    Version,
    /// A packet is of an interface that its section doesn't describe, or not among the first 4,096.
    #[error("interface")]
    Interface,
    /// A Section Header Block has no byte-order magic.
    #[error("block")]
    Block,
}

/// Where a capture can't be read on.
#[derive(Clone, Copy, Debug, PartialEq, Eq, Error)]
#[error("{cause} at byte {at}")]
pub struct Refusal {
    pub cause: Cause,
    /// Where the header, the packet or the block begins, in bytes of the file.
    pub at: u64,
}

/// Why the packets of a capture weren't read to its end.
#[derive(Clone, Copy, Debug, PartialEq, Eq, Error)]
pub enum CaptureFault {
    /// The capture can't be read on. The packets before are all there.
    #[error(transparent)]
    Refused(Refusal),
    /// Memory was refused.
    #[error("no memory")]
    NoMemory,
}

impl From<AllocError> for CaptureFault {
    ghost use Rattle.std.specs.Prelude.{◌≡◌};
    ghost use Rattle.dia_packets.specs.declared.fault.CaptureFault.TheVariants.{NoMemory};

    ghost from_gives = { λ _ fault. fault ≡ NoMemory };

    fn from(_error: AllocError) -> CaptureFault {
        CaptureFault::NoMemory
    }
}
