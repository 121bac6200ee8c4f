//! An input, read whole.

ghost use Rattle.std.specs.Prelude.{◌≡◌, ◌<◌, ◌≤◌, ◌↔◌, length, IfOk, IfSome, Err, IsTrue};

use crate::streams::{Failed, Feed};
use std::alloc::{AllocError, Global};
use thiserror::Error;

/// Why an input couldn't be read.
#[derive(Clone, Copy, Debug, PartialEq, Eq, Error)]
pub enum InputFault {
    /// It has more bytes than the limit.
    #[error("the input is too long")]
    TooLong,
    /// The feed failed.
    #[error("device failed")]
    Device,
    /// Memory was refused.
    #[error("no memory")]
    NoMemory,
}

impl From<Failed> for InputFault {
    ghost use Rattle.dia_io.specs.declared.reading.InputFault.TheVariants.{Device};

    ghost from_gives = { λ _ fault. fault ≡ Device };

    fn from(_failed: Failed) -> InputFault {
        InputFault::Device
    }
}

impl From<AllocError> for InputFault {
    ghost use Rattle.dia_io.specs.declared.reading.InputFault.TheVariants.{NoMemory};

    ghost from_gives = { λ _ fault. fault ≡ NoMemory };

    fn from(_error: AllocError) -> InputFault {
        InputFault::NoMemory
    }
}

/// How many bytes are asked for at a time.
const PIECE: usize = 4096;

/// Reads all that a feed still gives, at most `limit` bytes of it.
///
/// After an error some of the feed's bytes have been taken.
pub fn read_input<F: Feed>(alloc: Global, feed: &mut F, limit: usize) -> Result<Vec<u8>, InputFault>
    requires { ¬ IsTrue (F.has_failed feed.old) }
    ensures within { IfOk result (λ bytes. length bytes.items ≤ limit) }
    ensures all { IfOk result (λ bytes. IfSome (F.remaining feed.old) (λ all. bytes.items ≡ all)) }
    ensures too_long { result ≡ Err InputFault.TooLong
        → IfSome (F.remaining feed.old) (λ all. limit < length all) }
    ensures device { (result ≡ Err InputFault.Device) ↔ IsTrue (F.has_failed feed.new) }
{
    let mut bytes = Vec::new(alloc);
    let mut piece = [0u8; PIECE];
    while bytes.len() <= limit {
        let count = feed.get(&mut piece)?;
        if count == 0 {
            return Ok(bytes);
        }
        bytes.extend_from_slice(&piece[..count])?;
    }
    Err(InputFault::TooLong)
}
