//! Why the token ahead is refused.
ghost use Rattle.std.specs.Prelude.{◌≡◌};
ghost use Rattle.dia_ccf.specs.declared.reading.refusal.Refusal.TheVariants.{NoMemory};

use std::alloc::{AllocError, AllocFailed};
use thiserror::Error;

/// Why the token ahead is refused.
#[derive(Clone, Copy, Debug, Error)]
pub(crate) enum Refusal {
    #[error("the token is not expected here")]
    Syntax,
    #[error("the number is out of range")]
    Number,
    #[error("the name is too long")]
    Limit,
    #[error("out of memory")]
    NoMemory,
}

impl From<AllocError> for Refusal {
    ghost from_gives = { λ _ e. e ≡ NoMemory };

    fn from(_: AllocError) -> Self {
        Refusal::NoMemory
    }
}

impl<T: Drop> From<AllocFailed<T>> for Refusal {
    ghost from_gives = { λ _ e. e ≡ NoMemory };

    fn from(_: AllocFailed<T>) -> Self {
        Refusal::NoMemory
    }
}
