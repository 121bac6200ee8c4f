use crate::findings::Recorded;
use std::alloc::AllocError;
use thiserror::Error;

/// Why a check does not pass.
#[derive(Clone, Copy, Debug, Error)]
pub(super) enum Refusal<'a> {
    #[error("{}", .0.kind)]
    Occurs(Recorded<'a>),
    #[error("out of memory")]
    NoMemory,
}

impl From<AllocError> for Refusal<'_> {
    ghost use Rattle.std.specs.Prelude.{◌≡◌};
    ghost use Rattle.dia_dict.specs.declared.resolving.refusal.Refusal.TheVariants.{NoMemory};

    ghost from_gives = { λ _ e. e ≡ NoMemory };

    fn from(_error: AllocError) -> Self {
        Refusal::NoMemory
    }
}
