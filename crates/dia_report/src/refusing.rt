//! Why an input can't be used.

use crate::bad_input::{BadInput, BadMessage};
use dia_wire::MessageFault;
use std::alloc::AllocError;
use std::fmt;
use thiserror::Error;

/// Why an input can't be used: it is refused, or memory is.
#[derive(Drop, Error)]
pub enum Refused {
    #[error("{0}")]
    Bad(BadInput),
    #[error("out of memory")]
    NoMemory,
}

/// Prints as `Display` does.
impl fmt::Debug for Refused {
    fn fmt<W: fmt::Write>(&self, f: &mut fmt::Formatter<W>) -> fmt::Result {
        fmt::Display::fmt(self, f)
    }
}

impl From<BadMessage> for Refused {
    ghost use Rattle.std.specs.Prelude.{◌≡◌};
    ghost use Rattle.dia_report.specs.declared.refusing.Refused.TheVariants.{Bad};
    ghost use Rattle.dia_report.specs.declared.bad_input.BadInput.TheVariants.{Message};

    ghost from_gives = { λ why refused. refused ≡ Bad (Message why) };

    fn from(why: BadMessage) -> Refused {
        Refused::Bad(BadInput::Message(why))
    }
}

impl From<MessageFault> for Refused {
    ghost use Rattle.std.specs.Prelude.{◌≡◌};
    ghost use Rattle.dia_report.specs.declared.refusing.Refused.TheVariants.{Bad};
    ghost use Rattle.dia_report.specs.declared.bad_input.BadInput.TheVariants.{Message};
    ghost use Rattle.dia_report.specs.declared.bad_input.BadMessage.TheVariants.{NoMessage};

    ghost from_gives = { λ fault refused. refused ≡ Bad (Message (NoMessage fault)) };

    fn from(fault: MessageFault) -> Refused {
        Refused::from(BadMessage::NoMessage(fault))
    }
}

impl From<AllocError> for Refused {
    ghost use Rattle.std.specs.Prelude.{◌≡◌};
    ghost use Rattle.dia_report.specs.declared.refusing.Refused.TheVariants.{NoMemory};

    ghost from_gives = { λ _ e. e ≡ NoMemory };

    fn from(_error: AllocError) -> Refused {
        Refused::NoMemory
    }
}
