//! The lines of a message.

ghost use Rattle.std.specs.Prelude.{◌≡◌, IfErr, IfOk, IfSome, IsSome, Some};
ghost use Rattle.dia_c_calls.specs.declared.verdict.Verdict.{Verdict as AnyVerdict};
ghost use Rattle.dia_c_calls.specs.Held.{MayBeText, text_in};
ghost use Rattle.dia_c_calls.specs.Listings.{HasShown};
ghost use Rattle.dia_c_calls.specs.Verdicts.{IsNoMessage};

use crate::outcomes::{AnswerText, answer_text};
use crate::verdict::{Verdict, no_message};
use dia_book::Book;
use dia_report::Refused;
use dia_run::show_message;
use dia_wire::split_message;
use std::alloc::{AllocError, Global};
use thiserror::Error;

/// Why there are no lines.
#[derive(Debug, Drop, Error)]
pub enum Unshown {
    /// The bytes are no message.
    #[error("no message")]
    NoMessage(Verdict),
    #[error("out of memory")]
    NoMemory,
}

impl From<AllocError> for Unshown {
    ghost use Rattle.std.specs.Prelude.{◌≡◌};
    ghost use Rattle.dia_c_calls.specs.declared.listing.Unshown.TheVariants.{NoMemory};

    ghost from_gives = { λ _ e. e ≡ NoMemory };

    fn from(_error: AllocError) -> Unshown {
        Unshown::NoMemory
    }
}

/// What `diacmd show` writes of a message, with the names of a dictionary.
pub fn shown<B: Book>(alloc: Global, book: &B, message: &[u8]) -> Result<AnswerText, Unshown>
    ensures done { IfOk result (λ found. IfSome (text_in (Some found.text.value))
        (λ text. HasShown (B.meaning book.now) message.now text found.holds)) }
    ensures is_text { IfOk result (λ found. IsSome (text_in (Some found.text.value)) × ∥ MayBeText (Some found.text.value) ∥₁) }
    ensures no_message { IfErr result (λ e. (v : AnyVerdict) → e ≡ Unshown.NoMessage v → IsNoMessage message.now v) }
{
    match split_message(message) {
        Ok(_) => {}
        Err(fault) => return Err(Unshown::NoMessage(no_message(fault))),
    }
    match show_message(alloc, book, message) {
        Ok(outcome) => Ok(answer_text(alloc, outcome)?),
        Err(Refused::NoMemory) => Err(Unshown::NoMemory),
        Err(Refused::Bad(_)) => unreachable!(),
    }
}
