//! Which AVPs some message has that a side sends.
ghost use Rattle.std.specs.Prelude.{◌≢◌, IfOk};
ghost use Rattle.dia_lint.specs.Held.{AreHeld};
ghost use Rattle.dia_lint.specs.WayLines.{IsReachedBy};

use crate::costs::Lengths;
use crate::reached::Reached;
use dia_book::Book;
use dia_terms::Sends;
use std::alloc::{AllocError, Global};

/// Of each AVP of a dictionary, by its place, whether some message that a side sends has it, at any depth; not for `Filled`. The
/// only error is an allocation failure.
pub fn held_avps<B: Book>(alloc: Global, book: &B, sends: Sends) -> Result<Vec<bool>, AllocError>
    requires { sends ≢ Sends.Filled }
    ensures { IfOk result (λ held. AreHeld (B.meaning book.now) sends held.items) }
{
    let reached = reached_by(alloc, book, sends)?;
    Ok(reached.into_avps())
}

/// What messages have that a side sends.
pub(crate) fn reached_by<B: Book>(
    alloc: Global,
    book: &B,
    sends: Sends,
) -> Result<Reached, AllocError>
    requires { sends ≢ Sends.Filled }
    ensures { IfOk result (IsReachedBy (B.meaning book.now) sends) }
{
    let lengths = Lengths::new(alloc, book, sends)?;
    Reached::of(alloc, &lengths)
}
