//! The verdict on a message as a line of JSON.

ghost use Rattle.std.specs.Prelude.{IfOk, IfSome, IsSome, Some};
ghost use Rattle.dia_c_calls.specs.Held.{MayBeText, text_in};
ghost use Rattle.dia_c_calls.specs.VerdictLines.{IsVerdictLine};

use crate::held::Held;
use dia_book::Book;
use dia_captures::check_bytes;
use dia_check::{Levels, Unknown};
use dia_json::push_checked;
use std::alloc::{AllocError, Global};

/// The line that `diacmd check --json` writes of a message.
pub fn verdict_line<B: Book>(
    alloc: Global,
    book: &B,
    unknown: Unknown,
    levels: Levels,
    message: &[u8],
) -> Result<Box<Held>, AllocError>
    ensures line { IfOk result (λ held. IfSome (text_in (Some held.value))
        (IsVerdictLine (B.meaning book.now) unknown levels message.now)) }
    ensures is_text { IfOk result (λ held. IsSome (text_in (Some held.value)) × ∥ MayBeText (Some held.value) ∥₁) }
{
    let verdict = check_bytes(alloc, book, unknown, levels, message)?;
    let mut text = String::new(alloc);
    push_checked(alloc, &mut text, book, &verdict)?;
    Ok(Box::new(alloc, Held::Text(text.into_bytes()))?)
}
