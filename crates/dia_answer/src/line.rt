//! The line that `check` writes of a fault.

ghost use Rattle.std.specs.Prelude.{◌≡◌, IfOk, string_bytes};
ghost use Rattle.dia_run.specs.Texts.{line};
ghost use Rattle.dia_run.specs.Verdict.{fault_line};

use dia_book::Book;
use dia_check::Fault;
use dia_run::push_subject;
use std::alloc::{AllocError, Global};

/// The line of `check`, without its line feed.
pub(crate) fn line_of<B: Book>(alloc: Global, book: &B, fault: &Fault) -> Result<String, AllocError>
    ensures { IfOk result (λ text. line (string_bytes text) ≡ fault_line (B.meaning book.now) fault.now) }
{
    let code = fault.code;
    let place = fault.place;
    let reason = fault.reason.word();
    let mut text = format!(in alloc; "fault {code} at {place} {reason} ")?;
    push_subject(&mut text, book, fault.subject)?;
    Ok(text)
}
