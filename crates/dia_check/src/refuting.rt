//! Whether a message is valid under the first of two dictionaries alone.
ghost use Rattle.std.specs.Prelude.{◌↔◌, IfOk, IsTrue};
ghost use Rattle.dia_valid.specs.Valid.{IsValid};

use crate::checking::check;
use crate::fault::Refusal;
use dia_book::Book;
use dia_terms::{Levels, Unknown};
use std::alloc::{AllocError, Global};

/// Whether the bytes are valid under the first dictionary and not under the second.
pub fn refutes<A: Book, B: Book>(
    alloc: Global,
    a: &A,
    b: &B,
    unknown: Unknown,
    levels: Levels,
    bytes: &[u8],
) -> Result<bool, AllocError>
    ensures { IfOk result
        (λ yes. IsTrue yes ↔ (IsValid (A.meaning a.now) unknown levels bytes.now × ¬ IsValid
        (B.meaning b.now) unknown levels bytes.now)) }
{
    Ok(is_valid(alloc, a, unknown, levels, bytes)? && !is_valid(alloc, b, unknown, levels, bytes)?)
}

/// Whether the bytes are a valid message.
fn is_valid<B: Book>(
    alloc: Global,
    book: &B,
    unknown: Unknown,
    levels: Levels,
    bytes: &[u8],
) -> Result<bool, AllocError>
    ensures { IfOk result
        (λ yes. IsTrue yes ↔ IsValid (B.meaning book.now) unknown levels bytes.now) }
{
    match check(alloc, book, unknown, levels, bytes) {
        Ok(_) => Ok(true),
        Err(Refusal::NoMemory) => Err(AllocError),
        Err(Refusal::Fault(_)) => Ok(false),
        Err(Refusal::Truncated) => Ok(false),
        Err(Refusal::Trailing) => Ok(false),
        Err(Refusal::Spent) => Ok(false),
    }
}
