//! Messages that follow one another in a buffer.

ghost use Rattle.std.specs.Prelude.{◌↔◌, IfOk, IsTrue, length};
ghost use Rattle.dia_c_calls.specs.Batches.{AreEnds, AreVerdicts};

use crate::verdict::{Verdict, checked};
use dia_book::Book;
use dia_check::{Levels, Room, Unknown};
use std::alloc::{AllocError, Global};

/// Whether these are ends of messages that follow one another from the first of so many bytes on.
pub fn are_ends(ends: &[usize], total: usize) -> bool
    ensures { IsTrue result ↔ AreEnds total ends.now }
{
    let mut at = 0;
    let mut left = ends;
    while let Some((end, rest)) = left.split_first() {
        if *end < at || total < *end {
            return false;
        }
        at = *end;
        left = rest;
    }
    true
}

/// The verdict on each of the messages with these ends.
pub fn checked_all<B: Book>(
    alloc: Global,
    room: &mut Room,
    book: &B,
    unknown: Unknown,
    levels: Levels,
    bytes: &[u8],
    ends: &[usize],
) -> Result<Vec<Verdict>, AllocError>
    requires { AreEnds (length bytes.now) ends.now }
    ensures { IfOk result (λ verdicts. AreVerdicts
        (B.meaning book.now) unknown levels bytes.now ends.now verdicts.items) }
{
    let mut verdicts = Vec::with_capacity(alloc, ends.len())?;
    let mut at = 0;
    let mut left = ends;
    while let Some((end, rest)) = left.split_first() {
        verdicts.push(checked(room, book, unknown, levels, &bytes[at..*end])?)?;
        at = *end;
        left = rest;
    }
    Ok(verdicts)
}
