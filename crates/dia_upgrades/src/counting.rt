//! How much breaks, over dictionaries that were read.

ghost use Rattle.std.specs.Prelude.{◌≡◌, ◌↔◌, IfOk, IfSome, IsNone, None};
ghost use Rattle.dia_upgrades.specs.Outcome.{AreLeft, CannotAnswer, HasLines, HasNoLines};

use crate::asked::Asked;
use crate::judging::breaking_of;
use crate::nowhere::Nowhere;
use crate::reporting::Findings;
use crate::words::InWords;
use dia_dict::{Book, IndexedBook};
use dia_io::{Input, RunFault};
use dia_report::BothBooks;
use std::alloc::{AllocError, Global};

/// How many lines an answer has over these dictionaries that the list in this input doesn't accept; where there are more than can
/// be counted, the greatest number. There is none exactly where the answer is a refusal: of the list, of a dictionary without
/// commands, or of a name.
pub fn lines_left(
    alloc: Global,
    asked: Asked<'_>,
    input: &Input,
    books: &BothBooks,
) -> Result<Option<usize>, AllocError>
    ensures some { IfOk result (λ left. IfSome left (AreLeft asked.entry input.now
        (⟦<IndexedBook as Book>⟧.meaning books.now.first.value.book)
        (⟦<IndexedBook as Book>⟧.meaning books.now.second.value.book))) }
    ensures none { IfOk result (λ left. (left ≡ None) ↔ CannotAnswer asked.entry input.now
        (⟦<IndexedBook as Book>⟧.meaning books.now.first.value.book)
        (⟦<IndexedBook as Book>⟧.meaning books.now.second.value.book)) }
{
    let mut nowhere = Nowhere;
    match breaking_of(
        alloc,
        asked,
        &InWords,
        input,
        &books.first.book,
        &books.second.book,
        &mut nowhere,
    ) {
        Ok(listed) => Ok(count_of(&listed.found)),
        Err(RunFault::NoMemory) => Err(AllocError),
        Err(RunFault::Device) => unreachable!(),
    }
}

fn count_of(found: &Findings) -> Option<usize>
    ensures some { IfSome result (HasLines found.now) }
    ensures none { IsNone result → HasNoLines found.now }
{
    match found {
        Findings::Listed { lines, .. } => Some(*lines),
        Findings::NoList(_) => None,
        Findings::NoCommands => None,
        Findings::NoCommand => None,
    }
}
