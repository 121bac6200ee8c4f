//! `refute`: whether a message is valid under the first dictionary and not under the second.

ghost use Rattle.std.specs.Prelude.{◌≢◌, ◌↔◌, Err, IfOk, IsErr, IsOk, IsTrue};
ghost use Rattle.dia_check.specs.Faults.{IsAnswer};
ghost use Rattle.dia_valid.specs.Valid.{IsValid};
ghost use Rattle.dia_run.specs.Kinds.{IsOfRefute, Reports};
ghost use Rattle.dia_run.specs.Outcome.{IsRefuteOutcome};
ghost use Rattle.dia_run.specs.Report.{Answers, HasReport};

use crate::commands::{Outcome, recorded};
use crate::inputs::dictionary::read_dictionary;
use crate::inputs::message::read_message;
use dia_check::{Levels, Refusal, Selected, Unknown, check};
use dia_dict::{Book, IndexedBook};
use dia_io::{Exit, Inputs};
use dia_report::{Answered, BothBooks, Refused, Report, Unrefuting};
use std::alloc::{AllocError, Global};

/// Whether the message is valid under the first dictionary and not under the second.
pub fn refute(
    alloc: Global,
    unknown: Unknown,
    levels: Levels,
    inputs: &Inputs,
) -> Result<Answered, Refused>
    ensures outcome { Answers (IsRefuteOutcome unknown levels inputs.now) result }
    ensures report { IfOk result (HasReport ⟦<IndexedBook as Book>⟧.meaning inputs.now) }
    ensures kind { IfOk result (Reports (IsOfRefute unknown levels)) }
{
    let first = read_dictionary(alloc, 1, &inputs.first)?;
    let second = read_dictionary(alloc, 2, &inputs.second)?;
    let message = read_message(alloc, &inputs.message)?;
    let under_first = checked(alloc, &first.book, unknown, levels, message.as_slice())?;
    let under_second = checked(alloc, &second.book, unknown, levels, message.as_slice())?;
    if is_refuted(&under_first, &under_second) {
        let Outcome { text, exit } = recorded(alloc, "refutes\n", Exit::Yes)?;
        let report = Report::Done;
        return Ok(Answered { text, exit, report });
    }
    let Outcome { text, exit } = recorded(alloc, "does not refute\n", Exit::No)?;
    let report = Report::Unrefuting(Unrefuting {
        books: BothBooks { first, second },
        message,
        unknown,
        levels,
        under_first,
        under_second,
    });
    Ok(Answered { text, exit, report })
}

/// Whether a message is valid under the first dictionary and not under the second, by what checks of it answer.
fn is_refuted(
    under_first: &Result<Selected, Refusal>,
    under_second: &Result<Selected, Refusal>,
) -> bool
    ensures { IsTrue result ↔ (IsOk under_first.now × IsErr under_second.now) }
{
    under_first.is_ok() && under_second.is_err()
}

/// What a check of a message answers, if there is memory for it.
fn checked<B: Book>(
    alloc: Global,
    book: &B,
    unknown: Unknown,
    levels: Levels,
    message: &[u8],
) -> Result<Result<Selected, Refusal>, AllocError>
    ensures answer { IfOk result (IsAnswer (B.meaning book.now) unknown levels message.now) }
    ensures valid { IfOk result
        (λ answer. IsOk answer ↔ IsValid (B.meaning book.now) unknown levels message.now) }
    ensures memory { IfOk result (λ answer. answer ≢ Err Refusal.NoMemory) }
{
    let refusal = match check(alloc, book, unknown, levels, message) {
        Ok(found) => return Ok(Ok(found)),
        Err(refusal) => refusal,
    };
    match refusal {
        Refusal::NoMemory => Err(AllocError),
        _ => Ok(Err(refusal)),
    }
}
