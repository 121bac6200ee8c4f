//! `show`: a message, an AVP a line.

ghost use Rattle.std.specs.Prelude.{◌≢◌, IfOk};
ghost use Rattle.dia_run.specs.Kinds.{IsOfShow, Reports};
ghost use Rattle.dia_run.specs.Outcome.{Ends, IsShowOutcome, IsMessageShown};
ghost use Rattle.dia_run.specs.Report.{Answers, HasReport};

use crate::commands::Outcome;
use crate::inputs::dictionary::read_dictionary;
use crate::inputs::message::read_message;
use crate::walk::write_message;
use dia_dict::{Book, IndexedBook};
use dia_io::{Exit, Inputs};
use dia_report::{Answered, CutListing, Refused, Report};
use std::alloc::Global;

mod plain_rows;

pub use plain_rows::{PlainRows, push_number, push_vendor};

/// The lines of the message, with the names of the first dictionary.
pub fn show(alloc: Global, inputs: &Inputs) -> Result<Answered, Refused>
    ensures outcome { Answers (IsShowOutcome inputs.now) result }
    ensures report { IfOk result (HasReport ⟦<IndexedBook as Book>⟧.meaning inputs.now) }
    ensures kind { IfOk result (Reports IsOfShow) }
{
    let first = read_dictionary(alloc, 1, &inputs.first)?;
    let message = read_message(alloc, &inputs.message)?;
    let Outcome { text, exit } = show_message(alloc, &first.book, message.as_slice())?;
    let report = match exit {
        Exit::Yes => return Ok(Answered {
            text,
            exit,
            report: Report::Shown(message),
        }),
        Exit::No => Report::Cut(CutListing { first, message }),
        Exit::Bad => unreachable!(),
    };
    Ok(Answered { text, exit, report })
}

/// The lines of a message, with the names of a dictionary.
pub fn show_message<B: Book>(alloc: Global, book: &B, bytes: &[u8]) -> Result<Outcome, Refused>
    ensures outcome { Ends (IsMessageShown (B.meaning book.now) bytes.now) result }
    ensures exit { IfOk result (λ outcome. outcome.exit ≢ Exit.Bad) }
{
    write_message(alloc, &PlainRows, book, bytes)
}
