//! `check --all`: every fault of a message.

ghost use Rattle.std.specs.Prelude.{IfOk, IsTrue, string_bytes};
ghost use Rattle.dia_cli.specs.Ending.{stream};
ghost use Rattle.dia_run.specs.Report.{Answers};
ghost use Rattle.dia_program.specs.Answers.{IsAllFaults};
ghost use Rattle.dia_driver.specs.Endings.{Runs};

use crate::answering::put_answer;
use dia_check::check;
use dia_cli::Ending;
use dia_io::{Inputs, Sink, ToWriter};
use dia_report::{Answered, Invalid, ReadBook, Refused, Report, Reported};
use dia_run::{Outcome, answer_of, read_dictionary, read_message, report_faults};
use dia_terms::{Levels, Unknown};
use std::alloc::{AllocError, Global};
use std::io::Write;

/// The most faults that are written (our profile).
const MOST: usize = 1000;

/// Writes every fault of the message, at most 1,000.
pub(crate) fn list_faults<'a, W: Write>(
    alloc: Global,
    unknown: Unknown,
    levels: Levels,
    inputs: &Inputs,
    out: &mut ToWriter<W>,
) -> Result<Reported, Ending<'a>>
    requires { ¬ IsTrue (⟦<ToWriter<W> as Sink>⟧.has_failed out.old) }
    ensures { Runs (IsAllFaults unknown levels inputs.now)
        (stream (⟦<ToWriter<W> as Sink>⟧.written out.old) (⟦<ToWriter<W> as Sink>⟧.written out.new)
        (⟦<ToWriter<W> as Sink>⟧.has_failed out.new)) result }
{
    put_answer(made_of(alloc, unknown, levels, inputs), out)
}

/// The faults of the message, or the line of an input that is refused.
fn made_of(
    alloc: Global,
    unknown: Unknown,
    levels: Levels,
    inputs: &Inputs,
) -> Result<Answered, AllocError>
    ensures { IfOk result (λ answered. IsAllFaults unknown levels inputs.now
        (string_bytes answered.text) answered.exit) }
{
    answer_of(alloc, listed(alloc, unknown, levels, inputs))
}

/// The faults of the message, or why an input is refused.
fn listed(
    alloc: Global,
    unknown: Unknown,
    levels: Levels,
    inputs: &Inputs,
) -> Result<Answered, Refused>
    ensures { Answers (IsAllFaults unknown levels inputs.now) result }
{
    let first = read_dictionary(alloc, 1, &inputs.first)?;
    let message = read_message(alloc, &inputs.message)?;
    let Outcome { text, exit } = report_faults(
        alloc,
        &first.book,
        unknown,
        levels,
        MOST,
        &message,
    )?;
    let report = report_of(alloc, first, message, unknown, levels);
    Ok(Answered { text, exit, report })
}

/// By which the first fault is explained.
fn report_of(
    alloc: Global,
    first: Box<ReadBook>,
    message: Vec<u8>,
    unknown: Unknown,
    levels: Levels,
) -> Report {
    match check(alloc, &first.book, unknown, levels, &message) {
        Err(refusal) => Report::Invalid(Invalid {
            first,
            message,
            unknown,
            levels,
            refusal,
        }),
        Ok(_) => Report::Done,
    }
}
