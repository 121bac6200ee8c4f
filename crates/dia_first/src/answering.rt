//! Commands whose inputs are read whole, as text.

ghost use Rattle.std.specs.Prelude.{IsTrue};
ghost use Rattle.dia_cli.specs.Ending.{stream};
ghost use Rattle.dia_driver.specs.Endings.{Runs};
ghost use Rattle.dia_run.specs.Outcome.{IsOutcome};

use dia_cli::{Ending, STANDARD_OUTPUT};
use dia_io::{Command, Inputs, Sink, ToWriter};
use dia_report::Reported;
use dia_run::run_reporting;
use std::alloc::Global;
use std::io::Write;

/// Runs a command whose inputs were read whole, and answers as text.
pub fn answer_plainly<'a, W: Write>(
    alloc: Global,
    command: &Command,
    inputs: &Inputs,
    out: &mut ToWriter<W>,
) -> Result<Reported, Ending<'a>>
    requires { ¬ IsTrue (⟦<ToWriter<W> as Sink>⟧.has_failed out.old) }
    ensures { Runs (IsOutcome command.now inputs.now)
        (stream (⟦<ToWriter<W> as Sink>⟧.written out.old) (⟦<ToWriter<W> as Sink>⟧.written out.new)
        (⟦<ToWriter<W> as Sink>⟧.has_failed out.new)) result }
{
    match run_reporting(alloc, command, inputs, out) {
        Ok(reported) => Ok(reported),
        Err(fault) => Err(Ending::of_run(fault, STANDARD_OUTPUT, out.failure())),
    }
}
