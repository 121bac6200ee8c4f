//! Answers of commands as JSON.

ghost use Rattle.std.specs.Prelude.{◌≢◌, IfOk, IsTrue, string_bytes};
ghost use Rattle.dia_cli.specs.Ending.{stream};
ghost use Rattle.dia_program.specs.Answers.{IsJson};
ghost use Rattle.dia_driver.specs.Endings.{Puts, Runs};

use dia_cli::{Ending, STANDARD_OUTPUT};
use dia_io::{Command, Inputs, RunFault, Sink, ToWriter, put_all};
use dia_report::{Answered, Reported};
use std::alloc::{AllocError, Global};
use std::io::Write;

/// Runs a command other than `show`, whose inputs were read whole, and answers as JSON. `render` has no such answer.
pub(crate) fn answer_as_json<'a, W: Write>(
    alloc: Global,
    command: &Command,
    inputs: &Inputs,
    out: &mut ToWriter<W>,
) -> Result<Reported, Ending<'a>>
    requires sound { ¬ IsTrue (⟦<ToWriter<W> as Sink>⟧.has_failed out.old) }
    requires other { command.now ≢ Command.Show }
    ensures { Runs (IsJson command.now inputs.now)
        (stream (⟦<ToWriter<W> as Sink>⟧.written out.old) (⟦<ToWriter<W> as Sink>⟧.written out.new)
        (⟦<ToWriter<W> as Sink>⟧.has_failed out.new)) result }
{
    put_answer(made_as_json(alloc, command, inputs), out)
}

/// The answer of a command other than `show` as JSON.
fn made_as_json(alloc: Global, command: &Command, inputs: &Inputs) -> Result<Answered, AllocError>
    requires { command.now ≢ Command.Show }
    ensures { IfOk result (λ answered. IsJson command.now inputs.now
        (string_bytes answered.text) answered.exit) }
{
    match command {
        Command::Show => unreachable!(),
        Command::Check { unknown, levels } => dia_json::check(alloc, *unknown, *levels, inputs),
        Command::Refute { unknown, levels } => dia_json::refute(alloc, *unknown, *levels, inputs),
        Command::Propose { unknown, names } => {
            dia_json::propose(alloc, *unknown, names.as_slice(), inputs)
        }
        Command::Compare { unknown } => dia_compared_json::compare(alloc, *unknown, inputs),
        Command::Render => dia_run::answer(alloc, command, inputs),
    }
}

/// Writes what was answered.
pub(crate) fn put_answer<'a, W: Write>(
    made: Result<Answered, AllocError>,
    out: &mut ToWriter<W>,
) -> Result<Reported, Ending<'a>>
    requires { ¬ IsTrue (⟦<ToWriter<W> as Sink>⟧.has_failed out.old) }
    ensures { Puts made
        (stream (⟦<ToWriter<W> as Sink>⟧.written out.old) (⟦<ToWriter<W> as Sink>⟧.written out.new)
        (⟦<ToWriter<W> as Sink>⟧.has_failed out.new)) result }
{
    let Answered { text, exit, report } = made?;
    match put_all(out, text.as_bytes()) {
        Ok(()) => Ok(Reported { exit, report }),
        Err(failed) => Err(Ending::of_run(RunFault::from(failed), STANDARD_OUTPUT, out.failure())),
    }
}
