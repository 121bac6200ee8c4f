//! The tasks of the first program.

ghost use Rattle.std.specs.Prelude.{◌≡◌};
ghost use Rattle.std.specs.Option.{option_map};
ghost use Rattle.dia_first.specs.Tasks.{FirstRuns, first_command, text_command};

use crate::answering::answer_plainly;
use crate::notes::{UNNAMED, names_of, note, note_unnamed};
use dia_cli::{Ending, Opener, Origin, Origins, Task};
use dia_driver::{Manner, Tasks, texts_of};
use dia_io::{Command, Exit, Inputs, ToWriter};
use dia_report::{Report, Reported};
use std::io::Write;

/// What standard error says of another task.
const ELSEWHERE: &str =
    "this program has show, check, render, compare, propose and refute, as text alone\n";

/// The commands `show`, `check`, `render`, `compare`, `propose` and `refute`, as text. For any other task nothing is written, and the
/// status is 2.
pub struct FirstTasks;

impl Tasks for FirstTasks {
    ghost answers = { FirstRuns };

    fn answer<'a, R, O, W>(
        &self,
        rt: &R,
        _opener: &O,
        task: &Task,
        inputs: &Inputs,
        origins: &Origins<'a>,
        manner: Manner,
        out: &mut ToWriter<W>,
    ) -> Result<Reported, Ending<'a>>
    where
        R: AllocGlobal + Eprint,
        O: Opener,
        W: Write,
    {
        match first_command(task, manner.json, origins.table) {
            Some(command) => answer_plainly(rt.alloc(), command, inputs, out),
            None => {
                if !manner.quiet {
                    let _ = rt.eprint(ELSEWHERE);
                }
                Ok(Reported {
                    exit: Exit::Bad,
                    report: Report::Done,
                })
            }
        }
    }

    fn explain<R: AllocGlobal + Eprint>(
        &self,
        rt: &R,
        task: &Task,
        inputs: &Inputs,
        origins: &Origins<'_>,
        report: &Report,
    ) {
        note(rt, &texts_of(origins, inputs), names_of(task), report);
        if matches!(origins.first, Origin::Base) && matches!(task, Task::Whole(Command::Show)) {
            note_unnamed(rt, report, UNNAMED);
        }
    }
}

/// The command that a task asks for as text.
fn first_command<'t>(task: &'t Task, json: bool, table: Origin<'_>) -> Option<&'t Command>
    ensures { option_map (λ command. command.now) result ≡ first_command task.now json table.entry }
{
    match task {
        Task::Whole(command) => {
            if json {
                return None;
            }
            text_command(command, table)
        }
        _ => None,
    }
}

/// A command as text: `show` has no table of words.
fn text_command<'t>(command: &'t Command, table: Origin<'_>) -> Option<&'t Command>
    ensures { option_map (λ command. command.now) result ≡ text_command command.now table.entry }
{
    match (command, table) {
        (Command::Show, Origin::Nowhere) => Some(command),
        (Command::Show, _) => None,
        _ => Some(command),
    }
}
