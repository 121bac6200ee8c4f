//! All tasks: their answers, and what explains them.

ghost use Rattle.std.specs.Prelude.{IsTrue};
ghost use Rattle.dia_cli.specs.Ending.{stream};
ghost use Rattle.dia_program.specs.Answers.{IsAnswer, IsJson, IsShow};
ghost use Rattle.dia_driver.specs.Endings.{Runs};
ghost use Rattle.dia_driver.specs.Tasks.{world};
ghost use Rattle.dia_program.specs.Tasks.{TaskRuns};

use crate::all_faults::list_faults;
use crate::answering::answer_as_json;
use crate::asking::{differed, linted, sampled, used};
use crate::captured::{Capture, captured};
use crate::following::followed;
use crate::listing::list_lines;
use crate::masking::masked;
use crate::replying::reply;
use crate::replying_lines::reply_to_lines;
use crate::showing::{show_json, show_named, show_words};
use crate::text::{made, shown};
use crate::upgrading::list;
use dia_captures::Lines;
use dia_cli::{Ending, Opener, Origin, Origins, Task};
use dia_driver::{Manner, Tasks, texts_of};
use dia_first::{UNNAMED, answer_plainly, names_of, note, note_unnamed};
use dia_io::{Command, Inputs, Sink, ToWriter};
use dia_report::{Report, Reported};
use std::io::Write;

/// Each task that the words can ask for.
pub(crate) struct AllTasks;

impl Tasks for AllTasks {
    ghost answers = { TaskRuns };

    fn answer<'a, R, O, W>(
        &self,
        rt: &R,
        opener: &O,
        task: &Task,
        inputs: &Inputs,
        origins: &Origins<'a>,
        manner: Manner,
        out: &mut ToWriter<W>,
    ) -> Result<Reported, Ending<'a>>
    where
        R: AllocGlobal + Eprint,
        O: Opener,
        W: Write,
    {
        answer(rt, opener, task, inputs, origins, manner, out)
    }

    fn explain<R: AllocGlobal + Eprint>(
        &self,
        rt: &R,
        task: &Task,
        inputs: &Inputs,
        origins: &Origins<'_>,
        report: &Report,
    ) {
        // `breaking` has explained its answer with what it found.
        if matches!(task, Task::Breaking(_)) {
            return;
        }
        note(rt, &texts_of(origins, inputs), names_of(task), report);
        if matches!(origins.first, Origin::Base) {
            report_unnamed(rt, task, report);
        }
    }
}

/// Does what is asked for.
fn answer<'a, R, O, W>(
    rt: &R,
    opener: &O,
    task: &Task,
    inputs: &Inputs,
    origins: &Origins<'a>,
    manner: Manner,
    out: &mut ToWriter<W>,
) -> Result<Reported, Ending<'a>>
where
    R: AllocGlobal + Eprint,
    O: Opener,
    W: Write,
    requires { ¬ IsTrue (⟦<ToWriter<W> as Sink>⟧.has_failed out.old) }
    ensures { TaskRuns task.now manner.json (world (O.content opener.now) (O.input opener.now)) origins.now inputs.now
        (stream (⟦<ToWriter<W> as Sink>⟧.written out.old) (⟦<ToWriter<W> as Sink>⟧.written out.new)
        (⟦<ToWriter<W> as Sink>⟧.has_failed out.new)) result }
{
    let quiet = manner.quiet;
    match task {
        Task::Whole(command) => run_whole(rt, command, inputs, origins, manner, out),
        Task::ShowNamed => show_named(rt, true, inputs, origins, manner, out),
        Task::ShowLines { names } => {
            list_lines(rt, opener, *names, inputs, origins, manner, out)
        }
        Task::Make => made(rt, inputs, origins, quiet, out),
        Task::ShowText => shown(rt, inputs, origins, quiet, out),
        Task::CheckLines { unknown, levels } => {
            let capture = Capture::new(Lines::Checked, *unknown, *levels);
            captured(rt, opener, capture, inputs, origins, manner, out)
        }
        Task::RefuteLines { unknown, levels } => {
            let capture = Capture::new(Lines::Refuted, *unknown, *levels);
            captured(rt, opener, capture, inputs, origins, manner, out)
        }
        Task::CheckStream { unknown, levels } => {
            let capture = Capture::new(Lines::Placed, *unknown, *levels);
            captured(rt, opener, capture, inputs, origins, manner, out)
        }
        Task::CheckAll { unknown, levels } => {
            list_faults(rt.alloc(), *unknown, *levels, inputs, out)
        }
        Task::Answer(asked) => reply(rt, asked, inputs, quiet, out),
        Task::AnswerLines(asked) => {
            reply_to_lines(rt, opener, asked, inputs, origins, quiet, out)
        }
        Task::Follow(asked) => followed(rt, opener, *asked, inputs, origins, manner, out),
        Task::Mask(asked) => masked(rt, opener, asked, inputs, origins, manner, out),
        Task::Uses { avps } => used(rt, avps.as_slice(), inputs, manner, out),
        Task::Diff { sends, unknown } => differed(rt, *sends, *unknown, inputs, manner, out),
        Task::Lint(asked) => linted(rt, asked, inputs, origins, manner, out),
        Task::Examples(asked) => sampled(rt, asked, inputs, manner, out),
        Task::Breaking(asked) => list(rt, asked, inputs, origins, manner, out),
    }
}

/// Runs a command whose inputs were read whole.
fn run_whole<'a, R, W>(
    rt: &R,
    command: &Command,
    inputs: &Inputs,
    origins: &Origins<'a>,
    manner: Manner,
    out: &mut ToWriter<W>,
) -> Result<Reported, Ending<'a>>
where
    R: AllocGlobal + Eprint,
    W: Write,
    requires { ¬ IsTrue (⟦<ToWriter<W> as Sink>⟧.has_failed out.old) }
    ensures { Runs (IsAnswer manner.json origins.now.table command.now inputs.now)
        (stream (⟦<ToWriter<W> as Sink>⟧.written out.old) (⟦<ToWriter<W> as Sink>⟧.written out.new)
        (⟦<ToWriter<W> as Sink>⟧.has_failed out.new)) result }
{
    if manner.json {
        return run_json(rt, command, inputs, origins, manner.quiet, out);
    }
    match command {
        Command::Show => show_plainly(rt, inputs, origins, manner.quiet, out),
        _ => answer_plainly(rt.alloc(), command, inputs, out),
    }
}

/// Runs a command whose inputs were read whole, and answers as JSON.
fn run_json<'a, R, W>(
    rt: &R,
    command: &Command,
    inputs: &Inputs,
    origins: &Origins<'a>,
    quiet: bool,
    out: &mut ToWriter<W>,
) -> Result<Reported, Ending<'a>>
where
    R: AllocGlobal + Eprint,
    W: Write,
    requires { ¬ IsTrue (⟦<ToWriter<W> as Sink>⟧.has_failed out.old) }
    ensures { Runs (IsJson command.now inputs.now)
        (stream (⟦<ToWriter<W> as Sink>⟧.written out.old) (⟦<ToWriter<W> as Sink>⟧.written out.new)
        (⟦<ToWriter<W> as Sink>⟧.has_failed out.new)) result }
{
    match command {
        Command::Show => show_json(rt, false, inputs, origins, quiet, out),
        _ => answer_as_json(rt.alloc(), command, inputs, out),
    }
}

/// Shows a message as text, with words of values where a table of them is named.
fn show_plainly<'a, R, W>(
    rt: &R,
    inputs: &Inputs,
    origins: &Origins<'a>,
    quiet: bool,
    out: &mut ToWriter<W>,
) -> Result<Reported, Ending<'a>>
where
    R: AllocGlobal + Eprint,
    W: Write,
    requires { ¬ IsTrue (⟦<ToWriter<W> as Sink>⟧.has_failed out.old) }
    ensures { Runs (IsShow origins.now.table inputs.now)
        (stream (⟦<ToWriter<W> as Sink>⟧.written out.old) (⟦<ToWriter<W> as Sink>⟧.written out.new)
        (⟦<ToWriter<W> as Sink>⟧.has_failed out.new)) result }
{
    match origins.table {
        Origin::Nowhere => answer_plainly(rt.alloc(), &Command::Show, inputs, out),
        _ => show_words(rt, false, inputs, origins, quiet, out),
    }
}

/// Writes how AVPs get names that the base dictionary doesn't have, where a message was shown.
fn report_unnamed<R: AllocGlobal + Eprint>(rt: &R, task: &Task, report: &Report) {
    match task {
        Task::Whole(Command::Show) | Task::ShowNamed => note_unnamed(rt, report, UNNAMED),
        Task::ShowText => note_unnamed(rt, report, "a number in place of a name"),
        _ => {}
    }
}
