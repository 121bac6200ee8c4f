//! Commands on messages as text: `make`, and `show --as-text`.

ghost use Rattle.std.specs.Prelude.{◌≡◌, IfOk, IfErr, IsTrue, false};
ghost use Rattle.dia_cli.specs.Ending.{stream};
ghost use Rattle.dia_make.specs.Outcome.{IsMade};
ghost use Rattle.dia_make.specs.Shown.{IsShowTextOutcome};
ghost use Rattle.dia_program.specs.Answers.{IsMadeBy};
ghost use Rattle.dia_driver.specs.Endings.{Breaks, Runs, Writes};

use crate::showing::report_no_values;
use dia_cli::{Ending, Origin, Origins, STANDARD_OUTPUT};
use dia_driver::{named_text, word_of};
use dia_explain_inputs::{is_foreign, push_foreign};
use dia_explain_places::{NamedText, Note};
use dia_first::report_made;
use dia_io::{Inputs, Sink, ToWriter};
use dia_make::{make, note, show_text};
use dia_report::{Report, Reported};
use std::alloc::Global;
use std::io::Write;

/// Writes the messages that a text makes, with words of values where a table of them is named, and explains why it makes none, unless
/// it is to be quiet.
pub(crate) fn made<'a, R, W>(
    rt: &R,
    inputs: &Inputs,
    origins: &Origins<'a>,
    quiet: bool,
    out: &mut ToWriter<W>,
) -> Result<Reported, Ending<'a>>
where
    R: AllocGlobal + Eprint,
    W: Write,
    requires { ¬ IsTrue (⟦<ToWriter<W> as Sink>⟧.has_failed out.old) }
    ensures { Runs (IsMadeBy origins.now.table inputs.now)
        (stream (⟦<ToWriter<W> as Sink>⟧.written out.old) (⟦<ToWriter<W> as Sink>⟧.written out.new)
        (⟦<ToWriter<W> as Sink>⟧.has_failed out.new)) result }
{
    match origins.table {
        Origin::Nowhere => make_all(rt, false, inputs, origins, quiet, out),
        _ => make_all(rt, true, inputs, origins, quiet, out),
    }
}

/// Writes the messages that a text makes, with words of values or without them.
fn make_all<'a, R, W>(
    rt: &R,
    values: bool,
    inputs: &Inputs,
    origins: &Origins<'a>,
    quiet: bool,
    out: &mut ToWriter<W>,
) -> Result<Reported, Ending<'a>>
where
    R: AllocGlobal + Eprint,
    W: Write,
    requires { ¬ IsTrue (⟦<ToWriter<W> as Sink>⟧.has_failed out.old) }
    ensures { Runs (IsMade values inputs.now)
        (stream (⟦<ToWriter<W> as Sink>⟧.written out.old) (⟦<ToWriter<W> as Sink>⟧.written out.new)
        (⟦<ToWriter<W> as Sink>⟧.has_failed out.new)) result }
{
    match make(rt.alloc(), values, inputs, out) {
        Ok(made) => Ok(explained(rt, made, inputs, origins, quiet)),
        Err(fault) => Err(Ending::of_run(fault, STANDARD_OUTPUT, out.failure())),
    }
}

/// Writes the text of a message, and explains why it has none, unless it is to be quiet.
pub(crate) fn shown<'a, R, W>(
    rt: &R,
    inputs: &Inputs,
    origins: &Origins<'a>,
    quiet: bool,
    out: &mut ToWriter<W>,
) -> Result<Reported, Ending<'a>>
where
    R: AllocGlobal + Eprint,
    W: Write,
    requires { ¬ IsTrue (⟦<ToWriter<W> as Sink>⟧.has_failed out.old) }
    ensures { Runs (IsShowTextOutcome inputs.now)
        (stream (⟦<ToWriter<W> as Sink>⟧.written out.old) (⟦<ToWriter<W> as Sink>⟧.written out.new)
        (⟦<ToWriter<W> as Sink>⟧.has_failed out.new)) result }
{
    let mut bytes = Vec::new(rt.alloc());
    match put_shown(rt.alloc(), inputs, &mut bytes, out) {
        Ok(shown) => {
            let reported = explained(rt, shown, inputs, origins, quiet);
            Ok(with_message(reported, bytes))
        }
        Err(ending) => Err(ending),
    }
}

/// Writes the text of a message, whose bytes are added to `bytes`.
fn put_shown<'a, W: Write>(
    alloc: Global,
    inputs: &Inputs,
    bytes: &mut Vec<u8>,
    out: &mut ToWriter<W>,
) -> Result<dia_make::Reported, Ending<'a>>
    requires { ¬ IsTrue (⟦<ToWriter<W> as Sink>⟧.has_failed out.old) }
    ensures ok { IfOk result (λ reported. (¬ IsTrue (⟦<ToWriter<W> as Sink>⟧.has_failed out.new))
        × Writes (IsShowTextOutcome inputs.now)
        (stream (⟦<ToWriter<W> as Sink>⟧.written out.old) (⟦<ToWriter<W> as Sink>⟧.written out.new)
        (⟦<ToWriter<W> as Sink>⟧.has_failed out.new)) reported.exit) }
    ensures err { IfErr result (Breaks (IsShowTextOutcome inputs.now)
        (stream (⟦<ToWriter<W> as Sink>⟧.written out.old) (⟦<ToWriter<W> as Sink>⟧.written out.new)
        (⟦<ToWriter<W> as Sink>⟧.has_failed out.new))) }
{
    match show_text(alloc, inputs, bytes, out) {
        Ok(shown) => Ok(shown),
        Err(fault) => Err(Ending::of_run(fault, STANDARD_OUTPUT, out.failure())),
    }
}

/// How a command ended, with the message that was shown.
fn with_message(reported: Reported, message: Vec<u8>) -> Reported
    ensures { result.exit ≡ reported.exit }
{
    let Reported { exit, report } = reported;
    let report = if matches!(&report, Report::Done) {
        Report::Shown(message)
    } else {
        report
    };
    Reported { exit, report }
}

/// Explains why a text makes no message, or a message has no text. Where memory or the device fails, nothing is written.
fn report_why<R: AllocGlobal + Eprint>(
    rt: &R,
    report: &dia_make::Report,
    message: &NamedText<'_>,
    inputs: &Inputs,
) {
    if matches!(report, dia_make::Report::Text(_)) && is_foreign(message.text) {
        let mut foreign = Note::new(rt.alloc());
        push_foreign(&mut foreign, message, "the text of messages");
        report_made(rt, foreign.finish());
    } else {
        report_made(rt, note(rt.alloc(), message.name, inputs, report));
    }
}

/// How a command ended, whose text or message is explained here, unless memory or the device fails. What it says of a
/// dictionary, or of hexadecimal digits, is left to be explained with that of other commands.
fn explained<R: AllocGlobal + Eprint>(
    rt: &R,
    made: dia_make::Reported,
    inputs: &Inputs,
    origins: &Origins<'_>,
    quiet: bool,
) -> Reported
    ensures { result.exit ≡ made.exit }
{
    let dia_make::Reported { exit, report } = made;
    if !quiet {
        report_why(
            rt,
            &report,
            &named_text(origins.message, &inputs.message),
            inputs,
        );
    }
    let report = match report {
        dia_make::Report::Refused(bad) => Report::Refused(bad),
        dia_make::Report::NoValues(bad) => {
            if !quiet {
                report_no_values(rt, word_of(origins.table), bad);
            }
            Report::Done
        }
        dia_make::Report::Text(_recorded) => Report::Done,
        dia_make::Report::Done | dia_make::Report::Cut { .. } => Report::Done,
    };
    Reported { exit, report }
}
