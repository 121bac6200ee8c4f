//! `show` with `--values` or `--names`, and as JSON.

ghost use Rattle.std.specs.Prelude.{◌≡◌, IsTrue};
ghost use Rattle.dia_cli.specs.Ending.{stream};
ghost use Rattle.dia_show.specs.Outcome.{IsNamedOutcome};
ghost use Rattle.dia_json.specs.Whole.{IsShowJson};
ghost use Rattle.dia_program.specs.Answers.{IsNamed};
ghost use Rattle.dia_driver.specs.Endings.{Runs};

use dia_cli::{Ending, Origins, STANDARD_OUTPUT};
use dia_driver::{Manner, word_of};
use dia_io::{Inputs, RunFault, Sink, ToWriter, put_all};
use dia_report::Reported;
use dia_show::{Answered, BadValues, MAX_LINES, MAX_VALUES, Report, show};
use std::io::Write;

/// What a line of a text of words is.
const FORM: &str =
    "a line is AVP-NAME NUMBER WORD, with one blank between two of them, as Result-Code 2001 DIAMETER_SUCCESS; \
                    `#` begins a comment";

/// What is wrong with a line that says again what a line before it says.
const DUPLICATE: &str = "a line before has the same AVP and number";

/// Writes a message with words of values, with names or without: as JSON, if that is asked for.
pub(crate) fn show_named<'a, R, W>(
    rt: &R,
    names: bool,
    inputs: &Inputs,
    origins: &Origins<'a>,
    manner: Manner,
    out: &mut ToWriter<W>,
) -> Result<Reported, Ending<'a>>
where
    R: AllocGlobal + Eprint,
    W: Write,
    requires { ¬ IsTrue (⟦<ToWriter<W> as Sink>⟧.has_failed out.old) }
    ensures { Runs (IsNamed manner.json names inputs.now)
        (stream (⟦<ToWriter<W> as Sink>⟧.written out.old) (⟦<ToWriter<W> as Sink>⟧.written out.new)
        (⟦<ToWriter<W> as Sink>⟧.has_failed out.new)) result }
{
    if manner.json {
        show_json(rt, names, inputs, origins, manner.quiet, out)
    } else {
        show_words(rt, names, inputs, origins, manner.quiet, out)
    }
}

/// Writes the objects of a message with words of values, with dates or without, and explains why the words are refused, unless
/// it is to be quiet.
pub(crate) fn show_json<'a, R, W>(
    rt: &R,
    names: bool,
    inputs: &Inputs,
    origins: &Origins<'a>,
    quiet: bool,
    out: &mut ToWriter<W>,
) -> Result<Reported, Ending<'a>>
where
    R: AllocGlobal + Eprint,
    W: Write,
    requires { ¬ IsTrue (⟦<ToWriter<W> as Sink>⟧.has_failed out.old) }
    ensures { Runs (IsShowJson names inputs.now)
        (stream (⟦<ToWriter<W> as Sink>⟧.written out.old) (⟦<ToWriter<W> as Sink>⟧.written out.new)
        (⟦<ToWriter<W> as Sink>⟧.has_failed out.new)) result }
{
    let Answered { text, exit, report } = dia_json::show(rt.alloc(), names, inputs)?;
    match put_all(out, text.as_bytes()) {
        Ok(()) => {
            let reported = dia_show::Reported { exit, report };
            Ok(recorded_of(rt, reported, origins, quiet))
        }
        Err(failed) => Err(Ending::of_run(RunFault::from(failed), STANDARD_OUTPUT, out.failure())),
    }
}

/// Writes the lines of a message with words of values, with names or without, and explains why the words are refused, unless
/// it is to be quiet. What else is reported is explained with the reports of other commands.
pub(crate) fn show_words<'a, R, W>(
    rt: &R,
    names: bool,
    inputs: &Inputs,
    origins: &Origins<'a>,
    quiet: bool,
    out: &mut ToWriter<W>,
) -> Result<Reported, Ending<'a>>
where
    R: AllocGlobal + Eprint,
    W: Write,
    requires { ¬ IsTrue (⟦<ToWriter<W> as Sink>⟧.has_failed out.old) }
    ensures { Runs (IsNamedOutcome names inputs.now)
        (stream (⟦<ToWriter<W> as Sink>⟧.written out.old) (⟦<ToWriter<W> as Sink>⟧.written out.new)
        (⟦<ToWriter<W> as Sink>⟧.has_failed out.new)) result }
{
    match show(rt.alloc(), names, inputs, out) {
        Ok(reported) => Ok(recorded_of(rt, reported, origins, quiet)),
        Err(fault) => Err(Ending::of_run(fault, STANDARD_OUTPUT, out.failure())),
    }
}

/// Explains why words of values are refused, unless it is to be quiet, and answers what else is reported.
pub(crate) fn recorded_of<R: Eprint>(
    rt: &R,
    reported: dia_show::Reported,
    origins: &Origins<'_>,
    quiet: bool,
) -> Reported
    ensures { result.exit ≡ reported.exit }
{
    let dia_show::Reported { exit, report } = reported;
    let report = match report {
        Report::OfShow(report) => report,
        Report::NoValues(bad) => {
            if !quiet {
                report_no_values(rt, word_of(origins.table), bad);
            }
            dia_report::Report::Done
        }
    };
    Reported { exit, report }
}

/// Writes to standard error why words of values are refused. Where the device fails, nothing is written.
pub(crate) fn report_no_values<R: Eprint>(rt: &R, name: &str, bad: BadValues) {
    match bad {
        BadValues::TooLong => {
            let _ = eprint!(rt; "{name}: the text has more than {MAX_VALUES} bytes\n");
        }
        BadValues::NotText { at } => {
            let _ = eprint!(rt; "{name}: byte {at} and those after it are no UTF-8\n");
        }
        BadValues::Syntax { line } => report_line(rt, name, line, FORM),
        BadValues::Duplicate { line } => report_line(rt, name, line, DUPLICATE),
        BadValues::Limit { line } => {
            let _ = eprint!(rt; "{name}:{line}: the text has more than {MAX_LINES} lines\n");
        }
    }
}

/// Writes to standard error what is wrong with a line.
fn report_line<R: Eprint>(rt: &R, name: &str, line: u32, wrong: &str) {
    let _ = eprint!(rt; "{name}:{line}: {wrong}\n");
}
