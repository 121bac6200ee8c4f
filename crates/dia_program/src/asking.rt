//! Questions about dictionaries: `uses`, `diff`, `lint` and `examples`.

ghost use Rattle.std.specs.Prelude.{◌≡◌, IsTrue, map, string_bytes};
ghost use Rattle.std.specs.Option.{option_copied};
ghost use Rattle.dia_cli.specs.Ending.{stream};
ghost use Rattle.dia_diff.specs.Outcome.{IsDiffOutcome};
ghost use Rattle.dia_lint_text.specs.Outcome.{IsLintOutcome};
ghost use Rattle.dia_driver.specs.Endings.{Runs};
ghost use Rattle.dia_program.specs.Lints.{list_of, question_of};
ghost use Rattle.dia_program.specs.Samples.{Samples, form_of};
ghost use Rattle.dia_uses.specs.Outcome.{IsUsesOutcome};

use dia_cli::{Ending, Linting, NO_TABLE, Origins, STANDARD_OUTPUT, Sampling};
use dia_diff::write_diff;
use dia_driver::{Manner, word_of};
use dia_examples_text::{Form, write_examples};
use dia_io::{Inputs, Sink, ToWriter};
use dia_lint_text::write_lint;
use dia_report::Reported;
use dia_terms::{Sends, Unknown};
use dia_uses::write_uses;
use std::io::Write;

/// Writes where messages may have AVPs.
pub(crate) fn used<'a, R, W>(
    rt: &R,
    avps: &[String],
    inputs: &Inputs,
    manner: Manner,
    out: &mut ToWriter<W>,
) -> Result<Reported, Ending<'a>>
where
    R: AllocGlobal + Eprint,
    W: Write,
    requires { ¬ IsTrue (⟦<ToWriter<W> as Sink>⟧.has_failed out.old) }
    ensures { Runs (IsUsesOutcome manner.json (map string_bytes avps.now) inputs.now)
        (stream (⟦<ToWriter<W> as Sink>⟧.written out.old) (⟦<ToWriter<W> as Sink>⟧.written out.new)
        (⟦<ToWriter<W> as Sink>⟧.has_failed out.new)) result }
{
    let mut notes = String::new(rt.alloc());
    match write_uses(rt.alloc(), manner.json, avps, inputs, &mut notes, out) {
        Ok(reported) => {
            put_notes(rt, &notes, manner);
            Ok(reported)
        }
        Err(fault) => Err(Ending::of_run(fault, STANDARD_OUTPUT, out.failure())),
    }
}

/// Writes what differs between two dictionaries.
pub(crate) fn differed<'a, R, W>(
    rt: &R,
    sends: Sends,
    unknown: Unknown,
    inputs: &Inputs,
    manner: Manner,
    out: &mut ToWriter<W>,
) -> Result<Reported, Ending<'a>>
where
    R: AllocGlobal + Eprint,
    W: Write,
    requires { ¬ IsTrue (⟦<ToWriter<W> as Sink>⟧.has_failed out.old) }
    ensures { Runs (IsDiffOutcome sends unknown manner.json inputs.now)
        (stream (⟦<ToWriter<W> as Sink>⟧.written out.old) (⟦<ToWriter<W> as Sink>⟧.written out.new)
        (⟦<ToWriter<W> as Sink>⟧.has_failed out.new)) result }
{
    let asked = dia_diff::Asked {
        sends,
        unknown,
        json: manner.json,
    };
    let mut notes = String::new(rt.alloc());
    match write_diff(rt.alloc(), asked, inputs, &mut notes, out) {
        Ok(reported) => {
            put_notes(rt, &notes, manner);
            Ok(reported)
        }
        Err(fault) => Err(Ending::of_run(fault, STANDARD_OUTPUT, out.failure())),
    }
}

/// Writes what a dictionary says to no effect, and where it departs from RFC 6733.
pub(crate) fn linted<'a, R, W>(
    rt: &R,
    asked: &Linting,
    inputs: &Inputs,
    origins: &Origins<'a>,
    manner: Manner,
    out: &mut ToWriter<W>,
) -> Result<Reported, Ending<'a>>
where
    R: AllocGlobal + Eprint,
    W: Write,
    requires { ¬ IsTrue (⟦<ToWriter<W> as Sink>⟧.has_failed out.old) }
    ensures { Runs (IsLintOutcome (question_of asked.now manner.json origins.now.first) inputs.now)
        (stream (⟦<ToWriter<W> as Sink>⟧.written out.old) (⟦<ToWriter<W> as Sink>⟧.written out.new)
        (⟦<ToWriter<W> as Sink>⟧.has_failed out.new)) result }
{
    let asked = dia_lint_text::Asked {
        unknown: asked.unknown,
        only: list_of(asked.only.as_str()),
        except: list_of(asked.except.as_str()),
        json: manner.json,
        file: word_of(origins.first),
        list: word_of(origins.table),
    };
    let mut notes = String::new(rt.alloc());
    match write_lint(rt.alloc(), &asked, inputs, &mut notes, out) {
        Ok(reported) => {
            put_notes(rt, &notes, manner);
            Ok(reported)
        }
        Err(fault) => Err(Ending::of_run(fault, STANDARD_OUTPUT, out.failure())),
    }
}

/// Writes test vectors of a dictionary.
pub(crate) fn sampled<'a, R, W>(
    rt: &R,
    asked: &Sampling,
    inputs: &Inputs,
    manner: Manner,
    out: &mut ToWriter<W>,
) -> Result<Reported, Ending<'a>>
where
    R: AllocGlobal + Eprint,
    W: Write,
    requires { ¬ IsTrue (⟦<ToWriter<W> as Sink>⟧.has_failed out.old) }
    ensures { Samples (form_of asked.now.text manner.json) asked.now.unknown inputs.now
        (stream (⟦<ToWriter<W> as Sink>⟧.written out.old) (⟦<ToWriter<W> as Sink>⟧.written out.new)
        (⟦<ToWriter<W> as Sink>⟧.has_failed out.new)) result }
{
    let form = form_of(asked.text, manner.json);
    let names = asked.names.as_slice();
    let mut notes = String::new(rt.alloc());
    match write_examples(
        rt.alloc(),
        asked.unknown,
        form,
        names,
        inputs,
        &mut notes,
        out,
    ) {
        Ok(reported) => {
            put_notes(rt, &notes, manner);
            Ok(reported)
        }
        Err(fault) => Err(Ending::of_run(fault, STANDARD_OUTPUT, out.failure())),
    }
}

/// How vectors are written: as texts for `make` where both are asked for.
fn form_of(text: bool, json: bool) -> Form
    ensures { result ≡ form_of text json }
{
    match (text, json) {
        (true, _) => Form::Text,
        (false, true) => Form::Json,
        (false, false) => Form::Columns,
    }
}

/// A list of names with commas, unless the word names no table.
pub(crate) fn list_of(word: &str) -> Option<&str>
    ensures { option_copied result ≡ list_of word.now }
{
    if word == NO_TABLE { None } else { Some(word) }
}

/// Writes notes on standard error, unless it is to be quiet. Where the device fails, they are lost.
pub(crate) fn put_notes<R: Eprint>(rt: &R, notes: &String, manner: Manner) {
    if !manner.quiet {
        let _ = rt.eprint(notes);
    }
}
