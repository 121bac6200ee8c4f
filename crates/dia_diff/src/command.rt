//! The command, from its inputs to what is written.

ghost use Rattle.std.specs.Prelude.{◌≡◌, ◌≢◌, ◌↔◌, ℕ, List, [], Err, IfOk, IsTrue, length, string_bytes};
ghost use Rattle.std.specs.Io.KnownBytes.{Appends};
ghost use Rattle.dia_io.specs.declared.Exit.{Exit as AnyExit};
ghost use Rattle.dia_io.specs.Writing.{AppendsFront};
ghost use Rattle.dia_run.specs.Texts.{IsDictionaryText};
ghost use Rattle.dia_differences.specs.Lines.{Adds, AreDifferences};
ghost use Rattle.dia_differences.specs.Partners.{matches_of, paired};
ghost use Rattle.dia_diff_text.specs.Lines.{AreTexts};
ghost use Rattle.dia_diff.specs.Outcome.{AreLines, IsDiffOutcome, IsDiffText, same_text};

use crate::marked_lines::marked_lines;
use crate::notes::counts_of;
use dia_book::Book;
use dia_diff_text::push;
use dia_differences::{Line, Partners, lines_of};
use dia_io::{Exit, Inputs, RunFault, Sink, put_all};
use dia_refused_json::refuse_as;
use dia_report::{Answered, Refused, Report, Reported};
use dia_run::read_dictionary;
use dia_terms::{Sends, Unknown};
use std::alloc::{AllocError, Global};

/// What `diff` is asked for.
#[derive(Clone, Copy)]
pub struct Asked {
    /// What a side sends by its dictionary.
    pub sends: Sends,
    /// What a side does with AVPs that its dictionary doesn't know.
    pub unknown: Unknown,
    /// Whether lines are JSON objects.
    pub json: bool,
}

/// Writes a line for each difference in meaning between the first dictionary, A, and the second, B, in their order; `same` where
/// there is none, and ends with `Yes`. Each line ends with what comes of it for messages from A's side to B's, and the other way.
///
/// What is written is made first, and then written in whatever pieces the sink takes. `notes` gets what standard error is to say:
/// nothing if memory is refused for it.
pub fn write_diff<S: Sink>(
    alloc: Global,
    asked: Asked,
    inputs: &Inputs,
    notes: &mut String,
    sink: &mut S,
) -> Result<Reported, RunFault>
    requires { ¬ IsTrue (S.has_failed sink.old) }
    ensures text { IfOk result (λ reported. (text : List ℕ)
        × IsDiffOutcome asked.sends asked.unknown asked.json inputs.now text reported.exit
        × Appends (S.written sink.old) (S.written sink.new) text) }
    ensures device { (result ≡ Err RunFault.Device) ↔ IsTrue (S.has_failed sink.new) }
    ensures front { result ≡ Err RunFault.Device
        → (text : List ℕ) × (exit : AnyExit)
        × IsDiffOutcome asked.sends asked.unknown asked.json inputs.now text exit
        × AppendsFront (S.written sink.old) (S.written sink.new) text }
    ensures no_memory { result ≡ Err RunFault.NoMemory → S.written sink.new ≡ S.written sink.old }
{
    let Answered { text, exit, report } = text_for(alloc, asked, inputs, notes)?;
    put_all(sink, text.as_bytes())?;
    Ok(Reported { exit, report })
}

/// What is written for the inputs, and how the command ends.
fn text_for(
    alloc: Global,
    asked: Asked,
    inputs: &Inputs,
    notes: &mut String,
) -> Result<Answered, AllocError>
    ensures { IfOk result (λ a. IsDiffOutcome
        asked.sends asked.unknown asked.json inputs.now (string_bytes a.text) a.exit) }
{
    match read_dictionary(alloc, 1, &inputs.first) {
        Ok(first) => text_after(alloc, asked, &first.book, inputs, notes),
        Err(Refused::Bad(bad)) => refuse_as(alloc, asked.json, &inputs.first, bad),
        Err(Refused::NoMemory) => Err(AllocError),
    }
}

/// The same after the first dictionary was read.
fn text_after<A: Book>(
    alloc: Global,
    asked: Asked,
    a: &A,
    inputs: &Inputs,
    notes: &mut String,
) -> Result<Answered, AllocError>
    requires { IsDictionaryText inputs.now.first (A.meaning a.now) }
    ensures { IfOk result (λ a. IsDiffOutcome
        asked.sends asked.unknown asked.json inputs.now (string_bytes a.text) a.exit) }
{
    match read_dictionary(alloc, 2, &inputs.second) {
        Ok(second) => text_by(alloc, asked, a, &second.book, inputs, notes),
        Err(Refused::Bad(bad)) => refuse_as(alloc, asked.json, &inputs.second, bad),
        Err(Refused::NoMemory) => Err(AllocError),
    }
}

/// The same by the dictionaries that were read.
fn text_by<A: Book, B: Book>(
    alloc: Global,
    asked: Asked,
    a: &A,
    b: &B,
    inputs: &Inputs,
    notes: &mut String,
) -> Result<Answered, AllocError>
    requires first { IsDictionaryText inputs.now.first (A.meaning a.now) }
    requires second { IsDictionaryText inputs.now.second (B.meaning b.now) }
    ensures { IfOk result (λ a. IsDiffOutcome
        asked.sends asked.unknown asked.json inputs.now (string_bytes a.text) a.exit) }
{
    differences(alloc, asked, a, b, notes)
}

/// What differs between the dictionaries.
fn differences<A: Book, B: Book>(
    alloc: Global,
    asked: Asked,
    a: &A,
    b: &B,
    notes: &mut String,
) -> Result<Answered, AllocError>
    ensures { IfOk result (λ x. IsDiffText
        (A.meaning a.now) (B.meaning b.now) asked.sends asked.unknown asked.json x.exit (string_bytes x.text)) }
{
    let partners = Partners::new(alloc, a, b)?;
    let lines = lines_of(alloc, a, b, &partners)?;
    if lines.is_empty() {
        return same(alloc, asked.json);
    }
    answered(alloc, asked, a, b, &partners, &lines, notes)
}

/// The answer of these lines with their marks.
fn answered<A: Book, B: Book>(
    alloc: Global,
    asked: Asked,
    a: &A,
    b: &B,
    partners: &Partners,
    lines: &[Line],
    notes: &mut String,
) -> Result<Answered, AllocError>
    requires partners { paired partners.now ≡ matches_of (A.meaning a.now) (B.meaning b.now) }
    requires some { length lines.now ≢ 0 }
    requires differences { Adds [] lines.now (AreDifferences (A.meaning a.now) (B.meaning b.now)) }
    ensures exit { IfOk result (λ x. x.exit ≡ Exit.No) }
    ensures text { IfOk result (λ x. AreLines
        (A.meaning a.now) (B.meaning b.now) asked.sends asked.unknown asked.json (string_bytes x.text)) }
{
    let lines = marked_lines(alloc, asked, a, b, partners, lines)?;
    note_counts(alloc, &lines, notes);
    written(alloc, asked.json, a, b, &lines)
}

/// Notes how many lines there are: nothing if memory is refused for it.
fn note_counts(alloc: Global, lines: &[Line], notes: &mut String) {
    if let Ok(said) = counts_of(alloc, lines) {
        *notes = said;
    }
}

/// The answer of these lines.
fn written<A: Book, B: Book>(
    alloc: Global,
    json: bool,
    a: &A,
    b: &B,
    lines: &[Line],
) -> Result<Answered, AllocError>
    ensures exit { IfOk result (λ x. x.exit ≡ Exit.No) }
    ensures text { IfOk result
        (λ x. AreTexts json (A.meaning a.now) (B.meaning b.now) lines.now (string_bytes x.text)) }
{
    let text = text_of(alloc, json, a, b, lines)?;
    Ok(Answered {
        text,
        exit: Exit::No,
        report: Report::Done,
    })
}

fn text_of<A: Book, B: Book>(
    alloc: Global,
    json: bool,
    a: &A,
    b: &B,
    lines: &[Line],
) -> Result<String, AllocError>
    ensures { IfOk result
        (λ text. AreTexts json (A.meaning a.now) (B.meaning b.now) lines.now (string_bytes text)) }
{
    let mut text = String::new(alloc);
    for line in lines {
        push(alloc, &mut text, json, a, b, line)?;
    }
    Ok(text)
}

/// The answer where nothing differs.
fn same(alloc: Global, json: bool) -> Result<Answered, AllocError>
    ensures exit { IfOk result (λ x. x.exit ≡ Exit.Yes) }
    ensures text { IfOk result (λ x. string_bytes x.text ≡ same_text json) }
{
    let text = String::from_str(alloc, same_line(json))?;
    Ok(Answered {
        text,
        exit: Exit::Yes,
        report: Report::Done,
    })
}

fn same_line(json: bool) -> &'static str
    ensures { result.now ≡ same_text json }
{
    if json {
        "{\"verdict\":\"same\"}\n"
    } else {
        "same\n"
    }
}
