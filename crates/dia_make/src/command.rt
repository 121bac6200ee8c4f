//! The command, from its inputs to what is written.

ghost use Rattle.std.specs.Prelude.{◌≡◌, ◌↔◌, ℕ, List, IfOk, IfErr, Err, IsTrue, string_bytes};
ghost use Rattle.std.specs.Io.KnownBytes.{Appends};
ghost use Rattle.dia_io.specs.declared.Exit.{Exit as AnyExit};
ghost use Rattle.dia_io.specs.Writing.{AppendsFront};
ghost use Rattle.dia_run.specs.Report.{IsReadFrom};
ghost use Rattle.dia_run.specs.Texts.{line};
ghost use Rattle.dia_show.specs.Words.{IsValuesText, Word};
ghost use Rattle.dia_make.specs.Numbered.{numbered};
ghost use Rattle.dia_make.specs.Outcome.{IsMade, IsMakeOutcome, IsValuedOutcome, text_line};
ghost use Rattle.dia_make.specs.Outcome.{Makes, MakesBy, MakesNone, MakesNoneBy};
ghost use Rattle.dia_make.specs.Reports.{IsRecorded, HasReport, IsReadBy};
ghost use Rattle.dia_make.specs.Tables.{AreTablesOf};

use crate::numbered::numbered;
use crate::refusing::{no_values, refuse};
use crate::reporting::{Answered, BadText, RefusedText, Report, Reported};
use crate::tables::{Tables, read_tables};
use dia_dict::{Book, IndexedBook};
use dia_io::{Exit, Input, Inputs, RunFault, Sink, put_all};
use dia_report::{ReadBook, Refused};
use dia_run::read_dictionary;
use dia_terms::MAX_MESSAGE_TEXT;
use dia_text::{NotMade, make_all};
use std::alloc::{AllocError, Global};

/// Writes the messages that a text makes with the first dictionary, a line of hexadecimal digits for each, or why it makes
/// none. The text is the message's input. With `values` it is read with the numbers of the words of values that the table's input
/// has.
///
/// What is written is made first, and then written in whatever pieces the sink takes.
pub fn make<S: Sink>(
    alloc: Global,
    values: bool,
    inputs: &Inputs,
    sink: &mut S,
) -> Result<Reported, RunFault>
    requires { ¬ IsTrue (S.has_failed sink.old) }
    ensures text { IfOk result (λ reported. (text : List ℕ) × IsMade values inputs.now text reported.exit
        × IsRecorded reported.report text reported.exit
        × Appends (S.written sink.old) (S.written sink.new) text) }
    // Of a text that is refused the report has the dictionary by which it was read.
    ensures read { IfOk result (λ reported. IsReadBy ⟦<IndexedBook as Book>⟧.meaning inputs.now reported.report) }
    ensures device { (result ≡ Err RunFault.Device) ↔ IsTrue (S.has_failed sink.new) }
    ensures front { result ≡ Err RunFault.Device
        → (text : List ℕ) × (exit : AnyExit) × IsMade values inputs.now text exit
        × AppendsFront (S.written sink.old) (S.written sink.new) text }
    ensures no_memory { result ≡ Err RunFault.NoMemory → S.written sink.new ≡ S.written sink.old }
{
    let Answered { text, exit, report } = answer(alloc, values, inputs)?;
    put_all(sink, text.as_bytes())?;
    Ok(Reported { exit, report })
}

/// The text for the inputs, how it ends, and what was found.
fn answer(alloc: Global, values: bool, inputs: &Inputs) -> Result<Answered, AllocError>
    ensures outcome { IfOk result
        (λ answered. IsMade values inputs.now (string_bytes answered.text) answered.exit) }
    ensures report { IfOk result HasReport }
    ensures read { IfOk result (λ answered. IsReadBy ⟦<IndexedBook as Book>⟧.meaning inputs.now answered.report) }
{
    match read_dictionary(alloc, 1, &inputs.first) {
        Ok(first) => answer_read(alloc, values, first, inputs),
        Err(Refused::Bad(bad)) => refuse(alloc, bad),
        Err(Refused::NoMemory) => Err(AllocError),
    }
}

/// The answer by the dictionary that was read, with words of values or without them.
fn answer_read(
    alloc: Global,
    values: bool,
    first: Box<ReadBook>,
    inputs: &Inputs,
) -> Result<Answered, AllocError>
    requires { IsReadFrom ⟦<IndexedBook as Book>⟧.meaning inputs.now.first first.value }
    ensures outcome { IfOk result
        (λ answered. IsMade values inputs.now (string_bytes answered.text) answered.exit) }
    ensures report { IfOk result HasReport }
    ensures read { IfOk result (λ answered. IsReadBy ⟦<IndexedBook as Book>⟧.meaning inputs.now answered.report) }
{
    if values {
        answer_with_values(alloc, first, inputs)
    } else {
        answer_by(alloc, first, inputs)
    }
}

/// The answer with the words of values that the table's input has, or why it has none.
fn answer_with_values(
    alloc: Global,
    first: Box<ReadBook>,
    inputs: &Inputs,
) -> Result<Answered, AllocError>
    requires { IsReadFrom ⟦<IndexedBook as Book>⟧.meaning inputs.now.first first.value }
    ensures outcome { IfOk result
        (λ answered. IsValuedOutcome inputs.now (string_bytes answered.text) answered.exit) }
    ensures report { IfOk result HasReport }
    ensures read { IfOk result (λ answered. IsReadBy ⟦<IndexedBook as Book>⟧.meaning inputs.now answered.report) }
{
    match read_tables(alloc, &inputs.table)? {
        Ok(tables) => answer_numbered(alloc, &tables, first, inputs),
        Err(bad) => no_values(alloc, bad),
    }
}

/// The answer with words of values.
fn answer_numbered(
    alloc: Global,
    tables: &Tables<'_>,
    first: Box<ReadBook>,
    inputs: &Inputs,
) -> Result<Answered, AllocError>
    requires read { IsReadFrom ⟦<IndexedBook as Book>⟧.meaning inputs.now.first first.value }
    requires words { (words : List Word) × IsValuesText inputs.now.table words × AreTablesOf tables.now words }
    ensures outcome { IfOk result
        (λ answered. IsValuedOutcome inputs.now (string_bytes answered.text) answered.exit) }
    ensures report { IfOk result HasReport }
    ensures read { IfOk result (λ answered. IsReadBy ⟦<IndexedBook as Book>⟧.meaning inputs.now answered.report) }
{
    match made_with(alloc, &first.book, tables, &inputs.message)? {
        Ok(text) => Ok(Answered {
            text,
            exit: Exit::Yes,
            report: Report::Done,
        }),
        Err(why) => deliver(
            alloc,
            RefusedText {
                first,
                values: true,
                why,
            },
        ),
    }
}

/// The answer by the dictionary that was read.
fn answer_by(alloc: Global, first: Box<ReadBook>, inputs: &Inputs) -> Result<Answered, AllocError>
    requires { IsReadFrom ⟦<IndexedBook as Book>⟧.meaning inputs.now.first first.value }
    ensures outcome { IfOk result
        (λ answered. IsMakeOutcome inputs.now (string_bytes answered.text) answered.exit) }
    ensures report { IfOk result HasReport }
    ensures read { IfOk result (λ answered. IsReadBy ⟦<IndexedBook as Book>⟧.meaning inputs.now answered.report) }
{
    match made(alloc, &first.book, &inputs.message)? {
        Ok(text) => Ok(Answered {
            text,
            exit: Exit::Yes,
            report: Report::Done,
        }),
        Err(why) => deliver(
            alloc,
            RefusedText {
                first,
                values: false,
                why,
            },
        ),
    }
}

/// The lines that the text of an input makes with a dictionary, or why it makes none.
fn made<B: Book>(
    alloc: Global,
    book: &B,
    input: &Input,
) -> Result<Result<String, BadText>, AllocError>
    ensures made { IfOk result (λ made. IfOk made (λ text. Makes (B.meaning book.now) input.now (string_bytes text))) }
    ensures none { IfOk result (λ made. IfErr made (MakesNone (B.meaning book.now) input.now)) }
{
    let Some(bytes) = input.within(MAX_MESSAGE_TEXT) else {
        return Ok(Err(BadText::TooLong));
    };
    match make_all(alloc, book, bytes) {
        Ok(text) => Ok(Ok(text)),
        Err(NotMade::Fault(fault)) => Ok(Err(BadText::Fault(fault))),
        Err(NotMade::NoMemory) => Err(AllocError),
    }
}

/// The same with the numbers of words of values in the text.
fn made_with<B: Book>(
    alloc: Global,
    book: &B,
    tables: &Tables<'_>,
    input: &Input,
) -> Result<Result<String, BadText>, AllocError>
    ensures made { IfOk result (λ made. (words : List Word) → AreTablesOf tables.now words
        → IfOk made (λ text. MakesBy (numbered words) (B.meaning book.now) input.now (string_bytes text))) }
    ensures none { IfOk result (λ made. (words : List Word) → AreTablesOf tables.now words
        → IfErr made (MakesNoneBy (numbered words) (B.meaning book.now) input.now)) }
{
    let Some(bytes) = input.within(MAX_MESSAGE_TEXT) else {
        return Ok(Err(BadText::TooLong));
    };
    let text = numbered(alloc, tables, bytes)?;
    match make_all(alloc, book, text.as_slice()) {
        Ok(text) => Ok(Ok(text)),
        Err(NotMade::Fault(fault)) => Ok(Err(BadText::Fault(fault))),
        Err(NotMade::NoMemory) => Err(AllocError),
    }
}

/// The answer of a text that is refused.
fn deliver(alloc: Global, refused: RefusedText) -> Result<Answered, AllocError>
    ensures text { IfOk result (λ answered. string_bytes answered.text ≡ line (text_line refused.why)) }
    ensures exit { IfOk result (λ answered. answered.exit ≡ Exit.Bad) }
    ensures report { IfOk result (λ answered. answered.report ≡ Report.Text refused) }
{
    let why = refused.why;
    let text = format!(in alloc; "text: {why}\n")?;
    let exit = Exit::Bad;
    let report = Report::Text(refused);
    Ok(Answered { text, exit, report })
}
