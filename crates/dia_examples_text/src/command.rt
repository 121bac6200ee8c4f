//! The command, from its inputs to what is written.

ghost use Rattle.std.specs.Prelude.{◌≡◌, ◌≢◌, ◌↔◌, Err, IfErr, IfOk, IsTrue, None, Some, string_bytes};
ghost use Rattle.std.specs.Io.KnownBytes.{Appends};
ghost use Rattle.dia_examples_text.specs.Outcome.{Begun, IsExamplesOutcome, IsExamplesText, Puts};
ghost use Rattle.dia_examples_text.specs.Outcome.{no_command_text, refused_text};
ghost use Rattle.dia_io.specs.Writing.{AppendsFront};
ghost use Rattle.dia_terms.specs.declared.Unknown.{Unknown as AnyPolicy};
ghost use Rattle.dia_report.specs.Refusals.{bad_input_text};
ghost use Rattle.dia_run.specs.RefusedDictionaries.{RefusesFirst};
ghost use Rattle.dia_run.specs.Texts.{IsDictionaryText};

use crate::forms::Form;
use crate::lines::Writing;
use crate::naming::places_of;
use crate::tally::Tally;
use dia_dict::Book;
use dia_explain_places::unknown_command;
use dia_io::{Exit, Input, Inputs, RunFault, Sink, put_all};
use dia_refused_json::{bad_input_line, quoted};
use dia_report::{BadInput, Refused, Report, Reported};
use dia_run::read_dictionary;
use dia_terms::Unknown;
use std::alloc::{AllocError, Global};

/// Writes test vectors of the commands of these names, or of all where there is no name, by the first dictionary.
///
/// Each is written as it is made. What standard error is to say is added to `notes`; if memory is refused for that alone, they
/// get nothing. The exit is `Yes` where each command has vectors, `No` where one has none, and `Bad` where the dictionary is
/// refused, has no commands, or has none of a name.
pub fn write_examples<S: Sink>(
    alloc: Global,
    unknown: Unknown,
    form: Form,
    commands: &[String],
    inputs: &Inputs,
    notes: &mut String,
    sink: &mut S,
) -> Result<Reported, RunFault>
    requires { ¬ IsTrue (S.has_failed sink.old) }
    ensures device { (result ≡ Err RunFault.Device) ↔ IsTrue (S.has_failed sink.new) }
    ensures answered { IfOk result (λ reported. Puts (IsExamplesOutcome form unknown inputs.now)
        (S.written sink.old) (S.written sink.new) reported.exit) }
    ensures begun { IfErr result (λ fault. Begun (IsExamplesOutcome form unknown inputs.now) (S.written sink.old) (S.written sink.new)) }
{
    match read_dictionary(alloc, 1, &inputs.first) {
        Ok(first) => by_book(
            alloc,
            &first.book,
            unknown,
            form,
            commands,
            inputs,
            notes,
            sink,
        ),
        Err(Refused::Bad(bad)) => refused(alloc, form, inputs, bad, sink),
        Err(Refused::NoMemory) => Err(RunFault::NoMemory),
    }
}

/// The same by the dictionary that was read.
fn by_book<B: Book, S: Sink>(
    alloc: Global,
    book: &B,
    unknown: Unknown,
    form: Form,
    commands: &[String],
    inputs: &Inputs,
    notes: &mut String,
    sink: &mut S,
) -> Result<Reported, RunFault>
    requires sound { ¬ IsTrue (S.has_failed sink.old) }
    requires is { IsDictionaryText inputs.now.first (B.meaning book.now) }
    ensures device { (result ≡ Err RunFault.Device) ↔ IsTrue (S.has_failed sink.new) }
    ensures answered { IfOk result (λ reported. Puts (IsExamplesOutcome form unknown inputs.now)
        (S.written sink.old) (S.written sink.new) reported.exit) }
    ensures begun { IfErr result (λ fault. Begun (IsExamplesOutcome form unknown inputs.now) (S.written sink.old) (S.written sink.new)) }
{
    examples_of(alloc, book, unknown, form, commands, notes, sink)
}

/// Writes test vectors by a dictionary.
pub fn examples_of<B: Book, S: Sink>(
    alloc: Global,
    book: &B,
    unknown: Unknown,
    form: Form,
    commands: &[String],
    notes: &mut String,
    sink: &mut S,
) -> Result<Reported, RunFault>
    requires { ¬ IsTrue (S.has_failed sink.old) }
    ensures device { (result ≡ Err RunFault.Device) ↔ IsTrue (S.has_failed sink.new) }
    ensures answered { IfOk result (λ reported. Puts (IsExamplesText form unknown (B.meaning book.now))
        (S.written sink.old) (S.written sink.new) reported.exit) }
    ensures begun { IfErr result (λ fault. Begun (IsExamplesText form unknown (B.meaning book.now)) (S.written sink.old) (S.written sink.new)) }
{
    if book.commands() == 0 {
        return refuse(no_commands_text(form), sink);
    }
    match places_of(alloc, book, commands)? {
        Ok(places) => put_vectors(alloc, book, unknown, form, &places, notes, sink),
        Err(name) => {
            if let Ok(said) = unknown_command(alloc, book, name) {
                *notes = said;
            }
            let text = no_command_text(alloc, form, name)?;
            refuse(text.as_str(), sink)
        }
    }
}

/// Writes the vectors of the commands at these places.
fn put_vectors<B: Book, S: Sink>(
    alloc: Global,
    book: &B,
    unknown: Unknown,
    form: Form,
    places: &[usize],
    notes: &mut String,
    sink: &mut S,
) -> Result<Reported, RunFault>
    requires { ¬ IsTrue (S.has_failed sink.old) }
    ensures device { (result ≡ Err RunFault.Device) ↔ IsTrue (S.has_failed sink.new) }
    ensures answered { IfOk result (λ reported. Puts (IsExamplesText form unknown (B.meaning book.now))
        (S.written sink.old) (S.written sink.new) reported.exit) }
    ensures begun { IfErr result (λ fault. Begun (IsExamplesText form unknown (B.meaning book.now)) (S.written sink.old) (S.written sink.new)) }
{
    let writing = Writing {
        book,
        unknown,
        form,
    };
    let tally = writing.put_commands(alloc, places, sink)?;
    Ok(ended(alloc, &tally, notes))
}

/// How the command ends that has written all vectors.
fn ended(alloc: Global, tally: &Tally, notes: &mut String) -> Reported
    ensures { result.exit ≢ Exit.Bad }
{
    add_notes(alloc, tally, notes);
    Reported {
        exit: if tally.empty == 0 {
            Exit::Yes
        } else {
            Exit::No
        },
        report: Report::Done,
    }
}

/// Adds what was written, in words; nothing where memory is refused.
fn add_notes(alloc: Global, tally: &Tally, notes: &mut String) {
    if let Ok(text) = tally.text(alloc) {
        if notes.push_str(&text).is_err() {
            notes.clear();
        }
    }
}

/// Writes the line of a dictionary that is refused.
fn refused<S: Sink>(
    alloc: Global,
    form: Form,
    inputs: &Inputs,
    bad: BadInput,
    sink: &mut S,
) -> Result<Reported, RunFault>
    requires sound { ¬ IsTrue (S.has_failed sink.old) }
    requires bad { RefusesFirst inputs.now (bad_input_text bad) }
    ensures device { (result ≡ Err RunFault.Device) ↔ IsTrue (S.has_failed sink.new) }
    ensures answered { (unknown : AnyPolicy) → IfOk result (λ reported. Puts (IsExamplesOutcome form unknown inputs.now)
        (S.written sink.old) (S.written sink.new) reported.exit) }
    ensures begun { (unknown : AnyPolicy) → IfErr result (λ fault. Begun (IsExamplesOutcome form unknown inputs.now)
        (S.written sink.old) (S.written sink.new)) }
{
    let text = refused_line(alloc, form, &inputs.first, &bad)?;
    put_all(sink, text.as_bytes())?;
    Ok(Reported {
        exit: Exit::Bad,
        report: Report::Refused(bad),
    })
}

fn refused_line(
    alloc: Global,
    form: Form,
    input: &Input,
    bad: &BadInput,
) -> Result<String, AllocError>
    ensures { IfOk result (λ text. string_bytes text ≡ refused_text form input.now bad.now) }
{
    match form {
        Form::Columns | Form::Text => format!(in alloc; "{bad}\n"),
        Form::Json => bad_input_line(alloc, input, bad),
    }
}

/// Writes why there are no vectors.
fn refuse<S: Sink>(text: &str, sink: &mut S) -> Result<Reported, RunFault>
    requires { ¬ IsTrue (S.has_failed sink.old) }
    ensures device { (result ≡ Err RunFault.Device) ↔ IsTrue (S.has_failed sink.new) }
    ensures put { IfOk result (λ reported.
        (reported.exit ≡ Exit.Bad) × Appends (S.written sink.old) (S.written sink.new) text.now) }
    ensures begun { AppendsFront (S.written sink.old) (S.written sink.new) text.now }
{
    put_all(sink, text.as_bytes())?;
    Ok(Reported {
        exit: Exit::Bad,
        report: Report::Done,
    })
}

fn no_commands_text(form: Form) -> &'static str
    ensures { result.now ≡ no_command_text form None }
{
    match form {
        Form::Columns | Form::Text => "examples: no command\n",
        Form::Json => "{\"error\":\"examples\",\"kind\":\"no command\"}\n",
    }
}

fn no_command_text(alloc: Global, form: Form, name: &str) -> Result<String, AllocError>
    ensures { IfOk result (λ text. string_bytes text ≡ no_command_text form (Some name.now)) }
{
    match form {
        Form::Columns | Form::Text => format!(in alloc; "examples: no command {name}\n"),
        Form::Json => no_command_object(alloc, name),
    }
}

fn no_command_object(alloc: Global, name: &str) -> Result<String, AllocError>
    ensures { IfOk result (λ text. string_bytes text ≡ no_command_text Form.Json (Some name.now)) }
{
    let name = quoted(alloc, name)?;
    let mut text = String::from_str(
        alloc,
        "{\"error\":\"examples\",\"kind\":\"no command\",\"name\":",
    )?;
    text.push_str(name.as_str())?;
    text.push_str("}\n")?;
    Ok(text)
}
