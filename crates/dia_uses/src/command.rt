//! The command, from its inputs to what is written.

ghost use Rattle.std.specs.Prelude.{◌≡◌, ◌↔◌, ℕ, List, Err, IfOk, IsTrue, map, string_bytes, true};
ghost use Rattle.std.specs.Io.KnownBytes.{Appends};
ghost use Rattle.dia_io.specs.declared.Exit.{Exit as AnyExit};
ghost use Rattle.dia_io.specs.Writing.{AppendsFront};
ghost use Rattle.dia_run.specs.Texts.{IsDictionaryText};
ghost use Rattle.dia_places.specs.Records.{paths_of};
ghost use Rattle.dia_uses.specs.Ended.{IsEnded, IsListed};
ghost use Rattle.dia_uses.specs.Kinds.{AreWithin};
ghost use Rattle.dia_uses.specs.Outcome.{IsUsesOutcome, IsUsesText, all_lines};
ghost use Rattle.dia_uses.specs.Outcome.{nowhere_text, unknown_text};

use crate::notes::{Tally, notes_of};
use crate::writing::push_lines;
use dia_book::Book;
use dia_explain_places::unknown_avp;
use dia_io::{Exit, Inputs, RunFault, Sink, put_all};
use dia_places::{Reached, all_reached, asked};
use dia_refused_json::{quoted, refuse_as};
use dia_report::{Answered, Refused, Report, Reported};
use dia_run::read_dictionary;
use dia_wire::Key;
use std::alloc::{AllocError, Global};

/// Writes a line for each definition in which messages of the first dictionary's commands may hold the AVPs, for each AVP in the
/// order of the words: first those with a rule for it, then those that let it in by a wildcard. Without any line it writes
/// `no place`, and ends with `No`.
///
/// A word is a name, or `CODE`, `CODE:VENDOR` or `CODE/VENDOR`. What is written is made first, and then written in whatever
/// pieces the sink takes. `notes` gets what standard error is to say: nothing if memory is refused for it.
pub fn write_uses<S: Sink>(
    alloc: Global,
    json: bool,
    avps: &[String],
    inputs: &Inputs,
    notes: &mut String,
    sink: &mut S,
) -> Result<Reported, RunFault>
    requires { ¬ IsTrue (S.has_failed sink.old) }
    ensures text { IfOk result (λ reported. (text : List ℕ)
        × IsUsesOutcome json (map (λ avp. string_bytes avp) avps.now) inputs.now text reported.exit
        × Appends (S.written sink.old) (S.written sink.new) text) }
    ensures device { (result ≡ Err RunFault.Device) ↔ IsTrue (S.has_failed sink.new) }
    ensures front { result ≡ Err RunFault.Device
        → (text : List ℕ) × (exit : AnyExit)
        × IsUsesOutcome json (map (λ avp. string_bytes avp) avps.now) inputs.now text exit
        × AppendsFront (S.written sink.old) (S.written sink.new) text }
    ensures no_memory { result ≡ Err RunFault.NoMemory → S.written sink.new ≡ S.written sink.old }
{
    let Answered { text, exit, report } = text_for(alloc, json, avps, inputs, notes)?;
    put_all(sink, text.as_bytes())?;
    Ok(Reported { exit, report })
}

/// What is written for the inputs, and how the command ends.
fn text_for(
    alloc: Global,
    json: bool,
    avps: &[String],
    inputs: &Inputs,
    notes: &mut String,
) -> Result<Answered, AllocError>
    ensures { IfOk result (λ a. IsUsesOutcome
        json (map (λ avp. string_bytes avp) avps.now) inputs.now (string_bytes a.text) a.exit) }
{
    match read_dictionary(alloc, 1, &inputs.first) {
        Ok(first) => text_by(alloc, &first.book, json, avps, inputs, notes),
        Err(Refused::Bad(bad)) => refuse_as(alloc, json, &inputs.first, bad),
        Err(Refused::NoMemory) => Err(AllocError),
    }
}

/// The same by the dictionary that was read.
fn text_by<B: Book>(
    alloc: Global,
    book: &B,
    json: bool,
    avps: &[String],
    inputs: &Inputs,
    notes: &mut String,
) -> Result<Answered, AllocError>
    requires { IsDictionaryText inputs.now.first (B.meaning book.now) }
    ensures { IfOk result (λ a. IsUsesOutcome
        json (map (λ avp. string_bytes avp) avps.now) inputs.now (string_bytes a.text) a.exit) }
{
    answer(alloc, book, json, avps, notes)
}

/// The answer by a dictionary.
fn answer<B: Book>(
    alloc: Global,
    book: &B,
    json: bool,
    avps: &[String],
    notes: &mut String,
) -> Result<Answered, AllocError>
    ensures { IfOk result (λ a. IsUsesText json (B.meaning book.now)
        (map (λ avp. string_bytes avp) avps.now) a.exit (string_bytes a.text)) }
{
    match asked(alloc, book, avps)? {
        Ok(keys) => uses(alloc, book, json, &keys, notes),
        Err(word) => {
            note_unknown(alloc, book, word, notes);
            unknown(alloc, json, word)
        }
    }
}

/// Says on standard error what is meant by the word, if there is memory for it.
fn note_unknown<B: Book>(alloc: Global, book: &B, word: &str, notes: &mut String) {
    if let Ok(said) = unknown_avp(alloc, book, word) {
        *notes = said;
    }
}

/// The lines of the AVPs.
fn uses<B: Book>(
    alloc: Global,
    book: &B,
    json: bool,
    keys: &[Key],
    notes: &mut String,
) -> Result<Answered, AllocError>
    ensures { IfOk result (λ a. IsListed json (B.meaning book.now) keys.now a.exit (string_bytes a.text)) }
{
    let reached = all_reached(alloc, book)?;
    let mut tallies = Vec::new(alloc);
    let text = lines(alloc, book, json, keys, &reached, &mut tallies)?;
    if let Ok(said) = notes_of(alloc, book, &tallies) {
        *notes = said;
    }
    ended(alloc, json, text)
}

/// The lines, with how many there are of each AVP.
fn lines<B: Book>(
    alloc: Global,
    book: &B,
    json: bool,
    keys: &[Key],
    reached: &[Reached],
    tallies: &mut Vec<Tally>,
) -> Result<String, AllocError>
    requires { AreWithin (B.meaning book.now) reached.now }
    ensures { IfOk result (λ text. string_bytes text
        ≡ all_lines json (B.meaning book.now) (paths_of reached.now) keys.now) }
{
    let mut text = String::new(alloc);
    for key in keys {
        let counts = push_lines(alloc, &mut text, json, book, reached, *key)?;
        tallies.push(Tally { key: *key, counts })?;
    }
    Ok(text)
}

/// The answer of these lines.
fn ended(alloc: Global, json: bool, lines: String) -> Result<Answered, AllocError>
    ensures { IfOk result (λ a. IsEnded json (string_bytes lines) a.exit (string_bytes a.text)) }
{
    if lines.as_str().len() > 0 {
        Ok(Answered {
            text: lines,
            exit: Exit::Yes,
            report: Report::Done,
        })
    } else {
        nowhere(alloc, json)
    }
}

/// The answer where there is no line.
fn nowhere(alloc: Global, json: bool) -> Result<Answered, AllocError>
    ensures text { IfOk result (λ a. string_bytes a.text ≡ nowhere_text json) }
    ensures exit { IfOk result (λ a. a.exit ≡ Exit.No) }
{
    let text = String::from_str(alloc, nowhere_line(json))?;
    Ok(Answered {
        text,
        exit: Exit::No,
        report: Report::Done,
    })
}

fn nowhere_line(json: bool) -> &'static str
    ensures { result.now ≡ nowhere_text json }
{
    if json {
        "{\"verdict\":\"no place\"}\n"
    } else {
        "no place\n"
    }
}

/// The answer where a word names no AVP.
fn unknown(alloc: Global, json: bool, word: &str) -> Result<Answered, AllocError>
    ensures text { IfOk result (λ a. string_bytes a.text ≡ unknown_text json word.now) }
    ensures exit { IfOk result (λ a. a.exit ≡ Exit.Bad) }
{
    let text = unknown_line(alloc, json, word)?;
    Ok(Answered {
        text,
        exit: Exit::Bad,
        report: Report::Done,
    })
}

fn unknown_line(alloc: Global, json: bool, word: &str) -> Result<String, AllocError>
    ensures { IfOk result (λ text. string_bytes text ≡ unknown_text json word.now) }
{
    if json {
        unknown_object(alloc, word)
    } else {
        format!(in alloc; "uses: no AVP {word}\n")
    }
}

fn unknown_object(alloc: Global, word: &str) -> Result<String, AllocError>
    ensures { IfOk result (λ text. string_bytes text ≡ unknown_text true word.now) }
{
    let name = quoted(alloc, word)?;
    let mut text = String::from_str(alloc, "{\"error\":\"uses\",\"kind\":\"no AVP\",\"name\":")?;
    text.push_str(name.as_str())?;
    text.push_str("}\n")?;
    Ok(text)
}
