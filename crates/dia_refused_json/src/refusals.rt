//! Inputs that are refused, as JSON.

ghost use Rattle.std.specs.Prelude.{◌≡◌, IfOk, codes, string_bytes};
ghost use Rattle.serde_json.specs.Data.{no_members};
ghost use Rattle.serde_json.specs.Written.{compact_text};
ghost use Rattle.dia_refused_json.specs.Members.{json_line, refused_members};
ghost use Rattle.dia_refused_json.specs.Refusals.{at_place, bad_input_json, dictionary_members, expecting, message_members};
ghost use Rattle.dia_refused_json.specs.Refusals.{misfit_members, name_value, on_line, stranger_at, table_members, text_of};
ghost use Rattle.dia_refused_json.specs.Refusals.{wrong_members};

use crate::strings::{quoted, quoted_array};
use dia_ccf::{CcfFault, Misfit, Wanted};
use dia_explain_places::{expected, limit_word, place_of, syntax_word};
use dia_io::Input;
use dia_report::{BadDictionary, BadInput, BadMessage, BadTable, WrongSource, fault_word};
use dia_terms::is_white;
use std::alloc::{AllocError, Global};

/// The line of an input that is refused for this.
pub fn bad_input_line(alloc: Global, input: &Input, bad: &BadInput) -> Result<String, AllocError>
    ensures { IfOk result (λ text. string_bytes text ≡ bad_input_json input.now bad.now) }
{
    let spelt = text_of(input);
    match bad {
        BadInput::Dictionary { number, why } => {
            let name = format!(in alloc; "dictionary {number}")?;
            dictionary_line(alloc, &name, spelt, why)
        }
        BadInput::Table(why) => table_line(alloc, spelt, why),
        BadInput::Message(why) => message_line(alloc, spelt, why),
    }
}

/// The text of an input. One that is too long has none.
pub fn text_of(input: &Input) -> &[u8]
    ensures { result.now ≡ text_of input.entry.now }
{
    match input {
        Input::Bytes(bytes) => bytes.as_slice(),
        Input::TooLong => b"".as_slice(),
    }
}

fn dictionary_line(
    alloc: Global,
    input: &str,
    spelt: &[u8],
    why: &BadDictionary,
) -> Result<String, AllocError>
    ensures { IfOk result (λ text. string_bytes text
        ≡ json_line (dictionary_members input.now spelt.now why.now)) }
{
    match why {
        BadDictionary::TooLong => refused_line(alloc, input, "too long"),
        BadDictionary::NotText { at } => refused_at(alloc, input, "not text", spelt, *at),
        BadDictionary::NoSource(misfit) => misfit_line(alloc, input, spelt, misfit),
        BadDictionary::Wrong(wrong) => wrong_line(alloc, input, wrong),
    }
}

fn misfit_line(
    alloc: Global,
    input: &str,
    spelt: &[u8],
    misfit: &Misfit,
) -> Result<String, AllocError>
    ensures { IfOk result (λ text. string_bytes text ≡ json_line
        (misfit_members input.now spelt.now misfit.now.at misfit.now.wanted misfit.now.fault)) }
{
    let at = misfit.at;
    match misfit.fault {
        CcfFault::Syntax { line, .. } => {
            expecting_line(alloc, input, line as usize, spelt, at, misfit.wanted)
        }
        CcfFault::Number { line } => refused_on(alloc, input, "number", line as usize, spelt, at),
        CcfFault::Limit { line } => refused_on(alloc, input, "limit", line as usize, spelt, at),
        CcfFault::NoMemory => refused_line(alloc, input, "no memory"),
    }
}

/// The line of a text that the grammar refuses at a place, on this line, where other words were expected.
fn expecting_line(
    alloc: Global,
    input: &str,
    line: usize,
    spelt: &[u8],
    at: usize,
    wanted: Wanted,
) -> Result<String, AllocError>
    ensures { IfOk result (λ text. string_bytes text
        ≡ json_line (refused_members input.now (codes "syntax") (expecting line spelt.now at wanted))) }
{
    let column = place_of(spelt, at).column;
    let input = quoted(alloc, input)?;
    let items = quoted_array(alloc, expected(wanted))?;
    format!(in alloc;
        "{{\"error\":{input},\"kind\":\"syntax\",\"line\":{line},\"column\":{column},\"expected\":{items}}}\n"
    )
}

fn table_line(alloc: Global, spelt: &[u8], why: &BadTable) -> Result<String, AllocError>
    ensures { IfOk result (λ text. string_bytes text ≡ json_line (table_members spelt.now why.now)) }
{
    match why {
        BadTable::TooLong => refused_line(alloc, "table", "too long"),
        BadTable::NotText { at } => refused_at(alloc, "table", "not text", spelt, *at),
        BadTable::Syntax { line } => {
            let at = syntax_word(spelt, *line).at;
            refused_on(alloc, "table", "syntax", *line as usize, spelt, at)
        }
        BadTable::Limit { line } => {
            let at = limit_word(spelt, *line).at;
            refused_on(alloc, "table", "limit", *line as usize, spelt, at)
        }
    }
}

fn message_line(alloc: Global, spelt: &[u8], why: &BadMessage) -> Result<String, AllocError>
    ensures { IfOk result (λ text. string_bytes text ≡ json_line (message_members spelt.now why.now)) }
{
    match why {
        BadMessage::TooLong => refused_line(alloc, "message", "too long"),
        BadMessage::NotHexadecimal => match stranger_at(spelt) {
            Some(at) => refused_at(alloc, "message", "not hexadecimal", spelt, at),
            None => refused_line(alloc, "message", "not hexadecimal"),
        },
        BadMessage::NoMessage(fault) => refused_line(alloc, "message", fault_word(*fault)),
    }
}

/// The place of the first byte of a text that is neither a digit nor white space.
fn stranger_at(spelt: &[u8]) -> Option<usize>
    ensures { result ≡ stranger_at spelt.now }
{
    spelt
        .iter()
        .position(|byte| !byte.is_ascii_hexdigit() && !is_white(*byte))
}

/// The line of a source that names no dictionary: the kind of its first fault, and where it is.
fn wrong_line(alloc: Global, input: &str, wrong: &WrongSource) -> Result<String, AllocError>
    ensures { IfOk result (λ text. string_bytes text ≡ json_line (wrong_members input.now wrong.now)) }
{
    let kind = wrong.kind;
    let input = quoted(alloc, input)?;
    let name = name_or_null(alloc, &wrong.name)?;
    let slot = name_or_null(alloc, &wrong.slot)?;
    format!(in alloc; "{{\"error\":{input},\"kind\":\"{kind}\",\"name\":{name},\"slot\":{slot}}}\n")
}

/// The line of an input that is refused for this.
fn refused_line(alloc: Global, input: &str, kind: &str) -> Result<String, AllocError>
    ensures { IfOk result (λ text. string_bytes text
        ≡ json_line (refused_members input.now kind.now no_members)) }
{
    let input = quoted(alloc, input)?;
    let kind = quoted(alloc, kind)?;
    format!(in alloc; "{{\"error\":{input},\"kind\":{kind}}}\n")
}

/// The line of an input that is refused for what is at a place of its text.
fn refused_at(
    alloc: Global,
    input: &str,
    kind: &str,
    spelt: &[u8],
    at: usize,
) -> Result<String, AllocError>
    ensures { IfOk result (λ text. string_bytes text
        ≡ json_line (refused_members input.now kind.now (at_place spelt.now at))) }
{
    let line = place_of(spelt, at).line;
    refused_on(alloc, input, kind, line, spelt, at)
}

/// The line of an input that is refused for what is at a place of its text, on this line.
fn refused_on(
    alloc: Global,
    input: &str,
    kind: &str,
    line: usize,
    spelt: &[u8],
    at: usize,
) -> Result<String, AllocError>
    ensures { IfOk result (λ text. string_bytes text
        ≡ json_line (refused_members input.now kind.now (on_line line spelt.now at))) }
{
    let column = place_of(spelt, at).column;
    let input = quoted(alloc, input)?;
    let kind = quoted(alloc, kind)?;
    format!(in alloc; "{{\"error\":{input},\"kind\":{kind},\"line\":{line},\"column\":{column}}}\n")
}

/// A name as a string, and `null` where there is none.
fn name_or_null(alloc: Global, name: &str) -> Result<String, AllocError>
    ensures { IfOk result (λ text. string_bytes text ≡ compact_text (name_value name.now)) }
{
    if name.is_empty() {
        String::from_str(alloc, "null")
    } else {
        quoted(alloc, name)
    }
}
