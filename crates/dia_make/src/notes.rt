//! Notes: the reports on standard error of a text that is refused, and of a message that has no text.

use crate::notes::dated::push_date;
use crate::notes::meant::{Meant, byte_of, in_other_quotes, meant_of};
use crate::notes::names::NamesOf;
use crate::notes::others::is_of_dictionary;
use crate::notes::shown::is_shown;
use crate::notes::valued::{given_place, number_at, push_number, push_word};
use crate::notes::wanted::words_of;
use crate::notes::word::{end_of_words, word_at};
use crate::numbered::numbered;
use crate::reporting::{BadText, RefusedText, Report};
use crate::tables::{Tables, read_tables};
use dia_data::{Format, push_hex_byte, push_value};
use dia_dict::{IndexedBook, base_text};
use dia_explain_places::{Note, line_from, start_of_line};
use dia_io::{Input, Inputs};
use dia_terms::MAX_MESSAGE_TEXT;
use dia_text::{Fault, Faults, all_faults};
use std::alloc::{AllocError, Global};

mod dated;
mod hints;
mod meant;
mod names;
mod others;
mod shown;
mod valued;
mod wanted;
mod word;

/// How many bytes of a word are shown.
const SHOWN: usize = 60;

/// The report of a message that has no text.
const NO_AVP: &str =
    ": no AVP begins here, so the message has no text: fewer than 8 bytes are left, or the AVP Length is under 8 \
     (12 with a Vendor-ID), or leads past the end of the message; `diacmd show` lists the AVPs before it\n";

/// The note of a report. `name` is that of the input that holds the text or the message. It is empty where there is nothing
/// to report, and for a dictionary, hexadecimal text or words of values that are refused, which other crates explain.
pub fn note(
    alloc: Global,
    name: &str,
    inputs: &Inputs,
    report: &Report,
) -> Result<String, AllocError> {
    let mut note = Note::new(alloc);
    match report {
        Report::Done | Report::Refused(_) | Report::NoValues(_) => {}
        Report::Text(refused) => push_refused(&mut note, name, inputs, refused),
        Report::Cut { place } => {
            note.put_all(&[name, ": byte "]);
            note.put_number(*place as u64);
            note.put(NO_AVP);
        }
    }
    note.finish()
}

/// A text that is refused.
#[derive(Clone, Copy)]
struct Refusal<'n, 'a, 'b, 't> {
    /// The name of its input.
    name: &'n str,
    text: &'a [u8],
    /// The words of values with which it was read.
    tables: Option<&'b Tables<'t>>,
}

/// Adds why a text is refused.
fn push_refused(note: &mut Note, name: &str, inputs: &Inputs, refused: &RefusedText) {
    match (&refused.why, inputs.message.within(MAX_MESSAGE_TEXT)) {
        (BadText::Fault(fault), Some(text)) => match tables_of(note.allocator(), inputs, refused) {
            Ok(tables) => {
                let refusal = Refusal {
                    name,
                    text,
                    tables: tables.as_ref(),
                };
                push_faults(note, &refusal, inputs, refused, fault);
            }
            Err(error) => note.keep(Err(error)),
        },
        _ => {
            note.put_all(&[name, ": the text has more than "]);
            note.put_number(MAX_MESSAGE_TEXT as u64);
            note.put(" bytes\n");
        }
    }
}

/// The words of values with which a text was read, if it was read with some.
fn tables_of<'i>(
    alloc: Global,
    inputs: &'i Inputs,
    refused: &RefusedText,
) -> Result<Option<Tables<'i>>, AllocError> {
    if refused.values {
        Ok(read_tables(alloc, &inputs.table)?.ok())
    } else {
        Ok(None)
    }
}

/// Adds the faults of a text, of which this is the first one.
fn push_faults(
    note: &mut Note,
    refusal: &Refusal<'_, '_, '_, '_>,
    inputs: &Inputs,
    refused: &RefusedText,
    fault: &Fault,
) {
    let book = &refused.first.book;
    let is_base = match &inputs.first {
        Input::Bytes(text) => text.as_slice() == base_text().as_bytes(),
        Input::TooLong => false,
    };
    push_fault(note, refusal, &NamesOf { book, is_base }, fault);
    let line = line_of(refusal.text, fault);
    if !(is_shown(line) || is_of_dictionary(line)) {
        match faults_of(note.allocator(), refusal, book) {
            Ok(faults) => push_others(note, refusal, book, &faults),
            Err(error) => note.keep(Err(error)),
        }
    }
}

/// All faults of a text, as it was read.
fn faults_of(
    alloc: Global,
    refusal: &Refusal<'_, '_, '_, '_>,
    book: &IndexedBook,
) -> Result<Faults, AllocError> {
    match refusal.tables {
        Some(tables) => {
            let text = numbered(alloc, tables, refusal.text)?;
            all_faults(alloc, book, text.as_slice())
        }
        None => all_faults(alloc, book, refusal.text),
    }
}

/// Adds the faults of a text but the first one. That the names are those of the base dictionary is a hint of the first one alone.
fn push_others(
    note: &mut Note,
    refusal: &Refusal<'_, '_, '_, '_>,
    book: &IndexedBook,
    faults: &Faults,
) {
    let names = NamesOf {
        book,
        is_base: false,
    };
    for fault in faults.first.iter().skip(1) {
        push_fault(note, refusal, &names, fault);
    }
    push_more(note, refusal.name, faults);
}

/// Adds how many faults weren't reported.
fn push_more(note: &mut Note, name: &str, faults: &Faults) {
    let shown = faults.first.len();
    let more = faults.count.saturating_sub(shown);
    if more > 0 {
        note.put_all(&[name, ": these are the first "]);
        note.put_number(shown as u64);
        note.put(" faults, and there are ");
        note.put_number(more as u64);
        note.put(" more\n");
    }
}

/// The line of a fault.
fn line_of<'a>(text: &'a [u8], fault: &Fault) -> &'a [u8] {
    line_from(text, start_of_fault(text, fault))
}

/// The place of the line of a fault.
fn start_of_fault(text: &[u8], fault: &Fault) -> usize {
    start_of_line(text, u32::try_from(fault.line).unwrap_or(u32::MAX))
}

/// The place of a fault in a text.
fn place_of(
    alloc: Global,
    refusal: &Refusal<'_, '_, '_, '_>,
    fault: &Fault,
) -> Result<usize, AllocError> {
    let text = refusal.text;
    let start = start_of_fault(text, fault);
    let Some(at) = fault.at else {
        return Ok(end_of_words(text, start));
    };
    let at = match refusal.tables {
        Some(tables) => given_place(alloc, tables, line_of(text, fault), at)?,
        None => at,
    };
    Ok(start.saturating_add(at))
}

/// Adds a fault at its place.
fn push_fault(
    note: &mut Note,
    refusal: &Refusal<'_, '_, '_, '_>,
    names: &NamesOf<'_>,
    fault: &Fault,
) {
    match place_of(note.allocator(), refusal, fault) {
        Ok(at) => push_fault_at(note, refusal, names, fault, at),
        Err(error) => note.keep(Err(error)),
    }
}

/// Adds the place of a fault, the word there and what could be in its place, and what may be meant. `names` are those of the
/// dictionary by which the text was read.
fn push_fault_at(
    note: &mut Note,
    refusal: &Refusal<'_, '_, '_, '_>,
    names: &NamesOf<'_>,
    fault: &Fault,
    at: usize,
) {
    let text = refusal.text;
    let word = word_at(text, at);
    note.put_place(refusal.name, text, at);
    if word.is_empty() {
        note.put("no word is left here");
    } else {
        note.put("found \"");
        note.put_shown(word.get(..SHOWN).unwrap_or(word));
        note.put("\"");
    }
    note.put_all(&["; expected ", words_of(fault.wanted), "\n"]);
    note.put_excerpt(text, at);
    let start = start_of_fault(text, fault);
    let before = text.get(..start).unwrap_or(text);
    let line = line_of(text, fault);
    let column = at.saturating_sub(start);
    match number_at(note.allocator(), refusal.tables, line, column) {
        Ok(Some(number)) => push_number(note, word, number),
        Ok(None) => match meant_of(fault.wanted, word, line, before) {
            Meant::Word => push_word(note, refusal.tables, line, column, word),
            Meant::Date => push_date(note, names.book, line, column, word),
            meant => push_meant(note, names, word, meant),
        },
        Err(error) => note.keep(Err(error)),
    }
}

/// Adds what may be meant by a word, and what to do.
fn push_meant(note: &mut Note, names: &NamesOf<'_>, word: &[u8], meant: Meant) {
    // Nothing where the word is no UTF-8.
    let spelt = str::from_utf8(word).unwrap_or("");
    match meant {
        Meant::Nothing | Meant::Word | Meant::Date => {}
        Meant::Command => names.push_command(note, spelt),
        Meant::Avp => names.push_avp(note, spelt),
        Meant::Text => push_quoted(note, word, false),
        Meant::Address => push_quoted(note, word, true),
        Meant::Hint(hint) => note.put_hint(hint),
    }
}

/// Adds how a word is written as a text, without other quotes around it. An address is written as bytes, too.
fn push_quoted(note: &mut Note, word: &[u8], is_address: bool) {
    let word = in_other_quotes(word).unwrap_or(word);
    note.put("hint: a text is in double quotes");
    if word.len() <= SHOWN {
        note.put(", as ");
        note.put_made(quoted(note.allocator(), word));
    }
    if is_address {
        note.put("; the bytes of this address are x");
        note.put_made(address(note.allocator(), word));
    }
    note.put("\n");
}

fn quoted(alloc: Global, word: &[u8]) -> Result<String, AllocError> {
    let mut text = String::new(alloc);
    push_value(&mut text, &Format::Utf8String, word)?;
    Ok(text)
}

/// The bytes of an address of four numbers, in hexadecimal digits.
fn address(alloc: Global, word: &[u8]) -> Result<String, AllocError> {
    let mut digits = String::new(alloc);
    for part in word.split(|byte| *byte == b'.') {
        push_hex_byte(&mut digits, byte_of(part).unwrap_or(0))?;
    }
    Ok(digits)
}
