//! The names of a table that its dictionaries don't have.

use crate::names::{Named, NamedSource, Vocabulary};
use crate::sides::{first_of, second_of};
use dia_compat::words_of;
use dia_explain_places::{InputTexts, NamedText, Note, line_from};
use dia_report::BothBooks;

/// The most names that are reported for a side.
const MOST: usize = 50;

/// A name of a pair that is unknown in the dictionary of its side, and its place.
#[derive(Clone, Copy)]
struct Stranger<'a> {
    named: Named,
    name: &'a str,
    at: usize,
}

/// How many names are unknown, and whether a reported one is like no other.
#[derive(Clone, Copy)]
struct Strangers {
    count: usize,
    is_odd: bool,
}

/// Adds the names of a table that its dictionaries don't have, and the hint about those that are like no other.
pub fn push_strangers(note: &mut Note, texts: &InputTexts<'_>, books: &BothBooks) {
    let table = &texts.table;
    let of_first = push_side_of(note, table, true, &first_of(texts, books));
    let of_second = push_side_of(note, table, false, &second_of(texts, books));
    if of_first || of_second {
        note.put_hint(
            "the first name of a pair is one of the first dictionary, the second one of the second; \
             `diacmd propose` writes a table",
        );
    }
}

/// Adds the unknown names of one side of a table. Returns whether one is like no other.
fn push_side_of(
    note: &mut Note,
    table: &NamedText<'_>,
    is_first: bool,
    dictionary: &NamedSource<'_>,
) -> bool {
    match Vocabulary::of(note.allocator(), dictionary) {
        Ok(known) => {
            let Strangers { count, is_odd } = push_side(note, table, is_first, &known);
            if count > MOST {
                note.put_all(&[dictionary.name, ": these are the first "]);
                note.put_number(MOST as u64);
                note.put(" names that it doesn't have, and there are ");
                note.put_number(count.saturating_sub(MOST) as u64);
                note.put(" more\n");
            }
            is_odd
        }
        Err(error) => {
            note.keep(Err(error));
            false
        }
    }
}

/// Adds the first of these names.
fn push_side(
    note: &mut Note,
    table: &NamedText<'_>,
    is_first: bool,
    known: &Vocabulary<'_>,
) -> Strangers {
    let mut begins = true;
    let mut strangers = Strangers {
        count: 0,
        is_odd: false,
    };
    for (at, byte) in table.text.iter().enumerate() {
        if begins {
            if let Some(stranger) = stranger_on_line(table.text, at, is_first, known) {
                strangers = push_next(note, table, known, &stranger, strangers);
            }
        }
        begins = *byte == b'\n';
    }
    strangers
}

/// Adds a name after others, if there aren't too many. Returns the new counts.
fn push_next(
    note: &mut Note,
    table: &NamedText<'_>,
    known: &Vocabulary<'_>,
    stranger: &Stranger<'_>,
    before: Strangers,
) -> Strangers {
    let count = before.count.saturating_add(1);
    if count > MOST {
        return Strangers { count, ..before };
    }
    let Stranger { named, name, at } = *stranger;
    let lacks = match named {
        Named::Command => " has no command ",
        Named::Avp => " has no AVP ",
    };
    let instead = match named {
        Named::Command => "an AVP there: write avp for command",
        Named::Avp => "a command there: write command for avp",
    };
    note.put_place(table.name, table.text, at);
    note.put_all(&[known.dictionary.name, lacks, name, "\n"]);
    let is_odd = !known.push_meant(note, named, name, instead) || before.is_odd;
    Strangers { count, is_odd }
}

/// The name of a side on the line that begins at a place, if it is unknown.
fn stranger_on_line<'a>(
    text: &'a [u8],
    start: usize,
    is_first: bool,
    known: &Vocabulary<'_>,
) -> Option<Stranger<'a>> {
    let words = words_of(line_from(text, start));
    let word = if is_first { words.first } else { words.second };
    let name = str::from_utf8(word.text).ok()?;
    let named = if words.kind.text == b"command".as_slice() {
        Named::Command
    } else {
        Named::Avp
    };
    if words.kind.is_empty() || known.has(named, name) {
        return None;
    }
    let at = start.saturating_add(word.at);
    Some(Stranger { named, name, at })
}
