//! How much breaks where the first side sends less.

use dia_explain_places::Note;
use dia_io::Inputs;
use dia_report::BothBooks;
use dia_terms::Sends;
use dia_upgrades::{Asked, Stale, lines_left};

/// Up to this product of commands and AVPs it is counted what breaks where less is sent, which takes as long as the answer.
const MOST_COUNTED: usize = 1_000_000;

/// Adds how much breaks where the first side sends less, if that isn't too long to count.
pub fn push_less(note: &mut Note, asked: Asked<'_>, inputs: &Inputs, books: &BothBooks) {
    let source = &books.first.source;
    let commands = if asked.names.is_empty() {
        source.commands.len()
    } else {
        asked.names.len()
    };
    let avps = source.avps.len().saturating_add(source.groups.len());
    if commands.saturating_mul(avps) > MOST_COUNTED {
        return;
    }
    match asked.sends {
        Sends::Any => {
            push_left(note, Sends::Listed, "listed", asked, inputs, books);
            push_left(note, Sends::Known, "known", asked, inputs, books);
        }
        Sends::Known | Sends::Filled => {
            push_left(note, Sends::Listed, "listed", asked, inputs, books);
        }
        Sends::Listed => {}
    }
}

/// Adds how many lines are left where the first side sends this. `word` is the option's.
fn push_left(
    note: &mut Note,
    sends: Sends,
    word: &str,
    asked: Asked<'_>,
    inputs: &Inputs,
    books: &BothBooks,
) {
    let messages = false;
    let asked = Asked {
        sends,
        messages,
        stale: Stale::Ignored,
        ..asked
    };
    match lines_left(note.allocator(), asked, &inputs.table, books) {
        Ok(Some(lines)) => {
            note.put_all(&["with --sends ", word, ": "]);
            note.put_number(lines as u64);
            note.put(if lines == 1 { " line\n" } else { " lines\n" });
        }
        Ok(None) => {}
        Err(error) => note.keep(Err(error)),
    }
}
