//! AVPs that no message has that is sent.

use dia_breaking::Upgrade;
use dia_dict::Book;
use dia_explain_places::Note;
use dia_report::BothBooks;
use dia_terms::{Sends, Unknown};
use dia_unsent::{Unsent, unsent_avps};
use dia_upgrades::Asked;
use std::alloc::{AllocError, Global};

/// The most AVPs that are named.
const MOST: usize = 20;

/// Adds how many AVPs of the first dictionary no message has that is sent, and which of them would break. Where none would, and
/// for `Filled`, nothing is added.
pub fn push_unsent(
    note: &mut Note,
    dictionary: &str,
    asked: Asked<'_>,
    books: &BothBooks,
) -> Result<(), AllocError> {
    let avps = unsent_of(note.allocator(), books, asked.sends, asked.unknown)?;
    let breaking = count_of(&avps);
    if breaking > 0 {
        push_counts(note, avps.len(), books.first.book.entries(), dictionary);
        push_sends(note, asked.sends);
        push_breaking(note, avps.len(), breaking);
        push_names(note, &avps, breaking);
    }
    Ok(())
}

/// The AVPs of the first dictionary that no message has that is sent; none for `Filled`.
fn unsent_of(
    alloc: Global,
    books: &BothBooks,
    sends: Sends,
    unknown: Unknown,
) -> Result<Vec<Unsent>, AllocError> {
    if sends == Sends::Filled {
        return Ok(Vec::new(alloc));
    }
    let upgrade = Upgrade::new(alloc, &books.first.book, &books.second.book, sends, unknown)?;
    unsent_avps(alloc, &upgrade)
}

/// How many of the AVPs would break.
fn count_of(avps: &[Unsent]) -> usize {
    let mut count = 0usize;
    for avp in avps {
        if avp.would_break {
            count = count.saturating_add(1);
        }
    }
    count
}

/// Adds how many AVPs aren't sent, of how many.
fn push_counts(note: &mut Note, unsent: usize, all: usize, dictionary: &str) {
    note.put_number(unsent as u64);
    note.put(" of ");
    note.put_number(all as u64);
    note.put(if all == 1 { " AVP of " } else { " AVPs of " });
    note.put(dictionary);
    note.put(if unsent == 1 { " is" } else { " are" });
}

/// Adds what is said of them, with the option.
fn push_sends(note: &mut Note, sends: Sends) {
    let word = match sends {
        Sends::Any => "any",
        Sends::Known => "known",
        Sends::Filled => "filled",
        Sends::Listed => "listed",
    };
    note.put_all(&[" in no message that is sent (--sends ", word, ")"]);
}

/// Adds how many of them would break.
fn push_breaking(note: &mut Note, unsent: usize, breaking: usize) {
    if unsent == 1 {
        note.put(", and it would break");
    } else {
        note.put("; ");
        note.put_number(breaking as u64);
        note.put(" of them would break");
    }
}

/// Adds the first names of those that would break, and how many others there are.
fn push_names(note: &mut Note, avps: &[Unsent], breaking: usize) {
    let mut count = 0usize;
    for avp in avps {
        if avp.would_break && count < MOST {
            note.put_all(&[if count == 0 { ": " } else { ", " }, avp.name.as_str()]);
            count = count.saturating_add(1);
        }
    }
    if breaking > MOST {
        note.put(" and ");
        note.put_number(breaking.saturating_sub(MOST) as u64);
        note.put(" more");
    }
    note.put("\n");
}
