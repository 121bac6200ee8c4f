//! What standard error says of an answer.

use crate::writing::{Counts, avp_words};
use dia_book::Book;
use dia_wire::Key;
use std::alloc::{AllocError, Global};

/// How many lines an AVP has.
#[derive(Clone, Copy)]
pub(crate) struct Tally {
    pub key: Key,
    pub counts: Counts,
}

/// How many definitions hold each AVP.
pub(crate) fn notes_of<B: Book>(
    alloc: Global,
    book: &B,
    tallies: &[Tally],
) -> Result<String, AllocError> {
    let mut notes = String::new(alloc);
    for tally in tallies {
        let avp = avp_words(alloc, book, tally.key)?;
        notes.push_str(avp.as_str())?;
        push_counts(&mut notes, tally.counts)?;
        push_same_code(&mut notes, book, tally.key)?;
    }
    Ok(notes)
}

/// Adds the AVP that has the code of an unknown AVP without a vendor, and a vendor.
fn push_same_code<B: Book>(out: &mut String, book: &B, key: Key) -> Result<(), AllocError> {
    if key.vendor != 0 || book.avp(key).is_some() {
        return Ok(());
    }
    for index in 0..book.entries() {
        let entry = book.entry_at(index);
        let Key { code, vendor } = book.entry_key(entry);
        if code == key.code {
            let name = book.entry_name(entry);
            return write!(out, "hint: {code}:{vendor} is {name}\n");
        }
    }
    Ok(())
}

fn push_counts(out: &mut String, counts: Counts) -> Result<(), AllocError> {
    let Counts { rules, wildcards } = counts;
    if rules == 0 && wildcards == 0 {
        return out.push_str(
            ": no definition that a command reaches has a rule for it, or a wildcard\n",
        );
    }
    let has = counted(rules, "definition has", "definitions have");
    let lets = counted(wildcards, "lets", "let");
    write!(
        out,
        ": {rules} {has} a rule for it, and {wildcards} {lets} it in by a wildcard\n"
    )
}

/// The word for one, or for more or none.
fn counted(count: usize, one: &'static str, more: &'static str) -> &'static str {
    if count == 1 { one } else { more }
}
