//! What is meant by a word that names no AVP of a dictionary, or no command.

use crate::nearest::{nearest_command, nearest_name};
use crate::note::Note;
use dia_dict::Book;
use std::alloc::{AllocError, Global};

/// The most names that are listed.
const MOST_LISTED: usize = 30;

/// The hint about a word that names no AVP: a command has the name, or the AVP with the nearest name is meant; else how many AVPs
/// there are.
pub fn unknown_avp<B: Book>(alloc: Global, book: &B, word: &str) -> Result<String, AllocError> {
    let mut note = Note::new(alloc);
    let names = avp_names(alloc, book)?;
    if command_names(alloc, book)?.contains(&word) {
        put_other(
            &mut note,
            word,
            " is a command there, and AVPs are asked for\n",
        );
    } else if let Some(near) = nearest_name(word, &names) {
        note.put_near(near);
    } else {
        put_count(&mut note, names.len());
    }
    note.finish()
}

/// The hint about a word that names no command: an AVP has the name, or the command with the nearest name is meant; else the
/// commands.
pub fn unknown_command<B: Book>(alloc: Global, book: &B, word: &str) -> Result<String, AllocError> {
    let mut note = Note::new(alloc);
    let names = command_names(alloc, book)?;
    if avp_names(alloc, book)?.contains(&word) {
        put_other(
            &mut note,
            word,
            " is an AVP there, and commands are asked for\n",
        );
    } else if let Some(near) = nearest_command(word, &names) {
        note.put_near(near);
    } else {
        note.put("hint: the commands are ");
        put_listed(&mut note, &names);
        note.put("\n");
    }
    note.finish()
}

/// The names of all AVPs.
pub fn avp_names<B: Book>(alloc: Global, book: &B) -> Result<Vec<&str>, AllocError> {
    let mut names = Vec::new(alloc);
    for index in 0..book.entries() {
        names.push(book.entry_name(book.entry_at(index)))?;
    }
    Ok(names)
}

/// The names of all commands.
pub fn command_names<B: Book>(alloc: Global, book: &B) -> Result<Vec<&str>, AllocError> {
    let mut names = Vec::new(alloc);
    for index in 0..book.commands() {
        names.push(book.def(book.command_at(index)).name.as_str())?;
    }
    Ok(names)
}

/// Adds names with commas between them: the first ones, and how many others there are.
pub fn put_listed(note: &mut Note, names: &[&str]) {
    let mut between = "";
    for name in names.get(..MOST_LISTED).unwrap_or(names) {
        note.put_all(&[between, *name]);
        between = ", ";
    }
    let more = names.len().saturating_sub(MOST_LISTED);
    if more > 0 {
        note.put(" and ");
        note.put_number(more as u64);
        note.put(" more");
    }
}

/// Adds what a word names in place of what is asked for.
fn put_other(note: &mut Note, word: &str, instead: &str) {
    note.put_all(&["hint: ", word, instead]);
}

/// Adds that none of so many AVPs has a similar name.
fn put_count(note: &mut Note, count: usize) {
    match count {
        0 => note.put_hint("the dictionary has no AVPs"),
        1 => note.put_hint("the dictionary has one AVP, and its name isn't similar"),
        _ => {
            note.put("hint: none of the dictionary's ");
            note.put_number(count as u64);
            note.put(" AVPs has a similar name: `diacmd render D` prints them\n");
        }
    }
}
