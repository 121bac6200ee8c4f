//! Names of commands that the first dictionary doesn't have.

use crate::names::{Named, NamedSource, Vocabulary, names_of};
use crate::sides::{first_of, second_of};
use dia_explain_places::{InputTexts, Note, put_listed};
use dia_report::BothBooks;

/// The most names that are reported, and that are looked for in the second dictionary.
const MOST: usize = 50;

/// Adds the names that no command of the first dictionary has, what may be meant, and how to list the commands.
pub fn push_unknown_commands(
    note: &mut Note,
    texts: &InputTexts<'_>,
    names: &[String],
    books: &BothBooks,
) {
    let first = first_of(texts, books);
    match Vocabulary::of(note.allocator(), &first) {
        Ok(known) => {
            if push_all_missing(note, &known, names) > 0 {
                push_list(note, &first);
                let looked_for = names.get(..MOST).unwrap_or(names);
                push_found(note, looked_for, &known, &second_of(texts, books));
            }
        }
        Err(error) => note.keep(Err(error)),
    }
}

/// Adds the first names that no command has. Returns how many these are.
fn push_all_missing(note: &mut Note, known: &Vocabulary<'_>, names: &[String]) -> usize {
    let dictionary = known.dictionary.name;
    let instead = "an AVP there, and commands are asked for";
    let mut count = 0usize;
    for name in names {
        if count < MOST && !known.has(Named::Command, name) {
            note.put_all(&[dictionary, ": there is no command ", name.as_str(), "\n"]);
            known.push_meant(note, Named::Command, name, instead);
            count = count.saturating_add(1);
        }
    }
    count
}

/// Adds the first commands, and how to list all.
fn push_list(note: &mut Note, dictionary: &NamedSource<'_>) {
    let name = dictionary.name;
    match names_of(note.allocator(), dictionary.source, Named::Command) {
        Ok(commands) if commands.is_empty() => {
            let what = "a command is <NAME> ::= < Diameter Header: CODE, REQ > and its rules";
            note.put_all(&["hint: ", name, " has no commands; ", what, "\n"]);
        }
        Ok(commands) => {
            note.put("hint: its commands are ");
            put_listed(note, &commands);
            note.put_all(&["; `diacmd render ", name, "` prints them\n"]);
        }
        Err(error) => note.keep(Err(error)),
    }
}

/// Adds the first command of the second dictionary that is among the names, and is none of the first.
fn push_found(note: &mut Note, names: &[String], known: &Vocabulary<'_>, second: &NamedSource<'_>) {
    let following = "; the sender's dictionary comes first\n";
    for command in &second.source.commands {
        let name = command.name.as_str();
        if !known.has(Named::Command, name) && has_name(names, name) {
            note.put_all(&["hint: ", second.name, " has a command ", name, following]);
            return;
        }
    }
}

fn has_name(names: &[String], name: &str) -> bool {
    for own in names {
        if own.as_str() == name {
            return true;
        }
    }
    false
}
