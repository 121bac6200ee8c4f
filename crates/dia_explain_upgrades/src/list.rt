//! The list of accepted lines.

use dia_explain_places::{NamedText, Note, line_from, nearest_name, start_of_line};
use dia_upgrades::{BadList, Entry, MAX_LINES, MAX_LIST};

/// The most lines of a list that are reported one by one.
const MOST: usize = 20;

/// What a line is that is refused.
const NO_LINE: &str =
    "this is no line of an answer of breaking: PATH: REASON SUBJECT: DETAIL, or with --once \
    REASON SUBJECT: DETAIL, in N commands, first in PATH\n";

/// What to do about such a line of a dictionary.
const DICTIONARY_HINT: &str =
    "hint: this is a dictionary; a list is written by diacmd breaking A B > FILE\n";

/// What to do about such a line of another text.
const LIST_HINT: &str = "hint: write the list by diacmd breaking A B > FILE, without --messages; \
    a comment begins with #\n";

/// What a line is that accepts nothing here, and isn't stale.
const NOT_ASKED: &str = "this line isn't asked about\n";

/// Why it isn't.
const UNASKED_HINT: &str =
    "hint: such a line is about a command that isn't named, or about another --sends or --unknown\n";

/// The reasons of lines.
static REASONS: [&str; 12] = [
    "command",
    "application",
    "proxiable",
    "missing",
    "too-many",
    "not-allowed",
    "order",
    "unknown",
    "m-bit",
    "format",
    "meaning",
    "undecided",
];

/// Adds why a list is refused.
pub fn push_bad_list(note: &mut Note, list: &NamedText<'_>, bad: &BadList) {
    let NamedText { name, text } = *list;
    match *bad {
        BadList::TooLong => {
            note.put_all(&[name, ": the text has more than "]);
            note.put_number(MAX_LIST as u64);
            note.put(" bytes\n");
        }
        BadList::NotText { at } => {
            push_recorded(note, list, at, "these bytes aren't UTF-8\n");
            note.put("hint: save the file as UTF-8\n")
        }
        BadList::Syntax { line, at } => {
            let at = start_of_line(text, line).saturating_add(at);
            push_recorded(note, list, at, NO_LINE);
            if let Some(reason) = nearest_reason(text, at) {
                note.put_all(&["hint: did you mean ", reason, "?\n"])
            } else if text.starts_with(b"%avp") || text.starts_with(b"<") {
                note.put(DICTIONARY_HINT)
            } else {
                note.put(LIST_HINT)
            }
        }
        BadList::Limit { line } => {
            note.put_place(name, text, start_of_line(text, line));
            note.put("this line is one too many: a list has at most ");
            note.put_number(MAX_LINES as u64);
            note.put("\nhint: a line with * for its path accepts its cause in every command\n");
        }
    }
}

/// Adds what is reported of a place of a list, and its line.
fn push_recorded(note: &mut Note, list: &NamedText<'_>, at: usize, recorded: &str) {
    note.put_place(list.name, list.text, at);
    note.put(recorded);
    note.put_excerpt(list.text, at);
}

/// The reason that is nearest to the word at a place of a list, which isn't one.
fn nearest_reason(text: &[u8], at: usize) -> Option<&'static str> {
    let word = line_from(text, at).split(|byte| *byte == b' ').next()?;
    let word = str::from_utf8(word).ok()?;
    if REASONS.iter().any(|reason| *reason == word) {
        return None;
    }
    nearest_name(word, &REASONS)
}

/// Adds the stale entries of a list, those that accept nothing and aren't stale, and what to do.
pub fn push_unused(note: &mut Note, list: &NamedText<'_>, unused: &[Entry], stale: &[Entry]) {
    push_entries(
        note,
        list,
        stale,
        "this line accepts nothing\n",
        " lines accept nothing\n",
    );
    if !stale.is_empty() {
        note.put("hint: what such a line accepts doesn't break any more, so remove the line\n");
    }
    push_unasked(note, list, unused, stale);
}

/// Adds the entries that accept nothing and aren't stale. Both lists are in the order of their lines.
fn push_unasked(note: &mut Note, list: &NamedText<'_>, unused: &[Entry], stale: &[Entry]) {
    let mut passed: usize = 0;
    let mut count: usize = 0;
    for entry in unused {
        if is_at(stale, passed, entry.line) {
            passed = passed.saturating_add(1);
        } else {
            count = count.saturating_add(1);
            if count <= MOST {
                push_recorded(note, list, start_of_line(list.text, entry.line), NOT_ASKED);
            }
        }
    }
    push_count(note, list, count, " lines aren't asked about\n");
    if count > 0 {
        note.put(UNASKED_HINT);
    }
}

/// Whether the entry at a place is that of a line.
fn is_at(entries: &[Entry], place: usize, line: u32) -> bool {
    match entries.get(place) {
        Some(entry) => entry.line == line,
        None => false,
    }
}

/// Adds entries of a list, with their lines, and how many they are, if not each is reported.
fn push_entries(
    note: &mut Note,
    list: &NamedText<'_>,
    entries: &[Entry],
    recorded: &str,
    all: &str,
) {
    for entry in entries.iter().take(MOST) {
        push_recorded(note, list, start_of_line(list.text, entry.line), recorded);
    }
    push_count(note, list, entries.len(), all);
}

/// Adds how many lines of a list there are, if not each is reported.
fn push_count(note: &mut Note, list: &NamedText<'_>, count: usize, recorded: &str) {
    if count > MOST {
        note.put_all(&[list.name, ": "]);
        note.put_number(count as u64);
        note.put(recorded);
    }
}
