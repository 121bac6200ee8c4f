//! The text of standard error.

use crate::accepted::BadList;
use crate::endings::rules_among;
use crate::listing::{Listing, Shown};
use dia_explain_places::Note;
use dia_lint::{RULE_COUNT, Rule, all_rules};
use std::alloc::Global;

/// How many lines are shown with the text at their places.
const MOST_SHOWN: usize = 50;

/// Adds what there is to know of the lines: the text at the places of the first, the section and what to do after the first of
/// each rule, and the counts. If memory is refused, the text is left as it is.
pub(crate) fn explain(
    alloc: Global,
    notes: &mut String,
    file: &str,
    text: &str,
    listing: &Listing,
) {
    if listing.is_empty() {
        return;
    }
    let mut note = Note::new(alloc);
    let mut seen = [false; RULE_COUNT];
    let mut number: usize = 0;
    for shown in &listing.shown {
        if let Some(rule) = all_rules().get(usize::from(shown.rule)) {
            if number < MOST_SHOWN {
                put_place(&mut note, file, text, shown, *rule);
            }
            put_first(&mut note, &mut seen, *rule);
        }
        number = number.saturating_add(1);
    }
    put_counts(&mut note, listing);
    add(notes, note);
}

fn put_place(note: &mut Note, file: &str, text: &str, shown: &Shown, rule: Rule) {
    note.put_place(file, text.as_bytes(), shown.at);
    note.put_all(&[rule.word(), "\n"]);
    note.put_excerpt(text.as_bytes(), shown.at);
}

/// Adds the section and what to do, if the rule is the first of its sort.
fn put_first(note: &mut Note, seen: &mut [bool; RULE_COUNT], rule: Rule) {
    let Some(slot) = seen.get_mut(usize::from(rule.number())) else {
        return;
    };
    if *slot {
        return;
    }
    *slot = true;
    note.put_all(&[rule.word(), ": "]);
    if let Some(section) = rule.section() {
        note.put_all(&[section, "; "]);
    }
    note.put_all(&[rule.advice(), "\n"]);
}

fn put_counts(note: &mut Note, listing: &Listing) {
    put_count(note, listing.shown.len(), "line", "lines");
    note.put(" of ");
    put_count(note, rules_among(&listing.shown), "rule", "rules");
    if listing.accepted > 0 {
        note.put(", ");
        put_count(note, listing.accepted, "accepted line", "accepted lines");
    }
    if !listing.stale.is_empty() {
        note.put(", ");
        put_count(note, listing.stale.len(), "stale entry", "stale entries");
    }
    note.put("\n");
}

fn put_count(note: &mut Note, count: usize, one: &str, many: &str) {
    note.put_number(count as u64);
    note.put(" ");
    note.put(if count == 1 { one } else { many });
}

/// Adds where and why a list of accepted lines is refused.
pub(crate) fn explain_list(
    alloc: Global,
    notes: &mut String,
    word: &str,
    text: &[u8],
    bad: BadList,
) {
    let Some(at) = bad.offset() else {
        return;
    };
    let mut note = Note::new(alloc);
    note.put_place(word, text, at);
    note.put_all(&[bad.word(), "\n"]);
    note.put_excerpt(text, at);
    note.put_hint("an accepted line is RULE SUBJECT: DETAIL");
    add(notes, note);
}

/// Adds which word names no rule, and which there are.
pub(crate) fn explain_words(alloc: Global, notes: &mut String) {
    let mut note = Note::new(alloc);
    note.put("hint: sets are exact, guidelines and more; rules are");
    for rule in all_rules() {
        note.put_all(&[" ", rule.word()]);
    }
    note.put("\n");
    add(notes, note);
}

/// Adds that the options leave no rule.
pub(crate) fn explain_nothing(alloc: Global, notes: &mut String) {
    let mut note = Note::new(alloc);
    note.put_hint("--except leaves out every rule that is asked for");
    add(notes, note);
}

/// Adds the text of a note, unless memory was refused.
fn add(notes: &mut String, note: Note) {
    match note.finish() {
        Ok(text) => {
            let _ = notes.push_str(&text);
        }
        Err(_) => {}
    }
}
