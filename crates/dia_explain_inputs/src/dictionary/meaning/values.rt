//! The values of the words in texts on faults of meaning.

use super::parts::Parts;
use super::recorded::RecordedFault;
use crate::notes::push_line_column;
use dia_ccf::{Head, Rule};
use dia_dict::{MAX_PARTS, MAX_RULES, Part, greatest_count, least_count};
use dia_explain_places::Note;
use dia_wire::Key;

/// A word of a text.
#[derive(Clone, Copy)]
pub enum Word {
    Name,
    Slot,
    First,
    Declared,
    More,
    Key,
    Header,
    Messages,
    Place,
    Parts,
    Rules,
    Limit,
    Low,
    High,
}

/// The words, as texts have them.
static WORDS: [(&str, Word); 14] = [
    ("name", Word::Name),
    ("slot", Word::Slot),
    ("first", Word::First),
    ("declared", Word::Declared),
    ("more", Word::More),
    ("key", Word::Key),
    ("header", Word::Header),
    ("messages", Word::Messages),
    ("place", Word::Place),
    ("parts", Word::Parts),
    ("rules", Word::Rules),
    ("limit", Word::Limit),
    ("low", Word::Low),
    ("high", Word::High),
];

/// The word with this name.
pub fn word_named(name: &str) -> Option<Word> {
    for (own, word) in &WORDS {
        if *own == name {
            return Some(*word);
        }
    }
    None
}

/// Adds the value of a word.
pub fn push_value(note: &mut Note, parts: &Parts<'_>, fault: &RecordedFault<'_>, word: Word) {
    let finding = fault.finding;
    match word {
        Word::Name => note.put(finding.recorded.name),
        Word::Slot => note.put(finding.recorded.slot),
        Word::First => note.put(parts.name(fault.other).unwrap_or("")),
        Word::Declared => push_coded(note, parts.key(fault.other)),
        Word::More => push_more(note, fault.more),
        _ => push_part_value(note, parts, finding.part, word),
    }
}

/// Adds the value of a word about the part at fault.
fn push_part_value(note: &mut Note, parts: &Parts<'_>, part: Option<Part>, word: Word) {
    match word {
        Word::Key => push_coded(note, parts.key(part)),
        Word::Header => push_header(note, parts.key(part)),
        Word::Messages => push_messages(note, parts.head(part)),
        Word::Place => push_place_of(note, parts, part),
        _ => note.put_number(count_of(parts, part, word) as u64),
    }
}

/// The count or the limit that is the value of a word.
fn count_of(parts: &Parts<'_>, part: Option<Part>, word: Word) -> usize {
    let (low, high) = counts_of(parts.rule(part));
    let (rules, limit) = match parts.def(part) {
        Some(def) => (def.rules.len(), MAX_RULES),
        None => (0, MAX_PARTS),
    };
    match word {
        Word::Parts => parts.count(),
        Word::Rules => rules,
        Word::Limit => limit,
        Word::Low => low as usize,
        _ => high as usize,
    }
}

/// Adds the line and the column of the definition of a rule.
fn push_place_of(note: &mut Note, parts: &Parts<'_>, part: Option<Part>) {
    let Some(part) = part else {
        return;
    };
    if let Some(place) = parts.place(Some(Part { rule: None, ..part })) {
        push_line_column(note, place);
    }
}

/// The least and the greatest count of a rule.
fn counts_of(rule: Option<&Rule>) -> (u32, u32) {
    let Some(rule) = rule else {
        return (0, 0);
    };
    let low = least_count(rule.kind, rule.qual);
    (low, greatest_count(rule.qual).unwrap_or(low))
}

fn push_coded(note: &mut Note, key: Option<Key>) {
    let Some(Key { code, vendor }) = key else {
        return;
    };
    note.put("the code ");
    note.put_number(u64::from(code));
    if vendor == 0 {
        note.put(" without a vendor");
    } else {
        note.put(" of vendor ");
        note.put_number(u64::from(vendor));
    }
}

/// Adds a code and a vendor as the header of a group has them.
fn push_header(note: &mut Note, key: Option<Key>) {
    let Some(Key { code, vendor }) = key else {
        return;
    };
    note.put_number(u64::from(code));
    if vendor != 0 {
        note.put(" ");
        note.put_number(u64::from(vendor));
    }
}

/// Adds the messages that a command is for.
fn push_messages(note: &mut Note, head: Option<Head>) {
    let Some(
        Head::Command {
            code,
            request,
            app,
            ..
        },
    ) = head
    else {
        return;
    };
    note.put(if request {
        "the requests with the code "
    } else {
        "the answers with the code "
    });
    note.put_number(u64::from(code));
    match app {
        Some(app) => {
            note.put(" and the Application-ID ");
            note.put_number(u64::from(app));
        }
        None => note.put(", without an Application-ID"),
    }
}

/// Adds how many rules more name the same AVP.
fn push_more(note: &mut Note, more: usize) {
    match more {
        0 => {}
        1 => note.put("; so has the rule"),
        _ => {
            note.put("; ");
            note.put_number(more as u64);
            note.put(" more rules name it, the next");
        }
    }
}
