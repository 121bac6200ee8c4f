//! Rules, counts, keys and M rules as a dictionary's text has them.

use crate::sides::Side;
use dia_book::{DRule, Format, Key, RuleKind};
use dia_data::push_value;
use dia_explain_places::Note;

/// Adds a rule as a text has it, with a qualifier where its counts aren't those of its brackets.
pub fn push_rule(note: &mut Note, side: &Side<'_>, rule: &DRule) {
    // the brackets, and their least counts: without a qualifier, and with one that has none before the star
    let (open, close, plain, starred) = match rule.kind {
        RuleKind::Fixed => ("< ", " >", 1, 0),
        RuleKind::Required => ("{ ", " }", 1, 1),
        RuleKind::Optional => ("[ ", " ]", 0, 0),
    };
    push_qualifier(note, rule, plain, starred);
    note.put(open);
    push_slot(note, side, rule, "AVP");
    note.put(close)
}

/// Adds `{ X } for < X >`: what to write for a fixed rule so that its AVPs may be anywhere.
pub fn push_loose(note: &mut Note, side: &Side<'_>, rule: &DRule) {
    let kind = RuleKind::Required;
    push_rule(note, side, &DRule { kind, ..*rule });
    note.put(" for ");
    push_rule(note, side, rule)
}

/// Adds what a rule is for. `any` is what a rule for AVP is for.
pub fn push_slot(note: &mut Note, side: &Side<'_>, rule: &DRule, any: &str) {
    match rule.key {
        Some(key) => side.push_name(note, key),
        None => note.put(any),
    }
}

fn push_qualifier(note: &mut Note, rule: &DRule, plain: u32, starred: u32) {
    let DRule { min, max, .. } = *rule;
    if min == plain && max == Some(1) {
        return;
    }
    if min != starred {
        note.put_number(min as u64);
    }
    note.put("*");
    if let Some(max) = max {
        note.put_number(max as u64);
    }
    note.put(" ");
}

/// Adds the counts of a rule: `3`, `0..1` or `1..*`.
pub fn push_counts(note: &mut Note, rule: &DRule) {
    note.put_number(rule.min as u64);
    if rule.max != Some(rule.min) {
        note.put("..");
        match rule.max {
            Some(max) => note.put_number(max as u64),
            None => note.put("*"),
        }
    }
}

/// A rule with the counts of two.
pub fn widened(rule: &DRule, other: &DRule) -> DRule {
    let min = rule.min.min(other.min);
    let kind = match other.kind {
        RuleKind::Required if min == 0 => RuleKind::Optional,
        kind => kind,
    };
    let max = match (rule.max, other.max) {
        (Some(most), Some(more)) => Some(most.max(more)),
        _ => None,
    };
    DRule {
        kind,
        min,
        max,
        ..*other
    }
}

/// Adds a code, followed by the vendor, where there is one. `between` is the word between the two.
pub fn push_key(note: &mut Note, key: Key, between: &str) {
    let Key { code, vendor } = key;
    note.put_number(code as u64);
    if vendor > 0 {
        note.put(between);
        note.put_number(vendor as u64);
    }
}

/// Adds `no vendor` or `vendor N`.
pub fn push_vendor(note: &mut Note, vendor: u32) {
    if vendor == 0 {
        note.put("no vendor")
    } else {
        note.put("vendor ");
        note.put_number(vendor as u64);
    }
}

/// Adds data of a format as `show` prints it.
pub fn push_shown_value(note: &mut Note, format: &Format, data: &[u8]) {
    let mut value = String::new(note.allocator());
    note.keep(push_value(&mut value, format, data));
    note.put(value.as_str());
}
