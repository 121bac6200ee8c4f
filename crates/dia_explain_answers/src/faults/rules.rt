//! The diagnostic of AVPs that aren't as the rules of a definition say.

use crate::faults::in_body::InBody;
use crate::faults::level::{Counting, find_key, find_other_vendor};
use crate::rule_text::{push_loose, push_rule, push_vendor};
use crate::texts::Word;
use dia_book::{DRule, RuleKind};
use dia_explain_places::Note;

/// The place of the AVP that is missing, if one follows the fault.
pub fn place_after(scene: &InBody<'_>) -> Option<usize> {
    let key = scene.key()?;
    let (following, _) = find_key(scene.own(), &[key])?;
    Some((scene.fault.place as usize).saturating_add(following))
}

/// The place of an unknown AVP in the level, of the code of the one that is missing and another vendor; and this vendor.
pub fn other_vendor(scene: &InBody<'_>) -> Option<(usize, u32)> {
    let (begin, bytes) = scene.bytes();
    let (at, vendor) = find_other_vendor(scene.side.book, bytes, scene.key()?)?;
    Some((begin.saturating_add(at), vendor))
}

/// Adds the value of a word about the AVP of that code.
pub fn push_other_word(note: &mut Note, scene: &InBody<'_>, word: Word) {
    let Some((at, vendor)) = other_vendor(scene) else {
        return;
    };
    match word {
        Word::At => note.put_number(at as u64),
        _ => push_vendor(note, vendor),
    }
}

/// Adds the value of a word about the rule that counts the AVP of a fault.
pub fn push_rule_word(note: &mut Note, scene: &InBody<'_>, word: Word) {
    let Some(Counting { rule, found, .. }) = &scene.counting else {
        return;
    };
    match word {
        Word::Found => note.put_number(*found as u64),
        // with the AVP at the place
        Word::Count => note.put_number(found.saturating_add(1) as u64),
        Word::After => note.put_number(place_after(scene).unwrap_or(0) as u64),
        Word::Wanted => push_wanted(note, rule),
        Word::Most => push_most(note, rule.max),
        Word::Loose => push_loose(note, scene.side, rule),
        Word::Unbounded => push_rule(note, scene.side, &unbounded(rule)),
        Word::Optional => push_rule(note, scene.side, &optional(rule)),
        _ => push_rule(note, scene.side, rule),
    }
}

/// Adds how many AVPs a rule requires.
fn push_wanted(note: &mut Note, rule: &DRule) {
    if rule.max != Some(rule.min) {
        note.put("at least ");
    }
    note.put_number(u64::from(rule.min))
}

/// Adds how many AVPs are allowed.
fn push_most(note: &mut Note, max: Option<u32>) {
    match max {
        Some(most) if most > 0 => {
            note.put("at most ");
            note.put_number(u64::from(most))
        }
        _ => note.put("none"),
    }
}

/// The rule for any number of its AVPs.
fn unbounded(rule: &DRule) -> DRule {
    DRule { max: None, ..*rule }
}

/// The rule as one whose AVPs may be missing.
fn optional(rule: &DRule) -> DRule {
    DRule {
        kind: RuleKind::Optional,
        min: 0,
        ..*rule
    }
}
