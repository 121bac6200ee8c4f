//! How messages are checked, and the diagnostic of one that isn't valid.

use crate::faults::{Message, push_refusal};
use crate::sides::Side;
use dia_check::{Levels, Unknown};
use dia_explain_places::{InputTexts, Note};
use dia_report::Invalid;

/// How messages are checked.
#[derive(Clone, Copy)]
pub struct Asked {
    pub unknown: Unknown,
    pub levels: Levels,
}

impl Asked {
    pub fn new(unknown: Unknown, levels: Levels) -> Self {
        Asked { unknown, levels }
    }
}

/// Adds the options that aren't the default.
pub fn push_options(note: &mut Note, asked: &Asked) {
    note.put(policy_words(asked.unknown));
    if let Levels::AtMost(most) = asked.levels {
        note.put(" --levels ");
        note.put_number(most as u64);
    }
}

/// The option for a policy that isn't the default.
pub fn policy_words(unknown: Unknown) -> &'static str {
    match unknown {
        Unknown::Kept => "",
        Unknown::Refused => " --unknown refused",
    }
}

/// Adds the first fault of a message.
pub fn push_check(note: &mut Note, texts: &InputTexts<'_>, found: &Invalid) {
    let side = Side::of(&texts.first, &found.first);
    let message = Message::of(&texts.message, &found.message);
    let asked = Asked::new(found.unknown, found.levels);
    push_refusal(note, &side, &message, &asked, &found.refusal)
}
