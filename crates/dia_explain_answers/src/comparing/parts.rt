//! Lines about parts of the two dictionaries.

use crate::books::{Known, rule_at, wildcard_of};
use crate::comparing::pair::Pair;
use crate::rule_text::{push_counts, push_rule, push_slot};
use crate::sides::Side;
use crate::texts::{Scene, Word, push_hint, word_named};
use dia_book::{Class, DRule, DefHead, Definition, Pxy};
use dia_explain_places::Note;

/// Adds lines `PART: TEXT`, where there is what they are about.
pub fn push_lines(note: &mut Note, pair: &Pair<'_>, lines: &str) {
    for line in lines.lines() {
        push_line(note, pair, line);
    }
}

fn push_line(note: &mut Note, pair: &Pair<'_>, line: &str) {
    let Some((part, recorded)) = line.split_once(": ") else {
        return;
    };
    match word_named(part) {
        Some(Word::Hint) => push_hint(note, pair, recorded),
        Some(part @ (Word::Own | Word::Other | Word::A | Word::B | Word::Lack)) => {
            push_of_avp(note, pair, part, recorded)
        }
        Some(part) => push_of_definition(note, pair, part, recorded),
        None => {}
    }
}

/// Adds a line about a definition, or about a rule of it.
fn push_of_definition(note: &mut Note, pair: &Pair<'_>, part: Word, recorded: &str) {
    let place = match part {
        Word::Sent | Word::Unsent => pair.places().0,
        Word::Taken => pair.places().1,
        Word::Wildcard => wildcard_of(pair.y),
        _ => None,
    };
    match (part, place) {
        (Word::Sent, None) | (Word::Unsent, Some(_)) => {}
        (Word::X | Word::Sent | Word::Unsent, _) => {
            push_defined(note, &pair.pairing.a, pair.x, place, recorded)
        }
        _ => push_defined(note, &pair.pairing.b, pair.y, place, recorded),
    }
}

/// Adds a line about an AVP, or about a dictionary that doesn't know it.
fn push_of_avp(note: &mut Note, pair: &Pair<'_>, part: Word, recorded: &str) {
    let side = match part {
        Word::Own | Word::A => &pair.pairing.a,
        _ => &pair.pairing.b,
    };
    let avp = match part {
        Word::A => pair.first_avp,
        Word::B => pair.second_avp,
        _ => pair.known_in(side),
    };
    match (part, avp) {
        (Word::Lack, None) => side.push_part(note, None, pair, recorded),
        (Word::Lack, Some(_)) | (_, None) => {}
        (_, Some(avp)) => side.push_part(
            note,
            side.avp_at(avp.name),
            &Declared { pair, avp },
            recorded,
        ),
    }
}

/// A definition, or a rule of it.
#[derive(Clone, Copy)]
struct Defined<'a> {
    side: &'a Side<'a>,
    def: &'a Definition,
    rule: Option<DRule>,
}

/// Adds a line about a definition, or about the rule at a place of it.
fn push_defined<'a>(
    note: &mut Note,
    side: &'a Side<'a>,
    def: Option<&'a Definition>,
    place: Option<usize>,
    recorded: &str,
) {
    let Some(def) = def else {
        return;
    };
    let rule = rule_at(Some(def), place);
    let defined = Defined { side, def, rule };
    side.push_part(note, side.definition_at(def, place), &defined, recorded)
}

impl Scene for Defined<'_> {
    fn push_word(&self, note: &mut Note, word: Word) {
        match word {
            Word::Name => note.put(self.def.name.as_str()),
            Word::Flag => note.put(flag_words(self.def.head)),
            Word::Messages => push_messages(note, self.def.head),
            _ => self.push_rule_word(note, word),
        }
    }
}

impl Defined<'_> {
    fn push_rule_word(&self, note: &mut Note, word: Word) {
        let Some(rule) = self.rule else {
            return;
        };
        match word {
            Word::Counts => push_counts(note, &rule),
            Word::Counted => push_slot(note, self.side, &rule, "what no rule names"),
            _ => push_rule(note, self.side, &rule),
        }
    }
}

/// An AVP, and the pair that a line about it belongs to.
#[derive(Clone, Copy)]
struct Declared<'p, 'a> {
    pair: &'p Pair<'a>,
    avp: Known<'a>,
}

impl Scene for Declared<'_, '_> {
    fn push_word(&self, note: &mut Note, word: Word) {
        match word {
            Word::A => self.pair.push_word(note, word),
            _ => self.avp.push_word(note, word),
        }
    }
}

/// Adds the messages that a command is for.
fn push_messages(note: &mut Note, head: DefHead) {
    let DefHead::Command {
        code,
        class,
        app,
        ..
    } = head
    else {
        return note.put("answers with the E flag");
    };
    let what = match class {
        Class::Request => "requests",
        _ => "answers",
    };
    note.put_all(&[what, " of code "]);
    note.put_number(code as u64);
    if let Some(app) = app {
        note.put(" and application ");
        note.put_number(app as u64);
    }
}

/// What a definition says of the P flag.
fn flag_words(head: DefHead) -> &'static str {
    match head {
        DefHead::Command { p, .. } | DefHead::Error { p } => match p {
            Pxy::Clear => "without PXY: its P flag is clear",
            Pxy::Set => "with PXY: its P flag is set",
            Pxy::Either => "with [, PXY]: its P flag may be either",
        },
        DefHead::Group(_) => "",
    }
}
