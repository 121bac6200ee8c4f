//! A pair that fails a test, and the values of the words in its hints.

use crate::books::{
    Known, Level, Wanted, avp_of, command_at, definition, find_avp, find_command, name_of, rule_at,
    wildcard_of,
};
use crate::checking::policy_words;
use crate::comparing::pairing::Pairing;
use crate::rule_text::{push_key, push_loose, push_rule, push_shown_value, push_slot, widened};
use crate::sides::Side;
use crate::texts::{Scene, Word};
use dia_book::{DRule, DefHead, Definition, Key};
use dia_breaking_data::witness;
use dia_compat::{Failing, PairKind};
use dia_explain_places::Note;

/// A pair of commands or of AVPs, and what of it fails a test.
#[derive(Clone, Copy)]
pub struct Pair<'a> {
    pub pairing: &'a Pairing<'a>,
    pub failing: Failing,
    /// The definitions of the commands, or of AVPs that are groups. Where a command of the second doesn't match that of the
    /// first, it is the second here.
    pub x: Option<&'a Definition>,
    pub y: Option<&'a Definition>,
    /// The AVPs of a pair of AVPs.
    pub first_avp: Option<Known<'a>>,
    pub second_avp: Option<Known<'a>>,
}

impl<'a> Pair<'a> {
    /// A pair of commands or of AVPs, of these names.
    pub fn of(
        pairing: &'a Pairing<'a>,
        kind: PairKind,
        failing: Failing,
        names: &(String, String),
    ) -> Self {
        match kind {
            PairKind::Command => Pair::of_commands(pairing, failing, names),
            PairKind::Avp => Pair::of_avps(pairing, failing, names),
        }
    }

    fn of_commands(pairing: &'a Pairing<'a>, failing: Failing, names: &(String, String)) -> Self {
        let y = match failing {
            Failing::NotBeside { second } => command_at(pairing.b.book, second),
            _ => find_command(pairing.b.book, Wanted::Name(&names.1)),
        };
        Pair {
            pairing,
            failing,
            x: find_command(pairing.a.book, Wanted::Name(&names.0)),
            y,
            first_avp: None,
            second_avp: None,
        }
    }

    fn of_avps(pairing: &'a Pairing<'a>, failing: Failing, names: &(String, String)) -> Self {
        let first_avp = find_avp(pairing.a.book, Wanted::Name(&names.0));
        let second_avp = find_avp(pairing.b.book, Wanted::Name(&names.1));
        Pair {
            pairing,
            failing,
            x: group_of(&pairing.a, first_avp),
            y: group_of(&pairing.b, second_avp),
            first_avp,
            second_avp,
        }
    }

    /// The places of the rules that lines and hints name, in the first's definition and in the second's.
    pub fn places(&self) -> (Option<usize>, Option<usize>) {
        match self.failing {
            Failing::Fixed { first, second } | Failing::WildcardLeast { first, second } => (
                first,
                Some(second),
            ),
            Failing::Counts { first, second }
            | Failing::Crowded { first, second }
            | Failing::WildcardMost { first, second }
            | Failing::CountsAsOther {
                first,
                wildcard: second,
            } => (Some(first), Some(second)),
            Failing::Unlisted { first }
            | Failing::Uncovered { first }
            | Failing::NoWildcard { first }
            | Failing::Stranger { first, .. }
            | Failing::LetIn { first, .. } => (Some(first), None),
            Failing::Required { second } => (None, Some(second)),
            Failing::NotCounted { second, .. } => (wildcard_of(self.x), Some(second)),
            _ => (None, None),
        }
    }

    pub fn first_rule(&self) -> Option<DRule> {
        rule_at(self.x, self.places().0)
    }

    fn second_rule(&self) -> Option<DRule> {
        rule_at(self.y, self.places().1)
    }

    /// The key of the AVP that the failing is about.
    fn key(&self) -> Option<Key> {
        match self.failing {
            Failing::LetIn { key, .. } | Failing::Stranger { key, .. } => Some(key),
            _ => self.first_rule()?.key,
        }
    }

    /// That AVP, where a dictionary has it.
    pub fn known_in(&self, side: &Side<'a>) -> Option<Known<'a>> {
        avp_of(side.book, self.key()?)
    }

    /// The Application-ID of a command of the first.
    pub fn app(&self) -> Option<u32> {
        match self.x?.head {
            DefHead::Command { app, .. } => app,
            _ => None,
        }
    }

    /// The name or the option that is the value of a word.
    fn text_for(&self, word: Word) -> &str {
        let pairing = self.pairing;
        match word {
            Word::A => pairing.a.name,
            Word::B => pairing.b.name,
            Word::Table => pairing.name,
            Word::Policy => policy_words(pairing.unknown),
            Word::X => name_of(self.x),
            _ => name_of(self.y),
        }
    }

    fn push_rule_word(&self, note: &mut Note, word: Word) {
        let (a, b) = (&self.pairing.a, &self.pairing.b);
        let Some(rule) = self.rule_of(word) else {
            return;
        };
        match word {
            Word::Sent => push_slot(note, a, &rule, "AVP"),
            Word::Wanted => push_slot(note, b, &rule, "AVP"),
            Word::Loose => push_loose(note, b, &rule),
            _ => push_rule(note, b, &rule),
        }
    }

    /// The rule that a word is about: the first's or the second's, or one with the counts of both.
    fn rule_of(&self, word: Word) -> Option<DRule> {
        match word {
            Word::Sent => self.first_rule(),
            Word::Wide => Some(widened(&self.first_rule()?, &self.second_rule()?)),
            _ => self.second_rule(),
        }
    }

    /// Adds the value of a word about the AVP of the failing: its code and vendor, or its name in one of the dictionaries.
    fn push_key_word(&self, note: &mut Note, word: Word) {
        let Some(key) = self.key() else {
            return;
        };
        match word {
            Word::Code => push_key(note, key, " and vendor "),
            Word::First => self.pairing.a.push_name(note, key),
            _ => self.pairing.b.push_name(note, key),
        }
    }

    /// Adds the value of a word about two AVPs: the rule of the second's M flag, or a value that it doesn't accept.
    fn push_avp_word(&self, note: &mut Note, word: Word) {
        let (Some(first), Some(second)) = (self.first_avp, self.second_avp) else {
            return;
        };
        match word {
            Word::M => note.put(second.rule.word()),
            _ => match witness(first.format, second.format) {
                Some(value) => push_shown_value(note, first.format, value.as_slice()),
                None => {}
            },
        }
    }
}

/// The definition of an AVP that is a group.
fn group_of<'a>(side: &Side<'a>, avp: Option<Known<'a>>) -> Option<&'a Definition> {
    definition(side.book, Level::Group(avp?.key))
}

impl Scene for Pair<'_> {
    fn push_word(&self, note: &mut Note, word: Word) {
        match word {
            Word::App => note.put_number(self.app().unwrap_or(0) as u64),
            Word::Own => push_rule_number(note, self.places().0),
            Word::Place => push_rule_number(note, self.places().1),
            Word::Code | Word::First | Word::Second => self.push_key_word(note, word),
            Word::M | Word::Value => self.push_avp_word(note, word),
            Word::Sent | Word::Wanted | Word::Loose | Word::Wide | Word::Rule =>
                self.push_rule_word(note, word),
            _ => note.put(self.text_for(word)),
        }
    }
}

/// Adds the number of the rule at a place, from one on.
fn push_rule_number(note: &mut Note, place: Option<usize>) {
    note.put_number(place.unwrap_or(0).saturating_add(1) as u64)
}
