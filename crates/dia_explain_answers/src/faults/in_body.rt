//! A fault in the body of a message.

use crate::books::{Known, Level, avp_of, name_of};
use crate::checking::Asked;
use crate::faults::Message;
use crate::faults::avp::{push_avp_word, push_declared_word, same_code};
use crate::faults::avp_bytes::{part, push_avp};
use crate::faults::lengths::push_length_word;
use crate::faults::level::Counting;
use crate::faults::reasons::{Topic, text_in_body, topic_of};
use crate::faults::rules::{push_other_word, push_rule_word};
use crate::faults::walk::{Group, walk_to};
use crate::sides::Side;
use crate::texts::{Scene, Word, push_hint, push_text};
use dia_book::Key;
use dia_check::{Fault, Levels, Reason, Subject};
use dia_explain_places::Note;

/// How many groups are reported at each end of a long way.
const RECORDED: usize = 4;

/// A fault in the body of a message.
#[derive(Clone, Copy)]
pub struct InBody<'a> {
    pub side: &'a Side<'a>,
    pub message: &'a Message<'a>,
    pub asked: &'a Asked,
    pub fault: &'a Fault,
    pub body: Level,
    /// The name of what contains the outermost group.
    pub outermost: &'a str,
    /// The groups around the level of the fault, the outermost first.
    pub groups: &'a [Group],
    /// The rule of that level that counts the AVP of the fault.
    pub counting: Option<Counting>,
}

impl<'a> InBody<'a> {
    pub fn key(&self) -> Option<Key> {
        match self.fault.subject {
            Subject::Avp(key) => Some(key),
            Subject::Wildcard | Subject::Nothing => None,
        }
    }

    /// The AVP of the fault, where the dictionary has it.
    pub fn avp(&self) -> Option<Known<'a>> {
        avp_of(self.side.book, self.key()?)
    }

    /// Adds the fault in the groups around its place.
    pub fn push_in_groups(&self, note: &mut Note) {
        let message = self.message.bytes;
        let place = self.fault.place as usize;
        match walk_to(note.allocator(), self.side.book, message, place) {
            Ok(walk) => {
                let scene = InBody {
                    groups: &walk.groups,
                    ..*self
                };
                scene.in_level().push(note)
            }
            Err(error) => note.keep(Err(error)),
        }
    }

    /// Adds what is wrong, where in the message and in the dictionary, and the hint.
    pub fn push(&self, note: &mut Note) {
        let text = text_in_body(self);
        let (fault, hint) = text.split_once('\n').unwrap_or((text, ""));
        self.message.push_spot(note, self.fault.place as usize);
        push_text(note, self, fault);
        self.push_groups(note);
        self.push_bytes(note);
        self.push_declared(note);
        push_hint(note, self, hint)
    }

    /// Adds the groups with their places: of many the first and the last.
    fn push_groups(&self, note: &mut Note) {
        note.put_all(&["\n  in ", self.outermost]);
        let many = self.groups.len();
        let between = many.saturating_sub(RECORDED).saturating_sub(RECORDED);
        for (index, group) in self.groups.iter().enumerate() {
            if between < 2 || index < RECORDED || index.saturating_add(RECORDED) >= many {
                push_group(note, self.side, group);
            } else if index == RECORDED {
                note.put(", .. ");
                note.put_number(between as u64);
                note.put(" groups ..");
            }
        }
        note.put("\n")
    }

    /// Adds the bytes of the AVP at the place, or of the group that ends there.
    fn push_bytes(&self, note: &mut Note) {
        let place = self.fault.place as usize;
        let (_, _, end) = self.level();
        let begin = match self.groups.last() {
            Some(group) if place >= end => group.place,
            _ => place,
        };
        if begin < end {
            push_avp(note, begin, part(self.message.bytes, begin, end))
        }
    }

    /// Adds where the rule, the definition or the AVP is declared that the fault is about.
    fn push_declared(&self, note: &mut Note) {
        match (topic_of(self.fault.reason), self.def()) {
            (Topic::Rules, Some(def)) => {
                let (place, recorded) = match self.counting {
                    Some(counting) => (Some(counting.place), "the rule is {rule}"),
                    None => (None, "{level} is defined here"),
                };
                let at = self.side.definition_at(def, place);
                self.side.push_part(note, at, self, recorded)
            }
            _ => {
                // the AVP of the fault, or of an unknown one an AVP with its code
                let shown = match self.fault.reason {
                    Reason::Unknown => same_code(self),
                    Reason::Depth => None,
                    _ => self.avp(),
                };
                if let Some(avp) = shown {
                    let at = self.side.avp_at(avp.name);
                    self.side
                        .push_part(note, at, &avp, "{name} is declared here")
                }
            }
        }
    }
}

fn push_group(note: &mut Note, side: &Side<'_>, group: &Group) {
    note.put(", ");
    side.push_name(note, group.key);
    note.put(" at ");
    note.put_number(group.place as u64);
}

impl Scene for InBody<'_> {
    fn push_word(&self, note: &mut Note, word: Word) {
        match word {
            Word::Level => note.put(if self.groups.is_empty() {
                self.outermost
            } else {
                name_of(self.def())
            }),
            Word::Subject => match self.key() {
                Some(key) => self.side.push_name(note, key),
                None => note.put("AVP"),
            },
            Word::Depth => note.put_number(self.groups.len() as u64),
            Word::Levels => match self.asked.levels {
                Levels::AtMost(most) => note.put_number(most as u64),
                Levels::Any => {}
            },
            Word::Left | Word::Longest | Word::Length | Word::Head | Word::LengthHint => {
                push_length_word(note, self, word)
            }
            Word::M | Word::Format | Word::Lengths | Word::Bad | Word::Byte | Word::Rest => {
                push_declared_word(note, self, word)
            }
            Word::Key
            | Word::Declared
            | Word::Vendor
            | Word::Flag
            | Word::Bytes
            | Word::Fits
            | Word::Value => { push_avp_word(note, self, word) }
            Word::At | Word::Sent => push_other_word(note, self, word),
            _ => push_rule_word(note, self, word),
        }
    }
}
