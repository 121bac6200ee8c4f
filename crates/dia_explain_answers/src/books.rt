//! What a dictionary says of an AVP, and of a level of a message.

ghost use Rattle.std.specs.Prelude.{◌<◌, IfSome, length};
ghost use Rattle.dia_book.specs.Dictionary.{definitions};

use crate::rule_text::push_vendor;
use crate::texts::{Scene, Word};
use dia_book::{Book, Class, DRule, DefHead, DefId, Definition, Format, Key, MRule, Slot};
use dia_check::class_of;
use dia_explain_places::Note;
use dia_wire::Header;

/// An AVP that a dictionary has.
#[derive(Clone, Copy)]
pub struct Known<'a> {
    pub key: Key,
    pub name: &'a str,
    pub format: &'a Format,
    pub rule: MRule,
}

/// The AVP with this key.
pub fn avp_of<B: Book>(book: &B, key: Key) -> Option<Known<'_>> {
    match book.avp(key) {
        Some(entry) => Some(Known {
            key,
            name: book.entry_name(entry),
            format: book.format(entry),
            rule: book.rule(entry),
        }),
        None => None,
    }
}

impl Scene for Known<'_> {
    fn push_word(&self, note: &mut Note, word: Word) {
        match word {
            Word::Name => note.put(self.name),
            Word::Code => note.put_number(self.key.code as u64),
            Word::Vendor => push_vendor(note, self.key.vendor),
            _ => note.put(self.declared_word(word)),
        }
    }
}

impl Known<'_> {
    /// The value of a word about the format or the rule.
    pub fn declared_word(&self, word: Word) -> &'static str {
        match word {
            Word::Format => self.format.word(),
            Word::M => self.rule.word(),
            // the M flag of AVPs that are sent
            Word::Sends => match self.rule {
                MRule::Must => ": it is sent with the M flag",
                MRule::MustNot => ": it is sent without the M flag",
                MRule::Any => ": it may be sent with the M flag, and without",
            },
            // the M flag of AVPs that are accepted
            Word::Takes => match self.rule {
                MRule::Must => ": without the M flag it is refused",
                MRule::MustNot => ": with the M flag it is refused",
                MRule::Any => "",
            },
            // the values of an Enumerated AVP
            _ => match self.format {
                Format::Enumerated(values) if values.list().is_some() => "has these values here",
                _ => "may have any value here",
            },
        }
    }
}

/// A level of a message.
#[derive(Clone, Copy)]
pub enum Level {
    /// The body of a message with such a header.
    Body { code: u32, class: Class, app: u32 },
    /// The data of a group.
    Group(Key),
}

impl Level {
    /// The body of a message with this header.
    pub fn body(header: &Header) -> Self {
        Level::Body {
            code: header.code,
            class: class_of(header),
            app: header.app,
        }
    }
}

/// What a level is made of.
pub fn definition<B: Book>(book: &B, level: Level) -> Option<&Definition> {
    let def = def_of(book, level)?;
    Some(book.def(def))
}

/// The name of a definition, or nothing where there is none.
pub fn name_of(def: Option<&Definition>) -> &str {
    match def {
        Some(def) => def.name.as_str(),
        None => "",
    }
}

/// Where an AVP belongs in a level.
pub fn slot<B: Book>(book: &B, level: Level, key: Key) -> Slot {
    match def_of(book, level) {
        Some(def) => book.slot(def, key),
        None => Slot::Unlisted,
    }
}

fn def_of<B: Book>(book: &B, level: Level) -> Option<DefId>
    ensures { IfSome result (λ def. def < length (definitions (B.meaning book.now))) }
{
    match level {
        Level::Body { code, class, app } => book.select(code, class, app),
        Level::Group(key) => group_of(book, key),
    }
}

/// The rule at a place of a definition.
pub fn rule_at(def: Option<&Definition>, place: Option<usize>) -> Option<DRule> {
    def?.rules.get(place?).copied()
}

/// The place of a definition's rule for AVP.
pub fn wildcard_of(def: Option<&Definition>) -> Option<usize> {
    for (place, rule) in def?.rules.iter().enumerate() {
        if rule.key.is_none() {
            return Some(place);
        }
    }
    None
}

/// The definition of the group with this key.
pub fn group_of<B: Book>(book: &B, key: Key) -> Option<DefId>
    ensures { IfSome result (λ def. def < length (definitions (B.meaning book.now))) }
{
    let entry = book.avp(key)?;
    book.group(entry)
}

/// What is looked for in a dictionary.
#[derive(Clone, Copy)]
pub enum Wanted<'a> {
    Name(&'a str),
    Code(u32),
    Application(u32),
}

/// The first AVP that is wanted.
pub fn find_avp<'a, B: Book>(book: &'a B, wanted: Wanted<'_>) -> Option<Known<'a>> {
    for index in 0..book.entries() {
        let entry = book.entry_at(index);
        let key = book.entry_key(entry);
        if is_wanted(wanted, book.entry_name(entry), Some(key.code), None) {
            return avp_of(book, key);
        }
    }
    None
}

/// The first command that is wanted. One without an Application-ID is of the base, 0.
pub fn find_command<'a, B: Book>(book: &'a B, wanted: Wanted<'_>) -> Option<&'a Definition> {
    for index in 0..book.commands() {
        let command = book.def(book.command_at(index));
        let (code, app) = match command.head {
            DefHead::Command { code, app, .. } => (Some(code), Some(app.unwrap_or(0))),
            _ => (None, None),
        };
        if is_wanted(wanted, command.name.as_str(), code, app) {
            return Some(command);
        }
    }
    None
}

fn is_wanted(wanted: Wanted<'_>, name: &str, code: Option<u32>, app: Option<u32>) -> bool {
    match wanted {
        Wanted::Name(own) => name == own,
        Wanted::Code(own) => code == Some(own),
        Wanted::Application(own) => app == Some(own),
    }
}

/// The command at a place of the dictionary's order.
pub fn command_at<B: Book>(book: &B, place: usize) -> Option<&Definition> {
    if place < book.commands() {
        Some(book.def(book.command_at(place)))
    } else {
        None
    }
}
