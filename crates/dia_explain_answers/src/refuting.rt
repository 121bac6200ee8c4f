//! The diagnostic of a message that refutes nothing.

use crate::books::{Level, definition, name_of};
use crate::checking::{Asked, policy_words};
use crate::faults::{Message, push_refusal};
use crate::sides::Side;
use crate::texts::{Scene, Word, push_text};
use dia_check::{Fault, Refusal};
use dia_dict::IndexedBook;
use dia_explain_places::{InputTexts, Note};
use dia_report::Unrefuting;
use dia_wire::read_header;

/// Adds that a message isn't valid under the first dictionary, with its fault and, where the second accepts it, that; or that it
/// is valid under both.
pub fn push_refute(note: &mut Note, texts: &InputTexts<'_>, found: &Unrefuting) {
    match &found.under_first {
        Ok(_) => push_text(note, &ValidInBoth { texts, found }, BOTH),
        Err(refusal) => {
            let side = Side::of(&texts.first, &found.books.first);
            let message = Message::of(&texts.message, &found.message);
            let asked = Asked::new(found.unknown, found.levels);
            push_verdict(note, message.name, side.name, refusal);
            push_refusal(note, &side, &message, &asked, refusal);
            if found.under_second.is_ok() {
                let occurs = ": the dictionary of the message's sender comes first\n";
                note.put_all(&["hint: it is valid under ", texts.second.name, occurs]);
            }
        }
    }
}

/// The diagnostic of a message that is valid under both dictionaries.
const BOTH: &str =
    "{message}: the message is valid under both dictionaries: {left} in {a}, {right} in {b}\n\
    hint: `diacmd breaking --messages{policy} {a} {b} {left}` lists what breaks, each with a message that shows it\n";

/// A message that is valid under both dictionaries.
#[derive(Clone, Copy)]
struct ValidInBoth<'a> {
    texts: &'a InputTexts<'a>,
    found: &'a Unrefuting,
}

impl Scene for ValidInBoth<'_> {
    fn push_word(&self, note: &mut Note, word: Word) {
        let (texts, found) = (self.texts, self.found);
        note.put(match word {
            Word::Message => texts.message.name,
            Word::A => texts.first.name,
            Word::B => texts.second.name,
            Word::Policy => policy_words(found.unknown),
            Word::Left => command_name(&found.books.first.book, &found.message),
            _ => command_name(&found.books.second.book, &found.message),
        })
    }
}

/// The name of the command that the header of a message selects.
fn command_name<'a>(book: &'a IndexedBook, message: &[u8]) -> &'a str {
    match read_header(message) {
        Ok((header, _)) => name_of(definition(book, Level::body(&header))),
        Err(_) => "",
    }
}

/// Adds that a message isn't valid under the first dictionary.
fn push_verdict(note: &mut Note, message: &str, first: &str, refusal: &Refusal) {
    note.put_all(&[message, ": the message isn't valid under ", first, ": "]);
    match refusal {
        Refusal::Fault(Fault { code, place, .. }) => {
            note.put("fault ");
            note.put_number(*code as u64);
            note.put(" at ");
            note.put_number(*place as u64);
        }
        Refusal::Truncated => note.put("truncated"),
        _ => note.put("trailing"),
    }
    note.put("\n");
}
