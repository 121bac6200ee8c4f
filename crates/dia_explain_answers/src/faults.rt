//! The diagnostic of a message that isn't valid.

mod avp;
mod avp_bytes;
mod header;
mod in_body;
mod lengths;
mod level;
mod reasons;
mod results;
mod rules;
mod showing;
mod walk;

use crate::books::{Level, definition};
use crate::checking::Asked;
use crate::sides::Side;
use dia_check::Refusal;
use dia_explain_places::{NamedText, Note, place_of_byte};
use dia_wire::read_header;
use header::push_header_fault;
use in_body::InBody;
use reasons::{Topic, topic_of};
use results::push_result;
pub use showing::{push_show, push_unnamed};

/// A message: the word that names its text, the text, and its bytes.
#[derive(Clone, Copy)]
pub struct Message<'a> {
    pub name: &'a str,
    pub text: &'a [u8],
    pub bytes: &'a [u8],
}

impl<'a> Message<'a> {
    /// The message that a text spells, with its bytes.
    pub fn of(message: &NamedText<'a>, bytes: &'a [u8]) -> Self {
        Message {
            name: message.name,
            text: message.text,
            bytes,
        }
    }

    /// Begins a diagnostic: the place of a byte in the text, and the byte.
    fn push_spot(&self, note: &mut Note, byte: usize) {
        note.put_start(self.name, self.text, place_of_byte(self.text, byte));
        note.put("byte ");
        note.put_number(byte as u64);
        note.put(": ");
    }
}

/// Adds the fault of a message that isn't valid, and that a request looks like an answer, where this may be the cause. Bytes that
/// are no message are not reported here.
pub fn push_refusal(
    note: &mut Note,
    side: &Side<'_>,
    message: &Message<'_>,
    asked: &Asked,
    refusal: &Refusal,
) {
    let (Refusal::Fault(fault), Ok((header, _))) = (refusal, read_header(message.bytes)) else {
        return;
    };
    let topic = topic_of(fault.reason);
    match topic {
        Topic::Bytes => {}
        Topic::Flags | Topic::Command => {
            message.push_spot(note, fault.place as usize);
            push_header_fault(note, side, &header, fault.reason)
        }
        Topic::Lengths | Topic::Rules | Topic::Avp => {
            let body = Level::body(&header);
            if let Some(command) = definition(side.book, body) {
                let scene = InBody {
                    side,
                    message,
                    asked,
                    fault,
                    body,
                    outermost: command.name.as_str(),
                    groups: &[],
                    counting: None,
                };
                scene.push_in_groups(note)
            }
        }
    }
    if !matches!(topic, Topic::Bytes | Topic::Flags) {
        push_result(note, side, &header, message.bytes)
    }
}
