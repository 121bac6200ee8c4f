//! The diagnostic of a request that looks like an answer.

use crate::books::{Level, slot};
use crate::faults::level::find_key;
use crate::sides::Side;
use dia_book::{Key, Slot};
use dia_explain_places::Note;
use dia_wire::{HEADER_LENGTH, Header};

/// Result-Code (RFC 6733 section 7.1), which only answers have.
const RESULT: Key = Key {
    code: 268,
    vendor: 0,
};

/// Experimental-Result (RFC 6733 section 7.6), which only answers have.
const EXPERIMENTAL: Key = Key {
    code: 297,
    vendor: 0,
};

/// Adds that a request has an AVP of answers, where it has one that its command doesn't list.
pub fn push_result(note: &mut Note, side: &Side<'_>, header: &Header, message: &[u8]) {
    if let Some((place, key)) = result_in(side, header, message) {
        let name = if key == RESULT {
            "hint: Result-Code at "
        } else {
            "hint: Experimental-Result at "
        };
        note.put(name);
        note.put_number(place as u64);
        note.put(
            " is for answers, and the R flag says that this is a request: \
             if it is an answer, the sender has to clear R\n",
        );
    }
}

/// The place and the key of the first AVP of answers in a request, if its command doesn't list it.
fn result_in(side: &Side<'_>, header: &Header, message: &[u8]) -> Option<(usize, Key)> {
    let (before, key) = find_key(message.get(HEADER_LENGTH..)?, &[RESULT, EXPERIMENTAL])?;
    if header.is_request() && slot(side.book, Level::body(header), key) == Slot::Unlisted {
        Some((before.saturating_add(HEADER_LENGTH), key))
    } else {
        None
    }
}
