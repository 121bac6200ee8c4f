//! The diagnostic of a place where no AVP begins.

use crate::faults::avp_bytes::{head_of, length_of, part, vendor_of};
use crate::faults::in_body::InBody;
use crate::texts::Word;
use dia_book::Key;
use dia_explain_places::{Note, Unpadded, find_unpadded};

/// Adds the value of a word about the lengths of AVPs.
pub fn push_length_word(note: &mut Note, scene: &InBody<'_>, word: Word) {
    let own = scene.own();
    match word {
        Word::Left => note.put_number(own.len() as u64),
        Word::Longest => note.put_number((own.len() / 4 * 4) as u64),
        Word::Length => note.put_number(length_of(own) as u64),
        Word::Head => note.put_number(head_of(own) as u64),
        // the hint about a length, by the AVP without padding that may have led here
        _ => match find_unpadded(scene.bytes().1) {
            Some(found) => push_unpadded(note, scene, &found),
            None => note.put(
                "fix the sender; either this AVP's Length is wrong, \
                 or the padding or the Length of the AVP before it, or that of the group",
            ),
        },
    }
}

/// Adds an AVP without padding, its place, and its length.
fn push_unpadded(note: &mut Note, scene: &InBody<'_>, found: &Unpadded) {
    let Unpadded { at, code, length } = *found;
    let (begin, bytes) = scene.bytes();
    let vendor = vendor_of(part(bytes, at, bytes.len()));
    let place = begin.saturating_add(at);
    scene.side.push_name(note, Key { code, vendor });
    note.put(" at ");
    note.put_number(place as u64);
    note.put(" has the AVP Length ");
    note.put_number(length as u64);
    note.put(", and the next bytes follow directly, without its padding: fix the sender");
}
