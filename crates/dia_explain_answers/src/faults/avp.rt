//! The diagnostic of an AVP by itself: its length, its flags, and its data.

use crate::books::{Known, Wanted, find_avp};
use crate::faults::avp_bytes::{flags_of, part, push_hex};
use crate::faults::in_body::InBody;
use crate::rule_text::{push_key, push_shown_value, push_vendor};
use crate::texts::Word;
use dia_book::Format;
use dia_data::{FormatKind, Values};
use dia_explain_places::Note;
use dia_terms::{FormatName, format_words};
use dia_wire::{AVP_MANDATORY, next_avp};

/// What is wrong with data that its format doesn't accept, and on the next line the hint.
pub fn text_of_value(format: &Format, data: &[u8]) -> &'static str {
    match format {
        Format::Enumerated(_) => "{subject} has the value {value}, which isn't in its list\n\
             add the number to the list of the declaration, or fix the sender",
        Format::Utf8String =>
            "{subject} has data that isn't UTF-8: from byte {bad} of the data on, {rest}\n\
             fix the sender, or declare OctetString, which accepts any data",
        Format::DiameterIdentity if data.is_empty() =>
            "{subject} has no data, and a DiameterIdentity has at least one byte\n\
             fix the sender, or declare OctetString, which accepts any data",
        Format::DiameterIdentity =>
            "{subject} has data that is no DiameterIdentity: byte {bad} of the data is {byte}, \
             and each has to be from 21 to 7e\n\
             fix the sender, or declare OctetString, which accepts any data",
        Format::DiameterUri => "{subject} has data that is no DiameterURI: aaa:// or aaas://, \
             and after it characters of ASCII without spaces\n\
             fix the sender, or declare OctetString, which accepts any data",
        _ => "{subject} has data that isn't of its format\n\
             fix the sender, or declare OctetString, which accepts any data",
    }
}

/// An AVP with the code of the one of the fault, of another vendor.
pub fn same_code<'a>(scene: &InBody<'a>) -> Option<Known<'a>> {
    find_avp(scene.side.book, Wanted::Code(scene.key()?.code))
}

/// The data of the AVP at the fault.
pub fn data_of<'a>(scene: &InBody<'a>) -> &'a [u8] {
    match next_avp(scene.own()) {
        Ok(Some((avp, _))) => avp.bytes,
        _ => b"".as_slice(),
    }
}

/// Adds the value of a word about the AVP of a fault, or about the bytes of it.
pub fn push_avp_word(note: &mut Note, scene: &InBody<'_>, word: Word) {
    let Some(key) = scene.key() else {
        return;
    };
    let data = data_of(scene);
    match word {
        Word::Key => push_key(note, key, " and vendor "),
        Word::Declared => push_key(note, key, " vendor "),
        Word::Vendor => push_other_vendor(note, scene),
        Word::Flag => note.put(flag_word(scene.own())),
        Word::Bytes => note.put_number(data.len() as u64),
        Word::Fits => push_fitting(note, data.len()),
        _ => push_shown_value(note, &Format::Integer32, data),
    }
}

/// Adds the vendor of an AVP with the same code.
fn push_other_vendor(note: &mut Note, scene: &InBody<'_>) {
    if let Some(other) = same_code(scene) {
        push_vendor(note, other.key.vendor)
    }
}

/// What the M flag of the AVP at the start of some bytes is.
fn flag_word(own: &[u8]) -> &'static str {
    if flags_of(own) & AVP_MANDATORY != 0 {
        "set"
    } else {
        "clear"
    }
}

/// Adds the value of a word about the declaration of that AVP, or about data that isn't as it says.
pub fn push_declared_word(note: &mut Note, scene: &InBody<'_>, word: Word) {
    let Some(avp) = scene.avp() else {
        return;
    };
    let data = data_of(scene);
    match word {
        Word::Lengths => note.put(lengths_of(avp.format)),
        Word::Bad => note.put_number(accepted_front(avp.format, data) as u64),
        Word::Byte => push_bad_bytes(note, avp.format, data, 1),
        Word::Rest => push_bad_bytes(note, avp.format, data, 4),
        _ => note.put(avp.declared_word(word)),
    }
}

/// The lengths that data of a format may have.
fn lengths_of(format: &Format) -> &'static str {
    match format.kind() {
        FormatKind::EightBytes(_) => "8",
        FormatKind::Address => {
            "2 of family, and then 4 in family 1 (IPv4) or 16 in family 2 (IPv6)"
        }
        _ => "4",
    }
}

/// Adds this many bytes from the first one on that the format doesn't accept.
fn push_bad_bytes(note: &mut Note, format: &Format, data: &[u8], count: usize) {
    let bad = accepted_front(format, data);
    push_hex(note, part(data, bad, bad.saturating_add(count)))
}

/// How many of the first bytes of some data a format of characters accepts.
fn accepted_front(format: &Format, data: &[u8]) -> usize {
    match (format, str::from_utf8(data)) {
        (Format::Utf8String, Err(error)) => error.valid_up_to(),
        _ => graphic_front(data),
    }
}

/// How many of the first bytes are characters of ASCII without spaces.
fn graphic_front(data: &[u8]) -> usize {
    for (at, byte) in data.iter().enumerate() {
        if !byte.is_ascii_graphic() {
            return at;
        }
    }
    data.len()
}

/// Adds the formats whose data has this length.
fn push_fitting(note: &mut Note, length: usize) {
    let mut lead = ": ";
    let mut last = ", such as OctetString";
    for word in format_words() {
        if has_length(word, length) {
            note.put_all(&[lead, word]);
            lead = ", ";
            last = " or OctetString";
        }
    }
    note.put(last)
}

/// Whether the data of the format with this name has this length, and no other.
fn has_length(word: &str, length: usize) -> bool {
    let Some(name) = FormatName::named(word) else {
        return false;
    };
    match Format::named(name, Values::any()).kind() {
        FormatKind::FourBytes(_) | FormatKind::Enumerated => length == 4,
        FormatKind::EightBytes(_) => length == 8,
        _ => false,
    }
}
