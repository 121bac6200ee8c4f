//! The diagnostic of a message that is refused.

use crate::hints::{Sight, hint_of};
use crate::kinds::{first_bad, first_line, hint_of_text, is_capture, kind_of_byte};
use crate::notes::{SAVE, packed_of, push_noted, push_too_long, push_whole};
use dia_explain_places::{
    NamedText, Note, Unpadded, back, count_digits, find_unpadded, place_of_byte,
};
use dia_report::BadMessage;
use dia_terms::{MAX_MESSAGE_TEXT, is_white};
use dia_wire::{HEADER_LENGTH, HeadFault, read_header};
use std::alloc::{AllocError, Global};

const CAPTURED: &str = "docs/CAPTURES.md says how to take the messages out of a capture";

/// The hints about a dump with offsets, and about one of `xxd`.
const NUMBERED: &str = "the lines begin with offsets, as those of a dump do: \
    `xxd -p FILE` writes one without, and so does wireshark's Copy as a Hex Stream";

const DUMPED: &str =
    "this is a dump with offsets: `xxd -p FILE` writes one without, and `xxd -r DUMP | xxd -p` turns this one";

/// Adds the diagnostic of a message that is refused for this reason.
pub fn push_message(note: &mut Note, message: &NamedText<'_>, why: &BadMessage) {
    let NamedText { name, text } = *message;
    match why {
        BadMessage::TooLong => push_too_long(note, name, MAX_MESSAGE_TEXT),
        BadMessage::NotHexadecimal => match first_bad(text) {
            Some(at) => push_bad(note, message, "the hexadecimal text of a message", at),
            None => {
                note.put_all(&[name, ": the number of hexadecimal digits is odd, "]);
                note.put_number(count_digits(text) as u64);
                note.put(": one is missing or too many\n");
                let hint = "each byte has two digits, also one below 16";
                note.put_hint(dump_of(text).unwrap_or(hint));
            }
        },
        BadMessage::NoMessage(_) => match bytes_of(note.allocator(), text, text.len()) {
            Ok(bytes) => push_length(note, message, &bytes),
            Err(error) => note.keep(Err(error)),
        },
    }
}

/// Adds what is at a place for a digit, or what the text is.
pub fn push_bad(note: &mut Note, message: &NamedText<'_>, wanted: &str, at: usize) {
    let text = message.text;
    if is_capture(text) {
        push_capture(note, message.name, wanted, CAPTURED);
    } else if is_binary(first_line(back(text, at))) {
        push_binary(note, message);
    } else {
        let hint = hint_at(text, at);
        push_noted(note, message, at, "this is no hexadecimal digit", hint);
    }
}

/// Adds what an input is that is a file of packets, or a packed one, in place of a text of messages.
pub fn push_foreign(note: &mut Note, message: &NamedText<'_>, wanted: &str) {
    match packed_of(message.text) {
        Some(packed) => push_whole(note, message, packed.what, packed.hint),
        None => push_capture(note, message.name, wanted, CAPTURED),
    }
}

/// Adds that an input is a file of packets, and the hint.
pub fn push_capture(note: &mut Note, name: &str, wanted: &str, hint: &str) {
    let recorded = ": this is a capture file (pcap), and not ";
    note.put_all(&[name, recorded, wanted, "\nhint: ", hint, "\n"]);
}

/// Whether bytes are no text: they have a control character that isn't white space, or aren't UTF-8.
fn is_binary(text: &[u8]) -> bool {
    for byte in text {
        if *byte < b' ' && !is_white(*byte) && *byte != b'\x0c' {
            return true;
        }
    }
    str::from_utf8(text).is_err()
}

/// Adds what bytes are that aren't text.
fn push_binary(note: &mut Note, message: &NamedText<'_>) {
    let NamedText { name, text } = *message;
    if text.starts_with(b"\xff\xfe") || text.starts_with(b"\xfe\xff") {
        return push_whole(note, message, "the text is UTF-16", SAVE);
    }
    if let Some(packed) = packed_of(text) {
        return push_whole(note, message, packed.what, packed.hint);
    }
    let recorded = if text.first() == Some(&1) {
        ": these are the bytes of a message, and not hexadecimal text\nhint: write `xxd -p "
    } else {
        ": these are bytes, and not hexadecimal text\nhint: write `xxd -p "
    };
    note.put_all(&[
        name,
        recorded,
        name,
        "` into a file: a message is its hexadecimal digits\n",
    ]);
}

/// The hint about a character that is no digit.
fn hint_at(text: &[u8], at: usize) -> Option<&'static str> {
    if let Some(hint) = dump_of(text) {
        return Some(hint);
    }
    if let Some(hint) = hint_of_text("message", text) {
        return Some(hint);
    }
    let rest = back(text, at);
    let word = rest.get(..1)?;
    let sight = Sight {
        kind: kind_of_byte(word),
        word,
        rest,
        before: b"".as_slice(),
    };
    hint_of(&["digit"], &sight)
}

/// The hint about a dump with offsets: the text begins with a small offset, followed by a colon or two spaces, or its second line
/// begins with an offset, too.
pub fn dump_of(text: &[u8]) -> Option<&'static str> {
    let digits = front_digits(text);
    let rest = back(text, digits);
    let second = back(rest, first_line(rest).len().saturating_add(1));
    if digits < 4 || !text.starts_with(b"00") {
        None
    } else if rest.starts_with(b":") {
        Some(DUMPED)
    } else if rest.starts_with(b"  ") || rest.starts_with(b" ") && second.starts_with(b"00") {
        Some(NUMBERED)
    } else {
        None
    }
}

/// How many of the first bytes are hexadecimal digits.
fn front_digits(text: &[u8]) -> usize {
    for (at, byte) in text.iter().enumerate() {
        if !byte.is_ascii_hexdigit() {
            return at;
        }
    }
    text.len()
}

/// Adds the diagnostic of a text whose bytes are no message, or are more or fewer than one.
pub fn push_length(note: &mut Note, message: &NamedText<'_>, bytes: &[u8]) {
    let name = message.name;
    if let Some(hint) = dump_of(message.text) {
        let recorded = "the first bytes are no header of a message";
        return push_whole(note, message, recorded, hint);
    }
    let count = bytes.len();
    match read_header(bytes) {
        Ok((_, length)) if count < length as usize => push_cut(note, name, count, length),
        Ok((_, length)) => push_more(note, message, count, length as usize),
        Err(HeadFault::Length) => push_odd_length(note, message, bytes),
        Err(HeadFault::Version) => {
            note.put_all(&[name, ": the first byte is "]);
            note.put_number(u64::from(bytes.first().copied().unwrap_or(0)));
            note.put(", and the version of Diameter is 1\n");
            note.put_hint(
                "a message begins with 01 and its length; the headers of IP, TCP or SCTP before it have to be taken out",
            );
        }
        Err(HeadFault::Short) => {
            push_count(note, name, count);
            note.put("a message has at least 20, those of its header\n");
        }
    }
}

/// Begins a diagnostic: how many bytes an input has.
fn push_count(note: &mut Note, name: &str, count: usize) {
    note.put_all(&[name, ": "]);
    note.put_number(count as u64);
    note.put(" bytes; ");
}

/// Adds that a Message Length is none, and the first AVP that seems to have no padding, if there is one.
fn push_odd_length(note: &mut Note, message: &NamedText<'_>, bytes: &[u8]) {
    let recorded = "the Message Length, bytes 1 to 3, is under 20 or no multiple of four";
    let hint = "fix the sender: it counts the header, and the AVPs with their padding";
    push_whole(note, message, recorded, hint);
    if let Some(Unpadded { at, code, length }) = find_unpadded(back(bytes, HEADER_LENGTH)) {
        note.put("hint: the AVP at ");
        note.put_number(at.saturating_add(HEADER_LENGTH) as u64);
        note.put(", of code ");
        note.put_number(u64::from(code));
        note.put(", has the AVP Length ");
        note.put_number(length as u64);
        note.put(", and the next bytes follow directly, without its padding\n");
    }
}

/// Adds that bytes are missing.
fn push_cut(note: &mut Note, name: &str, count: usize, length: u32) {
    push_count(note, name, count);
    note.put("the Message Length is ");
    note.put_number(u64::from(length));
    note.put(", so the message is cut off\n");
    note.put_hint(
        "its end may be in the next packet, or the capture has cut the packet: \
         docs/CAPTURES.md says how to take whole messages out",
    );
}

/// Adds the place of the bytes that are too many, if there are some.
fn push_more(note: &mut Note, message: &NamedText<'_>, count: usize, length: usize) {
    let text = message.text;
    if let Some(at) = place_of_byte(text, length) {
        note.put_place(message.name, text, at);
        note.put("the message ends before this place, after the ");
        note.put_number(length as u64);
        note.put(" bytes of its Message Length; ");
        note.put_number(count as u64);
        note.put(" bytes are here\n");
        note.put_excerpt(text, at);
        note.put_hint(if back(text, at).starts_with(b"01") {
            "a second message seems to begin here: give one message at a time; with --lines check, refute and show take one a line"
        } else {
            "take out what follows the message, or fix its Message Length, bytes 1 to 3"
        });
    }
}

/// The first bytes that the digits of a text spell, at most this many.
pub fn bytes_of(alloc: Global, text: &[u8], most: usize) -> Result<Vec<u8>, AllocError> {
    let mut bytes = Vec::new(alloc);
    let mut high: Option<u8> = None;
    for digit in text {
        if bytes.len() == most || is_white(*digit) {
            continue;
        }
        let value = (char::from(*digit).to_digit(16).unwrap_or(0) & 0x0f) as u8;
        match high {
            None => high = Some(value),
            Some(first) => {
                bytes.push((first & 0x0f) << 4 | value)?;
                high = None;
            }
        }
    }
    Ok(bytes)
}
