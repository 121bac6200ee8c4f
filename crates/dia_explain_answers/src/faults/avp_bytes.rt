//! The bytes of an AVP, by its fields (RFC 6733 section 4.1), and flags.

use crate::texts::{Scene, Word, push_text};
use byteorder::{BigEndian, ByteOrder};
use dia_data::push_hex_byte;
use dia_explain_places::Note;
use dia_wire::{AVP_HEAD_LENGTH, AVP_MANDATORY, AVP_PROTECTED, AVP_VENDOR, VENDOR_AVP_HEAD_LENGTH};

/// How many bytes an AVP has up to its flags, and with them.
const FLAGS_END: usize = 5;

/// How many bytes of data are shown.
const SHOWN: usize = 16;

static FLAGS: [(u8, &str); 3] = [
    (AVP_VENDOR, " V"),
    (AVP_MANDATORY, " M"),
    (AVP_PROTECTED, " P"),
];

/// The place of an AVP in a message, its bytes, and what may follow it.
#[derive(Clone, Copy)]
struct AvpBytes<'a> {
    at: usize,
    bytes: &'a [u8],
}

/// Adds a line with the place of an AVP and its fields, as far as they are present: in decimal, and in hexadecimal.
pub fn push_avp(note: &mut Note, at: usize, bytes: &[u8]) {
    let fields = if bytes.len() < FLAGS_END {
        "  at {at}: bytes {bytes}\n"
    } else if head_of(bytes) == VENDOR_AVP_HEAD_LENGTH {
        "  at {at}: code {code}, flags {flags}, length {length}, vendor {vendor}{data}\n"
    } else {
        "  at {at}: code {code}, flags {flags}, length {length}{data}\n"
    };
    push_text(note, &AvpBytes { at, bytes }, fields)
}

impl Scene for AvpBytes<'_> {
    fn push_word(&self, note: &mut Note, word: Word) {
        let bytes = self.bytes;
        match word {
            Word::At => note.put_number(self.at as u64),
            Word::Code => push_field(note, part(bytes, 0, 4)),
            Word::Flags => push_flags(note, flags_of(bytes), &FLAGS),
            Word::Length => push_field(note, part(bytes, 5, 8)),
            Word::Vendor => push_field(note, part(bytes, 8, 12)),
            Word::Data => push_data(note, part(bytes, head_of(bytes), length_of(bytes))),
            _ => push_hex(note, bytes),
        }
    }
}

/// Adds the first bytes of data, if there is some.
fn push_data(note: &mut Note, data: &[u8]) {
    if !data.is_empty() {
        note.put(", data ");
        push_hex(note, part(data, 0, SHOWN));
        note.put(if data.len() > SHOWN { ".." } else { "" })
    }
}

/// Adds flags, with the names of those that are set.
pub fn push_flags(note: &mut Note, flags: u8, names: &[(u8, &'static str)]) {
    push_hex(note, &[flags]);
    for (bit, name) in names {
        if flags & *bit != 0 {
            note.put(name);
        }
    }
}

/// Adds a number, and its bytes.
fn push_field(note: &mut Note, bytes: &[u8]) {
    note.put_number(value_of(bytes) as u64);
    note.put(" (");
    push_hex(note, bytes);
    note.put(")")
}

/// Adds bytes as hexadecimal digits.
pub fn push_hex(note: &mut Note, bytes: &[u8]) {
    let mut digits = String::new(note.allocator());
    for byte in bytes {
        note.keep(push_hex_byte(&mut digits, *byte));
    }
    note.put(digits.as_str());
}

/// The number that at most 4 bytes spell in network byte order.
fn value_of(bytes: &[u8]) -> u32 {
    let count = bytes.len().min(4);
    let mut four = [0; 4];
    four[4 - count..].copy_from_slice(&bytes[..count]);
    BigEndian::read_u32(&four)
}

/// The AVP Length of the AVP at the start of some bytes.
pub fn length_of(own: &[u8]) -> usize {
    value_of(part(own, 5, 8)) as usize
}

/// The Vendor-ID of the AVP at the start of some bytes, or 0.
pub fn vendor_of(own: &[u8]) -> u32 {
    if head_of(own) == VENDOR_AVP_HEAD_LENGTH {
        value_of(part(own, 8, 12))
    } else {
        0
    }
}

/// How many bytes the AVP at the start of some bytes has before its data.
pub fn head_of(own: &[u8]) -> usize {
    if flags_of(own) & AVP_VENDOR != 0 {
        VENDOR_AVP_HEAD_LENGTH
    } else {
        AVP_HEAD_LENGTH
    }
}

/// The flags of the AVP at the start of some bytes, or 0.
pub fn flags_of(own: &[u8]) -> u8 {
    match own.get(4) {
        Some(flags) => *flags,
        None => 0,
    }
}

/// The bytes from one place up to another, as far as they are present.
pub fn part(bytes: &[u8], from: usize, to: usize) -> &[u8] {
    let end = to.min(bytes.len());
    bytes.get(from..end).unwrap_or(b"".as_slice())
}
