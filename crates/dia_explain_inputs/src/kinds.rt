//! What a text is, by its contents.

use crate::hints::{Sight, hint_of};
use crate::notes::packed_of;
use byteorder::{BigEndian, ByteOrder};
use dia_explain_places::back;
use dia_terms::is_white;

/// The hint about lines that end in CR alone.
pub const RETURNS: &str = "the lines end in CR alone, and a comment ends at a line feed: \
    `tr '\\r' '\\n'` writes line feeds";

/// Whether bytes begin as a file of packets does (pcap or pcapng).
pub fn is_capture(bytes: &[u8]) -> bool {
    bytes.len() >= 4
        && matches!(
            BigEndian::read_u32(bytes),
            0xd4c3_b2a1 | 0xa1b2_c3d4 | 0x4d3c_b2a1 | 0xa1b2_3c4d | 0x0a0d_0d0a
        )
}

/// Whether bytes begin as a file does that is no text: one of packets, or a packed one.
pub fn is_foreign(bytes: &[u8]) -> bool {
    is_capture(bytes) || packed_of(bytes).is_some()
}

/// The hint about a whole text at the place of an input.
pub fn hint_of_text(place: &str, text: &[u8]) -> Option<&'static str> {
    let rest = without_blanks(text);
    let none = b"".as_slice();
    let sight = Sight {
        kind: kind_of(rest),
        word: none,
        rest,
        before: none,
    };
    hint_of(&[place], &sight)
}

/// The text from its first byte on that isn't white space.
fn without_blanks(text: &[u8]) -> &[u8] {
    for (at, byte) in text.iter().enumerate() {
        if !is_white(*byte) {
            return back(text, at);
        }
    }
    b"".as_slice()
}

/// What a text or a word is, as signs of hints name it.
pub fn kind_of(text: &[u8]) -> &'static str {
    if begins_pair(text) {
        "a table"
    } else if is_message(text) {
        "a message"
    } else if has_part(text, b"%avp") || has_part(text, b"::=") {
        "a dictionary"
    } else if is_base64(text) {
        "base64"
    } else {
        ""
    }
}

/// What a character is, by its first byte.
pub fn kind_of_byte(character: &[u8]) -> &'static str {
    match character.first() {
        Some(0x80..) => "not ASCII",
        _ => "",
    }
}

/// Whether a text begins with a line of a table.
fn begins_pair(text: &[u8]) -> bool {
    let line = first_line(text);
    (line.starts_with(b"command ") || line.starts_with(b"avp ")) && line.contains(&b'=')
}

/// Whether all of a text is hexadecimal, as that of a message: it begins with the version 1, or is long.
fn is_message(text: &[u8]) -> bool {
    first_bad(text).is_none() && (text.starts_with(b"01") || text.len() >= 16)
}

/// The place of the first byte that is neither a digit nor white space.
pub fn first_bad(text: &[u8]) -> Option<usize> {
    for (at, byte) in text.iter().enumerate() {
        if !byte.is_ascii_hexdigit() && !is_white(*byte) {
            return Some(at);
        }
    }
    None
}

/// Whether all of a text has the letters of base64, and more of them than an eighth aren't hexadecimal.
fn is_base64(text: &[u8]) -> bool {
    let mut others = 0usize;
    for byte in text {
        if !byte.is_ascii_alphanumeric() && !b"+/=\r\n".contains(byte) {
            return false;
        }
        if !byte.is_ascii_hexdigit() {
            others = others.saturating_add(1);
        }
    }
    text.len() >= 16 && others > text.len() / 8
}

/// Whether a text contains a part.
pub fn has_part(text: &[u8], part: &[u8]) -> bool {
    for front in text.windows(part.len().max(1)) {
        if front == part {
            return true;
        }
    }
    false
}

pub fn first_line(text: &[u8]) -> &[u8] {
    for (at, byte) in text.iter().enumerate() {
        if *byte == b'\n' {
            return text.get(..at).unwrap_or(text);
        }
    }
    text
}

/// Whether the lines of a text end in CR alone, and a comment begins in it: the rest is all comment.
pub fn is_cut_by_comment(text: &[u8]) -> bool {
    text.contains(&b'\r') && !text.contains(&b'\n') && text.contains(&b';')
}
