//! The diagnostic of a text of many messages whose first bytes show that it is none.

use crate::kinds::{first_bad, first_line, is_capture};
use crate::messages::{bytes_of, dump_of, push_bad};
use crate::notes::push_whole;
use byteorder::{BigEndian, ByteOrder};
use dia_explain_places::{NamedText, Note, count_digits};
use std::alloc::{AllocError, Global};

/// How many bytes of a header hold the version and the Message Length.
const LENGTH_END: usize = 4;

/// Adds what a text is, where its first bytes show that it has no messages, or none in lines.
pub fn push_front(note: &mut Note, name: &str, front: &[u8], in_lines: bool) {
    let input = NamedText { name, text: front };
    if count_digits(front) == 0 && (front.is_empty() || !in_lines) {
        let hint = "docs/CAPTURES.md says what to look at where a capture gives none";
        return push_whole(note, &input, "there is no message", hint);
    }
    let line = first_line(front);
    // A file of packets is no text of messages from its first byte on.
    let bad = if is_capture(front) {
        Some(0)
    } else {
        first_bad(line)
    };
    match bad {
        Some(at) => push_bad(note, &input, "the hexadecimal text of messages", at),
        None => push_digits(note, &input, line, in_lines),
    }
}

/// Adds what a text is whose first line is of digits.
fn push_digits(note: &mut Note, input: &NamedText<'_>, line: &[u8], in_lines: bool) {
    let NamedText { name, text } = *input;
    if let Some(hint) = dump_of(text) {
        note.put_all(&[name, ": "]);
        note.put(hint);
        note.put("\n");
    } else if in_lines && line.len() != text.len() {
        match is_cut(note.allocator(), line) {
            Ok(true) => push_whole(
                note,
                input,
                "the first line ends in the middle of its message, and with --lines each message is on one line",
                "without --lines a message may have several lines, as `xxd -p` writes it; --stream takes many such messages",
            ),
            Ok(false) => {}
            Err(error) => note.keep(Err(error)),
        }
    }
}

/// Whether a line of digits begins as a message does and ends in its middle.
fn is_cut(alloc: Global, line: &[u8]) -> Result<bool, AllocError> {
    let head = bytes_of(alloc, line, LENGTH_END)?;
    match head.as_slice() {
        [1, length @ ..] if length.len() == 3 => {
            let length = BigEndian::read_u24(length) as usize;
            Ok(count_digits(line) / 2 < length)
        }
        _ => Ok(false),
    }
}
