ghost use Rattle.std.specs.Prelude.{◌<◌, IfOk};

use crate::fault::RowFault;
use std::alloc::{AllocError, Global};

/// A call, and what it is to answer.
#[derive(Clone, Copy)]
pub struct Row<'a> {
    pub line: &'a str,
    pub call: &'a str,
    pub wanted: &'a str,
}

impl<'a> Row<'a> {
    pub(crate) fn new(line: &'a str) -> Result<Row<'a>, RowFault> {
        let (call, wanted) = line.split_once("=>").ok_or(RowFault::Row)?;
        Ok(Row {
            line,
            call: call.trim(),
            wanted: wanted.trim(),
        })
    }
}

/// The field of a call at a place, from 0. It is empty where the call has fewer.
pub fn field(call: &str, place: usize) -> &str {
    for (at, field) in call.split('|').enumerate() {
        if at == place {
            return field.trim();
        }
    }
    ""
}

/// The word of a text at a place, from 0. It is empty where the text has fewer.
pub fn word(text: &str, place: usize) -> &str {
    text.split_ascii_whitespace().nth(place).unwrap_or("")
}

/// A text without its blanks.
pub fn without_blanks(alloc: Global, text: &[u8]) -> Result<Vec<u8>, AllocError> {
    let mut bytes = Vec::new(alloc);
    for byte in text {
        if *byte != b' ' {
            bytes.push(*byte)?;
        }
    }
    Ok(bytes)
}

/// The bytes that hexadecimal digits are; blanks between them count for nothing.
pub fn bytes_of(alloc: Global, text: &[u8]) -> Result<Vec<u8>, RowFault> {
    let digits = without_blanks(alloc, text)?;
    let mut bytes = Vec::new(alloc);
    for pair in digits.as_slice().chunks(2) {
        match pair {
            [high, low] => bytes.extend_from_slice(&[byte_of(*high, *low)?])?,
            _ => return Err(RowFault::Digits),
        }
    }
    Ok(bytes)
}

/// The byte of two digits.
fn byte_of(high: u8, low: u8) -> Result<u8, RowFault> {
    let high = digit(high)?;
    let low = digit(low)?;
    Ok(high * 16 + low)
}

fn digit(byte: u8) -> Result<u8, RowFault>
    ensures { IfOk result (λ digit. digit < 16) }
{
    match byte {
        b'0'..=b'9' => Ok(byte - b'0'),
        b'a'..=b'f' => Ok(byte - b'a' + 10),
        _ => Err(RowFault::Digits),
    }
}

/// Pushes a text with its escapes written out.
pub(crate) fn push_plain(bytes: &mut Vec<u8>, text: &str) -> Result<(), RowFault> {
    let mut parts = text.split('\\');
    if let Some(first) = parts.next() {
        bytes.extend_from_slice(first.as_bytes())?;
    }
    for part in parts {
        push_escaped(bytes, part.as_bytes())?;
    }
    Ok(())
}

/// Pushes the byte of the escape at the front, and the text behind it.
fn push_escaped(bytes: &mut Vec<u8>, part: &[u8]) -> Result<(), RowFault> {
    let (byte, rest) = match part {
        [b'n', rest @ ..] => (b'\n', rest),
        [b't', rest @ ..] => (b'\t', rest),
        [b'r', rest @ ..] => (b'\r', rest),
        [b'x', high, low, rest @ ..] => (byte_of(*high, *low)?, rest),
        _ => return Err(RowFault::Escape),
    };
    bytes.extend_from_slice(&[byte])?;
    bytes.extend_from_slice(rest)?;
    Ok(())
}
