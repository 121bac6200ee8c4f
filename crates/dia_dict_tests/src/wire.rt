//! The calls on bytes. The answers were worked out by hand from RFC 6733 sections 3 and 4.1.
//!
//! ```text
//! avps | BYTES => the AVPs of a level, and `fault` where no AVP begins
//! head ROOM | BYTES => CODE:VENDOR LENGTH of an AVP that has so much room, `more` where its head isn't whole, or the fault
//! header | BYTES => the fields of a header and the Message Length, or the fault
//! message | BYTES => the fields of the header, and the AVPs; or the fault
//! number | BYTES => the number of 32 bits, or `-`
//! put FLAGS CODE VENDOR | DATA => the bytes of an AVP, or `disagrees`. VENDOR is `-` where there is none
//! ```
//!
//! BYTES are in hexadecimal, and the words of a call are decimal. An AVP is written as CODE:VENDOR FLAGS LENGTH DATA, with `M`
//! after the flags if it is mandatory, and a semicolon. The fields of a header are FLAGS CODE APPLICATION HOP END, with the
//! letters of its flags after them.

mod reading;
mod rows;
mod writing;

use crate::words::same;
use dia_rows::{Names, Row, bytes_of, field, word};
use reading::{push_avps, push_head, push_header, push_message, push_number};
use std::alloc::AllocError;
use std::process::Abort;
use writing::push_written;

/// A device watchdog request of the smallest kind: Origin-Host `a.b` and Origin-Realm `b`.
pub const REQUEST: [u8; 44] = [
    0x01, 0x00, 0x00, 0x2c, 0x80, 0x00, 0x01, 0x18, 0x00, 0x00, 0x00, 0x00, 0x00, 0x00, 0x00, 0x01,
    0x00, 0x00, 0x00, 0x02, 0x00, 0x00, 0x01, 0x08, 0x40, 0x00, 0x00, 0x0b, 0x61, 0x2e, 0x62, 0x00,
    0x00, 0x00, 0x01, 0x28, 0x40, 0x00, 0x00, 0x09, 0x62, 0x00, 0x00, 0x00,
];

/// What adding to an answer answers.
type Added = Result<(), AllocError>;

#[test]
fn bytes_are_read_and_written(rt: HostRuntime) {
    let mut names = Names::new(rt.alloc());
    for line in rows::ROWS.lines() {
        if let Some(row) = names.row(line).expect(&rt, line) {
            answers(&rt, &names, &row);
        }
    }
}

/// Checks a row.
fn answers(rt: &(impl AllocGlobal + Abort), names: &Names, row: &Row<'_>) {
    let digits = names.text(field(row.call, 1)).expect(rt, row.line);
    let bytes = bytes_of(rt.alloc(), digits.as_slice()).expect(rt, row.line);
    let mut found = String::new(rt.alloc());
    push_answer(rt, &mut found, field(row.call, 0), bytes.as_slice()).expect(rt, "memory");
    same(rt, found.as_bytes(), row.wanted.as_bytes(), row.line);
}

/// Adds what a call answers of some bytes.
fn push_answer(
    rt: &(impl AllocGlobal + Abort),
    out: &mut String,
    call: &str,
    bytes: &[u8],
) -> Added {
    match word(call, 0) {
        "avps" => push_avps(out, bytes),
        "head" => push_head(rt, out, bytes, word(call, 1)),
        "header" => push_header(out, bytes),
        "message" => push_message(out, bytes),
        "number" => push_number(out, bytes),
        _ => push_written(rt, out, call, bytes),
    }
}

/// Adds bytes as hexadecimal digits.
fn push_hex(out: &mut String, bytes: &[u8]) -> Added {
    for byte in bytes {
        write!(out, "{byte:02x}")?;
    }
    Ok(())
}
