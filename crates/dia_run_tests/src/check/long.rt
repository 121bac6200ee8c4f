//! Messages of the greatest length.

use super::pieces::{check_level, feed_pieces};
use super::{AVPS, WATCHDOG};
use crate::books::{Books, Task};
use dia_check::{Levels, Unknown};
use dia_dict::base_text;
use dia_rows::{RowFault, bytes_of};
use std::alloc::Global;

/// The greatest Message Length that is a multiple of four.
const LENGTH: usize = 16_777_212;

/// The header of a watchdog request of the greatest length.
const HEADER: &str = "01fffffc80000118000000000000000100000002";

/// The heads of a Failed-AVP that fills the rest of the message, and of an unknown AVP that fills the Failed-AVP.
const HEADS: &str = "0000011700ffffd00000270f00ffffc8";

/// How many unknown AVPs without data fill the rest of the message.
const COUNT: u32 = 2_097_146;

/// An unknown AVP without data.
const UNKNOWN: [u8; 8] = [0, 0, 0x27, 0x0f, 0, 0, 0, 8];

/// The first bytes of a watchdog request of the greatest length, whose AVPs begin with an Origin-Host and an Origin-Realm.
fn front(alloc: Global, following: &str) -> Result<Vec<u8>, RowFault> {
    let text = format!(in alloc; "{HEADER}{AVPS}{following}")?;
    bytes_of(alloc, text.as_bytes())
}

/// The message with the Failed-AVP.
fn filled(alloc: Global) -> Result<Vec<u8>, RowFault> {
    let mut bytes = front(alloc, HEADS)?;
    bytes.resize(LENGTH, 0)?;
    Ok(bytes)
}

/// The message with many unknown AVPs.
fn repeated(alloc: Global) -> Result<Vec<u8>, RowFault> {
    let mut bytes = front(alloc, "")?;
    for _ in 0..COUNT {
        bytes.extend_from_slice(&UNKNOWN)?;
    }
    Ok(bytes)
}

/// A message that is valid.
fn valid(message: &[u8]) -> Task<'_> {
    Task {
        unknown: Unknown::Kept,
        levels: Levels::Any,
        message,
        wanted: WATCHDOG,
    }
}

/// How many levels are open after so many bytes of the message with the Failed-AVP.
const LEVELS: [(usize, usize); 8] = [
    (19, 0),
    (20, 1),
    (51, 1),
    (52, 2),
    (60, 2),
    (8_000_001, 2),
    (16_777_211, 2),
    (16_777_212, 0),
];

#[test]
fn takes_one_avp_that_fills_the_message(rt: HostRuntime) {
    let books = Books::new(&rt, base_text().as_bytes());
    let bytes = filled(rt.alloc()).expect(&rt, "a message");
    let bytes = bytes.as_slice();
    assert!(rt; bytes.len() == LENGTH);
    books.judge(&rt, valid(bytes));
    for size in [61, 4_096, LENGTH] {
        feed_pieces(&rt, &*books.plain, valid(bytes), size);
    }
    for (count, levels) in LEVELS.iter() {
        let (front, _) = bytes.split_at_checked(*count).expect(&rt, "a front");
        check_level(&rt, &*books.indexed, front, *levels);
    }
}

/// A command of any AVPs, and the first bytes of a message of it: the head of an unknown AVP that fills the rest.
const ANY: &str = "<T> ::= < Diameter Header: 302, REQ > * [ AVP ]";

const UNKNOWN_HEAD: &str = "01fffffc8000012e0000000000000001000000020000270f00ffffe8";

/// The message of the unknown AVP, whose data are zeros.
fn unknown(alloc: Global) -> Result<Vec<u8>, RowFault> {
    let mut bytes = bytes_of(alloc, UNKNOWN_HEAD.as_bytes())?;
    bytes.resize(LENGTH, 0)?;
    Ok(bytes)
}

#[test]
fn takes_one_unknown_avp(rt: HostRuntime) {
    let bytes = unknown(rt.alloc()).expect(&rt, "a message");
    let books = Books::new(&rt, ANY.as_bytes());
    let task = Task {
        unknown: Unknown::Kept,
        levels: Levels::Any,
        message: bytes.as_slice(),
        wanted: "0 valid T\n",
    };
    books.judge(&rt, task);
    feed_pieces(&rt, &*books.plain, task, 4_096);
    feed_pieces(&rt, &*books.indexed, task, 4_096);
}

#[test]
fn takes_many_avps(rt: HostRuntime) {
    let bytes = repeated(rt.alloc()).expect(&rt, "a message");
    assert!(rt; bytes.len() == LENGTH);
    let books = Books::new(&rt, base_text().as_bytes());
    feed_pieces(&rt, &*books.indexed, valid(bytes.as_slice()), 4_099);
}
