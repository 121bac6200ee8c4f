//! Messages made of texts, and texts of messages. The bytes were worked out by hand from RFC 6733 sections 3 and 4.1.
//!
//! ```text
//! TEXT => the message in hexadecimal, or the first fault
//! TEXT => a line for each message, or the first fault (in `many`)
//! TEXT => all faults (in `faults`)
//! MESSAGE => the text, or why there is none (in `texts`)
//! ```
//!
//! The dictionary is `DICTIONARY`.

mod avps;
mod faults;
mod groups;
mod headers;
mod many;
mod memory;
mod refusals;
mod texts;
mod values;

use crate::words::same;
use dia_ccf::parse;
use dia_dict::{PlainBook, resolve};
use dia_rows::{Names, Row, without_blanks};
use dia_text::{all_faults, as_text, make, make_all};
use std::alloc::{AllocError, Global};
use std::process::Abort;

const DICTIONARY: &str = "
%avp Framed-IP-Address 8 OctetString must
%avp Event-Timestamp 55 Time must
%avp Host-IP-Address 257 Address must
%avp Session-Id 263 UTF8String must
%avp Origin-Host 264 DiameterIdentity must
%avp Redirect-Host 292 DiameterURI must
%avp CC-Request-Number 415 Unsigned32 must
%avp CC-Request-Type 416 Enumerated must ( 1..4 )
%avp Filter-Rule 400 IPFilterRule must
%avp CC-Total-Octets 421 Unsigned64 must
%avp Exponent 429 Integer32 must
%avp Subscription-Id-Data 444 UTF8String must
%avp Value-Digits 447 Integer64 must
%avp Subscription-Id-Type 450 Enumerated must
%avp Ratio 9004 Float32 any
%avp Note 9005 vendor 32473 UTF8String mustnot
%avp Charge 9006 vendor 32473 Unsigned32 any
<Subscription-Id> ::= < AVP Header: 443 >
  { Subscription-Id-Type }
  { Subscription-Id-Data }
<Nest> ::= < AVP Header: 9100 32473 >
  * [ Nest ]
  * [ AVP ]
<Credit-Control-Request> ::= < Diameter Header: 272, REQ, PXY, 4 >
  * [ AVP ]
<Credit-Control-Answer> ::= < Diameter Header: 272, PXY, 4 >
  * [ AVP ]
<Device-Watchdog-Request> ::= < Diameter Header: 280, REQ >
  * [ AVP ]
<answer-message> ::= < Diameter Header: code, ERR [, PXY] >
  * [ AVP ]
<Huge> ::= < Diameter Header: 16777215 >
  * [ AVP ]
";

/// A header as a text, and what follows its Message Length.
const HEADER: &str = r"
let H = code 272 flags RP app 4 hop 1 end 2
let B = c0 000110 00000004 00000001 00000002
";

const TEXTS: [&str; 5] = [
    headers::ROWS,
    avps::ROWS,
    values::ROWS,
    groups::ROWS,
    refusals::ROWS,
];

/// A call that a row is about.
#[derive(Clone, Copy)]
enum Call {
    Make,
    MakeAll,
    AllFaults,
    AsText,
}

#[test]
fn texts_make_messages(rt: HostRuntime) {
    let book = book_of(&rt);
    for text in TEXTS.iter() {
        holds_all(&rt, &book, text, Call::Make);
    }
    holds_all(&rt, &book, many::ROWS, Call::MakeAll);
    holds_all(&rt, &book, faults::ROWS, Call::AllFaults);
}

#[test]
fn messages_are_written_as_texts(rt: HostRuntime) {
    let book = book_of(&rt);
    holds_all(&rt, &book, texts::ROWS, Call::AsText);
}

/// The book of `DICTIONARY`.
fn book_of(rt: &(impl AllocGlobal + Abort)) -> Box<PlainBook> {
    let source = parse(rt.alloc(), DICTIONARY).expect(rt, "dictionary");
    let book = resolve(rt.alloc(), source).expect(rt, "dictionary");
    Box::new(rt.alloc(), book).ok().expect(rt, "memory")
}

/// Checks each row of a text.
fn holds_all(rt: &(impl AllocGlobal + Abort), book: &PlainBook, text: &str, call: Call) {
    let mut names = Names::new(rt.alloc());
    names.learn_all(HEADER).expect(rt, HEADER);
    for line in text.lines() {
        if let Some(row) = names.row(line).expect(rt, line) {
            match call {
                Call::AsText => writes(rt, book, &names, &row),
                _ => makes(rt, book, &names, &row, call),
            }
        }
    }
}

/// Checks a row of a text that makes messages.
fn makes(
    rt: &(impl AllocGlobal + Abort),
    book: &PlainBook,
    names: &Names,
    row: &Row<'_>,
    call: Call,
) {
    let text = names.text(row.call).expect(rt, row.line);
    let wanted = names.text(row.wanted).expect(rt, row.line);
    let found = match call {
        Call::MakeAll => lines_of(rt.alloc(), book, text.as_slice()).expect(rt, "memory"),
        Call::AllFaults => faults_of(rt.alloc(), book, text.as_slice()).expect(rt, "memory"),
        _ => words_of(rt.alloc(), book, text.as_slice()).expect(rt, "memory"),
    };
    let found = without_blanks(rt.alloc(), found.as_bytes()).expect(rt, "memory");
    let wanted = without_blanks(rt.alloc(), wanted.as_slice()).expect(rt, "memory");
    same(rt, found.as_slice(), wanted.as_slice(), row.line);
}

/// Checks a row of a text that is written.
fn writes(rt: &(impl AllocGlobal + Abort), book: &PlainBook, names: &Names, row: &Row<'_>) {
    let digits = names.text(row.call).expect(rt, row.line);
    let digits = without_blanks(rt.alloc(), digits.as_slice()).expect(rt, "memory");
    let wanted = names.text(row.wanted).expect(rt, row.line);
    let message = hex::decode(rt.alloc(), digits.as_slice()).expect(rt, row.line);
    let found = text_of(rt.alloc(), book, message.as_slice()).expect(rt, "memory");
    same(rt, found.as_bytes(), wanted.as_slice(), row.line);
}

/// The message of a text in hexadecimal, or the words of its fault.
fn words_of(alloc: Global, book: &PlainBook, text: &[u8]) -> Result<String, AllocError> {
    match make(alloc, book, text) {
        Ok(message) => hex::encode(alloc, message),
        Err(fault) => fault.to_string(alloc),
    }
}

/// The lines of the messages of a text, or the words of its fault.
fn lines_of(alloc: Global, book: &PlainBook, text: &[u8]) -> Result<String, AllocError> {
    match make_all(alloc, book, text) {
        Ok(lines) => Ok(lines),
        Err(fault) => fault.to_string(alloc),
    }
}

/// The number of the faults of a text, and the words of the first.
fn faults_of(alloc: Global, book: &PlainBook, text: &[u8]) -> Result<String, AllocError> {
    let faults = all_faults(alloc, book, text)?;
    let mut words = format!(in alloc; "{}", faults.count)?;
    for fault in &faults.first {
        write!(words, "; {fault}")?;
    }
    Ok(words)
}

/// The text of a message, or why there is none.
fn text_of(alloc: Global, book: &PlainBook, message: &[u8]) -> Result<String, AllocError> {
    match as_text(alloc, book, message) {
        Ok(text) => Ok(text),
        Err(why) => why.to_string(alloc),
    }
}
