//! Look-ups, by both kinds of book.
//!
//! ```text
//! entry PLACE | DICTIONARY => the name and the code of the AVP at a place, and `group` if it is one
//! avp CODE VENDOR | DICTIONARY => its name
//! format CODE VENDOR | DICTIONARY => its format
//! command PLACE | DICTIONARY => the name of the command at a place
//! select CODE CLASS APPLICATION | DICTIONARY => the name of the command that a message selects
//! slot CODE CLASS AVP | DICTIONARY => the slot of an AVP without a vendor in the command of application 0
//! has CODE CLASS | DICTIONARY => true or false
//! all | DICTIONARY => alike
//! ```
//!
//! Where there is none, the answer is `-`. `all` are the look-ups of `answers`, which both books of a dictionary answer alike.

use super::answers::same_answers;
use super::{indexed_of, read};
use crate::words::{number_of, same};
use dia_dict::{Book, Class, Key, base_text};
use dia_rows::{Names, Row, field, word};
use std::alloc::{AllocError, Global};
use std::process::Abort;

const ROWS: &str = r"
# The AVPs of the base dictionary: the declared ones, and then the groups.
entry 0 | $base => User-Name 1
entry 1 | $base => Proxy-State 33
entry 2 | $base => Host-IP-Address 257
entry 3 | $base => Auth-Application-Id 258
entry 4 | $base => Acct-Application-Id 259
entry 5 | $base => Session-Id 263
entry 6 | $base => Origin-Host 264
entry 7 | $base => Supported-Vendor-Id 265
entry 8 | $base => Vendor-Id 266
entry 9 | $base => Firmware-Revision 267
entry 10 | $base => Result-Code 268
entry 11 | $base => Product-Name 269
entry 12 | $base => Disconnect-Cause 273
entry 13 | $base => Origin-State-Id 278
entry 14 | $base => Proxy-Host 280
entry 15 | $base => Error-Message 281
entry 16 | $base => Error-Reporting-Host 294
entry 17 | $base => Origin-Realm 296
entry 18 | $base => Experimental-Result-Code 298
entry 19 | $base => Inband-Security-Id 299
entry 20 | $base => Vendor-Specific-Application-Id 260 group
entry 21 | $base => Failed-AVP 279 group
entry 22 | $base => Proxy-Info 284 group
entry 23 | $base => Experimental-Result 297 group
entry 24 | $base => -
avp 264 10415 | $base => -

# Its commands, in their order and by what selects them.
command 0 | $base => CER
select 257 request 16777251 | $base => CER
command 1 | $base => CEA
select 257 answer 16777251 | $base => CEA
command 2 | $base => DWR
select 280 request 16777251 | $base => DWR
command 3 | $base => DWA
select 280 answer 16777251 | $base => DWA
command 4 | $base => DPR
select 282 request 16777251 | $base => DPR
command 5 | $base => DPA
select 282 answer 16777251 | $base => DPA
command 6 | $base => answer-message
select 0 error 16777251 | $base => answer-message
command 7 | $base => -
select 271 request 0 | $base => -

# Commands and slots of the base dictionary.
all | $base => alike
select 257 request 7 | $base => CER
select 280 answer 0 | $base => DWA
select 9999 error 7 | $base => answer-message
select 258 request 0 | $base => -
slot 257 request 264 | $base => Loose(0)
slot 257 request 263 | $base => Unlisted
slot 0 error 263 | $base => Fixed(0)
has 9999 error | $base => true
has 258 answer | $base => false

# A command for all applications, and one for application 5.
let APPLICATIONS = %avp X 9002 Unsigned32 any <T> ::= < Diameter Header: 302, REQ > { X } <T5> ::= < Diameter Header: 302, REQ, 5 > { X }
all | $APPLICATIONS => alike
select 302 request 5 | $APPLICATIONS => T5
select 302 request 0 | $APPLICATIONS => T
select 302 answer 5 | $APPLICATIONS => -

# A command with a fixed rule.
let FIXED = %avp Session-Id 263 UTF8String any %avp Origin-Host 264 DiameterIdentity any <T> ::= < Diameter Header: 300, REQ > < Session-Id > { Origin-Host }
all | $FIXED => alike
slot 300 request 263 | $FIXED => Fixed(0)
slot 300 request 264 | $FIXED => Loose(1)

# The example of dia_dict's docs.
let EXAMPLE = %avp Origin-Host 264 DiameterIdentity must <DWR> ::= <Diameter-Header:280,REQ> {Origin-Host}
avp 264 0 | $EXAMPLE => Origin-Host
format 264 0 | $EXAMPLE => DiameterIdentity
slot 280 request 264 | $EXAMPLE => Loose(0)

# A group that may hold itself, and a command of it.
let NODES = <Node> ::= < AVP Header: 9001 > * [ Node ] <T> ::= < Diameter Header: 301, REQ > * [ Node ]
all | $NODES => alike
slot 301 request 9001 | $NODES => Loose(0)
entry 0 | $NODES => Node 9001 group
entry 1 | $NODES => -
";

#[test]
fn looks_up(rt: HostRuntime) {
    let mut names = Names::new(rt.alloc());
    let base = Vec::from_slice(rt.alloc(), base_text().as_bytes()).expect(&rt, "memory");
    names.define("base", base).expect(&rt, "memory");
    for line in ROWS.lines() {
        if let Some(row) = names.row(line).expect(&rt, line) {
            answers(&rt, &names, &row);
        }
    }
}

/// Checks a row with both kinds of book.
fn answers(rt: &(impl AllocGlobal + Abort), names: &Names, row: &Row<'_>) {
    let text = names.text(field(row.call, 1)).expect(rt, row.line);
    let text = str::from_utf8(text.as_slice()).expect(rt, row.line);
    let plain = Box::new(rt.alloc(), read(rt, text).expect(rt, text))
        .ok()
        .expect(rt, "memory");
    let indexed = indexed_of(rt, text);
    if row.call.starts_with("all ") {
        same_answers(rt, &*plain, &*indexed);
        return;
    }
    is_answer(rt, &*plain, row);
    is_answer(rt, &*indexed, row);
}

/// Checks what a book answers to a row.
fn is_answer<B: Book>(rt: &(impl AllocGlobal + Abort), book: &B, row: &Row<'_>) {
    let call = field(row.call, 0);
    let first = word(call, 1);
    let found = match word(call, 0) {
        "entry" => entry(rt.alloc(), book, number_of(rt, first) as usize),
        "command" => owned(rt.alloc(), command(book, number_of(rt, first) as usize)),
        "avp" => owned(rt.alloc(), avp(book, key_of(rt, call))),
        "format" => format_text(rt.alloc(), book, key_of(rt, call)),
        verb => {
            let class = class_of(word(call, 2));
            let code = number_of(rt, first);
            selects(rt, book, verb, (code, class), word(call, 3))
        }
    };
    let found = found.expect(rt, "memory");
    same(rt, found.as_bytes(), row.wanted.as_bytes(), row.line);
}

/// The key of `avp CODE VENDOR`.
fn key_of(rt: &impl Abort, call: &str) -> Key {
    Key {
        code: number_of(rt, word(call, 1)),
        vendor: number_of(rt, word(call, 2)),
    }
}

/// What a book answers of the command that a message of a code and a class selects.
fn selects<B: Book>(
    rt: &(impl AllocGlobal + Abort),
    book: &B,
    verb: &str,
    message: (u32, Class),
    last: &str,
) -> Result<String, AllocError> {
    let (code, class) = message;
    match verb {
        "select" => owned(rt.alloc(), selected(book, code, class, number_of(rt, last))),
        "slot" => slot(rt.alloc(), book, code, class, number_of(rt, last)),
        _ => {
            let has = book.has_command(code, class);
            format!(in rt.alloc(); "{has}")
        }
    }
}

fn class_of(word: &str) -> Class {
    match word {
        "request" => Class::Request,
        "answer" => Class::Answer,
        _ => Class::Error,
    }
}

/// A name that is owned, or `-`.
fn owned(alloc: Global, name: Option<&str>) -> Result<String, AllocError> {
    String::from_str(alloc, name.unwrap_or("-"))
}

/// The AVP at a place, which its key leads to again.
fn entry<B: Book>(alloc: Global, book: &B, place: usize) -> Result<String, AllocError> {
    if place >= book.entries() {
        return String::from_str(alloc, "-");
    }
    let entry = book.entry_at(place);
    let code = book.entry_key(entry).code;
    if book.avp(Key { code, vendor: 0 }) != Some(entry) {
        return String::from_str(alloc, "another");
    }
    let name = book.entry_name(entry);
    let group = if book.group(entry).is_some() {
        " group"
    } else {
        ""
    };
    format!(in alloc; "{name} {code}{group}")
}

/// The name of the AVP of a key.
fn avp<B: Book>(book: &B, key: Key) -> Option<&str> {
    let entry = book.avp(key)?;
    Some(book.entry_name(entry))
}

/// The format of the AVP of a key.
fn format_text<B: Book>(alloc: Global, book: &B, key: Key) -> Result<String, AllocError> {
    match book.avp(key) {
        Some(entry) => {
            let format = book.format(entry);
            format!(in alloc; "{format:?}")
        }
        None => String::from_str(alloc, "-"),
    }
}

/// The name of the command at a place.
fn command<B: Book>(book: &B, place: usize) -> Option<&str> {
    if place >= book.commands() {
        return None;
    }
    Some(book.def(book.command_at(place)).name.as_str())
}

/// The name of the command that a message selects.
fn selected<B: Book>(book: &B, code: u32, class: Class, app: u32) -> Option<&str> {
    let def = book.select(code, class, app)?;
    Some(book.def(def).name.as_str())
}

/// The slot of an AVP without a vendor in the command that a message of application 0 selects.
fn slot<B: Book>(
    alloc: Global,
    book: &B,
    code: u32,
    class: Class,
    avp: u32,
) -> Result<String, AllocError> {
    match book.select(code, class, 0) {
        Some(def) => {
            let key = Key {
                code: avp,
                vendor: 0,
            };
            let slot = book.slot(def, key);
            format!(in alloc; "{slot:?}")
        }
        None => String::from_str(alloc, "-"),
    }
}
