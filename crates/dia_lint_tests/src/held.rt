//! Which AVPs of a dictionary some message has that its side sends. The expected answers were worked out by hand.
//!
//! ```text
//! SENDS | DICTIONARY => NAMES
//! ```
//!
//! NAMES are in the dictionary's order; `-` where no AVP is in a message.

use dia_ccf::parse;
use dia_dict::{Book, PlainBook, resolve};
use dia_lint::held_avps;
use dia_rows::{Names, Row, RowFault, field};
use dia_terms::Sends;
use std::alloc::{AllocError, Global};
use std::process::Abort;
use std::test::Fail;

const ROWS: &str = r"
let X = %avp X 9002 Unsigned32 any
let Y = %avp Y 9003 Unsigned32 any
let G = <G> ::= < AVP Header: 9100 >
let H = <H> ::= < AVP Header: 9101 >
let T = <T> ::= < Diameter Header: 302, REQ >
let U = <U> ::= < Diameter Header: 303, REQ >

# A group that says nothing, and one that lets nothing in.
listed | $X $G * [ AVP ] $T [ G ] => G
known | $X $G * [ AVP ] $T [ G ] => X G
any | $X $G * [ AVP ] $T [ G ] => X G
known | $X $G *0 [ AVP ] $T [ G ] => G
any | $X $G *0 [ AVP ] $T [ G ] => G

# A rule beside the wildcard, and a group that only a wildcard lets in.
listed | $X $Y $G [ X ] * [ AVP ] $T [ G ] => X G
known | $X $Y $G [ X ] * [ AVP ] $T [ G ] => X Y G
listed | $X $G * [ AVP ] $H * [ X ] $T [ G ] => G
known | $X $G * [ AVP ] $H * [ X ] $T [ G ] => X G H

# A rule of another command, and a rule that forbids.
listed | $X $G * [ AVP ] $T [ G ] $U [ X ] => X G
listed | $X $Y $T *0 [ X ] [ Y ] => Y
any | $X $T *0 [ X ] * [ AVP ] => -

# A group of which no level is sent, also where a command needs it; and one that needs itself.
listed | $X $G 1* { AVP } $T [ G ] [ X ] => X
listed | $X $G 1* { AVP } $T { G } [ X ] => -
known | $X $G 1* { AVP } $T { G } [ X ] => X G
any | $X $G { X } { G } $T [ G ] => -
any | $X $G { X } { G } $T [ G ] * [ AVP ] => X

# A command that no message has room for, and no command.
any | $X $Y $T 1398100*1398100 { X } $U [ Y ] => Y
any | $X $G [ X ] => -
";

/// Checks a row.
fn check_row(rt: &(impl AllocGlobal + Abort), names: &Names, row: &Row<'_>) -> Result<(), Fail> {
    let text = names.text(field(row.call, 1))?;
    let book = resolve(
        rt.alloc(),
        parse(rt.alloc(), str::from_utf8(text.as_slice())?)?,
    )?;
    let found = held_in(rt.alloc(), &book, field(row.call, 0))?;
    assert_eq!(rt; found.as_str(), row.wanted, "{}", row.line);
    Ok(())
}

/// The names of the AVPs that a message has.
fn held_in(alloc: Global, book: &PlainBook, word: &str) -> Result<String, Fail> {
    let held = match word {
        "listed" => held_avps(alloc, book, Sends::Listed)?,
        "known" => held_avps(alloc, book, Sends::Known)?,
        "any" => held_avps(alloc, book, Sends::Any)?,
        _ => return Err(RowFault::Row.into()),
    };
    Ok(named(alloc, book, &held)?)
}

/// The names of AVPs, of which it is said for each whether it is meant.
fn named(alloc: Global, book: &PlainBook, held: &[bool]) -> Result<String, AllocError> {
    let mut text = String::new(alloc);
    for index in 0..book.entries() {
        if held.get(index).copied().unwrap_or(false) {
            text.push_str(if text.is_empty() { "" } else { " " })?;
            text.push_str(book.entry_name(book.entry_at(index)))?;
        }
    }
    if text.is_empty() {
        text.push('-')?;
    }
    Ok(text)
}

#[test]
fn records_what_messages_have(rt: HostRuntime) -> Result<(), Fail> {
    let mut names = Names::new(rt.alloc());
    for line in ROWS.lines() {
        if let Some(row) = names.row(line)? {
            check_row(&rt, &names, &row)?;
        }
    }
    Ok(())
}
