//! Which AVPs of A no message has that A's side sends. The expected answers were worked out by hand from docs/FORMATS.md and
//! docs/FAULTS.md.
//!
//! ```text
//! SENDS POLICY | A | B => NAMES
//! ```
//!
//! POLICY is that of B's side for AVPs that B doesn't know. NAMES are in A's order, with `*` behind those that B's side would
//! refuse; `-` where each AVP is in some message.

use crate::books::{indexed_of, plain_of, same, sides_of};
use dia_breaking::{Sends, Upgrade};
use dia_dict::Book;
use dia_rows::{Names, Row, RowFault, field};
use dia_unsent::{Unsent, unsent_avps};
use std::alloc::{AllocError, Global};
use std::process::Abort;
use std::test::Fail;

const ROWS: &str = r"
let X = %avp X 9002 Unsigned32 any
let Y = %avp Y 9003 Unsigned32 any
let X8 = %avp X 9002 Unsigned64 any
let Y8 = %avp Y 9003 Unsigned64 any
let G = <G> ::= < AVP Header: 9100 >
let H = <H> ::= < AVP Header: 9101 >
let T = <T> ::= < Diameter Header: 302, REQ >
let U = <U> ::= < Diameter Header: 303, REQ >

# A group that says nothing, and one that lets nothing in.
listed kept | $X $G * [ AVP ] $T [ G ] | $X8 $G * [ AVP ] $T [ G ] => X*
known kept | $X $G * [ AVP ] $T [ G ] | $X8 $G * [ AVP ] $T [ G ] => -
known kept | $X $G *0 [ AVP ] $T [ G ] | $X8 $G * [ AVP ] $T [ G ] => X*
any kept | $X $G *0 [ AVP ] $T [ G ] | $X $G * [ AVP ] $T [ G ] => X

# A rule beside the wildcard, and a group that only a wildcard lets in.
listed kept | $X $Y $G [ X ] * [ AVP ] $T [ G ] | $X $Y8 $G [ X ] * [ AVP ] $T [ G ] => Y*
listed kept | $X $G * [ AVP ] $H * [ X ] $T [ G ] | $X $G * [ AVP ] $H *2 [ X ] $T [ G ] => X H*
known kept | $X $G * [ AVP ] $H * [ X ] $T [ G ] | $X $G * [ AVP ] $H *2 [ X ] $T [ G ] => -

# A rule of another command, and a rule that forbids.
listed kept | $X $G * [ AVP ] $T [ G ] $U [ X ] | $X8 $G * [ AVP ] $T [ G ] $U [ X ] => -
any kept | $X $T *0 [ X ] * [ AVP ] | $X8 $T * [ AVP ] => X*

# A group of which no level is sent.
listed kept | $X $G 1* { AVP } $T [ G ] | $X $T => X G*
listed kept | $X $G 1* { AVP } $T { G } [ X ] | $X8 $G 1* { AVP } $T { G } [ X ] => X* G
known kept | $X $G 1* { AVP } $T [ G ] | $X $T => -

# An AVP that B doesn't know, with M clear.
listed kept | %avp X 9002 Unsigned32 mustnot $T | $T => X
listed refused | %avp X 9002 Unsigned32 mustnot $T | $T => X*

# No command.
any kept | $X $Y | $X8 $Y => X* Y
";

/// Checks each row of a text.
fn check_rows(rt: &(impl AllocGlobal + Abort), names: &mut Names, text: &str) -> Result<(), Fail> {
    for line in text.lines() {
        if let Some(row) = names.row(line)? {
            check_row(rt, names, &row)?;
        }
    }
    Ok(())
}

/// Checks a row.
fn check_row(rt: &(impl AllocGlobal + Abort), names: &Names, row: &Row<'_>) -> Result<(), Fail> {
    let a = plain_of(rt.alloc(), names, field(row.call, 1))?;
    let b = indexed_of(rt.alloc(), names, field(row.call, 2))?;
    check_pair(rt, &*a, &*b, row)
}

/// Checks which AVPs of A aren't sent.
fn check_pair<A: Book, B: Book>(
    rt: &(impl AllocGlobal + Abort),
    a: &A,
    b: &B,
    row: &Row<'_>,
) -> Result<(), Fail> {
    let (sends, unknown) = sides_of(field(row.call, 0))?;
    if sends == Sends::Filled {
        return Err(RowFault::Row.into());
    }
    let upgrade = Upgrade::new(rt.alloc(), a, b, sends, unknown)?;
    let avps = unsent_avps(rt.alloc(), &upgrade)?;
    let found = named(rt.alloc(), &avps)?;
    same(rt, found.as_str(), row.wanted, row.line);
    Ok(())
}

/// The names of AVPs, marked where B's side would refuse them.
fn named(alloc: Global, avps: &[Unsent]) -> Result<String, AllocError> {
    let mut text = String::new(alloc);
    for avp in avps {
        if !text.is_empty() {
            text.push(' ')?;
        }
        text.push_str(avp.name.as_str())?;
        text.push_str(if avp.would_break { "*" } else { "" })?;
    }
    if text.is_empty() {
        text.push('-')?;
    }
    Ok(text)
}

#[test]
fn records_what_no_message_has(rt: HostRuntime) -> Result<(), Fail> {
    let mut names = Names::new(rt.alloc());
    check_rows(&rt, &mut names, ROWS)
}
