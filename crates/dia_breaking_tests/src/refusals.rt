//! Which AVPs of A the side of B refuses, whatever is around them. The expected answers were worked out by hand from
//! docs/FORMATS.md and docs/FAULTS.md.
//!
//! ```text
//! SENDS POLICY | A | B => NAMES
//! ```
//!
//! POLICY is that of B's side for AVPs that B doesn't know. NAMES are those of A's AVPs that B's side refuses, in A's order; `-`
//! where there is none.

use crate::books::{indexed_of, plain_of, same, sides_of};
use dia_breaking::Upgrade;
use dia_dict::Book;
use dia_rows::{Names, Row, field};
use std::alloc::{AllocError, Global};
use std::process::Abort;
use std::test::Fail;

const ROWS: &str = r"
let X = %avp X 9002 Unsigned32 any
let Y = %avp Y 9003 Unsigned32 any
let X8 = %avp X 9002 Unsigned64 any
let Y8 = %avp Y 9003 Unsigned64 any
let MUST = %avp X 9002 Unsigned32 must
let MUSTNOT = %avp X 9002 Unsigned32 mustnot
let OTHER = %avp X 9102 Unsigned32 any
let G = <G> ::= < AVP Header: 9100 >
let H = <H> ::= < AVP Header: 9101 >
let T = <T> ::= < Diameter Header: 302, REQ >

# Data, also of an AVP that no message has.
listed kept | $X $T [ X ] | $X $T [ X ] => -
listed kept | $X $T [ X ] | $X8 $T [ X ] => X
listed kept | $X $T | $X8 $T => X
any kept | $X $Y $T * [ AVP ] | $X8 $Y8 $T * [ AVP ] => X Y
known kept | $X $Y $G [ X ] * [ AVP ] $T [ G ] | $X $Y8 $G [ X ] * [ AVP ] $T [ G ] => Y
filled kept | $X $G *0 [ AVP ] $T [ G ] | $X8 $G * [ AVP ] $T [ G ] => X

# M flags.
listed kept | $X $T [ X ] | $MUST $T [ X ] => X
listed kept | $MUST $T [ X ] | $MUSTNOT $T [ X ] => X
listed kept | $MUST $T [ X ] | $X $T [ X ] => -
known kept | $MUST $T [ X ] | $OTHER $T [ X ] => X
known kept | $MUSTNOT $T [ X ] | $OTHER $T [ X ] => -
known refused | $MUSTNOT $T [ X ] | $OTHER $T [ X ] => X

# The levels of a group, by its rules.
listed kept | $X $G * [ AVP ] $H * [ X ] $T [ G ] | $X $G * [ AVP ] $H *2 [ X ] $T [ G ] => H
listed kept | $X $G * [ AVP ] $T [ G ] | $X $G { X } * [ AVP ] $T [ G ] => G
listed kept | $X $G *2 [ AVP ] $T [ G ] | $X $G *1 [ AVP ] $T [ G ] => -
filled kept | $X $G *2 [ AVP ] $T [ G ] | $X $G *1 [ AVP ] $T [ G ] => G
listed kept | $X $G * [ AVP ] $T [ G ] | $X $G $T [ G ] => -
known kept | $X $G * [ AVP ] $T [ G ] | $X $G $T [ G ] => G
known kept | $X $G [ X ] $T [ G ] | $X8 $G [ X ] $T [ G ] => X

# A group that B doesn't know, or that is a number there; and one that has no level.
listed kept | $X $G [ X ] $T [ G ] | $X $T => G
listed kept | $X $G [ X ] $T [ G ] | $X %avp G 9100 Unsigned32 any $T [ G ] => G
listed kept | $X $G 1* { AVP } $T [ G ] | $X $T => G
listed kept | $X $G 1* { AVP } $T [ G ] | $X8 $G 1* { AVP } $T [ G ] => X
";

/// Checks each row of a text.
fn check_rows(rt: &(impl AllocGlobal + Abort), names: &mut Names, text: &str) -> Result<(), Fail> {
    for line in text.lines() {
        if let Some(row) = names.row(line)? {
            check_row(rt, names, &row)?;
        }
    }
    Ok(())
}

/// Checks a row.
fn check_row(rt: &(impl AllocGlobal + Abort), names: &Names, row: &Row<'_>) -> Result<(), Fail> {
    let a = plain_of(rt.alloc(), names, field(row.call, 1))?;
    let b = indexed_of(rt.alloc(), names, field(row.call, 2))?;
    check_pair(rt, &*a, &*b, row)
}

/// Checks which AVPs of A the side of B refuses, and that the upgrade is of the row's sender.
fn check_pair<A: Book, B: Book>(
    rt: &(impl AllocGlobal + Abort),
    a: &A,
    b: &B,
    row: &Row<'_>,
) -> Result<(), Fail> {
    let (sends, unknown) = sides_of(field(row.call, 0))?;
    let upgrade = Upgrade::new(rt.alloc(), a, b, sends, unknown)?;
    assert!(rt; upgrade.sends() == sends, "{}", row.line);
    let found = refused_by(rt.alloc(), &upgrade)?;
    same(rt, found.as_str(), row.wanted, row.line);
    Ok(())
}

/// The names of the AVPs that the side of B refuses.
fn refused_by<A: Book, B: Book>(
    alloc: Global,
    upgrade: &Upgrade<'_, A, B>,
) -> Result<String, AllocError> {
    let a = upgrade.sender();
    let mut found = String::new(alloc);
    for index in 0..a.entries() {
        let entry = a.entry_at(index);
        if upgrade.refuses(alloc, a.entry_key(entry))? {
            push_name(&mut found, a.entry_name(entry))?;
        }
    }
    if found.is_empty() {
        found.push('-')?;
    }
    Ok(found)
}

/// Adds a name to others.
fn push_name(found: &mut String, name: &str) -> Result<(), AllocError> {
    if !found.is_empty() {
        found.push(' ')?;
    }
    found.push_str(name)
}

#[test]
fn records_what_is_refused(rt: HostRuntime) -> Result<(), Fail> {
    let mut names = Names::new(rt.alloc());
    check_rows(&rt, &mut names, ROWS)
}
