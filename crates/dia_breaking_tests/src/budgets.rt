//! Which messages are checked, where so many bytes may be checked. The expected answers were worked out by hand: AVPs of a
//! message have 12 bytes here, and its header doesn't count.
//!
//! ```text
//! BYTES | A | B => STANDINGS BYTES
//! ```
//!
//! The standings are those of the lines of all commands of A. Each command begins with the bytes that the one before it leaves;
//! the last number is what the last one leaves.

use crate::books::{indexed_of, same};
use dia_breaking::{Standing, Upgrade};
use dia_dict::Book;
use dia_rows::{Names, Row, field};
use dia_terms::{Sends, Unknown};
use std::alloc::{AllocError, Global};
use std::process::Abort;
use std::test::Fail;

const ROWS: &str = r"
let X = %avp X 9002 Unsigned32 any
let T = <T> ::= < Diameter Header: 302, REQ >
let U = <U> ::= < Diameter Header: 303, REQ >

# Two commands with messages of two AVPs each: what the first takes, the second doesn't have.
let A = $X $T 1*2 { X } $U 1*2 { X }
let B = $X $T { X } $U { X }
48 | $A | $B => confirmed confirmed 0
47 | $A | $B => confirmed unchecked 23
24 | $A | $B => confirmed unchecked 0
23 | $A | $B => unchecked unchecked 23

# A message that isn't checked takes nothing, nor does one without AVPs.
12 | $X $T 1*2 { X } $U 1*3 { X } | $B => unchecked unchecked 12
0 | $X $T 1*2 { X } $U [ X ] | $B => unchecked confirmed 0

# A line that has no message.
100 | <G> ::= < AVP Header: 9100 > [ X ] $X $T [ G ] | %avp G 9100 UTF8String any $T [ G ] => undecided 100

# 87,381 AVPs are less than 2^20 bytes, and one more are more. All commands may take 2^26 bytes.
67108864 | $X $T 87381*87381 { X } | $X $T { X } => confirmed 66060292
67108864 | $X $T 87382*87382 { X } | $X $T { X } => unchecked 67108864
";

/// Checks each row of a text.
fn check_rows(rt: &(impl AllocGlobal + Abort), names: &mut Names, text: &str) -> Result<(), Fail> {
    for line in text.lines() {
        if let Some(row) = names.row(line)? {
            check_row(rt, names, &row)?;
        }
    }
    Ok(())
}

/// Checks a row.
fn check_row(rt: &(impl AllocGlobal + Abort), names: &Names, row: &Row<'_>) -> Result<(), Fail> {
    let left: u64 = field(row.call, 0).parse()?;
    let a = indexed_of(rt.alloc(), names, field(row.call, 1))?;
    let b = indexed_of(rt.alloc(), names, field(row.call, 2))?;
    let upgrade = Upgrade::new(rt.alloc(), &*a, &*b, Sends::Any, Unknown::Kept)?;
    let found = standings_of(rt.alloc(), &upgrade, left)?;
    same(rt, found.as_str(), row.wanted, row.line);
    Ok(())
}

/// The standings of the lines of all commands, and how many bytes are left.
fn standings_of<A: Book, B: Book>(
    alloc: Global,
    upgrade: &Upgrade<'_, A, B>,
    mut left: u64,
) -> Result<String, AllocError> {
    let mut text = String::new(alloc);
    let a = upgrade.sender();
    for place in 0..a.commands() {
        let breaks = upgrade.breaks(alloc, a.command_at(place), &mut left)?;
        for line in &breaks.lines {
            text.push_str(word_of(line.standing))?;
        }
    }
    write!(text, "{left}")?;
    Ok(text)
}

fn word_of(standing: Standing) -> &'static str {
    match standing {
        Standing::Confirmed => "confirmed ",
        Standing::Unchecked => "unchecked ",
        Standing::Undecided => "undecided ",
    }
}

#[test]
fn checks_what_is_left(rt: HostRuntime) -> Result<(), Fail> {
    let mut names = Names::new(rt.alloc());
    check_rows(&rt, &mut names, ROWS)
}
