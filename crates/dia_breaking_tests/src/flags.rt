//! M flags that are sent and not accepted. The expected answers were worked out by hand from docs/FORMATS.md.
//!
//! ```text
//! SENDS POLICY | A | B => REASON FLAG
//! ```
//!
//! A and B are dictionaries that have X, or don't know it; POLICY is that of B's side for AVPs that B doesn't know. `-` is the
//! answer where each flag that is sent is accepted.

use crate::books::{X, indexed_of, plain_of, same, sides_of};
use dia_breaking_avps::{HeadBreak, avp_breaks};
use dia_dict::Book;
use dia_rows::{Names, Row, field};
use std::process::Abort;
use std::test::Fail;

const ROWS: &str = r"
let MUST = %avp X 9002 Time must
let MUSTNOT = %avp X 9002 Time mustnot
let ANY = %avp X 9002 Time any
let NONE = %avp Y 9003 Time any

# Both know the AVP.
any kept | $MUST | $MUST => -
any kept | $MUST | $MUSTNOT => m-bit set
any kept | $MUST | $ANY => -
any kept | $MUSTNOT | $MUST => m-bit clear
any kept | $MUSTNOT | $MUSTNOT => -
any kept | $MUSTNOT | $ANY => -
any kept | $ANY | $MUST => m-bit clear
any kept | $ANY | $MUSTNOT => m-bit set
any kept | $ANY | $ANY => -
known refused | $MUST | $MUSTNOT => m-bit set
listed refused | $ANY | $MUST => m-bit clear

# B doesn't know it: kept with M clear, or refused.
any kept | $MUST | $NONE => unknown set
any kept | $MUSTNOT | $NONE => -
any kept | $ANY | $NONE => unknown set
any refused | $MUST | $NONE => unknown set
any refused | $MUSTNOT | $NONE => unknown clear
any refused | $ANY | $NONE => unknown clear

# A doesn't know it: sent with M clear, or not at all.
any kept | $NONE | $MUST => m-bit clear
any kept | $NONE | $MUSTNOT => -
any kept | $NONE | $ANY => -
known kept | $NONE | $MUST => -
listed kept | $NONE | $MUST => -

# Neither knows it.
any kept | $NONE | $NONE => -
any refused | $NONE | $NONE => unknown clear
known refused | $NONE | $NONE => -
listed refused | $NONE | $NONE => -
";

/// Checks each row of a text.
fn check_rows(rt: &(impl AllocGlobal + Abort), names: &mut Names, text: &str) -> Result<(), Fail> {
    for line in text.lines() {
        if let Some(row) = names.row(line)? {
            check_row(rt, names, &row)?;
        }
    }
    Ok(())
}

/// Checks a row.
fn check_row(rt: &(impl AllocGlobal + Abort), names: &Names, row: &Row<'_>) -> Result<(), Fail> {
    let a = plain_of(rt.alloc(), names, field(row.call, 1))?;
    let b = indexed_of(rt.alloc(), names, field(row.call, 2))?;
    check_pair(rt, &*a, &*b, row)
}

/// Checks what breaks of the M flags of X.
fn check_pair<A: Book, B: Book>(rt: &impl Abort, a: &A, b: &B, row: &Row<'_>) -> Result<(), Fail> {
    let (sends, unknown) = sides_of(field(row.call, 0))?;
    let found = avp_breaks(a, b, X, sends, unknown);
    same(rt, recorded(found.head), row.wanted, row.line);
    Ok(())
}

fn recorded(head: Option<HeadBreak>) -> &'static str {
    match head {
        None => "-",
        Some(HeadBreak::Unknown { m: false }) => "unknown clear",
        Some(HeadBreak::Unknown { m: true }) => "unknown set",
        Some(HeadBreak::MBit { m: false }) => "m-bit clear",
        Some(HeadBreak::MBit { m: true }) => "m-bit set",
    }
}

#[test]
fn records_flags(rt: HostRuntime) -> Result<(), Fail> {
    let mut names = Names::new(rt.alloc());
    check_rows(&rt, &mut names, ROWS)
}
