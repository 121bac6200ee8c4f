//! Tables as JSON.

use dia_check::Unknown;
use dia_compared_json::compare;
use dia_io::{Exit, Input, Inputs};
use dia_json::propose;
use std::alloc::{AllocError, Global};
use std::test::Fail;

/// Two dictionaries, of which the second takes fewer X.
const FIRST: &str = "%avp X 9001 Unsigned32 any <T> ::= < Diameter Header: 302, REQ > * [ X ]";

const SECOND: &str = "%avp X 9001 Unsigned32 any <T> ::= < Diameter Header: 302, REQ > *3 [ X ]";

const PROPOSED: &str = r#"{"kind":"command","first":"T","second":"T"}
{"kind":"avp","first":"X","second":"X"}
"#;

#[test]
fn proposes_a_table(rt: HostRuntime) -> Result<(), Fail> {
    let inputs = inputs(rt.alloc(), "")?;
    let names = vec![in rt.alloc(); String::from_str(rt.alloc(), "T")?]?;
    let answered = propose(rt.alloc(), Unknown::Kept, &names, &inputs)?;
    assert_eq!(rt; answered.exit, Exit::Yes);
    assert!(rt; answered.text.as_str() == PROPOSED);
    Ok(())
}

/// The answer where the counts of X fail a test.
const COUNTS: &str =
    r#"{"verdict":"no","kind":"command","first":"T","second":"T","test":"N2","fails":[{"why":"counts","sent":{"number":1,"avp":"X","fixed":false,"min":0,"max":null},"accepted":{"number":1,"avp":"X","fixed":false,"min":0,"max":3}}]}"#;

/// The answer of a name that the second doesn't have.
const NO_NAME: &str =
    r#"{"verdict":"no","kind":"avp","first":"X","second":"Y","test":"N10","fails":[{"why":"second-name","sent":null,"accepted":null}]}"#;

#[test]
fn compares_by_a_table(rt: HostRuntime) -> Result<(), Fail> {
    let alloc = rt.alloc();
    assert!(rt; is_compared(alloc, "command T = T\navp X = X\n", Exit::No, COUNTS)?);
    assert!(rt; is_compared(alloc, "avp X = Y\n", Exit::No, NO_NAME)?);
    assert!(rt; is_compared(alloc, "avp X = X\n", Exit::Yes, r#"{"verdict":"yes"}"#)?);
    Ok(())
}

#[test]
fn refuses_tables_at_their_places(rt: HostRuntime) -> Result<(), Fail> {
    let alloc = rt.alloc();
    let syntax = r#"{"error":"table","kind":"syntax","line":2,"column":11}"#;
    assert!(rt; is_compared(alloc, "avp X = X\ncommand T T\n", Exit::Bad, syntax)?);
    let following = r#"{"error":"table","kind":"syntax","line":1,"column":12}"#;
    assert!(rt; is_compared(alloc, "\tavp X = X X\n", Exit::Bad, following)?);
    let letters = r#"{"error":"table","kind":"syntax","line":1,"column":9}"#;
    assert!(rt;
        is_compared(
            alloc,
            "avp \u{e4} = X",
            Exit::Bad,
            r#"{"error":"table","kind":"syntax","line":1,"column":5}"#
        )?
    );
    assert!(rt; is_compared(alloc, "avp X = \u{e4}", Exit::Bad, letters)?);
    Ok(())
}

/// Whether `compare` by this table answers this object, and ends so.
fn is_compared(alloc: Global, table: &str, exit: Exit, object: &str) -> Result<bool, AllocError> {
    let answered = compare(alloc, Unknown::Kept, &inputs(alloc, table)?)?;
    let line = format!(in alloc; "{object}\n")?;
    Ok(answered.exit == exit && answered.text == line)
}

/// Both dictionaries, and this table.
fn inputs(alloc: Global, table: &str) -> Result<Inputs, AllocError> {
    Ok(Inputs {
        first: Input::Bytes(Vec::from_slice(alloc, FIRST.as_bytes())?),
        second: Input::Bytes(Vec::from_slice(alloc, SECOND.as_bytes())?),
        table: Input::Bytes(Vec::from_slice(alloc, table.as_bytes())?),
        message: Input::Bytes(Vec::new(alloc)),
    })
}
