//! What breaks, as JSON.

use dia_io::{Exit, Input, Inputs, ToWriter};
use dia_terms::{Sends, Unknown};
use dia_upgrades::{Asked, Stale};
use dia_upgrades_json::breaking;
use std::alloc::{AllocError, Global};
use std::test::Fail;

/// Two dictionaries, of which the second takes fewer X.
const FIRST: &str = "%avp X 9001 Unsigned32 any <T> ::= < Diameter Header: 302, REQ > * [ X ]";

const SECOND: &str = "%avp X 9001 Unsigned32 any <T> ::= < Diameter Header: 302, REQ > *3 [ X ]";

const LISTED: &str =
    r#"{"command":"T","path":[],"reason":"too-many","avp":{"name":"X","code":9001,"vendor":0},"sent":"0..*","sent_min":0,"sent_max":null,"accepted":"0..3","accepted_min":0,"accepted_max":3,"in_header":false,"a":{"line":1,"column":66},"b":{"line":1,"column":66},"text":"T: too-many X: 0..* sent, 0..3 accepted"}
{"lines":1,"causes":1,"accepted":0,"stale":0}
"#;

const CAUSES: &str =
    r#"{"commands":1,"first":{"command":"T","path":[]},"reason":"too-many","avp":{"name":"X","code":9001,"vendor":0},"sent":"0..*","sent_min":0,"sent_max":null,"accepted":"0..3","accepted_min":0,"accepted_max":3,"in_header":false,"a":{"line":1,"column":66},"b":{"line":1,"column":66},"text":"too-many X: 0..* sent, 0..3 accepted, in 1 command, first in T"}
{"lines":1,"causes":1,"accepted":0,"stale":0}
"#;

#[test]
fn lists_causes(rt: HostRuntime) -> Result<(), Fail> {
    assert!(rt; is_answer(rt.alloc(), "", true, Exit::No, CAUSES)?);
    Ok(())
}

#[test]
fn lists_what_breaks(rt: HostRuntime) -> Result<(), Fail> {
    let alloc = rt.alloc();
    assert!(rt; is_listed(alloc, "", Exit::No, LISTED)?);
    let none = "{\"lines\":0,\"causes\":0,\"accepted\":1,\"stale\":0}\n";
    assert!(rt;
        is_listed(
            alloc,
            "*: too-many X: 0..* sent, 0..3 accepted",
            Exit::Yes,
            none
        )?
    );
    let stale = "T: missing X: 0 sent, 1 accepted";
    let objects =
        "{\"stale\":\"T: missing X: 0 sent, 1 accepted\",\"line\":2}\n{\"lines\":0,\"causes\":0,\"accepted\":1,\"stale\":1}\n";
    let list = format!(in alloc; "*: too-many X: 0..* sent, 0..3 accepted # agreed\n{stale}  \n")?;
    assert!(rt; is_listed(alloc, list.as_str(), Exit::No, objects)?);
    let syntax = "{\"error\":\"accepted\",\"kind\":\"syntax\",\"line\":1,\"column\":2}\n";
    assert!(rt; is_listed(alloc, "X", Exit::Bad, syntax)?);
    Ok(())
}

/// Whether `breaking` with this list of accepted lines writes these objects, and ends so.
fn is_listed(alloc: Global, list: &str, exit: Exit, objects: &str) -> Result<bool, Fail> {
    is_answer(alloc, list, false, exit, objects)
}

/// The same, with one object for each cause if `once`.
fn is_answer(
    alloc: Global,
    list: &str,
    once: bool,
    exit: Exit,
    objects: &str,
) -> Result<bool, Fail> {
    let inputs = inputs(alloc, list)?;
    let mut sink = ToWriter::new(Vec::new(alloc));
    let asked = Asked {
        sends: Sends::Any,
        unknown: Unknown::Kept,
        messages: false,
        once,
        meaning: false,
        stale: Stale::Fails,
        names: &[],
    };
    let reported = breaking(alloc, asked, &inputs, &mut sink)?;
    Ok(reported.exit == exit && sink.writer.as_slice() == objects.as_bytes())
}

fn inputs(alloc: Global, list: &str) -> Result<Inputs, AllocError> {
    Ok(Inputs {
        first: Input::Bytes(Vec::from_slice(alloc, FIRST.as_bytes())?),
        second: Input::Bytes(Vec::from_slice(alloc, SECOND.as_bytes())?),
        table: Input::Bytes(Vec::from_slice(alloc, list.as_bytes())?),
        message: Input::Bytes(Vec::new(alloc)),
    })
}
