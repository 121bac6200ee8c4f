//! A message as JSON.

use dia_dict::base_text;
use dia_io::{Exit, FromReader, Input, Inputs, ToWriter};
use dia_json::{show, show_lines};
use std::alloc::{AllocError, Global};
use std::test::Fail;

/// A Device-Watchdog-Request of RFC 6733 section 5.5.1, and behind its two AVPs one that no dictionary knows.
const REQUEST: &str = "010000388000011800000000000000010000000200000108400000\
    0b612e6200000001284000000962000000\
    00ffffff8000000c00000007";

const SHOWN: &str =
    r#"{"version":1,"flags":128,"code":280,"application":0,"hop_by_hop":1,"end_to_end":2,"length":56,"command":"DWR"}
{"at":20,"depth":0,"code":264,"vendor":null,"flags":64,"length":11,"name":"Origin-Host","value":"a.b"}
{"at":32,"depth":0,"code":296,"vendor":null,"flags":64,"length":9,"name":"Origin-Realm","value":"b"}
{"at":44,"depth":0,"code":16777215,"vendor":7,"flags":128,"length":12,"value":{"hex":""}}
"#;

#[test]
fn shows_a_message(rt: HostRuntime) -> Result<(), Fail> {
    let inputs = inputs(rt.alloc(), "", REQUEST)?;
    let answered = show(rt.alloc(), false, &inputs)?;
    assert_eq!(rt; answered.exit, Exit::Yes);
    assert!(rt; answered.text.as_str() == SHOWN);
    Ok(())
}

/// A Disconnect-Peer-Request of RFC 6733 section 5.4.1, whose cause is REBOOTING (section 5.4.3).
const CAUSE: &str = "010000208000011a000000000000000100000002000001114000000c00000000";

const WORDED: &str =
    r#"{"version":1,"flags":128,"code":282,"application":0,"hop_by_hop":1,"end_to_end":2,"length":32,"command":"DPR"}
{"at":20,"depth":0,"code":273,"vendor":null,"flags":64,"length":12,"name":"Disconnect-Cause","value":0,"word":"REBOOTING"}
"#;

#[test]
fn shows_a_word(rt: HostRuntime) -> Result<(), Fail> {
    let inputs = inputs(rt.alloc(), "Disconnect-Cause 0 REBOOTING\n", CAUSE)?;
    let answered = show(rt.alloc(), true, &inputs)?;
    assert_eq!(rt; answered.exit, Exit::Yes);
    assert!(rt; answered.text.as_str() == WORDED);
    Ok(())
}

/// This request, a text that isn't hexadecimal, and a message that ends in its header.
const LINES: &str = "\
010000208000011a000000000000000100000002000001114000000c00000000
x
01000020
";

const NUMBERED: &str =
    r#"{"line":1,"version":1,"flags":128,"code":282,"application":0,"hop_by_hop":1,"end_to_end":2,"length":32,"command":"DPR"}
{"line":1,"at":20,"depth":0,"code":273,"vendor":null,"flags":64,"length":12,"name":"Disconnect-Cause","value":0,"word":"REBOOTING"}
{"line":2,"error":"message","kind":"not hexadecimal"}
{"line":3,"error":"message","kind":"short"}
"#;

#[test]
fn shows_lines(rt: HostRuntime) -> Result<(), Fail> {
    let inputs = inputs(rt.alloc(), "Disconnect-Cause 0 REBOOTING\n", "")?;
    let mut feed = FromReader::new(LINES.as_bytes());
    let mut sink = ToWriter::new(Vec::new(rt.alloc()));
    let reported = show_lines(rt.alloc(), true, &inputs, &mut feed, &mut sink)?;
    assert_eq!(rt; reported.exit, Exit::No);
    assert!(rt; sink.writer.as_slice() == NUMBERED.as_bytes());
    Ok(())
}

fn inputs(alloc: Global, values: &str, message: &str) -> Result<Inputs, AllocError> {
    Ok(Inputs {
        first: Input::Bytes(Vec::from_slice(alloc, base_text().as_bytes())?),
        second: Input::Bytes(Vec::new(alloc)),
        table: Input::Bytes(Vec::from_slice(alloc, values.as_bytes())?),
        message: Input::Bytes(Vec::from_slice(alloc, message.as_bytes())?),
    })
}
