//! Answers for many messages, under the base dictionary.

use dia_check::{Levels, Unknown};
use dia_dict::base_text;
use dia_io::{Exit, FromReader, Input, Inputs, ToWriter};
use dia_json::{check_lines, check_stream, refute_lines};
use std::alloc::{AllocError, Global};
use std::test::Fail;

/// A valid request, one without its Origin-Realm, one that is cut, one with a byte behind it, a text that isn't hexadecimal, and
/// one with an AVP that isn't known.
const LINES: &str = "\
0100002c80000118000000000000000100000002000001084000000b612e6200000001284000000962000000
0100002080000118000000000000000100000002000001084000000b612e6200
0100002c80000118
0100002c80000118000000000000000100000002000001084000000b612e620000000128400000096200000000
x
010000348000011800000000000000010000000200ffffff00000008000001084000000b612e6200000001284000000962000000
";

const CHECKED: &str = r#"{"line":1,"verdict":"valid","command":"DWR"}
{"line":2,"verdict":"fault","code":5005,"at":32,"reason":"missing","avp":{"name":"Origin-Realm","code":296,"vendor":0}}
{"line":3,"verdict":"truncated"}
{"line":4,"verdict":"trailing"}
{"line":5,"error":"message","kind":"not hexadecimal"}
{"line":6,"verdict":"fault","code":5001,"at":20,"reason":"unknown","avp":{"code":16777215,"vendor":0}}
"#;

#[test]
fn checks_lines(rt: HostRuntime) -> Result<(), Fail> {
    let inputs = inputs(rt.alloc())?;
    let mut feed = FromReader::new(LINES.as_bytes());
    let mut sink = ToWriter::new(Vec::new(rt.alloc()));
    let (unknown, levels) = (Unknown::Refused, Levels::Any);
    let captured = check_lines(rt.alloc(), unknown, levels, &inputs, &mut feed, &mut sink)?;
    assert_eq!(rt; captured.reported.exit, Exit::No);
    assert!(rt; sink.writer.as_slice() == CHECKED.as_bytes());
    Ok(())
}

const REFUTED: &str =
    r#"{"line":1,"refutes":false,"first":{"verdict":"truncated"},"second":{"verdict":"truncated"}}
{"line":2,"error":"message","kind":"not hexadecimal"}
"#;

#[test]
fn refutes_lines(rt: HostRuntime) -> Result<(), Fail> {
    let inputs = inputs(rt.alloc())?;
    let mut feed = FromReader::new(b"0100002c80000118\nx\n".as_slice());
    let mut sink = ToWriter::new(Vec::new(rt.alloc()));
    let (unknown, levels) = (Unknown::Refused, Levels::Any);
    let captured = refute_lines(rt.alloc(), unknown, levels, &inputs, &mut feed, &mut sink)?;
    assert_eq!(rt; captured.reported.exit, Exit::No);
    assert!(rt; sink.writer.as_slice() == REFUTED.as_bytes());
    Ok(())
}

/// A valid request, and half a digit.
const STREAM: &str =
    "0100002c80000118000000000000000100000002000001084000000b612e6200000001284000000962000000 0";

const PLACED: &str = r#"{"place":0,"verdict":"valid","command":"DWR"}
{"place":44,"error":"message","kind":"not hexadecimal"}
"#;

#[test]
fn checks_a_stream(rt: HostRuntime) -> Result<(), Fail> {
    let inputs = inputs(rt.alloc())?;
    let mut feed = FromReader::new(STREAM.as_bytes());
    let mut sink = ToWriter::new(Vec::new(rt.alloc()));
    let (unknown, levels) = (Unknown::Refused, Levels::Any);
    let captured = check_stream(rt.alloc(), unknown, levels, &inputs, &mut feed, &mut sink)?;
    assert_eq!(rt; captured.reported.exit, Exit::No);
    assert!(rt; sink.writer.as_slice() == PLACED.as_bytes());
    Ok(())
}

/// The base dictionary, and the empty one as the second.
fn inputs(alloc: Global) -> Result<Inputs, AllocError> {
    Ok(Inputs {
        first: Input::Bytes(Vec::from_slice(alloc, base_text().as_bytes())?),
        second: Input::Bytes(Vec::new(alloc)),
        table: Input::Bytes(Vec::new(alloc)),
        message: Input::Bytes(Vec::new(alloc)),
    })
}
