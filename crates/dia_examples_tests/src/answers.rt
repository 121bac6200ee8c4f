//! How the command ends, and what standard error says.

use dia_check::Unknown;
use dia_examples_text::{Form, write_examples};
use dia_io::{Exit, Input, Inputs, ToWriter};
use std::process::Abort;

const X: &str = "%avp X 9001 Unsigned32 any\n";

/// What is written of a dictionary, how the command ends, and what it notes.
fn ends(
    rt: &(impl AllocGlobal + Abort),
    text: &str,
    names: &[String],
    written: Option<&str>,
    exit: Exit,
    noted: &str,
) {
    let inputs = Inputs {
        first: input(rt, text),
        second: input(rt, ""),
        table: input(rt, ""),
        message: input(rt, ""),
    };
    let mut sink = ToWriter::new(Vec::new(rt.alloc()));
    let mut notes = String::new(rt.alloc());
    let ended = write_examples(
        rt.alloc(),
        Unknown::Kept,
        Form::Columns,
        names,
        &inputs,
        &mut notes,
        &mut sink,
    );
    let ended = ended.ok().expect(rt, "memory");
    assert!(rt; ended.exit == exit, "{text}");
    assert!(rt; notes.as_str() == noted, "{notes}");
    if let Some(written) = written {
        assert!(rt; sink.writer.as_slice() == written.as_bytes(), "{text}");
    }
}

fn input(rt: &(impl AllocGlobal + Abort), text: &str) -> Input {
    Input::Bytes(
        Vec::from_slice(rt.alloc(), text.as_bytes())
            .ok()
            .expect(rt, "memory"),
    )
}

#[test]
fn ends_as_it_should(rt: HostRuntime) {
    let one = "%avp X 9001 Unsigned32 any\n<T> ::= < Diameter Header: 302, REQ > { X }\n";
    ends(
        &rt,
        one,
        &[],
        None,
        Exit::Yes,
        "24 vectors of 1 command, 7 of them valid\n",
    );
    ends(
        &rt,
        "<G> ::= < AVP Header: 9100 > { G }\n<T> ::= < Diameter Header: 302, REQ > { G }\n",
        &[],
        Some(""),
        Exit::No,
        "0 vectors of 1 command, 0 of them valid\nT: no valid message\n",
    );
    ends(
        &rt,
        "<G> ::= < AVP Header: 9100 > { G }\n<T> ::= < Diameter Header: 302, REQ > [ G ]\n",
        &[],
        None,
        Exit::Yes,
        "15 vectors of 1 command, 4 of them valid\n",
    );
    ends(
        &rt,
        "%avp X 9001 Unsigned32 any\n<T> ::= < Diameter Header: 302, REQ > 340*340 { X }\n",
        &[],
        Some(""),
        Exit::No,
        "0 vectors of 1 command, 0 of them valid\nT: no plain message of at most 4,096 bytes\n",
    );
    ends(
        &rt,
        "%avp X 9001 Unsigned32 any\n<T> ::= < Diameter Header: 302, REQ > 339*339 { X }\n",
        &[],
        None,
        Exit::Yes,
        "23 vectors of 1 command, 7 of them valid\n1 vector of more than 4,096 bytes left out, first T: 340 of X\n",
    );
    ends(&rt, X, &[], Some("examples: no command\n"), Exit::Bad, "");
    let mut names = Vec::new(rt.alloc());
    let name = String::from_str(rt.alloc(), "V").expect(&rt, "memory");
    names.push(name).ok().expect(&rt, "memory");
    ends(
        &rt,
        one,
        &names,
        Some("examples: no command V\n"),
        Exit::Bad,
        "hint: the commands are T\n",
    );
}

#[test]
fn writes_json(rt: HostRuntime) {
    let inputs = Inputs {
        first: input(
            &rt,
            "%avp X 9001 Unsigned32 any\n<T> ::= < Diameter Header: 302, REQ > { X }\n",
        ),
        second: input(&rt, ""),
        table: input(&rt, ""),
        message: input(&rt, ""),
    };
    let mut sink = ToWriter::new(Vec::new(rt.alloc()));
    let mut notes = String::new(rt.alloc());
    let ended = write_examples(
        rt.alloc(),
        Unknown::Kept,
        Form::Json,
        &[],
        &inputs,
        &mut notes,
        &mut sink,
    );
    let text = str::from_utf8(sink.writer.as_slice()).expect(&rt, "JSON");
    let line = text.lines().nth(16).expect(&rt, "a line");
    assert!(rt; ended.is_ok());
    assert!(rt;
        line == r#"{"number":100017,"path":"T","what":"2 of X","verdict":"fault","code":5009,"at":32,"reason":"too-many","avp":{"name":"X","code":9001,"vendor":0},"hex":"0100002c8000012e00000000000186b1000186b1000023290000000c00000001000023290000000c00000001"}"#
    );
}
