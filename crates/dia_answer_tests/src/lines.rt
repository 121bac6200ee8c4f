//! What the command writes, and how it ends.

use dia_answer::{Names, write_answer, write_answers};
use dia_captures::Captured;
use dia_check::{Levels, Unknown};
use dia_dict::base_text;
use dia_io::{Exit, FromReader, Input, Inputs, ToWriter};
use std::process::Abort;

/// What is written of the message by the base dictionary, and how the command ends.
fn writes(rt: &(impl AllocGlobal + Abort), message: &str, line: &str, exit: Exit) {
    let inputs = inputs(rt, base_text(), message);
    let names = Names::new("host.invalid", "invalid").expect(rt, "names");
    let mut sink = ToWriter::new(Vec::new(rt.alloc()));
    let ended = write_answer(
        rt.alloc(),
        Unknown::Kept,
        Levels::Any,
        &names,
        &inputs,
        &mut sink,
    );
    let ended = ended.ok().expect(rt, "memory");
    assert!(rt; ended.exit == exit && sink.writer.as_slice() == line.as_bytes());
}

fn inputs(rt: &(impl AllocGlobal + Abort), dictionary: &str, message: &str) -> Inputs {
    Inputs {
        first: input(rt, dictionary),
        second: input(rt, ""),
        table: input(rt, ""),
        message: input(rt, message),
    }
}

fn input(rt: &(impl AllocGlobal + Abort), text: &str) -> Input {
    Input::Bytes(
        Vec::from_slice(rt.alloc(), text.as_bytes())
            .ok()
            .expect(rt, "memory"),
    )
}

#[test]
fn writes_lines(rt: HostRuntime) {
    writes(
        &rt,
        "0100002c80000118000000000000000100000002000001084000000b612e6200000001284000000962000000",
        "no answer: valid\n",
        Exit::No,
    );
    writes(&rt, "01", "no answer: short\n", Exit::No);
    writes(&rt, "0", "message: not hexadecimal\n", Exit::Bad);
    writes(
        &rt,
        "0100001f80000118000000000000000100000002000001084000000b612e6200000001284000000962000000",
        "01000064000001180000000000000001000000020000010c4000000c000013970000010840000014686f73742e696e76616c6964000001284000000f696e76616c69640000000119000000206661756c7420353031352061742031206c656e677468202d\n",
        Exit::Yes,
    );
}

/// Two requests with a fault, a DWA, a request with a byte after it, one that is cut, a valid one, an empty line, and a text that
/// isn't hexadecimal.
const MESSAGES: &str = "\
0100001480000118000000000000000100000002
0100002c00000118000000000000000100000002000001084000000b612e6200000001284000000962000000
0100002c80000118000000000000000100000002000001084000000b612e620000000128400000096200000000
0100006080000101000000000000000100000002000001084000000b612e6200000001284000000962000000000001014000000e00017f00000100000000010a4000000c000000000000010d0000000970000000000001024000000c000000
0100002c80000118000000000000000100000002000001084000000b612e6200000001284000000962000000

x
0100002ca0000118000000000000000100000002000001084000000b612e6200000001284000000962000000";

const FIRST_ANSWER: &str =
    "01000084000001180000000000000001000000020000010c4000000c0000138d0000010840000014686f73742e696e76616c6964000001284000000f696e76616c696400000001190000002c6661756c742035303035206174203230206d697373696e67204f726967696e2d486f73740000011740000014000001084000000961000000\n";

const OTHER_ANSWERS: &str = "\
no answer: answer
no answer: trailing
no answer: truncated
no answer: valid
no answer: short
message: not hexadecimal
01000064000001180000000000000001000000020000010c4000000c000013950000010840000014686f73742e696e76616c6964000001284000000f696e76616c696400000001190000001e6661756c74203530313320617420342062697473202d0000
";

#[test]
fn answers_lines(rt: HostRuntime) {
    let summary = Some("2 of 8 lines have an answer\n");
    let parts = (FIRST_ANSWER, OTHER_ANSWERS);
    writes_all(&rt, base_text(), MESSAGES, parts, Exit::No, summary);
    let one = "0100001480000118000000000000000100000002\n";
    let summary = Some("1 of 1 lines have an answer\n");
    writes_all(
        &rt,
        base_text(),
        one,
        (FIRST_ANSWER, ""),
        Exit::Yes,
        summary,
    );
    let parts = ("dictionary 1: syntax at line 1\n", "");
    writes_all(&rt, "x", MESSAGES, parts, Exit::Bad, None);
}

/// What is written of the lines, in two parts, how the command ends, and its summary.
fn writes_all(
    rt: &(impl AllocGlobal + Abort),
    dictionary: &str,
    messages: &str,
    parts: (&str, &str),
    exit: Exit,
    summary: Option<&str>,
) {
    let inputs = inputs(rt, dictionary, "");
    let names = Names::new("host.invalid", "invalid").expect(rt, "names");
    let mut feed = FromReader::new(messages.as_bytes());
    let mut sink = ToWriter::new(Vec::new(rt.alloc()));
    let captured = write_answers(
        rt.alloc(),
        Unknown::Kept,
        Levels::Any,
        &names,
        &inputs,
        &mut feed,
        &mut sink,
    );
    let captured = captured.ok().expect(rt, "memory");
    assert!(rt; captured.reported.exit == exit && is_summary(&captured, summary));
    let (first, others) = parts;
    assert!(rt; sink.writer.as_slice().starts_with(first.as_bytes()));
    assert!(rt; &sink.writer.as_slice()[first.len()..] == others.as_bytes());
}

fn is_summary(captured: &Captured, wanted: Option<&str>) -> bool {
    match (&captured.summary, wanted) {
        (Some(Ok(summary)), Some(wanted)) => summary.as_str() == wanted,
        (None, None) => true,
        _ => false,
    }
}
