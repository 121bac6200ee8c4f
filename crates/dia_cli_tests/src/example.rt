//! The example of dia_cli's docs.

use dia_cli::{OfProcess, Request, Task, open_inputs, parse_words};
use dia_run::{Exit, ToWriter, run};
use std::rt::Files;
use std::test::Fail;

/// How the run that the words ask for ends, and what it writes.
fn run_of<'a, R: AllocGlobal + Files + Input>(
    rt: &R,
    words: &'a [&'a str],
) -> Result<(Exit, Vec<u8>), Fail> {
    let alloc = rt.alloc();
    let Ok(request) = parse_words(alloc, "1.0.0", words) else {
        return Err(Fail::from("the words aren't read"));
    };
    let Request { task, origins, .. } = request;
    let Ok(inputs) = open_inputs(alloc, &OfProcess::new(rt), &origins) else {
        return Err(Fail::from("the files can't be read"));
    };
    let Task::Whole(command) = task else {
        return Err(Fail::from("the words ask for another run"));
    };
    let mut sink = ToWriter::new(Vec::new(alloc));
    let exit = run(alloc, &command, &inputs, &mut sink)?;
    Ok((exit, sink.writer))
}

#[test]
fn checks_a_message_without_bytes(rt: HostRuntime) -> Result<(), Fail> {
    let (exit, text) = run_of(&rt, &["diacmd", "check", "@base", "/dev/null"])?;
    assert!(rt; exit == Exit::No);
    assert!(rt; text.as_slice() == b"truncated\n".as_slice());
    Ok(())
}
