//! Commands of the program, by `run` over a writer in memory.

use crate::words::same;
use dia_run::{Command, Input, Inputs, ToWriter, run};
use std::alloc::Global;
use std::process::Abort;

pub mod rows;

/// Checks the status of a command and, after a blank, what it writes.
pub fn writes(
    rt: &(impl AllocGlobal + Abort),
    command: &Command,
    inputs: &Inputs,
    wanted: &[u8],
    line: &str,
) {
    let mut sink = ToWriter::new(Vec::new(rt.alloc()));
    let exit = run(rt.alloc(), command, inputs, &mut sink).expect(rt, line);
    let status = exit.status();
    let text = sink.writer.as_slice();
    let blank = if text.is_empty() { "" } else { " " };
    let mut found = format!(in rt.alloc(); "{status}{blank}")
        .expect(rt, "memory")
        .into_bytes();
    found.extend_from_slice(text).expect(rt, "memory");
    same(rt, found.as_slice(), wanted, line);
}

/// Inputs that are empty.
pub fn no_inputs(alloc: Global) -> Inputs {
    Inputs {
        first: Input::Bytes(Vec::new(alloc)),
        second: Input::Bytes(Vec::new(alloc)),
        table: Input::Bytes(Vec::new(alloc)),
        message: Input::Bytes(Vec::new(alloc)),
    }
}

/// The input of a text.
pub fn input(rt: &(impl AllocGlobal + Abort), text: &str) -> Input {
    Input::Bytes(Vec::from_slice(rt.alloc(), text.as_bytes()).expect(rt, "memory"))
}
