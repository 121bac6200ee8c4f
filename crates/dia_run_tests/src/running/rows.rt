//! The rows of the program's commands, by `run` over a writer in memory.

use super::{no_inputs, writes};
use crate::comparing::names_of;
use crate::words::{levels_of, policy_of, range_of};
use dia_rows::{Names, Row, field, without_blanks, word};
use dia_run::{Command, Input, Inputs};
use std::alloc::{AllocError, Global};
use std::process::Abort;

/// Checks what `run` writes for a row, and the status.
pub fn run_once(rt: &(impl AllocGlobal + Abort), names: &Names, row: &Row<'_>) {
    let call = field(row.call, 0);
    let mut inputs = no_inputs(rt.alloc());
    fill(rt, names, row, &mut inputs);
    answers(rt, names, row, &command_of(rt, call), &inputs);
}

/// Checks what `run` writes for the first bytes of a message, for each count of them.
pub fn run_fronts(rt: &(impl AllocGlobal + Abort), names: &Names, row: &Row<'_>) {
    let (_, call) = field(row.call, 0).split_once("check").expect(rt, row.line);
    let command = Command::Check {
        unknown: policy_of(rt, word(call, 0)),
        levels: levels_of(rt, word(call, 1)),
    };
    let mut inputs = no_inputs(rt.alloc());
    inputs.first = text_of(rt, names, row, 1);
    let digits = names.text(field(row.call, 2)).expect(rt, row.line);
    let digits = without_blanks(rt.alloc(), digits.as_slice()).expect(rt, "memory");
    for count in range_of(rt, word(field(row.call, 0), 1)) {
        let front = front_of(rt.alloc(), digits.as_slice(), count).expect(rt, "memory");
        inputs.message = Input::Bytes(front);
        answers(rt, names, row, &command, &inputs);
    }
}

/// The digits of so many bytes.
fn front_of(alloc: Global, digits: &[u8], count: usize) -> Result<Vec<u8>, AllocError> {
    let mut front = Vec::new(alloc);
    for pair in digits.chunks(2).take(count) {
        front.extend_from_slice(pair)?;
    }
    Ok(front)
}

/// Checks what `run` writes, and the status.
fn answers(
    rt: &(impl AllocGlobal + Abort),
    names: &Names,
    row: &Row<'_>,
    command: &Command,
    inputs: &Inputs,
) {
    let wanted = names.text(row.wanted).expect(rt, row.line);
    writes(rt, command, inputs, wanted.as_slice(), row.line);
}

/// The command of a row: its word, and the words after it.
fn command_of(rt: &(impl AllocGlobal + Abort), call: &str) -> Command {
    match word(call, 0) {
        "show" => Command::Show,
        "render" => Command::Render,
        _ => judging(rt, call),
    }
}

/// The same for a command that has a policy.
fn judging(rt: &(impl AllocGlobal + Abort), call: &str) -> Command {
    let unknown = policy_of(rt, word(call, 1));
    match word(call, 0) {
        "check" => Command::Check {
            unknown,
            levels: levels_of(rt, word(call, 2)),
        },
        "refute" => Command::Refute {
            unknown,
            levels: levels_of(rt, word(call, 2)),
        },
        "compare" => Command::Compare { unknown },
        _ => Command::Propose {
            unknown,
            names: names_of(rt.alloc(), call).expect(rt, "memory"),
        },
    }
}

/// Fills in the inputs of a row: its fields, in the order of the command's words.
fn fill(rt: &(impl AllocGlobal + Abort), names: &Names, row: &Row<'_>, inputs: &mut Inputs) {
    inputs.first = text_of(rt, names, row, 1);
    match word(row.call, 0) {
        "show" | "check" => inputs.message = text_of(rt, names, row, 2),
        "refute" => {
            inputs.second = text_of(rt, names, row, 2);
            inputs.message = text_of(rt, names, row, 3);
        }
        _ => {
            inputs.second = text_of(rt, names, row, 2);
            inputs.table = text_of(rt, names, row, 3);
        }
    }
}

/// The input that a field of a row is.
fn text_of(rt: &(impl AllocGlobal + Abort), names: &Names, row: &Row<'_>, place: usize) -> Input {
    Input::Bytes(names.text(field(row.call, place)).expect(rt, row.line))
}
