//! Pairs of dictionaries, and their answers.
//!
//! ```text
//! == WHAT; options OPTION..; status STATUS
//! the first dictionary
//! --
//! the second
//! --
//! the lines of the answer
//! ```

use crate::{Asked, write_diff};
use dia_io::{Input, Inputs, ToWriter};
use dia_terms::{Sends, Unknown};
use std::alloc::Global;
use std::process::Abort;

mod avps;
mod commands;
mod objects;
mod others;
mod rules;

#[test]
fn avps_differ(rt: HostRuntime) {
    answers(&rt, avps::ROWS, false);
}

#[test]
fn rules_differ(rt: HostRuntime) {
    answers(&rt, rules::ROWS, false);
}

#[test]
fn commands_differ(rt: HostRuntime) {
    answers(&rt, commands::ROWS, false);
}

#[test]
fn nothing_differs_or_a_text_is_refused(rt: HostRuntime) {
    answers(&rt, others::ROWS, false);
}

#[test]
fn answers_in_json(rt: HostRuntime) {
    answers(&rt, objects::ROWS, true);
}

/// Asserts that each pair of the rows has its answer.
fn answers(rt: &(impl AllocGlobal + Abort), rows: &str, json: bool) {
    for row in rows.split("== ") {
        if let Some((head, rest)) = row.split_once("\n") {
            let (first, rest) = rest.split_once("--\n").unwrap_or((rest, ""));
            let (second, answer) = rest.split_once("--\n").unwrap_or((rest, ""));
            let inputs = Inputs {
                first: input(rt, first),
                second: input(rt, second),
                table: input(rt, ""),
                message: input(rt, ""),
            };
            has_answer(rt, head, &inputs, answer, json);
        }
    }
}

fn has_answer(
    rt: &(impl AllocGlobal + Abort),
    head: &str,
    inputs: &Inputs,
    answer: &str,
    json: bool,
) {
    let alloc = rt.alloc();
    let asked = asked_for(head, json);
    let mut notes = String::new(alloc);
    let mut sink = ToWriter::new(Vec::new(alloc));
    let ended = write_diff(alloc, asked, inputs, &mut notes, &mut sink);
    let found = str::from_utf8(sink.writer.as_slice()).unwrap_or("");
    assert_eq!(rt; found, answer, "{head}");
    let exit = ended.map(|reported| reported.exit.status()).unwrap_or(9);
    assert!(rt; head.ends_with(word_of(exit)), "{head}");
    assert_eq!(rt; notes.is_empty(), exit != 1, "{head}");
}

fn word_of(status: u8) -> &'static str {
    match status {
        0 => "status 0",
        1 => "status 1",
        2 => "status 2",
        _ => "no status",
    }
}

fn asked_for(head: &str, json: bool) -> Asked {
    let sends = if head.contains("listed") {
        Sends::Listed
    } else if head.contains("known") {
        Sends::Known
    } else {
        Sends::Any
    };
    let unknown = if head.contains("refused") {
        Unknown::Refused
    } else {
        Unknown::Kept
    };
    Asked {
        sends,
        unknown,
        json,
    }
}

fn input(rt: &(impl AllocGlobal + Abort), text: &str) -> Input {
    Input::Bytes(
        Vec::from_slice(rt.alloc(), text.as_bytes())
            .ok()
            .expect(rt, "memory"),
    )
}
