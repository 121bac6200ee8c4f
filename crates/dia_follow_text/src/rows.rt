//! Whole texts and their answers, under the base dictionary.
//!
//! ```text
//! == WHAT; options OPTION..; status STATUS
//! the lines of the connection
//! --
//! the lines of the answer
//! ```

use crate::{Check, Options, follow};
use dia_check::{Levels, Unknown};
use dia_dict::base_text;
use dia_io::{FromReader, Input, ToWriter};
use std::alloc::Global;
use std::process::Abort;

mod bodies;
mod opening;
mod requests;
mod results;

#[test]
fn connections_begin(rt: HostRuntime) {
    answers(&rt, opening::ROWS);
}

#[test]
fn requests_are_answered(rt: HostRuntime) {
    answers(&rt, requests::ROWS);
}

#[test]
fn bodies_are_read(rt: HostRuntime) {
    answers(&rt, bodies::ROWS);
}

#[test]
fn results_and_silence_are_noted(rt: HostRuntime) {
    answers(&rt, results::ROWS);
}

/// Asserts that each text of the rows has its answer.
fn answers(rt: &(impl AllocGlobal + Abort), rows: &str) {
    for row in rows.split("== ") {
        if let Some((head, rest)) = row.split_once("\n") {
            let (connection, answer) = rest.split_once("--\n").unwrap_or((rest, ""));
            has_answer(rt, head, connection, answer);
        }
    }
}

fn has_answer(rt: &(impl AllocGlobal + Abort), head: &str, connection: &str, answer: &str) {
    let alloc = rt.alloc();
    let options = options_of(head);
    let dictionary = base(rt);
    let mut feed = FromReader::new(connection.as_bytes());
    let mut sink = ToWriter::new(Vec::new(alloc));
    let followed = follow(alloc, &options, &dictionary, &mut feed, &mut sink);
    assert!(rt; sink.writer.as_slice() == answer.as_bytes(), "{head}");
    let status = followed
        .map(|followed| followed.reported.exit.status())
        .unwrap_or(9);
    assert!(rt; head.ends_with(word_of(status)), "{head}");
}

fn word_of(status: u8) -> &'static str {
    match status {
        0 => "status 0",
        1 => "status 1",
        2 => "status 2",
        _ => "no status",
    }
}

fn options_of(head: &str) -> Options {
    let check = if head.contains("--check") {
        Some(Check {
            unknown: Unknown::Kept,
            levels: Levels::Any,
        })
    } else {
        None
    };
    Options {
        middle: head.contains("--middle"),
        check,
        json: head.contains("--json"),
    }
}

fn base(rt: &(impl AllocGlobal + Abort)) -> Input {
    let text = Vec::from_slice(rt.alloc(), base_text().as_bytes()).expect(rt, "memory");
    Input::Bytes(text)
}
