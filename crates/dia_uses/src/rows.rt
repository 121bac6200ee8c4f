//! Dictionaries, words and answers.
//!
//! ```text
//! == WHAT; avps WORD..; status STATUS
//! the dictionary
//! --
//! the lines of the answer
//! ```

use crate::write_uses;
use dia_io::{Input, Inputs, ToWriter};
use std::alloc::Global;
use std::process::Abort;

mod objects;
mod words;

#[test]
fn answers_in_words(rt: HostRuntime) {
    answers(&rt, words::ROWS, false);
}

#[test]
fn answers_in_json(rt: HostRuntime) {
    answers(&rt, objects::ROWS, true);
}

/// Asserts that each dictionary of the rows has its answer.
fn answers(rt: &(impl AllocGlobal + Abort), rows: &str, json: bool) {
    for row in rows.split("== ") {
        if let Some((head, rest)) = row.split_once("\n") {
            let (dictionary, answer) = rest.split_once("--\n").unwrap_or((rest, ""));
            has_answer(rt, head, dictionary, answer, json);
        }
    }
}

fn has_answer(
    rt: &(impl AllocGlobal + Abort),
    head: &str,
    dictionary: &str,
    answer: &str,
    json: bool,
) {
    let alloc = rt.alloc();
    let (_, rest) = head.split_once("; avps ").unwrap_or(("", ""));
    let (words, status) = rest.split_once("; status ").unwrap_or(("", ""));
    let avps = words_of(rt, words);
    let inputs = inputs_of(rt, dictionary);
    let mut notes = String::new(alloc);
    let mut sink = ToWriter::new(Vec::new(alloc));
    let ended = write_uses(alloc, json, &avps, &inputs, &mut notes, &mut sink);
    let found = str::from_utf8(sink.writer.as_slice()).unwrap_or("");
    assert_eq!(rt; found, answer, "{head}");
    let exit = ended.map(|reported| reported.exit.status()).unwrap_or(9);
    assert_eq!(rt; digit(exit), status, "{head}");
    assert!(rt; exit == 2 || !notes.is_empty(), "{head}");
}

fn digit(status: u8) -> &'static str {
    match status {
        0 => "0",
        1 => "1",
        2 => "2",
        _ => "none",
    }
}

fn words_of(rt: &(impl AllocGlobal + Abort), words: &str) -> Vec<String> {
    let mut found = Vec::new(rt.alloc());
    for word in words.split(' ') {
        let word = String::from_str(rt.alloc(), word).expect(rt, "memory");
        found.push(word).expect(rt, "memory");
    }
    found
}

fn inputs_of(rt: &(impl AllocGlobal + Abort), dictionary: &str) -> Inputs {
    Inputs {
        first: input(rt, dictionary),
        second: input(rt, ""),
        table: input(rt, ""),
        message: input(rt, ""),
    }
}

fn input(rt: &(impl AllocGlobal + Abort), text: &str) -> Input {
    Input::Bytes(
        Vec::from_slice(rt.alloc(), text.as_bytes())
            .ok()
            .expect(rt, "memory"),
    )
}
