//! Rows of small dictionaries, and rows of changes of a dictionary without findings:
//!
//! ```text
//! POLICY RULES | DICTIONARY => LINES
//! OLD | NEW | OLD | NEW => LINES
//! ```
//!
//! A change puts NEW in the place of the first OLD.

use crate::texts::{CHANGES, GOOD, SMALL};
use dia_io::{Input, Inputs, ToWriter};
use dia_lint_text::{Asked, write_lint};
use dia_rows::{Names, Row, field, word};
use dia_terms::Unknown;
use std::process::Abort;

#[test]
fn reports_what_small_dictionaries_say_in_vain(rt: HostRuntime) {
    let mut texts = Names::new(rt.alloc());
    for line in SMALL.lines() {
        if let Some(row) = texts.row(line).expect(&rt, line) {
            let call = field(row.call, 0);
            let unknown = if word(call, 0) == "kept" {
                Unknown::Kept
            } else {
                Unknown::Refused
            };
            let dictionary = texts.text(field(row.call, 1)).expect(&rt, line);
            plays(&rt, &texts, &row, unknown, word(call, 1), dictionary);
        }
    }
}

#[test]
fn reports_changes_of_a_dictionary_without_findings(rt: HostRuntime) {
    let mut texts = Names::new(rt.alloc());
    for line in CHANGES.lines() {
        if let Some(row) = texts.row(line).expect(&rt, line) {
            let mut dictionary = Vec::from_slice(rt.alloc(), GOOD.as_bytes()).expect(&rt, "memory");
            for change in 0..2 {
                let old = texts.text(field(row.call, 2 * change)).expect(&rt, line);
                let new = texts
                    .text(field(row.call, 2 * change + 1))
                    .expect(&rt, line);
                dictionary = changed(&rt, &dictionary, &old, &new);
            }
            plays(&rt, &texts, &row, Unknown::Kept, "", dictionary);
        }
    }
}

/// A text with `new` in the place of the first `old`.
fn changed(rt: &(impl AllocGlobal + Abort), text: &[u8], old: &[u8], new: &[u8]) -> Vec<u8> {
    let mut out = Vec::new(rt.alloc());
    for at in 0..text.len() {
        let (before, rest) = text.split_at(at);
        if let Some(after) = rest.strip_prefix(old) {
            out.extend_from_slice(before).expect(rt, "memory");
            out.extend_from_slice(new).expect(rt, "memory");
            out.extend_from_slice(after).expect(rt, "memory");
            return out;
        }
    }
    out.extend_from_slice(text).expect(rt, "memory");
    out
}

/// Checks a row: the lines for its dictionary.
fn plays(
    rt: &(impl AllocGlobal + Abort),
    texts: &Names,
    row: &Row<'_>,
    unknown: Unknown,
    only: &str,
    dictionary: Vec<u8>,
) {
    let found = answered(rt, unknown, only, dictionary);
    let mut wanted = texts.text(row.wanted).expect(rt, row.line);
    wanted.push(b'\n').expect(rt, "memory");
    if found.as_slice() != wanted.as_slice() {
        let found = String::from_utf8_lossy(rt.alloc(), &found).expect(rt, "memory");
        rt.panic(format_args!("{}\n found: {found}", row.line));
    }
}

fn answered(
    rt: &(impl AllocGlobal + Abort),
    unknown: Unknown,
    only: &str,
    dictionary: Vec<u8>,
) -> Vec<u8> {
    let asked = Asked {
        unknown,
        only: if only.is_empty() { None } else { Some(only) },
        except: None,
        json: false,
        file: "d",
        list: "list",
    };
    let inputs = Inputs {
        first: Input::Bytes(dictionary),
        second: Input::Bytes(Vec::new(rt.alloc())),
        table: Input::Bytes(Vec::new(rt.alloc())),
        message: Input::Bytes(Vec::new(rt.alloc())),
    };
    let mut notes = String::new(rt.alloc());
    let mut sink = ToWriter::new(Vec::new(rt.alloc()));
    write_lint(rt.alloc(), &asked, &inputs, &mut notes, &mut sink).expect(rt, "lint");
    sink.writer
}
