//! Rows of vectors, over both kinds of books:
//!
//! ```text
//! DICTIONARY | POLICY => LINE
//! ```

use crate::vectors::ROWS;
use dia_ccf::parse;
use dia_check::Unknown;
use dia_dict::{Book, IndexedBook, resolve};
use dia_examples_text::{Form, examples_of};
use dia_io::ToWriter;
use dia_rows::{Names, Row, field};
use std::process::Abort;

#[test]
fn lists_vectors(rt: HostRuntime) {
    let mut texts = Names::new(rt.alloc());
    for line in ROWS.lines() {
        if let Some(row) = texts.row(line).expect(&rt, line) {
            plays(&rt, &texts, &row);
        }
    }
}

/// Checks a row: the line is one of the answer, whichever book has the dictionary.
fn plays(rt: &(impl AllocGlobal + Abort), texts: &Names, row: &Row<'_>) {
    let text = texts.text(field(row.call, 0)).expect(rt, row.line);
    let text = str::from_utf8(&text).expect(rt, row.line);
    let unknown = if field(row.call, 1) == "kept" {
        Unknown::Kept
    } else {
        Unknown::Refused
    };
    let wanted = texts.text(row.wanted).expect(rt, row.line);
    let source = parse(rt.alloc(), text).expect(rt, text);
    let plain = resolve(rt.alloc(), source).expect(rt, text);
    has(rt, &plain, unknown, &wanted, row.line);
    let indexed = IndexedBook::from_plain(rt.alloc(), plain).expect(rt, "memory");
    has(rt, &indexed, unknown, &wanted, row.line);
}

fn has<B: Book>(
    rt: &(impl AllocGlobal + Abort),
    book: &B,
    unknown: Unknown,
    wanted: &[u8],
    line: &str,
) {
    let mut sink = ToWriter::new(Vec::new(rt.alloc()));
    let mut notes = String::new(rt.alloc());
    let ended = examples_of(
        rt.alloc(),
        book,
        unknown,
        Form::Columns,
        &[],
        &mut notes,
        &mut sink,
    );
    let text = str::from_utf8(sink.writer.as_slice()).expect(rt, line);
    let mut is_there = false;
    for found in text.lines() {
        if found.as_bytes() == wanted {
            is_there = true;
        }
    }
    assert!(rt; ended.is_ok() && is_there, "{line}");
}
