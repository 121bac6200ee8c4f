//! Rows of requests:
//!
//! ```text
//! DICTIONARY POLICY LEVELS | REQUEST => ANSWER, or why there is none
//! ```

use crate::dictionaries::{CREDIT_CONTROL, NONE, RFC_3588};
use crate::requests::ROWS;
use dia_answer::{Names, answer};
use dia_ccf::parse;
use dia_check::{Levels, Unknown};
use dia_dict::{IndexedBook, base_text, resolve};
use dia_rows::{Names as Texts, Row, field, word};
use std::process::Abort;

#[test]
fn answers_requests(rt: HostRuntime) {
    let base = book_of(&rt, base_text());
    let credit_control = book_of(&rt, CREDIT_CONTROL);
    let older = book_of(&rt, RFC_3588);
    let none = book_of(&rt, NONE);
    let mut texts = Texts::new(rt.alloc());
    for line in ROWS.lines() {
        if let Some(row) = texts.row(line).expect(&rt, line) {
            let book = match word(field(row.call, 0), 0) {
                "base" => &base,
                "cc" => &credit_control,
                "r3588" => &older,
                _ => &none,
            };
            plays(&rt, book, &row);
        }
    }
}

fn book_of(rt: &(impl AllocGlobal + Abort), text: &str) -> IndexedBook {
    let source = parse(rt.alloc(), text).expect(rt, text);
    let plain = resolve(rt.alloc(), source).expect(rt, text);
    IndexedBook::from_plain(rt.alloc(), plain).expect(rt, "memory")
}

/// Checks a row: the answer to its request.
fn plays(rt: &(impl AllocGlobal + Abort), book: &IndexedBook, row: &Row<'_>) {
    let call = field(row.call, 0);
    let unknown = if word(call, 1) == "kept" {
        Unknown::Kept
    } else {
        Unknown::Refused
    };
    let levels = match word(call, 2) {
        "any" => Levels::Any,
        most => Levels::AtMost(most.parse().expect(rt, most)),
    };
    let request = hex::decode(rt.alloc(), field(row.call, 1)).expect(rt, row.line);
    let names = Names::new("host.invalid", "invalid").expect(rt, "names");
    let found = answer(rt.alloc(), book, unknown, levels, &names, &request).expect(rt, "memory");
    let found = match found {
        Ok(made) => hex::encode(rt.alloc(), &made.bytes).expect(rt, "memory"),
        Err(why) => String::from_str(rt.alloc(), why.word()).expect(rt, "memory"),
    };
    if found.as_str() != row.wanted {
        rt.panic(format_args!("{}\n found: {found}", row.line));
    }
}
