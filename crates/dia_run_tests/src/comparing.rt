//! Comparisons, proposals and tables by the calls of dia_compat.

use crate::books::Books;
use crate::words::{levels_of, policy_of, same};
use dia_compat::{
    Answer, PairKind, Table, check_table, parse_table, propose, refutes, render_table,
};
use dia_dict::Book;
use dia_rows::{Names, Row, bytes_of, field, word};
use std::alloc::{AllocError, Global};
use std::process::Abort;

mod table;

/// What a row asks of two books: the words of its call, and its third input.
#[derive(Clone, Copy)]
struct Asked<'a> {
    call: &'a str,
    input: &'a str,
    wanted: &'a [u8],
    line: &'a str,
}

/// Checks the answers of all four pairs of books for a row of `compare`, `propose` or `refute`.
pub fn answer_pairs(rt: &(impl AllocGlobal + Abort), names: &Names, row: &Row<'_>) {
    let first = names.text(field(row.call, 1)).expect(rt, row.line);
    let first = Books::new(rt, first.as_slice());
    let second = names.text(field(row.call, 2)).expect(rt, row.line);
    let second = Books::new(rt, second.as_slice());
    let input = names.text(field(row.call, 3)).expect(rt, row.line);
    let wanted = names.text(row.wanted).expect(rt, row.line);
    let asked = Asked {
        call: field(row.call, 0),
        input: str::from_utf8(input.as_slice()).expect(rt, row.line),
        wanted: wanted.as_slice(),
        line: row.line,
    };
    answer_first(rt, &*first.plain, &second, asked);
    answer_first(rt, &*first.indexed, &second, asked);
}

/// Checks the answers of a book and both second books.
fn answer_first<A: Book>(rt: &(impl AllocGlobal + Abort), a: &A, second: &Books, asked: Asked<'_>) {
    answer_pair(rt, a, &*second.plain, asked);
    answer_pair(rt, a, &*second.indexed, asked);
}

/// Checks the answer of two books.
fn answer_pair<A: Book, B: Book>(rt: &(impl AllocGlobal + Abort), a: &A, b: &B, asked: Asked<'_>) {
    let found = match word(asked.call, 0) {
        "compare" => compared(rt, a, b, asked),
        "propose" => proposed(rt, a, b, asked.call),
        _ => refuted(rt, a, b, asked),
    };
    same(rt, found.as_bytes(), asked.wanted, asked.line);
}

/// The status and the line of a comparison.
fn compared<A: Book, B: Book>(
    rt: &(impl AllocGlobal + Abort),
    a: &A,
    b: &B,
    asked: Asked<'_>,
) -> String {
    let table = parse_table(rt.alloc(), asked.input).expect(rt, asked.line);
    let unknown = policy_of(rt, word(asked.call, 1));
    let answer = check_table(rt.alloc(), a, b, unknown, &table).expect(rt, "memory");
    answer_line(rt.alloc(), &table, answer).expect(rt, "memory")
}

/// The status and the line of an answer.
fn answer_line(alloc: Global, table: &Table, answer: Answer) -> Result<String, AllocError> {
    let Answer::No { kind, pair, reason } = answer else {
        return String::from_str(alloc, "0 yes\n");
    };
    let (word, pairs) = match kind {
        PairKind::Command => ("command", &table.commands),
        PairKind::Avp => ("avp", &table.avps),
    };
    match pairs.get(pair) {
        Some((a, b)) => format!(in alloc; "1 no {word} {a} = {b} {reason:?}\n"),
        None => String::from_str(alloc, "no such pair"),
    }
}

/// The status and the table that is proposed.
fn proposed<A: Book, B: Book>(rt: &(impl AllocGlobal + Abort), a: &A, b: &B, call: &str) -> String {
    let names = names_of(rt.alloc(), call).expect(rt, "memory");
    let unknown = policy_of(rt, word(call, 1));
    let table = propose(rt.alloc(), a, b, unknown, &names).expect(rt, call);
    let text = render_table(rt.alloc(), &table).expect(rt, "memory");
    let blank = if text.is_empty() { "" } else { " " };
    format!(in rt.alloc(); "0{blank}{text}").expect(rt, "memory")
}

/// The names of commands after the policy; `-` is the empty one.
pub fn names_of(alloc: Global, call: &str) -> Result<Vec<String>, AllocError> {
    let mut list = Vec::new(alloc);
    for word in call.split_ascii_whitespace().skip(2) {
        let name = if word == "-" { "" } else { word };
        list.push(String::from_str(alloc, name)?)?;
    }
    Ok(list)
}

/// The status and the line of a message against two books.
fn refuted<A: Book, B: Book>(
    rt: &(impl AllocGlobal + Abort),
    a: &A,
    b: &B,
    asked: Asked<'_>,
) -> String {
    let message = bytes_of(rt.alloc(), asked.input.as_bytes()).expect(rt, asked.line);
    let unknown = policy_of(rt, word(asked.call, 1));
    let levels = levels_of(rt, word(asked.call, 2));
    let found = refutes(rt.alloc(), a, b, unknown, levels, message.as_slice()).expect(rt, "memory");
    let line = if found {
        "0 refutes\n"
    } else {
        "1 does not refute\n"
    };
    String::from_str(rt.alloc(), line).expect(rt, "memory")
}
