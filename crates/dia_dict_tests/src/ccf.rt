//! Texts of dictionaries: what they are read as, where they are refused, and how they are rendered.
//!
//! A row is a text, and what `parse` answers: `fine`, `syntax TOKEN LINE`, `number LINE` or `limit LINE`; or `renders TEXT`,
//! where it is rendered as that.

mod memory;
mod places;
mod texts;
mod tokens;

use crate::words::same;
use dia_ccf::{CcfFault, parse, render};
use dia_rows::{Names, Row};
use std::alloc::{AllocError, Global};
use std::process::Abort;

const TEXTS: [&str; 3] = [texts::ROWS, places::ROWS, tokens::ROWS];

#[test]
fn texts_are_read(rt: HostRuntime) {
    for text in TEXTS.iter() {
        answers(&rt, text);
    }
}

/// Checks each row of a text.
fn answers(rt: &(impl AllocGlobal + Abort), text: &str) {
    let mut names = Names::new(rt.alloc());
    for line in text.lines() {
        if let Some(row) = names.row(line).expect(rt, line) {
            answer(rt, &names, &row);
        }
    }
}

/// Checks the answer to the text of a row.
fn answer(rt: &(impl AllocGlobal + Abort), names: &Names, row: &Row<'_>) {
    let text = names.text(row.call).expect(rt, row.line);
    let text = str::from_utf8(text.as_slice()).expect(rt, row.line);
    let wanted = names.text(row.wanted).expect(rt, row.line);
    let found = if row.wanted.starts_with("renders") {
        rendered(rt, text)
    } else {
        recorded(rt.alloc(), parse(rt.alloc(), text).err()).expect(rt, "memory")
    };
    same(rt, found.as_bytes(), wanted.as_slice(), row.line);
}

/// The canonical text of a text.
fn rendered(rt: &(impl AllocGlobal + Abort), text: &str) -> String {
    let source = parse(rt.alloc(), text).expect(rt, text);
    let text = render(rt.alloc(), &source).expect(rt, "memory");
    let blank = if text.is_empty() { "" } else { " " };
    format!(in rt.alloc(); "renders{blank}{text}").expect(rt, "memory")
}

/// Why a text is refused, if it is.
fn recorded(alloc: Global, fault: Option<CcfFault>) -> Result<String, AllocError> {
    match fault {
        None => String::from_str(alloc, "fine"),
        Some(CcfFault::Syntax { token, line }) => format!(in alloc; "syntax {token} {line}"),
        Some(CcfFault::Number { line }) => format!(in alloc; "number {line}"),
        Some(CcfFault::Limit { line }) => format!(in alloc; "limit {line}"),
        Some(CcfFault::NoMemory) => String::from_str(alloc, "no memory"),
    }
}
