//! A line, in the form that is asked for.
ghost use Rattle.std.specs.Prelude.{◌≡◌, ◌++◌, OnOk, string_bytes};
ghost use Rattle.dia_diff_text.specs.Lines.{IsLineText, written};
ghost use Rattle.dia_diff_text.specs.Plain.{plain_parts};
ghost use Rattle.dia_diff_text.specs.Words.{AddsText};

use crate::objects::push_object;
use crate::parts::{Parts, parts_of};
use crate::writing::push_line;
use dia_book::Book;
use dia_differences::Line;
use std::alloc::{AllocError, Global};

/// Adds a line about the dictionaries A and B, in words or as a JSON object, with its line feed. The error comes only where memory
/// was refused.
pub fn push<A: Book, B: Book>(
    alloc: Global,
    out: &mut String,
    json: bool,
    a: &A,
    b: &B,
    line: &Line,
) -> Result<(), AllocError>
    ensures { OnOk result (AddsText out.old out.new (IsLineText json (A.meaning a.now) (B.meaning b.now) line.now)) }
{
    let parts = parts_of(alloc, a, b, line)?;
    push_parts(out, json, &parts)
}

fn push_parts(out: &mut String, json: bool, parts: &Parts<'_>) -> Result<(), AllocError>
    ensures { OnOk result (string_bytes out.new
        ≡ string_bytes out.old ++ written json (plain_parts parts.now)) }
{
    if json {
        push_object(out, parts)
    } else {
        push_line(out, parts)
    }
}
