//! Places of a text as a reader looks for them: line and column, and the line itself with a caret under the place.

ghost use Rattle.std.specs.Prelude.{◌≡◌, ◌==◌, ◌++◌, not, nat_lt, if◌then◌else◌, take, drop, OnOk, replicate, string_bytes};
ghost use Rattle.std.specs.List.{suffix_len};
ghost use Rattle.std.specs.Prelude.{flat_map};
ghost use Rattle.std.specs.Str.{chars};
ghost use Rattle.dia_explain_places.specs.Places.{line_column, place_text, start_text, excerpt, shown, shown_char};
ghost use Rattle.dia_explain_places.specs.Places.{line_at, column_at, line_front, line_rest};
ghost use Rattle.dia_explain_places.specs.Places.{shown_front};

use crate::runs::{Kind, count_of, run_length};
use std::alloc::AllocError;

/// How many bytes of a line are shown before the place, and how many from it on.
const BEFORE: usize = 70;

const AFTER: usize = 50;

/// A place of a text, by its line and column, both from 1. A column is a character.
#[derive(Clone, Copy)]
pub struct Place {
    pub line: usize,
    pub column: usize,
}

/// The bytes before a place.
pub(crate) fn front(text: &[u8], at: usize) -> &[u8]
    ensures { result.now ≡ take at text.now }
{
    text.get(..at).unwrap_or(text)
}

/// The bytes from a place on.
pub fn back(text: &[u8], at: usize) -> &[u8]
    ensures { result.now ≡ drop at text.now }
{
    text.get(at..).unwrap_or(b"".as_slice())
}

/// The part of the line before a place.
fn line_before(text: &[u8], at: usize) -> &[u8]
    ensures { result.now ≡ line_front text.now at }
{
    let before = front(text, at);
    back(before, before.len().saturating_sub(after_feed(before)))
}

/// How many bytes follow the last line feed.
fn after_feed(bytes: &[u8]) -> usize
    ensures { result ≡ suffix_len (λ c. not (c == 10)) bytes.now }
{
    bytes
        .iter()
        .rev()
        .take_while(|byte| **byte != b'\n')
        .count()
}

/// The part of the line from a place on, without its end.
fn line_after(text: &[u8], at: usize) -> &[u8]
    ensures { result.now ≡ line_rest text.now at }
{
    let following = back(text, at);
    front(following, run_length(following, Kind::Shown))
}

/// The line and the column of a place.
pub fn place_of(text: &[u8], at: usize) -> Place
    ensures line { result.line ≡ line_at text.now at }
    ensures column { result.column ≡ column_at text.now at }
{
    let feeds = count_of(front(text, at), Kind::Feed);
    let characters = count_of(line_before(text, at), Kind::First);
    Place {
        line: feeds.saturating_add(1),
        column: characters.saturating_add(1),
    }
}

/// Begins a diagnostic: `NAME:LINE:COLUMN: `.
pub(crate) fn push_place(
    out: &mut String,
    name: &str,
    text: &[u8],
    at: usize,
) -> Result<(), AllocError>
    ensures { OnOk result (string_bytes out.new ≡ string_bytes out.old ++ place_text name.now text.now at) }
{
    write!(out, "{name}:")?;
    push_line_column(out, text, at)?;
    out.push_str(": ")
}

/// Begins a line about a place of a text, or about the whole text: `NAME: `.
pub(crate) fn push_start(
    out: &mut String,
    name: &str,
    text: &[u8],
    at: Option<usize>,
) -> Result<(), AllocError>
    ensures { OnOk result (string_bytes out.new ≡ string_bytes out.old ++ start_text name.now text.now at) }
{
    match at {
        Some(at) => push_place(out, name, text, at),
        None => write!(out, "{name}: "),
    }
}

/// Adds a place as `LINE:COLUMN`.
fn push_line_column(out: &mut String, text: &[u8], at: usize) -> Result<(), AllocError>
    ensures { OnOk result (string_bytes out.new ≡ string_bytes out.old ++ line_column text.now at) }
{
    let Place { line, column } = place_of(text, at);
    write!(out, "{line}:{column}")
}

/// Adds the line of a place, and below it a caret at the place. Of a long line a part is shown.
pub(crate) fn push_excerpt(out: &mut String, text: &[u8], at: usize) -> Result<(), AllocError>
    ensures { OnOk result (string_bytes out.new ≡ string_bytes out.old ++ excerpt text.now at) }
{
    let before = shown_before(text, at);
    out.push_str("  ")?;
    push_shown(out, before)?;
    push_shown(out, shown_after(text, at))?;
    out.push_str("\n  ")?;
    push_spaces(out, count_of(before, Kind::First))?;
    out.push_str("^\n")
}

fn push_spaces(out: &mut String, count: usize) -> Result<(), AllocError>
    ensures { OnOk result (string_bytes out.new ≡ string_bytes out.old ++ replicate count 32) }
{
    for _column in 0..count {
        out.push(' ')?;
    }
    Ok(())
}

/// What is shown of a line before a place.
fn shown_before(text: &[u8], at: usize) -> &[u8]
    ensures { result.now ≡ shown_front text.now at }
{
    let before = line_before(text, at);
    let cut = back(before, before.len().saturating_sub(BEFORE));
    back(cut, run_length(cut, Kind::Inner))
}

/// What is shown of a line from a place on.
fn shown_after(text: &[u8], at: usize) -> &[u8]
    ensures { result.now ≡ take 50 (line_rest text.now at) }
{
    front(line_after(text, at), AFTER)
}

/// Adds bytes as text, with a space for each control character.
pub(crate) fn push_shown(out: &mut String, bytes: &[u8]) -> Result<(), AllocError>
    ensures { OnOk result (string_bytes out.new ≡ string_bytes out.old ++ shown bytes.now) }
{
    let text = String::from_utf8_lossy(*out.allocator(), bytes)?;
    push_characters(out, text.as_str())
}

fn push_characters(out: &mut String, text: &str) -> Result<(), AllocError>
    ensures { OnOk result
        (string_bytes out.new ≡ string_bytes out.old ++ flat_map shown_char (chars text.now)) }
{
    for c in text.chars() {
        out.push(without_control(c))?;
    }
    Ok(())
}

/// A character, or a space for one of control.
fn without_control(c: char) -> char
    ensures { result ≡ if nat_lt c 32 then 32 else c }
{
    if c < ' ' { ' ' } else { c }
}
