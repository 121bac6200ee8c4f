//! Texts of several messages, with empty lines between them.
ghost use Rattle.std.specs.Prelude.{◌≡◌, ◌<◌, ◌^◌, OnOk, ◌++◌, ◌∷◌, length, map, string_bytes};
ghost use Rattle.std.specs.Prelude.{◌==◌, not};
ghost use Rattle.std.specs.List.{slice_split, flat_map};
ghost use Rattle.dia_data.specs.Shown.{hex_byte};
ghost use Rattle.dia_text.specs.Words.{first_word};
ghost use Rattle.dia_text.specs.Made.{is_empty, has_word, part_text, parts_text};
ghost use Rattle.dia_text.specs.Made.{made_lines, digits_line, IsMadeText, IsPartAdded};
ghost use Rattle.dia_text.specs.Made.{IsWithin, after_lines, recorded_after, message_from};

use crate::fault::{Fault, Kind, NotMade, Wanted};
use crate::making::{ends, lines_of, make_lines};
use crate::names::NamedBook;
use crate::words::next_word;
use dia_book::Book;
use dia_data::push_hex_byte;
use std::alloc::{AllocError, Global};

/// The messages that a text writes, with empty lines between them, over this dictionary: a line of hexadecimal digits for
/// each; or the first line that can't follow those before it.
pub fn make_all<B: Book>(alloc: Global, book: &B, text: &[u8]) -> Result<String, NotMade>
    ensures { IsMadeText result (made_lines (B.meaning book.now) text.now) }
{
    let lines = lines_of(alloc, text)?;
    if !has_word(&lines) {
        return Err(ends(lines.len(), Kind::Syntax, Wanted::HeaderLine));
    }
    let named = NamedBook::new(alloc, book)?;
    parts_made(alloc, &named, &lines)
}

/// The lines of the messages of these lines.
fn parts_made<B: Book>(
    alloc: Global,
    named: &NamedBook<'_, B>,
    lines: &[&[u8]],
) -> Result<String, NotMade>
    ensures { IsMadeText result (parts_text named.now 0
        (slice_split is_empty (map (λ x. x.now) lines.now))) }
{
    let mut out = String::new(alloc);
    let mut start = 0;
    for index in 0..lines.len() {
        if has_nothing(lines[index]) {
            push_part(alloc, named, &mut out, &lines[start..index], start)?;
            start = index + 1;
        }
    }
    push_part(alloc, named, &mut out, &lines[start..], start)?;
    Ok(out)
}

/// Adds the line of the message of these lines, if they have a word. They are after `at` lines of the text.
fn push_part<B: Book>(
    alloc: Global,
    named: &NamedBook<'_, B>,
    out: &mut String,
    lines: &[&[u8]],
    at: usize,
) -> Result<(), NotMade>
    requires { at < 2 ^ 63 }
    ensures { IsPartAdded (part_text named.now at (map (λ x. x.now) lines.now)) result
        (string_bytes out.old) (string_bytes out.new) }
{
    if has_word(lines) {
        push_message(alloc, named, out, lines, at)
    } else {
        Ok(())
    }
}

/// Adds the line of the message of these lines.
fn push_message<B: Book>(
    alloc: Global,
    named: &NamedBook<'_, B>,
    out: &mut String,
    lines: &[&[u8]],
    at: usize,
) -> Result<(), NotMade>
    requires { at < 2 ^ 63 }
    ensures { IsPartAdded
        (recorded_after at (message_from named.now 0 (map (λ x. x.now) lines.now))) result
        (string_bytes out.old) (string_bytes out.new) }
{
    match make_lines(alloc, named, lines) {
        Ok(message) => {
            push_digits(out, &message)?;
            Ok(())
        }
        Err(fault) => Err(following(at, fault)),
    }
}

/// The fault of lines that are after others.
fn following(at: usize, fault: NotMade) -> NotMade
    requires line { IsWithin (2 ^ 63) fault }
    requires small { at < 2 ^ 63 }
    ensures { result ≡ after_lines at fault }
{
    match fault {
        NotMade::Fault(fault) => NotMade::Fault(Fault {
            line: at + fault.line,
            ..fault
        }),
        NotMade::NoMemory => NotMade::NoMemory,
    }
}

/// Whether one of the lines has a word.
pub(crate) fn has_word(lines: &[&[u8]]) -> bool
    ensures { result ≡ has_word (map (λ x. x.now) lines.now) }
{
    for index in 0..lines.len() {
        if has_first_word(lines[index]) {
            return true;
        }
    }
    false
}

fn has_first_word(line: &[u8]) -> bool
    ensures { result ≡ not (length (first_word line.now) == 0) }
{
    let (word, _) = next_word(line);
    !word.is_empty()
}

fn has_nothing(line: &[u8]) -> bool
    ensures { result ≡ is_empty line.now }
{
    line.is_empty()
}

/// Adds a message as hexadecimal digits, and a line feed.
fn push_digits(out: &mut String, bytes: &[u8]) -> Result<(), AllocError>
    ensures { OnOk result (string_bytes out.new ≡ string_bytes out.old ++ digits_line bytes.now) }
{
    push_pairs(out, bytes)?;
    out.push_str("\n")
}

fn push_pairs(out: &mut String, bytes: &[u8]) -> Result<(), AllocError>
    ensures { OnOk result (string_bytes out.new
        ≡ string_bytes out.old ++ flat_map hex_byte bytes.now) }
{
    for byte in bytes {
        push_hex_byte(out, *byte)?;
    }
    Ok(())
}
