//! Texts, read: the message that a text writes.
ghost use Rattle.std.specs.Prelude.{◌≡◌, ◌<◌, ◌≤◌, ◌^◌, ◌++◌};
ghost use Rattle.std.specs.Prelude.{IfOk, IfErr, OnOk, length, drop, map};
ghost use Rattle.dia_wire.specs.Written.{header_bytes};
ghost use Rattle.dia_text.specs.Drafts.{Level, Occurs, no_level};
ghost use Rattle.dia_text.specs.Avps.{IsTaken};
ghost use Rattle.dia_text.specs.Made.{lines, made, body_from, finished};
ghost use Rattle.dia_text.specs.Made.{line_added, placed, IsMade, IsBegun, IsWithin, message_from};
ghost use Rattle.dia_text.specs.Made.{fault_at, fault_in};
ghost use Rattle.dia_text.specs.AllFaults.{IsLeftAt};

use crate::adding::add_part;
use crate::draft::{Opened, push_byte_and_u24, push_u32};
use crate::fault::{Fault, Kind, Misfit, NotMade, NotRead, Wanted};
use crate::lines::{header_of, line_of};
use crate::names::NamedBook;
use crate::splitting::split;
use dia_book::Book;
use dia_wire::{HEADER_LENGTH, Header};
use std::alloc::{AllocError, Global};

/// The version of each message that is made (RFC 6733 section 3).
const VERSION: u8 = 1;

/// The message that a text writes, over this dictionary; or the first line that can't follow those before it.
pub fn make<B: Book>(alloc: Global, book: &B, text: &[u8]) -> Result<Vec<u8>, NotMade>
    ensures { IsMade result (made (B.meaning book.now) text.now) }
{
    let named = NamedBook::new(alloc, book)?;
    let lines = lines_of(alloc, text)?;
    make_lines(alloc, &named, &lines)
}

/// The message that these lines write.
pub(crate) fn make_lines<B: Book>(
    alloc: Global,
    named: &NamedBook<'_, B>,
    lines: &[&[u8]],
) -> Result<Vec<u8>, NotMade>
    ensures made { IsMade result (message_from named.now 0 (map (λ x. x.now) lines.now)) }
    ensures line { IfErr result (IsWithin (length lines.now)) }
{
    let (header, at) = header_from(named, lines)?;
    body_of(alloc, named, &header, lines, at)
}

pub(crate) fn lines_of(alloc: Global, text: &[u8]) -> Result<Vec<&[u8]>, AllocError>
    ensures { IfOk result (λ v. map (λ x. x.now) v.items ≡ lines text.entry.now) }
{
    split(alloc, b'\n', text)
}

/// The header, and how many lines were read up to it.
fn header_from<B: Book>(
    named: &NamedBook<'_, B>,
    lines: &[&[u8]],
) -> Result<(Header, usize), NotMade>
    ensures begun { IsBegun named.now (map (λ x. x.now) lines.now) result }
    ensures small { IfOk result (λ found. found.0.code < 2 ^ 24) }
    ensures line { IfErr result (IsWithin (length lines.now)) }
{
    for index in 0..lines.len() {
        match header_of(named, lines[index]) {
            Ok(None) => {}
            Ok(Some(header)) => return Ok((header, index + 1)),
            Err(why) => return Err(NotMade::Fault(fault_in(lines[index], index + 1, why))),
        }
    }
    Err(ends(lines.len(), Kind::Syntax, Wanted::HeaderLine))
}

/// The fault of a line.
pub(crate) fn fault_in(text: &[u8], line: usize, misfit: Misfit) -> Fault
    ensures { result ≡ fault_in text.now line misfit }
{
    Fault {
        kind: misfit.kind,
        line,
        at: Some(text.len().saturating_sub(misfit.left)),
        wanted: misfit.wanted,
    }
}

/// Why a line makes no message.
fn placed(why: NotRead, text: &[u8], line: usize) -> NotMade
    ensures value { result ≡ placed why text.now line }
    ensures line { IsWithin line result }
{
    match why {
        NotRead::NoMemory => NotMade::NoMemory,
        NotRead::Misfit(misfit) => NotMade::Fault(fault_in(text, line, misfit)),
    }
}

/// The fault of a text that ends with a line.
pub(crate) fn ends(line: usize, kind: Kind, wanted: Wanted) -> NotMade
    ensures value { result ≡ NotMade.Fault (fault_at line kind wanted) }
    ensures line { IsWithin line result }
{
    NotMade::Fault(fault_at(line, kind, wanted))
}

/// A fault at the end of a line.
pub(crate) fn fault_at(line: usize, kind: Kind, wanted: Wanted) -> Fault
    ensures { result ≡ fault_at line kind wanted }
{
    Fault {
        kind,
        line,
        at: None,
        wanted,
    }
}

/// The message of the lines after its header.
fn body_of<B: Book>(
    alloc: Global,
    named: &NamedBook<'_, B>,
    header: &Header,
    lines: &[&[u8]],
    at: usize,
) -> Result<Vec<u8>, NotMade>
    requires within { at ≤ length lines.now }
    requires small { header.now.code < 2 ^ 24 }
    ensures made { IsMade result (body_from named.now header.now at
        (drop at (map (λ x. x.now) lines.now)) no_level) }
    ensures line { IfErr result (IsWithin (length lines.now)) }
{
    let mut out = Vec::new(alloc);
    let mut groups = Vec::new(alloc);
    for index in at..lines.len() {
        match take_line(alloc, named, &mut out, &mut groups, lines[index]) {
            Ok(()) => {}
            Err(why) => return Err(placed(why, lines[index], index + 1)),
        }
    }
    finish(alloc, header, &out, &groups, lines.len())
}

/// Adds what a line says; where it says nothing that can be added, nothing changes.
pub(crate) fn take_line<B: Book>(
    alloc: Global,
    named: &NamedBook<'_, B>,
    out: &mut Vec<u8>,
    groups: &mut Vec<Opened>,
    text: &[u8],
) -> Result<(), NotRead>
    requires { (level : Level) × Occurs level.outer level.bytes out.old.items groups.old.items }
    ensures taken { (level : Level) → Occurs level.outer level.bytes out.old.items groups.old.items
        → IsTaken (line_added named.now text.now level) result
        out.new.items groups.new.items }
    ensures bytes { IsLeftAt result out.old.items out.new.items }
    ensures groups { IsLeftAt result groups.old.items groups.new.items }
{
    let line = line_of(alloc, named, text)?;
    add_part(alloc, named, out, groups, text, &line)
}

/// The message of a header and these AVPs, if no group is open.
fn finish(
    alloc: Global,
    header: &Header,
    body: &Vec<u8>,
    groups: &Vec<Opened>,
    line: usize,
) -> Result<Vec<u8>, NotMade>
    requires { header.now.code < 2 ^ 24 }
    ensures made { (level : Level) → Occurs level.outer level.bytes body.now.items groups.now.items
        → IsMade result (finished header.now level.outer level.bytes line) }
    ensures line { IfErr result (IsWithin line) }
{
    if !groups.is_empty() {
        return Err(ends(line, Kind::Braces, Wanted::ClosingBrace));
    }
    let length = HEADER_LENGTH + body.len();
    if length >= 1 << 24 {
        return Err(ends(line, Kind::Limit, Wanted::ShorterMessage));
    }
    let mut message = Vec::with_capacity(alloc, length)?;
    push_header(&mut message, header, length as u32)?;
    message.extend_from_slice(body)?;
    Ok(message)
}

fn push_header(out: &mut Vec<u8>, header: &Header, length: u32) -> Result<(), AllocError>
    requires fits { header.now.code < 2 ^ 24 }
    requires small { length < 2 ^ 24 }
    ensures { OnOk result (out.new.items ≡ out.old.items ++ header_bytes header.now length) }
{
    push_byte_and_u24(out, VERSION, length)?;
    push_byte_and_u24(out, header.flags, header.code)?;
    push_u32(out, header.app)?;
    push_u32(out, header.hop)?;
    push_u32(out, header.e2e)
}
