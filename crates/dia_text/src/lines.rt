//! Lines, read.
ghost use Rattle.std.specs.Prelude.{◌≡◌, ◌<◌, ◌^◌, IfOk, IfSome};
ghost use Rattle.dia_text.specs.Reading.{IsRead, Reads, at_word};
ghost use Rattle.dia_text.specs.PlainLines.{plain_line};
ghost use Rattle.dia_text.specs.Lines.{whole_line, line_of};
ghost use Rattle.dia_text.specs.Lines.{start_at, header_after, header_at, header_of};
ghost use Rattle.dia_text.specs.Keys.{start_named};
ghost use Rattle.dia_text.specs.Words.{first_word};

use crate::avps::{no_more, part_at};
use crate::commands::{Start, start_named};
use crate::fault::{Misfit, NotRead, Wanted, misfit_at};
use crate::fields::{flags_field, number_field, three_byte_number};
use crate::groups::group_at;
use crate::line::Line;
use crate::names::NamedBook;
use crate::words::next_word;
use dia_book::Book;
use dia_wire::Header;
use std::alloc::Global;

/// The letters of the Command Flags (RFC 6733 section 3), in their order.
const HEADER_LETTERS: [(u8, u8); 4] = [(b'R', 0x80), (b'P', 0x40), (b'E', 0x20), (b'T', 0x10)];

/// What a line after the header says.
#[tactic(auto, unfolding(crate::specs::Lines::line_of))]
pub fn line_of<B: Book>(
    alloc: Global,
    named: &NamedBook<'_, B>,
    text: &[u8],
) -> Result<Line, NotRead>
    ensures { Reads plain_line result (line_of named.now text.now) }
{
    let (word, _) = next_word(text);
    if word.is_empty() {
        return Ok(Line::Blank);
    }
    let (part, rest) = part_at(alloc, named, text)?;
    whole_line(alloc, named, part, rest)
}

/// What a line of this part and the rest says.
fn whole_line<B: Book>(
    alloc: Global,
    named: &NamedBook<'_, B>,
    part: Line,
    rest: &[u8],
) -> Result<Line, NotRead>
    ensures { Reads plain_line result (whole_line named.now (plain_line part) rest.now) }
{
    let (word, _) = next_word(rest);
    match part {
        Line::Open(head) if !word.is_empty() => group_at(alloc, named, &head, rest),
        part => {
            no_more(rest)?;
            Ok(part)
        }
    }
}

/// The header that a line writes, or none where it is blank.
#[tactic(auto, unfolding(crate::specs::Lines::header_of))]
pub fn header_of<B: Book>(named: &NamedBook<'_, B>, text: &[u8]) -> Result<Option<Header>, Misfit>
    ensures value { result ≡ header_of named.now text.now }
    ensures small { IfOk result (λ header. IfSome header (λ h. h.code < 2 ^ 24)) }
{
    let (word, _) = next_word(text);
    if word.is_empty() {
        return Ok(None);
    }
    let header = header_at(named, text)?;
    Ok(Some(header))
}

#[tactic(auto, unfolding(crate::specs::Lines::header_at))]
fn header_at<B: Book>(named: &NamedBook<'_, B>, text: &[u8]) -> Result<Header, Misfit>
    ensures value { result ≡ header_at named.now text.now }
    ensures small { IfOk result (λ header. header.code < 2 ^ 24) }
{
    let (start, rest) = start_at(named, text)?;
    let (flags, rest) = flags_field(
        &HEADER_LETTERS,
        Wanted::CommandFlags,
        start.flags,
        Wanted::Flags,
        rest,
    )?;
    header_after(&start, flags, rest)
}

/// The header of this start and these flags, with the numbers after them.
fn header_after(start: &Start, flags: u8, text: &[u8]) -> Result<Header, Misfit>
    ensures value { result ≡ header_after start.now flags text.now }
    ensures code { IfOk result (λ header. header.code ≡ start.now.code) }
{
    let (app, rest) = number_field(b"app", start.app, Wanted::App, text)?;
    let (hop, rest) = number_field(b"hop", None, Wanted::Hop, rest)?;
    let (e2e, rest) = number_field(b"end", None, Wanted::End, rest)?;
    no_more(rest)?;
    Ok(Header {
        flags,
        code: start.code,
        app,
        hop,
        e2e,
    })
}

#[tactic(auto, unfolding(crate::specs::Lines::start_at))]
fn start_at<'a, B: Book>(
    named: &NamedBook<'_, B>,
    text: &'a [u8],
) -> Result<(Start, &'a [u8]), Misfit>
    ensures value { IsRead (λ x. (x.0, x.1.now)) result
        (start_at named.now text.entry.now) }
    ensures small { IfOk result (λ x. x.0.code < 2 ^ 24) }
{
    let (word, following) = next_word(text);
    if word == b"code".as_slice() {
        let code = three_byte_number(following, Wanted::CommandCode)?;
        let (_, rest) = next_word(following);
        let start = Start {
            code,
            flags: None,
            app: None,
        };
        Ok((start, rest))
    } else {
        let start = command_at(named, text)?;
        Ok((start, following))
    }
}

/// The command that the first word names.
fn command_at<B: Book>(named: &NamedBook<'_, B>, text: &[u8]) -> Result<Start, Misfit>
    ensures value { result
        ≡ at_word text.now Wanted.CommandName (start_named named.now (first_word text.now)) }
    ensures small { IfOk result (λ start. start.code < 2 ^ 24) }
{
    let (word, _) = next_word(text);
    match start_named(named, word) {
        Ok(start) => Ok(start),
        Err(kind) => Err(misfit_at(text, Wanted::CommandName, kind)),
    }
}
