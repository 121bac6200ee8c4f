//! The parts of lines, read: an AVP, the opening brace of a group, or a closing brace.
ghost use Rattle.std.specs.Prelude.{◌≡◌};
ghost use Rattle.dia_text.specs.Reading.{IsRead, Reads, at_word};
ghost use Rattle.dia_text.specs.PlainLines.{plain_line};
ghost use Rattle.dia_text.specs.Avps.{no_more, head_at, data_at};
ghost use Rattle.dia_text.specs.Avps.{close_at, avp_at, part_at};
ghost use Rattle.dia_text.specs.Keys.{code_of};
ghost use Rattle.dia_text.specs.Words.{first_word};

use crate::fault::{Kind, Misfit, NotRead, Wanted, misfit_at};
use crate::fields::{flags_field, length_field, padding_field};
use crate::keys::{AvpCode, code_of, default_flags, format_at};
use crate::line::{Head, Line};
use crate::names::NamedBook;
use crate::notes::after_note;
use crate::values::value_at;
use crate::words::next_word;
use dia_book::Book;
use std::alloc::Global;

/// The letters of the AVP Flags (RFC 6733 section 4.1), in their order.
const AVP_LETTERS: [(u8, u8); 3] = [(b'V', 0x80), (b'M', 0x40), (b'P', 0x20)];

/// The first part of a text, and what follows it.
#[tactic(auto, unfolding(crate::specs::Avps::part_at))]
pub(crate) fn part_at<'a, B: Book>(
    alloc: Global,
    named: &NamedBook<'_, B>,
    text: &'a [u8],
) -> Result<(Line, &'a [u8]), NotRead>
    ensures { Reads (λ x. (plain_line x.0, x.1.now)) result (part_at named.now text.entry.now) }
{
    let (word, rest) = next_word(text);
    if word == b"}".as_slice() {
        close_at(alloc, rest)
    } else {
        avp_at(alloc, named, text)
    }
}

#[tactic(auto, unfolding(crate::specs::Avps::avp_at))]
fn avp_at<'a, B: Book>(
    alloc: Global,
    named: &NamedBook<'_, B>,
    text: &'a [u8],
) -> Result<(Line, &'a [u8]), NotRead>
    ensures { Reads (λ x. (plain_line x.0, x.1.now)) result (avp_at named.now text.entry.now) }
{
    let (head, text) = head_at(named, text)?;
    let (word, rest) = next_word(text);
    if word == b"{".as_slice() {
        Ok((Line::Open(head), rest))
    } else {
        data_at(alloc, named, &head, text)
    }
}

#[tactic(auto, unfolding(crate::specs::Avps::head_at))]
pub(crate) fn head_at<'a, B: Book>(
    named: &NamedBook<'_, B>,
    text: &'a [u8],
) -> Result<(Head, &'a [u8]), Misfit>
    ensures { IsRead (λ x. (x.0, x.1.now)) result (head_at named.now text.entry.now) }
{
    let (_, rest) = next_word(text);
    let code = code_at(named, text)?;
    let default = Some(default_flags(named.book(), &code));
    let wanted = Wanted::AvpFlags;
    let (flags, rest) = flags_field(&AVP_LETTERS, wanted, default, wanted, rest)?;
    let (said_length, rest) = length_field(rest)?;
    Ok((
        Head {
            code,
            flags,
            said_length,
        },
        rest,
    ))
}

/// The AVP of the first word.
fn code_at<B: Book>(named: &NamedBook<'_, B>, text: &[u8]) -> Result<AvpCode, Misfit>
    ensures { result ≡ at_word text.now Wanted.AvpName (code_of named.now (first_word text.now)) }
{
    let (word, _) = next_word(text);
    match code_of(named, word) {
        Ok(code) => Ok(code),
        Err(kind) => Err(misfit_at(text, Wanted::AvpName, kind)),
    }
}

#[tactic(auto, unfolding(crate::specs::Avps::data_at))]
fn data_at<'a, B: Book>(
    alloc: Global,
    named: &NamedBook<'_, B>,
    head: &Head,
    text: &'a [u8],
) -> Result<(Line, &'a [u8]), NotRead>
    ensures { Reads (λ x. (plain_line x.0, x.1.now)) result
        (data_at named.now head.now text.entry.now) }
{
    let format = format_at(named.book(), &head.code);
    let (bytes, rest) = value_at(alloc, format, text)?;
    let rest = after_note(format, &bytes, rest);
    let (padding, rest) = padding_field(alloc, rest)?;
    Ok((Line::Leaf(*head, bytes, padding), rest))
}

#[tactic(auto, unfolding(crate::specs::Avps::close_at))]
fn close_at(alloc: Global, text: &[u8]) -> Result<(Line, &[u8]), NotRead>
    ensures { Reads (λ x. (plain_line x.0, x.1.now)) result (close_at text.entry.now) }
{
    let (padding, rest) = padding_field(alloc, text)?;
    Ok((Line::Close(padding), rest))
}

pub(crate) fn no_more(text: &[u8]) -> Result<(), Misfit>
    ensures { result ≡ no_more text.now }
{
    let (word, _) = next_word(text);
    if word.is_empty() {
        Ok(())
    } else {
        Err(misfit_at(text, Wanted::LineEnd, Kind::Syntax))
    }
}
