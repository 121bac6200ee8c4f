//! Groups with their members on one line.
ghost use Rattle.std.specs.Prelude.{◌≡◌, ℕ, List};
ghost use Rattle.std.specs.Option.{option_map};
ghost use Rattle.dia_text.specs.Reading.{IsRead, Reads, misfit};
ghost use Rattle.dia_text.specs.PlainLines.{plain_line};
ghost use Rattle.dia_text.specs.Drafts.{Level, Occurs};
ghost use Rattle.dia_text.specs.Groups.{after_part, group_at, is_last};
ghost use Rattle.dia_text.specs.Groups.{member_at, padding_of, separated};

use crate::adding::add_part;
use crate::avps::{no_more, part_at};
use crate::draft::Opened;
use crate::fault::{Kind, Misfit, NotRead, Wanted, misfit_at};
use crate::line::{Head, Line};
use crate::names::NamedBook;
use crate::words::next_word;
use dia_book::Book;
use std::alloc::Global;

/// The group whose members and closing brace are the rest of a line.
///
/// The groups in it wait in a list, so depth takes memory and no stack.
pub(crate) fn group_at<B: Book>(
    alloc: Global,
    named: &NamedBook<'_, B>,
    head: &Head,
    text: &[u8],
) -> Result<Line, NotRead>
    ensures { Reads plain_line result (group_at named.now head.now text.now) }
{
    let mut out = Vec::new(alloc);
    let mut groups = Vec::new(alloc);
    let mut rest = text;
    for _ in 0..text.len() {
        let (part, following) = member_at(alloc, named, rest)?;
        if is_last(&part, &groups) {
            no_more(following)?;
            return Ok(Line::Leaf(*head, out, padding_of(part)));
        }
        add_part(alloc, named, &mut out, &mut groups, rest, &part)?;
        rest = after_part(&part, following)?;
    }
    Err(unclosed(rest))
}

/// The first part of a text in braces, and what follows it.
#[tactic(auto, unfolding(crate::specs::Groups::member_at))]
fn member_at<'a, B: Book>(
    alloc: Global,
    named: &NamedBook<'_, B>,
    text: &'a [u8],
) -> Result<(Line, &'a [u8]), NotRead>
    ensures { Reads (λ x. (plain_line x.0, x.1.now)) result (member_at named.now text.entry.now) }
{
    let (word, _) = next_word(text);
    if word.is_empty() {
        Err(unclosed(text))
    } else {
        part_at(alloc, named, text)
    }
}

/// A closing brace is missing where no word is left.
fn unclosed(text: &[u8]) -> NotRead
    ensures { result ≡ NotRead.Misfit (misfit text.now Wanted.ClosingBrace Kind.Braces) }
{
    NotRead::Misfit(misfit_at(text, Wanted::ClosingBrace, Kind::Braces))
}

/// Whether a part is the brace that closes the group of the line.
fn is_last(part: &Line, groups: &Vec<Opened>) -> bool
    ensures { (level : Level) (out : List ℕ) → Occurs level.outer level.bytes out groups.now.items
        → result ≡ is_last (plain_line part.now) level.outer }
{
    matches!(part, Line::Close(_)) && groups.is_empty()
}

/// The padding that a closing brace has.
fn padding_of(part: Line) -> Option<Vec<u8>>
    ensures { option_map (λ p. p.items) result ≡ padding_of (plain_line part) }
{
    match part {
        Line::Close(padding) => padding,
        Line::Blank | Line::Leaf(..) | Line::Open(_) => None,
    }
}

/// Where the part after this one begins.
fn after_part<'a>(part: &Line, text: &'a [u8]) -> Result<&'a [u8], Misfit>
    ensures { IsRead (λ rest. rest.now) result (after_part (plain_line part.now) text.entry.now) }
{
    match part {
        Line::Blank | Line::Open(_) => Ok(text),
        Line::Leaf(..) | Line::Close(_) => separated(text),
    }
}

/// What follows the comma after a member; or the closing brace after it.
#[tactic(auto, unfolding(crate::specs::Groups::separated))]
fn separated(text: &[u8]) -> Result<&[u8], Misfit>
    ensures { IsRead (λ rest. rest.now) result (separated text.entry.now) }
{
    let (word, rest) = next_word(text);
    if word == b",".as_slice() {
        Ok(rest)
    } else if word == b"}".as_slice() {
        Ok(text)
    } else {
        Err(misfit_at(text, Wanted::NextMember, Kind::Syntax))
    }
}
