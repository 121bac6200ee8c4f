//! Parts of dictionaries as JSON.

ghost use Rattle.std.specs.Prelude.{◌≡◌, IfOk, slice_get, string_bytes};
ghost use Rattle.serde_json.specs.Written.{compact_text};
ghost use Rattle.dia_compared_json.specs.Objects.{command_value};
ghost use Rattle.dia_compared_json.specs.Parts.{part_value, rule_of, rule_value};

use crate::arrays::null_text;
use crate::commands::command_or_null;
use crate::declarations::{avp_text, declared_text};
use crate::rules::rule_text;
use crate::sides::Side;
use dia_book::{Book, DRule, Key};
use std::alloc::{AllocError, Global};

/// A part of a dictionary that a failing shows. Rules and commands are numbered from 0.
#[derive(Clone, Copy, PartialEq, Eq)]
pub enum Part {
    Nothing,
    /// A rule of the definition that the pair names.
    Rule(Option<usize>),
    /// The name, the code and the vendor of an AVP.
    Avp(Key),
    /// The declaration of an AVP.
    Declaration(Option<Key>),
    /// The declaration of the AVP that the pair names.
    Own,
    /// The command that the pair names.
    Command,
    /// Another command.
    Other(usize),
}

/// The part as JSON; what the dictionary doesn't have is null.
pub fn part_text<B: Book>(
    alloc: Global,
    side: &Side<'_, B>,
    part: Part,
) -> Result<String, AllocError>
    ensures { IfOk result (λ text. string_bytes text ≡ compact_text (part_value side.now part)) }
{
    match part {
        Part::Nothing => null_text(alloc),
        Part::Rule(place) => rule_or_null(alloc, side, place),
        Part::Avp(key) => avp_text(alloc, side.book(), key),
        Part::Declaration(key) => declared_text(alloc, side.book(), key),
        Part::Own => declared_text(alloc, side.book(), side.avp()),
        Part::Command => command_or_null(alloc, side.definition()),
        Part::Other(place) => other_text(alloc, side.book(), place),
    }
}

fn rule_or_null<B: Book>(
    alloc: Global,
    side: &Side<'_, B>,
    place: Option<usize>,
) -> Result<String, AllocError>
    ensures { IfOk result (λ text. string_bytes text ≡ compact_text (rule_value side.now place)) }
{
    match place {
        Some(place) => rule_at(alloc, side.book(), side.rules(), place),
        None => null_text(alloc),
    }
}

/// The rule at a place.
fn rule_at<B: Book>(
    alloc: Global,
    book: &B,
    rules: &[DRule],
    place: usize,
) -> Result<String, AllocError>
    ensures { IfOk result (λ text. string_bytes text
        ≡ compact_text (rule_of (B.meaning book.now) rules.now place)) }
{
    match rules.get(place) {
        Some(rule) => rule_text(alloc, book, place + 1, rule),
        None => null_text(alloc),
    }
}

/// The command at a place.
fn other_text<B: Book>(alloc: Global, book: &B, place: usize) -> Result<String, AllocError>
    ensures { IfOk result (λ text. string_bytes text
        ≡ compact_text (command_value (slice_get (B.meaning book.now).commands place))) }
{
    if place < book.commands() {
        command_or_null(alloc, Some(book.def(book.command_at(place))))
    } else {
        null_text(alloc)
    }
}
