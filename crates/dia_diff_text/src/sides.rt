//! What a line says of one dictionary.

ghost use Rattle.std.specs.Prelude.{◌≡◌, ◌<◌, ◌++◌, IfOk, IfSome, None, OnOk, Some, if◌then◌else◌, length, nat_lt, slice_get, string_bytes};
ghost use Rattle.std.specs.Option.{option_map};
ghost use Rattle.dia_book.specs.Dictionary.{plain_definition};
ghost use Rattle.dia_diff_text.specs.Parts.{IsAvpAt, IsSide, IsWords, command_at, is_without, pick};
ghost use Rattle.dia_diff_text.specs.Words.{AddsText, IsAvpWords, command_words};

use crate::rules::push_rule;
use crate::words::{push_avp_field, push_declaration, push_head_field, push_header};
use dia_book::{Book, Definition, Entry};
use dia_differences::{AvpField, HeadField, Owner, Side, What};
use std::alloc::{AllocError, Global};

/// The words of a line in the dictionary of a side, if it has what differs.
pub(crate) fn words_in<D: Book>(
    alloc: Global,
    book: &D,
    side: Side,
    what: What,
) -> Result<Option<String>, AllocError>
    ensures { IfOk result (λ words. IsSide (D.meaning book.now) side what (option_map string_bytes words)) }
{
    if is_without(what, side) {
        return Ok(None);
    }
    let words = words_of(alloc, book, side, what)?;
    Ok(Some(words))
}

fn words_of<D: Book>(alloc: Global, book: &D, side: Side, what: What) -> Result<String, AllocError>
    ensures { IfOk result (λ words. IsWords (D.meaning book.now) side what (string_bytes words)) }
{
    let mut words = String::new(alloc);
    push_words(&mut words, book, side, what)?;
    Ok(words)
}

/// Whether the side's dictionary lacks what differs.
fn is_without(what: What, side: Side) -> bool
    ensures { result ≡ is_without what side }
{
    match what {
        What::Avp(own, _) | What::Command(own, _) | What::Rule(own, _) => own != side,
        What::NewRule { .. } => Side::Second != side,
        What::AvpField { .. } | What::HeadField { .. } | What::RuleChange { .. } => false,
    }
}

fn push_words<D: Book>(out: &mut String, book: &D, side: Side, what: What) -> Result<(), AllocError>
    ensures { OnOk result (AddsText out.old out.new (IsWords (D.meaning book.now) side what)) }
{
    match what {
        What::Avp(_, index) => push_avp(out, book, index, None),
        What::AvpField {
            first,
            second,
            field,
        } => push_avp(out, book, pick(side, first, second), Some(field)),
        What::Command(_, index) => push_command(out, book, index, None),
        What::HeadField {
            first,
            second,
            field,
        } => push_command(out, book, pick(side, first, second), Some(field)),
        What::Rule(_, place) | What::NewRule { place, .. } => push_rule(out, book, place),
        What::RuleChange { first, second } => match side {
            Side::First => push_rule(out, book, first),
            Side::Second => push_rule(out, book, second),
        },
    }
}

fn pick(side: Side, first: usize, second: usize) -> usize
    ensures { result ≡ pick side first second }
{
    match side {
        Side::First => first,
        Side::Second => second,
    }
}

/// Adds the words of an AVP, or of a field of it.
fn push_avp<D: Book>(
    out: &mut String,
    book: &D,
    index: usize,
    field: Option<AvpField>,
) -> Result<(), AllocError>
    ensures { OnOk result (AddsText out.old out.new (IsAvpAt (D.meaning book.now) index field)) }
{
    match entry_at(book, index) {
        Some(entry) => push_entry(out, book, entry, field),
        None => Ok(()),
    }
}

fn entry_at<D: Book>(book: &D, index: usize) -> Option<Entry>
    ensures { result ≡ if nat_lt index (length (D.meaning book.now).entries) then Some index else None }
{
    if index >= book.entries() {
        return None;
    }
    Some(book.entry_at(index))
}

fn push_entry<D: Book>(
    out: &mut String,
    book: &D,
    entry: Entry,
    field: Option<AvpField>,
) -> Result<(), AllocError>
    requires { entry < length (D.meaning book.now).entries }
    ensures { IfSome (slice_get (D.meaning book.now).entries entry)
        (λ e. OnOk result (AddsText out.old out.new (IsAvpWords field e))) }
{
    match field {
        Some(field) => push_avp_field(out, book, entry, field),
        None => push_declaration(
            out,
            book.entry_key(entry),
            book.format(entry),
            book.rule(entry),
        ),
    }
}

/// Adds the words of a command's header, or of a field of it.
fn push_command<D: Book>(
    out: &mut String,
    book: &D,
    index: usize,
    field: Option<HeadField>,
) -> Result<(), AllocError>
    ensures { OnOk result (AddsText out.old out.new (λ text. text ≡ command_at (D.meaning book.now) index field)) }
{
    push_command_words(out, book, index, field)
}

fn push_command_words<D: Book>(
    out: &mut String,
    book: &D,
    index: usize,
    field: Option<HeadField>,
) -> Result<(), AllocError>
    ensures { OnOk result (string_bytes out.new
        ≡ string_bytes out.old ++ command_at (D.meaning book.now) index field) }
{
    match Owner::Command(index).definition(book) {
        Some(def) => push_definition(out, book.def(def), field),
        None => Ok(()),
    }
}

fn push_definition(
    out: &mut String,
    definition: &Definition,
    field: Option<HeadField>,
) -> Result<(), AllocError>
    ensures { OnOk result (string_bytes out.new
        ≡ string_bytes out.old ++ command_words field (plain_definition definition.now)) }
{
    match field {
        Some(field) => push_head_field(out, definition, field),
        None => push_header(out, definition.head),
    }
}
