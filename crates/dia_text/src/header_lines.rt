//! The line of a header, written.
ghost use Rattle.std.specs.Prelude.{◌≡◌, ◌++◌, ◌==◌, true, OnOk, find, string_bytes};
ghost use Rattle.std.specs.Option.{option_map, option_map_or};
ghost use Rattle.dia_book.specs.Dictionary.{plain_definition};
ghost use Rattle.dia_text.specs.Keys.{start_of};
ghost use Rattle.dia_text.specs.LineTexts.{spaced, class_bits, serves, names_header, field_words};
ghost use Rattle.dia_text.specs.LineTexts.{code_header, named_header, header_line};
ghost use Rattle.dia_text.specs.TextOf.{fed};

use crate::commands::{Start, class_flags, start_of};
use crate::pushing::{push_app, push_flags, push_number};
use dia_book::{Book, DefHead, Definition};
use dia_data::push_decimal;
use dia_wire::Header;
use std::alloc::AllocError;

/// Adds the line of a header.
pub(crate) fn push_header<B: Book>(
    text: &mut String,
    book: &B,
    header: &Header,
) -> Result<(), AllocError>
    ensures { OnOk result (string_bytes text.new
        ≡ string_bytes text.old ++ fed (header_line (B.meaning book.now) header.now)) }
{
    match named_by(book, header) {
        Some(definition) => push_named(text, header, definition)?,
        None => push_by_code(text, header)?,
    }
    text.push_str("\n")
}

/// The first command of the dictionary that serves the header.
fn named_by<'a, B: Book>(book: &'a B, header: &Header) -> Option<&'a Definition>
    ensures { option_map (λ definition. plain_definition definition.now) result
        ≡ find (names_header header.now) (B.meaning book.now).commands }
{
    for index in 0..book.commands() {
        let definition = book.def(book.command_at(index));
        if names_header(header, definition) {
            return Some(definition);
        }
    }
    None
}

fn names_header(header: &Header, definition: &Definition) -> bool
    ensures { result ≡ names_header header.now (plain_definition definition.now) }
{
    serves(header, &definition.head) && definition.name.as_bytes() != b"code".as_slice()
}

fn serves(header: &Header, head: &DefHead) -> bool
    ensures { result ≡ serves header.now head.now }
{
    match head {
        DefHead::Command {
            code,
            class,
            app,
            ..
        } => {
            *code == header.code
                && class_flags(*class) == class_bits(header.flags)
                && is_of_app(*app, header.app)
        }
        _ => false,
    }
}

/// The R and the E flag.
fn class_bits(flags: u8) -> u8
    ensures { result ≡ class_bits flags }
{
    flags / 128 * 128 + flags / 32 % 2 * 32
}

fn is_of_app(app: Option<u32>, wanted: u32) -> bool
    ensures { result ≡ option_map_or (λ a. a == wanted) app true }
{
    match app {
        Some(app) => app == wanted,
        None => true,
    }
}

fn push_named(text: &mut String, header: &Header, definition: &Definition) -> Result<(), AllocError>
    ensures { OnOk result (string_bytes text.new ≡ string_bytes text.old
        ++ named_header header.now (plain_definition definition.now).name (start_of definition.now.head)) }
{
    match start_of(&definition.head) {
        Some(start) => {
            text.push_str(definition.name.as_str())?;
            push_fields(text, header, &start)
        }
        None => push_by_code(text, header),
    }
}

fn push_by_code(text: &mut String, header: &Header) -> Result<(), AllocError>
    ensures { OnOk result (string_bytes text.new ≡ string_bytes text.old ++ code_header header.now) }
{
    let start = Start {
        code: header.code,
        flags: None,
        app: None,
    };
    text.push_str("code ")?;
    push_decimal(text, u64::from(header.code))?;
    push_fields(text, header, &start)
}

/// Adds the other words of the header.
fn push_fields(text: &mut String, header: &Header, start: &Start) -> Result<(), AllocError>
    ensures { OnOk result (string_bytes text.new
        ≡ string_bytes text.old ++ spaced (field_words header.now start.now)) }
{
    push_flags(text, start.flags, header.flags)?;
    push_app(text, start.app, header.app)?;
    push_number(text, "hop", header.hop)?;
    push_number(text, "end", header.e2e)
}
