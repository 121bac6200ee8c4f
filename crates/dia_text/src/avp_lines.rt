//! The lines of AVPs, written.
ghost use Rattle.std.specs.Prelude.{◌≡◌, ◌++◌, ◌&&◌, nat_eq, not, is_none, OnOk, Some, string_bytes};
ghost use Rattle.std.specs.Option.{option_eq};
ghost use Rattle.dia_wire.specs.Wire.{plain_avp};
ghost use Rattle.dia_text.specs.Keys.{numbered, default_flags};
ghost use Rattle.dia_text.specs.LineTexts.{spaced, flags_words, code_at, code_text, avp_word};
ghost use Rattle.dia_text.specs.LineTexts.{open_line};
ghost use Rattle.dia_text.specs.TextOf.{fed, AddsLeaf};

use crate::keys::{AvpCode, default_flags, entry, format_at, numbered};
use crate::pushing::{push_flags, push_pad, push_value_word};
use dia_book::Book;
use dia_data::push_decimal;
use dia_wire::Avp;
use std::alloc::AllocError;

/// Adds the line that opens a group.
pub(crate) fn push_open<B: Book>(
    text: &mut String,
    book: &B,
    code: &AvpCode,
    avp: &Avp<'_>,
) -> Result<(), AllocError>
    requires { code.now ≡ code_at (plain_avp avp.now) }
    ensures { OnOk result (string_bytes text.new ≡ string_bytes text.old
        ++ fed (open_line (B.meaning book.now) (plain_avp avp.now))) }
{
    push_head(text, book, code, avp.flags)?;
    text.push_str(" {\n")
}

/// Adds the line of an AVP with its data.
pub(crate) fn push_leaf<B: Book>(
    text: &mut String,
    book: &B,
    code: &AvpCode,
    avp: &Avp<'_>,
    pad: &[u8],
) -> Result<(), AllocError>
    requires { code.now ≡ code_at (plain_avp avp.now) }
    ensures { OnOk result (AddsLeaf (B.meaning book.now) (plain_avp avp.now) pad.now
        (string_bytes text.old) (string_bytes text.new)) }
{
    push_head(text, book, code, avp.flags)?;
    text.push_str(" ")?;
    push_value_word(text, format_at(book, code), avp.bytes)?;
    push_pad(text, avp.length(), pad)?;
    text.push_str("\n")
}

/// Adds the word of an AVP, and its flags.
fn push_head<B: Book>(
    text: &mut String,
    book: &B,
    code: &AvpCode,
    flags: u8,
) -> Result<(), AllocError>
    ensures { OnOk result (string_bytes text.new ≡ (string_bytes text.old
        ++ avp_word (B.meaning book.now) code.now)
        ++ spaced (flags_words (Some (default_flags (B.meaning book.now) code.now)) flags)) }
{
    push_word(text, book, code)?;
    push_flags(text, Some(default_flags(book, code)), flags)
}

/// Adds the dictionary's name of an AVP, or its code.
fn push_word<B: Book>(text: &mut String, book: &B, code: &AvpCode) -> Result<(), AllocError>
    ensures { OnOk result (string_bytes text.new
        ≡ string_bytes text.old ++ avp_word (B.meaning book.now) code.now) }
{
    let Some(entry) = entry(book, code) else {
        return push_code(text, code);
    };
    let name = book.entry_name(entry);
    if has_name(code, name) {
        text.push_str(name)
    } else {
        push_code(text, code)
    }
}

fn has_name(code: &AvpCode, name: &str) -> bool
    ensures { result ≡ (not (option_eq nat_eq code.now.vendor (Some 0)) && is_none (numbered name.now)) }
{
    match code.vendor {
        Some(0) => false,
        _ => numbered(name.as_bytes()).is_none(),
    }
}

/// Adds `CODE`, or `CODE/VENDOR`.
fn push_code(text: &mut String, code: &AvpCode) -> Result<(), AllocError>
    ensures { OnOk result (string_bytes text.new ≡ string_bytes text.old ++ code_text code.now) }
{
    push_decimal(text, u64::from(code.code))?;
    let Some(vendor) = code.vendor else {
        return Ok(());
    };
    text.push_str("/")?;
    push_decimal(text, u64::from(vendor))
}
