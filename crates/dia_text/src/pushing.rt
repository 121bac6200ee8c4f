//! The words of lines that are written.
ghost use Rattle.std.specs.Prelude.{◌≡◌, ◌++◌, ◌∷◌, nat_eq, OnOk, Some, string_bytes, []};
ghost use Rattle.std.specs.Option.{option_eq, option_map};
ghost use Rattle.std.specs.Fmt.{decimal};
ghost use Rattle.dia_terms.specs.Names.{same_bytes};
ghost use Rattle.dia_wire.specs.Written.{padding};
ghost use Rattle.dia_data.specs.Plain.{plain_format};
ghost use Rattle.dia_data.specs.Shown.{hexadecimal};
ghost use Rattle.dia_text.specs.LineTexts.{spaced, flags_words, app_words, pad_words};
ghost use Rattle.dia_text.specs.TextOf.{AddsValueWord};

use dia_data::{Format, Leaf, accepts, push_decimal, push_hex_byte, push_value};
use std::alloc::AllocError;

/// Adds flags, unless they are those that go without saying.
pub(crate) fn push_flags(
    text: &mut String,
    default: Option<u8>,
    flags: u8,
) -> Result<(), AllocError>
    ensures { OnOk result (string_bytes text.new
        ≡ string_bytes text.old ++ spaced (flags_words default flags)) }
{
    if is_default(default, flags) {
        return Ok(());
    }
    text.push_str(" flags ")?;
    push_hex_byte(text, flags)
}

fn is_default(default: Option<u8>, flags: u8) -> bool
    ensures { result ≡ option_eq nat_eq default (Some flags) }
{
    match default {
        Some(default) => default == flags,
        None => false,
    }
}

/// Adds the application, unless it is the one that goes without saying.
pub(crate) fn push_app(text: &mut String, default: Option<u32>, app: u32) -> Result<(), AllocError>
    ensures { OnOk result (string_bytes text.new
        ≡ string_bytes text.old ++ spaced (app_words default app)) }
{
    if is_default_app(default, app) {
        return Ok(());
    }
    push_number(text, "app", app)
}

fn is_default_app(default: Option<u32>, app: u32) -> bool
    ensures { result ≡ option_eq nat_eq default (Some app) }
{
    match default {
        Some(default) => default == app,
        None => false,
    }
}

/// Adds a number after its keyword.
pub(crate) fn push_number(text: &mut String, keyword: &str, number: u32) -> Result<(), AllocError>
    ensures { OnOk result (string_bytes text.new
        ≡ string_bytes text.old ++ spaced (keyword.now ∷ decimal number ∷ [])) }
{
    text.push_str(" ")?;
    text.push_str(keyword)?;
    text.push_str(" ")?;
    push_decimal(text, u64::from(number))
}

/// Adds what follows an AVP of this length, unless it is zero bytes up to a multiple of four.
pub(crate) fn push_pad(text: &mut String, length: usize, pad: &[u8]) -> Result<(), AllocError>
    ensures { OnOk result (string_bytes text.new
        ≡ string_bytes text.old ++ spaced (pad_words length pad.now)) }
{
    if is_padding(length, pad) {
        return Ok(());
    }
    text.push_str(" pad ")?;
    push_hexadecimal(text, pad)
}

fn is_padding(length: usize, pad: &[u8]) -> bool
    ensures { result ≡ same_bytes pad.now (padding length) }
{
    let count = (4 - length % 4) % 4;
    let zeros = [0u8, 0, 0];
    pad == &zeros[..count]
}

/// Adds the data of an AVP of this format, or of one that the dictionary doesn't know.
pub(crate) fn push_value_word(
    text: &mut String,
    format: Option<&Format>,
    bytes: &[u8],
) -> Result<(), AllocError>
    ensures { OnOk result (AddsValueWord
        (option_map (λ format. plain_format format.now) format.entry) bytes.now
        (string_bytes text.old) (string_bytes text.new)) }
{
    match format {
        Some(format) => push_known(text, format, bytes),
        None => push_hexadecimal(text, bytes),
    }
}

/// Adds the data of an AVP of this format as `show` prints it.
fn push_known(text: &mut String, format: &Format, bytes: &[u8]) -> Result<(), AllocError>
    ensures { OnOk result (AddsValueWord (Some (plain_format format.now)) bytes.now
        (string_bytes text.old) (string_bytes text.new)) }
{
    if accepts(format, bytes) == Leaf::Fine {
        push_value(text, format, bytes)
    } else {
        push_hexadecimal(text, bytes)
    }
}

fn push_hexadecimal(text: &mut String, bytes: &[u8]) -> Result<(), AllocError>
    ensures { OnOk result (string_bytes text.new
        ≡ string_bytes text.old ++ hexadecimal bytes.now) }
{
    push_value(text, &Format::OctetString, bytes)
}
