//! The data of AVPs as JSON values.

ghost use Rattle.std.specs.Prelude.{◌≡◌, ◌++◌, List, ℕ, IfOk, OnOk, string_bytes};
ghost use Rattle.json.specs.Print.{quoted};
ghost use Rattle.std.specs.List.{flat_map};
ghost use Rattle.serde_json.specs.Data.{Data};
ghost use Rattle.serde_json.specs.Written.{compact_text};
ghost use Rattle.dia_data.specs.Leaf.{IsAddress, IsLeafAnswer};
ghost use Rattle.dia_data.specs.Plain.{Address, plain_format};
ghost use Rattle.dia_data.specs.Shown.{IsValueText, hex_byte};
ghost use Rattle.dia_json.specs.Messages.{IsValue, address_value, hex_value, kind_of, value_as};

use byteorder::{BigEndian, ByteOrder};
use dia_data::{Format, FormatKind, Leaf, Reading, accepts, print_value, push_hex_byte};
use dia_refused_json::quoted;
use std::alloc::{AllocError, Global};
use std::str;

/// What the data of a format is written as.
#[derive(Clone, Copy, PartialEq, Eq)]
pub enum ValueKind {
    /// A number of 32 bits.
    Number,
    /// A number of 64 bits, as a string.
    LongNumber,
    /// A string.
    Text,
    Address,
    /// The bytes, in hexadecimal.
    Octets,
}

/// The data of an AVP that is no group.
pub fn value_text(alloc: Global, format: &Format, bytes: &[u8]) -> Result<String, AllocError>
    ensures { IfOk result (λ text. (value : Data) × IsValue (plain_format format.now) bytes.now value
        × (string_bytes text ≡ compact_text value)) }
{
    match accepts(format, bytes) {
        Leaf::Fine => accepted_text(alloc, format, bytes),
        Leaf::BadLength => hex_text(alloc, bytes),
        Leaf::BadValue => hex_text(alloc, bytes),
    }
}

/// Data that the format accepts.
fn accepted_text(alloc: Global, format: &Format, bytes: &[u8]) -> Result<String, AllocError>
    requires { IsLeafAnswer Leaf.Fine (plain_format format.now) bytes.now }
    ensures { IfOk result (λ text. string_bytes text
        ≡ compact_text (value_as (kind_of (plain_format format.now)) (plain_format format.now) bytes.now)) }
{
    match kind_of(format) {
        ValueKind::Number => print_value(alloc, format, bytes),
        ValueKind::LongNumber => shown_text(alloc, format, bytes),
        ValueKind::Text => match str::from_utf8(bytes) {
            Ok(text) => quoted(alloc, text),
            Err(_) => unreachable!(),
        },
        ValueKind::Address => address_text(alloc, format, bytes),
        ValueKind::Octets => hex_text(alloc, bytes),
    }
}

fn kind_of(format: &Format) -> ValueKind
    ensures { result ≡ kind_of (plain_format format.now) }
{
    match format.kind() {
        FormatKind::FourBytes(Reading::Signed | Reading::Unsigned) | FormatKind::Enumerated => {
            ValueKind::Number
        }
        FormatKind::EightBytes(Reading::Signed | Reading::Unsigned) => ValueKind::LongNumber,
        FormatKind::Utf8String | FormatKind::DiameterIdentity | FormatKind::DiameterUri => {
            ValueKind::Text
        }
        FormatKind::Address => ValueKind::Address,
        FormatKind::FourBytes(Reading::Bits)
        | FormatKind::EightBytes(Reading::Bits)
        | FormatKind::AnyBytes
        | FormatKind::Grouped => ValueKind::Octets,
    }
}

/// Data as a string of what `show` writes of it.
fn shown_text(alloc: Global, format: &Format, bytes: &[u8]) -> Result<String, AllocError>
    ensures { IfOk result (λ text. (shown : List ℕ) × IsValueText (plain_format format.now) bytes.now shown
        × (string_bytes text ≡ quoted shown)) }
{
    let text = print_value(alloc, format, bytes)?;
    quoted(alloc, text.as_str())
}

/// An address that the format Address accepts.
fn address_text(alloc: Global, format: &Format, bytes: &[u8]) -> Result<String, AllocError>
    requires address { IsAddress bytes.now }
    requires format { plain_format format.now ≡ Address }
    ensures { IfOk result (λ text. string_bytes text ≡ compact_text (address_value bytes.now)) }
{
    let family = BigEndian::read_u16(bytes);
    if family == 1 {
        shown_text(alloc, format, bytes)
    } else if family == 2 {
        shown_text(alloc, format, bytes)
    } else {
        let digits = hex_digits(alloc, &bytes[2..])?;
        format!(in alloc; "{{\"family\":{family},\"hex\":{digits}}}")
    }
}

/// Bytes in hexadecimal.
pub fn hex_text(alloc: Global, bytes: &[u8]) -> Result<String, AllocError>
    ensures { IfOk result (λ text. string_bytes text ≡ compact_text (hex_value bytes.now)) }
{
    let digits = hex_digits(alloc, bytes)?;
    format!(in alloc; "{{\"hex\":{digits}}}")
}

/// A string of two digits a byte.
fn hex_digits(alloc: Global, bytes: &[u8]) -> Result<String, AllocError>
    ensures { IfOk result (λ text. string_bytes text ≡ quoted (flat_map hex_byte bytes.now)) }
{
    let mut digits = String::new(alloc);
    push_digits(&mut digits, bytes)?;
    quoted(alloc, digits.as_str())
}

fn push_digits(digits: &mut String, bytes: &[u8]) -> Result<(), AllocError>
    ensures { OnOk result (string_bytes digits.new ≡ string_bytes digits.old ++ flat_map hex_byte bytes.now) }
{
    for byte in bytes {
        push_hex_byte(digits, *byte)?;
    }
    Ok(())
}
