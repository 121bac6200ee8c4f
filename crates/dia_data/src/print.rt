//! Values as text.
ghost use Rattle.std.specs.Prelude.{◌≡◌, ◌<◌, ◌++◌, ◌/◌, ◌%◌, IfOk, OnOk, length, map, string_bytes};
ghost use Rattle.std.specs.Fmt.{decimal};
ghost use Rattle.std.specs.Int.{w32, w64};
ghost use Rattle.std.specs.List.{join_with_byte};
ghost use Rattle.dia_data.specs.Leaf.{IsAddress, IsLeafAnswer};
ghost use Rattle.dia_data.specs.Shown.{IsValueText, AddsValueText, address};
ghost use Rattle.dia_data.specs.Shown.{groups, hex_byte, hex_digit, hexadecimal, number_text};
ghost use Rattle.dia_data.specs.Shown.{quoted, quoted_byte, value_text};
ghost use Rattle.dia_data.specs.Plain.{plain_format};

use crate::accept::{Leaf, accepts};
use crate::format::{Format, FormatKind, Reading};
use byteorder::{BigEndian, ByteOrder};
use hex::encode_to_slice;
use itoa::{Buffer, Integer};
use std::alloc::{AllocError, Global};

/// The data as text (our profile).
///
/// Numbers are decimal, signed or not as their format is. A text, an identity or a URI is in double quotes, where each
/// byte that is no printing ASCII, and the quote and the backslash, is `\x` and two lower-case hexadecimal digits. An
/// address of family 1 is four decimals with dots, of family 2 eight groups of four digits with colons, and of another
/// family `family N ` and the hexadecimal form of what follows. All else, and data that the format does not accept, has
/// the hexadecimal form: `x` and two lower-case digits a byte. The error comes only where memory was refused.
pub fn print_value(alloc: Global, format: &Format, bytes: &[u8]) -> Result<String, AllocError>
    ensures { IfOk result
        (λ text. IsValueText (plain_format format.now) bytes.now (string_bytes text)) }
{
    let mut text = String::new(alloc);
    push_value(&mut text, format, bytes)?;
    Ok(text)
}

/// Adds the text of the data, as `print_value` prints it, and takes no memory but that of the growing text. The error comes
/// only where memory was refused; some of the text of the data may have been added then.
pub fn push_value(out: &mut String, format: &Format, bytes: &[u8]) -> Result<(), AllocError>
    ensures { OnOk result (AddsValueText (plain_format format.now) bytes.now
        (string_bytes out.old) (string_bytes out.new)) }
{
    if accepts(format, bytes) == Leaf::Fine {
        push_accepted(out, format, bytes)
    } else {
        push_hexadecimal(out, bytes)
    }
}

/// Adds the text of data that the format accepts.
fn push_accepted(out: &mut String, format: &Format, bytes: &[u8]) -> Result<(), AllocError>
    requires { IsLeafAnswer Leaf.Fine (plain_format format.now) bytes.now }
    ensures { OnOk result (string_bytes out.new
        ≡ string_bytes out.old ++ value_text (plain_format format.now) bytes.now) }
{
    match format.kind() {
        FormatKind::FourBytes(reading) => push_four(out, reading, bytes),
        FormatKind::EightBytes(reading) => push_eight(out, reading, bytes),
        FormatKind::Enumerated => push_four(out, Reading::Signed, bytes),
        FormatKind::Address => push_address(out, bytes),
        FormatKind::Utf8String | FormatKind::DiameterIdentity | FormatKind::DiameterUri =>
            push_quoted(out, bytes),
        FormatKind::AnyBytes | FormatKind::Grouped => push_hexadecimal(out, bytes),
    }
}

fn push_four(out: &mut String, reading: Reading, bytes: &[u8]) -> Result<(), AllocError>
    requires { length bytes.now ≡ 4 }
    ensures { OnOk result (string_bytes out.new
        ≡ string_bytes out.old ++ number_text w32 reading bytes.now) }
{
    match reading {
        Reading::Signed => push_number(out, BigEndian::read_i32(bytes)),
        Reading::Unsigned => push_number(out, BigEndian::read_u32(bytes)),
        Reading::Bits => push_hexadecimal(out, bytes),
    }
}

fn push_eight(out: &mut String, reading: Reading, bytes: &[u8]) -> Result<(), AllocError>
    requires { length bytes.now ≡ 8 }
    ensures { OnOk result (string_bytes out.new
        ≡ string_bytes out.old ++ number_text w64 reading bytes.now) }
{
    match reading {
        Reading::Signed => push_number(out, BigEndian::read_i64(bytes)),
        Reading::Unsigned => push_number(out, BigEndian::read_u64(bytes)),
        Reading::Bits => push_hexadecimal(out, bytes),
    }
}

fn push_address(out: &mut String, bytes: &[u8]) -> Result<(), AllocError>
    requires { IsAddress bytes.now }
    ensures { OnOk result (string_bytes out.new ≡ string_bytes out.old ++ address bytes.now) }
{
    let family = BigEndian::read_u16(bytes);
    let rest = &bytes[2..];
    if family == 1 {
        push_ipv4(out, rest)
    } else if family == 2 {
        push_ipv6(out, rest)
    } else {
        write!(out, "family {family} ")?;
        push_hexadecimal(out, rest)
    }
}

fn push_ipv4(out: &mut String, bytes: &[u8]) -> Result<(), AllocError>
    requires { length bytes.now ≡ 4 }
    ensures { OnOk result (string_bytes out.new
        ≡ string_bytes out.old ++ join_with_byte 46 (map decimal bytes.now)) }
{
    push_byte(out, bytes[0])?;
    out.push('.')?;
    push_byte(out, bytes[1])?;
    out.push('.')?;
    push_byte(out, bytes[2])?;
    out.push('.')?;
    push_byte(out, bytes[3])
}

fn push_number<I: Integer>(out: &mut String, number: I) -> Result<(), AllocError>
    ensures { OnOk result (string_bytes out.new ≡ string_bytes out.old ++ I.text number) }
{
    out.push_str(Buffer::new().format(number))
}

fn push_byte(out: &mut String, byte: u8) -> Result<(), AllocError>
    ensures { OnOk result (string_bytes out.new ≡ string_bytes out.old ++ decimal byte) }
{
    push_decimal(out, u64::from(byte))
}

/// Adds a number in decimal. The error comes only where memory was refused; some of the digits may have been added then.
pub fn push_decimal(out: &mut String, number: u64) -> Result<(), AllocError>
    ensures { OnOk result (string_bytes out.new ≡ string_bytes out.old ++ decimal number) }
{
    if number < 100 {
        push_two_digits(out, number)
    } else if number < 1000 {
        push_two_digits(out, number / 10)?;
        push_digit(out, number % 10)
    } else {
        push_number(out, number)
    }
}

fn push_two_digits(out: &mut String, number: u64) -> Result<(), AllocError>
    requires { number < 100 }
    ensures { OnOk result (string_bytes out.new ≡ string_bytes out.old ++ decimal number) }
{
    if number >= 10 {
        push_digit(out, number / 10)?;
        push_digit(out, number % 10)
    } else {
        push_digit(out, number)
    }
}

fn push_digit(out: &mut String, digit: u64) -> Result<(), AllocError>
    requires { digit < 10 }
    ensures { OnOk result (string_bytes out.new ≡ string_bytes out.old ++ decimal digit) }
{
    out.push(char::from(b'0' + digit as u8))
}

/// Every group with its leading zeros.
fn push_ipv6(out: &mut String, bytes: &[u8]) -> Result<(), AllocError>
    requires { length bytes.now ≡ 16 }
    ensures { OnOk result (string_bytes out.new
        ≡ string_bytes out.old ++ join_with_byte 58 (groups bytes.now)) }
{
    for i in 0..8 {
        if i > 0 {
            out.push(':')?;
        }
        push_hex_byte(out, bytes[2 * i])?;
        push_hex_byte(out, bytes[2 * i + 1])?;
    }
    Ok(())
}

fn push_quoted(out: &mut String, bytes: &[u8]) -> Result<(), AllocError>
    ensures { OnOk result (string_bytes out.new ≡ string_bytes out.old ++ quoted bytes.now) }
{
    out.push('"')?;
    for byte in bytes {
        push_quoted_byte(out, *byte)?;
    }
    out.push('"')
}

/// The byte where it is printing ASCII, and neither the quote nor the backslash.
fn push_quoted_byte(out: &mut String, byte: u8) -> Result<(), AllocError>
    ensures { OnOk result (string_bytes out.new ≡ string_bytes out.old ++ quoted_byte byte) }
{
    if (b' '..=b'~').contains(&byte) && byte != b'"' && byte != b'\\' {
        out.push(char::from(byte))
    } else {
        out.push_str("\\x")?;
        push_hex_byte(out, byte)
    }
}

fn push_hexadecimal(out: &mut String, bytes: &[u8]) -> Result<(), AllocError>
    ensures { OnOk result (string_bytes out.new ≡ string_bytes out.old ++ hexadecimal bytes.now) }
{
    out.push('x')?;
    for byte in bytes {
        push_hex_byte(out, *byte)?;
    }
    Ok(())
}

/// Adds a byte as two lower-case hexadecimal digits. The error comes only where memory was refused; the first digit may have
/// been added then.
pub fn push_hex_byte(out: &mut String, byte: u8) -> Result<(), AllocError>
    ensures { OnOk result (string_bytes out.new ≡ string_bytes out.old ++ hex_byte byte) }
{
    let (high, low) = hex_digits(byte);
    out.push(high)?;
    out.push(low)
}

/// The two digits of a byte.
#[tactic(auto, using(crate::proofs::HexDigits::digits_are))]
fn hex_digits(byte: u8) -> (char, char)
    ensures { result ≡ (hex_digit (byte / 16), hex_digit (byte % 16)) }
{
    let mut digits = [0; 2];
    encode_to_slice([byte].as_slice(), &mut digits).unwrap();
    (char::from(digits[0]), char::from(digits[1]))
}
