//! The data of an AVP: its value, its word and its date.

ghost use Rattle.std.specs.Prelude.{◌≡◌, ◌++◌, IfOk, OnOk, option_map, string_bytes};
ghost use Rattle.dia_data.specs.Plain.{plain_format};
ghost use Rattle.dia_data.specs.Shown.{IsValueText};
ghost use Rattle.dia_show.specs.Listing.{AddsDateNote, AddsRecorded, IsDateOf, IsWordOf, has_date, is_printable, is_text};
ghost use Rattle.dia_show.specs.Listing.{recorded_format, word_note};
ghost use Rattle.dia_show.specs.Manners.{plain_manner_of};
ghost use Rattle.dia_show.specs.Words.{plain_words, word_of};

use crate::byte_kinds::{ByteKind, all_are};
use crate::dates::push_time;
use crate::manner::Manner;
use crate::words::Words;
use byteorder::{BigEndian, ByteOrder};
use dia_data::{FormatKind, print_value};
use dia_dict::Format;
use std::alloc::{AllocError, Global};

/// The bytes of a Time.
const TIME_LENGTH: usize = 4;

/// Adds the data of an AVP: its value, its word and its date.
pub(crate) fn push_recorded(
    alloc: Global,
    text: &mut String,
    manner: &Manner<'_>,
    name: &str,
    format: &Format,
    bytes: &[u8],
) -> Result<(), AllocError>
    ensures { OnOk result (AddsRecorded (plain_manner_of manner.now) name.now (plain_format format.now) bytes.now
        (string_bytes text.old) (string_bytes text.new)) }
{
    let value = value_of(alloc, manner.names, format, bytes)?;
    text.push_str(value.as_str())?;
    push_word(text, &manner.words, name, value.as_str())?;
    push_date(text, manner.names, format, bytes)
}

/// The word of the data of an AVP of this name, if it has one.
pub fn word_of<'t>(
    alloc: Global,
    manner: &Manner<'t>,
    name: &str,
    format: &Format,
    bytes: &[u8],
) -> Result<Option<&'t str>, AllocError>
    ensures { IfOk result (λ word. IsWordOf (plain_manner_of manner.now) name.now (plain_format format.now) bytes.now
        (option_map (λ text. text.now) word)) }
{
    let value = value_of(alloc, manner.names, format, bytes)?;
    Ok(manner.words.get(name, value.as_str()))
}

/// The date of the data, with names and of a Time.
pub fn date_of(
    alloc: Global,
    names: bool,
    format: &Format,
    bytes: &[u8],
) -> Result<Option<String>, AllocError>
    ensures { IfOk result (λ date. IsDateOf names (plain_format format.now) bytes.now
        (option_map (λ text. string_bytes text) date)) }
{
    if has_date(names, format, bytes) {
        let mut date = String::new(alloc);
        push_time(&mut date, BigEndian::read_u32(bytes))?;
        Ok(Some(date))
    } else {
        Ok(None)
    }
}

/// The value of the data, as `show` prints it, or as a text.
fn value_of(alloc: Global, names: bool, format: &Format, bytes: &[u8]) -> Result<String, AllocError>
    ensures { IfOk result (λ value. IsValueText (recorded_format names (plain_format format.now) bytes.now)
        bytes.now (string_bytes value)) }
{
    if is_text(names, format, bytes) {
        print_value(alloc, &Format::Utf8String, bytes)
    } else {
        print_value(alloc, format, bytes)
    }
}

/// Whether data is written as a text.
fn is_text(names: bool, format: &Format, bytes: &[u8]) -> bool
    ensures { result ≡ is_text names (plain_format format.now) bytes.now }
{
    if !names {
        return false;
    }
    match format {
        Format::OctetString => is_printable(bytes),
        _ => format.kind() == FormatKind::AnyBytes,
    }
}

fn is_printable(bytes: &[u8]) -> bool
    ensures { result ≡ is_printable bytes.now }
{
    !bytes.is_empty() && all_are(ByteKind::Printing, bytes)
}

/// Adds the word of a value, if it has one.
fn push_word(
    text: &mut String,
    words: &Words<'_>,
    name: &str,
    value: &str,
) -> Result<(), AllocError>
    ensures { OnOk result (string_bytes text.new
        ≡ string_bytes text.old ++ word_note (word_of (plain_words words.now) name.now value.now)) }
{
    match words.get(name, value) {
        Some(word) => {
            text.push(' ')?;
            text.push_str(word)
        }
        None => Ok(()),
    }
}

/// Adds the date of a Time, if the data is one.
fn push_date(
    text: &mut String,
    names: bool,
    format: &Format,
    bytes: &[u8],
) -> Result<(), AllocError>
    ensures { OnOk result (AddsDateNote names (plain_format format.now) bytes.now
        (string_bytes text.old) (string_bytes text.new)) }
{
    if has_date(names, format, bytes) {
        text.push_str(" ")?;
        push_time(text, BigEndian::read_u32(bytes))
    } else {
        Ok(())
    }
}

fn has_date(names: bool, format: &Format, bytes: &[u8]) -> bool
    ensures { result ≡ has_date names (plain_format format.now) bytes.now }
{
    if !names {
        return false;
    }
    match format {
        Format::Time => bytes.len() == TIME_LENGTH,
        _ => false,
    }
}
