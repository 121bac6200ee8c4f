//! The rows of `show`: a line each.

ghost use Rattle.std.specs.Prelude.{◌≡◌, ◌++◌, OnOk, codes, string_bytes};
ghost use Rattle.std.specs.Fmt.{decimal};
ghost use Rattle.dia_wire.specs.Wire.{plain_avp};
ghost use Rattle.dia_data.specs.Plain.{plain_format};
ghost use Rattle.dia_run.specs.Listing.{AddsNameAndValue, avp_columns, vendor_text};

use crate::row_writer::{Known, RowWriter};
use dia_data::{push_decimal, push_hex_byte, push_value};
use dia_dict::Format;
use dia_wire::{Avp, Header};
use std::alloc::{AllocError, Global};

/// Writes a line for each row, as `show` does without options.
#[derive(Clone, Copy)]
pub struct PlainRows;

impl RowWriter for PlainRows {
    ghost use Rattle.dia_run.specs.Listing.{IsPlainRow};

    ghost writes = { λ _. IsPlainRow };

    fn write_header(
        &self,
        _alloc: Global,
        text: &mut String,
        header: &Header,
        length: usize,
        _command: Option<&str>,
    ) -> Result<(), AllocError> {
        let code = header.code;
        let app = header.app;
        let hop = header.hop;
        let end = header.e2e;
        text.push_str("header flags ")?;
        push_hex_byte(text, header.flags)?;
        writeln!(
            text,
            " code {code} app {app} hop {hop} end {end} length {length}"
        )
    }

    fn write_avp(
        &self,
        _alloc: Global,
        text: &mut String,
        place: usize,
        depth: usize,
        avp: &Avp<'_>,
        known: Option<Known<'_>>,
    ) -> Result<(), AllocError> {
        push_columns(text, place, depth, avp)?;
        match known {
            Some(known) => match known.format {
                Format::Grouped => {
                    text.push_str(known.name)?;
                    text.push_str(" group\n")
                }
                format => push_name_and_value(text, known.name, format, avp.bytes),
            },
            None => push_name_and_value(text, "?", &Format::OctetString, avp.bytes),
        }
    }

    fn write_bad_length(&self, text: &mut String, place: usize) -> Result<(), AllocError> {
        writeln!(text, "fault 5014 at {place} avp-length -")
    }
}

/// Adds the columns that precede an AVP's name.
fn push_columns(
    text: &mut String,
    place: usize,
    depth: usize,
    avp: &Avp<'_>,
) -> Result<(), AllocError>
    ensures { OnOk result (string_bytes text.new
        ≡ string_bytes text.old ++ avp_columns place depth (plain_avp avp.now)) }
{
    push_number(text, place as u64)?;
    push_number(text, depth as u64)?;
    push_number(text, u64::from(avp.code))?;
    push_vendor(text, avp.vendor)?;
    text.push(' ')?;
    push_hex_byte(text, avp.flags)?;
    text.push(' ')?;
    push_number(text, avp.length() as u64)
}

/// Adds a number and a blank.
pub fn push_number(text: &mut String, number: u64) -> Result<(), AllocError>
    ensures { OnOk result (string_bytes text.new
        ≡ string_bytes text.old ++ decimal number ++ codes " ") }
{
    push_decimal(text, number)?;
    text.push(' ')
}

/// Adds the Vendor-ID, or a dash.
pub fn push_vendor(text: &mut String, vendor: Option<u32>) -> Result<(), AllocError>
    ensures { OnOk result (string_bytes text.new ≡ string_bytes text.old ++ vendor_text vendor) }
{
    match vendor {
        Some(vendor) => push_decimal(text, u64::from(vendor)),
        None => text.push('-'),
    }
}

/// Adds the name and the value, which end the line of an AVP.
fn push_name_and_value(
    text: &mut String,
    name: &str,
    format: &Format,
    bytes: &[u8],
) -> Result<(), AllocError>
    ensures { OnOk result (AddsNameAndValue name.now (plain_format format.now) bytes.now
        (string_bytes text.old) (string_bytes text.new)) }
{
    text.push_str(name)?;
    text.push(' ')?;
    push_value(text, format, bytes)?;
    text.push('\n')
}
