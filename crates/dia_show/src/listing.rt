//! The rows of `show` in a manner: a line each.

ghost use Rattle.std.specs.Prelude.{◌≡◌, ◌++◌, OnOk, string_bytes};
ghost use Rattle.dia_wire.specs.Wire.{plain_avp};
ghost use Rattle.dia_data.specs.Plain.{plain_format};
ghost use Rattle.dia_show.specs.Listing.{AddsNameAndRecorded, columns, indent, margin, numbers};
ghost use Rattle.dia_show.specs.Manners.{plain_manner_of};

use crate::flags::push_avp_flags;
use crate::header::push_header;
use crate::manner::Manner;
use crate::values::push_recorded;
use dia_dict::Format;
use dia_run::{Known, PlainRows, RowWriter, push_number, push_vendor};
use dia_wire::{Avp, Header};
use std::alloc::{AllocError, Global};

/// Writes a line for each row, in a manner.
#[derive(Drop)]
pub(crate) struct NamedRows<'a, 't> {
    pub manner: &'a Manner<'t>,
}

impl<'a, 't> RowWriter for NamedRows<'a, 't> {
    ghost use Rattle.dia_show.specs.Listing.{IsNamedRow};
    ghost use Rattle.dia_show.specs.Manners.{plain_manner_of};

    ghost writes = { λ rows. IsNamedRow (plain_manner_of rows.manner.now) };

    fn write_header(
        &self,
        _alloc: Global,
        text: &mut String,
        header: &Header,
        length: usize,
        command: Option<&str>,
    ) -> Result<(), AllocError> {
        push_header(text, self.manner.names, header, length, command)
    }

    fn write_avp(
        &self,
        alloc: Global,
        text: &mut String,
        place: usize,
        depth: usize,
        avp: &Avp<'_>,
        known: Option<Known<'_>>,
    ) -> Result<(), AllocError> {
        push_columns(text, self.manner.names, place, depth, avp)?;
        match known {
            Some(known) => match known.format {
                Format::Grouped => {
                    text.push_str(known.name)?;
                    text.push_str(" group\n")
                }
                format => push_name_and_recorded(
                    alloc,
                    text,
                    self.manner,
                    known.name,
                    format,
                    avp.bytes,
                ),
            },
            None => push_name_and_recorded(
                alloc,
                text,
                self.manner,
                "?",
                &Format::OctetString,
                avp.bytes,
            ),
        }
    }

    fn write_bad_length(&self, text: &mut String, place: usize) -> Result<(), AllocError> {
        PlainRows.write_bad_length(text, place)
    }
}

/// Adds the columns that precede an AVP's name.
fn push_columns(
    text: &mut String,
    names: bool,
    place: usize,
    depth: usize,
    avp: &Avp<'_>,
) -> Result<(), AllocError>
    ensures { OnOk result (string_bytes text.new
        ≡ string_bytes text.old ++ columns names place depth (plain_avp avp.now)) }
{
    push_margin(text, names, depth)?;
    push_numbers(text, names, place, depth, avp)
}

/// Adds offset, depth, code, vendor, flags and length.
fn push_numbers(
    text: &mut String,
    names: bool,
    place: usize,
    depth: usize,
    avp: &Avp<'_>,
) -> Result<(), AllocError>
    ensures { OnOk result (string_bytes text.new
        ≡ string_bytes text.old ++ numbers names place depth (plain_avp avp.now)) }
{
    push_number(text, place as u64)?;
    push_number(text, depth as u64)?;
    push_number(text, u64::from(avp.code))?;
    push_vendor(text, avp.vendor)?;
    text.push(' ')?;
    push_avp_flags(text, names, avp.flags)?;
    text.push(' ')?;
    push_number(text, avp.length() as u64)
}

/// Adds two blanks for each level, with names.
fn push_margin(text: &mut String, names: bool, depth: usize) -> Result<(), AllocError>
    ensures { OnOk result (string_bytes text.new ≡ string_bytes text.old ++ margin names depth) }
{
    if names {
        push_indent(text, depth)
    } else {
        Ok(())
    }
}

fn push_indent(text: &mut String, depth: usize) -> Result<(), AllocError>
    ensures { OnOk result (string_bytes text.new ≡ string_bytes text.old ++ indent depth) }
{
    let mut left = depth;
    while left > 0 {
        text.push_str("  ")?;
        left -= 1;
    }
    Ok(())
}

/// Adds the name and the data, which end the line of an AVP.
fn push_name_and_recorded(
    alloc: Global,
    text: &mut String,
    manner: &Manner<'_>,
    name: &str,
    format: &Format,
    bytes: &[u8],
) -> Result<(), AllocError>
    ensures { OnOk result (AddsNameAndRecorded (plain_manner_of manner.now) name.now (plain_format format.now) bytes.now
        (string_bytes text.old) (string_bytes text.new)) }
{
    text.push_str(name)?;
    text.push(' ')?;
    push_recorded(alloc, text, manner, name, format, bytes)?;
    text.push('\n')
}
