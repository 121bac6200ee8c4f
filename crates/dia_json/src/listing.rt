//! The rows of `show` as JSON: an object a line.

ghost use Rattle.std.specs.Prelude.{◌≡◌, ◌++◌, true, IfOk, OnOk, codes, option_map, string_bytes, List, Option, ℕ};
ghost use Rattle.serde_json.specs.Data.{Members, no_members};
ghost use Rattle.serde_json.specs.Written.{compact_text, members_text};
ghost use Rattle.dia_wire.specs.Wire.{plain_avp};
ghost use Rattle.dia_data.specs.Plain.{plain_format};
ghost use Rattle.dia_refused_json.specs.Members.{json_line};
ghost use Rattle.dia_run.specs.Walk.{plain_known};
ghost use Rattle.dia_json.specs.Messages.{bad_length_members, command_member, header_members, hex_value, name_member};
ghost use Rattle.dia_json.specs.Messages.{note_members, shown_members, text_member, value_member, vendor_value};
ghost use Rattle.dia_json.specs.Listing.{IsNamedLeaf, IsNamedText};
ghost use Rattle.dia_show.specs.Manners.{plain_manner_of};

use crate::values::{hex_text, value_text};
use dia_dict::Format;
use dia_refused_json::quoted;
use dia_run::{Known, RowWriter};
use dia_show::{Manner, date_of, word_of};
use dia_wire::{Avp, Header};
use std::alloc::{AllocError, Global};

/// DIAMETER_INVALID_AVP_LENGTH (RFC 6733 section 7.1.5).
const BAD_LENGTH: u32 = 5014;

/// The version of each message that is shown (RFC 6733 section 3).
const VERSION: u8 = 1;

/// Writes an object for each row, on a line, in a manner.
#[derive(Drop)]
pub struct JsonRows<'a, 't> {
    pub manner: &'a Manner<'t>,
}

impl<'a, 't> RowWriter for JsonRows<'a, 't> {
    ghost use Rattle.dia_json.specs.Messages.{IsObjectRow};
    ghost use Rattle.dia_show.specs.Manners.{plain_manner_of};

    ghost writes = { λ rows. IsObjectRow (plain_manner_of rows.manner.now) };

    fn write_header(
        &self,
        alloc: Global,
        text: &mut String,
        header: &Header,
        length: usize,
        command: Option<&str>,
    ) -> Result<(), AllocError> {
        let command = command_text(alloc, command)?;
        push_header(text, header, length, command.as_str())
    }

    fn write_avp(
        &self,
        alloc: Global,
        text: &mut String,
        place: usize,
        depth: usize,
        avp: &Avp<'_>,
        known: Option<Known<'_>>,
    ) -> Result<(), AllocError> {
        let named = named(alloc, self.manner, known, avp.bytes)?;
        push_object(alloc, text, place, depth, avp, named.as_str())
    }

    fn write_bad_length(&self, text: &mut String, place: usize) -> Result<(), AllocError> {
        push_bad_length(text, place)
    }
}

/// Adds the object of a header. `size` is the Message Length, and `command` the member of the command with the brace after it.
fn push_header(
    text: &mut String,
    header: &Header,
    size: usize,
    command: &str,
) -> Result<(), AllocError>
    ensures { OnOk result ((name : Option (List ℕ)) → command.now ≡ members_text true (command_member name)
        → string_bytes text.new ≡ string_bytes text.old ++ json_line (header_members header.now size name)) }
{
    let flags = header.flags;
    let code = header.code;
    let app = header.app;
    let hop = header.hop;
    let end = header.e2e;
    write!(
        text,
        "{{\"version\":{VERSION},\"flags\":{flags},\"code\":{code},"
    )?;
    write!(
        text,
        "\"application\":{app},\"hop_by_hop\":{hop},\"end_to_end\":{end},"
    )?;
    write!(text, "\"length\":{size}{command}\n")
}

/// The member of a command of this name, if there is one, and the brace after it.
fn command_text(alloc: Global, command: Option<&str>) -> Result<String, AllocError>
    ensures { IfOk result (λ text. string_bytes text
        ≡ members_text true (command_member (option_map (λ name. name.now) command.entry))) }
{
    match command {
        Some(name) => {
            let name = quoted(alloc, name)?;
            format!(in alloc; ",\"command\":{name}}}")
        }
        None => String::from_str(alloc, "}"),
    }
}

/// The name and the data of an AVP, and the brace after them.
fn named(
    alloc: Global,
    manner: &Manner<'_>,
    known: Option<Known<'_>>,
    bytes: &[u8],
) -> Result<String, AllocError>
    ensures { IfOk result (λ text. IsNamedText (plain_manner_of manner.now) (option_map plain_known known.entry) bytes.now
        (string_bytes text)) }
{
    match known {
        Some(known) => match known.format {
            Format::Grouped => named_group(alloc, known.name),
            format => named_leaf(alloc, manner, known.name, format, bytes),
        },
        None => unnamed(alloc, bytes),
    }
}

/// The last member of an AVP that the dictionary doesn't have, and the brace after it.
fn unnamed(alloc: Global, bytes: &[u8]) -> Result<String, AllocError>
    ensures { IfOk result (λ text. string_bytes text ≡ members_text true (value_member (hex_value bytes.now))) }
{
    let value = hex_text(alloc, bytes)?;
    format!(in alloc; ",\"value\":{value}}}")
}

/// The last member of a group of this name, and the brace after it.
fn named_group(alloc: Global, name: &str) -> Result<String, AllocError>
    ensures { IfOk result (λ text. string_bytes text ≡ members_text true (name_member name.now no_members)) }
{
    let name = quoted(alloc, name)?;
    format!(in alloc; ",\"name\":{name}}}")
}

/// The last members of an AVP of this name, and the brace after them.
fn named_leaf(
    alloc: Global,
    manner: &Manner<'_>,
    name: &str,
    format: &Format,
    bytes: &[u8],
) -> Result<String, AllocError>
    ensures { IfOk result (λ text. IsNamedLeaf (plain_manner_of manner.now) name.now (plain_format format.now) bytes.now
        (string_bytes text)) }
{
    let value = value_text(alloc, format, bytes)?;
    let word = word_of(alloc, manner, name, format, bytes)?;
    let date = date_of(alloc, manner.names, format, bytes)?;
    let rest = noted(alloc, word, date)?;
    let name = quoted(alloc, name)?;
    format!(in alloc; ",\"name\":{name},\"value\":{value}{rest}")
}

/// The members of a word and a date, as far as they are there, and the brace after them.
fn noted(alloc: Global, word: Option<&str>, date: Option<String>) -> Result<String, AllocError>
    ensures { IfOk result (λ text. string_bytes text ≡ members_text true
        (note_members (option_map (λ word. word.now) word.entry) (option_map (λ date. string_bytes date) date))) }
{
    let last = dated(alloc, date)?;
    match word {
        Some(word) => {
            let word = quoted(alloc, word)?;
            format!(in alloc; ",\"word\":{word}{last}")
        }
        None => Ok(last),
    }
}

/// The member of a date, if it is there, and the brace after it.
fn dated(alloc: Global, date: Option<String>) -> Result<String, AllocError>
    ensures { IfOk result (λ text. string_bytes text ≡ members_text true
        (text_member (codes "time") (option_map (λ date. string_bytes date) date) no_members)) }
{
    match date {
        Some(date) => {
            let date = quoted(alloc, date.as_str())?;
            format!(in alloc; ",\"time\":{date}}}")
        }
        None => String::from_str(alloc, "}"),
    }
}

/// Adds the object of an AVP whose last members are these.
fn push_object(
    alloc: Global,
    text: &mut String,
    place: usize,
    depth: usize,
    avp: &Avp<'_>,
    named: &str,
) -> Result<(), AllocError>
    ensures { OnOk result ((members : Members) → named.now ≡ members_text true members → string_bytes text.new
        ≡ string_bytes text.old ++ json_line (shown_members place depth (plain_avp avp.now) members)) }
{
    let code = avp.code;
    let vendor = vendor_text(alloc, avp.vendor)?;
    let flags = avp.flags;
    let length = avp.length();
    write!(text, "{{\"at\":{place},\"depth\":{depth},\"code\":{code},")?;
    write!(text, "\"vendor\":{vendor},\"flags\":{flags},")?;
    write!(text, "\"length\":{length}{named}\n")
}

/// A Vendor-ID, or `null`.
fn vendor_text(alloc: Global, vendor: Option<u32>) -> Result<String, AllocError>
    ensures { IfOk result (λ text. string_bytes text ≡ compact_text (vendor_value vendor)) }
{
    match vendor {
        Some(vendor) => format!(in alloc; "{vendor}"),
        None => String::from_str(alloc, "null"),
    }
}

/// Adds the object of an offset at which no AVP begins.
fn push_bad_length(text: &mut String, place: usize) -> Result<(), AllocError>
    ensures { OnOk result (string_bytes text.new ≡ string_bytes text.old ++ json_line (bad_length_members place)) }
{
    write!(
        text,
        "{{\"verdict\":\"fault\",\"code\":{BAD_LENGTH},\"at\":{place},\"reason\":\"avp-length\"}}\n"
    )
}
