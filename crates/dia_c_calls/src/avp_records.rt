//! The record of an AVP of a message.

ghost use Rattle.std.specs.Prelude.{◌≡◌, ◌+◌, ◌<◌, ◌^◌, option_map};
ghost use Rattle.dia_wire.specs.Wire.{avp_length, head_length, plain_avp};
ghost use Rattle.dia_run.specs.Rows.{is_group, known_avp};
ghost use Rattle.dia_run.specs.Walk.{plain_known};
ghost use Rattle.dia_c_calls.specs.Avps.{avp_record, format_number, name_in, number_of};

use crate::recorded_fault::cut_name;
use dia_book::{Book, Format};
use dia_run::Known;
use dia_terms::{FormatName, MAX_NAME};
use dia_wire::{AVP_HEAD_LENGTH, Avp, VENDOR_AVP_HEAD_LENGTH, key};

/// An AVP (RFC 6733 section 4.1), with offsets in bytes from the first of the message.
#[repr(C)]
#[derive(Clone, Copy)]
pub struct MessageAvp {
    pub place: usize,
    /// How many groups are around it.
    pub depth: usize,
    /// AVP Length.
    pub length: usize,
    pub data_place: usize,
    pub data_length: usize,
    /// How many bytes its name has; 0 where the dictionary doesn't have it.
    pub name_count: usize,
    pub code: u32,
    /// Vendor-ID, or 0 without one.
    pub vendor: u32,
    pub flags: u32,
    /// The number of its format; 0 where the dictionary doesn't have it.
    pub format: u32,
    /// Its name, with zeros after it.
    pub name: [u8; MAX_NAME],
    /// The place of fields that are added: zeros.
    pub reserved: [u64; RESERVED],
}

/// How many words fields that are added may take.
const RESERVED: usize = 4;

/// The record of an AVP at an offset and a depth.
pub fn avp_record(place: usize, depth: usize, avp: &Avp<'_>, known: Option<Known<'_>>) -> MessageAvp
    requires { place + avp_length (plain_avp avp.now) < 2 ^ 63 }
    ensures { result ≡ avp_record place depth (plain_avp avp.now) (option_map plain_known known.entry) }
{
    let (name_count, name) = cut_name(name_in(known));
    MessageAvp {
        place,
        depth,
        length: avp.length(),
        data_place: place + head_length(avp),
        data_length: avp.bytes.len(),
        name_count,
        code: avp.code,
        vendor: avp.vendor.unwrap_or(0),
        flags: u32::from(avp.flags),
        format: number_of(known),
        name,
        reserved: [0; RESERVED],
    }
}

fn head_length(avp: &Avp<'_>) -> usize
    ensures { result ≡ head_length avp.now.vendor }
{
    match avp.vendor {
        Some(_) => VENDOR_AVP_HEAD_LENGTH,
        None => AVP_HEAD_LENGTH,
    }
}

fn name_in(known: Option<Known<'_>>) -> &str
    ensures { result.now ≡ name_in (option_map plain_known known.entry) }
{
    match known {
        Some(known) => known.name,
        None => "",
    }
}

/// The number of an AVP's format, or 0.
fn number_of(known: Option<Known<'_>>) -> u32
    ensures { result ≡ number_of (option_map plain_known known.entry) }
{
    match known {
        Some(known) => format_number(known.format.name()),
        None => 0,
    }
}

pub fn format_number(format: FormatName) -> u32
    ensures { result ≡ format_number format }
{
    match format {
        FormatName::OctetString => 1,
        FormatName::Integer32 => 2,
        FormatName::Integer64 => 3,
        FormatName::Unsigned32 => 4,
        FormatName::Unsigned64 => 5,
        FormatName::Float32 => 6,
        FormatName::Float64 => 7,
        FormatName::Grouped => 8,
        FormatName::Address => 9,
        FormatName::Time => 10,
        FormatName::Utf8String => 11,
        FormatName::DiameterIdentity => 12,
        FormatName::DiameterUri => 13,
        FormatName::Enumerated => 14,
        FormatName::IpFilterRule => 15,
        FormatName::QosFilterRule => 16,
    }
}

/// What the dictionary has of an AVP.
pub fn known_avp<'b, B: Book>(book: &'b B, avp: &Avp<'_>) -> Option<Known<'b>>
    ensures { option_map plain_known result ≡ known_avp (B.meaning book.now) (plain_avp avp.now) }
{
    match book.avp(key(avp)) {
        Some(entry) => Some(Known {
            name: book.entry_name(entry),
            format: book.format(entry),
        }),
        None => None,
    }
}

/// Whether it is a group, whose members are AVPs of the message.
pub fn is_group(known: Option<Known<'_>>) -> bool
    ensures { result ≡ is_group (option_map plain_known known.entry) }
{
    match known {
        Some(known) => matches!(known.format, Format::Grouped),
        None => false,
    }
}
