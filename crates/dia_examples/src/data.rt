//! The data that leaves have in vectors, by their formats.

use crate::writing::four_bytes;
use dia_book::{Format, Key};
use std::alloc::{AllocError, Global};

/// Data of a leaf.
#[derive(Clone, Copy)]
pub enum Datum {
    Bytes(&'static [u8]),
    /// A number of 4 bytes.
    Number([u8; 4]),
}

/// What data depend on, beyond the AVP's format.
#[derive(Clone, Copy)]
pub(crate) struct Context {
    /// The message's Application-ID.
    pub app: u32,
    /// Whether the message is of the class Error.
    pub is_error: bool,
}

impl Context {
    /// What data depend on where only their length counts.
    pub(crate) const NONE: Context = Context {
        app: 0,
        is_error: false,
    };
}

impl Datum {
    pub fn as_slice(&self) -> &[u8] {
        match self {
            Datum::Bytes(bytes) => bytes,
            Datum::Number(bytes) => bytes.as_slice(),
        }
    }

    fn number(number: u32) -> Datum {
        Datum::Number(four_bytes(number))
    }

    /// How many bytes it has.
    pub(crate) fn length(&self) -> u64 {
        self.as_slice().len() as u64
    }
}

/// The data of an AVP in a plain message.
pub(crate) fn plain(key: Key, format: &Format, context: Context) -> Datum {
    if key.vendor == 0 {
        if let Some(datum) = of_base(key.code, format, context) {
            return datum;
        }
    }
    plain_of(format)
}

/// The data of AVPs of RFC 6733 that other nodes read: a Session-Id of its form (section 8.8), a realm, the Result-Code of an
/// answer or an error (section 7.1), and the application (sections 6.8 and 6.9).
fn of_base(code: u32, format: &Format, context: Context) -> Option<Datum> {
    match (code, format) {
        (263, Format::Utf8String) => Some(Datum::Bytes(b"a.example;1;1")),
        (283 | 296, Format::DiameterIdentity) => Some(Datum::Bytes(b"example")),
        (268, Format::Unsigned32) => Some(Datum::number(if context.is_error {
            3002
        } else {
            2001
        })),
        (258 | 259, Format::Unsigned32) => Some(Datum::number(context.app)),
        _ => None,
    }
}

/// The data of the format in a plain message, for all other AVPs.
fn plain_of(format: &Format) -> Datum {
    match format {
        Format::OctetString => Datum::Bytes(b"\0\0\0\x01"),
        Format::IpFilterRule => Datum::Bytes(b"permit in ip from any to any"),
        Format::QosFilterRule => Datum::Bytes(b"tag in ip from any to any DSCP 0"),
        Format::Utf8String => Datum::Bytes(b"a"),
        Format::DiameterIdentity => Datum::Bytes(b"a.example"),
        Format::DiameterUri => Datum::Bytes(b"aaa://a.example"),
        Format::Unsigned32 | Format::Integer32 => Datum::number(1),
        Format::Unsigned64 | Format::Integer64 => Datum::Bytes(b"\0\0\0\0\0\0\0\x01"),
        Format::Time => Datum::number(3_913_056_000),
        Format::Float32 => Datum::Bytes(b"\x3f\x80\0\0"),
        Format::Float64 => Datum::Bytes(b"\x3f\xf0\0\0\0\0\0\0"),
        Format::Enumerated(values) => match values.numbers() {
            Some(numbers) => Datum::number(least_of(numbers)),
            None => Datum::number(1),
        },
        Format::Address => Datum::Bytes(b"\0\x01\xc0\0\x02\x01"),
        Format::Grouped => Datum::Bytes(b""),
    }
}

/// The first number of the ranges.
fn least_of(numbers: &[(u32, u32)]) -> u32 {
    match numbers.first() {
        Some(&(low, _)) => low,
        None => 0,
    }
}

/// The last number of the ranges.
fn greatest_of(numbers: &[(u32, u32)]) -> u32 {
    match numbers.last() {
        Some(&(_, high)) => high,
        None => 0,
    }
}

/// Further data that the format accepts.
pub(crate) fn further(alloc: Global, format: &Format) -> Result<Vec<Datum>, AllocError> {
    let mut all = Vec::new(alloc);
    for bytes in further_bytes(format) {
        all.push(Datum::Bytes(bytes))?;
    }
    if let Format::Enumerated(values) = format {
        all.push(Datum::number(match values.numbers() {
            Some(numbers) => greatest_of(numbers),
            None => i32::MAX as u32,
        }))?;
    }
    Ok(all)
}

fn further_bytes(format: &Format) -> &'static [&'static [u8]] {
    match format {
        Format::OctetString => &[b"", b"\xff"],
        Format::Utf8String => &[b"", b"\xc3\xa9", b"\xf0\x9f\x98\x80"],
        Format::DiameterIdentity => &[b"a"],
        Format::DiameterUri => &[b"aaas://a.example", b"aaa://a.example:3868;transport=tcp"],
        Format::Unsigned32 | Format::Time => &[b"\0\0\0\0", b"\xff\xff\xff\xff"],
        Format::Unsigned64 => &[b"\0\0\0\0\0\0\0\0", b"\xff\xff\xff\xff\xff\xff\xff\xff"],
        Format::Integer32 => &[
            b"\0\0\0\0",
            b"\xff\xff\xff\xff",
            b"\x80\0\0\0",
            b"\x7f\xff\xff\xff",
        ],
        Format::Integer64 => &[
            b"\0\0\0\0\0\0\0\0",
            b"\xff\xff\xff\xff\xff\xff\xff\xff",
            b"\x80\0\0\0\0\0\0\0",
            b"\x7f\xff\xff\xff\xff\xff\xff\xff",
        ],
        Format::Float32 => &[b"\0\0\0\0", b"\x7f\x80\0\0"],
        Format::Float64 => &[b"\0\0\0\0\0\0\0\0", b"\x7f\xf0\0\0\0\0\0\0"],
        Format::Address => &[
            b"\0\x02\x20\x01\x0d\xb8\0\0\0\0\0\0\0\0\0\0\0\x01",
            b"\0\x08\x31\x32\x33",
        ],
        Format::IpFilterRule | Format::QosFilterRule | Format::Enumerated(_) | Format::Grouped =>
            &[],
    }
}

/// Data that the format doesn't accept.
pub(crate) fn wrong(alloc: Global, format: &Format) -> Result<Vec<Datum>, AllocError> {
    let mut all = Vec::new(alloc);
    for bytes in wrong_bytes(format) {
        all.push(Datum::Bytes(bytes))?;
    }
    if let Format::Enumerated(values) = format {
        if let Some(number) = values.numbers().and_then(first_missing) {
            all.push(Datum::number(number))?;
        }
    }
    Ok(all)
}

fn wrong_bytes(format: &Format) -> &'static [&'static [u8]] {
    match format {
        Format::OctetString | Format::IpFilterRule | Format::QosFilterRule | Format::Grouped => &[],
        Format::Utf8String => &[b"\xff"],
        Format::DiameterIdentity => &[b"", b"a b"],
        Format::DiameterUri => &[b"http://a.example"],
        Format::Unsigned32
        | Format::Integer32
        | Format::Time
        | Format::Float32
        | Format::Enumerated(_) => &[b"", b"\0\0\x01"],
        Format::Unsigned64 | Format::Integer64 | Format::Float64 => &[b"", b"\0\0\0\x01"],
        Format::Address => &[b"", b"\0\x01\xc0\0\x02"],
    }
}

/// The least number from 0 on that no range holds, or -1 where the ranges hold all of these but not -1. The ranges are in order, and
/// neither overlap nor touch.
fn first_missing(numbers: &[(u32, u32)]) -> Option<u32> {
    let first = match numbers.first() {
        Some(&(0, high)) => high.checked_add(1)?,
        _ => 0,
    };
    if first <= i32::MAX as u32 {
        return Some(first);
    }
    match numbers.last() {
        Some(&(_, u32::MAX)) => Some(first),
        _ => Some(u32::MAX),
    }
}
