//! Which data a format accepts.
ghost use Rattle.std.specs.Prelude.{◌≡◌, ◌↔◌, All, IsTrue, if◌then◌else◌};
ghost use Rattle.dia_data.specs.Leaf.{IsLeafAnswer, IsAddress, IsGraphic, IsUri, NamesScheme};
ghost use Rattle.dia_data.specs.Plain.{kind_of, plain_format};

use crate::format::{Format, FormatKind};
use byteorder::{BigEndian, ByteOrder};
use std::str;

/// What a format says of data.
#[derive(Clone, Copy, PartialEq, Eq)]
pub enum Leaf {
    /// The format accepts the data.
    Fine,
    /// The format cannot have data of this length (result code 5014 of RFC 6733). An address of under 2 bytes, and one of
    /// a family whose length is fixed and of another length, counts as such.
    BadLength,
    /// The format can have data of this length, and does not accept this data (result code 5004 of RFC 6733).
    BadValue,
}

/// Whether the format accepts the data.
///
/// The data of a Grouped AVP is a level of AVPs, which is read elsewhere: its answer is always `Fine`.
// inlined into the loop over AVPs, where a call would put its values on the stack
#[inline(always)]
pub fn accepts(format: &Format, bytes: &[u8]) -> Leaf
    ensures { IsLeafAnswer result (plain_format format.now) bytes.now }
{
    match format.kind() {
        FormatKind::AnyBytes | FormatKind::Grouped => Leaf::Fine,
        FormatKind::FourBytes(_) => by_length(bytes.len() == 4),
        FormatKind::EightBytes(_) => by_length(bytes.len() == 8),
        FormatKind::Address => by_length(is_address(bytes)),
        FormatKind::Utf8String => by_value(str::from_utf8(bytes).is_ok()),
        FormatKind::DiameterIdentity => by_value(!bytes.is_empty() && is_graphic(bytes)),
        FormatKind::DiameterUri => by_value(is_uri(bytes)),
        FormatKind::Enumerated => listed(format, bytes),
    }
}

/// Whether an Enumerated format accepts the data.
fn listed(format: &Format, bytes: &[u8]) -> Leaf
    requires { kind_of (plain_format format.now) ≡ FormatKind.Enumerated }
    ensures { IsLeafAnswer result (plain_format format.now) bytes.now }
{
    match format.values() {
        Some(values) if bytes.len() == 4 => by_value(values.contains(BigEndian::read_u32(bytes))),
        _ => Leaf::BadLength,
    }
}

fn by_length(fits: bool) -> Leaf
    ensures { result ≡ (if fits then Leaf.Fine else Leaf.BadLength) }
{
    if fits { Leaf::Fine } else { Leaf::BadLength }
}

pub(crate) fn by_value(accepted: bool) -> Leaf
    ensures { result ≡ (if accepted then Leaf.Fine else Leaf.BadValue) }
{
    if accepted { Leaf::Fine } else { Leaf::BadValue }
}

fn is_address(bytes: &[u8]) -> bool
    ensures { IsTrue result ↔ IsAddress bytes.now }
{
    if bytes.len() < 2 {
        return false;
    }
    let family = BigEndian::read_u16(bytes);
    if family == 1 {
        bytes.len() == 6
    } else if family == 2 {
        bytes.len() == 18
    } else {
        true
    }
}

pub(crate) fn is_graphic(bytes: &[u8]) -> bool
    ensures { IsTrue result ↔ All IsGraphic bytes.now }
{
    bytes.iter().all(|byte| byte.is_ascii_graphic())
}

fn is_uri(bytes: &[u8]) -> bool
    ensures { IsTrue result ↔ IsUri bytes.now }
{
    (names_scheme(bytes, b"aaa://") || names_scheme(bytes, b"aaas://")) && is_graphic(bytes)
}

/// Whether the data begins with the scheme, in either letter case, and goes on after it.
fn names_scheme(bytes: &[u8], scheme: &[u8]) -> bool
    ensures { IsTrue result ↔ NamesScheme scheme.now bytes.now }
{
    bytes.len() > scheme.len() && bytes[..scheme.len()].eq_ignore_ascii_case(scheme)
}
