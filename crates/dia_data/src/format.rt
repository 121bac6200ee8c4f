//! The data formats.
use crate::values::Values;
use dia_terms::FormatName;
use std::alloc::AllocError;

/// How the data of an AVP is to be read (RFC 6733 sections 4.2 to 4.4, and QoSFilterRule of RFC 3588 section 4.3).
#[derive(Debug, Drop, PartialEq, Eq)]
pub enum Format {
    /// Any bytes.
    OctetString,
    /// A signed number of 4 bytes.
    Integer32,
    /// A signed number of 8 bytes.
    Integer64,
    /// An unsigned number of 4 bytes.
    Unsigned32,
    /// An unsigned number of 8 bytes.
    Unsigned64,
    /// 4 bytes, which are not read as a number.
    Float32,
    /// 8 bytes, which are not read as a number.
    Float64,
    /// AVPs, one after the other.
    Grouped,
    /// 2 bytes of address family, then the address: 4 bytes in family 1 (IPv4), 16 in family 2 (IPv6), any number in
    /// others (our profile).
    Address,
    /// Seconds since 1 January 1900, 0h UTC, an unsigned number of 4 bytes.
    Time,
    /// UTF-8 (RFC 3629), also empty.
    Utf8String,
    /// One or more graphic bytes of ASCII (our profile).
    DiameterIdentity,
    /// `aaa://` or `aaas://` in either letter case, and one or more bytes after it, all of them graphic ASCII (our
    /// profile).
    DiameterUri,
    /// A number of 4 bytes that is one of these.
    Enumerated(Values),
    /// Any bytes: the text of a rule isn't read (our profile).
    IpFilterRule,
    /// Any bytes: the text of a rule isn't read (our profile).
    QosFilterRule,
}

/// How 4 or 8 bytes are read.
#[derive(Clone, Copy, PartialEq, Eq)]
pub enum Reading {
    /// As a signed number.
    Signed,
    /// As an unsigned number.
    Unsigned,
    /// They are not read as a number.
    Bits,
}

/// Formats by what data they accept, and how it is read.
#[derive(Clone, Copy, PartialEq, Eq)]
pub enum FormatKind {
    /// Any bytes.
    AnyBytes,
    /// Any 4 bytes.
    FourBytes(Reading),
    /// Any 8 bytes.
    EightBytes(Reading),
    Grouped,
    Address,
    Utf8String,
    DiameterIdentity,
    DiameterUri,
    Enumerated,
}

/// A copy is the same format.
impl Clone for Format {
    ghost use Rattle.std.specs.Prelude.{◌≡◌};
    ghost use Rattle.dia_data.specs.Plain.{plain_format};

    ghost is_clone = { λ old new. plain_format new ≡ plain_format old };

    fn clone(&self) -> Result<Format, AllocError> {
        Ok(match self {
            Format::OctetString => Format::OctetString,
            Format::Integer32 => Format::Integer32,
            Format::Integer64 => Format::Integer64,
            Format::Unsigned32 => Format::Unsigned32,
            Format::Unsigned64 => Format::Unsigned64,
            Format::Float32 => Format::Float32,
            Format::Float64 => Format::Float64,
            Format::Grouped => Format::Grouped,
            Format::Address => Format::Address,
            Format::Time => Format::Time,
            Format::Utf8String => Format::Utf8String,
            Format::DiameterIdentity => Format::DiameterIdentity,
            Format::DiameterUri => Format::DiameterUri,
            Format::Enumerated(values) => Format::Enumerated(values.clone()?),
            Format::IpFilterRule => Format::IpFilterRule,
            Format::QosFilterRule => Format::QosFilterRule,
        })
    }
}

impl Format {
    ghost use Rattle.std.specs.Prelude.{◌≡◌, ◌≢◌, MatchOption};
    ghost use Rattle.dia_data.specs.Plain.{Enumerated, format_of, kind_of, name_of, plain_format, ranges_of, word_of};

    pub fn name(&self) -> FormatName
        ensures { result ≡ name_of (plain_format self.now) }
    {
        match self {
            Format::OctetString => FormatName::OctetString,
            Format::Integer32 => FormatName::Integer32,
            Format::Integer64 => FormatName::Integer64,
            Format::Unsigned32 => FormatName::Unsigned32,
            Format::Unsigned64 => FormatName::Unsigned64,
            Format::Float32 => FormatName::Float32,
            Format::Float64 => FormatName::Float64,
            Format::Grouped => FormatName::Grouped,
            Format::Address => FormatName::Address,
            Format::Time => FormatName::Time,
            Format::Utf8String => FormatName::Utf8String,
            Format::DiameterIdentity => FormatName::DiameterIdentity,
            Format::DiameterUri => FormatName::DiameterUri,
            Format::Enumerated(_) => FormatName::Enumerated,
            Format::IpFilterRule => FormatName::IpFilterRule,
            Format::QosFilterRule => FormatName::QosFilterRule,
        }
    }

    /// Its name, as dictionary texts have it.
    pub fn word(&self) -> &'static str
        ensures { result.now ≡ word_of (plain_format self.now) }
    {
        self.name().word()
    }

    pub fn kind(&self) -> FormatKind
        ensures { result ≡ kind_of (plain_format self.now) }
    {
        match self {
            Format::OctetString | Format::IpFilterRule | Format::QosFilterRule =>
                FormatKind::AnyBytes,
            Format::Integer32 => FormatKind::FourBytes(Reading::Signed),
            Format::Unsigned32 | Format::Time => FormatKind::FourBytes(Reading::Unsigned),
            Format::Float32 => FormatKind::FourBytes(Reading::Bits),
            Format::Integer64 => FormatKind::EightBytes(Reading::Signed),
            Format::Unsigned64 => FormatKind::EightBytes(Reading::Unsigned),
            Format::Float64 => FormatKind::EightBytes(Reading::Bits),
            Format::Grouped => FormatKind::Grouped,
            Format::Address => FormatKind::Address,
            Format::Utf8String => FormatKind::Utf8String,
            Format::DiameterIdentity => FormatKind::DiameterIdentity,
            Format::DiameterUri => FormatKind::DiameterUri,
            Format::Enumerated(_) => FormatKind::Enumerated,
        }
    }

    /// Its numbers, if it is Enumerated.
    pub fn values(&self) -> Option<&Values>
        ensures { MatchOption result (kind_of (plain_format self.now) ≢ FormatKind.Enumerated)
            (λ values. plain_format self.now ≡ Enumerated (ranges_of values.now)) }
    {
        match self {
            Format::Enumerated(values) => Some(values),
            _ => None,
        }
    }

    /// The format of a name, which has these numbers if it is Enumerated.
    pub fn named(name: FormatName, values: Values) -> Format
        ensures { plain_format result ≡ format_of name (ranges_of values) }
    {
        match name {
            FormatName::OctetString => Format::OctetString,
            FormatName::Integer32 => Format::Integer32,
            FormatName::Integer64 => Format::Integer64,
            FormatName::Unsigned32 => Format::Unsigned32,
            FormatName::Unsigned64 => Format::Unsigned64,
            FormatName::Float32 => Format::Float32,
            FormatName::Float64 => Format::Float64,
            FormatName::Grouped => Format::Grouped,
            FormatName::Address => Format::Address,
            FormatName::Time => Format::Time,
            FormatName::Utf8String => Format::Utf8String,
            FormatName::DiameterIdentity => Format::DiameterIdentity,
            FormatName::DiameterUri => Format::DiameterUri,
            FormatName::Enumerated => Format::Enumerated(values),
            FormatName::IpFilterRule => Format::IpFilterRule,
            FormatName::QosFilterRule => Format::QosFilterRule,
        }
    }
}
