//! Formats by the data that they accept.
ghost use Rattle.std.specs.Prelude.{◌≡◌};
ghost use Rattle.dia_data.specs.Plain.{Enumerated, plain_format, ranges_of};
ghost use Rattle.dia_breaking_data.specs.Kinds.{IsApart, IsKindOf, shown};
ghost use Rattle.dia_breaking_data.specs.TheData.{kind_data, the_data};

use dia_data::{Format, FormatKind, Values};

/// What data a format accepts.
#[derive(Clone, Copy)]
pub(crate) enum Kind<'a> {
    /// Any bytes.
    Octets,
    /// Any 4 bytes.
    Four,
    /// Any 8 bytes.
    Eight,
    /// AVPs, and no leaf.
    Level,
    /// An address.
    Host,
    /// UTF-8.
    Text,
    /// A DiameterIdentity.
    Identity,
    /// A DiameterURI.
    Link,
    /// 4 bytes, which are a number of these ranges. They are in order, and neither overlap nor touch.
    Listed(&'a [(u32, u32)]),
}

/// What data the format accepts.
pub(crate) fn kind_of(format: &Format) -> Kind<'_>
    ensures same { IsKindOf (shown result) (plain_format format.now) }
    ensures apart { IsApart (shown result) }
    ensures least { kind_data (shown result) ≡ the_data (plain_format format.now) }
{
    match format.kind() {
        FormatKind::AnyBytes => Kind::Octets,
        FormatKind::FourBytes(_) => Kind::Four,
        FormatKind::EightBytes(_) => Kind::Eight,
        FormatKind::Grouped => Kind::Level,
        FormatKind::Address => Kind::Host,
        FormatKind::Utf8String => Kind::Text,
        FormatKind::DiameterIdentity => Kind::Identity,
        FormatKind::DiameterUri => Kind::Link,
        FormatKind::Enumerated => match format.values() {
            Some(values) => kind_of_values(values),
            None => Kind::Four,
        },
    }
}

/// What data an Enumerated format of these numbers accepts.
fn kind_of_values(values: &Values) -> Kind<'_>
    ensures same { IsKindOf (shown result) (Enumerated (ranges_of values.now)) }
    ensures apart { IsApart (shown result) }
    ensures least { kind_data (shown result) ≡ the_data (Enumerated (ranges_of values.now)) }
{
    match values.numbers() {
        Some(numbers) => Kind::Listed(numbers),
        None => Kind::Four,
    }
}
