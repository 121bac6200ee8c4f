//! Which format accepts all that another accepts.
ghost use Rattle.std.specs.Prelude.{◌↔◌, IsTrue};
ghost use Rattle.dia_data.specs.Below.{FormatBelow, IsDataIncluded};
ghost use Rattle.dia_data.specs.Plain.{PlainFormat, plain_format};

use crate::format::Format;

/// Whether each value of the first format is one of the second, as their definitions say (our profile). More than
/// inclusion of data is asked: Time is not below Unsigned32, though their data are the same.
///
/// Every format is below OctetString, Grouped too. Otherwise a format is below itself, Grouped excepted,
/// DiameterIdentity and DiameterUri are below UTF8String, and Enumerated is below Integer32. One Enumerated format is
/// below another that has no list; or both have one, and the ranges of the second hold each number of the first. The sets
/// of numbers are compared, however their ranges are cut, by one walk over both lists.
pub fn format_below(f: &Format, g: &Format) -> bool
    ensures { IsTrue result ↔ FormatBelow (plain_format f.now) (plain_format g.now) }
{
    match (f, g) {
        (_, Format::OctetString)
        | (Format::Enumerated(_), Format::Integer32)
        | (Format::DiameterIdentity | Format::DiameterUri, Format::Utf8String) => true,
        (Format::Enumerated(f), Format::Enumerated(g)) => f.is_below(g),
        (Format::Grouped, _) => false,
        _ => f == g,
    }
}

/// What `format_below` finds holds of the data: each leaf of the first format is one of the second, or the first is
/// Grouped and the second is OctetString.
pub fn inclusion()
    ensures { (f g : PlainFormat) → FormatBelow f g → IsDataIncluded f g }
{}
