//! How the data of each format are replaced.

ghost use Rattle.std.specs.Prelude.{◌≡◌};
ghost use Rattle.dia_data.specs.Plain.{plain_format};

use dia_data::Format;

/// How the data of a format are replaced.
#[derive(Clone, Copy)]
pub(crate) enum Way {
    /// As text; where the format doesn't accept the data, by so many of this byte, which it doesn't accept either.
    Text(u8),
    /// As the text of a rule.
    Rule,
    Address,
    Bytes,
    /// Not at all: the members of a group, and a listed number.
    Left,
}

impl Way {
    ghost use Rattle.dia_mask.specs.Replaced.{way};

    pub(crate) fn of(format: &Format) -> Way
        ensures { result ≡ way (plain_format format.now) }
    {
        match format {
            Format::Utf8String => Way::Text(0xff),
            Format::DiameterIdentity => Way::Text(b' '),
            Format::DiameterUri => Way::Text(b'x'),
            Format::IpFilterRule | Format::QosFilterRule => Way::Rule,
            Format::Address => Way::Address,
            Format::Grouped => Way::Left,
            Format::Enumerated(values) => {
                let listed = values.list().is_some();
                if listed { Way::Left } else { Way::Bytes }
            }
            _ => Way::Bytes,
        }
    }
}
