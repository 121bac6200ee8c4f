//! The data formats by their names.

ghost use Rattle.std.specs.Prelude.{◌≡◌, ◌∷◌, codes, map};
ghost use Rattle.dia_terms.specs.Formats.{format_named, format_word, format_words};
ghost use Rattle.dia_terms.specs.Names.{same_bytes};

/// The formats by their names (RFC 6733 sections 4.2 and 4.3, and QoSFilterRule of RFC 3588 section 4.3).
#[derive(Clone, Copy, PartialEq, Eq)]
pub enum FormatName {
    OctetString,
    Integer32,
    Integer64,
    Unsigned32,
    Unsigned64,
    Float32,
    Float64,
    Grouped,
    Address,
    Time,
    Utf8String,
    DiameterIdentity,
    DiameterUri,
    Enumerated,
    IpFilterRule,
    QosFilterRule,
}

const FORMATS: [FormatName; 16] = [
    FormatName::OctetString,
    FormatName::Integer32,
    FormatName::Integer64,
    FormatName::Unsigned32,
    FormatName::Unsigned64,
    FormatName::Float32,
    FormatName::Float64,
    FormatName::Grouped,
    FormatName::Address,
    FormatName::Time,
    FormatName::Utf8String,
    FormatName::DiameterIdentity,
    FormatName::DiameterUri,
    FormatName::Enumerated,
    FormatName::IpFilterRule,
    FormatName::QosFilterRule,
];

/// What may follow the code of an AVP in its declaration: `vendor`, or the name of a format.
static VENDOR_OR_FORMATS: [&str; 17] = [
    "vendor",
    "OctetString",
    "Integer32",
    "Integer64",
    "Unsigned32",
    "Unsigned64",
    "Float32",
    "Float64",
    "Grouped",
    "Address",
    "Time",
    "UTF8String",
    "DiameterIdentity",
    "DiameterURI",
    "Enumerated",
    "IPFilterRule",
    "QoSFilterRule",
];

/// `vendor`, and the names of all formats.
pub fn vendor_or_format_words() -> &'static [&'static str]
    ensures { map (λ item. item.now) result.now ≡ codes "vendor" ∷ format_words }
{
    VENDOR_OR_FORMATS.as_slice()
}

/// The names of all formats.
pub fn format_words() -> &'static [&'static str]
    ensures { map (λ item. item.now) result.now ≡ format_words }
{
    &VENDOR_OR_FORMATS[1..]
}

impl FormatName {
    /// The format that the word names.
    pub fn named(word: &str) -> Option<FormatName>
        ensures { result ≡ format_named word.now }
    {
        FORMATS.iter().copied().find(|format| format.is_named(word))
    }

    fn is_named(self, word: &str) -> bool
        ensures { result ≡ same_bytes word.now (format_word self) }
    {
        word == self.word()
    }

    /// The name, as dictionary texts have it.
    pub fn word(self) -> &'static str
        ensures { result.now ≡ format_word self }
    {
        match self {
            FormatName::OctetString => "OctetString",
            FormatName::Integer32 => "Integer32",
            FormatName::Integer64 => "Integer64",
            FormatName::Unsigned32 => "Unsigned32",
            FormatName::Unsigned64 => "Unsigned64",
            FormatName::Float32 => "Float32",
            FormatName::Float64 => "Float64",
            FormatName::Grouped => "Grouped",
            FormatName::Address => "Address",
            FormatName::Time => "Time",
            FormatName::Utf8String => "UTF8String",
            FormatName::DiameterIdentity => "DiameterIdentity",
            FormatName::DiameterUri => "DiameterURI",
            FormatName::Enumerated => "Enumerated",
            FormatName::IpFilterRule => "IPFilterRule",
            FormatName::QosFilterRule => "QoSFilterRule",
        }
    }
}
