//! Kinds of bytes, and how many of a kind are in a text or at its start.

ghost use Rattle.std.specs.Prelude.{◌≡◌, ◌≤◌, count_by, length};
ghost use Rattle.std.specs.List.{prefix_len};
ghost use Rattle.dia_explain_places.specs.Kinds.{is_of};

use dia_terms::is_white;

/// A kind of bytes.
#[derive(Clone, Copy)]
pub(crate) enum Kind {
    /// A line feed.
    Feed,
    /// No line feed.
    Line,
    /// Neither a line feed nor a carriage return.
    Shown,
    /// No white space.
    Digit,
    /// The first byte of a character of UTF-8.
    First,
    /// A byte of UTF-8 that continues a character.
    Inner,
}

impl Kind {
    fn has(self, byte: u8) -> bool
        ensures { result ≡ is_of self byte }
    {
        match self {
            Kind::Feed => byte == b'\n',
            Kind::Line => byte != b'\n',
            Kind::Shown => byte != b'\n' && byte != b'\r',
            Kind::Digit => !is_white(byte),
            Kind::First => !(0x80 <= byte && byte < 0xc0),
            Kind::Inner => 0x80 <= byte && byte < 0xc0,
        }
    }
}

/// How many of the first bytes are of a kind.
pub(crate) fn run_length(bytes: &[u8], kind: Kind) -> usize
    ensures count { result ≡ prefix_len (is_of kind) bytes.now }
    ensures within { result ≤ length bytes.now }
{
    bytes.iter().take_while(|byte| kind.has(**byte)).count()
}

/// How many bytes are of a kind.
pub(crate) fn count_of(bytes: &[u8], kind: Kind) -> usize
    ensures { result ≡ count_by (is_of kind) bytes.now }
{
    bytes.iter().filter(|byte| kind.has(**byte)).count()
}
