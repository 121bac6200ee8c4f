//! Texts whose bytes are all of a kind.

ghost use Rattle.std.specs.Prelude.{◌≡◌};
ghost use Rattle.std.specs.List.{list_all};
ghost use Rattle.dia_show.specs.ByteKinds.{is_of};

/// A kind of bytes.
#[derive(Clone, Copy)]
pub(crate) enum ByteKind {
    /// A space or a tab.
    Blank,
    /// A letter, a digit or a dash.
    Name,
    Digit,
    /// Printing ASCII without the space.
    Graphic,
    /// Printing ASCII.
    Printing,
}

/// Whether each byte of a text is of a kind.
pub(crate) fn all_are(kind: ByteKind, text: &[u8]) -> bool
    ensures { result ≡ list_all (is_of kind) text.now }
{
    for byte in text {
        if !is_of(kind, *byte) {
            return false;
        }
    }
    true
}

fn is_of(kind: ByteKind, byte: u8) -> bool
    ensures { result ≡ is_of kind byte }
{
    match kind {
        ByteKind::Blank => byte == b' ' || byte == b'\t',
        ByteKind::Name => byte.is_ascii_alphanumeric() || byte == b'-',
        ByteKind::Digit => byte.is_ascii_digit(),
        ByteKind::Graphic => byte.is_ascii_graphic(),
        ByteKind::Printing => b' ' <= byte && byte <= b'~',
    }
}
