//! White space.
ghost use Rattle.std.specs.Prelude.{◌≡◌};
ghost use Rattle.dia_terms.specs.Texts.{is_white};

/// Whether a byte is white space: a space, a tab, a carriage return or a line feed.
pub fn is_white(byte: u8) -> bool
    ensures { result ≡ is_white byte }
{
    byte == b' ' || byte == b'\t' || byte == b'\r' || byte == b'\n'
}
