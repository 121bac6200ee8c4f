//! The first line of a text.

ghost use Rattle.std.specs.Prelude.{◌≡◌, ◌++◌, ◌∷◌, IfSome, IsNone};
ghost use Rattle.dia_streams.specs.Lines.{IsLine, line_feed};

use memchr::memchr;

/// The first line of a text, without its line feed, and what follows it. `None` where there is no line feed.
pub fn split_line(text: &[u8]) -> Option<(&[u8], &[u8])>
    ensures some { IfSome result
        (λ parts. text.entry.now ≡ parts.0.now ++ line_feed ∷ parts.1.now) }
    ensures line { IfSome result (λ parts. IsLine parts.0.now) }
    ensures none { IsNone result → IsLine text.entry.now }
{
    let at = memchr(b'\n', text)?;
    Some((&text[..at], &text[at + 1..]))
}
