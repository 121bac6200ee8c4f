//! The hexadecimal digits of a message's text.

ghost use Rattle.std.specs.Prelude.{◌≡◌, ◌*◌, ◌≤◌, None, IfSome, length};
ghost use Rattle.dia_explain_places.specs.Places.{IsAtByte, digits_before};

use crate::runs::{Kind, count_of};
use dia_terms::is_white;

/// How many bytes of a text aren't white space.
pub fn count_digits(text: &[u8]) -> usize
    ensures { result ≡ digits_before text.now (length text.now) }
{
    count_of(text, Kind::Digit)
}

/// The place in the text of the first digit of a byte.
pub fn place_of_byte(text: &[u8], byte: usize) -> Option<usize>
    ensures found { IfSome result (λ at. IsAtByte text.now byte at) }
    ensures missing { result ≡ None → digits_before text.now (length text.now) ≤ byte * 2 }
{
    let mut seen = 0usize;
    for (at, digit) in text.iter().enumerate() {
        if is_white(*digit) {
            continue;
        }
        if seen / 2 == byte {
            return Some(at);
        }
        seen = seen.saturating_add(1);
    }
    None
}
