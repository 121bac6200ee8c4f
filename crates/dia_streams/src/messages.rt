//! Where messages end that are back to back.

ghost use Rattle.std.specs.Prelude.{◌≡◌, ◌++◌, ◌↔◌, take, IfSome, IsNone, IsTrue};
ghost use Rattle.dia_streams.specs.Streams.{IsEndless, IsMessage};
ghost use Rattle.dia_streams.specs.StreamUnderWay.{BeginsNone};

use dia_wire::{HEADER_LENGTH, read_header};

/// The message that the bytes begin with, and what follows it. `None` where it isn't whole, or no message begins so.
pub fn first_message(bytes: &[u8]) -> Option<(&[u8], &[u8])>
    ensures parts { IfSome result (λ parts. bytes.entry.now ≡ parts.0.now ++ parts.1.now) }
    ensures message { IfSome result (λ parts. IsMessage parts.0.now) }
    ensures none { IsNone result → BeginsNone bytes.entry.now }
{
    let Ok((_header, length)) = read_header(bytes) else {
        return None;
    };
    let length = length as usize;
    if bytes.len() < length {
        return None;
    }
    Some((&bytes[..length], &bytes[length..]))
}

/// The header at the front, if no message begins with it: its version or its Message Length is at fault.
pub fn bad_header(bytes: &[u8]) -> Option<&[u8]>
    ensures bad { IfSome result (λ header. IsEndless bytes.entry.now) }
    ensures header { IfSome result (λ header. header.now ≡ take 20 bytes.entry.now) }
    ensures none { IsNone result → ¬ IsEndless bytes.entry.now }
{
    if is_endless(bytes) {
        Some(&bytes[..HEADER_LENGTH])
    } else {
        None
    }
}

/// Whether no message begins with the header at the front.
fn is_endless(bytes: &[u8]) -> bool
    ensures { IsTrue result ↔ IsEndless bytes.now }
{
    bytes.len() >= HEADER_LENGTH && read_header(bytes).is_err()
}
