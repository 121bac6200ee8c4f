//! Bytes that begin like a message, or like a record of TLS.

ghost use Rattle.std.specs.Prelude.{◌≡◌, ◌≤◌, ◌↔◌, ℕ, length, take, IfSome, IfNone, IsTrue};
ghost use Rattle.dia_reading.specs.Messages.{AreAvps, AreCommandFlags, BeginsAvp, BeginsLike};
ghost use Rattle.dia_reading.specs.Messages.{IsLikely, IsSound, IsTls};

use dia_wire::{
    AVP_HEAD_LENGTH, COMMAND_ERROR, COMMAND_REQUEST, HEADER_LENGTH, avp_head, next_avp, read_header,
};

/// The least Message Length of a message that is searched for: a header and an AVP without data.
const LEAST_LENGTH: usize = 28;

/// The greatest one: `01` at the front of an AVP Code isn't the version of a message this short, with the AVP Flags behind it.
const MOST_LENGTH: usize = 65_532;

/// Whether the bytes begin like a message: with a header, and with the header of an AVP that fits it.
pub fn is_likely(bytes: &[u8]) -> bool
    ensures { IsTrue result ↔ IsLikely bytes.now }
{
    likely_length(bytes).is_some()
}

/// The length of the sound message at the front: it is all there, with AVPs up to its end.
pub fn sound_length(bytes: &[u8]) -> Option<usize>
    ensures sound { IfSome result (λ n. IsSound (take n bytes.now)) }
    ensures within { IfSome result (λ n. n ≤ length bytes.now) }
    ensures none { IfNone result ((n : ℕ) → ¬ IsSound (take n bytes.now)) }
{
    let length = likely_length(bytes)?;
    if length <= bytes.len() && are_avps(&bytes[HEADER_LENGTH..length]) {
        Some(length)
    } else {
        None
    }
}

/// Whether the bytes begin like a record of TLS (RFC 8446 section 5.1): its type and its version.
pub fn is_tls(bytes: &[u8]) -> bool
    ensures { IsTrue result ↔ IsTls bytes.now }
{
    bytes.len() >= 3 && bytes[0] >= 20 && bytes[0] <= 23 && bytes[1] == 3 && bytes[2] <= 4
}

/// The Message Length of the message that the bytes begin like.
fn likely_length(bytes: &[u8]) -> Option<usize>
    ensures some { IfSome result (λ n. BeginsLike bytes.now n) }
    ensures none { IfNone result ((n : ℕ) → ¬ BeginsLike bytes.now n) }
{
    let Ok((header, length)) = read_header(bytes) else {
        return None;
    };
    let length = length as usize;
    if length < LEAST_LENGTH || length > MOST_LENGTH || !are_command_flags(header.flags) {
        return None;
    }
    if begins_avp(&bytes[HEADER_LENGTH..], length - HEADER_LENGTH) {
        Some(length)
    } else {
        None
    }
}

/// Whether no reserved bit of the Command Flags is set, and not both R and E.
fn are_command_flags(flags: u8) -> bool
    ensures { IsTrue result ↔ AreCommandFlags flags }
{
    flags % 16 == 0 && (flags & COMMAND_REQUEST == 0 || flags & COMMAND_ERROR == 0)
}

/// Whether the bytes begin with the flags and the length of an AVP that has room.
fn begins_avp(bytes: &[u8], room: usize) -> bool
    ensures { IsTrue result ↔ BeginsAvp bytes.now room }
{
    bytes.len() >= AVP_HEAD_LENGTH && avp_head(bytes, room).is_ok()
}

/// Whether the bytes are AVPs up to their end.
fn are_avps(level: &[u8]) -> bool
    ensures { IsTrue result ↔ AreAvps level.now }
{
    let mut rest = level;
    loop {
        match next_avp(rest) {
            Ok(Some((_avp, following))) => rest = following,
            Ok(None) => return true,
            Err(_fault) => return false,
        }
    }
}
