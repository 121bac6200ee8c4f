//! The header and the AVPs of a request.

ghost use Rattle.std.specs.Prelude.{◌≡◌, ◌<◌, ◌≤◌, ◌↔◌, IfOk, IfSome, None, length, map};
ghost use Rattle.dia_wire.specs.Lengths.{header_length, three_bytes};
ghost use Rattle.dia_wire.specs.Wire.{plain_avp};
ghost use Rattle.dia_answer.specs.Requests.{AreFront, AreRequestAvps, IsRequestHead};

use crate::held::Held;
use byteorder::{BigEndian, ByteOrder};
use dia_check::Reason;
use dia_wire::{HEADER_LENGTH, Header, next_avp};
use std::alloc::{AllocError, Global};

/// The header of these bytes as version 1 has it, whatever their version and Message Length are (RFC 6733 section 3). None of
/// fewer than 20 bytes.
pub(crate) fn header_of(bytes: &[u8]) -> Option<Header>
    ensures reads { IfSome result (λ header. IsRequestHead header bytes.now) }
    ensures fits { IfSome result (λ header. header.code < three_bytes) }
    ensures short { (result ≡ None) ↔ (length bytes.now < header_length) }
{
    if bytes.len() < HEADER_LENGTH {
        return None;
    }
    Some(Header {
        flags: bytes[4],
        code: BigEndian::read_u24(&bytes[5..]),
        app: BigEndian::read_u32(&bytes[8..]),
        hop: BigEndian::read_u32(&bytes[12..]),
        e2e: BigEndian::read_u32(&bytes[16..]),
    })
}

/// The AVPs of the body, up to a place where none begins; none where the message has no bounds.
pub(crate) fn avps_of(
    alloc: Global,
    reason: Reason,
    bytes: &[u8],
) -> Result<Vec<Held<'_>>, AllocError>
    requires { header_length ≤ length bytes.now }
    ensures avps { IfOk result
        (λ avps. AreRequestAvps reason (map (λ h. plain_avp h.avp) avps.items) bytes.now) }
{
    match reason {
        Reason::Version => Ok(Vec::new(alloc)),
        Reason::Length => Ok(Vec::new(alloc)),
        _ => front_of(alloc, &bytes[HEADER_LENGTH..]),
    }
}

/// The AVPs of a level, up to a place where none begins.
pub(crate) fn front_of(alloc: Global, level: &[u8]) -> Result<Vec<Held<'_>>, AllocError>
    ensures avps { IfOk result (λ avps. AreFront (map (λ h. plain_avp h.avp) avps.items) level.now) }
{
    let mut avps = Vec::new(alloc);
    let mut left = level;
    loop {
        match next_avp(left) {
            Ok(Some((avp, rest))) => {
                let held = Held::new(avp);
                avps.push(held)?;
                left = rest;
            }
            Ok(None) => return Ok(avps),
            Err(_) => return Ok(avps),
        }
    }
}
