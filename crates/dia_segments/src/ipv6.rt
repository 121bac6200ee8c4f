//! IPv6 (RFC 8200).

ghost use Rattle.std.specs.Prelude.{◌≡◌, ◌≤◌, length, Ok, Err, MatchResult};
ghost use Rattle.dia_segments.specs.Datagrams.{plain_datagram};
ghost use Rattle.dia_segments.specs.Ipv6.{fragment_of, ipv6, payload_of, plain_payload, with_addresses};

use crate::datagrams::{Datagram, Fragment};
use crate::extensions::{Payload, pass_extensions};
use crate::numbers::{u16_at, u32_at};
use crate::unread::Unread;

/// The bytes of a header without extension headers.
const HEADER: usize = 40;

/// The protocol number of the Fragment header.
const FRAGMENT: u8 = 44;

/// The bytes of the Fragment header.
const FRAGMENT_HEADER: usize = 8;

pub(crate) fn ipv6(bytes: &[u8], size: u32) -> Result<Datagram<'_>, Unread>
    ensures { MatchResult result (λ d. ipv6 bytes.entry.now size ≡ Ok (plain_datagram d))
        (λ why. ipv6 bytes.entry.now size ≡ Err why) }
{
    if bytes.len() < HEADER {
        return Err(Unread::Malformed);
    }
    let payload = pass_extensions(payload_of(bytes, size))?;
    with_addresses(&bytes[8..24], &bytes[24..40], payload)
}

/// What follows the header without extension headers.
fn payload_of(bytes: &[u8], size: u32) -> Payload<'_>
    requires { 40 ≤ length bytes.now }
    ensures { plain_payload result ≡ payload_of bytes.entry.now size }
{
    let length = u16_at(bytes, 4);
    let size = if length == 0 {
        size.saturating_sub(HEADER as u32)
    } else {
        u32::from(length)
    };
    let end = bytes.len().min(HEADER + size as usize);
    Payload {
        protocol: bytes[6],
        bytes: &bytes[HEADER..end],
        size,
    }
}

/// The datagram or the fragment with these addresses.
fn with_addresses<'b>(
    source: &'b [u8],
    target: &'b [u8],
    payload: Payload<'b>,
) -> Result<Datagram<'b>, Unread>
    ensures { MatchResult result
        (λ d. with_addresses source.entry.now target.entry.now (plain_payload payload.entry) ≡ Ok (plain_datagram d))
        (λ why. with_addresses source.entry.now target.entry.now (plain_payload payload.entry) ≡ Err why) }
{
    if payload.protocol != FRAGMENT {
        return Ok(Datagram {
            source,
            target,
            protocol: payload.protocol,
            fragment: None,
            bytes: payload.bytes,
            size: payload.size,
        });
    }
    if payload.bytes.len() < FRAGMENT_HEADER || payload.size < FRAGMENT_HEADER as u32 {
        return Err(Unread::Malformed);
    }
    Ok(Datagram {
        source,
        target,
        protocol: payload.bytes[0],
        fragment: Some(fragment_of(payload.bytes)),
        bytes: &payload.bytes[FRAGMENT_HEADER..],
        size: payload.size - FRAGMENT_HEADER as u32,
    })
}

fn fragment_of(bytes: &[u8]) -> Fragment
    requires { 8 ≤ length bytes.now }
    ensures { result ≡ fragment_of bytes.now }
{
    let offset = u16_at(bytes, 2);
    Fragment {
        key: u32_at(bytes, 4),
        at: u32::from(offset / 8) * 8,
        more: offset % 2 == 1,
    }
}
