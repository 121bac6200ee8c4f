//! IPv4 (RFC 791).

ghost use Rattle.std.specs.Prelude.{◌≡◌, ◌≤◌, length, Ok, Err, MatchResult};
ghost use Rattle.dia_segments.specs.Datagrams.{plain_datagram};
ghost use Rattle.dia_segments.specs.Ipv4.{fragment_of, ipv4, total_length};

use crate::datagrams::{Datagram, Fragment};
use crate::numbers::u16_at;
use crate::unread::Unread;

/// The bytes of a header without options.
const HEADER: usize = 20;

pub(crate) fn ipv4(bytes: &[u8], size: u32) -> Result<Datagram<'_>, Unread>
    ensures { MatchResult result (λ d. ipv4 bytes.entry.now size ≡ Ok (plain_datagram d))
        (λ why. ipv4 bytes.entry.now size ≡ Err why) }
{
    if bytes.len() < HEADER {
        return Err(Unread::Malformed);
    }
    let header = usize::from(bytes[0] % 16) * 4;
    let total = total_length(bytes, size) as usize;
    if header < HEADER || bytes.len() < header || total < header {
        return Err(Unread::Malformed);
    }
    let end = bytes.len().min(total);
    Ok(Datagram {
        source: &bytes[12..16],
        target: &bytes[16..20],
        protocol: bytes[9],
        fragment: fragment_of(bytes),
        bytes: &bytes[header..end],
        size: (total - header) as u32,
    })
}

/// How many bytes there were with the header.
fn total_length(bytes: &[u8], size: u32) -> u32
    requires { 20 ≤ length bytes.now }
    ensures { result ≡ total_length bytes.now size }
{
    let total = u16_at(bytes, 2);
    if total == 0 { size } else { u32::from(total) }
}

fn fragment_of(bytes: &[u8]) -> Option<Fragment>
    requires { 20 ≤ length bytes.now }
    ensures { result ≡ fragment_of bytes.now }
{
    let flags = u16_at(bytes, 6);
    if flags % 16384 == 0 {
        return None;
    }
    Some(Fragment {
        key: u32::from(u16_at(bytes, 4)),
        at: u32::from(flags % 8192) * 8,
        more: flags / 8192 % 2 == 1,
    })
}
