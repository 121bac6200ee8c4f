//! TCP segments (RFC 9293 section 3.1).

ghost use Rattle.std.specs.Prelude.{◌≡◌, Ok, Err, MatchResult};
ghost use Rattle.dia_segments.specs.Datagrams.{plain_datagram};
ghost use Rattle.dia_segments.specs.Segments.{plain_segment, segment, segment_of};

use crate::datagrams::{Datagram, datagram_of};
use crate::link::network_of;
use crate::numbers::{u16_at, u32_at};
use crate::unread::Unread;

/// The protocol number of TCP.
const TCP: u8 = 6;

/// The bytes of a header without options.
const HEADER: usize = 20;

/// An end of a connection.
#[derive(Clone, Copy)]
pub struct End<'b> {
    /// The address, of 4 bytes or of 16.
    pub address: &'b [u8],
    pub port: u16,
}

/// A TCP segment.
#[derive(Clone, Copy)]
pub struct Segment<'b> {
    pub source: End<'b>,
    pub target: End<'b>,
    /// The sequence number.
    pub number: u32,
    /// Whether the SYN flag is set.
    pub syn: bool,
    /// Whether the ACK flag is set.
    pub ack: bool,
    /// The bytes that were captured.
    pub bytes: &'b [u8],
    /// How many bytes there were.
    pub size: u32,
}

/// The segment in a packet of this link type, which had so many bytes.
pub fn segment_of(link: u16, bytes: &[u8], size: u32) -> Result<Segment<'_>, Unread>
    ensures { MatchResult result (λ s. segment_of link bytes.entry.now size ≡ Ok (plain_segment s))
        (λ why. segment_of link bytes.entry.now size ≡ Err why) }
{
    let network = network_of(link, bytes)?;
    let before = bytes.len().saturating_sub(network.len());
    let size = (size as usize).saturating_sub(before) as u32;
    segment_in(datagram_of(network, size)?)
}

/// The segment that a datagram is.
pub fn segment_in(datagram: Datagram<'_>) -> Result<Segment<'_>, Unread>
    ensures { MatchResult result (λ s. segment (plain_datagram datagram.entry) ≡ Ok (plain_segment s))
        (λ why. segment (plain_datagram datagram.entry) ≡ Err why) }
{
    if datagram.protocol != TCP {
        return Err(Unread::Protocol(datagram.protocol));
    }
    if datagram.fragment.is_some() {
        return Err(Unread::Fragment);
    }
    let bytes = datagram.bytes;
    if bytes.len() < HEADER {
        return Err(Unread::Malformed);
    }
    let start = usize::from(bytes[12] / 16) * 4;
    if start < HEADER || (datagram.size as usize) < start {
        return Err(Unread::Malformed);
    }
    Ok(Segment {
        source: End {
            address: datagram.source,
            port: u16_at(bytes, 0),
        },
        target: End {
            address: datagram.target,
            port: u16_at(bytes, 2),
        },
        number: u32_at(bytes, 4),
        syn: bytes[13] / 2 % 2 == 1,
        ack: bytes[13] / 16 % 2 == 1,
        bytes: &bytes[start.min(bytes.len())..],
        size: datagram.size - start as u32,
    })
}
