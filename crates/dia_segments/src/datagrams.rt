//! IP datagrams.

ghost use Rattle.std.specs.Prelude.{◌≡◌, Ok, Err, MatchResult};
ghost use Rattle.dia_segments.specs.Datagrams.{datagram, plain_datagram};

use crate::ipv4::ipv4;
use crate::ipv6::ipv6;
use crate::unread::Unread;

/// An IP datagram, or a fragment of one.
#[derive(Clone, Copy)]
pub struct Datagram<'b> {
    /// The source address, of 4 bytes or of 16.
    pub source: &'b [u8],
    pub target: &'b [u8],
    /// The protocol of what the bytes are.
    pub protocol: u8,
    /// `None` for a whole datagram.
    pub fragment: Option<Fragment>,
    /// The bytes after the headers that were captured.
    pub bytes: &'b [u8],
    /// How many bytes there were after the headers.
    pub size: u32,
}

/// Which fragment of a datagram it is.
#[derive(Clone, Copy, Debug, PartialEq, Eq)]
pub struct Fragment {
    /// The identification of the datagram.
    pub key: u32,
    /// Where its bytes are in those of the datagram.
    pub at: u32,
    /// Whether others are behind it.
    pub more: bool,
}

/// The datagram that the bytes are, of which there were so many.
pub fn datagram_of(bytes: &[u8], size: u32) -> Result<Datagram<'_>, Unread>
    ensures { MatchResult result (λ d. datagram bytes.entry.now size ≡ Ok (plain_datagram d))
        (λ why. datagram bytes.entry.now size ≡ Err why) }
{
    if bytes.is_empty() {
        return Err(Unread::Malformed);
    }
    match bytes[0] / 16 {
        4 => ipv4(bytes, size),
        6 => ipv6(bytes, size),
        _ => Err(Unread::Malformed),
    }
}
