//! The extension headers of IPv6 (RFC 8200 section 4).

ghost use Rattle.std.specs.Prelude.{◌≡◌, ◌≤◌, length, Ok, Err, IfSome, MatchResult};
ghost use Rattle.dia_segments.specs.Ipv6.{extended, extension_length, plain_payload};

use crate::unread::Unread;

/// The bytes of a protocol.
#[derive(Clone, Copy)]
pub struct Payload<'b> {
    pub protocol: u8,
    /// The bytes that were captured.
    pub bytes: &'b [u8],
    /// How many bytes there were.
    pub size: u32,
}

/// What follows the extension headers.
pub(crate) fn pass_extensions(payload: Payload<'_>) -> Result<Payload<'_>, Unread>
    ensures { MatchResult result
        (λ rest. extended (length payload.entry.bytes.now) (plain_payload payload.entry) ≡ Ok (plain_payload rest))
        (λ why. extended (length payload.entry.bytes.now) (plain_payload payload.entry) ≡ Err why) }
{
    let mut rest = payload;
    while let Some(length) = extension_length(&rest) {
        if rest.bytes.len() < length || (rest.size as usize) < length {
            return Err(Unread::Malformed);
        }
        rest = Payload {
            protocol: rest.bytes[0],
            bytes: &rest.bytes[length..],
            size: rest.size - length as u32,
        };
    }
    Ok(rest)
}

/// How many bytes the extension header at the front has.
fn extension_length(payload: &Payload<'_>) -> Option<usize>
    ensures length { result ≡ extension_length (plain_payload payload.now) }
    ensures some { IfSome result (λ length. 8 ≤ length) }
{
    let units = match payload.bytes {
        [_, units, ..] => usize::from(*units),
        _ => 0,
    };
    match payload.protocol {
        0 | 43 | 60 | 135 => Some((units + 1) * 8),
        51 => Some((units + 2) * 4),
        _ => None,
    }
}
