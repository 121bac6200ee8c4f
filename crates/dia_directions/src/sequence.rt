//! Sequence numbers, which have 32 bits: 0 follows the last one (RFC 9293 section 3.4).

ghost use Rattle.std.specs.Prelude.{◌≡◌, ◌<◌, ◌^◌, Some, None, IfSome, IfNone};
ghost use Rattle.dia_segments.specs.Segments.{plain_segment};
ghost use Rattle.dia_directions.specs.Bytes.{part_bytes};
ghost use Rattle.dia_directions.specs.Order.{ahead, first_number, placed};

use crate::piece::Part;
use dia_segments::Segment;

/// How many bytes a segment that is taken may be ahead of the next byte, or behind it.
pub const WINDOW: u32 = 4_194_304;

/// The sequence number of the first byte of a segment: a SYN counts as one.
pub(crate) fn number_of(segment: &Segment<'_>) -> u32
    ensures { result ≡ first_number (plain_segment segment.now) }
{
    if segment.syn {
        segment.number.wrapping_add(1)
    } else {
        segment.number
    }
}

/// How far a sequence number is ahead of the next byte.
pub(crate) fn ahead_of(next: u32, number: u32) -> u32
    ensures { result ≡ ahead next number }
{
    number.wrapping_sub(next)
}

/// The bytes of a segment that weren't read, with the sequence number of the first one; `None` if it is too far.
pub(crate) fn unread_of(next: u32, number: u32, part: Part<'_>) -> Option<(u32, Part<'_>)>
    ensures near { IfSome result (λ found. placed next number (part_bytes part.entry)
        ≡ Some (record { place = ahead next found.0; bytes = part_bytes found.1 })) }
    ensures fits { IfSome result (λ found. found.0 < 2 ^ 32) }
    ensures far { IfNone result (placed next number (part_bytes part.entry) ≡ None) }
{
    if ahead_of(next, number) <= WINDOW {
        return Some((number, part));
    }
    let behind = next.wrapping_sub(number);
    if behind <= WINDOW {
        return Some((next, part.after(u64::from(behind))));
    }
    None
}
