//! Lengths of AVPs in bytes. All from `TOO_LONG` on count as equal.
ghost use Rattle.std.specs.Prelude.{◌≡◌, ◌+◌};
ghost use Rattle.dia_breaking_levels.specs.LevelTests.{capped, many};
ghost use Rattle.dia_breaking_shortest.specs.Floors.{padded, shortest_head};

use dia_book::Key;
use dia_breaking_levels::TOO_LONG;
use dia_wire::{AVP_HEAD_LENGTH, VENDOR_AVP_HEAD_LENGTH};

/// How long the head of a shortest AVP of the key is (RFC 6733 section 4.1): one of vendor 0 needs no Vendor-ID.
pub fn shortest_head(key: Key) -> u64
    ensures { result ≡ shortest_head key }
{
    if key.vendor == 0 {
        AVP_HEAD_LENGTH as u64
    } else {
        VENDOR_AVP_HEAD_LENGTH as u64
    }
}

pub(crate) fn capped(length: u64) -> u64
    ensures { result ≡ capped length }
{
    length.min(TOO_LONG)
}

/// So many AVPs of one length.
pub(crate) fn many(count: u32, length: u64) -> u64
    ensures { result ≡ many count length }
{
    capped(u64::from(count).saturating_mul(length))
}

/// The length of an AVP with this head and data, with its padding.
pub(crate) fn padded(head: u64, bytes: u64) -> u64
    ensures { result ≡ capped (padded (head + bytes)) }
{
    let length = head.saturating_add(bytes);
    if length >= TOO_LONG {
        return TOO_LONG;
    }
    capped((length + 3) / 4 * 4)
}
