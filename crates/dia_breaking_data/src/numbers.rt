//! Numbers that some ranges hold and a format doesn't accept.
ghost use Rattle.std.specs.Prelude.{◌≡◌, ◌<◌, ◌≤◌, ◌^◌, Any, IfSome, ℕ};
ghost use Rattle.dia_data.specs.Leaf.{IsLeaf, IsWithin};
ghost use Rattle.dia_data.specs.Plain.{plain_format};
ghost use Rattle.dia_data.specs.Ranges.{AreApart};
ghost use Rattle.dia_breaking_data.specs.Kinds.{IsApart, IsKindOf, IsOf, four_bytes, shown};

use crate::candidates::is_leaf;
use crate::kinds::Kind;
use crate::short_data::Witness;
use dia_data::Format;

/// The families of addresses whose data are longer than 4 bytes, as prefixes of 4 bytes: from the first number of the one to the
/// last of the other.
const FIRST_LONG_FAMILY: u32 = 0x1_0000;

const LAST_LONG_FAMILY: u32 = 0x2_ffff;

/// The first number of 32 bits that no range holds.
pub(crate) fn first_missing(ranges: &[(u32, u32)]) -> Option<u32>
    requires { AreApart ranges.now }
    ensures some { IfSome result (λ n. ¬ Any (IsWithin n) ranges.now) }
    ensures none { result ≡ None → (n : ℕ) → n < 2 ^ 32 → Any (IsWithin n) ranges.now }
{
    let Some(&(low, high)) = ranges.first() else {
        return Some(0);
    };
    if 0 < low {
        Some(0)
    } else {
        high.checked_add(1)
    }
}

/// A number of the ranges whose 4 bytes the format, which is of this kind, doesn't accept.
pub(crate) fn refused_number(ranges: &[(u32, u32)], kind: Kind<'_>, format: &Format) -> Option<u32>
    requires apart { AreApart ranges.now }
    requires kind { IsKindOf (shown kind) (plain_format format.now) }
    requires accepted { IsApart (shown kind) }
    ensures some { IfSome result (λ n. Any (IsWithin n) ranges.now × (¬ IsOf (shown kind.entry) (four_bytes n))) }
    ensures none { result ≡ None → (n : ℕ) → Any (IsWithin n) ranges.now
        → IsOf (shown kind.entry) (four_bytes n) }
{
    for &(low, high) in ranges {
        if let Some(number) = refused_within(low, high, kind, format) {
            return Some(number);
        }
    }
    None
}

fn refused_within(low: u32, high: u32, kind: Kind<'_>, format: &Format) -> Option<u32>
    requires some { low ≤ high }
    requires kind { IsKindOf (shown kind) (plain_format format.now) }
    requires accepted { IsApart (shown kind) }
    ensures some { IfSome result (λ n. IsWithin n (low, high) × (¬ IsOf (shown kind.entry) (four_bytes n))) }
    ensures none { result ≡ None → (n : ℕ) → IsWithin n (low, high)
        → IsOf (shown kind.entry) (four_bytes n) }
{
    match kind {
        Kind::Octets => None,
        Kind::Four => None,
        Kind::Host => in_long_family(low, high),
        Kind::Listed(accepted) => unlisted(low, high, accepted),
        _ => first_refused_of(low, high, format),
    }
}

/// The first number of the range that begins no address of 4 bytes.
fn in_long_family(low: u32, high: u32) -> Option<u32>
    ensures some { IfSome result (λ n. IsWithin n (low, high) × IsWithin n (0x1_0000, 0x2_ffff)) }
    ensures none { result ≡ None → (n : ℕ) → IsWithin n (low, high) → ¬ IsWithin n (0x1_0000, 0x2_ffff) }
{
    let first = low.max(FIRST_LONG_FAMILY);
    if first <= high && first <= LAST_LONG_FAMILY {
        Some(first)
    } else {
        None
    }
}

/// The first number of a range that holds some, but that no other range holds, by a binary search.
fn unlisted(low: u32, high: u32, ranges: &[(u32, u32)]) -> Option<u32>
    requires some { low ≤ high }
    requires apart { AreApart ranges.now }
    ensures some { IfSome result (λ n. IsWithin n (low, high) × (¬ Any (IsWithin n) ranges.now)) }
    ensures none { result ≡ None → (n : ℕ) → IsWithin n (low, high) → Any (IsWithin n) ranges.now }
{
    let place = ranges.partition_point(|range| range.1 < low);
    if place == ranges.len() {
        return Some(low);
    }
    let (first, last) = ranges[place];
    if low < first {
        Some(low)
    } else if last < high {
        Some(last + 1)
    } else {
        None
    }
}

/// The first number of the range whose 4 bytes the format doesn't accept. Of 256 numbers in a row the last byte of one is ff,
/// which no text contains, so no more are looked at where the format accepts no other data than text.
fn first_refused_of(low: u32, high: u32, format: &Format) -> Option<u32>
    ensures some { IfSome result (λ n. IsWithin n (low, high)
        × (¬ IsLeaf (plain_format format.now) (four_bytes n))) }
    ensures none { result ≡ None → (n : ℕ) → IsWithin n (low, high)
        → IsLeaf (plain_format format.now) (four_bytes n) }
{
    for number in low..=high {
        if !is_leaf(format, Witness::of_number(number).as_slice()) {
            return Some(number);
        }
    }
    None
}
