//! The interfaces of a pcapng file, and the times of their packets.

ghost use Rattle.std.specs.Prelude.{◌≡◌, ◌<◌, ◌≤◌, ◌+◌, ◌^◌, ◌⊎◌, length, Some, None, IfSome, IsNone, IsTrue, MatchOption, ◌↔◌};
ghost use Rattle.dia_packets.specs.Interfaces.{FirstOption, HasOffset, HasOption, HasResolution, IsInterface, IsOption, moved};
ghost use Rattle.dia_packets.specs.Interfaces.{option_size, time_of, units_of};

use crate::order::{Order, u16_at, u64_at};
use crate::records::NANOSECONDS;

/// What an Interface Description Block says.
#[derive(Clone, Copy)]
pub struct Interface {
    pub link: u16,
    /// if_tsresol: how many units of its times a second has.
    pub resolution: u8,
    /// if_tsoffset: the seconds that are added to its times, in two's complement.
    pub offset: u64,
}

/// The code of the option if_tsresol.
const RESOLUTION: u16 = 9;

/// The code of the option if_tsoffset.
const OFFSET: u16 = 14;

/// The interface that the block of so many bytes at the front describes.
pub(crate) fn interface_at(order: Order, size: usize, bytes: &[u8]) -> Interface
    requires least { 20 ≤ size }
    requires whole { size ≤ length bytes.now }
    ensures { IsInterface order size bytes.now result }
{
    let options = &bytes[16..size - 4];
    Interface {
        link: u16_at(order, bytes, 8),
        resolution: resolution_of(order, options),
        offset: offset_of(order, options),
    }
}

/// if_tsresol; microseconds if it isn't there.
fn resolution_of(order: Order, options: &[u8]) -> u8
    ensures { HasResolution order options.now result }
{
    match first_option(order, RESOLUTION, 1, options) {
        Some(value) => value[0],
        None => 6,
    }
}

/// if_tsoffset; 0 if it isn't there.
fn offset_of(order: Order, options: &[u8]) -> u64
    ensures { HasOffset order options.now result }
{
    match first_option(order, OFFSET, 8, options) {
        Some(value) => u64_at(order, value, 0),
        None => 0,
    }
}

/// The value of the first option of this code and length, with all that follows it.
fn first_option(order: Order, code: u16, width: u16, options: &[u8]) -> Option<&[u8]>
    ensures first { MatchOption result (FirstOption order code width options.entry.now None)
        (λ value. FirstOption order code width options.entry.now (Some value.now)) }
    ensures whole { IfSome result (λ value. width ≤ length value.now) }
{
    let mut rest = options;
    while let Some(size) = whole_option(order, rest) {
        if is_option(order, code, width, rest) {
            return Some(&rest[4..]);
        }
        rest = &rest[size..];
    }
    None
}

/// Whether the option at the front has this code and length.
fn is_option(order: Order, code: u16, width: u16, bytes: &[u8]) -> bool
    requires { 4 ≤ length bytes.now }
    ensures { IsTrue result ↔ IsOption order code width bytes.now }
{
    u16_at(order, bytes, 0) == code && u16_at(order, bytes, 2) == width
}

/// How many bytes the option at the front has, if it is whole and doesn't end them.
fn whole_option(order: Order, bytes: &[u8]) -> Option<usize>
    ensures size { IfSome result (λ size. size ≡ option_size order bytes.now) }
    ensures some { IfSome result (λ size. HasOption order bytes.now) }
    ensures none { IsNone result → ¬ HasOption order bytes.now }
{
    if bytes.len() < 4 || u16_at(order, bytes, 0) == 0 {
        return None;
    }
    let size = 4 + (usize::from(u16_at(order, bytes, 2)) + 3) / 4 * 4;
    if bytes.len() < size {
        return None;
    }
    Some(size)
}

/// The time of a packet, in nanoseconds since 1970.
pub(crate) fn time_of(interface: &Interface, stamp: u64) -> Option<u64>
    ensures { result ≡ time_of interface.now stamp }
{
    let units = units_of(interface.resolution)?;
    let seconds = moved(interface.offset, stamp / units)?;
    let fraction = stamp % units * NANOSECONDS / units;
    seconds.checked_mul(NANOSECONDS)?.checked_add(fraction)
}

/// How many units a second has.
fn units_of(resolution: u8) -> Option<u64>
    ensures units { result ≡ units_of resolution }
    ensures some { IfSome result (λ units. (0 < units) × (units ≤ 2 ^ 32)) }
{
    match resolution {
        0..=9 => Some(power(10, resolution)),
        128..=160 => Some(power(2, resolution - 128)),
        _ => None,
    }
}

/// A power that is at most 2^32.
#[tactic(auto, using(crate::proofs::Times::power_within))]
fn power(base: u64, exponent: u8) -> u64
    requires { ((base ≡ 10) × (exponent ≤ 9)) ⊎ ((base ≡ 2) × (exponent ≤ 32)) }
    ensures power { result ≡ base ^ exponent }
    ensures within { (0 < result) × (result ≤ 2 ^ 32) }
{
    base.pow(u32::from(exponent))
}

/// Seconds since 1970, with the offset of an interface.
fn moved(offset: u64, seconds: u64) -> Option<u64>
    ensures { result ≡ moved offset seconds }
{
    if offset < 1 << 63 {
        seconds.checked_add(offset)
    } else {
        seconds.checked_sub(offset.wrapping_neg())
    }
}
