//! Numbers in the byte order of a capture.

ghost use Rattle.std.specs.Prelude.{◌≡◌, ◌≤◌, ◌+◌, length};
ghost use Rattle.dia_packets.specs.Fields.{field};

use byteorder::{BigEndian, ByteOrder, LittleEndian};

/// A byte order.
#[derive(Clone, Copy, Debug, PartialEq, Eq)]
pub enum Order {
    Big,
    Little,
}

/// The number in the two bytes at an offset.
pub(crate) fn u16_at(order: Order, bytes: &[u8], at: usize) -> u16
    requires { at + 2 ≤ length bytes.now }
    ensures { result ≡ field order 2 at bytes.now }
{
    match order {
        Order::Big => BigEndian::read_u16(&bytes[at..]),
        Order::Little => LittleEndian::read_u16(&bytes[at..]),
    }
}

/// The number in the four bytes at an offset.
pub(crate) fn u32_at(order: Order, bytes: &[u8], at: usize) -> u32
    requires { at + 4 ≤ length bytes.now }
    ensures { result ≡ field order 4 at bytes.now }
{
    match order {
        Order::Big => BigEndian::read_u32(&bytes[at..]),
        Order::Little => LittleEndian::read_u32(&bytes[at..]),
    }
}

/// The number in the eight bytes at an offset.
pub(crate) fn u64_at(order: Order, bytes: &[u8], at: usize) -> u64
    requires { at + 8 ≤ length bytes.now }
    ensures { result ≡ field order 8 at bytes.now }
{
    match order {
        Order::Big => BigEndian::read_u64(&bytes[at..]),
        Order::Little => LittleEndian::read_u64(&bytes[at..]),
    }
}
