//! What kind of capture a file is.

ghost use Rattle.std.specs.Prelude.{◌≡◌, ◌≤◌, ◌+◌, ◌↔◌, take, drop, length, IfSome, IsNone, IsTrue};
ghost use Rattle.dia_packets.specs.Blocks.{order_magic};
ghost use Rattle.dia_packets.specs.Files.{HasKind, magic};
ghost use Rattle.dia_packets.specs.declared.kind.Kind.TheVariants.{Pcapng};
ghost use Rattle.dia_packets.specs.declared.kind.Kind.{Kind as AnyKind};

use crate::order::Order;

/// What the second number of a packet's time counts.
#[derive(Clone, Copy, Debug, PartialEq, Eq)]
pub enum Unit {
    Microseconds,
    Nanoseconds,
}

/// The kinds of capture files.
#[derive(Clone, Copy, Debug, PartialEq, Eq)]
pub enum Kind {
    /// pcap, with its byte order and the unit of its times.
    Pcap(Order, Unit),
    Pcapng,
}

/// The kind of a file with these first bytes, at least twelve if it has them. `None` where it is no capture.
///
/// The first four bytes of a pcapng file are white space in a text, so its byte-order magic is read, too.
pub fn kind_of(front: &[u8]) -> Option<Kind>
    ensures kind { IfSome result (λ kind. HasKind kind front.now) }
    ensures none { IsNone result → (kind : AnyKind) → ¬ HasKind kind front.now }
{
    if has(front, 0, &magic(Order::Big, Unit::Microseconds)) {
        Some(Kind::Pcap(Order::Big, Unit::Microseconds))
    } else if has(front, 0, &magic(Order::Little, Unit::Microseconds)) {
        Some(Kind::Pcap(Order::Little, Unit::Microseconds))
    } else if has(front, 0, &magic(Order::Big, Unit::Nanoseconds)) {
        Some(Kind::Pcap(Order::Big, Unit::Nanoseconds))
    } else if has(front, 0, &magic(Order::Little, Unit::Nanoseconds)) {
        Some(Kind::Pcap(Order::Little, Unit::Nanoseconds))
    } else if is_pcapng(front) {
        Some(Kind::Pcapng)
    } else {
        None
    }
}

fn is_pcapng(front: &[u8]) -> bool
    ensures { IsTrue result ↔ HasKind Pcapng front.now }
{
    has(front, 0, &SECTION)
        && (has(front, 8, &order_magic(Order::Big)) || has(front, 8, &order_magic(Order::Little)))
}

/// Whether these four bytes are at an offset.
pub(crate) fn has(bytes: &[u8], at: usize, wanted: &[u8]) -> bool
    requires at { at ≤ 8 }
    requires four { length wanted.now ≡ 4 }
    ensures { IsTrue result ↔ (take 4 (drop at bytes.now) ≡ wanted.now) }
{
    bytes.len() >= at + 4 && &bytes[at..at + 4] == wanted
}

/// The type of a Section Header Block of pcapng.
pub(crate) const SECTION: [u8; 4] = [0x0a, 0x0d, 0x0d, 0x0a];

/// The byte-order magic of a Section Header Block.
pub(crate) fn order_magic(order: Order) -> [u8; 4]
    ensures { result ≡ order_magic order }
{
    match order {
        Order::Big => [0x1a, 0x2b, 0x3c, 0x4d],
        Order::Little => [0x4d, 0x3c, 0x2b, 0x1a],
    }
}

/// The first bytes of a pcap file.
fn magic(order: Order, unit: Unit) -> [u8; 4]
    ensures { result ≡ magic order unit }
{
    match (order, unit) {
        (Order::Big, Unit::Microseconds) => [0xa1, 0xb2, 0xc3, 0xd4],
        (Order::Big, Unit::Nanoseconds) => [0xa1, 0xb2, 0x3c, 0x4d],
        (Order::Little, Unit::Microseconds) => [0xd4, 0xc3, 0xb2, 0xa1],
        (Order::Little, Unit::Nanoseconds) => [0x4d, 0x3c, 0xb2, 0xa1],
    }
}
