//! Packets of pcap files, and what is asserted of packets.

use crate::files::packets_of;
use crate::rows::{
    BIG_MICROSECONDS, BIG_NANOSECONDS, CUT, LITTLE_MICROSECONDS, LITTLE_NANOSECONDS, NO_PACKET,
    OTHER_VERSION, SNAPPED, TOO_LONG,
};
use dia_packets::{Cause, Kind, Order, Packet, Unit, kind_of};
use std::process::Abort;

/// A packet: when it was captured, its link type, how many of its bytes were captured, and how many there were.
#[derive(Clone, Copy)]
pub struct Wanted {
    pub time: Option<u64>,
    pub link: u16,
    pub kept: usize,
    pub size: u32,
}

pub const SECOND: u64 = 1_000_000_000;

/// Asserts the packets of a capture and where it can't be read on, in pieces of several sizes.
pub fn has(
    rt: &(impl AllocGlobal + Abort),
    lines: &[&str],
    wanted: &[Wanted],
    refusal: Option<(Cause, u64)>,
) {
    for size in [1, 7, 4096] {
        let (packets, found) = packets_of(rt, lines, size);
        assert!(rt;
            found.map(|refusal| (refusal.cause, refusal.at)) == refusal,
            "refusal"
        );
        assert!(rt; packets.len() == wanted.len(), "count");
        let mut number = 0u64;
        for (packet, wanted) in packets.iter().zip(wanted) {
            number = number.saturating_add(1);
            assert!(rt; packet.number == number, "number");
            is(rt, packet, wanted);
        }
    }
}

fn is(rt: &impl Abort, packet: &Packet, wanted: &Wanted) {
    assert!(rt; packet.time == wanted.time, "time");
    assert!(rt; packet.link == wanted.link, "link type");
    assert!(rt; packet.bytes.len() == wanted.kept, "captured bytes");
    assert!(rt; packet.size == wanted.size, "size");
}

/// A packet of raw IP that is all there.
pub const fn whole(time: u64, size: u32) -> Wanted {
    Wanted {
        time: Some(time),
        link: 101,
        kept: size as usize,
        size,
    }
}

#[test]
fn each_order_and_unit(rt: HostRuntime) {
    has(
        &rt,
        BIG_MICROSECONDS,
        &[whole(100 * SECOND, 40), whole(101 * SECOND, 60)],
        None,
    );
    has(
        &rt,
        LITTLE_NANOSECONDS,
        &[whole(7 * SECOND, 40), whole(7 * SECOND + 5, 60)],
        None,
    );
    has(
        &rt,
        LITTLE_MICROSECONDS,
        &[whole(7 * SECOND + 5000, 68)],
        None,
    );
    has(&rt, BIG_NANOSECONDS, &[whole(7 * SECOND + 5, 68)], None);
}

#[test]
fn cut_by_the_snap_length(rt: HostRuntime) {
    let cut = Wanted {
        time: Some(101 * SECOND),
        link: 101,
        kept: 88,
        size: 96,
    };
    has(
        &rt,
        SNAPPED,
        &[whole(100 * SECOND, 40), cut, whole(102 * SECOND, 68)],
        None,
    );
}

#[test]
fn refusals(rt: HostRuntime) {
    let before = [whole(100 * SECOND, 40), whole(101 * SECOND, 60)];
    has(&rt, CUT, before.as_slice(), Some((Cause::Cut, 156)));
    has(&rt, TOO_LONG, before.as_slice(), Some((Cause::Length, 156)));
    has(&rt, OTHER_VERSION, &[], Some((Cause::Version, 0)));
    has(&rt, NO_PACKET, &[], None);
}

#[test]
fn kinds(rt: HostRuntime) {
    assert!(rt;
        kind_of(&[0xd4, 0xc3, 0xb2, 0xa1]) == Some(Kind::Pcap(Order::Little, Unit::Microseconds))
    );
    assert!(rt;
        kind_of(&[0xa1, 0xb2, 0xc3, 0xd4]) == Some(Kind::Pcap(Order::Big, Unit::Microseconds))
    );
    assert!(rt;
        kind_of(&[0x4d, 0x3c, 0xb2, 0xa1]) == Some(Kind::Pcap(Order::Little, Unit::Nanoseconds))
    );
    assert!(rt;
        kind_of(&[0xa1, 0xb2, 0x3c, 0x4d]) == Some(Kind::Pcap(Order::Big, Unit::Nanoseconds))
    );
    let section = b"\x0a\x0d\x0d\x0a\x1c\x00\x00\x00";
    assert!(rt; kind_of(b"\x0a\x0d\x0d\x0a\x1c\x00\x00\x00\x4d\x3c\x2b\x1a") == Some(Kind::Pcapng));
    assert!(rt; kind_of(section).is_none());
    assert!(rt; kind_of(b"0100001c").is_none());
    assert!(rt; kind_of(&[0xa1, 0xb2, 0xc3]).is_none());
}
