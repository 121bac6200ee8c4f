//! Segments in the packets of captures.

use crate::files::packets_of;
use crate::rows::{
    ANSWERED, BIG_MICROSECONDS, COOKED, COOKED_AGAIN, EXTENDED, FRAGMENTS, LOOPBACK, OPTIONS,
    OTHER_LINK, OTHER_PROTOCOL, PADDED, SNAPPED, TAGGED,
};
use dia_segments::{Segment, Unread, segment_of};
use std::process::Abort;

/// A message without AVPs, with the identifiers 1.
const M1: &[u8] =
    b"\x01\x00\x00\x14\x80\x00\x01\x18\x00\x00\x00\x00\x00\x00\x00\x01\x00\x00\x00\x01";

/// A message with an empty Origin-Host, with the identifiers 1.
const N1: &[u8] =
    b"\x01\x00\x00\x1c\x80\x00\x01\x18\x00\x00\x00\x00\x00\x00\x00\x01\x00\x00\x00\x01\x00\x00\x01\x08\x40\x00\x00\x08";

/// The addresses of the end with port 40000, and of that with port 3868.
const A: &[u8] = &[192, 0, 2, 1];

const B: &[u8] = &[192, 0, 2, 2];

const A6: &[u8] = b"\x20\x01\x0d\xb8\x00\x00\x00\x00\x00\x00\x00\x00\x00\x00\x00\x01";

const B6: &[u8] = b"\x20\x01\x0d\xb8\x00\x00\x00\x00\x00\x00\x00\x00\x00\x00\x00\x02";

/// What is wanted of a segment from A to B.
#[derive(Clone, Copy)]
struct Wanted<'b> {
    number: u32,
    syn: bool,
    bytes: &'b [u8],
    size: u32,
}

fn segment(number: u32, bytes: &[u8], size: u32) -> Wanted<'_> {
    Wanted {
        number,
        syn: false,
        bytes,
        size,
    }
}

const SYN: Wanted<'static> = Wanted {
    number: 0,
    syn: true,
    bytes: &[],
    size: 0,
};

/// Asserts the segments of a capture.
fn has(rt: &(impl AllocGlobal + Abort), lines: &[&str], wanted: &[Wanted<'_>]) {
    let (packets, _refusal) = packets_of(rt, lines, 4096);
    assert!(rt; packets.len() == wanted.len(), "count");
    for (packet, wanted) in packets.iter().zip(wanted) {
        match segment_of(packet.link, packet.bytes.as_slice(), packet.size) {
            Ok(segment) => is(rt, &segment, wanted),
            Err(_) => assert!(rt; false, "unread"),
        }
    }
}

fn is(rt: &impl Abort, segment: &Segment<'_>, wanted: &Wanted<'_>) {
    assert!(rt; segment.source.address == A, "source");
    assert!(rt; segment.source.port == 40000, "source port");
    assert!(rt; segment.target.address == B, "target");
    assert!(rt; segment.target.port == 3868, "target port");
    assert!(rt; segment.number == wanted.number, "sequence number");
    assert!(rt; segment.syn == wanted.syn, "SYN");
    assert!(rt; segment.ack != wanted.syn, "ACK");
    assert!(rt; segment.bytes == wanted.bytes, "bytes");
    assert!(rt; segment.size == wanted.size, "size");
}

/// Asserts why the last packet of a capture isn't read.
fn last_is_unread(rt: &(impl AllocGlobal + Abort), lines: &[&str], wanted: Unread) {
    let (packets, _refusal) = packets_of(rt, lines, 4096);
    let last = packets.as_slice().last().expect(rt, "a packet");
    let found = segment_of(last.link, last.bytes.as_slice(), last.size);
    assert!(rt; found.err() == Some(wanted), "why");
}

#[test]
fn raw_ip(rt: HostRuntime) {
    has(&rt, BIG_MICROSECONDS, &[SYN, segment(1, M1, 20)]);
    has(&rt, OPTIONS, &[SYN, segment(1, M1, 20)]);
}

#[test]
fn ethernet(rt: HostRuntime) {
    has(
        &rt,
        PADDED,
        &[SYN, segment(1, &M1[..4], 4), segment(5, &M1[4..], 16)],
    );
    has(&rt, TAGGED, &[SYN, segment(1, M1, 20)]);
}

#[test]
fn other_links(rt: HostRuntime) {
    has(&rt, COOKED, &[segment(1, N1, 28)]);
    has(&rt, COOKED_AGAIN, &[segment(1, N1, 28)]);
    has(&rt, LOOPBACK, &[segment(1, N1, 28)]);
    last_is_unread(&rt, OTHER_LINK, Unread::LinkType(147));
}

#[test]
fn other_packets(rt: HostRuntime) {
    last_is_unread(&rt, OTHER_PROTOCOL, Unread::Protocol(132));
    last_is_unread(&rt, FRAGMENTS, Unread::Fragment);
}

#[test]
fn cut_by_the_snap_length(rt: HostRuntime) {
    let (packets, _refusal) = packets_of(&rt, SNAPPED, 4096);
    assert!(rt; packets.len() == 3);
    let cut = &packets[1];
    let found = segment_of(cut.link, cut.bytes.as_slice(), cut.size)
        .ok()
        .expect(&rt, "a segment");
    assert!(rt; found.bytes.len() == 48);
    assert!(rt; found.size == 56);
}

#[test]
fn extension_headers(rt: HostRuntime) {
    let (packets, _refusal) = packets_of(&rt, EXTENDED, 4096);
    assert!(rt; packets.len() == 1);
    let found = segment_of(
        packets[0].link,
        packets[0].bytes.as_slice(),
        packets[0].size,
    );
    let found = found.ok().expect(&rt, "a segment");
    assert!(rt; found.source.address == A6);
    assert!(rt; found.target.address == B6);
    assert!(rt; found.bytes == N1);
}

#[test]
fn answered(rt: HostRuntime) {
    let (packets, _refusal) = packets_of(&rt, ANSWERED, 4096);
    assert!(rt; packets.len() == 2);
    let found = segment_of(
        packets[0].link,
        packets[0].bytes.as_slice(),
        packets[0].size,
    );
    let found = found.ok().expect(&rt, "a segment");
    assert!(rt; found.syn && found.ack);
    assert!(rt; found.source.port == 3868);
}
