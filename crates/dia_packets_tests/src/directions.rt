//! The bytes of a direction in their order.

use dia_directions::{Piece, Reassembly, WINDOW, is_late};
use dia_segments::{End, Segment};
use std::process::Abort;

/// A message without AVPs, with the identifiers 1, and two more with other ones.
const M1: &[u8] =
    b"\x01\x00\x00\x14\x80\x00\x01\x18\x00\x00\x00\x00\x00\x00\x00\x01\x00\x00\x00\x01";

const M2: &[u8] =
    b"\x01\x00\x00\x14\x80\x00\x01\x18\x00\x00\x00\x00\x00\x00\x00\x02\x00\x00\x00\x02";

const BOTH: &[u8] =
    b"\x01\x00\x00\x14\x80\x00\x01\x18\x00\x00\x00\x00\x00\x00\x00\x01\x00\x00\x00\x01\x01\x00\x00\x14\x80\x00\x01\x18\x00\x00\x00\x00\x00\x00\x00\x02\x00\x00\x00\x02";

/// Other bytes, and the second message.
const OTHER_AND_M2: &[u8] =
    b"\x09\x09\x09\x09\x09\x09\x09\x09\x09\x09\x09\x09\x09\x09\x09\x09\x09\x09\x09\x09\x01\x00\x00\x14\x80\x00\x01\x18\x00\x00\x00\x00\x00\x00\x00\x02\x00\x00\x00\x02";

/// The last half of the first message, and other bytes.
const HALF_AND_OTHER: &[u8] =
    b"\x00\x00\x00\x00\x00\x01\x00\x00\x00\x01\x09\x09\x09\x09\x09\x09\x09\x09\x09\x09\x09\x09\x09\x09\x09\x09\x09\x09\x09\x09";

const A: End<'static> = End {
    address: &[192, 0, 2, 1],
    port: 40000,
};

const B: End<'static> = End {
    address: &[192, 0, 2, 2],
    port: 3868,
};

/// A segment, and the bytes that are next then.
#[derive(Clone, Copy)]
struct Arrival {
    number: u32,
    bytes: &'static [u8],
    size: u32,
    wanted: &'static [u8],
}

fn uncut(number: u32, bytes: &'static [u8], wanted: &'static [u8]) -> Arrival {
    Arrival {
        number,
        bytes,
        size: bytes.len().min(u32::MAX as usize) as u32,
        wanted,
    }
}

fn segment(arrival: &Arrival) -> Segment<'static> {
    Segment {
        source: A,
        target: B,
        number: arrival.number,
        syn: false,
        ack: true,
        bytes: arrival.bytes,
        size: arrival.size,
    }
}

/// The captured bytes of a run, and how many were cut.
fn bytes_of(rt: &(impl AllocGlobal + Abort), pieces: &[Piece]) -> (Vec<u8>, u32) {
    let mut bytes = Vec::new(rt.alloc());
    let mut cut: u32 = 0;
    for piece in pieces {
        bytes
            .extend_from_slice(piece.bytes.as_slice())
            .expect(rt, "memory");
        cut = cut.saturating_add(piece.cut);
    }
    (bytes, cut)
}

/// Asserts what is next after each segment of a direction whose first byte has this sequence number.
fn reads(rt: &(impl AllocGlobal + Abort), first: u32, arrivals: &[Arrival]) {
    let mut direction = Reassembly::new(rt.alloc(), first);
    for arrival in arrivals {
        let run = direction
            .push(rt.alloc(), &segment(arrival))
            .ok()
            .expect(rt, "memory")
            .expect(rt, "near");
        let (bytes, cut) = bytes_of(rt, run.pieces.as_slice());
        assert!(rt; bytes.as_slice() == arrival.wanted, "bytes");
        assert!(rt;
            run.size == arrival.wanted.len() as u64 + u64::from(cut),
            "size"
        );
    }
}

#[test]
fn in_parts(rt: HostRuntime) {
    reads(
        &rt,
        1,
        &[uncut(1, &M1[..7], &M1[..7]), uncut(8, &M1[7..], &M1[7..])],
    );
}

#[test]
fn exchanged(rt: HostRuntime) {
    reads(&rt, 1, &[uncut(21, M2, &[]), uncut(1, M1, BOTH)]);
}

#[test]
fn repeated(rt: HostRuntime) {
    reads(
        &rt,
        1,
        &[uncut(1, M1, M1), uncut(1, M1, &[]), uncut(21, M2, M2)],
    );
    reads(&rt, 1, &[uncut(1, M1, M1), uncut(1, OTHER_AND_M2, M2)]);
}

#[test]
fn the_first_bytes_count(rt: HostRuntime) {
    reads(
        &rt,
        1,
        &[
            uncut(21, M2, &[]),
            uncut(11, HALF_AND_OTHER, &[]),
            uncut(1, &M1[..10], BOTH),
        ],
    );
}

#[test]
fn a_piece_between_pieces_that_wait(rt: HostRuntime) {
    reads(
        &rt,
        1,
        &[
            uncut(6, &M1[5..10], &[]),
            uncut(16, &M1[15..], &[]),
            uncut(1, M1, M1),
        ],
    );
}

#[test]
fn numbers_wrap(rt: HostRuntime) {
    reads(
        &rt,
        4_294_967_286,
        &[uncut(10, M2, &[]), uncut(4_294_967_286, M1, BOTH)],
    );
}

#[test]
fn keep_alive(rt: HostRuntime) {
    reads(
        &rt,
        1,
        &[uncut(1, M1, M1), uncut(20, b"\x00", &[]), uncut(21, M2, M2)],
    );
}

#[test]
fn cut_by_the_snap_length(rt: HostRuntime) {
    let cut = Arrival {
        number: 1,
        bytes: M1,
        size: 28,
        wanted: M1,
    };
    reads(&rt, 1, &[cut, uncut(29, M2, M2)]);
}

#[test]
fn too_far(rt: HostRuntime) {
    let mut direction = Reassembly::new(rt.alloc(), 1);
    let far = direction.push(rt.alloc(), &segment(&uncut(1_000_000_000, M1, &[])));
    assert!(&rt; far.ok().expect(&rt, "memory").is_none());
}

/// Bytes that follow a gap.
#[derive(Clone, Copy)]
struct Part {
    missing: u32,
    bytes: &'static [u8],
}

/// Asserts what is read when the gaps are given up after segments of a direction whose first byte has the sequence number 1.
fn resumes(rt: &(impl AllocGlobal + Abort), arrivals: &[Arrival], wanted: &[Part]) {
    let mut direction = Reassembly::new(rt.alloc(), 1);
    for arrival in arrivals {
        push(rt, &mut direction, arrival);
    }
    let parts = direction.give_up(rt.alloc()).ok().expect(rt, "memory");
    assert!(rt; parts.len() == wanted.len(), "count");
    for (part, wanted) in parts.iter().zip(wanted) {
        let (bytes, _cut) = bytes_of(rt, part.run.pieces.as_slice());
        assert!(rt; part.missing == wanted.missing, "missing");
        assert!(rt; bytes.as_slice() == wanted.bytes, "bytes");
    }
    assert!(rt; !direction.is_waiting(), "waits");
}

fn push(rt: &(impl AllocGlobal + Abort), direction: &mut Reassembly, arrival: &Arrival) {
    let run = direction.push(rt.alloc(), &segment(arrival));
    assert!(rt; run.ok().expect(rt, "memory").is_some(), "near");
}

#[test]
fn a_gap(rt: HostRuntime) {
    let part = Part {
        missing: 20,
        bytes: M2,
    };
    resumes(&rt, &[uncut(1, M1, M1), uncut(41, M2, &[])], &[part]);
}

#[test]
fn parts_without_a_gap_between_them(rt: HostRuntime) {
    let part = Part {
        missing: 8,
        bytes: BOTH,
    };
    resumes(
        &rt,
        &[uncut(1, M1, M1), uncut(49, M2, &[]), uncut(29, M1, &[])],
        &[part],
    );
}

#[test]
fn two_gaps(rt: HostRuntime) {
    let first = Part {
        missing: 28,
        bytes: M2,
    };
    let second = Part {
        missing: 20,
        bytes: M1,
    };
    resumes(
        &rt,
        &[uncut(69, M1, &[]), uncut(29, M2, &[])],
        &[first, second],
    );
}

#[test]
fn nothing_waits(rt: HostRuntime) {
    resumes(&rt, &[uncut(1, M1, M1), uncut(60, &[], &[])], &[]);
}

#[test]
fn late(rt: HostRuntime) {
    assert!(&rt; !is_late(Some(102_000_000_000), Some(105_000_000_000)));
    assert!(&rt; is_late(Some(102_000_000_000), Some(105_000_000_001)));
    assert!(&rt; !is_late(Some(102_000_000_000), Some(101_000_000_000)));
    assert!(&rt; !is_late(None, Some(105_000_000_001)));
    assert!(&rt; !is_late(Some(102_000_000_000), None));
}

#[test]
fn too_many_bytes_wait(rt: HostRuntime) {
    let mut direction = Reassembly::new(rt.alloc(), 1);
    let most = Arrival {
        number: 2,
        bytes: &[],
        size: WINDOW,
        wanted: &[],
    };
    push(&rt, &mut direction, &most);
    assert!(&rt; direction.is_waiting() && !direction.is_full());
    push(&rt, &mut direction, &uncut(100, b"\x00", &[]));
    assert!(&rt; direction.is_full());
}
