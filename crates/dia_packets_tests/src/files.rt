//! Captures that are read whole.

use dia_packets::{Capture, CaptureFault, Packet, Refusal, kind_of};
use std::process::Abort;

/// The packets of a capture, read in pieces of so many bytes, and where it can't be read on.
pub fn packets_of(
    rt: &(impl AllocGlobal + Abort),
    lines: &[&str],
    size: usize,
) -> (Vec<Packet>, Option<Refusal>) {
    let file = bytes_of(rt, lines);
    let mut packets = Vec::new(rt.alloc());
    let refusal = refusal_of(rt, file.as_slice(), size, &mut packets);
    (packets, refusal)
}

fn refusal_of(
    rt: &(impl AllocGlobal + Abort),
    file: &[u8],
    size: usize,
    packets: &mut Vec<Packet>,
) -> Option<Refusal> {
    let kind = kind_of(file).expect(rt, "a capture");
    let mut capture = Capture::new(rt.alloc(), kind);
    for piece in file.chunks(size.max(1)) {
        match capture.read(rt.alloc(), piece, packets) {
            Ok(()) => {}
            Err(CaptureFault::Refused(refusal)) => return Some(refusal),
            Err(CaptureFault::NoMemory) => assert!(rt; false, "memory"),
        }
    }
    capture.end().err()
}

/// The bytes that these lines of digits spell.
fn bytes_of(rt: &(impl AllocGlobal + Abort), lines: &[&str]) -> Vec<u8> {
    let mut bytes = Vec::new(rt.alloc());
    for line in lines {
        let more = hex::decode(rt.alloc(), *line).expect(rt, line);
        bytes
            .extend_from_slice(more.as_slice())
            .expect(rt, "memory");
    }
    bytes
}
