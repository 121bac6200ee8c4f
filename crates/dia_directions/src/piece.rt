//! Bytes that follow one another.

use dia_segments::Segment;
use std::alloc::{AllocError, Global};

/// Captured bytes, and behind them as many as the snap length cut.
#[derive(Drop)]
pub struct Piece {
    pub bytes: Vec<u8>,
    pub cut: u32,
}

/// A part of a piece.
#[derive(Clone, Copy)]
pub(crate) struct Part<'b> {
    bytes: &'b [u8],
    cut: u32,
}

impl<'b> Part<'b> {
    ghost use Rattle.std.specs.Prelude.{◌≡◌, ◌+◌, ◌<◌, ◌^◌, [], length, take, drop};
    ghost use Rattle.dia_segments.specs.Segments.{plain_segment};
    ghost use Rattle.dia_directions.specs.Bytes.{part_bytes, segment_bytes};

    pub(crate) fn none() -> Part<'b>
        ensures { part_bytes result ≡ [] }
    {
        Part { bytes: &[], cut: 0 }
    }

    /// The bytes of a segment.
    pub(crate) fn of_segment(segment: &Segment<'b>) -> Part<'b>
        ensures { part_bytes result ≡ segment_bytes (plain_segment segment.now) }
    {
        let bytes = segment.bytes;
        let cut = (segment.size as usize).saturating_sub(bytes.len()) as u32;
        Part { bytes, cut }
    }

    /// How many bytes there were.
    pub(crate) fn size(self) -> u64
        ensures size { result ≡ length (part_bytes self.entry) }
        ensures bounded { result < 2 ^ 63 + 2 ^ 32 }
    {
        self.bytes.len() as u64 + u64::from(self.cut)
    }

    /// What follows so many bytes.
    pub(crate) fn after(self, count: u64) -> Part<'b>
        ensures { part_bytes result ≡ drop count (part_bytes self.entry) }
    {
        let captured = count.min(self.bytes.len() as u64);
        let cut = u64::from(self.cut).saturating_sub(count - captured);
        Part {
            bytes: &self.bytes[captured as usize..],
            cut: cut as u32,
        }
    }

    /// At most so many of the first bytes.
    pub(crate) fn up_to(self, count: u64) -> Part<'b>
        ensures { part_bytes result ≡ take count (part_bytes self.entry) }
    {
        let captured = count.min(self.bytes.len() as u64);
        let cut = u64::from(self.cut).min(count - captured);
        Part {
            bytes: &self.bytes[..captured as usize],
            cut: cut as u32,
        }
    }
}

impl Piece {
    ghost use Rattle.std.specs.Prelude.{◌≡◌, IfOk};
    ghost use Rattle.dia_directions.specs.Bytes.{part_bytes, piece_bytes};

    /// A copy of a part.
    pub(crate) fn new(alloc: Global, part: Part<'_>) -> Result<Piece, AllocError>
        ensures { IfOk result (λ piece. piece_bytes piece ≡ part_bytes part.entry) }
    {
        Ok(Piece {
            bytes: Vec::from_slice(alloc, part.bytes)?,
            cut: part.cut,
        })
    }

    pub(crate) fn as_part(&self) -> Part<'_>
        ensures { part_bytes result ≡ piece_bytes self.now }
    {
        Part {
            bytes: &self.bytes,
            cut: self.cut,
        }
    }
}
