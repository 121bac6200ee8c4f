//! Segments whose bytes wait for those before them.

ghost use Rattle.std.specs.Prelude.{◌≡◌, ◌<◌, ◌+◌, ◌^◌, [], ℕ, None, length, slice_get};
ghost use Rattle.std.specs.Prelude.{IsSome, IsTrue, IfOk, IfSome, IfNone};
ghost use Rattle.std.specs.List.{list_all};
ghost use Rattle.dia_directions.specs.Bytes.{part_bytes, run_bytes};
ghost use Rattle.dia_directions.specs.Order.{IsRun, byte_at, is_from};
ghost use Rattle.dia_directions.specs.Waits.{AreAhead, all_placed, all_then, counted};

use crate::piece::{Part, Piece};
use crate::sequence::ahead_of;
use std::alloc::{AllocError, Global};

/// How many segments wait at most, so that the cost of looking through them is bounded.
pub const MOST_WAITING: usize = 16_384;

/// A segment that waits.
#[derive(Drop)]
pub(crate) struct Waiting {
    /// The sequence number of its first byte.
    pub number: u32,
    pub piece: Piece,
}

/// Bytes that are next.
#[derive(Drop)]
pub struct Run {
    pub pieces: Vec<Piece>,
    /// How many bytes they had.
    pub size: u64,
}

impl Run {
    pub(crate) fn none(alloc: Global) -> Run
        ensures bytes { run_bytes result.pieces.items ≡ [] }
        ensures size { result.size ≡ 0 }
    {
        Run {
            pieces: Vec::new(alloc),
            size: 0,
        }
    }
}

/// Bytes that follow a gap.
#[derive(Drop)]
pub struct Resumed {
    /// How many bytes are missing.
    pub missing: u32,
    pub run: Run,
}

/// Bytes from a place on, of the segment that came first of those that have it. The last one arrived, and is next.
fn part_at<'w>(waiting: &'w [Waiting], arrived: Part<'w>, next: u32, place: u64) -> Option<Part<'w>>
    requires { place < 2 ^ 63 + 2 ^ 33 }
    ensures found { IfSome result (λ part. (i : ℕ) → i < length (part_bytes part)
        → byte_at (all_then next waiting.entry.now (part_bytes arrived.entry)) (place + i)
        ≡ slice_get (part_bytes part) i) }
    ensures some { IfSome result (λ part. 0 < length (part_bytes part)) }
    ensures fits { IfSome result (λ part. place + length (part_bytes part) < 2 ^ 63 + 2 ^ 33) }
    ensures none { IfNone result
        (byte_at (all_then next waiting.entry.now (part_bytes arrived.entry)) place ≡ None) }
{
    let mut end = u64::MAX;
    for segment in waiting {
        let first = u64::from(ahead_of(next, segment.number));
        let part = segment.piece.as_part();
        if place < first {
            end = end.min(first);
        } else if place - first < part.size() {
            return Some(part.after(place - first).up_to(end - place));
        }
    }
    if place < arrived.size() {
        return Some(arrived.after(place).up_to(end - place));
    }
    None
}

/// The bytes that are next, where the last segment arrived, and is next.
pub(crate) fn run_of(
    alloc: Global,
    waiting: &[Waiting],
    arrived: Part<'_>,
    next: u32,
) -> Result<Run, AllocError>
    ensures is_run { IfOk result (λ run. IsRun
        (all_then next waiting.now (part_bytes arrived.entry)) (run_bytes run.pieces.items)) }
    ensures size { IfOk result (λ run. run.size ≡ length (run_bytes run.pieces.items)) }
    ensures bounded { IfOk result (λ run. run.size < 2 ^ 63 + 2 ^ 33) }
{
    let mut pieces = Vec::new(alloc);
    let mut size = 0;
    while let Some(part) = part_at(waiting, arrived, next, size) {
        pieces.push(Piece::new(alloc, part)?)?;
        size += part.size();
    }
    Ok(Run { pieces, size })
}

/// How far the nearest segment is ahead.
pub(crate) fn nearest(waiting: &[Waiting], next: u32) -> Option<u32>
    requires { AreAhead next waiting.now }
    ensures none { IfNone result (waiting.now ≡ []) }
    ensures least { IfSome result (λ least. IsTrue (list_all (is_from least) (all_placed next waiting.now))) }
    ensures some { IfSome result (λ least. IsSome (byte_at (all_placed next waiting.now) least)) }
{
    let mut least = u32::MAX;
    for segment in waiting {
        least = least.min(ahead_of(next, segment.number));
    }
    if waiting.is_empty() {
        return None;
    }
    Some(least)
}

/// How many bytes wait, as far as 64 bits say it.
pub(crate) fn size_of(waiting: &[Waiting]) -> u64
    ensures { result ≡ counted waiting.now }
{
    let mut size: u64 = 0;
    for segment in waiting {
        size = size.saturating_add(segment.piece.as_part().size());
    }
    size
}
