//! The bytes of a direction in their order.
ghost use Rattle.std.specs.Prelude.{◌≡◌};
ghost use Rattle.dia_directions.specs.Waits.{AreAhead, counted};

use crate::piece::{Part, Piece};
use crate::sequence::{WINDOW, ahead_of, number_of, unread_of};
use crate::waiting::{MOST_WAITING, Resumed, Run, Waiting, nearest, run_of, size_of};
use dia_segments::Segment;
use std::alloc::{AllocError, Global};

/// The bytes of one direction of a connection, whose segments come in any order.
#[derive(Drop)]
pub struct Reassembly {
    /// The sequence number of the next byte.
    next: u32,
    /// In the order in which they came.
    waiting: Vec<Waiting>,
    /// How many bytes wait, as far as 64 bits say it.
    size: u64,
    ghost ahead: { AreAhead next waiting.items },
    ghost sized: { size ≡ counted waiting.items },
}

impl Reassembly {
    ghost use Rattle.std.specs.Prelude.{◌≢◌, ◌<◌, ◌+◌, ◌%◌, ◌^◌, ◌∷◌, ◌++◌, [], ◌↔◌, Ok, None, map, length};
    ghost use Rattle.std.specs.Prelude.{IsTrue, OnOk, IfOk, IfSome};
    ghost use Rattle.dia_segments.specs.Segments.{plain_segment};
    ghost use Rattle.dia_directions.specs.Bytes.{part_bytes, run_bytes};
    ghost use Rattle.dia_directions.specs.Order.{IsFar, Takes, ahead, first_order, left};
    ghost use Rattle.dia_directions.specs.Gaps.{GivesUp, IsFull, Resumes, plain_resumed};
    ghost use Rattle.dia_directions.specs.Reassemblies.{order_of};

    /// A direction whose next byte has this sequence number.
    pub fn new(alloc: Global, next: u32) -> Reassembly
        ensures { order_of result ≡ first_order next }
    {
        Reassembly {
            next,
            waiting: Vec::new(alloc),
            size: 0,
        }
    }

    /// Whether bytes wait for others before them.
    pub fn is_waiting(&self) -> bool
        ensures { IsTrue result ↔ ((order_of self.now).waiting ≢ []) }
    {
        !self.waiting.is_empty()
    }

    /// Whether more bytes or more segments wait than may.
    pub fn is_full(&self) -> bool
        ensures { IsTrue result ↔ IsFull (order_of self.now) }
    {
        self.size > u64::from(WINDOW) || self.waiting.len() > MOST_WAITING
    }

    /// Takes a segment. Answers the bytes that are next then, or `None` if it is too far from the next byte, and isn't taken.
    /// After an error the direction isn't read on.
    pub fn push(&mut self, alloc: Global, segment: &Segment<'_>) -> Result<Option<Run>, AllocError>
        ensures takes { IfOk result (λ taken. IfSome taken (λ run. Takes (order_of self.old)
            (plain_segment segment.now) (run_bytes run.pieces.items) (order_of self.new))) }
        ensures size { IfOk result (λ taken. IfSome taken (λ run. run.size ≡ length (run_bytes run.pieces.items))) }
        ensures far { result ≡ Ok None → IsFar (order_of self.old) (plain_segment segment.now) }
        ensures unchanged { result ≡ Ok None → self.new ≡ self.old }
    {
        let part = Part::of_segment(segment);
        let Some((number, part)) = unread_of(self.next, number_of(segment), part) else {
            return Ok(None);
        };
        if number != self.next || part.size() == 0 {
            self.wait(alloc, number, part)?;
            return Ok(Some(Run::none(alloc)));
        }
        let run = run_of(alloc, &self.waiting, part, self.next)?;
        self.pass(run.size);
        Ok(Some(run))
    }

    /// Gives up all gaps: answers all that waits, with how many bytes are missing before each part. After an error the direction
    /// isn't read on.
    pub fn give_up(&mut self, alloc: Global) -> Result<Vec<Resumed>, AllocError>
        ensures { IfOk result (λ parts. GivesUp (order_of self.old) (map plain_resumed parts.items) (order_of self.new)) }
    {
        let mut parts = Vec::new(alloc);
        while let Some(part) = self.resume(alloc)? {
            parts.push(part)?;
        }
        Ok(parts)
    }

    /// Gives up the next gap.
    fn resume(&mut self, alloc: Global) -> Result<Option<Resumed>, AllocError>
        ensures resumes { IfOk result (λ found. IfSome found
            (λ part. Resumes (order_of self.old) (plain_resumed part) (order_of self.new))) }
        ensures shorter { IfOk result (λ found. IfSome found
            (λ part. length (order_of self.new).waiting < length (order_of self.old).waiting)) }
        ensures none { result ≡ Ok None → (order_of self.old).waiting ≡ [] }
        ensures unchanged { result ≡ Ok None → self.new ≡ self.old }
    {
        let Some(missing) = nearest(&self.waiting, self.next) else {
            return Ok(None);
        };
        let run = run_of(
            alloc,
            &self.waiting,
            Part::none(),
            self.next.wrapping_add(missing),
        )?;
        self.pass(u64::from(missing) + run.size);
        Ok(Some(Resumed { missing, run }))
    }

    /// Retains a segment, if it is ahead and has bytes.
    fn wait(&mut self, alloc: Global, number: u32, part: Part<'_>) -> Result<(), AllocError>
        ensures { OnOk result ((order_of self.new) ≡ record {
          next = (order_of self.old).next;
          waiting = left 0
              ((order_of self.old).waiting ++ record { place = ahead self.old.next number; bytes = part_bytes part.entry } ∷ []);
        }) }
    {
        if number == self.next {
            return Ok(());
        }
        let size = part.size();
        if size > 0 {
            let piece = Piece::new(alloc, part)?;
            self.waiting.push(Waiting { number, piece })?;
            self.size = self.size.saturating_add(size);
        }
        Ok(())
    }

    /// Goes on behind so many bytes.
    fn pass(&mut self, size: u64)
        ensures next { (order_of self.new).next ≡ (self.old.next + size) % 2 ^ 32 }
        ensures waiting { (order_of self.new).waiting ≡ left size (order_of self.old).waiting }
    {
        let next = self.next;
        self.waiting.retain(|segment| {
            u64::from(ahead_of(next, segment.number)) > size && segment.piece.as_part().size() > 0
        });
        self.size = size_of(&self.waiting);
        self.next = next.wrapping_add((size % (1 << 32)) as u32);
    }
}
