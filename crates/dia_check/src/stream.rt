//! Messages that come in pieces.

ghost use Rattle.std.specs.Prelude.{◌≡◌, ◌≢◌, ◌↔◌, ◌⊎◌, ◌≤◌, ◌<◌, ◌+◌, ◌++◌, ℕ, List, [], take};
ghost use Rattle.std.specs.Prelude.{drop, length, Err, IfErr, IfOk, IsTrue, OnOk, OnErr};
ghost use Rattle.dia_book.specs.Dictionary.{Dictionary};
ghost use Rattle.dia_terms.specs.declared.Unknown.{Unknown as AnyPolicy};
ghost use Rattle.dia_terms.specs.declared.Levels.{Levels as AnyLevels};
ghost use Rattle.dia_check.specs.Faults.{IsAnswer};
ghost use Rattle.dia_check.specs.Streaming.{CountsLevels, IsStage, OpensLevel};
ghost use Rattle.dia_check.specs.Streaming.{Takes, taken_of, wanted};

mod front;
mod leaf;
mod parts;
mod paused;
mod stages;

use crate::basis::Basis;
use crate::fault::{Refusal, Selected};
use crate::open_levels::OpenLevels;
use crate::stream::front::Front;
use crate::stream::stages::{Body, Stage, read_front, read_stage};
use dia_book::Book;
use dia_terms::{Levels, Unknown};
use dia_wire::HEADER_LENGTH;
pub use paused::Paused;
use std::alloc::Global;
use thiserror::Error;

/// A message that comes in pieces.
///
/// It retains the levels that are open, and of the bytes a header or the head of an AVP while it isn't whole, and the first
/// 20 bytes of a leaf's data.
#[derive(Drop)]
pub struct Stream<'a, B: Book> {
    basis: Basis<'a, B>,
    taken: usize,
    /// How many bytes are taken in all, as far as that is known: those of the header, and then Message Length.
    wanted: usize,
    body: Body<'a>,
    stage: Stage,
    ghost holds: { ∥ IsStage (B.Book.meaning basis.book.now) basis.unknown basis.levels taken wanted body stage ∥₁ },
}

/// What a stream did with a piece.
#[derive(Clone, Copy, PartialEq, Eq)]
pub struct Progress {
    /// How many of its first bytes belong to the message.
    pub taken: usize,
    /// Whether the message takes no more.
    pub done: bool,
}

/// Why a stream takes no more.
#[derive(Clone, Copy, Debug, PartialEq, Eq, Error)]
pub enum StreamFault {
    #[error("out of memory")]
    NoMemory,
    #[error("the stream was refused memory before")]
    Spent,
}

impl<'a, B: Book> Stream<'a, B> {
    ghost use Rattle.dia_check.specs.Streams.{Denotes, HasTakenMore, OpensLevelIn, IsSpent, dictionary_of};

    /// A stream of which nothing was read yet. Takes no memory.
    pub fn new(alloc: Global, book: &'a B, unknown: Unknown, levels: Levels) -> Self
        ensures empty { Denotes B.meaning result (B.meaning book.now) unknown levels [] }
        ensures fresh { ¬ IsSpent result }
    {
        Stream {
            basis: Basis {
                book,
                unknown,
                levels,
            },
            taken: 0,
            wanted: HEADER_LENGTH,
            body: Body::idle(OpenLevels::empty(alloc)),
            stage: Stage::Header(Front::new()),
        }
    }

    /// Takes the next piece of the message, as far as it belongs to it.
    ///
    /// Bytes are taken until Message Length bytes were, also after a fault, or until 20 were where the version or Message
    /// Length is at fault. On `NoMemory` the stream is spent. Memory is taken only where a good header ends or a group begins.
    #[inline(always)]
    pub fn feed(&mut self, piece: &[u8]) -> Result<Progress, StreamFault>
        ensures taken { IfOk result
            (λ progress. (d : Dictionary) (u : AnyPolicy) (most : AnyLevels) (bytes : List ℕ)
            → Denotes B.meaning self.old d u most bytes
            → Takes bytes piece.now progress
            × Denotes B.meaning self.new d u most (bytes ++ take progress.taken piece.now)) }
        ensures within { IfOk result (λ progress. progress.taken ≤ length piece.now) }
        ensures dictionary { dictionary_of B.meaning self.new ≡ dictionary_of B.meaning self.old }
        ensures goes_on { OnOk result (¬ IsSpent self.new) }
        // Memory is taken only for a level that begins in the piece, of a message with a good header.
        ensures no_memory { result ≡ Err StreamFault.NoMemory
            → (d : Dictionary) (u : AnyPolicy) (most : AnyLevels) (bytes : List ℕ)
            → Denotes B.meaning self.old d u most bytes
            → OpensLevel d most bytes (drop (length bytes) (taken_of (bytes ++ piece.now))) }
        ensures spent { (result ≡ Err StreamFault.Spent) ↔ IsSpent self.old }
        ensures err { OnErr result (IsSpent self.new) }
    {
        if self.is_spent() {
            return Err(StreamFault::Spent);
        }
        let head = self.take_header(piece)?;
        if self.taken < HEADER_LENGTH {
            return Ok(Progress {
                taken: head,
                done: false,
            });
        }
        let body = self.take_body(&piece[head..])?;
        Ok(Progress {
            taken: head + body,
            done: self.taken == self.wanted,
        })
    }

    /// Takes bytes of the header, if it isn't whole. Answers how many.
    #[inline(always)]
    fn take_header(&mut self, piece: &[u8]) -> Result<usize, StreamFault>
        requires { ¬ IsSpent self.old }
        ensures within { IfOk result (λ count. count ≤ length piece.now) }
        ensures basis { self.new.basis ≡ self.old.basis }
        ensures taken { IfOk result
            (λ count. HasTakenMore B.meaning self.old (take count piece.now) self.new) }
        ensures all { IfOk result (λ count. self.new.taken < 20 → count ≡ length piece.now) }
        ensures goes_on { OnOk result (¬ IsSpent self.new) }
        ensures no_memory { OnErr result (OpensLevelIn B.meaning self.old piece.now) }
        ensures err { IfErr result (λ fault. (fault ≡ StreamFault.NoMemory) × IsSpent self.new) }
    {
        let Stage::Header(front) = self.stage else {
            return Ok(0);
        };
        let mut after = front;
        after.take_from(piece);
        let (wanted, stage) = read_front(self.basis.book, after, &mut self.body);
        let count = after.len() - front.len();
        self.taken = after.len();
        self.wanted = wanted;
        self.stage = stage;
        match &self.stage {
            Stage::NoMemory => Err(StreamFault::NoMemory),
            _ => Ok(count),
        }
    }

    /// Takes bytes after the header, as far as they belong to the message. Answers how many.
    #[inline(always)]
    fn take_body(&mut self, piece: &[u8]) -> Result<usize, StreamFault>
        requires header { 20 ≤ self.old.taken }
        requires not_spent { ¬ IsSpent self.old }
        ensures within { IfOk result (λ count. count ≤ length piece.now) }
        ensures basis { self.new.basis ≡ self.old.basis }
        ensures taken { IfOk result
            (λ count. HasTakenMore B.meaning self.old (take count piece.now) self.new) }
        ensures all { IfOk result
            (λ count. (count ≡ length piece.now) ⊎ (self.new.taken ≡ self.new.wanted)) }
        ensures goes_on { OnOk result (¬ IsSpent self.new) }
        ensures no_memory { OnErr result (OpensLevelIn B.meaning self.old piece.now) }
        ensures err { IfErr result (λ fault. (fault ≡ StreamFault.NoMemory) × IsSpent self.new) }
    {
        let count = piece.len().min(self.wanted - self.taken);
        let front = &piece[..count];
        let stage = read_stage(&self.basis, &mut self.body, self.stage, self.taken, front);
        self.taken += count;
        self.stage = stage;
        match &self.stage {
            Stage::NoMemory => Err(StreamFault::NoMemory),
            _ => Ok(count),
        }
    }

    /// Whether memory was refused.
    fn is_spent(&self) -> bool
        ensures { IsTrue result ↔ IsSpent self.now }
    {
        matches!(self.stage, Stage::NoMemory)
    }

    /// What `check` answers of the bytes that were taken. Takes no memory.
    pub fn finish(self) -> Result<Selected, Refusal>
        ensures answer { ¬ IsSpent self.entry
            → (d : Dictionary) (u : AnyPolicy) (most : AnyLevels) (bytes : List ℕ)
            → Denotes B.meaning self.entry d u most bytes → IsAnswer d u most bytes result }
        ensures spent { IsSpent self.entry → result ≡ Err Refusal.Spent }
        ensures memory { result ≢ Err Refusal.NoMemory }
        ensures trailing { result ≢ Err Refusal.Trailing }
    {
        match self.stage {
            Stage::NoMemory => Err(Refusal::Spent),
            Stage::Over(answer) if self.taken == self.wanted => answer,
            _ => Err(Refusal::Truncated),
        }
    }

    /// How many levels are open: those that began at or before the last byte taken, and end after it. None are once the
    /// stream is done, or where the header is at fault. Takes no memory.
    pub fn levels(&self) -> usize
        ensures count { ¬ IsSpent self.now
            → (d : Dictionary) (u : AnyPolicy) (most : AnyLevels) (bytes : List ℕ)
            → Denotes B.meaning self.now d u most bytes → CountsLevels d u most bytes result }
        ensures spent { IsSpent self.now → result ≡ 0 }
    {
        match self.stage {
            Stage::InBody => self.body.open_levels.depth() + 1,
            _ => 0,
        }
    }
}
