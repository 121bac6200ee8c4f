//! A message that comes in pieces, beside an owner of its dictionary.

ghost use Rattle.std.specs.Prelude.{◌≡◌, ◌≢◌, ◌++◌, ◌↔◌, ℕ, List, [], Err, IfOk, OnErr, OnOk, drop, length, take};
ghost use Rattle.dia_book.specs.Dictionary.{Dictionary};
ghost use Rattle.dia_terms.specs.declared.Unknown.{Unknown as AnyPolicy};
ghost use Rattle.dia_terms.specs.declared.Levels.{Levels as AnyLevels};
ghost use Rattle.dia_check.specs.Faults.{IsAnswer};
ghost use Rattle.dia_check.specs.Pauses.{HasPaused, IsPausedFor, WasSpent};
ghost use Rattle.dia_check.specs.Streaming.{CountsLevels, OpensLevel, Takes, taken_of};

use dia_book::Book;
use dia_check::{Levels, Paused, Progress, Refusal, Selected, Stream, StreamFault, Unknown};
use dia_dict::IndexedBook;
use std::alloc::Global;
use std::sync::Arc;

/// A message that comes in pieces, beside an owner of its dictionary.
#[derive(Drop)]
pub struct Feeding {
    owner: Arc<IndexedBook>,
    unknown: Unknown,
    levels: Levels,
    paused: Paused,
    ghost fits: { ∥ IsPausedFor (⟦<IndexedBook as Book>⟧.meaning owner.value) paused ∥₁ },
}

impl Feeding {
    ghost use Rattle.dia_c_calls.specs.Feedings.{ChecksBy, FeedsFor};

    /// A message of which nothing came.
    pub fn new(alloc: Global, owner: Arc<IndexedBook>, unknown: Unknown, levels: Levels) -> Feeding
        ensures begins { FeedsFor result (⟦<IndexedBook as Book>⟧.meaning owner.value) unknown levels [] }
        ensures goes_on { ¬ WasSpent result.paused }
    {
        let paused = begun(alloc, &*owner, unknown, levels);
        Feeding {
            owner,
            unknown,
            levels,
            paused,
        }
    }

    /// The same with more bytes, and what was done with them.
    pub fn fed(self, piece: &[u8]) -> (Feeding, Result<Progress, StreamFault>)
        ensures taken { (d : Dictionary) (u : AnyPolicy) (most : AnyLevels) (bytes : List ℕ)
            → FeedsFor self d u most bytes → IfOk result.1 (λ progress. Takes bytes piece.now progress
            × FeedsFor result.0 d u most (bytes ++ take progress.taken piece.now)) }
        ensures no_memory { result.1 ≡ Err StreamFault.NoMemory
            → (d : Dictionary) (u : AnyPolicy) (most : AnyLevels) (bytes : List ℕ)
            → FeedsFor self d u most bytes
            → OpensLevel d most bytes (drop (length bytes) (taken_of (bytes ++ piece.now))) }
        ensures never { (d : Dictionary) (u : AnyPolicy) (most : AnyLevels) (bytes : List ℕ)
            → FeedsFor self d u most bytes → result.1 ≢ Err StreamFault.Spent }
        ensures spent { (result.1 ≡ Err StreamFault.Spent) ↔ WasSpent self.paused }
        ensures goes_on { OnOk result.1 (¬ WasSpent result.0.paused) }
        ensures err { OnErr result.1 (WasSpent result.0.paused) }
        ensures alike { (d : Dictionary) (u : AnyPolicy) (most : AnyLevels) → ChecksBy self d u most → ChecksBy result.0 d u most }
    {
        let Feeding {
            owner,
            unknown,
            levels,
            paused,
        } = self;
        let (paused, answer) = fed_to(&*owner, paused, piece);
        let after = Feeding {
            owner,
            unknown,
            levels,
            paused,
        };
        (after, answer)
    }

    /// The same, and how many levels are open.
    pub fn counted(self) -> (Feeding, usize)
        ensures levels { (d : Dictionary) (u : AnyPolicy) (most : AnyLevels) (bytes : List ℕ)
            → FeedsFor self d u most bytes → CountsLevels d u most bytes result.1 }
        ensures kept { (d : Dictionary) (u : AnyPolicy) (most : AnyLevels) (bytes : List ℕ)
            → FeedsFor self d u most bytes → FeedsFor result.0 d u most bytes }
        ensures spent { WasSpent result.0.paused ↔ WasSpent self.paused }
        ensures alike { (d : Dictionary) (u : AnyPolicy) (most : AnyLevels) → ChecksBy self d u most → ChecksBy result.0 d u most }
    {
        let Feeding {
            owner,
            unknown,
            levels,
            paused,
        } = self;
        let (paused, count) = levels_of(&*owner, paused);
        let after = Feeding {
            owner,
            unknown,
            levels,
            paused,
        };
        (after, count)
    }

    /// What `check` answers of the bytes that came.
    pub fn finished(self) -> Result<Selected, Refusal>
        ensures answer { (d : Dictionary) (u : AnyPolicy) (most : AnyLevels) (bytes : List ℕ)
            → FeedsFor self d u most bytes → IsAnswer d u most bytes result }
        ensures spent { WasSpent self.paused → result ≡ Err Refusal.Spent }
        ensures memory { result ≢ Err Refusal.NoMemory }
    {
        let Feeding { owner, paused, .. } = self;
        finish_of(&*owner, paused)
    }

    /// A message of which nothing came, checked by the same, and what `check` answers of the bytes that came before.
    pub fn again(self, alloc: Global) -> (Feeding, Result<Selected, Refusal>)
        ensures begins { (d : Dictionary) (u : AnyPolicy) (most : AnyLevels) → ChecksBy self d u most → FeedsFor result.0 d u most [] }
        ensures goes_on { ¬ WasSpent result.0.paused }
        ensures answer { (d : Dictionary) (u : AnyPolicy) (most : AnyLevels) (bytes : List ℕ)
            → FeedsFor self d u most bytes → IsAnswer d u most bytes result.1 }
        ensures spent { WasSpent self.paused → result.1 ≡ Err Refusal.Spent }
        ensures memory { result.1 ≢ Err Refusal.NoMemory }
    {
        let Feeding {
            owner,
            unknown,
            levels,
            paused,
        } = self;
        let answer = finish_of(&*owner, paused);
        (Feeding::new(alloc, owner, unknown, levels), answer)
    }
}

fn begun<B: Book>(alloc: Global, book: &B, unknown: Unknown, levels: Levels) -> Paused
    ensures paused { HasPaused result (B.meaning book.now) unknown levels [] }
    ensures fits { ∥ IsPausedFor (B.meaning book.now) result ∥₁ }
    ensures goes_on { ¬ WasSpent result }
{
    Stream::new(alloc, book, unknown, levels).pause()
}

fn fed_to<B: Book>(
    book: &B,
    paused: Paused,
    piece: &[u8],
) -> (Paused, Result<Progress, StreamFault>)
    requires fits { ∥ IsPausedFor (B.meaning book.now) paused ∥₁ }
    ensures taken { (d : Dictionary) (u : AnyPolicy) (most : AnyLevels) (bytes : List ℕ)
        → HasPaused paused d u most bytes → B.meaning book.now ≡ d
        → IfOk result.1 (λ progress. Takes bytes piece.now progress
        × HasPaused result.0 d u most (bytes ++ take progress.taken piece.now)) }
    ensures no_memory { result.1 ≡ Err StreamFault.NoMemory
        → (d : Dictionary) (u : AnyPolicy) (most : AnyLevels) (bytes : List ℕ)
        → HasPaused paused d u most bytes → B.meaning book.now ≡ d
        → OpensLevel d most bytes (drop (length bytes) (taken_of (bytes ++ piece.now))) }
    ensures never { (d : Dictionary) (u : AnyPolicy) (most : AnyLevels) (bytes : List ℕ)
        → HasPaused paused d u most bytes → B.meaning book.now ≡ d → result.1 ≢ Err StreamFault.Spent }
    ensures spent { (result.1 ≡ Err StreamFault.Spent) ↔ WasSpent paused }
    ensures goes_on { OnOk result.1 (¬ WasSpent result.0) }
    ensures err { OnErr result.1 (WasSpent result.0) }
    ensures fits { ∥ IsPausedFor (B.meaning book.now) result.0 ∥₁ }
{
    let mut stream = paused.resume(book);
    let answer = stream.feed(piece);
    (stream.pause(), answer)
}

fn levels_of<B: Book>(book: &B, paused: Paused) -> (Paused, usize)
    requires fits { ∥ IsPausedFor (B.meaning book.now) paused ∥₁ }
    ensures levels { (d : Dictionary) (u : AnyPolicy) (most : AnyLevels) (bytes : List ℕ)
        → HasPaused paused d u most bytes → B.meaning book.now ≡ d → CountsLevels d u most bytes result.1 }
    ensures kept { (d : Dictionary) (u : AnyPolicy) (most : AnyLevels) (bytes : List ℕ)
        → HasPaused paused d u most bytes → B.meaning book.now ≡ d → HasPaused result.0 d u most bytes }
    ensures spent { WasSpent result.0 ↔ WasSpent paused }
    ensures fits { ∥ IsPausedFor (B.meaning book.now) result.0 ∥₁ }
{
    let stream = paused.resume(book);
    let levels = stream.levels();
    (stream.pause(), levels)
}

fn finish_of<B: Book>(book: &B, paused: Paused) -> Result<Selected, Refusal>
    requires fits { ∥ IsPausedFor (B.meaning book.now) paused ∥₁ }
    ensures answer { (d : Dictionary) (u : AnyPolicy) (most : AnyLevels) (bytes : List ℕ)
        → HasPaused paused d u most bytes → B.meaning book.now ≡ d → IsAnswer d u most bytes result }
    ensures spent { WasSpent paused → result ≡ Err Refusal.Spent }
    ensures memory { result ≢ Err Refusal.NoMemory }
{
    paused.resume(book).finish()
}
