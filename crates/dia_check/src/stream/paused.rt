//! A paused stream, without the dictionary that it checks by.

ghost use Rattle.std.specs.Prelude.{◌≡◌, ◌↔◌, ℕ, List};
ghost use Rattle.dia_book.specs.Dictionary.{Dictionary};
ghost use Rattle.dia_terms.specs.declared.Unknown.{Unknown as AnyPolicy};
ghost use Rattle.dia_terms.specs.declared.Levels.{Levels as AnyLevels};
ghost use Rattle.dia_check.specs.Pauses.{HasPaused, HasSeenPaused, IsPauseOf, IsPauseOfPart};
ghost use Rattle.dia_check.specs.Pauses.{IsPausedFor, IsResumeOf, IsResumeOfPart, WasSpent};
ghost use Rattle.dia_check.specs.Reading.{HasSeen};
ghost use Rattle.dia_check.specs.Streams.{IsSpent, Denotes, dictionary_of};

use crate::basis::Basis;
use crate::open_levels::OpenLevels;
use crate::stream::Stream;
use crate::stream::parts::{DataPart, HeadPart, Part};
use crate::stream::stages::{Body, Stage};
use dia_book::{Book, DefId};
use dia_data::{LeafState, SeenData};
use dia_terms::{Levels, Unknown};
use dia_wire::Key;

/// What a stream retains, apart from its dictionary: it goes on where it stopped, with the same one.
///
/// It borrows nothing, so that a caller can hold it next to the dictionary that it belongs to.
#[derive(Drop)]
pub struct Paused {
    unknown: Unknown,
    levels: Levels,
    taken: usize,
    wanted: usize,
    body: PausedBody,
    stage: Stage,
}

/// A body, apart from the dictionary.
#[derive(Drop)]
pub(crate) struct PausedBody {
    def: DefId,
    open_levels: OpenLevels,
    part: PausedPart,
}

#[derive(Clone, Copy)]
pub(crate) enum PausedPart {
    Head(HeadPart),
    Data(PausedData),
}

#[derive(Clone, Copy)]
pub(crate) struct PausedData {
    at: usize,
    key: Key,
    end: usize,
    next: usize,
    leaf: Option<SeenData>,
}

impl<'a, B: Book> Stream<'a, B> {
    /// Pauses the stream, without its dictionary. Takes no memory.
    pub fn pause(self) -> Paused
        ensures paused { (d : Dictionary) (u : AnyPolicy) (most : AnyLevels) (bytes : List ℕ)
            → Denotes B.meaning self.entry d u most bytes → HasPaused result d u most bytes }
        ensures fits { ∥ IsPausedFor (dictionary_of B.meaning self.entry) result ∥₁ }
        ensures spent { WasSpent result ↔ IsSpent self.entry }
    {
        Paused {
            unknown: self.basis.unknown,
            levels: self.basis.levels,
            taken: self.taken,
            wanted: self.wanted,
            body: pause_body(self.body),
            stage: self.stage,
        }
    }
}

impl Paused {
    /// Goes on with the dictionary that the stream was started with. Takes no memory.
    pub fn resume<'a, B: Book>(self, book: &'a B) -> Stream<'a, B>
        requires fits { ∥ IsPausedFor (B.meaning book.now) self ∥₁ }
        ensures dictionary { dictionary_of B.meaning result ≡ B.meaning book.now }
        ensures occurs { (d : Dictionary) (u : AnyPolicy) (most : AnyLevels) (bytes : List ℕ)
            → HasPaused self d u most bytes → B.meaning book.now ≡ d
            → Denotes B.meaning result d u most bytes }
        ensures spent { IsSpent result ↔ WasSpent self }
    {
        Stream {
            basis: Basis {
                book,
                unknown: self.unknown,
                levels: self.levels,
            },
            taken: self.taken,
            wanted: self.wanted,
            body: resume_body(book, self.body),
            stage: self.stage,
        }
    }
}

/// A body without the dictionary.
fn pause_body(body: Body<'_>) -> PausedBody
    ensures { (d : Dictionary) → IsPauseOf d body.entry result }
{
    PausedBody {
        def: body.def,
        part: pause_part(body.part),
        open_levels: body.open_levels,
    }
}

/// A part without the dictionary.
fn pause_part(part: Part<'_>) -> PausedPart
    ensures { (d : Dictionary) → IsPauseOfPart d part.entry result }
{
    match part {
        Part::Head(head) => PausedPart::Head(head),
        Part::Data(data) => PausedPart::Data(PausedData {
            at: data.at,
            key: data.key,
            end: data.end,
            next: data.next,
            leaf: pause_leaf(data.leaf),
        }),
    }
}

/// What was seen of data, without their format.
fn pause_leaf(leaf: Option<LeafState<'_>>) -> Option<SeenData>
    ensures { (d : Dictionary) (key : Key) (read : List ℕ) → HasSeen d leaf.entry key read
        → HasSeenPaused d result key read }
{
    match leaf {
        Some(state) => Some(state.seen()),
        None => None,
    }
}

/// A body with the dictionary.
fn resume_body<'a, B: Book>(book: &'a B, body: PausedBody) -> Body<'a>
    ensures { IsResumeOf (B.meaning book.now) body result }
{
    Body {
        def: body.def,
        part: resume_part(book, body.part),
        open_levels: body.open_levels,
    }
}

/// A part with the dictionary.
fn resume_part<'a, B: Book>(book: &'a B, part: PausedPart) -> Part<'a>
    ensures { IsResumeOfPart (B.meaning book.now) part result }
{
    match part {
        PausedPart::Head(head) => Part::Head(head),
        PausedPart::Data(data) => Part::Data(DataPart {
            at: data.at,
            key: data.key,
            end: data.end,
            next: data.next,
            leaf: resume_leaf(book, data.key, data.leaf),
        }),
    }
}

/// What was seen of the data of an AVP, with its format.
fn resume_leaf<'a, B: Book>(book: &'a B, key: Key, leaf: Option<SeenData>) -> Option<LeafState<'a>>
    ensures { (read : List ℕ) → HasSeenPaused (B.meaning book.now) leaf key read
        → HasSeen (B.meaning book.now) result key read }
{
    let seen = leaf?;
    let entry = book.avp(key)?;
    Some(LeafState::of(book.format(entry), seen))
}
