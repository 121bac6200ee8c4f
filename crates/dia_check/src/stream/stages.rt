//! How far a message was read that comes in pieces.

ghost use Rattle.std.specs.Prelude.{◌≡◌, ◌≢◌, ◌⊎◌, ◌<◌, ◌^◌, Err};
ghost use Rattle.dia_terms.specs.declared.Unknown.{Unknown as AnyPolicy};
ghost use Rattle.dia_terms.specs.declared.Levels.{Levels as AnyLevels};
ghost use Rattle.dia_check.specs.Basis.{plain_basis};
ghost use Rattle.dia_check.specs.Faults.{simple};
ghost use Rattle.dia_check.specs.Front.{front_bytes};
ghost use Rattle.dia_check.specs.Streaming.{BeginsGood, HasReadUnless, wanted};
ghost use Rattle.dia_check.specs.Stages.{HasBegun, HasBegunBody, HasReadMore, HasReadPiece};
ghost use Rattle.dia_check.specs.Stages.{IsOfSome, IsReadingSome, MayReadSome};

use crate::admission::open_body;
use crate::basis::Basis;
use crate::fault::{Reason, Refusal, Selected};
use crate::header::good_command;
use crate::open_levels::OpenLevels;
use crate::recording::simple_fault;
use crate::stream::front::Front;
use crate::stream::parts::{HeadPart, Part, go_on, read_part};
use dia_book::{Book, DefId};
use dia_wire::{HEADER_LENGTH, HeadFault, Header, read_header};

/// How far a message was read.
#[derive(Clone, Copy)]
pub(crate) enum Stage {
    /// Its header isn't whole yet.
    Header(Front),
    /// Its body is being read.
    InBody,
    /// The answer for the whole message.
    Over(Result<Selected, Refusal>),
    /// Memory was refused.
    NoMemory,
}

/// A body that is being read. Before and after that only the memory of its levels is of use.
#[derive(Drop)]
pub(crate) struct Body<'a> {
    pub(crate) def: DefId,
    pub(crate) open_levels: OpenLevels,
    pub(crate) part: Part<'a>,
}

impl<'a> Body<'a> {
    /// A body that isn't being read, in the memory of these levels.
    #[inline(always)]
    pub(crate) fn idle(open_levels: OpenLevels) -> Self {
        Body {
            def: DefId::new(0),
            open_levels,
            part: Part::Head(HeadPart {
                at: 0,
                front: Front::new(),
            }),
        }
    }
}

/// Reads a piece of a body, which begins at a place and doesn't go past its end. Answers whether the body ends with it.
#[inline(always)]
fn read_all<'a, B: Book>(
    basis: &Basis<'a, B>,
    body: &mut Body<'a>,
    from: usize,
    piece: &[u8],
) -> Result<bool, Refusal>
    requires { ∥ IsReadingSome (plain_basis B.meaning basis.now) body.old from piece.now ∥₁ }
    ensures next { HasReadPiece (plain_basis B.meaning basis.now)
        body.old from piece.now body.new result }
    ensures def { body.new.def ≡ body.old.def }
{
    let mut taken = 0;
    while taken < piece.len() {
        let done = read_part(
            basis,
            &mut body.open_levels,
            body.part,
            from + taken,
            &piece[taken..],
        )?;
        let Some(part) = done.next else {
            return Ok(true);
        };
        body.part = part;
        taken += done.taken;
    }
    Ok(false)
}

/// Reads a piece after the header, which begins at a place and doesn't go past the end of the message. Answers the stage
/// after it.
#[inline(always)]
pub(crate) fn read_stage<'a, B: Book>(
    basis: &Basis<'a, B>,
    body: &mut Body<'a>,
    stage: Stage,
    from: usize,
    piece: &[u8],
) -> Stage
    requires { ∥ MayReadSome (plain_basis B.meaning basis.now) body.old stage from piece.now ∥₁ }
    ensures { HasReadMore (plain_basis B.meaning basis.now)
        body.old stage from piece.now body.new result }
{
    match stage {
        Stage::InBody => read_body(basis, body, from, piece),
        _ => stage,
    }
}

/// Reads a piece of a body. Answers the stage after it.
#[inline(always)]
fn read_body<'a, B: Book>(
    basis: &Basis<'a, B>,
    body: &mut Body<'a>,
    from: usize,
    piece: &[u8],
) -> Stage
    requires { ∥ MayReadSome (plain_basis B.meaning basis.now)
        body.old Stage.InBody from piece.now ∥₁ }
    ensures { HasReadMore (plain_basis B.meaning basis.now)
        body.old Stage.InBody from piece.now body.new result }
{
    match read_all(basis, body, from, piece) {
        Ok(false) => Stage::InBody,
        Ok(true) => Stage::Over(Ok(Selected { def: body.def })),
        Err(refusal) => stopped(refusal),
    }
}

/// How a stream goes on after a refusal.
#[inline(always)]
fn stopped(refusal: Refusal) -> Stage
    ensures { ((refusal ≡ Refusal.NoMemory) × (result ≡ Stage.NoMemory))
        ⊎ ((refusal ≢ Refusal.NoMemory) × (result ≡ Stage.Over (Err refusal))) }
{
    match refusal {
        Refusal::NoMemory => Stage::NoMemory,
        _ => Stage::Over(Err(refusal)),
    }
}

/// What the first bytes of a message are read as: how many bytes are wanted in all, and how far they were read.
#[inline(always)]
pub(crate) fn read_front<'a, B: Book>(
    book: &'a B,
    front: Front,
    body: &mut Body<'a>,
) -> (usize, Stage)
    ensures wants { (result.0 ≡ wanted (front_bytes front)) × (result.0 < 2 ^ 32) }
    ensures read { (u : AnyPolicy) (most : AnyLevels)
        → HasReadUnless (BeginsGood (B.meaning book.now) (front_bytes front))
        (B.meaning book.now) u most (front_bytes front) body.new result.1 }
{
    match read_header(front.as_slice()) {
        Ok((header, length)) => {
            let end = length as usize;
            (end, begin(book, &header, end, body))
        }
        Err(HeadFault::Short) => (HEADER_LENGTH, Stage::Header(front)),
        Err(HeadFault::Version) => (HEADER_LENGTH, over(0, Reason::Version)),
        Err(HeadFault::Length) => (HEADER_LENGTH, over(1, Reason::Length)),
    }
}

/// How a message goes on after its header, where it ends at a place.
#[inline(always)]
fn begin<'a, B: Book>(book: &'a B, header: &Header, end: usize, body: &mut Body<'a>) -> Stage
    requires { ∥ IsOfSome header.now end ∥₁ }
    ensures { HasBegun (B.meaning book.now) header.now end body.new result }
{
    match begin_body(book, header, end, body) {
        Ok(stage) => stage,
        Err(refusal) => stopped(refusal),
    }
}

/// What is to be read after the header of a message that ends at a place.
#[inline(always)]
fn begin_body<'a, B: Book>(
    book: &'a B,
    header: &Header,
    end: usize,
    body: &mut Body<'a>,
) -> Result<Stage, Refusal>
    requires { ∥ IsOfSome header.now end ∥₁ }
    ensures { HasBegunBody (B.meaning book.now) header.now end body.new result }
{
    let def = good_command(book, header)?;
    open_body(book, &mut body.open_levels, def, end)?;
    match go_on(book, &mut body.open_levels, HEADER_LENGTH)? {
        Some(part) => {
            body.def = def;
            body.part = part;
            Ok(Stage::InBody)
        }
        None => Ok(Stage::Over(Ok(Selected { def }))),
    }
}

/// A fault of the version or of Message Length.
fn over(place: usize, reason: Reason) -> Stage
    requires { place < 20 }
    ensures { result ≡ Stage.Over (Err (Refusal.Fault (simple place reason))) }
{
    Stage::Over(Err(simple_fault(place, reason)))
}
