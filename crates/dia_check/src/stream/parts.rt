//! The parts of a body as they come: the head of an AVP, and its data.

ghost use Rattle.std.specs.Prelude.{◌<◌, ◌^◌, length, IfOk};
ghost use Rattle.dia_check.specs.Basis.{plain_basis};
ghost use Rattle.dia_check.specs.Reading.{AreSound, GoesOn, IsAtSomeAvp, IsReadData, ReadsOn};
ghost use Rattle.dia_check.specs.Steps.{HasBegunHead, HasGoneOn, HasReadData, HasReadHead};
ghost use Rattle.dia_check.specs.Steps.{HasReadOn, HasReadPart, TakesSome};

use crate::admission::{admit, missing_at_end};
use crate::basis::Basis;
use crate::body::read_piece;
use crate::fault::Refusal;
use crate::group::{enter_group, head_key, head_length};
use crate::open_levels::{OpenLevels, Wrong};
use crate::recording::{broken, fault};
use crate::stream::front::Front;
use crate::stream::leaf::{feed_leaf, start_leaf, wrong_leaf};
use dia_book::Book;
use dia_data::LeafState;
use dia_wire::{AVP_HEAD_LENGTH, AvpFault, AvpHead, Key, avp_head};

/// The part of a body that is being read.
#[derive(Clone, Copy)]
pub(crate) enum Part<'a> {
    Head(HeadPart),
    Data(DataPart<'a>),
}

/// The head of an AVP at a place, which isn't whole yet.
#[derive(Clone, Copy)]
pub(crate) struct HeadPart {
    pub(crate) at: usize,
    pub(crate) front: Front,
}

/// The data and the padding of an AVP that is no known group, as far as they weren't read yet.
#[derive(Clone, Copy)]
pub(crate) struct DataPart<'a> {
    pub(crate) at: usize,
    pub(crate) key: Key,
    /// The place after the data.
    pub(crate) end: usize,
    /// The place after the padding.
    pub(crate) next: usize,
    /// What was seen of the data of a known AVP.
    pub(crate) leaf: Option<LeafState<'a>>,
}

/// The bytes of a piece that belong to the part, and the part that follows them; none where they end the body.
#[derive(Clone, Copy)]
pub(crate) struct Done<'a> {
    pub(crate) taken: usize,
    pub(crate) next: Option<Part<'a>>,
}

/// Goes on at a place, where an AVP begins or levels end.
#[inline(always)]
pub(crate) fn go_on<'a, B: Book>(
    book: &'a B,
    open_levels: &mut OpenLevels,
    at: usize,
) -> Result<Option<Part<'a>>, Refusal>
    requires { ∥ AreSound (B.meaning book.now) open_levels.old at ∥₁ }
    ensures { HasGoneOn (B.meaning book.now) open_levels.old at open_levels.new result }
{
    loop {
        let end = open_levels.innermost().end;
        if at < end {
            let part = begin_head(open_levels, at)?;
            return Ok(Some(Part::Head(part)));
        }
        if let Some(wrong) = missing_at_end(book, open_levels) {
            return Err(fault(end, wrong));
        }
        if !open_levels.close() {
            return Ok(None);
        }
    }
}

/// Begins with the head of the AVP at a place, which lies in the innermost level.
#[inline(always)]
fn begin_head(open_levels: &OpenLevels, at: usize) -> Result<HeadPart, Refusal>
    requires within { at < open_levels.now.innermost.end }
    requires few { at < 2 ^ 32 }
    ensures { HasBegunHead open_levels.now at result }
{
    if open_levels.innermost().end - at < AVP_HEAD_LENGTH {
        return Err(broken(at));
    }
    let front = Front::new();
    Ok(HeadPart { at, front })
}

/// Reads on in a part. The piece begins at a place and doesn't go past the end of the message.
#[inline(always)]
pub(crate) fn read_part<'a, B: Book>(
    basis: &Basis<'a, B>,
    open_levels: &mut OpenLevels,
    part: Part<'a>,
    from: usize,
    piece: &[u8],
) -> Result<Done<'a>, Refusal>
    requires part { ∥ GoesOn (plain_basis B.meaning basis.now)
        open_levels.old part from piece.now ∥₁ }
    requires some { 0 < length piece.now }
    ensures count { IfOk result (TakesSome piece.now) }
    ensures next { HasReadPart (plain_basis B.meaning basis.now)
        open_levels.old part.entry from piece.now open_levels.new result }
{
    match part {
        Part::Head(part) => {
            if part.at == from {
                read_on(basis, open_levels, from, piece)
            } else {
                read_head(basis, open_levels, part, from, piece)
            }
        }
        Part::Data(part) => read_data(basis, open_levels, part, from, piece),
    }
}

/// Goes over the AVPs that lie whole in a piece, or reads on in the head of the first, where it doesn't.
#[inline(always)]
fn read_on<'a, B: Book>(
    basis: &Basis<'a, B>,
    open_levels: &mut OpenLevels,
    from: usize,
    piece: &[u8],
) -> Result<Done<'a>, Refusal>
    requires under_way { ∥ ReadsOn (plain_basis B.meaning basis.now)
        open_levels.old from from piece.now ∥₁ }
    requires some { 0 < length piece.now }
    ensures count { IfOk result (TakesSome piece.now) }
    ensures next { HasReadOn (plain_basis B.meaning basis.now)
        open_levels.old from piece.now open_levels.new result }
{
    let Some(at) = read_piece(basis, open_levels, from, piece)? else {
        return Ok(Done {
            taken: piece.len(),
            next: None,
        });
    };
    let part = begin_head(open_levels, at)?;
    if at == from {
        return read_head(basis, open_levels, part, from, piece);
    }
    Ok(Done {
        taken: at - from,
        next: Some(Part::Head(part)),
    })
}

/// Reads on in the head of an AVP.
#[inline(always)]
fn read_head<'a, B: Book>(
    basis: &Basis<'a, B>,
    open_levels: &mut OpenLevels,
    part: HeadPart,
    from: usize,
    piece: &[u8],
) -> Result<Done<'a>, Refusal>
    requires part { ∥ GoesOn (plain_basis B.meaning basis.now)
        open_levels.old (Part.Head part) from piece.now ∥₁ }
    requires some { 0 < length piece.now }
    ensures count { IfOk result (TakesSome piece.now) }
    ensures next { HasReadPart (plain_basis B.meaning basis.now)
        open_levels.old (Part.Head part) from piece.now open_levels.new result }
{
    let at = part.at;
    let mut front = part.front;
    front.take_from(piece);
    match avp_head(front.as_slice(), open_levels.innermost().end - at) {
        Ok(Some(head)) => {
            let taken = head_length(&head) - part.front.len();
            let next = begin_data(basis, open_levels, at, &head)?;
            Ok(Done { taken, next })
        }
        Ok(None) => Ok(Done {
            taken: piece.len(),
            next: Some(Part::Head(HeadPart { at, front })),
        }),
        Err(AvpFault::Length) => Err(broken(at)),
    }
}

/// Goes on after the head of an AVP.
#[inline(always)]
fn begin_data<'a, B: Book>(
    basis: &Basis<'a, B>,
    open_levels: &mut OpenLevels,
    at: usize,
    head: &AvpHead,
) -> Result<Option<Part<'a>>, Refusal>
    requires { ∥ IsAtSomeAvp (plain_basis B.meaning basis.now) open_levels.old at head.now ∥₁ }
    ensures { HasReadHead (plain_basis B.meaning basis.now)
        open_levels.old at head.now open_levels.new result }
{
    if let Some(start) = enter_group(basis, open_levels, at, head)? {
        return go_on(basis.book, open_levels, start);
    }
    let key = head_key(head);
    let known = basis.book.avp(key);
    if let Some(wrong) = admit(basis, open_levels, key, &known, head.flags) {
        return Err(fault(at, wrong));
    }
    let end = at + head.length as usize;
    let part = DataPart {
        at,
        key,
        end,
        next: end.next_multiple_of(4),
        leaf: start_leaf(basis.book, key, &known),
    };
    if at + head_length(head) < part.next {
        Ok(Some(Part::Data(part)))
    } else {
        end_data(basis.book, open_levels, part)
    }
}

/// Reads on in the data and the padding of an AVP.
#[inline(always)]
fn read_data<'a, B: Book>(
    basis: &Basis<'a, B>,
    open_levels: &mut OpenLevels,
    part: DataPart<'a>,
    from: usize,
    piece: &[u8],
) -> Result<Done<'a>, Refusal>
    requires part { ∥ GoesOn (plain_basis B.meaning basis.now)
        open_levels.old (Part.Data part) from piece.now ∥₁ }
    requires some { 0 < length piece.now }
    ensures count { IfOk result (TakesSome piece.now) }
    ensures next { HasReadPart (plain_basis B.meaning basis.now)
        open_levels.old (Part.Data part.entry) from piece.now open_levels.new result }
{
    let taken = piece.len().min(part.next - from);
    let mut part = part;
    let count = taken.min(part.end.saturating_sub(from));
    feed_leaf(&mut part.leaf, &piece[..count]);
    if from + taken < part.next {
        return Ok(Done {
            taken,
            next: Some(Part::Data(part)),
        });
    }
    let next = end_data(basis.book, open_levels, part)?;
    Ok(Done { taken, next })
}

/// Judges the data of an AVP that was read wholly, and goes on after its padding.
#[inline(always)]
fn end_data<'a, B: Book>(
    book: &'a B,
    open_levels: &mut OpenLevels,
    part: DataPart<'a>,
) -> Result<Option<Part<'a>>, Refusal>
    requires { ∥ IsReadData (B.meaning book.now) open_levels.old part ∥₁ }
    ensures { HasReadData
        (B.meaning book.now) open_levels.old part.entry open_levels.new result }
{
    if let Some(reason) = wrong_leaf(part.leaf) {
        return Err(fault(part.at, Wrong::avp(reason, part.key)));
    }
    go_on(book, open_levels, part.next)
}
