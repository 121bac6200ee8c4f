//! The AVPs of a message, and of the groups in it.

ghost use Rattle.std.specs.Prelude.{◌+◌, length, IfOk};
ghost use Rattle.dia_check.specs.Basis.{plain_basis};
ghost use Rattle.dia_check.specs.Reading.{IsInPiece, ReadsOn};
ghost use Rattle.dia_check.specs.Steps.{EndsAfter, HasReadAvps};

use crate::admission::{check_avp, missing_at_end, open_group};
use crate::basis::Basis;
use crate::fault::Refusal;
use crate::group::enter_at;
use crate::open_levels::OpenLevels;
use crate::recording::{broken, fault};
use dia_book::Book;
use dia_wire::{AvpFault, next_avp};

/// Reads a piece of a body, which begins at a place: the AVPs that lie whole in it, and the heads of the groups that go on
/// after it. `None` where the body ends with the piece, and else the place at which an AVP begins that goes on after the
/// piece and isn't entered, or where the piece ends.
pub(crate) fn read_piece<B: Book>(
    basis: &Basis<'_, B>,
    open_levels: &mut OpenLevels,
    from: usize,
    piece: &[u8],
) -> Result<Option<usize>, Refusal>
    requires { ∥ ReadsOn (plain_basis B.meaning basis.now) open_levels.old from from piece.now ∥₁ }
    ensures within { IfOk result (IsInPiece from piece.now) }
    ensures goes_on { IfOk result (EndsAfter (from + length piece.now) open_levels.new) }
    ensures next { HasReadAvps (plain_basis B.meaning basis.now)
        open_levels.old from piece.now open_levels.new result }
{
    let mut start = from;
    loop {
        let left = &piece[start - from..];
        let Some(at) = read_avps(basis, open_levels, start, left)? else {
            return Ok(None);
        };
        let ahead = &piece[at - from..];
        let Some(inner) = enter_at(basis, open_levels, at, ahead)? else {
            return Ok(Some(at));
        };
        start = inner;
    }
}

/// Goes over the AVPs that lie whole in a piece of a body, which begins at a place: each AVP where it lies, and the
/// members of a group before what follows it. `None` where the body ends with the piece, and else the place at which the
/// AVP begins that goes on after the piece, or where the piece ends.
///
/// Levels that are open wait in a list, so the depth of a message costs memory and no stack.
#[inline(never)]
pub(crate) fn read_avps<B: Book>(
    basis: &Basis<'_, B>,
    open_levels: &mut OpenLevels,
    from: usize,
    piece: &[u8],
) -> Result<Option<usize>, Refusal>
    requires { ∥ ReadsOn (plain_basis B.meaning basis.now) open_levels.old from from piece.now ∥₁ }
    ensures within { IfOk result (IsInPiece from piece.now) }
    ensures goes_on { IfOk result (EndsAfter (from + length piece.now) open_levels.new) }
    ensures next { HasReadAvps (plain_basis B.meaning basis.now)
        open_levels.old from piece.now open_levels.new result }
{
    // a copy of its own stays in registers over the loop
    let own = Basis {
        book: basis.book,
        unknown: basis.unknown,
        levels: basis.levels,
    };
    let stop = from + piece.len();
    let mut at = from;
    loop {
        let end = open_levels.innermost().end;
        let until = end.min(stop);
        match next_avp(&piece[at - from..until - from]) {
            Ok(Some((avp, rest))) => {
                match check_avp(&own, open_levels, &avp) {
                    Ok(Some(group)) => {
                        let length = avp.length();
                        open_group(own.book, open_levels, group, at + length)?;
                        at += length - avp.bytes.len();
                    }
                    Ok(None) => at = until - rest.len(),
                    Err(wrong) => return Err(fault(at, wrong)),
                }
            }
            Ok(None) => {
                if stop < end {
                    return Ok(Some(at));
                }
                if let Some(wrong) = missing_at_end(own.book, open_levels) {
                    return Err(fault(end, wrong));
                }
                if !open_levels.close() {
                    return Ok(None);
                }
            }
            Err(AvpFault::Length) => {
                if stop < end {
                    return Ok(Some(at));
                }
                return Err(broken(at));
            }
        }
    }
}
