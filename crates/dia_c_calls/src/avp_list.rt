//! The walk over a message that lists its AVPs.

ghost use Rattle.std.specs.Prelude.{◌≡◌, ◌<◌, ◌+◌, ◌^◌, IfErr, IfOk, length, set};
ghost use Rattle.dia_wire.specs.Wire.{avp_length, plain_avp};
ghost use Rattle.dia_run.specs.Rows.{is_group, known_avp};
ghost use Rattle.dia_c_calls.specs.Avps.{AreLevelListed, AreListed, avp_record};
ghost use Rattle.dia_c_calls.specs.declared.verdict.Verdict.{Verdict as AnyVerdict};
ghost use Rattle.dia_c_calls.specs.Verdicts.{IsNoMessage};

use crate::avp_records::{MessageAvp, avp_record, is_group, known_avp};
use crate::listing::Unshown;
use crate::verdict::no_message;
use dia_book::Book;
use dia_wire::{Avp, AvpFault, HEADER_LENGTH, next_avp, split_message};
use std::alloc::{AllocError, Global};

/// How many AVPs there are, and the offset of the first bad AVP Length, or else of the end.
#[derive(Clone, Copy)]
pub struct Listed {
    pub count: usize,
    pub bad: usize,
}

/// What is left of a level, and the offset of the level's end.
#[derive(Clone, Copy)]
struct Rest<'a> {
    bytes: &'a [u8],
    end: usize,
}

/// Records the AVPs of a message, each group that the dictionary has followed by its members, as many as there is room for.
pub fn list_avps<B: Book>(
    alloc: Global,
    book: &B,
    message: &[u8],
    avps: &mut [MessageAvp],
) -> Result<Listed, Unshown>
    ensures done { IfOk result (λ found. AreListed (B.meaning book.now) message.now avps.old avps.new found.count found.bad) }
    ensures no_message { IfErr result (λ e. (v : AnyVerdict) → e ≡ Unshown.NoMessage v
        → IsNoMessage message.now v × (avps.new ≡ avps.old)) }
{
    match split_message(message) {
        Ok((_, body)) => Ok(list_level(alloc, book, body, HEADER_LENGTH, avps)?),
        Err(fault) => Err(Unshown::NoMessage(no_message(fault))),
    }
}

/// Records the AVPs of a level, and of the groups in it that the dictionary has. `bytes` are the level, which begins at `place`.
/// A bad AVP Length ends its own level.
///
/// The levels around the current one wait in a list, so depth takes memory and no stack.
fn list_level<B: Book>(
    alloc: Global,
    book: &B,
    bytes: &[u8],
    place: usize,
    avps: &mut [MessageAvp],
) -> Result<Listed, AllocError>
    requires { place + length bytes.now < 2 ^ 63 }
    ensures { IfOk result (λ found. AreLevelListed (B.meaning book.now)
        (record { depth = 0; place = place; bytes = bytes.now }) avps.old avps.new found.count found.bad) }
{
    let end = place + bytes.len();
    let mut outer = Vec::new(alloc);
    let mut rest = Rest { bytes, end };
    let mut count = 0;
    let mut bad = None;
    loop {
        let place = rest.end - rest.bytes.len();
        match next_avp(rest.bytes) {
            Ok(Some((avp, following))) => {
                let is_group = list_avp(book, place, outer.len(), &avp, avps, count);
                count += 1;
                rest.bytes = following;
                if is_group {
                    outer.push(rest)?;
                    rest = Rest {
                        bytes: avp.bytes,
                        end: place + avp.length(),
                    };
                }
            }
            Ok(None) => match outer.pop() {
                Some(level) => rest = level,
                None => {
                    return Ok(Listed {
                        count,
                        bad: bad.unwrap_or(end),
                    });
                }
            },
            Err(AvpFault::Length) => {
                bad = bad.or(Some(place));
                rest.bytes = &[];
            }
        }
    }
}

/// Records an AVP at an index, if there is room for it, and answers whether it is a group that the dictionary has.
pub fn list_avp<B: Book>(
    book: &B,
    place: usize,
    depth: usize,
    avp: &Avp<'_>,
    avps: &mut [MessageAvp],
    index: usize,
) -> bool
    requires { place + avp_length (plain_avp avp.now) < 2 ^ 63 }
    ensures recorded { avps.new ≡ set avps.old index
        (avp_record place depth (plain_avp avp.now) (known_avp (B.meaning book.now) (plain_avp avp.now))) }
    ensures is_group { result ≡ is_group (known_avp (B.meaning book.now) (plain_avp avp.now)) }
{
    let known = known_avp(book, avp);
    if index < avps.len() {
        avps[index] = avp_record(place, depth, avp, known);
    }
    is_group(known)
}
