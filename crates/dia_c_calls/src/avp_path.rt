//! The way from the body of a message to a byte.

ghost use Rattle.std.specs.Prelude.{◌≡◌, ◌<◌, ◌+◌, ◌^◌, IfErr, IfOk, length};
ghost use Rattle.dia_c_calls.specs.HeldOffsets.{AreFoundAt, AreFoundIn};
ghost use Rattle.dia_c_calls.specs.Verdicts.{IsNoMessage};

use crate::avp_list::list_avp;
use crate::avp_records::MessageAvp;
use crate::verdict::{Verdict, no_message};
use dia_book::Book;
use dia_wire::{AvpFault, HEADER_LENGTH, next_avp, split_message};

/// Records the AVPs of a message that hold the byte at an offset, the outermost first, as many as there is room for, and answers how
/// many there are.
pub fn list_path<B: Book>(
    book: &B,
    message: &[u8],
    offset: usize,
    avps: &mut [MessageAvp],
) -> Result<usize, Verdict>
    ensures done { IfOk result (AreFoundAt (B.meaning book.now) message.now offset avps.old avps.new) }
    ensures no_message { IfErr result (λ verdict. IsNoMessage message.now verdict × (avps.new ≡ avps.old)) }
{
    match split_message(message) {
        Ok((_, body)) => Ok(list_body(book, body, offset, avps)),
        Err(fault) => Err(no_message(fault)),
    }
}

/// The same of the body of a message.
fn list_body<B: Book>(book: &B, bytes: &[u8], offset: usize, avps: &mut [MessageAvp]) -> usize
    requires { 20 + length bytes.now < 2 ^ 63 }
    ensures { AreFoundIn (B.meaning book.now) (record { depth = 0; place = 20; bytes = bytes.now }) offset avps.old avps.new result }
{
    let mut rest = bytes;
    let mut place = HEADER_LENGTH;
    let mut depth = 0;
    loop {
        match next_avp(rest) {
            Ok(Some((avp, following))) => {
                let end = place + avp.length();
                if offset < place {
                    return depth;
                }
                if offset < end {
                    let is_group = list_avp(book, place, depth, &avp, avps, depth);
                    depth += 1;
                    if is_group {
                        place = end - avp.bytes.len();
                        rest = avp.bytes;
                    } else {
                        return depth;
                    }
                } else {
                    place += rest.len() - following.len();
                    rest = following;
                }
            }
            Ok(None) => return depth,
            Err(AvpFault::Length) => return depth,
        }
    }
}
