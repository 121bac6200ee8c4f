//! The first AVP of a code and a vendor in a message, outside of groups.

ghost use Rattle.std.specs.Prelude.{◌≡◌, ◌<◌, ◌+◌, ◌^◌, None, Ok, IfErr, IfOk, IfSome, length};
ghost use Rattle.dia_c_calls.specs.FirstAvps.{HasNoneIn, HasNoneOf, IsFirstIn, IsFirstOf};
ghost use Rattle.dia_c_calls.specs.Verdicts.{IsNoMessage};

use crate::avp_records::{MessageAvp, avp_record, known_avp};
use crate::verdict::{Verdict, no_message};
use dia_book::{Book, Key};
use dia_wire::{AvpFault, HEADER_LENGTH, key, next_avp, split_message};

/// The record of the first AVP of a message with this key that is in no group.
pub fn find_avp<B: Book>(
    book: &B,
    message: &[u8],
    wanted: Key,
) -> Result<Option<MessageAvp>, Verdict>
    ensures found { IfOk result (λ found. IfSome found
        (IsFirstIn (B.meaning book.now) message.now wanted.code wanted.vendor)) }
    ensures none { result ≡ Ok None → HasNoneIn (B.meaning book.now) message.now wanted.code wanted.vendor }
    ensures no_message { IfErr result (IsNoMessage message.now) }
{
    match split_message(message) {
        Ok((_, body)) => Ok(find_in(book, body, wanted)),
        Err(fault) => Err(no_message(fault)),
    }
}

/// The same of the body of a message.
fn find_in<B: Book>(book: &B, body: &[u8], wanted: Key) -> Option<MessageAvp>
    requires { 20 + length body.now < 2 ^ 63 }
    ensures found { IfSome result (IsFirstOf (B.meaning book.now) (record { depth = 0; place = 20; bytes = body.now }) wanted) }
    ensures none { result ≡ None → HasNoneOf (B.meaning book.now) (record { depth = 0; place = 20; bytes = body.now }) wanted }
{
    let mut rest = body;
    let mut place = HEADER_LENGTH;
    loop {
        match next_avp(rest) {
            Ok(Some((avp, following))) => {
                if key(&avp) == wanted {
                    return Some(avp_record(place, 0, &avp, known_avp(book, &avp)));
                }
                place += rest.len() - following.len();
                rest = following;
            }
            Ok(None) => return None,
            Err(AvpFault::Length) => return None,
        }
    }
}
