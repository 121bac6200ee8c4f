//! AVPs and messages written.

ghost use Rattle.dia_wire.specs.Wire.{plain_avp, Agrees};

use super::{Added, REQUEST, push_hex};
use crate::words::number_of;
use dia_rows::word;
use dia_wire::{Avp, Header, PutFault, put_avp, put_message};
use std::process::Abort;

/// The header of the request.
const HEADER: Header = Header {
    flags: 0x80,
    code: 280,
    app: 0,
    hop: 1,
    e2e: 2,
};

/// Adds the bytes of the AVP of a call with these data.
pub fn push_written(
    rt: &(impl AllocGlobal + Abort),
    out: &mut String,
    call: &str,
    bytes: &[u8],
) -> Added {
    let vendor = match word(call, 3) {
        "-" => None,
        vendor => Some(number_of(rt, vendor)),
    };
    let avp = Avp {
        code: number_of(rt, word(call, 2)),
        flags: word(call, 1).parse().expect(rt, call),
        vendor,
        bytes,
    };
    if avp.agrees() {
        push_put(rt, out, &avp)
    } else {
        out.push_str("disagrees")
    }
}

/// Adds the bytes that an AVP appends to a byte 9.
fn push_put(rt: &(impl AllocGlobal + Abort), out: &mut String, avp: &Avp<'_>) -> Added
    requires { Agrees (plain_avp avp.now) }
{
    let mut bytes = vec![in rt.alloc(); 9]?;
    put_avp(&mut bytes, avp).expect(rt, "room");
    let (first, rest) = bytes.as_slice().split_first().expect(rt, "a byte");
    assert!(rt; *first == 9);
    push_hex(out, rest)
}

/// An AVP that is mandatory, and has no vendor.
fn mandatory(code: u32, bytes: &[u8]) -> Avp<'_>
    ensures { Agrees (plain_avp result) }
{
    Avp {
        code,
        flags: 0x40,
        vendor: None,
        bytes,
    }
}

/// Appends the message of two AVPs.
fn put_two(out: &mut Vec<u8>, first: &Avp<'_>, second: &Avp<'_>) -> Result<(), PutFault>
    requires first { Agrees (plain_avp first.now) }
    requires second { Agrees (plain_avp second.now) }
{
    put_message(out, &HEADER, &[*first, *second])
}

#[test]
fn writes_the_message_that_was_read(rt: HostRuntime) {
    let mut out = Vec::new(rt.alloc());
    let put = put_two(&mut out, &mandatory(264, b"a.b"), &mandatory(296, b"b"));
    assert!(rt; HEADER.fits() && put.is_ok());
    assert!(rt; out.as_slice() == REQUEST.as_slice());
}

/// Appends a message of this AVP alone.
fn put_alone(out: &mut Vec<u8>, avp: &Avp<'_>) -> Result<(), PutFault>
    requires { Agrees (plain_avp avp.now) }
{
    put_message(out, &HEADER, &[*avp])
}

/// Checks that nothing was appended, as the length is too long.
fn is_too_long(rt: &impl Abort, put: Result<(), PutFault>, out: &[u8]) {
    assert!(rt; put == Err(PutFault::TooLong) && out == [1, 2, 3].as_slice());
}

/// Checks that an AVP of these data is too long.
fn refuses(rt: &impl Abort, out: &mut Vec<u8>, data: &[u8]) {
    let put = put_avp(out, &mandatory(1, data));
    is_too_long(rt, put, out.as_slice());
}

/// Checks that an AVP of these data is too long for a message, and not for itself.
fn takes_alone(rt: &impl Abort, out: &mut Vec<u8>, data: &[u8]) {
    let longest = mandatory(1, data);
    let put = put_alone(out, &longest);
    is_too_long(rt, put, out.as_slice());
    let put = put_avp(out, &longest);
    assert!(rt; put.is_ok() && out.len() == 3 + 16_777_216);
}

#[test]
fn keeps_the_limit_of_a_length(rt: HostRuntime) {
    let data = vec![in rt.alloc(); 0; 16_777_208].expect(&rt, "memory");
    let mut out = vec![in rt.alloc(); 1, 2, 3].expect(&rt, "memory");
    refuses(&rt, &mut out, data.as_slice());
    let (_, data) = data.split_first().expect(&rt, "data");
    takes_alone(&rt, &mut out, data);
}
