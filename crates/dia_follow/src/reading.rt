//! The bytes of a message, read.

ghost use Rattle.std.specs.Prelude.{◌≤◌, IfOk};
ghost use Rattle.dia_follow.specs.Reading.{HasFields, IsBody, IsSeen};

use crate::contents::read_contents;
use crate::first::after_avps;
use crate::message::{Body, Head, Message, Seen};
use dia_wire::{HEADER_LENGTH, Header, read_header};
use std::alloc::{AllocError, Global};

/// Reads the bytes of a message. Where there are more than the Message Length says, the others aren't looked at.
pub fn read(alloc: Global, bytes: &[u8]) -> Result<Seen<'_>, AllocError>
    ensures { IfOk result (λ seen. IsSeen bytes.entry.now seen) }
{
    match read_header(bytes) {
        Ok((header, length)) => {
            let head = head_of(&header);
            let body = read_body(alloc, bytes, length as usize)?;
            Ok(Seen::Message(Message { head, length, body }))
        }
        Err(fault) => Ok(Seen::Unread(fault)),
    }
}

fn head_of(header: &Header) -> Head
    ensures { HasFields result header.now }
{
    Head {
        request: header.is_request(),
        proxiable: header.is_proxiable(),
        error: header.is_error(),
        retransmitted: header.is_retransmitted(),
        code: header.code,
        app: header.app,
        hop: header.hop,
        e2e: header.e2e,
    }
}

/// Reads the body of a message of this length.
fn read_body(alloc: Global, bytes: &[u8], length: usize) -> Result<Body<'_>, AllocError>
    requires header { 20 ≤ length }
    ensures { IfOk result (λ body. IsBody bytes.entry.now length body) }
{
    if bytes.len() < length {
        return Ok(Body::Cut);
    }
    let body = &bytes[HEADER_LENGTH..length];
    let left = after_avps(body);
    if left.is_empty() {
        let contents = read_contents(alloc, body)?;
        Ok(Body::Known(contents))
    } else {
        Ok(Body::Gap(length - left.len()))
    }
}
