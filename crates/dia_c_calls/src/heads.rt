//! The header of a message.

ghost use Rattle.std.specs.Prelude.{◌⊎◌, ◌≡◌};
ghost use Rattle.dia_c_calls.specs.Heads.{BeginsWithHead, head_record};
ghost use Rattle.dia_c_calls.specs.Verdicts.{IsHeadVerdict};

use crate::status::{DONE, REFUSED};
use crate::verdict::{Verdict, header_of};
use dia_wire::Header;

/// The fields of a header (RFC 6733 section 3).
#[repr(C)]
#[derive(Clone, Copy)]
pub struct MessageHead {
    /// Message Length.
    pub length: u32,
    pub flags: u32,
    pub code: u32,
    pub app: u32,
    pub hop: u32,
    pub e2e: u32,
}

/// The header with which the bytes begin.
pub fn header(bytes: &[u8], head: &mut MessageHead, verdict: &mut Verdict) -> u32
    ensures ends { (result ≡ DONE) ⊎ (result ≡ REFUSED) }
    ensures done { result ≡ DONE → BeginsWithHead bytes.now head.new }
    ensures refused { result ≡ REFUSED → IsHeadVerdict bytes.now verdict.new }
    ensures only { result ≡ DONE → verdict.new ≡ verdict.old }
    ensures kept { result ≡ REFUSED → head.new ≡ head.old }
{
    match header_of(bytes) {
        Ok((found, length)) => {
            *head = head_record(&found, length);
            DONE
        }
        Err(recorded) => {
            *verdict = recorded;
            REFUSED
        }
    }
}

fn head_record(header: &Header, length: u32) -> MessageHead
    ensures { result ≡ head_record header.now length }
{
    MessageHead {
        length,
        flags: u32::from(header.flags),
        code: header.code,
        app: header.app,
        hop: header.hop,
        e2e: header.e2e,
    }
}
