//! AVPs that can be written.

ghost use Rattle.std.specs.Prelude.{◌≡◌, All, IfOk, map};
ghost use Rattle.dia_wire.specs.Wire.{plain_avp, key_of, Agrees};
ghost use Rattle.dia_answer.specs.Stocks.{copied};

use dia_wire::{AVP_VENDOR, Avp, Key, key};
use std::alloc::{AllocError, Global};

/// An AVP whose V flag is set exactly where it has a Vendor-ID (RFC 6733 section 4.1).
#[derive(Clone, Copy)]
pub(crate) struct Held<'a> {
    pub(crate) avp: Avp<'a>,
    ghost agree: { Agrees (plain_avp avp) },
}

impl<'a> Held<'a> {
    pub(crate) fn new(avp: Avp<'a>) -> Self
        requires { Agrees (plain_avp avp) }
        ensures { result.avp ≡ avp.entry }
    {
        Held { avp }
    }

    pub(crate) fn key(&self) -> Key
        ensures { result ≡ key_of (plain_avp self.now.avp) }
    {
        key(&self.avp)
    }

    /// A copy, with no Vendor-ID where that is 0.
    pub(crate) fn copied(&self) -> Self
        ensures { plain_avp result.avp ≡ copied (plain_avp self.now.avp) }
    {
        match self.avp.vendor {
            Some(0) => Held::new(Avp {
                code: self.avp.code,
                flags: self.avp.flags & !AVP_VENDOR,
                vendor: None,
                bytes: self.avp.bytes,
            }),
            _ => *self,
        }
    }
}

/// The AVPs, as they are written.
pub(crate) fn written<'a>(alloc: Global, held: &[Held<'a>]) -> Result<Vec<Avp<'a>>, AllocError>
    ensures same { IfOk result (λ avps. map plain_avp avps.items ≡ map (λ h. plain_avp h.avp) held.now) }
    ensures agree { IfOk result (λ avps. All (λ v. Agrees (plain_avp v)) avps.items) }
{
    let mut avps = Vec::with_capacity(alloc, held.len())?;
    for one in held {
        avps.push(one.avp)?;
    }
    Ok(avps)
}
