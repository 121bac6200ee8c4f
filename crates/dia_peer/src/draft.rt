//! AVPs that are made for a message.

ghost use Rattle.std.specs.Prelude.{◌≡◌, ◌++◌, ◌∷◌, [], ◌<◌, ◌^◌, IfOk, OnOk, map, All};
ghost use Rattle.std.specs.Int.{w32, to_be_bytes};
ghost use Rattle.dia_wire.specs.Wire.{plain_avp, Agrees, IsTooLong, MessageWithZeros};
ghost use Rattle.dia_peer.specs.Messages.{avp, avp32, header_of};
ghost use Rattle.dia_peer.specs.Drafts.{drafted, drafted_avp};

use crate::kept_requests::Ids;
use byteorder::{BigEndian, ByteOrder};
use dia_wire::{AVP_MANDATORY, Avp, Header, PutFault, put_message};
use std::alloc::{AllocError, Global};

/// An AVP without Vendor-ID that owns its data.
#[derive(Drop)]
pub(crate) struct OwnAvp {
    code: u32,
    /// Whether the M flag is set.
    must: bool,
    bytes: Vec<u8>,
}

impl OwnAvp {
    fn as_avp(&self) -> Avp<'_>
        ensures { plain_avp result ≡ drafted_avp self.now }
    {
        Avp {
            code: self.code,
            flags: if self.must { AVP_MANDATORY } else { 0 },
            vendor: None,
            bytes: &self.bytes,
        }
    }
}

/// The AVPs of a message, in order.
#[derive(Drop)]
pub(crate) struct Draft {
    alloc: Global,
    avps: Vec<OwnAvp>,
}

impl Draft {
    pub(crate) fn new(alloc: Global) -> Draft
        ensures { drafted result ≡ [] }
    {
        Draft {
            alloc,
            avps: Vec::new(alloc),
        }
    }

    /// Appends an AVP with the M flag set.
    pub(crate) fn put(&mut self, code: u32, bytes: &[u8]) -> Result<(), AllocError>
        ensures { OnOk result (drafted self.new ≡ drafted self.old ++ avp code AVP_MANDATORY bytes.now ∷ []) }
    {
        let bytes = Vec::from_slice(self.alloc, bytes)?;
        let must = true;
        self.avps.push(OwnAvp { code, must, bytes })?;
        Ok(())
    }

    /// Appends an AVP with the M flag clear.
    pub(crate) fn put_optional(&mut self, code: u32, bytes: &[u8]) -> Result<(), AllocError>
        ensures { OnOk result (drafted self.new ≡ drafted self.old ++ avp code 0 bytes.now ∷ []) }
    {
        let bytes = Vec::from_slice(self.alloc, bytes)?;
        let must = false;
        self.avps.push(OwnAvp { code, must, bytes })?;
        Ok(())
    }

    /// Appends an AVP of four bytes, with the M flag set.
    pub(crate) fn put_number(&mut self, code: u32, number: u32) -> Result<(), AllocError>
        ensures { OnOk result (drafted self.new ≡ drafted self.old ++ avp32 code number ∷ []) }
    {
        self.put(code, &four_bytes(number))
    }

    /// The message with these flags, this command code and these AVPs.
    pub(crate) fn message(&self, flags: u8, code: u32, ids: Ids) -> Result<Vec<u8>, AllocError>
        requires fits { code < 2 ^ 24 }
        requires short { ¬ IsTooLong (drafted self.now) }
        ensures { IfOk result
            (λ bytes. MessageWithZeros (header_of flags code ids) (drafted self.now) bytes.items) }
    {
        let header = Header {
            flags,
            code,
            app: 0,
            hop: ids.hop,
            e2e: ids.e2e,
        };
        let avps = borrowed(self.alloc, &self.avps)?;
        let mut bytes = Vec::new(self.alloc);
        match put_message(&mut bytes, &header, &avps) {
            Ok(()) => Ok(bytes),
            Err(PutFault::TooLong) => unreachable!(),
            Err(PutFault::NoMemory) => Err(AllocError),
        }
    }
}

fn borrowed<'a>(alloc: Global, avps: &'a [OwnAvp]) -> Result<Vec<Avp<'a>>, AllocError>
    ensures avps { IfOk result (λ found. map plain_avp found.items ≡ map drafted_avp avps.now) }
    ensures agree { IfOk result (λ found. All (λ v. Agrees (plain_avp v)) found.items) }
{
    let mut found = Vec::with_capacity(alloc, avps.len())?;
    for avp in avps {
        found.push(avp.as_avp())?;
    }
    Ok(found)
}

/// A number in network byte order.
pub(crate) fn four_bytes(number: u32) -> [u8; 4]
    ensures { result ≡ to_be_bytes w32 number }
{
    let mut bytes = [0; 4];
    BigEndian::write_u32(&mut bytes, number);
    bytes
}
