//! The first bytes of an AVP.

ghost use Rattle.std.specs.Prelude.{◌≡◌, ◌≤◌, ◌+◌, ◌*◌, ◌/◌, ◌⊎◌, ◌↔◌, length, take, drop};
ghost use Rattle.std.specs.Prelude.{slice_index, IfOk, IsErr, OnErr, Some, None};
ghost use Rattle.byteorder.specs.Endian.{big_from};
ghost use Rattle.dia_wire.specs.Lengths.{avp_head_length, vendor_avp_head_length};
ghost use Rattle.dia_wire.specs.Number.{number};
ghost use Rattle.dia_wire.specs.Wire.{HasVendorFlag, CannotBegin, IsBadLength};

use crate::avp::{AVP_HEAD_LENGTH, AVP_VENDOR, AvpFault, VENDOR_AVP_HEAD_LENGTH, padded};
use crate::header::THREE_BYTES;
use byteorder::{BigEndian, ByteOrder};

/// What the first 8 bytes of an AVP say (RFC 6733 section 4.1).
#[derive(Clone, Copy)]
pub(crate) struct Opening {
    pub(crate) code: u32,
    pub(crate) flags: u8,
    pub(crate) length: u32,
    /// How many bytes precede the data.
    pub(crate) start: usize,
}

impl Opening {
    /// Reads the first 8 bytes of an AVP, where `room` bytes of the level are left. `Length` where the AVP Length is
    /// shorter than the AVP's header, or padded longer than the room.
    #[inline(always)]
    pub(crate) fn read(bytes: &[u8], room: usize) -> Result<Self, AvpFault>
        requires { avp_head_length ≤ length bytes.now }
        ensures code { IfOk result (λ o. o.code ≡ big_from 0 4 bytes.now) }
        ensures flags { IfOk result (λ o. o.flags ≡ slice_index bytes.now 4) }
        ensures length { IfOk result (λ o. o.length ≡ big_from 0 3 (drop 5 bytes.now)) }
        ensures start { IfOk result
            (λ o. (HasVendorFlag o.flags × (o.start ≡ vendor_avp_head_length))
            ⊎ ((¬ HasVendorFlag o.flags) × (o.start ≡ avp_head_length))) }
        ensures header_fits { IfOk result (λ o. o.start ≤ o.length) }
        ensures room { IfOk result (λ o. (o.length + 3) / 4 * 4 ≤ room) }
        ensures fault { OnErr result (CannotBegin bytes.now room) }
        ensures refused { IsErr result
            ↔ IsBadLength (slice_index bytes.now 4) (number (take 3 (drop 5 bytes.now))) room }
    {
        let code = BigEndian::read_u32(bytes);
        let (flags, length) = flags_and_length(bytes);
        let has_vendor = flags & AVP_VENDOR != 0;
        let start = if has_vendor {
            VENDOR_AVP_HEAD_LENGTH
        } else {
            AVP_HEAD_LENGTH
        };
        if (length as usize) < start || padded(length) > room {
            return Err(AvpFault::Length);
        }
        Ok(Self {
            code,
            flags,
            length,
            start,
        })
    }

    /// The Vendor-ID after the first 8 bytes of an AVP, where the V flag says that it is there.
    #[inline(always)]
    pub(crate) fn vendor(&self, bytes: &[u8]) -> Option<u32>
        requires { HasVendorFlag self.now.flags → vendor_avp_head_length ≤ length bytes.now }
        ensures { (HasVendorFlag self.now.flags
            × (result ≡ Some (big_from 0 4 (drop avp_head_length bytes.now))))
            ⊎ ((¬ HasVendorFlag self.now.flags) × (result ≡ None)) }
    {
        if self.flags & AVP_VENDOR != 0 {
            Some(BigEndian::read_u32(&bytes[AVP_HEAD_LENGTH..]))
        } else {
            None
        }
    }
}

/// The AVP Flags and the AVP Length, which lie in one word.
#[inline(always)]
pub(crate) fn flags_and_length(bytes: &[u8]) -> (u8, u32)
    requires { avp_head_length ≤ length bytes.now }
    ensures flags { result.0 ≡ slice_index bytes.now 4 }
    ensures length { result.1 ≡ big_from 0 3 (drop 5 bytes.now) }
{
    let word = BigEndian::read_u32(&bytes[4..]);
    ((word / THREE_BYTES) as u8, word % THREE_BYTES)
}
