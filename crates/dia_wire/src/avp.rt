ghost use Rattle.std.specs.Prelude.{◌≡◌, ◌+◌, ◌*◌, ◌/◌, ◌↔◌, IsTrue};
ghost use Rattle.dia_wire.specs.Wire.{plain_avp, key_of, avp_length, Agrees, HasM};

use crate::avp_key::Key;
use thiserror::Error;

/// The bytes of an AVP's header without a Vendor-ID (RFC 6733 section 4.1).
pub const AVP_HEAD_LENGTH: usize = 8;
/// The bytes of an AVP's header with a Vendor-ID (RFC 6733 section 4.1).
pub const VENDOR_AVP_HEAD_LENGTH: usize = 12;

/// The V flag of an AVP (RFC 6733 section 4.1): a Vendor-ID follows the Length.
pub const AVP_VENDOR: u8 = 0x80;
/// The M flag of an AVP (RFC 6733 section 4.1): a receiver has to understand the AVP.
pub const AVP_MANDATORY: u8 = 0x40;
/// The P flag of an AVP (RFC 6733 section 4.1), which is reserved for end-to-end security.
pub const AVP_PROTECTED: u8 = 0x20;

/// An AVP (RFC 6733 section 4.1) whose data lies in a message.
#[derive(Clone, Copy)]
pub struct Avp<'a> {
    pub code: u32,
    /// The AVP Flags: V, M and P. The other bits are retained and mean nothing.
    pub flags: u8,
    /// The Vendor-ID, where the AVP has the field.
    pub vendor: Option<u32>,
    /// The data, without padding.
    pub bytes: &'a [u8],
}

/// The fields of an AVP before its data.
#[derive(Clone, Copy, PartialEq, Eq)]
pub struct AvpHead {
    pub code: u32,
    pub flags: u8,
    pub vendor: Option<u32>,
    /// The AVP Length: bytes of header, Vendor-ID and data, without padding.
    pub length: u32,
}

/// Why no AVP could be read.
#[derive(Clone, Copy, Debug, PartialEq, Eq, Error)]
pub enum AvpFault {
    /// The Length is shorter than the AVP's header, or padded longer than the rest of the level.
    #[error("the AVP Length doesn't fit")]
    Length,
}

/// The name under which a dictionary knows the AVP.
pub fn key(avp: &Avp<'_>) -> Key
    ensures { result ≡ key_of (plain_avp avp.now) }
{
    Key {
        code: avp.code,
        vendor: avp.vendor.unwrap_or(0),
    }
}

impl Avp<'_> {
    /// Whether the V flag is set exactly where there is a Vendor-ID, as `put_avp` asks.
    pub fn agrees(&self) -> bool
        ensures { IsTrue result ↔ Agrees (plain_avp self.now) }
    {
        (self.flags & AVP_VENDOR != 0) == self.vendor.is_some()
    }

    /// Whether the M flag is set: a receiver has to understand the AVP (RFC 6733 section 4.1).
    pub fn is_mandatory(&self) -> bool
        ensures { IsTrue result ↔ HasM self.now.flags }
    {
        self.flags & AVP_MANDATORY != 0
    }

    /// The AVP Length (RFC 6733 section 4.1) in bytes: header, Vendor-ID and data, without padding. Where it is above
    /// 16,777,215, its field can't say it.
    pub fn length(&self) -> usize
        ensures { result ≡ avp_length (plain_avp self.now) }
    {
        match self.vendor {
            Some(_) => VENDOR_AVP_HEAD_LENGTH + self.bytes.len(),
            None => AVP_HEAD_LENGTH + self.bytes.len(),
        }
    }
}

/// How many bytes an AVP of this length takes with its padding (RFC 6733 section 4.1): the next multiple of four.
pub(crate) fn padded(length: u32) -> usize
    ensures { result ≡ (length + 3) / 4 * 4 }
{
    (length as usize + 3) / 4 * 4
}
