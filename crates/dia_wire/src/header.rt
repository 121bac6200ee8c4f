ghost use Rattle.std.specs.Prelude.{◌<◌, ◌↔◌, IsTrue};
ghost use Rattle.dia_wire.specs.Lengths.{three_bytes};
ghost use Rattle.dia_wire.specs.Wire.{HasR, HasP, HasE, HasT};

use thiserror::Error;

/// The bytes of a message's header (RFC 6733 section 3).
pub const HEADER_LENGTH: usize = 20;

/// The first number that a field of three bytes can't say.
pub(crate) const THREE_BYTES: u32 = 1 << 24;

/// The R flag of the Command Flags (RFC 6733 section 3): the message is a request.
pub const COMMAND_REQUEST: u8 = 0x80;
/// The P flag of the Command Flags (RFC 6733 section 3): the message may be proxied, relayed or redirected.
pub const COMMAND_PROXIABLE: u8 = 0x40;
/// The E flag of the Command Flags (RFC 6733 section 3): the message contains a protocol error.
pub const COMMAND_ERROR: u8 = 0x20;
/// The T flag of the Command Flags (RFC 6733 section 3): the message may have been sent before.
pub const COMMAND_RETRANSMITTED: u8 = 0x10;

/// The header of a message (RFC 6733 section 3) without its version, which is 1, and its Message Length.
#[derive(Clone, Copy, PartialEq, Eq)]
pub struct Header {
    /// The Command Flags: R, P, E and T. The other bits are retained and mean nothing.
    pub flags: u8,
    /// The Command Code, at most 16,777,215 in a message.
    pub code: u32,
    /// The Application-ID.
    pub app: u32,
    /// The Hop-by-Hop Identifier.
    pub hop: u32,
    /// The End-to-End Identifier.
    pub e2e: u32,
}

/// Why a header could not be read.
#[derive(Clone, Copy, Debug, PartialEq, Eq, Error)]
pub enum HeadFault {
    /// There are fewer than 20 bytes.
    #[error("a header has 20 bytes")]
    Short,
    /// The version isn't 1.
    #[error("the version isn't 1")]
    Version,
    /// The Message Length is under 20 or no multiple of four.
    #[error("the Message Length is under 20 or no multiple of four")]
    Length,
}

/// Why bytes are no single message. The first fault that applies is reported.
#[derive(Clone, Copy, Debug, PartialEq, Eq, Error)]
pub enum MessageFault {
    /// There are fewer than 20 bytes.
    #[error("a header has 20 bytes")]
    Short,
    /// The version isn't 1.
    #[error("the version isn't 1")]
    Version,
    /// The Message Length is under 20 or no multiple of four.
    #[error("the Message Length is under 20 or no multiple of four")]
    Length,
    /// There are fewer bytes than the Message Length says.
    #[error("bytes of the message are missing")]
    Truncated,
    /// There are more bytes than the Message Length says.
    #[error("bytes follow the message")]
    Trailing,
}

impl From<HeadFault> for MessageFault {
    ghost use Rattle.std.specs.Prelude.{◌≡◌};
    ghost use Rattle.dia_wire.specs.Faults.{message_fault};

    ghost from_gives = { λ fault recorded. recorded ≡ message_fault fault };

    fn from(fault: HeadFault) -> Self {
        match fault {
            HeadFault::Short => Self::Short,
            HeadFault::Version => Self::Version,
            HeadFault::Length => Self::Length,
        }
    }
}

impl Header {
    /// Whether the R flag is set: the message is a request (RFC 6733 section 3).
    pub fn is_request(&self) -> bool
        ensures { IsTrue result ↔ HasR self.now.flags }
    {
        self.flags & COMMAND_REQUEST != 0
    }

    /// Whether the P flag is set: the message may be proxied (RFC 6733 section 3).
    pub fn is_proxiable(&self) -> bool
        ensures { IsTrue result ↔ HasP self.now.flags }
    {
        self.flags & COMMAND_PROXIABLE != 0
    }

    /// Whether the E flag is set: the message contains a protocol error (RFC 6733 section 3).
    pub fn is_error(&self) -> bool
        ensures { IsTrue result ↔ HasE self.now.flags }
    {
        self.flags & COMMAND_ERROR != 0
    }

    /// Whether the T flag is set: the message may have been sent before (RFC 6733 section 3).
    pub fn is_retransmitted(&self) -> bool
        ensures { IsTrue result ↔ HasT self.now.flags }
    {
        self.flags & COMMAND_RETRANSMITTED != 0
    }

    /// Whether the Command Code fits its three bytes, as `put_message` asks.
    pub fn fits(&self) -> bool
        ensures { IsTrue result ↔ (self.now.code < three_bytes) }
    {
        self.code < THREE_BYTES
    }
}
