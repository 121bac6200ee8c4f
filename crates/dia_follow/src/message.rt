//! A message as it was captured.

ghost use Rattle.std.specs.Prelude.{◌≡◌};
ghost use Rattle.std.specs.Option.{option_copied};
ghost use Rattle.dia_follow.specs.Messages.{contents_of, is_base_code, is_cer, is_success, result_of};

use crate::codes::{CAPABILITIES_EXCHANGE, DEVICE_WATCHDOG, DISCONNECT_PEER};
use crate::contents::Contents;
use dia_wire::HeadFault;

/// The fields of a header (RFC 6733 section 3).
#[derive(Clone, Copy, PartialEq, Eq)]
pub struct Head {
    /// The R flag.
    pub request: bool,
    /// The P flag.
    pub proxiable: bool,
    /// The E flag.
    pub error: bool,
    /// The T flag.
    pub retransmitted: bool,
    /// The Command Code.
    pub code: u32,
    /// The Application-ID.
    pub app: u32,
    /// The Hop-by-Hop Identifier.
    pub hop: u32,
    /// The End-to-End Identifier.
    pub e2e: u32,
}

/// What is known of a message's AVPs.
#[derive(Drop)]
pub enum Body<'a> {
    /// Bytes of the message are missing.
    Cut,
    /// No AVP begins at this byte of the message.
    Gap(usize),
    /// It is AVPs to its end.
    Known(Contents<'a>),
}

#[derive(Drop)]
pub struct Message<'a> {
    pub head: Head,
    /// The Message Length.
    pub length: u32,
    pub body: Body<'a>,
}

#[derive(Drop)]
pub enum Seen<'a> {
    /// Bytes whose header can't be read.
    Unread(HeadFault),
    Message(Message<'a>),
}

/// What `check` says of a message.
#[derive(Clone, Copy, PartialEq, Eq)]
pub enum Judged {
    /// It isn't asked.
    Unasked,
    /// The message is valid, or bytes of it are missing.
    Passed,
    /// The message isn't valid.
    Invalid,
}

/// One message of a capture.
#[derive(Drop)]
pub struct Line<'a> {
    /// The number of its line, from 1.
    pub number: u64,
    /// When it was captured, in nanoseconds.
    pub time: Option<u64>,
    /// The bytes that were captured.
    pub bytes: &'a [u8],
    /// What they are, by [`read`](crate::read).
    pub seen: Seen<'a>,
    pub judged: Judged,
}

impl Head {
    /// Whether it is that of a Capabilities-Exchange-Request.
    pub fn is_cer(&self) -> bool
        ensures { result ≡ is_cer self.now }
    {
        self.request && self.code == CAPABILITIES_EXCHANGE
    }

    /// Whether its command is one of the base protocol's between neighbors: Capabilities-Exchange, Device-Watchdog or
    /// Disconnect-Peer.
    pub fn is_base(&self) -> bool
        ensures { result ≡ is_base_code self.now.code }
    {
        self.code == CAPABILITIES_EXCHANGE
            || self.code == DEVICE_WATCHDOG
            || self.code == DISCONNECT_PEER
    }
}

impl<'a> Body<'a> {
    /// What its AVPs say, where they are known.
    pub fn contents(&self) -> Option<&Contents<'a>>
        ensures { option_copied result ≡ contents_of self.entry.now }
    {
        match self {
            Body::Known(contents) => Some(contents),
            Body::Cut | Body::Gap(_) => None,
        }
    }

    /// The Result-Code, where it is known.
    pub fn result(&self) -> Option<u32>
        ensures { result ≡ result_of self.now }
    {
        match self {
            Body::Known(contents) => contents.result,
            Body::Cut | Body::Gap(_) => None,
        }
    }
}

/// Whether a Result-Code is known and says that the request succeeded (RFC 6733 section 7.1.2).
pub(crate) fn is_success(result_code: Option<u32>) -> bool
    ensures { result ≡ is_success result_code }
{
    match result_code {
        Some(code) => code / 1000 == 2,
        None => false,
    }
}
