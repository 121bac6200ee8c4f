//! How a core of the manner `answers` answers a request that is no valid message (RFC 6733 sections 7.1.5 and 7.2).

ghost use Rattle.std.specs.Prelude.{◌≡◌, ◌∷◌, [], ℕ, List, IfOk, OnErr};
ghost use Rattle.dia_peer.specs.Incoming.{received_of};
ghost use Rattle.dia_peer.specs.Life.{noticed};
ghost use Rattle.dia_peer.specs.Machine.{TakesBytes};
ghost use Rattle.dia_peer.specs.Replies.{has_command, is_refused, may_reply, replies};
ghost use Rattle.dia_peer.specs.Table.{closed};

use super::Core;
use crate::codes::CAPABILITIES_EXCHANGE;
use crate::event::{Output, State, Why};
use crate::incoming::Incoming;
use byteorder::{BigEndian, ByteOrder};
use dia_wire::HEADER_LENGTH;
use std::alloc::AllocError;

impl Core {
    /// Bytes came.
    pub(super) fn takes_bytes(&mut self, bytes: &[u8]) -> Result<Vec<Output>, AllocError>
        ensures ok { IfOk result (λ outputs. TakesBytes self.old bytes.now outputs.items self.new) }
        ensures err { OnErr result (self.new ≡ self.old) }
    {
        let what = self.node.received(bytes)?;
        if !self.replies(bytes, &what) {
            return self.keeps(bytes, what);
        }
        match self.node.reply(bytes)? {
            Some(reply) => self.closes_after(reply),
            None => self.keeps(bytes, what),
        }
    }

    /// Whether bytes are answered, if they are a request that has a fault.
    fn replies(&self, bytes: &[u8], what: &Incoming) -> bool
        ensures { (all : List ℕ) → result ≡ replies self.now bytes.now (received_of all what.now) }
    {
        is_refused(what) && self.node.manner.answers && may_reply(self.state, bytes)
    }

    /// Closes for what came, after the answer to it.
    fn closes_after(&mut self, reply: Vec<u8>) -> Result<Vec<Output>, AllocError>
        ensures ok { IfOk result (λ outputs. (self.new ≡ closed (noticed self.old))
            × (outputs.items ≡ Output.Send reply ∷ Output.Close Why.Invalid ∷ [])) }
        ensures err { OnErr result (self.new ≡ self.old) }
    {
        let outputs = self.sends_and_closes(reply, Why::Invalid)?;
        if self.node.manner.life {
            self.suspect = false;
        }
        Ok(outputs)
    }
}

/// Whether what came is no message, or no valid one.
fn is_refused(what: &Incoming) -> bool
    ensures { (all : List ℕ) → result ≡ is_refused (received_of all what.now) }
{
    match what {
        Incoming::Unreadable | Incoming::Invalid => true,
        _ => false,
    }
}

/// Whether the peer may be answered in this state.
fn may_reply(state: State, bytes: &[u8]) -> bool
    ensures { result ≡ may_reply state bytes.now }
{
    match state {
        State::WaitCer => has_command(CAPABILITIES_EXCHANGE, bytes),
        State::Open | State::WaitDpa => true,
        State::Idle | State::WaitCea | State::Closed => false,
    }
}

/// Whether the bytes have a header with this command code, whatever its version and Message Length are.
fn has_command(code: u32, bytes: &[u8]) -> bool
    ensures { result ≡ has_command code bytes.now }
{
    bytes.len() >= HEADER_LENGTH && BigEndian::read_u24(&bytes[5..]) == code
}
