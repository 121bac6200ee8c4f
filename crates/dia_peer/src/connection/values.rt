//! What a core of the manner `values` keeps of the peer (RFC 6733 sections 5.3 and 5.4).

ghost use Rattle.std.specs.Prelude.{◌≡◌, ℕ, List, IfOk, OnErr, Some, None, if◌then◌else◌, option_copied};
ghost use Rattle.std.specs.Option.{option_and_then, option_map};
ghost use Rattle.dia_peer.specs.Incoming.{received_of};
ghost use Rattle.dia_peer.specs.Life.{lives};
ghost use Rattle.dia_peer.specs.Machine.{AreOutputs};
ghost use Rattle.dia_peer.specs.Table.{Gets};
ghost use Rattle.dia_peer.specs.Values.{IsNumber, IsValue, code_of, introduces, keeps, leaves, newer, number_of, said_in};

use super::Core;
use super::on_message::same_ids;
use crate::codes::{DISCONNECT_CAUSE, ORIGIN_HOST, ORIGIN_REALM, PRODUCT_NAME, RESULT_CODE};
use crate::contents::first_data;
use crate::event::{Output, State};
use crate::incoming::Incoming;
use dia_wire::number32;
use std::alloc::{AllocError, Global};

/// What a peer says of itself.
#[derive(Debug, Clone, Copy, PartialEq, Eq)]
pub enum Value {
    /// Origin-Host, of its CER or of its answer to the CER of this end.
    Host,
    /// Origin-Realm, of the same message.
    Realm,
    /// Product-Name, of the same message; an error message has none.
    Product,
    /// Result-Code, of its answer to the CER of this end.
    Result,
    /// Disconnect-Cause, of its DPR.
    Cause,
}

impl Core {
    /// A value that the peer said of itself, as the data of the first such AVP: none before the message that has it came, and
    /// without the manner `values`. Allocates nothing.
    pub fn value(&self, which: Value) -> Option<&[u8]>
        ensures { IsValue (code_of which) (said_in self.now which) (option_copied result) }
    {
        match which {
            Value::Host => data_in(&self.met, ORIGIN_HOST),
            Value::Realm => data_in(&self.met, ORIGIN_REALM),
            Value::Product => data_in(&self.met, PRODUCT_NAME),
            Value::Result => data_in(&self.met, RESULT_CODE),
            Value::Cause => data_in(&self.left, DISCONNECT_CAUSE),
        }
    }

    /// Origin-Host of the peer, out of its CER, or its answer to the CER of this end, whether the connection opened or not.
    /// Allocates nothing.
    pub fn host(&self) -> Option<&[u8]>
        ensures { IsValue ORIGIN_HOST self.now.met (option_copied result) }
    {
        self.value(Value::Host)
    }

    /// Origin-Realm of the peer, as `host`.
    pub fn realm(&self) -> Option<&[u8]>
        ensures { IsValue ORIGIN_REALM self.now.met (option_copied result) }
    {
        self.value(Value::Realm)
    }

    /// Product-Name of the peer, as `host`.
    pub fn product(&self) -> Option<&[u8]>
        ensures { IsValue PRODUCT_NAME self.now.met (option_copied result) }
    {
        self.value(Value::Product)
    }

    /// The Result-Code of the answer to the CER of this end, also where the peer refused the connection. Allocates nothing.
    pub fn result(&self) -> Option<u32>
        ensures { IsNumber RESULT_CODE self.now.met result }
    {
        number_of(self.value(Value::Result))
    }

    /// The Disconnect-Cause of the DPR of the peer. Allocates nothing.
    pub fn cause(&self) -> Option<u32>
        ensures { IsNumber DISCONNECT_CAUSE self.now.left result }
    {
        number_of(self.value(Value::Cause))
    }

    /// A message came, which may say something of the peer.
    pub(super) fn keeps(&mut self, bytes: &[u8], what: Incoming) -> Result<Vec<Output>, AllocError>
        ensures ok { IfOk result (λ outputs.
            (self.new ≡ keeps self.old bytes.now (received_of bytes.now what) (lives self.old (Gets (received_of bytes.now what))).core)
            × AreOutputs (lives self.old (Gets (received_of bytes.now what))).deeds outputs.items) }
        ensures err { OnErr result (self.new ≡ self.old) }
    {
        if !self.node.manner.values {
            return self.takes(bytes, what);
        }
        let met = copied_if(self.node.alloc, self.introduces(&what), bytes)?;
        let left = copied_if(self.node.alloc, self.is_left_by(&what), bytes)?;
        let outputs = self.takes(bytes, what)?;
        renew(&mut self.met, met);
        renew(&mut self.left, left);
        Ok(outputs)
    }

    /// Whether the peer introduces itself by this message.
    fn introduces(&self, what: &Incoming) -> bool
        ensures { (bytes : List ℕ) → result ≡ introduces self.now (received_of bytes what.now) }
    {
        match what {
            Incoming::Cer { .. } => self.state == State::WaitCer,
            Incoming::Cea { ids, .. } | Incoming::Refusal(ids) => {
                self.state == State::WaitCea && same_ids(*ids, self.last_cer)
            }
            _ => false,
        }
    }

    /// Whether the peer leaves by this message.
    fn is_left_by(&self, what: &Incoming) -> bool
        ensures { (bytes : List ℕ) → result ≡ leaves self.now (received_of bytes what.now) }
    {
        match what {
            Incoming::Dpr(_) => self.state == State::Open || self.state == State::WaitDpa,
            _ => false,
        }
    }
}

/// The number that four bytes are.
fn number_of(value: Option<&[u8]>) -> Option<u32>
    ensures { result ≡ option_and_then number_of (option_copied value.entry) }
{
    match value {
        Some(bytes) => number32(bytes),
        None => None,
    }
}

/// The data of the first AVP of a code in a message, if there is a message.
fn data_in(message: &Option<Vec<u8>>, code: u32) -> Option<&[u8]>
    ensures { IsValue code (option_map (λ v. v.items) message.entry.now) (option_copied result) }
{
    first_data(message.as_ref()?, code)
}

/// Keeps what was found, or else what was there.
fn renew(kept: &mut Option<Vec<u8>>, found: Option<Vec<u8>>)
    ensures { option_map (λ v. v.items) kept.new
        ≡ newer (option_map (λ v. v.items) found) (option_map (λ v. v.items) kept.old) }
{
    if found.is_some() {
        *kept = found;
    }
}

/// A copy of the bytes, if it is wanted.
fn copied_if(alloc: Global, wanted: bool, bytes: &[u8]) -> Result<Option<Vec<u8>>, AllocError>
    ensures { IfOk result (λ copy. option_map (λ v. v.items) copy ≡ (if wanted then Some bytes.now else None)) }
{
    if wanted {
        Ok(Some(Vec::from_slice(alloc, bytes)?))
    } else {
        Ok(None)
    }
}
