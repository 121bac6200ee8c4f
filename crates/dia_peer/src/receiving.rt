//! What bytes are to a core.

ghost use Rattle.std.specs.Prelude.{◌≡◌, ◌↔◌, IsTrue, IsNone, IfSome, IfOk, ℕ, List, length, take};
ghost use Rattle.dia_wire.specs.Wire.{IsHead};
ghost use Rattle.dia_dict.specs.Base.{base};
ghost use Rattle.dia_check.specs.declared.Unknown.TheVariants.{Kept};
ghost use Rattle.dia_check.specs.declared.Levels.TheVariants.{Any};
ghost use Rattle.dia_valid.specs.Valid.{IsValid, HasR, HasE};
ghost use Rattle.dia_check.specs.Faults.{HasLength};
ghost use Rattle.dia_peer.specs.Messages.{IsOurCode, IsReceived};
ghost use Rattle.dia_peer.specs.Incoming.{received_of};

use crate::codes::{CAPABILITIES_EXCHANGE, DEVICE_WATCHDOG, DISCONNECT_PEER};
use crate::contents::{named_in, result_code};
use crate::incoming::Incoming;
use crate::kept_requests::Ids;
use crate::node::Node;
use dia_wire::{HEADER_LENGTH, Header, split_message};
use std::alloc::{AllocError, Global};

impl Node {
    /// What the bytes are. They are checked once, and the AVPs of a CER and a CEA are read once more.
    pub(crate) fn received(&self, bytes: &[u8]) -> Result<Incoming, AllocError>
        ensures { IfOk result (λ what. IsReceived bytes.now (received_of bytes.now what)) }
    {
        let Some(header) = whole_header(bytes) else {
            return Ok(Incoming::Unreadable);
        };
        if !is_our_code(header.code) {
            return Ok(Incoming::Foreign);
        }
        if !self.base.is_valid(self.alloc, bytes)? {
            return Ok(Incoming::Invalid);
        }
        sorted_out(self.alloc, &header, bytes)
    }
}

/// The header of bytes that are as many as their Message Length says.
fn whole_header(bytes: &[u8]) -> Option<Header>
    ensures some { IfSome result
        (λ header. IsHead header (length bytes.now) (take 20 bytes.now)
        × HasLength bytes.now (length bytes.now)) }
    ensures none { IsNone result → ¬ HasLength bytes.now (length bytes.now) }
{
    match split_message(bytes) {
        Ok((header, _)) => Some(header),
        Err(_) => None,
    }
}

fn is_our_code(code: u32) -> bool
    ensures { IsTrue result ↔ IsOurCode code }
{
    code == CAPABILITIES_EXCHANGE || code == DEVICE_WATCHDOG || code == DISCONNECT_PEER
}

/// What a valid message of one of the three command codes is.
fn sorted_out(alloc: Global, header: &Header, bytes: &[u8]) -> Result<Incoming, AllocError>
    requires head { IsHead header.now (length bytes.now) (take 20 bytes.now) }
    requires code { IsOurCode header.now.code }
    requires valid { IsValid base Kept Any bytes.now }
    ensures { IfOk result (λ what. IsReceived bytes.now (received_of bytes.now what)) }
{
    if header.is_request() {
        request(alloc, header, bytes)
    } else if header.is_error() {
        Ok(error(header))
    } else {
        answer(alloc, header, bytes)
    }
}

/// What a valid request is.
fn request(alloc: Global, header: &Header, bytes: &[u8]) -> Result<Incoming, AllocError>
    requires head { IsHead header.now (length bytes.now) (take 20 bytes.now) }
    requires code { IsOurCode header.now.code }
    requires set { HasR header.now.flags }
    requires valid { IsValid base Kept Any bytes.now }
    ensures { IfOk result (λ what. IsReceived bytes.now (received_of bytes.now what)) }
{
    let ids = ids_of(header);
    if header.code == CAPABILITIES_EXCHANGE {
        let named = named_in(alloc, &bytes[HEADER_LENGTH..])?;
        return Ok(Incoming::Cer { ids, named });
    }
    if header.code == DEVICE_WATCHDOG {
        return Ok(Incoming::Dwr(ids));
    }
    Ok(Incoming::Dpr(ids))
}

/// What a valid answer without the E flag is.
fn answer(alloc: Global, header: &Header, bytes: &[u8]) -> Result<Incoming, AllocError>
    requires head { IsHead header.now (length bytes.now) (take 20 bytes.now) }
    requires code { IsOurCode header.now.code }
    requires clear { (¬ HasR header.now.flags) × (¬ HasE header.now.flags) }
    requires valid { IsValid base Kept Any bytes.now }
    ensures { IfOk result (λ what. IsReceived bytes.now (received_of bytes.now what)) }
{
    let ids = ids_of(header);
    if header.code == CAPABILITIES_EXCHANGE {
        let body = &bytes[HEADER_LENGTH..];
        let named = named_in(alloc, body)?;
        let Some(result_code) = result_code(body) else {
            unreachable!("a valid CEA has a Result-Code");
        };
        return Ok(Incoming::Cea {
            ids,
            result_code,
            named,
        });
    }
    if header.code == DEVICE_WATCHDOG {
        return Ok(Incoming::Dwa(ids));
    }
    Ok(Incoming::Dpa(ids))
}

/// What a valid answer with the E flag is.
fn error(header: &Header) -> Incoming
    requires { IsOurCode header.now.code }
    ensures { (bytes : List ℕ) → IsHead header.now (length bytes) (take 20 bytes)
        → ¬ HasR header.now.flags → HasE header.now.flags → IsValid base Kept Any bytes
        → IsReceived bytes (received_of bytes result) }
{
    let ids = ids_of(header);
    if header.code == CAPABILITIES_EXCHANGE {
        return Incoming::Refusal(ids);
    }
    if header.code == DEVICE_WATCHDOG {
        return Incoming::WatchdogError(ids);
    }
    Incoming::Other
}

fn ids_of(header: &Header) -> Ids
    ensures { (result.hop ≡ header.now.hop) × (result.e2e ≡ header.now.e2e) }
{
    Ids {
        hop: header.hop,
        e2e: header.e2e,
    }
}
