//! The messages that a core sends (RFC 6733 sections 5.3 to 5.5).

ghost use Rattle.std.specs.Prelude.{◌≡◌, IfOk};
ghost use Rattle.dia_peer.specs.Core.{plain_config};
ghost use Rattle.dia_peer.specs.Messages.{IsSent, cer, cea, dwr, dwa, dpr, dpa, cause_number};

use crate::codes::{
    ANSWER, CAPABILITIES_EXCHANGE, DEVICE_WATCHDOG, DISCONNECT_CAUSE, DISCONNECT_PEER, RESULT_CODE,
    SUCCESS,
};
use crate::draft::Draft;
use crate::event::Cause;
use crate::kept_requests::Ids;
use crate::node::{Node, put_applications, put_capabilities, put_origin, put_state_id};
use dia_wire::COMMAND_REQUEST;
use std::alloc::AllocError;

impl Node {
    pub(crate) fn cer(&self, ids: Ids) -> Result<Vec<u8>, AllocError>
        ensures { IfOk result
            (λ bytes. IsSent (cer (plain_config self.now.config) ids) bytes.items) }
    {
        let mut draft = Draft::new(self.alloc);
        put_origin(&mut draft, &self.config)?;
        put_capabilities(self.alloc, &mut draft, &self.config)?;
        put_applications(self.alloc, &mut draft, &self.config)?;
        draft.message(COMMAND_REQUEST, CAPABILITIES_EXCHANGE, ids)
    }

    pub(crate) fn cea(&self, ids: Ids, result_code: u32) -> Result<Vec<u8>, AllocError>
        ensures { IfOk result
            (λ bytes. IsSent (cea (plain_config self.now.config) ids result_code) bytes.items) }
    {
        let mut draft = Draft::new(self.alloc);
        draft.put_number(RESULT_CODE, result_code)?;
        put_origin(&mut draft, &self.config)?;
        put_capabilities(self.alloc, &mut draft, &self.config)?;
        put_applications(self.alloc, &mut draft, &self.config)?;
        draft.message(ANSWER, CAPABILITIES_EXCHANGE, ids)
    }

    pub(crate) fn dwr(&self, ids: Ids) -> Result<Vec<u8>, AllocError>
        ensures { IfOk result
            (λ bytes. IsSent (dwr (plain_config self.now.config) ids) bytes.items) }
    {
        let mut draft = Draft::new(self.alloc);
        put_origin(&mut draft, &self.config)?;
        put_state_id(&mut draft, &self.config)?;
        draft.message(COMMAND_REQUEST, DEVICE_WATCHDOG, ids)
    }

    pub(crate) fn dwa(&self, ids: Ids) -> Result<Vec<u8>, AllocError>
        ensures { IfOk result
            (λ bytes. IsSent (dwa (plain_config self.now.config) ids) bytes.items) }
    {
        let mut draft = Draft::new(self.alloc);
        draft.put_number(RESULT_CODE, SUCCESS)?;
        put_origin(&mut draft, &self.config)?;
        put_state_id(&mut draft, &self.config)?;
        draft.message(ANSWER, DEVICE_WATCHDOG, ids)
    }

    pub(crate) fn dpr(&self, ids: Ids, cause: Cause) -> Result<Vec<u8>, AllocError>
        ensures { IfOk result
            (λ bytes. IsSent (dpr (plain_config self.now.config) ids cause) bytes.items) }
    {
        let mut draft = Draft::new(self.alloc);
        put_origin(&mut draft, &self.config)?;
        draft.put_number(DISCONNECT_CAUSE, cause_number(cause))?;
        draft.message(COMMAND_REQUEST, DISCONNECT_PEER, ids)
    }

    pub(crate) fn dpa(&self, ids: Ids) -> Result<Vec<u8>, AllocError>
        ensures { IfOk result
            (λ bytes. IsSent (dpa (plain_config self.now.config) ids) bytes.items) }
    {
        let mut draft = Draft::new(self.alloc);
        draft.put_number(RESULT_CODE, SUCCESS)?;
        put_origin(&mut draft, &self.config)?;
        draft.message(ANSWER, DISCONNECT_PEER, ids)
    }
}

/// Disconnect-Cause (RFC 6733 section 5.4.3).
fn cause_number(cause: Cause) -> u32
    ensures { result ≡ cause_number cause }
{
    match cause {
        Cause::Rebooting => 0,
        Cause::Busy => 1,
        Cause::DoNotWant => 2,
    }
}
