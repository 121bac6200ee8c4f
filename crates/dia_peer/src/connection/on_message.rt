//! What a core does with a message that comes.

ghost use Rattle.std.specs.Prelude.{◌≡◌, IfOk, OnErr};
ghost use Rattle.std.specs.Option.{option_map};
ghost use Rattle.dia_peer.specs.Incoming.{received_of, pairs_named, plain_pairs};
ghost use Rattle.dia_peer.specs.Machine.{Does};
ghost use Rattle.dia_peer.specs.Table.{
  happens,
  happens_in,
  Gets,
  opens,
  accepts,
  repeated,
  answered,
  same_ids,
};

use super::Core;
use crate::codes::{NO_COMMON_APPLICATION, SUCCESS};
use crate::config::{Kind, Role};
use crate::event::{Output, State, Why};
use crate::incoming::Incoming;
use crate::kept_requests::{Ids, Taken};
use crate::named_apps::NamedApps;
use std::alloc::AllocError;

impl Core {
    pub(super) fn gets(&mut self, bytes: &[u8], what: Incoming) -> Result<Vec<Output>, AllocError>
        ensures ok { IfOk result
            (λ outputs. Does (happens self.old (Gets (received_of bytes.now what))) outputs.items self.new) }
        ensures err { OnErr result (self.new ≡ self.old) }
    {
        match self.state {
            State::WaitCea => self.gets_waiting_answer(bytes, what),
            State::WaitCer => self.gets_waiting_request(bytes, what),
            State::Open => self.gets_open(bytes, what),
            State::WaitDpa => self.gets_waiting_end(bytes, what),
            State::Idle | State::Closed => Ok(self.nothing()),
        }
    }

    /// A message comes while the CEA is waited for.
    fn gets_waiting_answer(
        &mut self,
        _bytes: &[u8],
        what: Incoming,
    ) -> Result<Vec<Output>, AllocError>
        ensures ok { IfOk result
            (λ outputs. Does (happens_in State.WaitCea self.old (Gets (received_of _bytes.now what)))
            outputs.items self.new) }
        ensures err { OnErr result (self.new ≡ self.old) }
    {
        match what {
            Incoming::Unreadable | Incoming::Invalid => self.closes(Why::Invalid),
            Incoming::Cea {
                ids,
                result_code,
                named,
            } => {
                if same_ids(ids, self.last_cer) {
                    self.answered(result_code, &named)
                } else {
                    Ok(self.nothing())
                }
            }
            Incoming::Refusal(ids) => {
                if same_ids(ids, self.last_cer) {
                    self.closes(Why::Refused)
                } else {
                    Ok(self.nothing())
                }
            }
            _ => Ok(self.nothing()),
        }
    }

    /// A CEA that answers the CER.
    fn answered(&mut self, result_code: u32, named: &NamedApps) -> Result<Vec<Output>, AllocError>
        ensures ok { IfOk result
            (λ outputs. Does (answered self.old result_code (pairs_named named.now)) outputs.items self.new) }
        ensures err { OnErr result (self.new ≡ self.old) }
    {
        if result_code == SUCCESS {
            let common = self.node.common(named)?;
            self.opens(common)
        } else if result_code == NO_COMMON_APPLICATION {
            self.closes(Why::NoCommon)
        } else {
            self.closes(Why::Refused)
        }
    }

    fn opens(&mut self, common: Option<Vec<(Kind, u32)>>) -> Result<Vec<Output>, AllocError>
        ensures ok { IfOk result
            (λ outputs. Does (opens self.old (option_map plain_pairs common)) outputs.items self.new) }
        ensures err { OnErr result (self.new ≡ self.old) }
    {
        let Some(common) = common else {
            return self.closes(Why::Invalid);
        };
        if common.is_empty() {
            return self.closes(Why::NoCommon);
        }
        self.state = State::Open;
        self.common = common;
        Ok(self.nothing())
    }

    /// A message comes while a CER is waited for.
    fn gets_waiting_request(
        &mut self,
        bytes: &[u8],
        what: Incoming,
    ) -> Result<Vec<Output>, AllocError>
        ensures ok { IfOk result
            (λ outputs. Does (happens_in State.WaitCer self.old (Gets (received_of bytes.now what))) outputs.items self.new) }
        ensures err { OnErr result (self.new ≡ self.old) }
    {
        match what {
            Incoming::Unreadable | Incoming::Invalid => self.closes(Why::Invalid),
            Incoming::Cer { ids, named } => {
                let common = self.node.common(&named)?;
                self.accepts(ids, bytes, common)
            }
            _ => Ok(self.nothing()),
        }
    }

    /// A CER gets a CEA, and opens the connection where there are common applications.
    fn accepts(
        &mut self,
        ids: Ids,
        bytes: &[u8],
        common: Option<Vec<(Kind, u32)>>,
    ) -> Result<Vec<Output>, AllocError>
        ensures ok { IfOk result
            (λ outputs. Does (accepts self.old ids bytes.now (option_map plain_pairs common)) outputs.items self.new) }
        ensures err { OnErr result (self.new ≡ self.old) }
    {
        let Some(common) = common else {
            return self.closes(Why::Invalid);
        };
        if common.is_empty() {
            let cea = self.node.cea(ids, NO_COMMON_APPLICATION)?;
            return self.sends_and_closes(cea, Why::NoCommon);
        }
        let bytes = Vec::from_slice(self.node.alloc, bytes)?;
        let outputs = self.sends(self.node.cea(ids, SUCCESS)?)?;
        self.state = State::Open;
        self.common = common;
        self.taken = Some(Taken { bytes, ids });
        Ok(outputs)
    }

    /// A message comes while the connection is open.
    fn gets_open(&mut self, bytes: &[u8], what: Incoming) -> Result<Vec<Output>, AllocError>
        ensures ok { IfOk result
            (λ outputs. Does (happens_in State.Open self.old (Gets (received_of bytes.now what))) outputs.items self.new) }
        ensures err { OnErr result (self.new ≡ self.old) }
    {
        match what {
            Incoming::Unreadable | Incoming::Invalid => self.closes(Why::Invalid),
            Incoming::Cer { .. } => match self.role {
                Role::Initiator => Ok(self.nothing()),
                Role::Responder => self.repeats(bytes),
            },
            Incoming::Dwa(ids) => {
                if same_ids(ids, self.last_dwr) {
                    self.waits = false;
                }
                Ok(self.nothing())
            }
            Incoming::Dwr(ids) => self.sends(self.node.dwa(ids)?),
            Incoming::Dpr(ids) => {
                let dpa = self.node.dpa(ids)?;
                self.sends_and_closes(dpa, Why::PeerStopped)
            }
            _ => Ok(self.nothing()),
        }
    }

    /// The CER that was accepted gets its CEA again.
    fn repeats(&self, bytes: &[u8]) -> Result<Vec<Output>, AllocError>
        ensures { IfOk result
            (λ outputs. Does (repeated self.now bytes.now self.now.taken) outputs.items self.now) }
    {
        let Some(taken) = &self.taken else {
            return Ok(self.nothing());
        };
        if taken.bytes.as_slice() == bytes {
            let outputs = self.sends(self.node.cea(taken.ids, SUCCESS)?)?;
            Ok(outputs)
        } else {
            Ok(self.nothing())
        }
    }

    /// A message comes while the DPA is waited for.
    fn gets_waiting_end(&mut self, _bytes: &[u8], what: Incoming) -> Result<Vec<Output>, AllocError>
        ensures ok { IfOk result
            (λ outputs. Does (happens_in State.WaitDpa self.old (Gets (received_of _bytes.now what)))
            outputs.items self.new) }
        ensures err { OnErr result (self.new ≡ self.old) }
    {
        match what {
            Incoming::Unreadable | Incoming::Invalid => self.closes(Why::Invalid),
            Incoming::Dwr(ids) => self.sends(self.node.dwa(ids)?),
            Incoming::Dpr(ids) => {
                let dpa = self.node.dpa(ids)?;
                self.sends_and_closes(dpa, Why::PeerStopped)
            }
            Incoming::Dpa(ids) => {
                if same_ids(ids, self.last_dpr) {
                    self.closes(Why::Stopped)
                } else {
                    Ok(self.nothing())
                }
            }
            _ => Ok(self.nothing()),
        }
    }
}

/// Whether these are the identifiers of the last request.
pub(super) fn same_ids(ids: Ids, last: Option<Ids>) -> bool
    ensures { result ≡ same_ids ids last }
{
    match last {
        Some(last) => last.hop == ids.hop && last.e2e == ids.e2e,
        None => false,
    }
}
