//! How a watchdog without answer ends a connection of the manner `life` (RFC 3539 section 3.4.1).

ghost use Rattle.std.specs.Prelude.{◌≡◌, ◌↔◌, ℕ, IfOk, IsTrue, List, OnErr};
ghost use Rattle.dia_peer.specs.Incoming.{received_of};
ghost use Rattle.dia_peer.specs.Life.{IsSuspect, ends_wait, heard, lives};
ghost use Rattle.dia_peer.specs.Machine.{Does};
ghost use Rattle.dia_peer.specs.Table.{Gets, Ticks};

use super::Core;
use super::on_message::same_ids;
use crate::event::{Output, State};
use crate::incoming::Incoming;
use std::alloc::AllocError;

impl Core {
    /// Whether the connection is open and suspect: a `Tick` came while a watchdog waited for its answer, and nothing was heard
    /// of the peer since. New requests are better sent elsewhere (RFC 3539 section 3.4.1). Only the manner `life` makes a
    /// connection suspect. Allocates nothing.
    pub fn suspect(&self) -> bool
        ensures { IsTrue result ↔ IsSuspect self.now }
    {
        self.state == State::Open && self.suspect
    }

    /// A message of an application came that isn't passed to `step`: a sign of life, by which the connection is no longer
    /// suspect. Allocates nothing.
    pub fn heard(&mut self)
        ensures { self.new ≡ heard self.old }
    {
        self.suspect = false;
    }

    /// A message came.
    pub(super) fn takes(&mut self, bytes: &[u8], what: Incoming) -> Result<Vec<Output>, AllocError>
        ensures ok { IfOk result
            (λ outputs. Does (lives self.old (Gets (received_of bytes.now what))) outputs.items self.new) }
        ensures err { OnErr result (self.new ≡ self.old) }
    {
        if !self.node.manner.life {
            return self.gets(bytes, what);
        }
        let ends_wait = self.ends_wait(&what);
        let outputs = self.gets(bytes, what)?;
        self.suspect = false;
        if ends_wait {
            self.waits = false;
        }
        Ok(outputs)
    }

    /// Whether this is an error message that answers the last DWR.
    fn ends_wait(&self, what: &Incoming) -> bool
        ensures { (bytes : List ℕ) → result ≡ ends_wait self.now (received_of bytes what.now) }
    {
        match what {
            Incoming::WatchdogError(ids) => {
                self.state == State::Open && same_ids(*ids, self.last_dwr)
            }
            _ => false,
        }
    }

    /// A time has passed.
    pub(super) fn waits_on(&mut self) -> Result<Vec<Output>, AllocError>
        ensures ok { IfOk result (λ outputs. Does (lives self.old Ticks) outputs.items self.new) }
        ensures err { OnErr result (self.new ≡ self.old) }
    {
        if self.node.manner.life && self.state == State::Open && self.waits && !self.suspect {
            self.suspect = true;
            return Ok(self.nothing());
        }
        self.ticks()
    }
}
