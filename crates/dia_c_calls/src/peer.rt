//! One end of a connection in a handle.

ghost use Rattle.std.specs.Prelude.{◌⊎◌, ◌≡◌, ◌≢◌, ℕ, [], ◌<◌, ◌≤◌, length, take, IfErr, IfOk};
ghost use Rattle.dia_peer.specs.Core.{IsAccepted, plain_config};
ghost use Rattle.dia_peer.specs.Machine.{IsRefusedAs};
ghost use Rattle.dia_peer.specs.Outputs.{SentBytes, ClosedFor};
ghost use Rattle.dia_peer.specs.World.{idle};
ghost use Rattle.dia_peer.specs.declared.event.Why.{Why as AnyWhy};
ghost use Rattle.dia_c_calls.specs.PeerSteps.{HasStepped, IsTaken, LeavesRest, WantsRoom, plain_end};

use crate::names::copied_whole;
use crate::status::{DONE, NO_MEMORY, OUTPUTS_LEFT};
use dia_peer::{Config, ConfigFault, Core, Event, Manner, Output, Role, Why};
use std::alloc::{AllocError, Global};

/// One end of a connection, and what it wants done.
#[derive(Drop)]
pub struct Peer {
    pub core: Core,
    /// The outputs of the last event.
    pub outputs: Vec<Output>,
    /// How many of these were taken.
    pub taken: usize,
}

/// What became of the next output.
#[derive(Clone, Copy)]
pub enum Given {
    /// The message of so many bytes was copied out.
    Sent(usize),
    /// The connection is to be closed.
    Closed(Why),
    /// The message of so many bytes is longer than the room for it.
    NoRoom(usize),
    /// There is none.
    Nothing,
}

impl Peer {
    /// An end before its first event.
    pub fn new(
        alloc: Global,
        config: Config,
        role: Role,
        manner: Manner,
    ) -> Result<Peer, ConfigFault>
        ensures ok { IfOk result (λ peer. IsAccepted manner (plain_config config)
            × (plain_end peer ≡ record { core = idle (plain_config config) role manner; left = [] })) }
        ensures err { IfErr result (IsRefusedAs manner (plain_config config)) }
    {
        let core = Core::with(alloc, config, role, manner)?;
        Ok(Peer {
            core,
            outputs: Vec::new(alloc),
            taken: 0,
        })
    }

    /// Takes an event, where no output is left to be taken.
    pub fn deliver(&mut self, event: Event<'_>) -> u32
        ensures ends { (result ≡ DONE) ⊎ (result ≡ NO_MEMORY) ⊎ (result ≡ OUTPUTS_LEFT) }
        ensures done { result ≡ DONE → HasStepped self.old.core event.entry (plain_end self.new) }
        ensures kept { result ≢ DONE → self.new ≡ self.old }
        ensures left { result ≡ OUTPUTS_LEFT → (plain_end self.old).left ≢ [] }
        ensures none_left { result ≢ OUTPUTS_LEFT → (plain_end self.old).left ≡ [] }
    {
        if self.taken < self.outputs.len() {
            return OUTPUTS_LEFT;
        }
        match self.core.step(event) {
            Ok(outputs) => {
                self.outputs = outputs;
                self.taken = 0;
                DONE
            }
            Err(AllocError) => NO_MEMORY,
        }
    }

    /// Gives the next output.
    pub fn give(&mut self, out: &mut [u8]) -> Given
        ensures sent { (count : ℕ) → result ≡ Given.Sent count
            → IsTaken (plain_end self.old) (plain_end self.new) (SentBytes (take count out.new)) }
        ensures count { (count : ℕ) → result ≡ Given.Sent count → count ≤ length out.new }
        ensures closed { (why : AnyWhy) → result ≡ Given.Closed why
            → IsTaken (plain_end self.old) (plain_end self.new) (ClosedFor why) }
        ensures room { (count : ℕ) → result ≡ Given.NoRoom count → length out.new < count }
        ensures wanted { (count : ℕ) → result ≡ Given.NoRoom count → WantsRoom count (plain_end self.old) }
        ensures kept { (count : ℕ) → result ≡ Given.NoRoom count → self.new ≡ self.old }
        ensures nothing { result ≡ Given.Nothing → (self.new ≡ self.old) × ((plain_end self.old).left ≡ []) }
        ensures rest { LeavesRest result out.old out.new }
    {
        match self.outputs.get(self.taken) {
            None => Given::Nothing,
            Some(Output::Close(why)) => {
                let why = *why;
                self.taken += 1;
                Given::Closed(why)
            }
            Some(Output::Send(bytes)) => {
                let count = bytes.len();
                if !copied_whole(bytes, out) {
                    return Given::NoRoom(count);
                }
                self.taken += 1;
                Given::Sent(count)
            }
        }
    }
}
