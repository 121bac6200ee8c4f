ghost use Rattle.std.specs.Prelude.{◌≡◌, ◌==◌, ◌||◌, ◌↔◌, IfOk, IfErr, IsTrue, OnErr, All, List, [], ◌∷◌};
ghost use Rattle.dia_peer.specs.Core.{IsAccepted, Serves, plain, plain_config, pairs_of};
ghost use Rattle.std.specs.List.{list_any};
ghost use Rattle.dia_peer.specs.Messages.{after};
ghost use Rattle.dia_peer.specs.Table.{without_next};
ghost use Rattle.dia_peer.specs.World.{idle};

mod life;
mod on_message;
mod replies;
mod values;

use crate::codes::RELAY;
use crate::config::{Config, ConfigFault, Kind, Manner, Role};
use crate::event::{Cause, Event, Output, State, Why};
use crate::kept_requests::{Ids, Taken};
use crate::node::Node;
use std::alloc::{AllocError, Global};
use std::marker::Model;
pub use values::Value;

/// One end of a connection.
///
/// `step` passes it an event and answers what is to be done. It has no socket and no clock.
#[derive(Drop)]
pub struct Core {
    node: Node,
    role: Role,
    state: State,
    common: Vec<(Kind, u32)>,
    next: Ids,
    last_cer: Option<Ids>,
    last_dwr: Option<Ids>,
    last_dpr: Option<Ids>,
    /// A DWR waits for its answer.
    waits: bool,
    /// A watchdog waited at a `Tick`, and nothing was heard since.
    suspect: bool,
    taken: Option<Taken>,
    /// The message in which the peer introduced itself: its CER, or its answer to ours.
    met: Option<Vec<u8>>,
    /// The DPR of the peer.
    left: Option<Vec<u8>>,
}

impl Model for Core {
    ghost use Rattle.std.specs.Option.{option_map};
    ghost use Rattle.dia_peer.specs.Core.{PlainCore, plain_config, pairs_of, taken_of};

    ghost Value = { PlainCore };

    ghost view = { λ c. record {
      config = plain_config c.node.config;
      role = c.role;
      manner = c.node.manner;
      state = c.state;
      common = pairs_of c.common.items;
      next = c.next;
      last_cer = c.last_cer;
      last_dwr = c.last_dwr;
      last_dpr = c.last_dpr;
      waits = c.waits;
      suspect = c.suspect;
      taken = option_map taken_of c.taken;
      met = option_map (λ bytes. bytes.items) c.met;
      left = option_map (λ bytes. bytes.items) c.left;
    } };
}

impl Core {
    ghost use Rattle.dia_peer.specs.Machine.{AreSound, IsStep, IsRefusedAs, Does};
    ghost use Rattle.dia_peer.specs.Table.{
      happens,
      starts,
      Starts,
      Ticks,
      Stops,
      Breaks,
      closed,
      closes,
      stops_open,
      ticks_open,
    };

    /// A core before its first event. It prepares the base dictionary once.
    ///
    /// The first fault of a configuration, in the order of `ConfigFault`, is reported. `NoMemory` means an allocation failure.
    pub fn new(alloc: Global, config: Config, role: Role) -> Result<Core, ConfigFault>
        ensures ok { IfOk result (λ core. IsAccepted plain (plain_config config)
            × (core ≡ idle (plain_config config) role plain)) }
        ensures err { IfErr result (IsRefusedAs plain (plain_config config)) }
    {
        let manner = Manner {
            relays: false,
            answers: false,
            life: false,
            values: false,
        };
        Core::with(alloc, config, role, manner)
    }

    /// A core of a manner before its first event. All else is as in `new`.
    pub fn with(
        alloc: Global,
        config: Config,
        role: Role,
        manner: Manner,
    ) -> Result<Core, ConfigFault>
        ensures ok { IfOk result (λ core. IsAccepted manner (plain_config config)
            × (core ≡ idle (plain_config config) role manner)) }
        ensures err { IfErr result (IsRefusedAs manner (plain_config config)) }
    {
        let node = Node::new(alloc, config, manner)?;
        let next = Ids {
            hop: node.config.hop,
            e2e: node.config.e2e,
        };
        Ok(Core {
            node,
            role,
            state: State::Idle,
            common: Vec::new(alloc),
            next,
            last_cer: None,
            last_dwr: None,
            last_dpr: None,
            waits: false,
            suspect: false,
            taken: None,
            met: None,
            left: None,
        })
    }

    /// The state of the connection. Allocates nothing.
    pub fn state(&self) -> State
        ensures { result ≡ self.now.state }
    {
        self.state
    }

    /// The applications that both ends have in common, Auth first and then by number: none before the connection is
    /// open, and unchanged from then on. Between two relays it is 4294967295 alone, which means all. Allocates nothing.
    pub fn common(&self) -> &[(Kind, u32)]
        ensures { pairs_of result.now ≡ self.now.common }
    {
        &self.common
    }

    /// Whether messages of an application are for this connection: those of the base protocol (0) always, the others where
    /// both ends have the application in common. Allocates nothing.
    pub fn serves(&self, id: u32) -> bool
        ensures { IsTrue result ↔ Serves self.now.common id }
    {
        id == 0 || is_among(id, &self.common)
    }

    /// The next Hop-by-Hop and End-to-End Identifiers of this end, for a request of the caller's own (RFC 6733 section 3): the
    /// core uses them for none of its requests. Each call answers the next ones, and 0 follows 4294967295. Allocates nothing.
    pub fn take_ids(&mut self) -> (u32, u32)
        ensures ids { (result.0 ≡ self.old.next.hop) × (result.1 ≡ self.old.next.e2e) }
        ensures next { self.new ≡ without_next self.old }
    {
        let ids = self.next;
        self.next = after(ids);
        (ids.hop, ids.e2e)
    }

    /// What is to be done at an event, in order. On an error, which is an allocation failure, nothing has changed.
    ///
    /// The bytes of a message are checked once, and those of a CER or a CEA are read once more; those that are answered are
    /// checked once more, and so is the answer.
    pub fn step(&mut self, event: Event<'_>) -> Result<Vec<Output>, AllocError>
        ensures ok { IfOk result (λ outputs. IsStep self.old event.entry outputs.items self.new) }
        ensures valid { IfOk result (λ outputs. AreSound self.old.manner outputs.items) }
        ensures err { OnErr result (self.new ≡ self.old) }
    {
        // The proof of `valid` reads here that the node's configuration is accepted.
        let _ = &self.node;
        let outputs = self.happens(event)?;
        Ok(outputs)
    }

    fn happens(&mut self, event: Event<'_>) -> Result<Vec<Output>, AllocError>
        ensures ok { IfOk result (λ outputs. IsStep self.old event.entry outputs.items self.new) }
        ensures err { OnErr result (self.new ≡ self.old) }
    {
        match event {
            Event::Start => self.starts(),
            Event::Bytes(bytes) => self.takes_bytes(bytes),
            Event::Tick => self.waits_on(),
            Event::Stop(cause) => self.stops(cause),
            Event::Lost => Ok(self.breaks()),
        }
    }

    fn starts(&mut self) -> Result<Vec<Output>, AllocError>
        ensures ok { IfOk result (λ outputs. Does (happens self.old Starts) outputs.items self.new) }
        ensures err { OnErr result (self.new ≡ self.old) }
    {
        match self.state {
            State::Idle => self.begins(),
            _ => Ok(self.nothing()),
        }
    }

    fn begins(&mut self) -> Result<Vec<Output>, AllocError>
        ensures ok { IfOk result
            (λ outputs. Does (starts self.old self.old.role) outputs.items self.new) }
        ensures err { OnErr result (self.new ≡ self.old) }
    {
        match self.role {
            Role::Initiator => {
                let ids = self.next;
                let outputs = self.sends(self.node.cer(ids)?)?;
                self.state = State::WaitCea;
                self.next = after(ids);
                self.last_cer = Some(ids);
                Ok(outputs)
            }
            Role::Responder => {
                self.state = State::WaitCer;
                Ok(self.nothing())
            }
        }
    }

    fn ticks(&mut self) -> Result<Vec<Output>, AllocError>
        ensures ok { IfOk result (λ outputs. Does (happens self.old Ticks) outputs.items self.new) }
        ensures err { OnErr result (self.new ≡ self.old) }
    {
        match self.state {
            State::Idle | State::Closed => Ok(self.nothing()),
            State::Open => self.watches(),
            State::WaitCea | State::WaitCer | State::WaitDpa => self.closes(Why::Timeout),
        }
    }

    /// A watchdog is sent, where none waits for its answer.
    fn watches(&mut self) -> Result<Vec<Output>, AllocError>
        ensures ok { IfOk result (λ outputs. Does (ticks_open self.old) outputs.items self.new) }
        ensures err { OnErr result (self.new ≡ self.old) }
    {
        if self.waits {
            return self.closes(Why::Watchdog);
        }
        let ids = self.next;
        let outputs = self.sends(self.node.dwr(ids)?)?;
        self.next = after(ids);
        self.last_dwr = Some(ids);
        self.waits = true;
        Ok(outputs)
    }

    fn stops(&mut self, cause: Cause) -> Result<Vec<Output>, AllocError>
        ensures ok { IfOk result
            (λ outputs. Does (happens self.old (Stops cause)) outputs.items self.new) }
        ensures err { OnErr result (self.new ≡ self.old) }
    {
        match self.state {
            State::Idle | State::WaitCea | State::WaitCer => self.closes(Why::Stopped),
            State::Open => self.leaves(cause),
            State::WaitDpa | State::Closed => Ok(self.nothing()),
        }
    }

    fn leaves(&mut self, cause: Cause) -> Result<Vec<Output>, AllocError>
        ensures ok { IfOk result (λ outputs. Does (stops_open self.old cause) outputs.items self.new) }
        ensures err { OnErr result (self.new ≡ self.old) }
    {
        let ids = self.next;
        let outputs = self.sends(self.node.dpr(ids, cause)?)?;
        self.state = State::WaitDpa;
        self.next = after(ids);
        self.last_dpr = Some(ids);
        Ok(outputs)
    }

    fn breaks(&mut self) -> Vec<Output>
        ensures { Does (happens self.old Breaks) result.items self.new }
    {
        self.state = State::Closed;
        self.nothing()
    }

    fn nothing(&self) -> Vec<Output>
        ensures { result.items ≡ [] }
    {
        Vec::new(self.node.alloc)
    }

    fn sends(&self, bytes: Vec<u8>) -> Result<Vec<Output>, AllocError>
        ensures { IfOk result (λ outputs. outputs.items ≡ Output.Send bytes ∷ []) }
    {
        let mut outputs = self.nothing();
        outputs.push(Output::Send(bytes))?;
        Ok(outputs)
    }

    fn closes(&mut self, why: Why) -> Result<Vec<Output>, AllocError>
        ensures ok { IfOk result (λ outputs. Does (closes self.old [] why) outputs.items self.new) }
        ensures err { OnErr result (self.new ≡ self.old) }
    {
        let mut outputs = self.nothing();
        outputs.push(Output::Close(why))?;
        self.state = State::Closed;
        Ok(outputs)
    }

    fn sends_and_closes(&mut self, bytes: Vec<u8>, why: Why) -> Result<Vec<Output>, AllocError>
        ensures ok { IfOk result
            (λ outputs. (self.new ≡ closed self.old) × (outputs.items ≡ Output.Send bytes ∷ Output.Close why ∷ [])) }
        ensures err { OnErr result (self.new ≡ self.old) }
    {
        let mut outputs = self.sends(bytes)?;
        outputs.push(Output::Close(why))?;
        self.state = State::Closed;
        Ok(outputs)
    }
}

/// Whether the application is among those in common, of which that of relays means all.
fn is_among(id: u32, common: &[(Kind, u32)]) -> bool
    ensures { result ≡ list_any (λ app. (app.1 == RELAY) || (app.1 == id)) common.now }
{
    common.iter().any(|app| app.1 == RELAY || app.1 == id)
}

/// The identifiers one greater, 0 after 4294967295.
fn after(ids: Ids) -> Ids
    ensures { result ≡ after ids }
{
    Ids {
        hop: ids.hop.wrapping_add(1),
        e2e: ids.e2e.wrapping_add(1),
    }
}
