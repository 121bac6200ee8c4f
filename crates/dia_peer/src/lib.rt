//! One connection between two Diameter nodes, without sockets and clocks (RFC 6733 section 5).
//!
//! A `Core` is one end. `step` passes it an event, and answers the messages that are to be sent, and whether the
//! connection is to be closed. Two ends, where `recorded` gives an event to a core and collects the messages that it sends,
//! `delivered` does so for each message of a queue, and `exchanged` delivers in both directions:
//!
//! ```text
//! let mut initiator = Core::new(alloc, ours, Role::Initiator)?;
//! let mut responder = Core::new(alloc, theirs, Role::Responder)?;
//!
//! // Capabilities are exchanged.
//! recorded(alloc, &mut responder, Event::Start)?;
//! exchanged(alloc, &mut initiator, Event::Start, &mut responder)?;
//! assert_eq!(rt; initiator.state(), State::Open);
//! assert_eq!(rt; responder.state(), State::Open);
//!
//! // No message came for a time: a watchdog and its answer.
//! exchanged(alloc, &mut initiator, Event::Tick, &mut responder)?;
//!
//! // The initiator closes.
//! let cause = Event::Stop(Cause::Rebooting);
//! exchanged(alloc, &mut initiator, cause, &mut responder)?;
//! assert_eq!(rt; initiator.state(), State::Closed);
//! assert_eq!(rt; responder.state(), State::Closed);
//! ```
//!
//! The whole program is a test: `src/peer/example.rt` of the crate dia_run_tests.
#![tactic(auto)]

mod applications;
mod base_book;
mod codes;
mod config;
mod connection;
mod contents;
mod draft;
mod event;
mod incoming;
mod judging;
mod kept_requests;
mod laws;
mod messages;
mod named_apps;
mod node;
mod receiving;
mod timing;

pub use config::{App, Config, ConfigFault, Ip, Kind, Manner, Role};
pub use connection::{Core, Value};
pub use event::{Cause, Event, Output, State, Why};
pub use laws::{
    agreement, answered, one_step, our_messages_are_valid, plain, silence, their_values,
    without_relays,
};
pub use timing::{TimerAction, quiet_ms, timer};
