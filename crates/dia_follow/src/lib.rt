//! Which end of a captured connection departs from RFC 6733, decided message by message.
//!
//! A [`Connection`] is what is known after some messages. [`read`] reads the bytes of a message, and [`Connection::step`] answers
//! the departures of the next one and the notes on it:
//!
//! ```text
//! let mut connection = Connection::new(alloc);
//! let bytes = hex::decode(alloc, b"0100001480000118000000000000000700000007")?;
//! let seen = read(alloc, bytes.as_slice())?;
//! let line = Line { number: 1, time: None, bytes: bytes.as_slice(), seen, judged: Judged::Unasked };
//! let found = connection.step(alloc, End::Initiator, &line)?;
//! assert!(rt; found.as_slice() == [Reason::NoCer].as_slice());
//! ```
#![tactic(auto)]

mod applications;
mod codes;
mod connection;
mod contents;
mod end;
mod first;
mod kept;
mod laws;
mod message;
mod moment;
mod phase;
mod reading;
mod reason;
mod request;
mod side;
#[cfg(test)]
mod tests;
mod waiting;

pub use applications::{Applications, Common, Listed};
pub use connection::Connection;
pub use contents::Contents;
pub use end::End;
pub use laws::{bytes_have_one_reading, common_is_symmetric, no_departure_opens};
pub use message::{Body, Head, Judged, Line, Message, Seen};
pub use moment::Moment;
pub use reading::read;
pub use reason::Reason;
pub use request::{Request, Session};
pub use side::Watchdog;
