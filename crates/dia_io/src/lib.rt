//! What the program takes and gives: its command and the texts of its inputs, how it ends, and where bytes come from and go.
//!
//! `read_input` reads a `Feed` up to a limit, and `put_all` writes a text to a `Sink`:
//!
//! ```text
//! let mut feed = FromReader::new(b"0100001480000118000000000000000100000002".as_slice());
//! let bytes = read_input(alloc, &mut feed, MAX_MESSAGE_TEXT)?;
//! let mut sink = ToWriter::new(Vec::new(alloc));
//! put_all(&mut sink, bytes.as_slice())?;
//! assert!(rt; sink.writer.as_slice() == bytes.as_slice());
//! ```
#![tactic(auto)]

mod command;
mod devices;
mod reading;
mod streams;
mod writing;

pub use command::{Command, Exit, Input, Inputs, RunFault};
pub use devices::{FromReader, ToWriter};
pub use reading::{InputFault, read_input};
pub use streams::{Failed, Feed, Sink};
pub use writing::put_all;
