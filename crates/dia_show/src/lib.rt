//! `show` for readers: numbers with their words, flags as letters, dates, and texts as texts, as a function over values.
//!
//! ```text
//! let inputs = Inputs {
//!     first: Input::Bytes(Vec::from_slice(alloc, base_text().as_bytes())?),
//!     second: Input::Bytes(Vec::new(alloc)),
//!     table: Input::Bytes(Vec::from_slice(alloc, b"Disconnect-Cause 0 REBOOTING\n")?),
//!     message: Input::Bytes(Vec::from_slice(
//!         alloc,
//!         b"010000208000011a000000000000000100000002000001114000000c00000000",
//!     )?),
//! };
//! let mut sink = ToWriter::new(Vec::new(alloc));
//! show(alloc, true, &inputs, &mut sink)?;
//! // header flags R--- code 282 DPR app 0 hop 1 end 2 length 32
//! // 20 0 273 - -M- 12 Disconnect-Cause 0 REBOOTING
//! ```
#![tactic(auto)]

mod byte_kinds;
mod command;
mod dates;
mod flags;
mod header;
mod judging;
mod laws;
mod lines;
mod listing;
mod manner;
mod parts;
mod reading;
mod reporting;
mod values;
mod words;

pub use command::{show, show_message};
pub use laws::{one_show, one_show_of_line, one_show_of_lines, plain_is_show};
pub use lines::{Opening, list_lines, put_refusal, show_lines};
pub use manner::Manner;
pub use reading::{BadValues, read_manner};
pub use reporting::{Answered, Report, Reported};
pub use values::{date_of, word_of};
pub use words::{MAX_LINES, MAX_VALUES, ValuesFault, Words, read_words};
