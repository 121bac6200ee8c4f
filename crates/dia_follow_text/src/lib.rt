//! `follow`: the lines of a captured connection, answered one by one: which end departs from RFC 6733.
//!
//! ```text
//! let options = Options { middle: false, check: None, json: false };
//! let followed = follow(alloc, &options, &dictionary, &mut feed, &mut sink)?;
//! ```
//!
//! The answer is put as the lines come. `followed.reported` says how the command ended, and `followed.summary` is for standard
//! error.
#![tactic(auto)]

mod answering;
mod commons;
mod counts;
mod details;
mod earlier;
mod entry;
mod forms;
mod hosts;
mod judging;
mod laws;
mod messages;
mod names;
mod objects;
mod options;
mod reasons;
#[cfg(test)]
mod rows;
mod running;
mod said;
mod summary;
mod times;
mod unanswered;
mod unread;

pub use entry::{BadLine, Entry, read_line};
pub use laws::connection_has_one_answer;
pub use options::{Check, Options};
pub use running::{Followed, follow};
