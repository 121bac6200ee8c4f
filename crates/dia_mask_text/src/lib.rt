//! `mask`: messages of a text, a line each, with the data that may say who or where replaced.
//!
//! ```text
//! let options = Options { keep: None, mask: Some("NAS-Port"), only: None, json: false };
//! let mut notes = String::new(alloc);
//! let reported = mask(alloc, &options, &dictionary, &mut notes, &mut feed, &mut sink)?;
//! ```
//!
//! The answers are put as the lines come. `reported` says how the command ended, and `notes` is for standard error.
#![tactic(auto)]

mod answering;
mod choosing;
mod options;
#[cfg(test)]
mod rows;
mod running;
mod spelling;
mod summary;

pub use options::Options;
pub use running::mask;
