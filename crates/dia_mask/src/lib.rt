//! Messages whose data may say who or where, with these data replaced by words of the same pattern (our profile).
//!
//! Lengths, headers and the heads of AVPs stay (RFC 6733 sections 3 and 4.1), and so does all other data. A [`Choice`] says which
//! AVPs are masked, and a [`Run`] has the words that came before, so that equal words stay equal over all messages of a run:
//!
//! ```text
//! let choice = Choice::by_format(alloc, &book)?;
//! let mut run = Run::new(alloc, &book, false)?;
//! let mut masked = Vec::new(alloc);
//! mask_message(alloc, &book, &choice, &mut run, &message, &mut masked)?;
//! ```
#![tactic(auto)]

mod choice;
mod counts;
mod data;
mod kinds;
mod laws;
mod message;
#[cfg(test)]
mod rows;
mod texts;
mod verdicts;
mod ways;
mod words;

pub use choice::{Choice, can_be_masked};
pub use counts::{AvpCount, Counts};
pub use laws::{equal_words, said_again};
pub use message::{Run, mask_message};
pub use verdicts::same_verdict;
