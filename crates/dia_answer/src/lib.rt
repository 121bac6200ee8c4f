//! The answer to a request that reports its first fault (RFC 6733 sections 6.2, 7.1, 7.1.5, 7.2 and 7.5), and the command that
//! writes it, as a function over values.
//!
//! ```text
//! let names = Names::new("host.invalid", "invalid")?;
//! match answer(alloc, &book, Unknown::Kept, Levels::Any, &names, &request)? {
//!     Ok(made) => send(&made.bytes),
//!     Err(why) => log(why.word()),
//! }
//! ```
#![tactic(auto)]

mod alone;
mod answering;
mod around;
mod codes;
mod command;
mod contents;
mod copies;
mod example;
mod failed;
mod forms;
mod held;
mod laws;
mod line;
mod lines;
mod names;
mod opaque;
mod request;
mod stock;

pub use answering::answer;
pub use command::{Report, Reported, write_answer};
pub use forms::{Form, Made, NoAnswer};
pub use laws::{cer_gets_error_message, one_answer, own_error_message, valid_where_failed_fits};
pub use lines::write_answers;
pub use names::{NameFault, Names};
