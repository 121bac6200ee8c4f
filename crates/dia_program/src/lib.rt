//! The program `diacmd` as a function over values: what it writes on standard output for its words and the files that they
//! name, and with which status it ends.
//!
//! `run` is given the words, an `Opener` of files and of standard input, and the two streams that it writes to; its one clause is
//! `IsProgramOutcome`. `run_process` takes the words from the process. Notes go to the standard error of the runtime, and can't
//! change what is answered.
//!
//! ```text
//! let mut out = ToWriter::new(Vec::new(alloc));
//! let mut err = ToWriter::new(Vec::new(alloc));
//! let status = run(&rt, &opener, "1.0.0", words.as_slice(), &mut out, &mut err);
//! ```
#![tactic(auto)]

mod all_faults;
mod answering;
mod asking;
mod captured;
mod following;
mod front;
mod laws;
mod listing;
mod masking;
mod replying;
mod replying_lines;
mod running;
mod showing;
mod tasks;
mod text;
mod upgrading;

pub use laws::{answers_say, captures_of_bytes, lists_of_bytes, replies_of_bytes};
pub use running::{run, run_process};
