//! A program from its words to its exit status, whichever tasks it has: what it writes on standard output for its words and the
//! files that they name, and with which status it ends.
//!
//! `run` is given the tasks, the words, an `Opener` of files and of standard input, and the two streams that it writes to; its one
//! clause is `IsProgramOutcome`, over what the tasks answer. `run_process` takes the words from the process. Notes go to the standard
//! error of the runtime, and can't change what is answered.
#![tactic(auto)]

mod advice;
mod built;
mod inputs;
mod manner;
mod performing;
mod running;
mod tasks;

pub use inputs::{named_text, texts_of, word_of};
pub use manner::Manner;
pub use running::{run, run_process};
pub use tasks::Tasks;
