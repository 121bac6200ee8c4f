//! The command line of `diacmd` as functions over values: what its words ask for, where the inputs come from, and how the
//! program ends.
//!
//! `parse_words` reads the words, the program's own name first, and shows the version that it is given for `--version`.
//! `open_inputs` reads what the words name. `run` of dia_run does the rest:
//!
//! ```text
//! let words = ["diacmd", "check", "@base", "/dev/null"];
//! let request = parse_words(alloc, "1.0.0", words.as_slice())?;
//! let inputs = open_inputs(alloc, &OfProcess::new(&rt), &request.origins)?;
//! let mut sink = ToWriter::new(Vec::new(alloc));
//! let Task::Whole(command) = request.task else {
//!     return Err(Fail::from("the words ask for another run"));
//! };
//! let exit = run(alloc, &command, &inputs, &mut sink)?;
//! assert_eq!(rt; exit, Exit::No);
//! assert!(rt; sink.writer.as_slice() == b"truncated\n".as_slice());
//! ```
//!
//! An `Ending` says why there is no outcome. `finish` prints it, and answers the status of the process: help on standard output,
//! and any other on standard error, as `report_error` does.
#![tactic(auto)]

mod apart;
mod arguments;
mod ending;
mod line;
mod opened_inputs;
mod opener;
mod origin;
mod request;
mod rows;
mod shown;
mod task;
mod tips;
mod values;

pub use apart::Apart;
pub use arguments::parse_words;
pub use ending::{Ending, STANDARD_OUTPUT, finish, report_error};
pub use opened_inputs::open_inputs;
pub use opener::{OfProcess, Opener};
pub use origin::{BASE_DICTIONARY, NO_TABLE, Origin, Origins, STANDARD_INPUT};
pub use request::Request;
pub use task::{Answering, Breaking, Following, Linting, Masking, Sampling, Task};
pub use tips::advised;
