//! The commands of `diacmd` as functions over values: what each writes for its inputs, and how it ends.
//!
//! `run` takes the texts of the inputs and a sink for what is written:
//!
//! ```text
//! let command = Command::Check { unknown: Unknown::Kept, levels: Levels::Any };
//! let inputs = Inputs {
//!     first: Input::Bytes(Vec::from_slice(alloc, base_text().as_bytes())?),
//!     second: Input::Bytes(Vec::new(alloc)),
//!     table: Input::Bytes(Vec::new(alloc)),
//!     message: Input::Bytes(Vec::from_slice(alloc, b"0100001480000118000000000000000100000002")?),
//! };
//! let mut sink = ToWriter::new(Vec::new(alloc));
//! let exit = run(alloc, &command, &inputs, &mut sink)?;
//! assert_eq!(rt; exit, Exit::No);
//! assert!(rt; sink.writer.as_slice() == b"fault 5005 at 20 missing Origin-Host\n".as_slice());
//! ```
#![tactic(auto)]

mod commands;
mod inputs;
mod row_writer;
mod running;
mod walk;

pub use commands::check::{push_subject, verdict};
pub use commands::compare::{recorded_answer, test_word};
pub use commands::faults::report_faults;
pub use commands::show::{PlainRows, push_number, push_vendor, show_message};
pub use commands::{Outcome, answer_of, outcome_of, recorded};
pub use dia_io::{
    Command, Exit, Failed, Feed, FromReader, Input, InputFault, Inputs, RunFault, Sink, ToWriter,
    read_input,
};
pub use dia_terms::MAX_MESSAGE_TEXT;
pub use inputs::dictionary::read_dictionary;
pub use inputs::message::read_message;
pub use inputs::table::read_table;
pub use row_writer::{Known, RowWriter};
pub use running::{answer, run, run_reporting};
pub use walk::write_message;
