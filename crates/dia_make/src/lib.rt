//! The commands `make` and `show --as-text`, as functions over values: the messages that a text writes, as hexadecimal text, and
//! the text of a message; or why there is none.
#![tactic(auto)]

mod command;
mod cutting;
mod notes;
mod numbered;
mod refusing;
mod reporting;
mod showing;
mod tables;
mod words;

pub use command::make;
pub use notes::note;
pub use reporting::{BadText, Report, Reported};
pub use showing::{show_text, shown_is_made};
