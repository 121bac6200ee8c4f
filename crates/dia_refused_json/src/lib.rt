//! Inputs that are refused, as JSON (RFC 8259): an object a line.
#![tactic(auto)]

mod answer;
mod refusals;
mod strings;

pub use answer::{refuse, refuse_as};
pub use refusals::{bad_input_line, text_of};
pub use strings::quoted;
