//! Reasons: diagnostics of answers that aren't yes.
//!
//! A reason reports the place in the message or in the table, what is wrong there, where the dictionaries say otherwise, and the
//! hint.
#![tactic(auto)]

mod answers;
mod applications;
mod books;
mod checking;
mod comparing;
mod faults;
mod lines;
mod refuting;
mod rule_text;
mod sides;
mod texts;

pub use answers::push_answer;
pub use checking::Asked;
pub use faults::push_unnamed;
pub use lines::{push_check_alone, push_refute_alone};
