//! Diagnostics of inputs that are refused.
//!
//! A diagnostic reports the place, what was found and what was expected there, and the hint.
#![tactic(auto)]

mod commands;
mod dictionary;
mod fronts;
mod hints;
mod kinds;
mod messages;
mod names;
mod notes;
mod refused;
mod sides;
mod strangers;
mod tables;

pub use commands::push_unknown_commands;
pub use dictionary::push_empty;
pub use fronts::push_front;
pub use kinds::is_foreign;
pub use messages::{push_foreign, push_length};
pub use names::NamedSource;
pub use refused::push_refused;
pub use sides::{first_of, second_of};
pub use strangers::push_strangers;
pub use tables::push_no_pairs;
