//! What a command reports: the inputs that it read or refused, and what it found of them.
//!
//! Commands make reports, and standard error is written from them. Neither depends on the other: both depend on this crate.
#![tactic(auto)]

mod bad_input;
mod refusing;
mod reporting;
mod wrong_source;

pub use bad_input::{BadDictionary, BadInput, BadMessage, BadTable, fault_word};
pub use refusing::Refused;
pub use reporting::{
    Answered, BothBooks, Compared, CutListing, Invalid, ReadBook, Report, Reported, Unrefuting,
};
pub use wrong_source::WrongSource;
