//! What AVPs are called in an answer about two dictionaries: each text is that of one AVP.
#![tactic(auto)]

mod laws;
mod names;

pub use laws::names_are_apart;
pub use names::{AvpNames, key_text};
