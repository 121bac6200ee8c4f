//! The command `breaking` as JSON (RFC 8259): an object for each line, as it is found, and then one with how many there are.
#![tactic(auto)]

mod amounts;
mod command;
mod ending;
mod fields;
mod keys;
mod laws;
mod listing;
mod objects;
mod paths;
mod spots;
mod subjects;
mod writer;

pub use command::breaking;
pub use keys::{Keys, Names};
pub use laws::{objects_are_one, texts_are_one};
pub use objects::{cause_object, line_object};
pub use spots::{Spelt, Texts};
