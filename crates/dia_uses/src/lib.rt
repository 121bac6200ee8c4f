//! The command `uses`: where messages of a dictionary's commands can hold an AVP.
#![tactic(auto)]

mod command;
mod laws;
mod notes;
mod objects;
#[cfg(test)]
mod rows;
mod words;
mod writing;

pub use command::write_uses;
pub use laws::answers_are_one;
