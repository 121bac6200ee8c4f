//! The command `diff`: what differs in meaning between two dictionaries, and what comes of each difference.
#![tactic(auto)]

mod candidates;
mod command;
mod ignored;
mod marked_lines;
mod marking;
mod marks;
mod notes;
mod origins;
#[cfg(test)]
mod rows;
mod subjects;
mod traffic;

pub use command::{Asked, write_diff};
