//! Test vectors of a dictionary: for each command valid messages that reach each definition, rule and count, and messages with one
//! fault.
//!
//! A `Stock` has what the vectors of all commands are made of, a `Plan` is one command with the definitions that it reaches, and a
//! `Change` is what is done in one vector. A vector has at most `MAX_MESSAGE` bytes.
#![tactic(auto)]

mod change;
mod data;
mod faults;
mod heads;
mod levels;
mod lookup;
mod pieces;
mod plan;
mod stock;
mod valid;
mod vector;
mod words;
mod writing;

pub use change::{Change, HeadChange, LevelChange, Part};
pub use data::Datum;
pub use plan::{NoVectors, Plan};
pub use stock::Stock;

/// The most bytes of a vector.
pub const MAX_MESSAGE: u64 = 4096;
