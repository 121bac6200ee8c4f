//! The shortest ways to the levels of messages, and to the AVPs in them.
#![tactic(auto)]

mod graph;
mod laws;
mod offers;
mod openings;
mod reach;
mod search;
mod stages;
mod steps;
mod walking;

pub use graph::{Exits, Level, Node, Reach, Step, Walk};
pub use laws::walks_are_one;
pub use walking::walk;
