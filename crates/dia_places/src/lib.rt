//! Where messages of a dictionary's commands can hold an AVP: the definitions that a command reaches, by what they let the AVP
//! in, and the path to each.
#![tactic(auto)]

mod asking;
mod graph;
mod laws;
mod paths;
mod places;

pub use asking::asked;
pub use graph::{Reached, all_reached};
pub use laws::paths_are_one;
pub use paths::path_to;
pub use places::{By, by_of};
