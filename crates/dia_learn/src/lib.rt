//! What messages have, as a dictionary: their levels, read by a dictionary, and what is kept of them.
#![tactic(auto)]

mod laws;
mod place;
mod seen;
mod taking;

pub use laws::{one_source, valid_levels};
pub use place::{Place, Spot};
pub use seen::{Flags, Seen};
