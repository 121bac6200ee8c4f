//! The AVPs of one dictionary that no message has that is sent, and whether the side of another dictionary would refuse them.
#![tactic(auto)]

mod unsent;

pub use unsent::{Unsent, unsent_avps};
