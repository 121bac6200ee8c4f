//! Lists all faults of a message, for people who repair one by hand.
#![tactic(auto)]

mod avp;
mod collector;
mod counts;
mod faults;
mod listing;
mod placing;

pub use faults::{AllFaults, all_faults, in_order};
