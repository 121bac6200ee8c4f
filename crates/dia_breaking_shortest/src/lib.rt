//! How long the AVPs that a side sends are at least: laws on floors of lengths, and on lengths that are attained.
//!
//! A caller that has a number for each key proves by these laws that no AVP and no message that is sent is shorter, and that
//! some AVP is as short.
#![tactic(auto)]

mod finding;
mod laws;
mod lengths;
mod lookup;
mod order;
mod search;
mod writing;

pub use finding::least_lengths;
pub use laws::{
    group_is_attained, leaf_is_attained, least_avps_are_one, least_avps_are_spelled,
    length_is_attained, lengths_are_one, no_avp_is_shorter, no_message_is_shorter,
    unknown_is_attained,
};
pub use lengths::shortest_head;
pub use lookup::Least;
pub use writing::{push_avp, push_head, push_least, push_length};
