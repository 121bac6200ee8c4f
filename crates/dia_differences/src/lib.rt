//! What differs in meaning between two dictionaries: their AVPs, their commands and the rules of both.
//!
//! Definitions are found by the AVP or the command that they are of: a place that isn't the dictionary's has no definition, so no
//! caller has to know which places there are.
#![tactic(auto)]

mod avps;
mod commands;
mod counts;
mod headers;
mod laws;
mod lines;
mod listing;
mod owner;
mod partners;
mod rules;
mod sides;

pub use counts::push_counts;
pub use headers::{Selector, pxy_of, selector_of};
pub use laws::{one_list, same_messages};
pub use lines::{AvpField, Effects, HeadField, Line, RulePlace, What};
pub use listing::lines_of;
pub use owner::Owner;
pub use partners::{Pairs, Partners};
pub use rules::place_of_rule;
pub use sides::Side;
