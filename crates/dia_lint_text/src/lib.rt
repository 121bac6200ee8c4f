//! The command `lint`, as a function over values: what a dictionary says in vain, and where it leaves RFC 6733.
#![tactic(auto)]

mod accepted;
mod asked;
mod choice;
mod command;
mod cursor;
mod details;
mod endings;
mod form;
mod listing;
mod notes;
mod objects;
mod parts;
mod sorting;
mod words;

pub use asked::Asked;
pub use command::write_lint;
