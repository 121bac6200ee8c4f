//! Dictionaries of AVPs, groups and commands (RFC 6733 sections 3.2 and 4), however they are stored.
//!
//! Everything that reads a dictionary goes through the trait `Book`.
#![tactic(auto)]

mod book;
mod definition;
mod indices;
mod shape;
mod slots;

pub use book::Book;
pub use definition::{Class, DRule, DefHead, Definition, Slot};
pub use dia_data::{Format, Leaf, accepts};
pub use dia_terms::{MRule, Pxy, RuleKind};
pub use dia_wire::Key;
pub use indices::{DefId, Entry};
pub use shape::Shape;
