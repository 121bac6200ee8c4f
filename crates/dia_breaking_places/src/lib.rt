//! Where the texts of two dictionaries have what a line of `breaking` is about: a head, a rule or a declaration.
#![tactic(auto)]

mod marks;
mod matter;
mod places;
mod rules;
mod tables;
mod texts;

pub use marks::Marks;
pub use matter::{Matter, MatterKind, first_place, second_place};
pub use places::Places;
