//! The lines of `diff`, as text and as JSON.
#![tactic(auto)]

mod line;
mod objects;
mod parts;
mod rules;
mod sides;
mod words;
mod writing;

pub use line::push;
