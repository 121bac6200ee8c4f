//! `compare` as JSON (RFC 8259): one object, which has all that fails the test of the first pair that fails one.
//!
//! A failing shows a part of each dictionary: a rule, the declaration of an AVP, or a command.
#![tactic(auto)]

mod arrays;
mod commands;
mod comparing;
mod declarations;
mod failing_parts;
mod failing_words;
mod failings;
mod failures;
mod laws;
mod parts;
mod rules;
mod sides;
mod words;

pub use comparing::compare;
pub use laws::one_comparison_text;
