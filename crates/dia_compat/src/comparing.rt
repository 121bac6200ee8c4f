//! What the tests of a table's pairs are made of.
mod bounds;
mod by_code;
mod commands;
mod covers;
mod failing_heads;
mod failing_pairs;
mod failing_rules;
mod failing_wildcards;
mod heads;
mod keys;
mod named_book;
mod nine_tests;
mod pair_tests;
mod pairs;
mod rules;
mod sides;
mod wildcards;

pub(crate) use by_code::{Commands, open_code};
pub(crate) use commands::is_wanted;
pub(crate) use named_book::names_of_commands;
pub(crate) use pairs::Comparison;
pub(crate) use rules::Rules;
pub(crate) use sides::Sides;
