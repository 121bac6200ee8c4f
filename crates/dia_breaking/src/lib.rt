//! Everything that can break where messages of one dictionary are read by another.
//!
//! A line says one way to break: `Upgrade::breaks` finds the lines of a command, `Upgrade::push_words` writes one, and
//! `Upgrade::message` makes a message for it. That no message for it is shorter isn't proved.
#![tactic(auto)]

mod apps;
mod books;
mod bounds;
mod confirm;
mod correcting;
mod exits;
mod format_words;
mod header_lines;
mod headers;
mod heads;
mod keys;
mod laws;
mod lengths;
mod level_words;
mod levels;
mod line;
mod line_parts;
mod lines;
mod meanings;
mod message;
mod message_headers;
mod nodes;
mod number_lists;
mod own_breaks;
mod own_lines;
mod parts;
mod parts_of_lines;
mod readings;
mod refusals;
mod sent_numbers;
mod shown;
mod sites;
mod start;
mod upgrade;
mod ways;
mod words;

pub use confirm::MOST_CHECKED_TOGETHER;
pub use dia_terms::{Sends, Unknown};
pub use laws::{
    data_lines_are_apart, included_commands_break_nothing, line_messages_are_one, lines_are_shown,
    listings_are_one, the_lines_are_all, the_lines_are_one, the_meanings_are_one,
    words_are_of_parts,
};
pub use line::{Breaks, Cause, Line, Place, Site, Standing};
pub use line_parts::{Amount, LineParts, LineReason, Path, Subject};
pub use upgrade::Upgrade;
