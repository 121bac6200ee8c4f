//! Places of texts: where the parts of a dictionary, of a table and of a message are in the texts that spell them.
//!
//! A place is the offset of a byte. It is reported to a reader as line and column, with the line of the text and a caret below
//! it.
#![tactic(auto)]

mod digits;
mod expecting;
mod input_texts;
mod lines;
mod nearest;
mod note;
mod padding;
mod place;
mod runs;
mod sites;
mod tables;
mod unknown;

pub use digits::{count_digits, place_of_byte};
pub use expecting::expected;
pub use input_texts::{InputTexts, NamedText};
pub use lines::{line_from, start_of_line};
pub use nearest::{nearest_command, nearest_name};
pub use note::Note;
pub use padding::{Unpadded, find_unpadded};
pub use place::{Place, back, place_of};
pub use sites::{name_from, part_place};
pub use tables::{RefusedWord, limit_word, syntax_word};
pub use unknown::{avp_names, command_names, put_listed, unknown_avp, unknown_command};
