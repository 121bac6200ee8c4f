//! How the levels of a definition can break the rules of another, each with the least length of such a level.
#![tactic(auto)]

mod costs;
mod cut;
mod demand;
mod floor;
mod laws;
mod lengths;
mod level;
mod levels;
mod line;
mod offers;
mod order;
mod parts;
mod plans;
mod rules;
mod steps;

pub use costs::Costs;
pub use laws::{
    breaches_are_all, definitions_are_sound, line_levels_are_one, lines_are_one, lines_are_shown,
    lines_have_room, once_is_least, placed_is_in_place, plan_is_least,
};
pub use lengths::TOO_LONG;
pub use levels::level_lines;
pub use line::{Line, Part, Reason};
pub use plans::{length_least, length_with, level_least, level_with, line_level};
