//! Answers as JSON (RFC 8259): an object a line.
//!
//! `check` and `refute` answer for one message, `show` lists it, and `propose` answers for two dictionaries.
//! `check_lines`, `refute_lines` and `check_stream` read their messages a piece at a time, as those of dia_captures do, and put
//! an object for each; `show_lines` puts the objects of each.
#![tactic(auto)]

mod answers;
mod judges;
mod laws;
mod listing;
mod proposing;
mod runs;
mod showing;
mod shown_lines;
mod values;
mod verdicts;

pub use answers::{check, refute};
pub use judges::{JsonCheck, JsonRefute};
pub use laws::text_is_value;
pub use proposing::propose;
pub use runs::{check_lines, check_stream, refute_lines};
pub use showing::show;
pub use shown_lines::show_lines;
pub use verdicts::{push_checked, push_numbered, push_numbered_refuted, push_placed, push_refuted};
