//! `check` and `refute` of texts that have many messages, which are answered as they are read.
//!
//! `run_checks`, `run_refutations` and `run_stream` take a judge of dictionaries that were read, a feed and a sink. They put for
//! each message what the judge writes of it, and a [`Tally`] counts the verdicts. With a [`CheckJudge`] or a [`RefuteJudge`] this
//! is what `check` or `refute` writes for it alone.
#![tactic(auto)]

mod ended;
mod judges;
mod laws;
mod reasons;
mod runs;
mod spelling;
mod summaries;
mod tally;
mod verdicts;

pub use ended::{Ended, is_yes};
pub use judges::{CheckJudge, RefuteJudge, check_bytes, check_line};
pub use laws::{
    check_of_line, one_check, one_check_of_lines, one_check_of_stream, one_refute,
    one_refute_of_lines, refute_of_line,
};
pub use runs::{
    Captured, check_lines, check_stream, refuse, refute_lines, run_checks, run_refutations,
    run_stream,
};
pub use summaries::Lines;
pub use tally::Tally;
pub use verdicts::{Checked, Flaw, Refuted};
