//! Tables of pairs of names, each of which says what of one dictionary corresponds to what of another, and whether each message
//! that is valid under the one, of the commands that a table lists, is valid under the other.
#![tactic(auto)]

mod checking;
mod comparing;
mod laws;
mod proposing;
mod reasons;
mod table;

pub use checking::{Answer, PairKind, Test, Verdict, check_table, judge_table};
pub use dia_check::refutes;
pub use laws::{
    closed_is_included, level_is_included, level_is_placed, no_table_passes, one_comparison,
    one_proposal, one_table, one_table_fault, read_tables_are_writable,
};
pub use proposing::{ProposeFault, propose};
pub use reasons::Failing;
pub use table::{
    MAX_NAME, MAX_PAIRS, MAX_TABLE, PairPart, PairWords, Table, TableFault, Word, parse_table,
    push_pair, render_table, words_of,
};
