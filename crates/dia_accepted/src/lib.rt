//! Lists of accepted lines: which lines of an answer of `breaking` are known already, and which entries of the list are of no use
//! any more. And the causes of lines, each once.
#![tactic(auto)]

mod accepting;
mod choosing;
mod counting;
mod entries;
mod laws;
mod line;
mod list;
mod parts;
mod reading;
mod recorded;
mod words;

pub use accepting::Accepting;
pub use choosing::about;
pub use counting::{Causes, once_words};
pub use entries::entry_text;
pub use laws::{entry_of_cause_accepts, own_entry_accepts};
pub use list::{Entry, ListFault, MAX_LINES, MAX_LIST, read_list};
pub use recorded::Recorded;
