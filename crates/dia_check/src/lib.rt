//! Checks messages against a dictionary.
#![tactic(auto)]

mod admission;
mod basis;
mod body;
mod checking;
mod fault;
mod group;
mod header;
mod open_levels;
mod recording;
mod refuting;
mod room;
mod stream;

pub use admission::{check_data, wrong_flags};
pub use basis::Basis;
pub use checking::{check, check_in, one_answer, validity};
pub use dia_terms::{Levels, Unknown};
pub use fault::{Fault, Reason, Refusal, Selected, Subject};
pub use header::{allows_p, class_of, has_good_bits};
pub use open_levels::{Wrong, lead, missing};
pub use refuting::refutes;
pub use room::Room;
pub use stream::{Paused, Progress, Stream, StreamFault};
