//! The program of the first answers: `show`, `check`, `render`, `compare`, `propose` and `refute`, as text. It needs a third of the
//! proofs that the whole one needs, so a new checkout answers sooner.
#![tactic(auto)]

mod answering;
mod notes;
mod recording;
mod tasks;

pub use answering::answer_plainly;
pub use notes::{UNNAMED, names_of, note, note_unnamed};
pub use recording::report_made;
pub use tasks::FirstTasks;
