//! The lines of an answer.

/// A line of an answer.
#[derive(Debug, Drop)]
pub struct Recorded {
    /// The place of its command among those of A.
    pub command: usize,
    /// `PATH: REASON SUBJECT: DETAIL`
    pub words: String,
    /// A message that shows it, on a line of its own; or nothing.
    pub message: String,
}
