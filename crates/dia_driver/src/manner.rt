//! How an answer is written.

/// How the answer is written.
#[derive(Clone, Copy)]
pub struct Manner {
    /// Nothing is explained.
    pub quiet: bool,
    /// It is JSON.
    pub json: bool,
}
