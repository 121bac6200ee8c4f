use dia_check::{Levels, Unknown};

/// What is asked of each message beside its place in the connection.
#[derive(Clone, Copy)]
pub struct Check {
    pub unknown: Unknown,
    pub levels: Levels,
}

/// How a connection is followed.
#[derive(Clone, Copy)]
pub struct Options {
    /// Messages before the first one may be missing.
    pub middle: bool,
    /// Each message is checked against the dictionary.
    pub check: Option<Check>,
    /// The answer is JSON, an object a line.
    pub json: bool,
}
