//! What the command is asked for.

use dia_terms::{Sends, Unknown};

/// What is done about stale entries of the list of accepted lines.
#[derive(Clone, Copy)]
pub enum Stale {
    /// They are written after all lines, and where there is one the answer is no.
    Fails,
    /// They are found, and don't change the answer.
    Allowed,
    /// They aren't looked for.
    Ignored,
}

/// What `breaking` is to list.
#[derive(Clone, Copy)]
pub struct Asked<'a> {
    /// What the side of the first dictionary sends.
    pub sends: Sends,
    /// What the side of the second does with AVPs that its dictionary doesn't know.
    pub unknown: Unknown,
    /// Whether each line is followed by its message.
    pub messages: bool,
    /// Whether lines of one cause are one line.
    pub once: bool,
    /// Whether AVPs that are read as another format are lines, too.
    pub meaning: bool,
    pub stale: Stale,
    /// The commands of the first dictionary that are listed: all where none is named.
    pub names: &'a [String],
}
