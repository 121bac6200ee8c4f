//! How a message is shown.

use crate::words::Words;

/// How a message is shown beside what `show` prints without options.
#[derive(Drop)]
pub struct Manner<'t> {
    /// The words that follow numbers.
    pub words: Words<'t>,
    /// Flags as letters, the command's name, dates, texts as texts, and levels indented.
    pub names: bool,
}
