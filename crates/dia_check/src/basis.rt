use dia_book::Book;
use dia_terms::{Levels, Unknown};

/// What a check uses.
#[derive(Drop)]
pub struct Basis<'a, B: Book> {
    pub book: &'a B,
    /// The policy for AVPs that the dictionary does not know.
    pub unknown: Unknown,
    /// The limit on levels.
    pub levels: Levels,
}
