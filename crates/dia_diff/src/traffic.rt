//! Messages of one side.

use dia_book::Book;
use dia_differences::Side;
use dia_terms::{Sends, Unknown};

/// Messages of one side, which the other reads.
pub(crate) struct Traffic<'d, A: Book, B: Book> {
    pub sender: &'d A,
    pub receiver: &'d B,
    /// The side of the sender.
    pub side: Side,
    /// Of each command of the sender the place of the one of the receiver that corresponds.
    pub commands: &'d [Option<usize>],
    pub sends: Sends,
    pub unknown: Unknown,
}

// Written out: a derive would require it of the books.
impl<A: Book, B: Book> Drop for Traffic<'_, A, B> {
    fn drop(self) {
        let Traffic {
            sender: _,
            receiver: _,
            side: _,
            commands: _,
            sends: _,
            unknown: _,
        } = self;
    }
}
