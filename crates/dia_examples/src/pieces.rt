//! What a level of a vector is made of.

use crate::data::Datum;
use crate::levels::Run;
use crate::stock::{Stock, padded};
use dia_book::{Book, Key};
use dia_breaking_shortest::shortest_head;

/// A part of a level.
#[derive(Clone, Copy)]
pub(crate) enum Piece {
    /// So many plain AVPs of a key.
    Plain { key: Key, count: u64 },
    /// The plain AVP of a key, but for its M flag.
    Flagged { key: Key, m: bool },
    /// An AVP with these data.
    Leaf { key: Key, datum: Datum },
    /// The plain AVP of a key, with this AVP Length.
    Measured { key: Key, length: u64 },
    /// The AVP of a group with a level that is written on its own.
    Opened { key: Key, length: u64 },
    /// Four bytes with which no AVP begins.
    Zeros,
}

impl Piece {
    /// The plain AVPs of a run.
    pub(crate) fn of(run: &Run) -> Piece {
        Piece::Plain {
            key: run.key,
            count: run.count,
        }
    }

    /// How many bytes the piece has, with the level of a group.
    pub(crate) fn length<B: Book>(&self, stock: &Stock<'_, B>) -> u64 {
        match *self {
            Piece::Plain { key, count } => count.saturating_mul(stock.length(key)),
            Piece::Flagged { key, .. } => stock.length(key),
            Piece::Leaf { key, datum } => padded(shortest_head(key).saturating_add(datum.length())),
            Piece::Measured { key, .. } => stock.length(key),
            Piece::Opened { length, .. } => length,
            Piece::Zeros => 4,
        }
    }
}

/// How many bytes the pieces have.
pub(crate) fn length_of<B: Book>(stock: &Stock<'_, B>, pieces: &[Piece]) -> u64 {
    let mut sum: u64 = 0;
    for piece in pieces {
        sum = sum.saturating_add(piece.length(stock));
    }
    sum
}
