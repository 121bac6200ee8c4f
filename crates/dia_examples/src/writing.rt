//! The bytes of vectors.

use crate::MAX_MESSAGE;
use crate::data::{Datum, plain};
use crate::pieces::Piece;
use crate::plan::Plan;
use byteorder::{BigEndian, ByteOrder};
use dia_book::{Book, Key};
use dia_breaking_shortest::{push_avp, push_head, push_length, shortest_head};
use std::alloc::{AllocError, Global};

/// Plain AVPs of a key that are still to be written.
#[derive(Clone, Copy)]
struct Waiting {
    key: Key,
    count: u64,
}

impl<B: Book> Plan<'_, '_, B> {
    /// Adds these pieces, in order.
    pub(crate) fn push_pieces(
        &self,
        alloc: Global,
        out: &mut Vec<u8>,
        pieces: &[Piece],
    ) -> Result<(), AllocError> {
        for piece in pieces {
            self.push_piece(alloc, out, piece)?;
        }
        Ok(())
    }

    fn push_piece(
        &self,
        alloc: Global,
        out: &mut Vec<u8>,
        piece: &Piece,
    ) -> Result<(), AllocError> {
        match *piece {
            Piece::Plain { key, count } => self.push_plain(alloc, out, key, count),
            Piece::Flagged { key, m } => {
                push_head(out, key, m, self.avp_length(key))?;
                self.push_contents(alloc, out, key)
            }
            Piece::Leaf { key, datum } => push_avp(
                out,
                key,
                self.stock.has_m(key),
                datum.as_slice(),
            ),
            Piece::Measured { key, length } => {
                push_head(out, key, self.stock.has_m(key), length)?;
                self.push_contents(alloc, out, key)
            }
            Piece::Opened { key, length } => push_head(out, key, self.stock.has_m(key), length),
            Piece::Zeros => out.extend_from_slice(b"\0\0\0\0"),
        }
    }

    /// Adds plain AVPs of a key. Open groups wait in a list, so depth costs heap and no stack. Each step writes an AVP, of which
    /// a vector has at most one for every 8 bytes.
    fn push_plain(
        &self,
        alloc: Global,
        out: &mut Vec<u8>,
        key: Key,
        count: u64,
    ) -> Result<(), AllocError> {
        let mut waiting = Vec::new(alloc);
        wait(&mut waiting, key, count)?;
        for _ in 0..MAX_MESSAGE / 8 {
            let Some(Waiting { key, count }) = waiting.pop() else {
                return Ok(());
            };
            wait(&mut waiting, key, count.saturating_sub(1))?;
            self.push_front(out, key)?;
            self.push_inner(&mut waiting, key)?;
        }
        Ok(())
    }

    /// Adds the plain AVP of a key, but for the AVPs within it.
    fn push_front(&self, out: &mut Vec<u8>, key: Key) -> Result<(), AllocError> {
        push_head(out, key, self.stock.has_m(key), self.avp_length(key))?;
        self.push_data(out, key)
    }

    /// Adds the data and the padding of a leaf's plain AVP.
    fn push_data(&self, out: &mut Vec<u8>, key: Key) -> Result<(), AllocError> {
        let Some(datum) = self.leaf(key) else {
            return Ok(());
        };
        out.extend_from_slice(datum.as_slice())?;
        let padding = (4 - datum.as_slice().len() % 4) % 4;
        for _ in 0..padding {
            out.push(0)?;
        }
        Ok(())
    }

    /// The data of the plain AVP of a key, if it is a leaf.
    fn leaf(&self, key: Key) -> Option<Datum> {
        let entry = self.stock.book.avp(key)?;
        match self.stock.book.group(entry) {
            Some(_) => None,
            None => Some(plain(key, self.stock.book.format(entry), self.context())),
        }
    }

    /// Puts the AVPs within the plain AVP of a key at the end of the list, the first of them last.
    fn push_inner(&self, waiting: &mut Vec<Waiting>, key: Key) -> Result<(), AllocError> {
        if let Some(entry) = self.stock.book.avp(key) {
            for run in self.stock.level(entry).iter().rev() {
                wait(waiting, run.key, run.count)?;
            }
        }
        Ok(())
    }

    /// Adds what follows the head of the plain AVP of a key.
    fn push_contents(&self, alloc: Global, out: &mut Vec<u8>, key: Key) -> Result<(), AllocError> {
        self.push_data(out, key)?;
        if let Some(entry) = self.stock.book.avp(key) {
            for run in self.stock.level(entry) {
                self.push_plain(alloc, out, run.key, run.count)?;
            }
        }
        Ok(())
    }

    /// The AVP Length of the plain AVP of a key.
    pub(crate) fn avp_length(&self, key: Key) -> u64 {
        match self.leaf(key) {
            Some(datum) => shortest_head(key).saturating_add(datum.length()),
            None => self.stock.length(key),
        }
    }
}

/// Puts so many AVPs of a key at the end of the list.
fn wait(waiting: &mut Vec<Waiting>, key: Key, count: u64) -> Result<(), AllocError> {
    if count > 0 {
        waiting.push(Waiting { key, count })?;
    }
    Ok(())
}

/// Adds the header of a message (RFC 6733 section 3).
pub(crate) fn push_header(
    out: &mut Vec<u8>,
    length: u64,
    flags: u8,
    code: u32,
    app: u32,
    identifier: u32,
) -> Result<(), AllocError> {
    out.push(1)?;
    push_length(out, length)?;
    out.push(flags)?;
    push_length(out, u64::from(code))?;
    out.extend_from_slice(&four_bytes(app))?;
    out.extend_from_slice(&four_bytes(identifier))?;
    out.extend_from_slice(&four_bytes(identifier))
}

/// The four bytes of a number.
pub(crate) fn four_bytes(number: u32) -> [u8; 4] {
    let mut bytes = [0; 4];
    BigEndian::write_u32(&mut bytes, number);
    bytes
}
