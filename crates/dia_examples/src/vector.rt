//! Whole vectors.

use crate::MAX_MESSAGE;
use crate::change::{Change, HeadChange, LevelChange};
use crate::levels::{after, before};
use crate::pieces::{Piece, length_of};
use crate::plan::{Plan, Reached};
use crate::writing::{four_bytes, push_header};
use byteorder::{BigEndian, ByteOrder};
use dia_book::Book;
use dia_breaking_levels::level_least;
use dia_breaking_shortest::{push_least, shortest_head};
use dia_wire::{COMMAND_ERROR, COMMAND_PROXIABLE, COMMAND_RETRANSMITTED, HEADER_LENGTH};
use std::alloc::{AllocError, Global};

/// The flags of a header that mean nothing.
const RESERVED: u8 = 0x0f;

impl<B: Book> Plan<'_, '_, B> {
    /// The bytes of a vector, with this number as both identifiers; none where it has more than `MAX_MESSAGE` bytes.
    pub fn vector(
        &self,
        alloc: Global,
        identifier: u32,
        change: Change,
    ) -> Result<Option<Vec<u8>>, AllocError> {
        match change {
            Change::Shortest => self.shortest(alloc, identifier),
            Change::Head(change) => match self.plain(alloc, identifier)? {
                Some(bytes) => self.with_head(bytes, change),
                None => Ok(None),
            },
            Change::Level { place, change } => self.changed(alloc, identifier, place, change),
        }
    }

    /// The bytes of the plain message.
    fn plain(&self, alloc: Global, identifier: u32) -> Result<Option<Vec<u8>>, AllocError> {
        let mut pieces = Vec::new(alloc);
        if let Some(own) = self.reached.first() {
            for run in &own.runs {
                pieces.push(Piece::of(run))?;
            }
        }
        self.around_pieces(alloc, identifier, 0, &pieces)
    }

    /// The bytes of a message with a changed level.
    fn changed(
        &self,
        alloc: Global,
        identifier: u32,
        place: usize,
        change: LevelChange,
    ) -> Result<Option<Vec<u8>>, AllocError> {
        let Some(reached) = self.reached.get(place) else {
            return Ok(None);
        };
        if reached.around > MAX_MESSAGE {
            return Ok(None);
        }
        let pieces = self.pieces(alloc, reached, change)?;
        self.around_pieces(alloc, identifier, place, &pieces)
    }

    /// The bytes of a message with these pieces as the level at a place.
    fn around_pieces(
        &self,
        alloc: Global,
        identifier: u32,
        place: usize,
        pieces: &[Piece],
    ) -> Result<Option<Vec<u8>>, AllocError> {
        let Some(reached) = self.reached.get(place) else {
            return Ok(None);
        };
        let inner = length_of(self.stock, pieces);
        let length = reached.around.saturating_add(inner);
        if length > MAX_MESSAGE {
            return Ok(None);
        }
        let mut out = Vec::with_capacity(alloc, length as usize)?;
        self.push_plain_header(&mut out, length, identifier)?;
        let chain = self.chain(alloc, place)?;
        for index in &chain {
            if let Some(level) = self.reached.get(*index) {
                self.push_opening(alloc, &mut out, level, length)?;
            }
        }
        self.push_pieces(alloc, &mut out, pieces)?;
        for index in chain.iter().rev() {
            if let Some(level) = self.reached.get(*index) {
                self.push_closing(alloc, &mut out, level)?;
            }
        }
        Ok(Some(out))
    }

    fn push_plain_header(
        &self,
        out: &mut Vec<u8>,
        length: u64,
        identifier: u32,
    ) -> Result<(), AllocError> {
        let head = &self.head;
        push_header(out, length, head.flags(), head.code, head.app, identifier)
    }

    /// Adds what precedes a level in the level around it, and the head of its AVP, in a message of this length.
    fn push_opening(
        &self,
        alloc: Global,
        out: &mut Vec<u8>,
        level: &Reached<'_>,
        length: u64,
    ) -> Result<(), AllocError> {
        let Some(way) = level.way else {
            return Ok(());
        };
        let Some(from) = self.reached.get(way.from) else {
            return Ok(());
        };
        let front = before(alloc, &from.runs, way.rule)?;
        self.push_pieces(alloc, out, &front)?;
        let inner = length.saturating_sub(level.around);
        let length = shortest_head(way.key).saturating_add(inner);
        self.push_pieces(
            alloc,
            out,
            &[Piece::Opened {
                key: way.key,
                length,
            }],
        )
    }

    /// Adds what follows a level in the level around it.
    fn push_closing(
        &self,
        alloc: Global,
        out: &mut Vec<u8>,
        level: &Reached<'_>,
    ) -> Result<(), AllocError> {
        let Some(way) = level.way else {
            return Ok(());
        };
        let Some(from) = self.reached.get(way.from) else {
            return Ok(());
        };
        let rest = after(alloc, &from.runs, way.rule)?;
        self.push_pieces(alloc, out, &rest)
    }

    /// The places of the definitions that lead to the one at a place, and its own, outermost first.
    pub(crate) fn chain(&self, alloc: Global, place: usize) -> Result<Vec<usize>, AllocError> {
        let mut chain = Vec::new(alloc);
        let mut next = Some(place);
        for _ in 0..self.reached.len() {
            let Some(index) = next else {
                break;
            };
            chain.push(index)?;
            next = self.outer(index);
        }
        chain.reverse();
        Ok(chain)
    }

    /// The place of the definition around the one at a place.
    fn outer(&self, place: usize) -> Option<usize> {
        let way = self.reached.get(place)?.way?;
        Some(way.from)
    }

    /// The bytes of the plain message with a changed header, or with other bytes at its end.
    fn with_head(&self, bytes: Vec<u8>, change: HeadChange) -> Result<Option<Vec<u8>>, AllocError> {
        let mut bytes = bytes;
        let length = bytes.len();
        let flags = self.head.flags();
        match change {
            HeadChange::Plain => {}
            HeadChange::P(true) => put(&mut bytes, 4, &[flags | COMMAND_PROXIABLE]),
            HeadChange::P(false) => put(&mut bytes, 4, &[flags & !COMMAND_PROXIABLE]),
            HeadChange::T => put(&mut bytes, 4, &[flags | COMMAND_RETRANSMITTED]),
            HeadChange::E => put(&mut bytes, 4, &[flags | COMMAND_ERROR]),
            HeadChange::Reserved => put(&mut bytes, 4, &[flags | RESERVED]),
            HeadChange::Version => put(&mut bytes, 0, &[2]),
            HeadChange::ShortLength => put(&mut bytes, 1, &three_bytes(16)),
            HeadChange::LengthAndOne => put(
                &mut bytes,
                1,
                &three_bytes((length as u64).saturating_add(1)),
            ),
            HeadChange::Cut => bytes.truncate(length.saturating_sub(4)),
            HeadChange::Extended => {
                bytes.extend_from_slice(b"\0\0\0\0")?;
                if bytes.len() as u64 > MAX_MESSAGE {
                    return Ok(None);
                }
            }
            HeadChange::Code(code) => put(&mut bytes, 5, &three_bytes(u64::from(code))),
            HeadChange::App(app) => put(&mut bytes, 8, &four_bytes(app)),
        }
        Ok(Some(bytes))
    }

    /// The bytes of the shortest message.
    fn shortest(&self, alloc: Global, identifier: u32) -> Result<Option<Vec<u8>>, AllocError> {
        let parts = level_least(alloc, self.stock.book, self.command, self.stock)?;
        let mut body = Vec::new(alloc);
        for part in &parts {
            for _ in 0..part.count {
                if body.len() as u64 > MAX_MESSAGE {
                    return Ok(None);
                }
                push_least(&mut body, self.stock.book, &self.stock.least, part.key)?;
            }
        }
        let length = (HEADER_LENGTH as u64).saturating_add(body.len() as u64);
        if length > MAX_MESSAGE {
            return Ok(None);
        }
        let mut out = Vec::new(alloc);
        self.push_plain_header(&mut out, length, identifier)?;
        out.extend_from_slice(&body)?;
        Ok(Some(out))
    }
}

/// Writes bytes over those at a place.
fn put(bytes: &mut Vec<u8>, at: usize, new: &[u8]) {
    for index in 0..new.len() {
        if let Some(place) = bytes.get_mut(at.saturating_add(index)) {
            *place = new[index];
        }
    }
}

/// The last three bytes of a number.
fn three_bytes(number: u64) -> [u8; 3] {
    let mut bytes = [0; 8];
    BigEndian::write_u64(&mut bytes, number);
    [bytes[5], bytes[6], bytes[7]]
}
