//! Padding that is missing. An AVP is padded to a multiple of four bytes, and its AVP Length doesn't count that (RFC 6733
//! section 4.1).

use crate::place::back;
use byteorder::{BigEndian, ByteOrder};

/// An AVP that has no padding, though its length is no multiple of four.
#[derive(Clone, Copy)]
pub struct Unpadded {
    /// How many bytes of the level precede it.
    pub at: usize,
    pub code: u32,
    pub length: usize,
}

/// The head of an AVP: its code, and its AVP Length.
#[derive(Clone, Copy)]
struct Head {
    code: u32,
    length: usize,
}

/// The first AVP of a level that the next AVP, or the end of the level, follows without padding. `None` where each AVP up to the
/// first that can't be read is padded.
pub fn find_unpadded(level: &[u8]) -> Option<Unpadded> {
    let mut rest = level;
    for _ in level {
        let Head { code, length } = head_of(rest)?;
        let padded = length.saturating_add(3) / 4 * 4;
        if !may_follow(back(rest, padded), rest.len() >= padded) {
            let is_found = padded != length && may_follow(back(rest, length), true);
            let at = level.len().saturating_sub(rest.len());
            return if is_found {
                Some(Unpadded { at, code, length })
            } else {
                None
            };
        }
        rest = back(rest, padded);
    }
    None
}

/// Whether a level may continue with these bytes after an AVP: it ends, or an AVP begins.
fn may_follow(rest: &[u8], is_within: bool) -> bool {
    is_within && (rest.is_empty() || head_of(rest).is_some())
}

/// The head of the AVP at the start of some bytes, if it looks like one: no reserved flag is set, and the length is that of an
/// AVP which ends among these bytes.
fn head_of(rest: &[u8]) -> Option<Head> {
    if rest.len() < 8 {
        return None;
    }
    let code = BigEndian::read_u32(rest);
    let flags = rest[4];
    let length = BigEndian::read_u24(&rest[5..]) as usize;
    let least = if flags & 0x80 == 0 { 8 } else { 12 };
    if flags & 0x1f == 0 && length >= least && length <= rest.len() {
        Some(Head { code, length })
    } else {
        None
    }
}
