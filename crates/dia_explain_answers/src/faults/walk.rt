//! The groups around a place of a message.

use crate::books::group_of;
use crate::faults::avp_bytes::part;
use dia_book::{Book, Key};
use dia_wire::{Avp, HEADER_LENGTH, key, next_avp};
use std::alloc::{AllocError, Global};

/// A group: its place, its key, and where it ends.
#[derive(Clone, Copy)]
pub struct Group {
    pub place: usize,
    pub key: Key,
    pub end: usize,
}

/// A walk over the AVPs of a message, into the groups that a dictionary has and out of them.
#[derive(Drop)]
pub struct Walk {
    /// The groups around the place, the outermost first.
    pub groups: Vec<Group>,
    /// The place: the message was read up to here.
    pub at: usize,
    /// Whether the dictionary lacks an AVP before the place.
    pub has_unnamed: bool,
}

/// Goes through a message up to a place, to its end, or to the first place where no AVP begins. Groups that end at the place
/// are still open.
pub fn walk_to<B: Book>(
    alloc: Global,
    book: &B,
    message: &[u8],
    place: usize,
) -> Result<Walk, AllocError> {
    let mut walk = Walk {
        groups: Vec::new(alloc),
        at: HEADER_LENGTH,
        has_unnamed: false,
    };
    for _ in message {
        if walk.at >= place || !walk.advance(book, message)? {
            break;
        }
    }
    Ok(walk)
}

impl Walk {
    /// Goes past the next AVP, into a group, or out of one that is at its end. Answers whether the walk continues.
    fn advance<B: Book>(&mut self, book: &B, message: &[u8]) -> Result<bool, AllocError> {
        let end = match self.groups.last() {
            Some(group) => group.end,
            None => message.len(),
        };
        match next_avp(part(message, self.at, end)) {
            Ok(Some((avp, rest))) => {
                self.pass(book, &avp, end.saturating_sub(rest.len()))?;
                Ok(true)
            }
            Ok(None) => Ok(self.groups.pop().is_some()),
            Err(_) => Ok(false),
        }
    }

    /// Goes past an AVP, after which the level continues at `following`, or into it.
    fn pass<B: Book>(
        &mut self,
        book: &B,
        avp: &Avp<'_>,
        following: usize,
    ) -> Result<(), AllocError> {
        let key = key(avp);
        let place = self.at;
        let end = place.saturating_add(avp.length());
        self.has_unnamed = self.has_unnamed || book.avp(key).is_none();
        if group_of(book, key).is_none() {
            self.at = following;
        } else {
            self.groups.push(Group { place, key, end })?;
            self.at = end.saturating_sub(avp.bytes.len());
        }
        Ok(())
    }
}
