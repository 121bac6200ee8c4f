//! The AVPs of a level, one after the other.

use crate::avp::{Avp, AvpFault};
use crate::reading::next_avp;

/// An iterator over the AVPs of a level (RFC 6733 section 4.1), which ends with the level or after the first fault.
#[derive(Clone, Copy)]
pub struct Avps<'a> {
    level: &'a [u8],
}

impl<'a> Avps<'a> {
    ghost use Rattle.std.specs.Prelude.{◌≡◌};
    ghost use Rattle.dia_wire.specs.Level.{level_left};

    /// The AVPs of this level.
    pub fn new(level: &'a [u8]) -> Self
        ensures { level_left result ≡ level.now }
    {
        Avps { level }
    }
}

impl<'a> Iterator for Avps<'a> {
    ghost use Rattle.std.specs.Prelude.{length};
    ghost use Rattle.std.specs.Iterator.{at_most};
    ghost use Rattle.dia_wire.specs.Level.{level_left, StepsAvp};

    type Item = Result<Avp<'a>, AvpFault>;

    ghost next_gives = { λ old item new. StepsAvp (level_left old) item (level_left new) };

    ghost remaining = { λ avps. at_most (length (level_left avps)) };

    fn next(&mut self) -> Option<Self::Item> {
        match next_avp(self.level) {
            Ok(Some((avp, rest))) => {
                self.level = rest;
                Some(Ok(avp))
            }
            Ok(None) => None,
            Err(fault) => {
                self.level = &[];
                Some(Err(fault))
            }
        }
    }
}
