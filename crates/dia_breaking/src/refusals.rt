//! Which AVPs B's side refuses, whatever is around them.
ghost use Rattle.std.specs.Prelude.{◌≡◌, ◌<◌, ◌↔◌, [], IfOk, false, length};
ghost use Rattle.dia_book.specs.Dictionary.{definitions};
ghost use Rattle.dia_breaking.specs.Refusals.{BreakInLevels, IsRefusal};
ghost use Rattle.dia_breaking.specs.Upgrades.{costs_in, sides_of};

use crate::keys::breaks_alone;
use crate::upgrade::Upgrade;
use dia_book::{Book, DefId, Key};
use dia_breaking_avps::{DataBreak, avp_breaks};
use dia_breaking_levels::Line as LevelLine;
use dia_terms::Sends;
use std::alloc::{AllocError, Global};

impl<'a, A: Book, B: Book> Upgrade<'a, A, B> {
    /// What A's side sends.
    pub fn sends(&self) -> Sends
        ensures { result ≡ (sides_of self.now).sends }
    {
        self.lengths.sends
    }

    /// Whether B's side refuses AVPs of the key that A's side sends, whatever is around them: an M flag or data of theirs; or,
    /// where both have a level in them, a level of A's definition by the rules of B's. No message need hold them. The only error
    /// is an allocation failure.
    pub fn refuses(&self, alloc: Global, key: Key) -> Result<bool, AllocError>
        ensures { IfOk result (IsRefusal (sides_of self.now) (costs_in self.now) key) }
    {
        let breaks = avp_breaks(
            self.lengths.book,
            self.b,
            key,
            self.lengths.sends,
            self.unknown,
        );
        let data = breaks.data;
        if breaks_alone(breaks) {
            return Ok(true);
        }
        match data {
            DataBreak::Groups { a, b } => self.refuses_level(alloc, a, b),
            DataBreak::Fits | DataBreak::Data(_) => Ok(false),
            DataBreak::LeastLevel | DataBreak::EightBytes | DataBreak::Undecided => Ok(false),
        }
    }

    /// Whether a level of a definition of A breaks the rules of one of B.
    fn refuses_level(&self, alloc: Global, a: DefId, b: DefId) -> Result<bool, AllocError>
        requires first { a < length (definitions (sides_of self.now).sender) }
        requires second { b < length (definitions (sides_of self.now).receiver) }
        ensures { IfOk result (BreakInLevels (sides_of self.now) (costs_in self.now) (DataBreak.Groups a b)) }
    {
        let lines = self.lines_between(alloc, a, b)?;
        Ok(has_lines(&lines))
    }
}

fn has_lines(lines: &Vec<LevelLine>) -> bool
    ensures { (result ≡ false) ↔ (lines.now.items ≡ []) }
{
    !lines.is_empty()
}
