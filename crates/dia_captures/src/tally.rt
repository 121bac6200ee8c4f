//! The verdicts of a run, counted.

ghost use Rattle.std.specs.Prelude.{◌≡◌, ◌+◌, if◌then◌else◌};
ghost use Rattle.dia_captures.specs.Counts.{counted};

use crate::ended::{Ended, is_yes};
use crate::reasons::Reasons;
use crate::summaries::{Lines, push_first_line, push_mets, push_others, put_in_order};
use crate::verdicts::{Checked, Flaw, Refuted};
use dia_dict::Book;
use dia_io::Exit;
use dia_streams::Watch;
use std::alloc::{AllocError, Global};

/// The verdicts that were seen, counted.
#[derive(Drop)]
pub struct Tally {
    pub ended: Ended,
    pub all: u64,
    /// How many are valid, or refute.
    pub yes: u64,
    pub reasons: Reasons,
}

impl Tally {
    ghost use Rattle.std.specs.Prelude.{◌≡◌, ◌+◌, ◌++◌, ◌∷◌, List, [], IfOk, None, length, string_bytes, unwrap_or};
    ghost use Rattle.dia_captures.specs.Counts.{HasCounted, Item, counted};
    ghost use Rattle.dia_captures.specs.Summaries.{IsSummary};

    /// No verdict was seen yet.
    pub fn new(alloc: Global) -> Tally
        ensures { HasCounted result [] }
    {
        Tally {
            ended: Ended::none(),
            all: 0,
            yes: 0,
            reasons: Reasons::new(alloc),
        }
    }

    /// Counts a message that ended so, and what is wrong with it. It has this place, or else its number.
    fn count(&mut self, place: Option<u64>, exit: Exit, flaw: Option<Flaw>)
        ensures { (items : List Item) → HasCounted self.old items → HasCounted self.new
            (items ++ (record { at = unwrap_or place (counted (length items + 1)); exit = exit; flaw = flaw }) ∷ []) }
    {
        self.ended = self.ended.and(exit);
        self.all = self.all.saturating_add(1);
        self.yes = more_if(self.yes, is_yes(exit));
        self.reasons.see(place.unwrap_or(self.all), flaw);
    }

    /// How many of how many messages are valid, or refute, and a line for each reason, the most frequent first, unless memory
    /// was refused to it.
    pub fn summary<B: Book>(
        self,
        alloc: Global,
        book: &B,
        lines: Lines,
    ) -> Result<String, AllocError>
        ensures { (items : List Item) → HasCounted self items
            → IfOk result (λ text. IsSummary (B.meaning book.now) lines items (string_bytes text)) }
    {
        match self.reasons.refused {
            Some(refused) => Err(refused),
            None => self.write_summary(alloc, book, lines),
        }
    }

    fn write_summary<B: Book>(
        mut self,
        alloc: Global,
        book: &B,
        lines: Lines,
    ) -> Result<String, AllocError>
        ensures { (items : List Item) → HasCounted self items → self.reasons.refused ≡ None
            → IfOk result (λ text. IsSummary (B.meaning book.now) lines items (string_bytes text)) }
    {
        let mut text = String::new(alloc);
        push_first_line(&mut text, lines, self.yes, self.all)?;
        put_in_order(&mut self.reasons.kept)?;
        push_mets(&mut text, book, lines, self.reasons.kept.as_slice())?;
        push_others(&mut text, lines, self.reasons.others)?;
        Ok(text)
    }
}

impl Watch<Checked> for Tally {
    ghost use Rattle.dia_captures.specs.Counts.{HasCounted, checked_items};

    ghost saw = { λ tally verdicts. HasCounted tally (checked_items verdicts) };

    fn see(&mut self, verdict: Checked) {
        self.count(None, verdict.exit(), verdict.flaw());
    }
}

impl Watch<Refuted> for Tally {
    ghost use Rattle.dia_captures.specs.Counts.{HasCounted, refuted_items};

    ghost saw = { λ tally verdicts. HasCounted tally (refuted_items verdicts) };

    fn see(&mut self, verdict: Refuted) {
        self.count(None, verdict.exit(), verdict.flaw());
    }
}

impl Watch<(u64, Checked)> for Tally {
    ghost use Rattle.dia_captures.specs.Counts.{HasCounted, placed_items};

    ghost saw = { λ tally verdicts. HasCounted tally (placed_items verdicts) };

    fn see(&mut self, verdict: (u64, Checked)) {
        let (at, verdict) = verdict;
        self.count(Some(at), verdict.exit(), verdict.flaw());
    }
}

/// A count of what includes one more, or doesn't.
fn more_if(count: u64, counts: bool) -> u64
    ensures { result ≡ (if counts then counted (count + 1) else count) }
{
    if counts {
        count.saturating_add(1)
    } else {
        count
    }
}
