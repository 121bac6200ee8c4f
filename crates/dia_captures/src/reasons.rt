//! The reasons why messages aren't valid, counted.

ghost use Rattle.std.specs.Prelude.{◌≡◌, ◌++◌, ◌∷◌, [], map, OnOk, Some};
ghost use Rattle.std.specs.List.{list_any};
ghost use Rattle.dia_captures.specs.Counts.{again_if, is_same, seen_more};

use crate::verdicts::Flaw;
use std::alloc::{AllocError, Global};

/// How many reasons have a line of their own. All others are counted together.
const MOST_REASONS: usize = 100;

/// How often something was met, and where first.
#[derive(Clone, Copy)]
pub struct Seen {
    pub times: u64,
    pub first: u64,
}

/// A flaw that was met, of which the place of a fault doesn't count.
#[derive(Clone, Copy)]
pub struct Met {
    pub flaw: Flaw,
    pub seen: Seen,
}

/// The reasons that were met.
#[derive(Drop)]
pub struct Reasons {
    /// The first ones, in the order in which they were met.
    pub kept: Vec<Met>,
    /// All others.
    pub others: Option<Seen>,
    /// Memory was refused to them, and nothing was counted since.
    pub refused: Option<AllocError>,
}

impl Seen {
    ghost use Rattle.std.specs.Prelude.{◌≡◌};
    ghost use Rattle.dia_captures.specs.Counts.{again, once};

    fn once(place: u64) -> Seen
        ensures { result ≡ once place }
    {
        Seen {
            times: 1,
            first: place,
        }
    }

    fn again(self) -> Seen
        ensures { result ≡ again self }
    {
        Seen {
            times: self.times.saturating_add(1),
            first: self.first,
        }
    }
}

impl Met {
    ghost use Rattle.std.specs.Prelude.{◌≡◌};
    ghost use Rattle.dia_captures.specs.Counts.{again_if};

    /// It was met once more, if it is this reason.
    fn again_if(self, reason: &Flaw) -> Met
        ensures { result ≡ again_if reason.now self }
    {
        if is_same(&self.flaw, reason) {
            Met {
                flaw: self.flaw,
                seen: self.seen.again(),
            }
        } else {
            self
        }
    }
}

impl Reasons {
    ghost use Rattle.std.specs.Prelude.{◌≡◌, ◌++◌, ◌∷◌, List, [], ℕ, Option, None, false};
    ghost use Rattle.std.specs.List.{list_any};
    ghost use Rattle.dia_captures.specs.declared.verdicts.Flaw.{Flaw as AnyFlaw};
    ghost use Rattle.dia_captures.specs.Counts.{AreCounted, is_same, mets_at};

    /// No reason was met yet.
    pub fn new(alloc: Global) -> Reasons
        ensures { AreCounted result [] }
    {
        Reasons {
            kept: Vec::new(alloc),
            others: None,
            refused: None,
        }
    }

    /// Counts what is wrong with the message at this place.
    pub fn see(&mut self, place: u64, flaw: Option<Flaw>)
        ensures { (mets : List (ℕ × AnyFlaw)) → AreCounted self.old mets
            → AreCounted self.new (mets ++ mets_at place flaw) }
    {
        if let Some(flaw) = flaw {
            self.add(place, &flaw.reason());
        }
    }

    /// Counts a reason that was met at this place.
    fn add(&mut self, place: u64, reason: &Flaw)
        ensures { (mets : List (ℕ × AnyFlaw)) → AreCounted self.old mets
            → AreCounted self.new (mets ++ (place, reason.now) ∷ []) }
    {
        if self.refused.is_some() {
            return;
        }
        if !count_again(&mut self.kept, reason) {
            self.add_new(place, reason);
        }
    }

    /// Counts a reason that has no count of its own.
    fn add_new(&mut self, place: u64, reason: &Flaw)
        ensures { (mets : List (ℕ × AnyFlaw)) → self.old.refused ≡ None → AreCounted self.old mets
            → list_any (λ met. is_same met.flaw reason.now) self.old.kept.items ≡ false
            → AreCounted self.new (mets ++ (place, reason.now) ∷ []) }
    {
        if self.kept.len() < MOST_REASONS {
            let met = Met {
                flaw: *reason,
                seen: Seen::once(place),
            };
            self.refused = push_new(&mut self.kept, met).err();
        } else {
            self.others = Some(more(self.others, place));
        }
    }
}

/// Adds a reason that has no count of its own.
fn push_new(kept: &mut Vec<Met>, met: Met) -> Result<(), AllocError>
    ensures { OnOk result (kept.new.items ≡ kept.old.items ++ met ∷ []) }
{
    kept.push(met)?;
    Ok(())
}

/// Counts a reason among those with a count of their own. `false` where it is none of them.
fn count_again(kept: &mut Vec<Met>, reason: &Flaw) -> bool
    ensures found { result ≡ list_any (λ met. is_same met.flaw reason.now) kept.old.items }
    ensures kept { kept.new.items ≡ map (again_if reason.now) kept.old.items }
{
    let mut found = false;
    for i in 0..kept.len() {
        let met = kept[i];
        found |= is_same(&met.flaw, reason);
        kept[i] = met.again_if(reason);
    }
    found
}

/// It was met once more, at this place.
fn more(earlier: Option<Seen>, place: u64) -> Seen
    ensures { Some result ≡ seen_more place earlier }
{
    match earlier {
        Some(seen) => seen.again(),
        None => Seen::once(place),
    }
}

fn is_same(a: &Flaw, b: &Flaw) -> bool
    ensures { result ≡ is_same a.now b.now }
{
    *a == *b
}
