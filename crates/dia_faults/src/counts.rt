//! How often the rules of levels are met.

ghost use Rattle.std.specs.Prelude.{◌≡◌, ◌≢◌, ◌<◌, ◌^◌, ◌⊎◌, OnOk, ℕ};
ghost use Rattle.dia_faults.specs.States.{count_of};

use indexmap::IndexMap;
use std::alloc::{AllocError, Global};

/// How many rules a definition has at most.
const MOST_RULES: usize = 1024;

/// How often the rules of levels are met. A level is known by the place where it begins; rules count from 0. One entry for
/// each rule that is met, so that levels in one another take no more memory than their AVPs ask for.
#[derive(Drop)]
pub(crate) struct Counts {
    counts: IndexMap<usize, u32>,
}

impl Counts {
    /// Nothing is met yet.
    pub(crate) fn new(alloc: Global) -> Self
        ensures { (start rule : ℕ) → count_of result.counts.entries start rule ≡ 0 }
    {
        Counts {
            counts: IndexMap::new(alloc),
        }
    }

    /// How often a rule is met.
    pub(crate) fn of(&self, start: usize, rule: usize) -> u32
        requires { (start < 2 ^ 32) × (rule < 1024) }
        ensures { result ≡ count_of self.now.counts.entries start rule }
    {
        match self.counts.get(&(start * MOST_RULES + rule)) {
            Some(count) => *count,
            None => 0,
        }
    }

    /// A rule is met so often now.
    pub(crate) fn set(&mut self, start: usize, rule: usize, count: u32) -> Result<(), AllocError>
        requires { (start < 2 ^ 32) × (rule < 1024) }
        ensures here { OnOk result (count_of self.new.counts.entries start rule ≡ count) }
        ensures others { OnOk result ((s i : ℕ) → i < 1024 → (s ≢ start) ⊎ (i ≢ rule)
            → count_of self.new.counts.entries s i ≡ count_of self.old.counts.entries s i) }
    {
        self.counts.insert(start * MOST_RULES + rule, count)?;
        Ok(())
    }
}
