//! Sets of numbers.
ghost use Rattle.dia_data.specs.Ranges.{AreApart};

mod joining;
mod searching;

use std::alloc::{AllocError, Global};

/// A set of numbers of 32 bits: ranges `(low, high)`, both ends in, in order, that neither overlap nor touch.
#[derive(Debug, Drop)]
pub(crate) struct RangeSet {
    ranges: Vec<(u32, u32)>,
    ghost apart: { AreApart ranges.items },
}

/// A copy has the same ranges.
impl Clone for RangeSet {
    ghost use Rattle.std.specs.Prelude.{◌≡◌};

    ghost is_clone = { λ old new. new.ranges.items ≡ old.ranges.items };

    fn clone(&self) -> Result<RangeSet, AllocError> {
        Ok(RangeSet {
            ranges: self.ranges.clone()?,
        })
    }
}

impl RangeSet {
    ghost use Rattle.std.specs.Prelude.{◌≡◌, ◌↔◌, Any, IfOk, IsTrue};
    ghost use Rattle.dia_data.specs.Leaf.{IsWithin};
    ghost use Rattle.dia_data.specs.Below.{RangesBelow};
    ghost use Rattle.dia_data.specs.Ranges.{AreApart, HoldSame};

    /// The numbers of ranges in any order. One whose `low` is above its `high` holds none. n ranges take n log n steps.
    pub fn new(alloc: Global, ranges: &[(u32, u32)]) -> Result<Self, AllocError>
        ensures { IfOk result (λ set. HoldSame set.ranges.items ranges.now) }
    {
        let mut sorted = joining::filled(alloc, ranges)?;
        sorted.sort_unstable_by_key(|range| range.0);
        let ranges = joining::joined(alloc, &sorted)?;
        Ok(RangeSet { ranges })
    }

    /// The ranges, in order.
    pub fn as_slice(&self) -> &[(u32, u32)]
        ensures apart { AreApart result.now }
        ensures same { result.now ≡ self.now.ranges.items }
    {
        &self.ranges
    }

    /// Whether the number is in the set, by a binary search.
    pub fn contains(&self, number: u32) -> bool
        ensures { IsTrue result ↔ Any (IsWithin number) self.now.ranges.items }
    {
        searching::holds(&self.ranges, number)
    }

    /// Whether each number of this set is in the other, by one walk over both.
    pub fn is_subset(&self, other: &RangeSet) -> bool
        ensures { IsTrue result ↔ RangesBelow self.now.ranges.items other.now.ranges.items }
    {
        searching::is_subset(&self.ranges, &other.ranges)
    }
}
