//! The numbers of an Enumerated format.
ghost use Rattle.dia_data.specs.Ranges.{HoldSame};

use crate::range_set::RangeSet;
use std::alloc::{AllocError, Global};

/// The numbers of an Enumerated format (RFC 6733 section 4.3.1).
///
/// The 4 bytes of a value are read against the list as an unsigned number in network byte order. Enumerated is derived from
/// Integer32, so `print_value` prints it signed.
///
/// Without a list every number of 32 bits is accepted. A list names the numbers of its ranges `(low, high)`, both ends in.
/// The ranges may overlap and be in any order, and one whose `low` is above its `high` names no number. Two lists are equal
/// where the same ranges were written in the same order.
#[derive(Debug, Drop, PartialEq, Eq)]
pub struct Values {
    listed: Option<Listed>,
}

/// A list, with the set of its numbers.
#[derive(Debug, Drop)]
#[derive_where(PartialEq, Eq)]
struct Listed {
    written: Vec<(u32, u32)>,
    #[derive_where(skip(EqHashOrd))]
    numbers: RangeSet,
    ghost same: { HoldSame numbers.ranges.items written.items },
}

/// A copy has the same ranges.
impl Clone for Values {
    ghost use Rattle.std.specs.Prelude.{◌≡◌};
    ghost use Rattle.dia_data.specs.Plain.{ranges_of};

    ghost is_clone = { λ old new. ranges_of new ≡ ranges_of old };

    fn clone(&self) -> Result<Values, AllocError> {
        let listed = self.listed.clone()?;
        Ok(Values { listed })
    }
}

/// A copy has the same ranges.
impl Clone for Listed {
    ghost use Rattle.std.specs.Prelude.{◌≡◌};

    ghost is_clone = { λ old new. new.written.items ≡ old.written.items };

    fn clone(&self) -> Result<Listed, AllocError> {
        Ok(Listed {
            written: self.written.clone()?,
            numbers: self.numbers.clone()?,
        })
    }
}

impl Values {
    ghost use Rattle.std.specs.Prelude.{◌≡◌, ◌↔◌, IfOk, IsTrue, MatchOption, None, Some};
    ghost use Rattle.dia_data.specs.Below.{ValuesBelow};
    ghost use Rattle.dia_data.specs.Leaf.{IsListed};
    ghost use Rattle.dia_data.specs.Plain.{ranges_of};
    ghost use Rattle.dia_data.specs.Ranges.{IsSetOf};

    /// Every number of 32 bits.
    pub fn any() -> Self
        ensures { ranges_of result ≡ None }
    {
        Values { listed: None }
    }

    /// The numbers of a list of ranges. n ranges take n log n steps. The error comes only where memory was refused.
    pub fn new(alloc: Global, list: Vec<(u32, u32)>) -> Result<Self, AllocError>
        ensures { IfOk result (λ values. ranges_of values ≡ Some list.items) }
    {
        let numbers = RangeSet::new(alloc, &list)?;
        let listed = Some(Listed {
            written: list,
            numbers,
        });
        Ok(Values { listed })
    }

    /// The ranges as they were written, or none where every number is one.
    pub fn list(&self) -> Option<&[(u32, u32)]>
        ensures { MatchOption result (ranges_of self.now ≡ None)
            (λ list. ranges_of self.now ≡ Some list.now) }
    {
        match &self.listed {
            Some(listed) => Some(&listed.written),
            None => None,
        }
    }

    /// The same numbers as ranges that hold some, in order, and neither overlap nor touch; or none where every number is one.
    pub fn numbers(&self) -> Option<&[(u32, u32)]>
        ensures { MatchOption result (ranges_of self.now ≡ None)
            (λ numbers. IsSetOf numbers.now (ranges_of self.now)) }
    {
        match &self.listed {
            Some(listed) => Some(listed.numbers.as_slice()),
            None => None,
        }
    }

    /// Whether the number is one of these.
    pub(crate) fn contains(&self, number: u32) -> bool
        ensures { IsTrue result ↔ IsListed (ranges_of self.now) number }
    {
        match &self.listed {
            Some(listed) => listed.numbers.contains(number),
            None => true,
        }
    }

    /// Whether the others have no list, or both have one and each number of these is one of the others.
    pub(crate) fn is_below(&self, other: &Values) -> bool
        ensures { IsTrue result ↔ ValuesBelow (ranges_of self.now) (ranges_of other.now) }
    {
        match (&self.listed, &other.listed) {
            (_, None) => true,
            (None, Some(_)) => false,
            (Some(f), Some(g)) => f.numbers.is_subset(&g.numbers),
        }
    }
}
