//! Numbers of a list of ranges that a range before theirs has too.
ghost use Rattle.std.specs.Prelude.{◌≤◌, IfOk, MatchOption, OnOk, length};
ghost use Rattle.dia_data.specs.Leaf.{IsWithin};
ghost use Rattle.dia_lint.specs.Overlaps.{AreApart, AreJoined, AreTwice, Gains, Has, IsClear};
ghost use Rattle.dia_lint.specs.Overlaps.{IsFirstFrom, IsLeastOf, IsOverlapping};

use std::alloc::{AllocError, Global};
use std::collections::BTreeMap;

/// For each range the least number of it that a range before it has.
pub(crate) fn numbers_twice(
    alloc: Global,
    list: &[(u32, u32)],
) -> Result<Vec<Option<u32>>, AllocError>
    ensures { IfOk result (λ numbers. AreTwice list.now (length list.now) numbers.items) }
{
    let mut before = BTreeMap::new(alloc);
    let mut numbers = Vec::new(alloc);
    for index in 0..list.len() {
        let (low, high) = list[index];
        numbers.push(least_within(&before, low, high))?;
        add(&mut before, low, high)?;
    }
    Ok(numbers)
}

/// The least number of a range that these ranges have.
fn least_within(ranges: &BTreeMap<u32, u32>, low: u32, high: u32) -> Option<u32>
    requires { AreApart ranges.now }
    ensures { IsLeastOf (λ n. IsWithin n (low, high) × Has ranges.now n) result }
{
    let (first, _) = first_from(ranges, low)?;
    let least = if first < low { low } else { first };
    if least <= high { Some(least) } else { None }
}

/// The first of these ranges that ends at a number or above.
fn first_from(ranges: &BTreeMap<u32, u32>, number: u32) -> Option<(u32, u32)>
    ensures { IsFirstFrom ranges.now number result }
{
    match ranges.range(number..).next() {
        Some((high, low)) => Some((*low, *high)),
        None => None,
    }
}

/// Adds a range, so that the ranges still lie apart.
fn add(ranges: &mut BTreeMap<u32, u32>, low: u32, high: u32) -> Result<(), AllocError>
    requires { AreApart ranges.old }
    ensures apart { OnOk result (AreApart ranges.new) }
    ensures gains { OnOk result (Gains ranges.old (low, high) ranges.new) }
{
    if low <= high {
        let (first, last) = take_overlapping(ranges, low, high);
        ranges.insert(last, first)?;
    }
    Ok(())
}

/// Takes out the ranges that overlap a range, and answers the range of its numbers and theirs.
fn take_overlapping(ranges: &mut BTreeMap<u32, u32>, low: u32, high: u32) -> (u32, u32)
    requires apart { AreApart ranges.old }
    requires filled { low ≤ high }
    ensures joined { AreJoined ranges.old (low, high) ranges.new result }
    ensures clear { IsClear ranges.new result }
{
    let mut first = low;
    let mut last = high;
    while let Some((other_first, other_last)) = overlapping(ranges, first, last) {
        ranges.remove(&other_last);
        first = first.min(other_first);
        last = last.max(other_last);
    }
    (first, last)
}

/// A range that overlaps this one.
fn overlapping(ranges: &BTreeMap<u32, u32>, low: u32, high: u32) -> Option<(u32, u32)>
    requires { AreApart ranges.now }
    ensures { MatchOption result (IsClear ranges.now (low, high)) (IsOverlapping ranges.now (low, high)) }
{
    match first_from(ranges, low) {
        Some((first, last)) if first <= high => Some((first, last)),
        _ => None,
    }
}
