//! Ranges in order, and joined.
ghost use Rattle.std.specs.Prelude.{◌≡◌, ◌≤◌, ◌||◌, All, IfOk, OnOk, ℕ, filter, nat_le};
ghost use Rattle.std.specs.List.{list_any};
ghost use Rattle.std.specs.List.Sorted.{IsNonDecreasingBy};
ghost use Rattle.dia_data.specs.Ranges.{AreApart, HoldSame, covers};

use std::alloc::{AllocError, Global};

/// The ranges that hold a number.
pub(super) fn filled(alloc: Global, ranges: &[(u32, u32)]) -> Result<Vec<(u32, u32)>, AllocError>
    ensures { IfOk result (λ filled. filled.items ≡ filter (λ r. nat_le r.0 r.1) ranges.now) }
{
    ranges
        .iter()
        .copied()
        .filter(|&(low, high)| low <= high)
        .collect(alloc)
}

/// The ranges, where those that overlap or touch are one.
pub(super) fn joined(alloc: Global, sorted: &[(u32, u32)]) -> Result<Vec<(u32, u32)>, AllocError>
    requires ranges { All (λ r. r.0 ≤ r.1) sorted.now }
    requires sorted { IsNonDecreasingBy (λ r. r.0) sorted.now }
    ensures apart { IfOk result (λ joined. AreApart joined.items) }
    ensures same { IfOk result (λ joined. HoldSame joined.items sorted.now) }
{
    let mut joined = Vec::new(alloc);
    for &(low, high) in sorted {
        push_range(&mut joined, low, high)?;
    }
    Ok(joined)
}

/// Adds a range that begins no earlier than those that are there.
fn push_range(ranges: &mut Vec<(u32, u32)>, low: u32, high: u32) -> Result<(), AllocError>
    requires range { low ≤ high }
    requires apart { AreApart ranges.old.items }
    requires later { All (λ r. r.0 ≤ low) ranges.old.items }
    ensures apart { OnOk result (AreApart ranges.new.items) }
    ensures later { OnOk result (All (λ r. r.0 ≤ low) ranges.new.items) }
    ensures both { OnOk result ((n : ℕ) → list_any (covers n) ranges.new.items
        ≡ (list_any (covers n) ranges.old.items || covers n (low, high))) }
{
    match ranges.pop() {
        Some((first, last)) if low <= last.saturating_add(1) => {
            ranges.push((first, last.max(high)))?;
        }
        Some(range) => {
            ranges.push(range)?;
            ranges.push((low, high))?;
        }
        None => ranges.push((low, high))?,
    }
    Ok(())
}
