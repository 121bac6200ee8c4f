//! Searches in ranges that are in order and neither overlap nor touch.
ghost use Rattle.std.specs.Prelude.{◌<◌, ◌≤◌, ◌↔◌, Any, IsTrue, ℕ, length, slice_index_or};
ghost use Rattle.dia_data.specs.Below.{RangesBelow};
ghost use Rattle.dia_data.specs.Leaf.{IsWithin};
ghost use Rattle.dia_data.specs.Ranges.{AreApart};

/// Whether a range holds the number.
pub(super) fn holds(ranges: &[(u32, u32)], number: u32) -> bool
    requires { AreApart ranges.now }
    ensures { IsTrue result ↔ Any (IsWithin number) ranges.now }
{
    let place = ranges.partition_point(|range| range.1 < number);
    place < ranges.len() && ranges[place].0 <= number
}

/// Whether each number of the first ranges is one of the others.
pub(super) fn is_subset(f: &[(u32, u32)], g: &[(u32, u32)]) -> bool
    requires first { AreApart f.now }
    requires second { AreApart g.now }
    ensures { IsTrue result ↔ RangesBelow f.now g.now }
{
    let mut place = 0;
    for &(low, high) in f {
        place = first_from(g, place, low);
        if place == g.len() || low < g[place].0 || g[place].1 < high {
            return false;
        }
    }
    true
}

/// The place, from a place on, of the first range that does not end before the number; the end where each does.
fn first_from(ranges: &[(u32, u32)], start: usize, number: u32) -> usize
    requires { start ≤ length ranges.now }
    ensures within { (start ≤ result) × (result ≤ length ranges.now) }
    ensures before { (k : ℕ) → start ≤ k → k < result
        → (slice_index_or ranges.now k (0, 0)).1 < number }
    ensures there { result < length ranges.now
        → number ≤ (slice_index_or ranges.now result (0, 0)).1 }
{
    let mut place = start;
    while place < ranges.len() && ranges[place].1 < number {
        place += 1;
    }
    place
}
