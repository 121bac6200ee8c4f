//! The numbers of lists as canonical ranges: in order, and none touch.
ghost use Rattle.std.specs.Prelude.{◌≡◌, ◌≤◌, ◌++◌, ◌∷◌, [], IfOk, IfSome, List, MatchOption, None, OnOk, Some, ℕ};
ghost use Rattle.std.specs.Option.{option_map};
ghost use Rattle.dia_data.specs.Plain.{plain_format};
ghost use Rattle.dia_data.specs.Ranges.{AreApart, IsSetOf};
ghost use Rattle.dia_breaking.specs.Gaps.{all_gaps, front, gaps, gaps_from};
ghost use Rattle.dia_breaking.specs.Runs.{canonical, lacking_of, ranges_in};

use dia_book::Format;
use std::alloc::{AllocError, Global};

/// The numbers of an Enumerated format that has a list; none for other formats.
pub(crate) fn numbers_of(format: &Format) -> Option<&[(u32, u32)]>
    ensures { MatchOption result (ranges_in (plain_format format.now) ≡ None)
        (λ numbers. option_map canonical (ranges_in (plain_format format.now)) ≡ Some numbers.now) }
{
    listed(format)
}

/// The numbers of the first format that the second lacks, where both have a list. The only error is an allocation failure.
pub(crate) fn lacking(
    alloc: Global,
    format: &Format,
    other: &Format,
) -> Result<Option<Vec<(u32, u32)>>, AllocError>
    ensures { IfOk result (λ found. option_map (λ v. v.items) found
        ≡ lacking_of (ranges_in (plain_format format.now)) (ranges_in (plain_format other.now))) }
{
    let Some(numbers) = listed(format) else {
        return Ok(None);
    };
    let Some(others) = listed(other) else {
        return Ok(None);
    };
    Ok(Some(without(alloc, numbers, others)?))
}

/// The numbers of a list, if the format has one.
fn listed(format: &Format) -> Option<&[(u32, u32)]>
    ensures { MatchOption result (ranges_in (plain_format format.now) ≡ None)
        (λ numbers. IsSetOf numbers.now (ranges_in (plain_format format.now))) }
{
    match format {
        Format::Enumerated(values) => values.numbers(),
        _ => None,
    }
}

/// The rest of ranges where others are taken out. Both are in order, and none touch.
fn without(
    alloc: Global,
    ranges: &[(u32, u32)],
    others: &[(u32, u32)],
) -> Result<Vec<(u32, u32)>, AllocError>
    requires ranges { AreApart ranges.now }
    requires others { AreApart others.now }
    ensures { IfOk result (λ found. found.items ≡ all_gaps ranges.now others.now) }
{
    let mut found = Vec::new(alloc);
    for &(low, high) in ranges {
        push_without(&mut found, low, high, others)?;
    }
    Ok(found)
}

/// Adds the rest of a range. Others that end before it are skipped by a binary search.
fn push_without(
    found: &mut Vec<(u32, u32)>,
    low: u32,
    high: u32,
    others: &[(u32, u32)],
) -> Result<(), AllocError>
    requires range { low ≤ high }
    requires others { AreApart others.now }
    ensures { OnOk result (found.new.items ≡ found.old.items ++ gaps low high others.now) }
{
    let place = others.partition_point(|range| range.1 < low);
    push_gaps(found, low, high, &others[place..])
}

/// Adds the rest of a range, by one walk over the others.
fn push_gaps(
    found: &mut Vec<(u32, u32)>,
    low: u32,
    high: u32,
    others: &[(u32, u32)],
) -> Result<(), AllocError>
    requires { low ≤ high }
    ensures { OnOk result (found.new.items ≡ found.old.items ++ gaps low high others.now) }
{
    let mut first = low;
    for other in others {
        match push_before(found, first, high, *other)? {
            Some(next) => first = next,
            None => return Ok(()),
        }
    }
    push(found, first, high)
}

/// Adds the rest before one of the others. The answer is where the numbers after it begin, if any are left.
fn push_before(
    found: &mut Vec<(u32, u32)>,
    first: u32,
    high: u32,
    other: (u32, u32),
) -> Result<Option<u32>, AllocError>
    requires { first ≤ high }
    ensures within { IfOk result (λ next. IfSome next (λ n. n ≤ high)) }
    ensures left { IfOk result (λ next. (rest : List (ℕ × ℕ))
        → found.new.items ++ gaps_from next high rest ≡ found.old.items ++ gaps first high (other ∷ rest)) }
{
    let (from, to) = other;
    if to < first {
        return Ok(Some(first));
    }
    if high < from {
        push(found, first, high)?;
        return Ok(None);
    }
    push_front(found, first, from)?;
    if high <= to {
        Ok(None)
    } else {
        Ok(Some(to + 1))
    }
}

/// Adds the numbers from `low` on that precede `from`.
fn push_front(found: &mut Vec<(u32, u32)>, low: u32, from: u32) -> Result<(), AllocError>
    ensures { OnOk result (found.new.items ≡ found.old.items ++ front low from) }
{
    if low < from {
        push(found, low, from - 1)
    } else {
        Ok(())
    }
}

fn push(found: &mut Vec<(u32, u32)>, low: u32, high: u32) -> Result<(), AllocError>
    ensures { OnOk result (found.new.items ≡ found.old.items ++ (low, high) ∷ []) }
{
    found.push((low, high))?;
    Ok(())
}
