//! Numbers that the list of an Enumerated AVP has twice.
ghost use Rattle.std.specs.Prelude.{◌≡◌, ◌<◌, slice_get, IfOk, IfSome, length};
ghost use Rattle.dia_lint.specs.Exact.{AreOf};
ghost use Rattle.dia_lint.specs.Gathered.{gathered};
ghost use Rattle.dia_lint.specs.TwiceListed.{AreOfEntry, AreOfRanges, AreTwiceListed, twice_finding, twice_part};

use crate::detail::Detail;
use crate::finding::{Finding, Place, Subject, push};
use crate::overlaps::numbers_twice;
use crate::rule::Rule;
use dia_book::{Book, Entry};
use std::alloc::{AllocError, Global};

/// The ranges of which a range before them has a number, in the dictionary's order.
pub fn range_findings<B: Book>(alloc: Global, book: &B) -> Result<Vec<Finding>, AllocError>
    ensures rules { IfOk result (λ found. AreOf Rule.TwiceListed found.items) }
    ensures twice_listed { IfOk result (λ found.
        AreTwiceListed (B.meaning book.now) (length (B.meaning book.now).entries) found.items) }
{
    let mut found = Vec::new(alloc);
    for index in 0..book.entries() {
        found.extend_from_slice(&of_entry(alloc, book, book.entry_at(index))?)?;
    }
    Ok(found)
}

/// The findings of an AVP, if it has a list.
fn of_entry<B: Book>(alloc: Global, book: &B, entry: Entry) -> Result<Vec<Finding>, AllocError>
    requires { entry < length (B.meaning book.now).entries }
    ensures rules { IfOk result (λ found. AreOf Rule.TwiceListed found.items) }
    ensures twice_listed { IfOk result (λ found.
        IfSome (slice_get (B.meaning book.now).entries entry) (λ x. AreOfEntry entry x found.items)) }
{
    let Some(values) = book.format(entry).values() else {
        return Ok(Vec::new(alloc));
    };
    match values.list() {
        Some(list) => of_ranges(alloc, entry, list),
        None => Ok(Vec::new(alloc)),
    }
}

fn of_ranges(alloc: Global, entry: Entry, list: &[(u32, u32)]) -> Result<Vec<Finding>, AllocError>
    ensures rules { IfOk result (λ found. AreOf Rule.TwiceListed found.items) }
    ensures twice_listed { IfOk result (λ found. AreOfRanges entry list.now found.items) }
{
    of_numbers(alloc, entry, &numbers_twice(alloc, list)?)
}

/// The findings of ranges with these least numbers that ranges before them have.
fn of_numbers(
    alloc: Global,
    entry: Entry,
    numbers: &[Option<u32>],
) -> Result<Vec<Finding>, AllocError>
    ensures rules { IfOk result (λ found. AreOf Rule.TwiceListed found.items) }
    ensures lines { IfOk result (λ found. found.items ≡ gathered (twice_part entry numbers.now) (length numbers.now)) }
{
    let mut found = Vec::new(alloc);
    for index in 0..numbers.len() {
        push(&mut found, twice_finding(entry, numbers[index]))?;
    }
    Ok(found)
}

/// The finding of a range with this least number that a range before it has.
fn twice_finding(entry: Entry, least: Option<u32>) -> Option<Finding>
    ensures { result ≡ twice_finding entry least }
{
    match least {
        Some(number) => Some(Finding {
            rule: Rule::TwiceListed,
            place: Place::Avp(entry),
            subject: Subject::Avp(entry),
            detail: Detail::Number(number),
        }),
        None => None,
    }
}
