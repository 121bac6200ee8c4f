//! The commands that are asked for.

ghost use Rattle.std.specs.Prelude.{◌≡◌, IfOk, IfErr, map, position, string_bytes, true};
ghost use Rattle.std.specs.List.{range_with_len};
ghost use Rattle.std.specs.Str.{bytes_eq};
ghost use Rattle.dia_compat.specs.Proposed.{IsFirstUnknown};
ghost use Rattle.dia_upgrades.specs.Asking.{AreCommands};
ghost use Rattle.dia_upgrades.specs.Places.{IsEachNew, asked_places};

use dia_dict::Book;
use indexmap::IndexSet;
use std::alloc::{AllocError, Global};

/// The places of the commands of these names, in their order, or of all where there is no name; or the first name that no
/// command has.
pub fn named<'a, A: Book>(
    alloc: Global,
    a: &A,
    names: &'a [String],
) -> Result<Result<Vec<usize>, &'a str>, AllocError>
    ensures known { IfOk result (λ named. IfOk named (λ places. AreCommands (A.meaning a.now)
        (map (λ name. string_bytes name) names.now))) }
    ensures exact { IfOk result (λ named. IfOk named (λ places. places.items ≡ asked_places
        (A.meaning a.now) (map (λ name. string_bytes name) names.now))) }
    ensures unknown { IfOk result (λ named. IfErr named (λ name. IsFirstUnknown (A.meaning a.now)
        (map (λ name. string_bytes name) names.now) name.now)) }
{
    if names.is_empty() {
        let places = places_below(alloc, a.commands())?;
        return Ok(Ok(places));
    }
    let commands = names_of_commands(alloc, a)?;
    let mut places = Vec::new(alloc);
    for name in names {
        match place_of_name(&commands, name.as_str()) {
            Some(place) => places.push(place)?,
            None => return Ok(Err(name.as_str())),
        }
    }
    Ok(Ok(places))
}

/// Whether no place is named twice.
pub(crate) fn are_distinct(alloc: Global, places: &[usize]) -> Result<bool, AllocError>
    ensures { IfOk result (λ yes. yes ≡ true → IsEachNew places.now) }
{
    let mut seen = IndexSet::new(alloc);
    for place in places {
        if !seen.insert(*place)? {
            return Ok(false);
        }
    }
    Ok(true)
}

/// All places below a count, in order.
fn places_below(alloc: Global, count: usize) -> Result<Vec<usize>, AllocError>
    ensures { IfOk result (λ places. places.items ≡ range_with_len 0 count) }
{
    let mut places = Vec::new(alloc);
    for place in 0..count {
        places.push(place)?;
    }
    Ok(places)
}

/// The names of the commands, each at its place.
fn names_of_commands<B: Book>(alloc: Global, book: &B) -> Result<IndexSet<&str>, AllocError>
    ensures { IfOk result
        (λ names. map (λ n. n.now) names.keys ≡ map (λ c. c.name) (B.meaning book.now).commands) }
{
    let mut names = IndexSet::new(alloc);
    for index in 0..book.commands() {
        names.insert(book.def(book.command_at(index)).name.as_str())?;
    }
    Ok(names)
}

/// The place of a name in the set.
fn place_of_name(names: &IndexSet<&str>, name: &str) -> Option<usize>
    ensures { result ≡ position (λ n. bytes_eq name.now n.now) names.now.keys }
{
    names.get_index_of(&name)
}
