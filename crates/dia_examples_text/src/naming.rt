//! The commands that are asked for.

use dia_dict::Book;
use indexmap::IndexSet;
use std::alloc::{AllocError, Global};

/// The places of the commands of these names, in their order, or of all where there is no name; or the first name that no
/// command has.
pub(crate) fn places_of<'n, B: Book>(
    alloc: Global,
    book: &B,
    names: &'n [String],
) -> Result<Result<Vec<usize>, &'n str>, AllocError> {
    let commands = names_of_commands(alloc, book)?;
    let mut places = Vec::new(alloc);
    for name in names {
        match commands.get_index_of(&name.as_str()) {
            Some(place) => places.push(place)?,
            None => return Ok(Err(name.as_str())),
        }
    }
    if names.is_empty() {
        for place in 0..book.commands() {
            places.push(place)?;
        }
    }
    Ok(Ok(places))
}

/// The names of the commands, each at its place.
fn names_of_commands<B: Book>(alloc: Global, book: &B) -> Result<IndexSet<&str>, AllocError> {
    let mut names = IndexSet::new(alloc);
    for index in 0..book.commands() {
        names.insert(book.def(book.command_at(index)).name.as_str())?;
    }
    Ok(names)
}
