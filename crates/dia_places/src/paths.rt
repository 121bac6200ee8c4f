//! The paths to definitions.
ghost use Rattle.std.specs.Prelude.{◌≡◌, ◌<◌, ◌++◌, All, IfOk, OnOk, length, map};
ghost use Rattle.dia_book.specs.Dictionary.{definitions};
ghost use Rattle.dia_places.specs.Names.{name_at, names_of};
ghost use Rattle.dia_places.specs.Records.{around_from, path_of, reached_at};

use crate::graph::Reached;
use dia_book::Book;
use std::alloc::{AllocError, Global};

/// The names on the path to a definition that is reached: that of the command, and those of the groups.
pub fn path_to<'b, B: Book>(
    alloc: Global,
    book: &'b B,
    reached: &[Reached],
    last: Reached,
) -> Result<Vec<&'b str>, AllocError>
    requires all { All (λ r. r.def < length (definitions (B.meaning book.now))) reached.now }
    requires last { last.def < length (definitions (B.meaning book.now)) }
    ensures { IfOk result (λ names. map (λ name. name.now) names.items
        ≡ names_of (B.meaning book.now) (path_of reached.now last)) }
{
    let mut names = Vec::new(alloc);
    names.push(book.def(last.def).name.as_str())?;
    push_around(&mut names, book, reached, last.outer)?;
    names.reverse();
    Ok(names)
}

/// Adds the names of the definition with a number among those that are reached, and of those before it.
fn push_around<'b, B: Book>(
    names: &mut Vec<&'b str>,
    book: &'b B,
    reached: &[Reached],
    outer: usize,
) -> Result<(), AllocError>
    requires { All (λ r. r.def < length (definitions (B.meaning book.now))) reached.now }
    ensures { OnOk result (map (λ name. name.now) names.new.items ≡ map (λ name. name.now) names.old.items
        ++ map (name_at (B.meaning book.now)) (around_from reached.now (length reached.now) outer)) }
{
    let mut number = outer;
    for _ in 0..reached.len() {
        let Some(next) = at_number(reached, number) else {
            return Ok(());
        };
        names.push(book.def(next.def).name.as_str())?;
        number = next.outer;
    }
    Ok(())
}

/// The definition with a number among those that are reached, from 1.
fn at_number(reached: &[Reached], number: usize) -> Option<Reached>
    ensures { result ≡ reached_at reached.now number }
{
    if number == 0 {
        return None;
    }
    reached.get(number - 1).copied()
}
