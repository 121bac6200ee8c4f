//! Which AVPs some rule lists.
ghost use Rattle.std.specs.Prelude.{◌≡◌, ◌<◌, ◌++◌, ◌||◌, ℕ, [], nat_eq, IfOk, OnOk, length};
ghost use Rattle.std.specs.Prelude.{option_to_list, slice_get};
ghost use Rattle.std.specs.List.{filter_map};
ghost use Rattle.std.specs.Option.{option_map};
ghost use Rattle.dia_book.specs.Dictionary.{definitions};
ghost use Rattle.dia_lint.specs.Gathered.{gathered};
ghost use Rattle.dia_lint.specs.ListedAvps.{AreMarked, listed_by, listed_in_command, listed_in_definition, listed_in_group, listed_places};

use crate::books::{command_at, group_of, rules_of};
use crate::definitions::lets_in;
use dia_book::{Book, DRule, DefId, Entry};
use std::alloc::{AllocError, Global};

/// Of each AVP, by its place, whether some rule lists it.
pub(crate) fn listed_avps<B: Book>(alloc: Global, book: &B) -> Result<Vec<bool>, AllocError>
    ensures { IfOk result (λ marks. AreMarked (listed_places (B.meaning book.now)) (length (B.meaning book.now).entries) marks.items) }
{
    let mut places = of_groups(alloc, book)?;
    places.extend_from_slice(&of_commands(alloc, book)?)?;
    marks_of(alloc, &places, book.entries())
}

fn of_groups<B: Book>(alloc: Global, book: &B) -> Result<Vec<usize>, AllocError>
    ensures { IfOk result (λ places. places.items ≡ gathered (listed_in_group (B.meaning book.now)) (length (B.meaning book.now).entries)) }
{
    let mut places = Vec::new(alloc);
    for index in 0..book.entries() {
        places.extend_from_slice(&of_entry(alloc, book, book.entry_at(index))?)?;
    }
    Ok(places)
}

/// The places that the entry's group lists, if it has one.
fn of_entry<B: Book>(alloc: Global, book: &B, entry: Entry) -> Result<Vec<usize>, AllocError>
    requires { entry < length (B.meaning book.now).entries }
    ensures { IfOk result (λ places. places.items ≡ listed_in_group (B.meaning book.now) entry) }
{
    match group_of(book, entry) {
        Some(def) => of_definition(alloc, book, def),
        None => Ok(Vec::new(alloc)),
    }
}

fn of_commands<B: Book>(alloc: Global, book: &B) -> Result<Vec<usize>, AllocError>
    ensures { IfOk result (λ places. places.items ≡ gathered (listed_in_command (B.meaning book.now)) (length (B.meaning book.now).commands)) }
{
    let mut places = Vec::new(alloc);
    for index in 0..book.commands() {
        places.extend_from_slice(&of_definition(alloc, book, command_at(book, index))?)?;
    }
    Ok(places)
}

fn of_definition<B: Book>(alloc: Global, book: &B, def: DefId) -> Result<Vec<usize>, AllocError>
    requires { def < length (definitions (B.meaning book.now)) }
    ensures { IfOk result (λ places. places.items ≡ listed_in_definition (B.meaning book.now) def) }
{
    of_rules(alloc, book, rules_of(book, def))
}

fn of_rules<B: Book>(alloc: Global, book: &B, rules: &[DRule]) -> Result<Vec<usize>, AllocError>
    ensures { IfOk result (λ places. places.items ≡ filter_map (listed_by (B.meaning book.now)) rules.now) }
{
    let mut places = Vec::new(alloc);
    for rule in rules {
        push_place(&mut places, listed_by(book, rule))?;
    }
    Ok(places)
}

fn push_place(places: &mut Vec<usize>, place: Option<usize>) -> Result<(), AllocError>
    ensures { OnOk result (places.new.items ≡ places.old.items ++ option_to_list place) }
{
    if let Some(place) = place {
        places.push(place)?;
    }
    Ok(())
}

/// The place of the AVP that a rule lists.
fn listed_by<B: Book>(book: &B, rule: &DRule) -> Option<usize>
    ensures { result ≡ listed_by (B.meaning book.now) rule.now }
{
    if !lets_in(rule) {
        return None;
    }
    let entry = book.avp(rule.key?)?;
    Some(entry.index())
}

/// Of each of so many places whether it is among these.
fn marks_of(alloc: Global, places: &[usize], count: usize) -> Result<Vec<bool>, AllocError>
    ensures { IfOk result (λ marks. AreMarked places.now count marks.items) }
{
    let mut marks = no_marks(alloc, count)?;
    for place in places {
        mark(&mut marks, *place);
    }
    Ok(marks)
}

fn no_marks(alloc: Global, count: usize) -> Result<Vec<bool>, AllocError>
    ensures { IfOk result (λ marks. AreMarked [] count marks.items) }
{
    let mut marks = Vec::new(alloc);
    for _ in 0..count {
        marks.push(false)?;
    }
    Ok(marks)
}

fn mark(marks: &mut [bool], place: usize)
    ensures size { length marks.new ≡ length marks.old }
    ensures each { (e : ℕ) → slice_get marks.new e ≡ option_map (λ is. is || nat_eq e place) (slice_get marks.old e) }
{
    if place < marks.len() {
        marks[place] = true;
    }
}
