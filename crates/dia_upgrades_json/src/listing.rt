//! What is written of two dictionaries and the text of a list of accepted lines.

ghost use Rattle.std.specs.Prelude.{◌≡◌, ◌↔◌, IfOk, IsTrue, Err};
ghost use Rattle.dia_io.specs.declared.RunFault.TheVariants.{Device};
ghost use Rattle.dia_upgrades.specs.UnderWay.{Answers};
ghost use Rattle.dia_upgrades_json.specs.SpotTexts.{both_in};
ghost use Rattle.dia_upgrades_json.specs.Objects.{AreNamesOf, json_over, texts_of};

use crate::keys::{Keys, Names};
use crate::spots::{Spelt, Texts};
use dia_dict::{Book, IndexedBook};
use dia_io::{Inputs, RunFault, Sink};
use dia_refused_json::text_of;
use dia_report::BothBooks;
use dia_upgrades::{Asked, BooksAnswer, breaking_of};
use std::alloc::{AllocError, Global};

/// Writes the objects of two dictionaries that were read from the inputs, and of the list of accepted lines.
pub(crate) fn listed<S: Sink>(
    alloc: Global,
    asked: Asked<'_>,
    inputs: &Inputs,
    books: &BothBooks,
    sink: &mut S,
) -> Result<BooksAnswer, RunFault>
    requires { ¬ IsTrue (S.has_failed sink.old) }
    ensures answers { Answers (json_over
        (⟦<IndexedBook as Book>⟧.meaning books.now.first.value.book)
        (⟦<IndexedBook as Book>⟧.meaning books.now.second.value.book)
        (texts_of inputs.now books.now)) asked.entry inputs.now.table
        (⟦<IndexedBook as Book>⟧.meaning books.now.first.value.book)
        (⟦<IndexedBook as Book>⟧.meaning books.now.second.value.book)
        (S.written sink.old) (S.written sink.new) result }
    ensures device { (result ≡ Err Device) ↔ IsTrue (S.has_failed sink.new) }
{
    let names = names_in(alloc, &*inputs, &*books)?;
    breaking_of(
        alloc,
        asked,
        &names,
        &inputs.table,
        &books.first.book,
        &books.second.book,
        sink,
    )
}

/// The AVPs of two dictionaries by their names, and their texts.
fn names_in<'s>(
    alloc: Global,
    inputs: &'s Inputs,
    books: &'s BothBooks,
) -> Result<Names<'s>, AllocError>
    ensures { IfOk result (AreNamesOf
        (⟦<IndexedBook as Book>⟧.meaning books.now.first.value.book)
        (⟦<IndexedBook as Book>⟧.meaning books.now.second.value.book) (texts_of inputs.now books.now)) }
{
    let texts = texts_in(alloc, inputs, books)?;
    let first = Keys::new(alloc, &books.first.book)?;
    let second = Keys::new(alloc, &books.second.book)?;
    Ok(Names {
        first,
        second,
        texts,
    })
}

/// The texts of two dictionaries, with the places of their parts.
fn texts_in<'s>(
    alloc: Global,
    inputs: &'s Inputs,
    books: &'s BothBooks,
) -> Result<Box<Texts<'s>>, AllocError>
    ensures { IfOk result (λ texts. both_in texts.value ≡ texts_of inputs.now books.now) }
{
    let first = Spelt::new(alloc, text_of(&inputs.first), &books.first.source)?;
    let second = Spelt::new(alloc, text_of(&inputs.second), &books.second.source)?;
    Ok(Box::new(alloc, Texts { first, second })?)
}
