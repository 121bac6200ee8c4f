//! The note of an answer of `breaking`.

use crate::causes::push_causes;
use crate::less::push_less;
use crate::list::{push_bad_list, push_unused};
use crate::namesakes::{Namesakes, push_namesakes};
use crate::tally::{push_meanings, push_tally};
use crate::unchosen::push_unchosen;
use crate::unsent::push_unsent;
use crate::without_commands::push_without_commands;
use dia_explain_inputs::{first_of, push_empty, push_refused, push_unknown_commands, second_of};
use dia_explain_places::{InputTexts, Note};
use dia_io::Inputs;
use dia_report::BothBooks;
use dia_upgrades::{Asked, Findings, Report};
use std::alloc::{AllocError, Global};

/// What standard error reports of an answer of `breaking`. `explain` says whether each cause is explained, and not only the first
/// ones.
pub fn explain_upgrade(
    alloc: Global,
    texts: &InputTexts<'_>,
    asked: Asked<'_>,
    inputs: &Inputs,
    report: &Report,
    explain: bool,
) -> Result<String, AllocError> {
    let mut note = Note::new(alloc);
    match report {
        Report::Refused(bad) => push_refused(&mut note, texts, bad),
        Report::Read { books, found } => {
            push_empty(&mut note, &texts.second);
            let first = first_of(texts, books);
            let mut namesakes = Namesakes::of(alloc, &first, &second_of(texts, books))?;
            if let Findings::Listed { causes, .. } = found {
                push_causes(&mut note, texts, books, &mut namesakes, causes, explain)?;
            }
            push_found(
                &mut note,
                texts,
                asked,
                inputs,
                books,
                &mut namesakes,
                found,
            )?;
        }
    }
    note.finish()
}

/// Adds what was found of two dictionaries and a list of accepted lines.
fn push_found(
    note: &mut Note,
    texts: &InputTexts<'_>,
    asked: Asked<'_>,
    inputs: &Inputs,
    books: &BothBooks,
    namesakes: &mut Namesakes<'_>,
    found: &Findings,
) -> Result<(), AllocError> {
    match found {
        Findings::Listed {
            unused,
            stale,
            lines,
            causes,
            meanings,
            ..
        } => {
            push_tally(note, texts, *lines, causes);
            if *lines > 0 {
                push_less(note, asked, inputs, books);
            }
            push_unsent(note, texts.first.name, asked, books)?;
            push_meanings(note, meanings);
            push_unchosen(note, texts, books, asked.names, causes)?;
            push_namesakes(note, namesakes, causes)?;
            push_unused(note, &texts.table, unused, stale);
        }
        Findings::NoList(bad) => push_bad_list(note, &texts.table, bad),
        Findings::NoCommands => push_without_commands(note, &texts.first, &books.first.source),
        Findings::NoCommand => push_unknown_commands(note, texts, asked.names, books),
    }
    Ok(())
}
