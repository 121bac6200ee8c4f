//! `show` of a message as JSON.

ghost use Rattle.std.specs.Prelude.{◌≡◌, IfOk, string_bytes};
ghost use Rattle.dia_refused_json.specs.Members.{json_line};
ghost use Rattle.dia_refused_json.specs.Recording.{HasReport};
ghost use Rattle.dia_run.specs.Report.{IsReadFrom};
ghost use Rattle.dia_show.specs.Manners.{plain_manner_of};
ghost use Rattle.dia_show.specs.declared.reporting.Report.TheVariants.{NoValues, OfShow};
ghost use Rattle.dia_json.specs.Reports.{HasShownReport, IsShowReport};
ghost use Rattle.dia_json.specs.Whole.{IsShowJson, ShowsJson, RecordsValues, values_members};

use crate::listing::JsonRows;
use dia_dict::{Book, IndexedBook};
use dia_io::{Exit, Inputs};
use dia_refused_json::refuse;
use dia_report::{CutListing, ReadBook, Report};
use dia_run::{Outcome, read_dictionary, read_message, write_message};
use dia_show::{Answered, BadValues, Manner, read_manner};
use std::alloc::{AllocError, Global};

/// `show` of the message, with the names of the first dictionary, and with the words that the table's input has for numbers; with
/// `names` also with dates.
pub fn show(alloc: Global, names: bool, inputs: &Inputs) -> Result<Answered, AllocError>
    ensures outcome { IfOk result (λ answered. IsShowJson names inputs.now (string_bytes answered.text) answered.exit) }
    ensures report { IfOk result (HasShownReport ⟦<IndexedBook as Book>⟧.meaning inputs.now) }
{
    match read_dictionary(alloc, 1, &inputs.first) {
        Ok(first) => with_words(alloc, names, first, inputs),
        Err(refused) => {
            let answered = refuse(alloc, &inputs.first, refused)?;
            Ok(of_show(answered))
        }
    }
}

/// The same with a dictionary.
fn with_words(
    alloc: Global,
    names: bool,
    first: Box<ReadBook>,
    inputs: &Inputs,
) -> Result<Answered, AllocError>
    requires { IsReadFrom ⟦<IndexedBook as Book>⟧.meaning inputs.now.first first.value }
    ensures outcome { IfOk result (λ answered. IsShowJson names inputs.now (string_bytes answered.text) answered.exit) }
    ensures report { IfOk result (HasShownReport ⟦<IndexedBook as Book>⟧.meaning inputs.now) }
{
    match read_manner(alloc, names, &inputs.table)? {
        Ok(manner) => {
            let answered = listed(alloc, &manner, first, inputs)?;
            Ok(of_show(answered))
        }
        Err(bad) => no_values(alloc, bad),
    }
}

/// The same answer with a report of `show` with words.
pub(crate) fn of_show(answered: dia_report::Answered) -> Answered
    ensures text { result.text ≡ answered.text }
    ensures exit { result.exit ≡ answered.exit }
    ensures report { result.report ≡ OfShow answered.report }
{
    let dia_report::Answered { text, exit, report } = answered;
    let report = dia_show::Report::OfShow(report);
    Answered { text, exit, report }
}

/// The answer of words of values that are refused.
pub(crate) fn no_values(alloc: Global, bad: BadValues) -> Result<Answered, AllocError>
    ensures recorded { IfOk result (λ answered. RecordsValues bad (string_bytes answered.text) answered.exit) }
    ensures report { IfOk result (λ answered. answered.report ≡ NoValues bad) }
{
    let text = values_line(alloc, bad)?;
    let exit = Exit::Bad;
    let report = dia_show::Report::NoValues(bad);
    Ok(Answered { text, exit, report })
}

/// The object of words of values that are refused.
fn values_line(alloc: Global, bad: BadValues) -> Result<String, AllocError>
    ensures { IfOk result (λ text. string_bytes text ≡ json_line (values_members bad)) }
{
    match bad {
        BadValues::TooLong => String::from_str(
            alloc,
            "{\"error\":\"values\",\"kind\":\"too long\"}\n",
        ),
        BadValues::NotText { .. } => {
            String::from_str(alloc, "{\"error\":\"values\",\"kind\":\"not text\"}\n")
        }
        BadValues::Syntax { line } => {
            format!(in alloc; "{{\"error\":\"values\",\"kind\":\"syntax\",\"line\":{line}}}\n")
        }
        BadValues::Duplicate { line } => {
            format!(in alloc; "{{\"error\":\"values\",\"kind\":\"duplicate\",\"line\":{line}}}\n")
        }
        BadValues::Limit { line } => {
            format!(in alloc; "{{\"error\":\"values\",\"kind\":\"limit\",\"line\":{line}}}\n")
        }
    }
}

/// The objects of the message in a manner, with the names of a dictionary that was read.
fn listed(
    alloc: Global,
    manner: &Manner<'_>,
    first: Box<ReadBook>,
    inputs: &Inputs,
) -> Result<dia_report::Answered, AllocError>
    requires { IsReadFrom ⟦<IndexedBook as Book>⟧.meaning inputs.now.first first.value }
    ensures outcome { IfOk result (λ answered. ShowsJson (plain_manner_of manner.now)
        (⟦<IndexedBook as Book>⟧.meaning first.value.book) inputs.now (string_bytes answered.text) answered.exit) }
    ensures report { IfOk result (HasReport (IsShowReport ⟦<IndexedBook as Book>⟧.meaning inputs.now)) }
{
    let message = match read_message(alloc, &inputs.message) {
        Ok(bytes) => bytes,
        Err(refused) => return refuse(alloc, &inputs.message, refused),
    };
    let made = write_message(alloc, &JsonRows { manner }, &first.book, message.as_slice());
    let Outcome { text, exit } = match made {
        Ok(outcome) => outcome,
        Err(refused) => return refuse(alloc, &inputs.message, refused),
    };
    let report = match exit {
        Exit::Yes => Report::Shown(message),
        Exit::No => Report::Cut(CutListing { first, message }),
        Exit::Bad => unreachable!(),
    };
    Ok(dia_report::Answered { text, exit, report })
}
