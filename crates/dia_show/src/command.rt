//! `show` with words of values and names, from its inputs to what is written.

ghost use Rattle.std.specs.Prelude.{◌≡◌, ◌≢◌, ◌↔◌, ℕ, List, Err, IfOk, IsTrue, string_bytes};
ghost use Rattle.std.specs.Io.KnownBytes.{Appends};
ghost use Rattle.dia_io.specs.declared.Exit.{Exit as AnyExit};
ghost use Rattle.dia_io.specs.Writing.{AppendsFront};
ghost use Rattle.dia_report.specs.Refusals.{bad_input_text};
ghost use Rattle.dia_run.specs.Outcome.{Ends};
ghost use Rattle.dia_run.specs.Report.{IsReadFrom};
ghost use Rattle.dia_run.specs.Texts.{line};
ghost use Rattle.dia_show.specs.Manners.{plain_manner_of};
ghost use Rattle.dia_show.specs.Outcome.{Gives, IsNamedOutcome, IsShown};
ghost use Rattle.dia_show.specs.Report.{HasReport, IsRecorded};
ghost use Rattle.dia_report.specs.declared.reporting.Report.TheVariants.{Refused as OfRefusal};
ghost use Rattle.dia_show.specs.Words.{IsValuesText, plain_words, values_line};

use crate::listing::NamedRows;
use crate::manner::Manner;
use crate::reading::{BadValues, read_manner};
use crate::reporting::{Answered, Report, Reported};
use dia_dict::{Book, IndexedBook};
use dia_io::{Exit, Inputs, RunFault, Sink, put_all};
use dia_report::{BadInput, CutListing, ReadBook, Refused};
use dia_run::{Outcome, read_dictionary, read_message, write_message};
use std::alloc::{AllocError, Global};

/// Writes the lines of a message, as `show` does, with the words that the table's input has for numbers; and with `names` flags
/// as letters, the command's name, dates, texts as texts, and levels indented.
///
/// The text is made first, and then written in whatever pieces the sink takes.
pub fn show<S: Sink>(
    alloc: Global,
    names: bool,
    inputs: &Inputs,
    sink: &mut S,
) -> Result<Reported, RunFault>
    requires { ¬ IsTrue (S.has_failed sink.old) }
    ensures text { IfOk result (λ reported. (text : List ℕ) × IsNamedOutcome names inputs.now text reported.exit
        × IsRecorded ⟦<IndexedBook as Book>⟧.meaning inputs.now reported.report text reported.exit
        × Appends (S.written sink.old) (S.written sink.new) text) }
    ensures device { (result ≡ Err RunFault.Device) ↔ IsTrue (S.has_failed sink.new) }
    ensures front { result ≡ Err RunFault.Device
        → (text : List ℕ) × (exit : AnyExit) × IsNamedOutcome names inputs.now text exit
        × AppendsFront (S.written sink.old) (S.written sink.new) text }
    ensures no_memory { result ≡ Err RunFault.NoMemory → S.written sink.new ≡ S.written sink.old }
{
    let Answered { text, exit, report } = answer(alloc, names, inputs)?;
    put_all(sink, text.as_bytes())?;
    Ok(Reported { exit, report })
}

/// The text for the inputs, how it ends, and a report of what was read and found.
fn answer(alloc: Global, names: bool, inputs: &Inputs) -> Result<Answered, AllocError>
    ensures outcome { IfOk result (λ answered. IsNamedOutcome names inputs.now
        (string_bytes answered.text) answered.exit) }
    ensures report { IfOk result (HasReport ⟦<IndexedBook as Book>⟧.meaning inputs.now) }
{
    match attempt(alloc, names, inputs) {
        Ok(answered) => Ok(answered),
        Err(Refused::Bad(bad)) => refuse(alloc, bad),
        Err(Refused::NoMemory) => Err(AllocError),
    }
}

/// The answer of a dictionary or a message that is refused.
pub(crate) fn refuse(alloc: Global, bad: BadInput) -> Result<Answered, AllocError>
    ensures text { IfOk result (λ answered. string_bytes answered.text ≡ line (bad_input_text bad)) }
    ensures exit { IfOk result (λ answered. answered.exit ≡ Exit.Bad) }
    ensures report { IfOk result (λ answered. answered.report ≡ Report.OfShow (OfRefusal bad)) }
{
    let text = format!(in alloc; "{bad}\n")?;
    let exit = Exit::Bad;
    let report = Report::OfShow(dia_report::Report::Refused(bad));
    Ok(Answered { text, exit, report })
}

/// The answer, or why the dictionary or the message is refused.
fn attempt(alloc: Global, names: bool, inputs: &Inputs) -> Result<Answered, Refused>
    ensures outcome { Gives (IsNamedOutcome names inputs.now) result }
    ensures report { IfOk result (HasReport ⟦<IndexedBook as Book>⟧.meaning inputs.now) }
{
    let first = read_dictionary(alloc, 1, &inputs.first)?;
    match read_manner(alloc, names, &inputs.table)? {
        Ok(manner) => listed(alloc, &manner, first, inputs),
        Err(bad) => Ok(no_values(alloc, bad)?),
    }
}

/// The answer of words of values that are refused.
pub(crate) fn no_values(alloc: Global, bad: BadValues) -> Result<Answered, AllocError>
    ensures text { IfOk result (λ answered. string_bytes answered.text ≡ line (values_line bad)) }
    ensures exit { IfOk result (λ answered. answered.exit ≡ Exit.Bad) }
    ensures report { IfOk result (λ answered. answered.report ≡ Report.NoValues bad) }
{
    let text = format!(in alloc; "values: {bad}\n")?;
    let exit = Exit::Bad;
    let report = Report::NoValues(bad);
    Ok(Answered { text, exit, report })
}

/// The answer with this dictionary and these words, or why the message is refused.
fn listed(
    alloc: Global,
    manner: &Manner<'_>,
    first: Box<ReadBook>,
    inputs: &Inputs,
) -> Result<Answered, Refused>
    ensures outcome { IsReadFrom ⟦<IndexedBook as Book>⟧.meaning inputs.now.first first.value
        → IsValuesText inputs.now.table (plain_words manner.now.words)
        → Gives (IsNamedOutcome manner.now.names inputs.now) result }
    ensures report { IsReadFrom ⟦<IndexedBook as Book>⟧.meaning inputs.now.first first.value
        → IfOk result (HasReport ⟦<IndexedBook as Book>⟧.meaning inputs.now) }
{
    let message = read_message(alloc, &inputs.message)?;
    let Outcome { text, exit } = show_message(alloc, manner, &first.book, message.as_slice())?;
    let report = match exit {
        Exit::Yes => dia_report::Report::Shown(message),
        Exit::No => dia_report::Report::Cut(CutListing { first, message }),
        Exit::Bad => unreachable!(),
    };
    let report = Report::OfShow(report);
    Ok(Answered { text, exit, report })
}

/// The lines of a message in this manner, with the names of a dictionary.
pub fn show_message<B: Book>(
    alloc: Global,
    manner: &Manner<'_>,
    book: &B,
    bytes: &[u8],
) -> Result<Outcome, Refused>
    ensures outcome { Ends (IsShown (plain_manner_of manner.now) (B.meaning book.now) bytes.now) result }
    ensures exit { IfOk result (λ outcome. outcome.exit ≢ Exit.Bad) }
{
    write_message(alloc, &NamedRows { manner }, book, bytes)
}
