//! The command, from its inputs to what is written.

ghost use Rattle.std.specs.Prelude.{◌≡◌, ◌↔◌, ℕ, List, IfErr, IfOk, Err, IsTrue};
ghost use Rattle.std.specs.Io.KnownBytes.{Appends};
ghost use Rattle.dia_io.specs.Writing.{AppendsFront};
ghost use Rattle.dia_report.specs.Refusals.{RecordsOf, bad_input_text};
ghost use Rattle.dia_run.specs.Report.{AreReadFrom};
ghost use Rattle.dia_run.specs.Texts.{line};
ghost use Rattle.dia_upgrades.specs.Begun.{IsOutcomeBegun, IsOutcomeBegunOrWhole};
ghost use Rattle.dia_upgrades.specs.Outcome.{AreRefused, IsBreakingOutcome, IsSafeUpgrade, IsUnsafeUpgrade};
ghost use Rattle.dia_upgrades.specs.Report.{IsReport, IsRefusedText};
ghost use Rattle.dia_upgrades.specs.UnderWay.{Reports};

use crate::asked::Asked;
use crate::judging::breaking_of;
use crate::reporting::{BooksAnswer, BreakingAnswer, Report};
use crate::words::InWords;
use dia_dict::{Book, IndexedBook};
use dia_io::{Exit, Inputs, RunFault, Sink, put_all};
use dia_report::{BadInput, BothBooks, Refused};
use dia_run::read_dictionary;
use std::alloc::Global;

/// Writes a line for each way in which messages break: those that the side of the first dictionary sends, and the side of the
/// second reads. With `meaning` AVPs that are read as another format have lines, too. Lines that the list of accepted ones, the
/// table's input, accepts aren't written. With `once` there is a line for each cause of the others.
///
/// Without any line it writes `nothing breaks`, and where the list accepts each, `nothing else breaks`; with `meaning` it is
/// `nothing differs` and `nothing else differs`. It answers how it ended, and a report: how many lines and causes there are,
/// which lines of the list accept nothing, and, without `meaning`, the AVPs that are read as another format.
///
/// Lines are written as they are found, in whatever pieces the sink takes, and dropped: only their causes are stored. With `once`
/// they are written after all.
pub fn breaking<S: Sink>(
    alloc: Global,
    asked: Asked<'_>,
    inputs: &Inputs,
    sink: &mut S,
) -> Result<BreakingAnswer, RunFault>
    requires { ¬ IsTrue (S.has_failed sink.old) }
    ensures text { IfOk result
        (λ reported. (text : List ℕ) × IsBreakingOutcome asked.entry inputs.now text reported.exit
        × IsReport ⟦<IndexedBook as Book>⟧.meaning asked.entry inputs.now reported.report text reported.exit
        × Appends (S.written sink.old) (S.written sink.new) text) }
    // Where it answers yes, nothing breaks, or nothing but what the list accepts, and it has written which; with `meaning`
    // nothing is read as another format, either, but for what the list accepts.
    ensures yes { IfOk result (λ reported. reported.exit ≡ Exit.Yes
        → (recorded : List ℕ) × IsSafeUpgrade asked.entry inputs.now recorded
        × Appends (S.written sink.old) (S.written sink.new) recorded) }
    // Where it answers no, it has written the lines that the list doesn't accept, and at least one.
    ensures no { IfOk result (λ reported. reported.exit ≡ Exit.No
        → (recorded : List ℕ) × IsUnsafeUpgrade asked.entry inputs.now recorded
        × Appends (S.written sink.old) (S.written sink.new) recorded) }
    ensures bad { IfOk result
        (λ reported. (reported.exit ≡ Exit.Bad) ↔ AreRefused asked.entry inputs.now) }
    ensures device { (result ≡ Err RunFault.Device) ↔ IsTrue (S.has_failed sink.new) }
    // Where the sink fails, a beginning was written: of all that is written, or of the lines that were found until then.
    ensures front { result ≡ Err RunFault.Device → (text : List ℕ) × IsOutcomeBegunOrWhole asked.entry inputs.now text
        × AppendsFront (S.written sink.old) (S.written sink.new) text }
    // Where memory is refused, nothing was written, or lines up to the end of one, from the first on.
    ensures no_memory { result ≡ Err RunFault.NoMemory → (text : List ℕ) × IsOutcomeBegun asked.entry inputs.now text
        × Appends (S.written sink.old) (S.written sink.new) text }
{
    reported(alloc, asked, inputs, sink)
}

/// The same, in one clause.
fn reported<S: Sink>(
    alloc: Global,
    asked: Asked<'_>,
    inputs: &Inputs,
    sink: &mut S,
) -> Result<BreakingAnswer, RunFault>
    requires { ¬ IsTrue (S.has_failed sink.old) }
    ensures reports { Reports ⟦<IndexedBook as Book>⟧.meaning asked.entry inputs.now
        (S.written sink.old) (S.written sink.new) result }
    ensures device { (result ≡ Err RunFault.Device) ↔ IsTrue (S.has_failed sink.new) }
{
    match read_both(alloc, inputs) {
        Ok(books) => over_books(alloc, asked, inputs, books, sink),
        Err(Refused::Bad(bad)) => refused(alloc, bad, sink),
        Err(Refused::NoMemory) => Err(RunFault::NoMemory),
    }
}

/// The dictionaries, or why one is refused.
fn read_both(alloc: Global, inputs: &Inputs) -> Result<BothBooks, Refused>
    ensures books { IfOk result (AreReadFrom ⟦<IndexedBook as Book>⟧.meaning inputs.now) }
    ensures refused { IfErr result (RecordsOf (IsRefusedText inputs.now)) }
{
    let first = read_dictionary(alloc, 1, &inputs.first)?;
    let second = read_dictionary(alloc, 2, &inputs.second)?;
    Ok(BothBooks { first, second })
}

/// Lists what breaks over dictionaries that were read.
fn over_books<S: Sink>(
    alloc: Global,
    asked: Asked<'_>,
    inputs: &Inputs,
    books: BothBooks,
    sink: &mut S,
) -> Result<BreakingAnswer, RunFault>
    requires { ¬ IsTrue (S.has_failed sink.old) }
    ensures reports { AreReadFrom ⟦<IndexedBook as Book>⟧.meaning inputs.now books
        → Reports ⟦<IndexedBook as Book>⟧.meaning asked.entry inputs.now (S.written sink.old) (S.written sink.new) result }
    ensures device { (result ≡ Err RunFault.Device) ↔ IsTrue (S.has_failed sink.new) }
{
    let BooksAnswer { exit, found } = breaking_of(
        alloc,
        asked,
        &InWords,
        &inputs.table,
        &books.first.book,
        &books.second.book,
        sink,
    )?;
    let report = Report::Read { books, found };
    Ok(BreakingAnswer { exit, report })
}

/// Writes the line of a dictionary that is refused.
fn refused<S: Sink>(alloc: Global, bad: BadInput, sink: &mut S) -> Result<BreakingAnswer, RunFault>
    requires { ¬ IsTrue (S.has_failed sink.old) }
    ensures put { IfOk result (λ reported. Appends (S.written sink.old) (S.written sink.new) (line (bad_input_text bad))) }
    ensures exit { IfOk result (λ reported. reported.exit ≡ Exit.Bad) }
    ensures report { IfOk result (λ reported. reported.report ≡ Report.Refused bad) }
    ensures front { result ≡ Err RunFault.Device
        → AppendsFront (S.written sink.old) (S.written sink.new) (line (bad_input_text bad)) }
    ensures device { (result ≡ Err RunFault.Device) ↔ IsTrue (S.has_failed sink.new) }
    ensures no_memory { result ≡ Err RunFault.NoMemory → S.written sink.new ≡ S.written sink.old }
{
    let text = format!(in alloc; "{bad}\n")?;
    put_all(sink, text.as_bytes())?;
    let exit = Exit::Bad;
    let report = Report::Refused(bad);
    Ok(BreakingAnswer { exit, report })
}
