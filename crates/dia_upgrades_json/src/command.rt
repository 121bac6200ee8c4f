//! The command, from its inputs to what is written.

ghost use Rattle.std.specs.Prelude.{◌≡◌, ◌↔◌, ℕ, List, IfOk, Err, IsTrue};
ghost use Rattle.std.specs.Io.KnownBytes.{Appends};
ghost use Rattle.dia_io.specs.declared.RunFault.TheVariants.{Device, NoMemory};
ghost use Rattle.dia_io.specs.Writing.{AppendsFront};
ghost use Rattle.dia_run.specs.Report.{AreReadFrom};
ghost use Rattle.dia_upgrades.specs.Outcome.{AreRefused, IsSafeUpgrade, IsUnsafeUpgrade};
ghost use Rattle.dia_upgrades_json.specs.Begun.{IsJsonBegun, IsJsonBegunOrWhole};
ghost use Rattle.dia_upgrades_json.specs.Objects.{ArePlaced};
ghost use Rattle.dia_upgrades_json.specs.Outcome.{IsBreakingJson, IsJsonReport};
ghost use Rattle.dia_upgrades_json.specs.UnderWay.{Refuses, RefusesFor, Reports};

use crate::listing::listed;
use dia_dict::{Book, IndexedBook};
use dia_io::{Exit, Input, Inputs, RunFault, Sink, put_all};
use dia_refused_json::bad_input_line;
use dia_report::{BadInput, BothBooks, Refused};
use dia_run::read_dictionary;
use dia_upgrades::{Asked, BooksAnswer, BreakingAnswer, Report};
use std::alloc::Global;

/// Writes what `breaking` of dia_upgrades finds, as JSON: an object for each line, or with `once` for each cause, and one with
/// how many lines, causes and accepted lines there are. Where nothing breaks, it is the only one. An input that is refused has
/// an object, too. It ends as without JSON, and answers the same report.
pub fn breaking<S: Sink>(
    alloc: Global,
    asked: Asked<'_>,
    inputs: &Inputs,
    sink: &mut S,
) -> Result<BreakingAnswer, RunFault>
    requires { ¬ IsTrue (S.has_failed sink.old) }
    ensures text { IfOk result (λ reported. (text : List ℕ) × IsBreakingJson asked.entry inputs.now text reported.exit
        × IsJsonReport ⟦<IndexedBook as Book>⟧.meaning asked.entry inputs.now reported.report text reported.exit
        × Appends (S.written sink.old) (S.written sink.new) text) }
    // Where it answers yes, nothing breaks, or nothing but what the list accepts: `breaking` writes which, in these words.
    ensures yes { IfOk result (λ reported. reported.exit ≡ Exit.Yes
        → (words : List ℕ) × IsSafeUpgrade asked.entry inputs.now words) }
    // Where it answers no, there are lines that the list doesn't accept: `breaking` writes these words.
    ensures no { IfOk result (λ reported. reported.exit ≡ Exit.No
        → (words : List ℕ) × IsUnsafeUpgrade asked.entry inputs.now words) }
    ensures bad { IfOk result (λ reported. (reported.exit ≡ Exit.Bad) ↔ AreRefused asked.entry inputs.now) }
    ensures device { (result ≡ Err Device) ↔ IsTrue (S.has_failed sink.new) }
    // Where the sink fails, a beginning was written: of all that is written, or of the objects of lines that were found until
    // then.
    ensures front { result ≡ Err Device → (text : List ℕ) × IsJsonBegunOrWhole asked.entry inputs.now text
        × AppendsFront (S.written sink.old) (S.written sink.new) text }
    // Where memory is refused, nothing was written, or objects of lines, from the first on.
    ensures no_memory { result ≡ Err NoMemory → (text : List ℕ) × IsJsonBegun asked.entry inputs.now text
        × Appends (S.written sink.old) (S.written sink.new) text }
{
    reported(alloc, asked, inputs, sink)
}

/// The same, in one clause.
fn reported<S: Sink>(
    alloc: Global,
    asked: Asked<'_>,
    inputs: &Inputs,
    sink: &mut S,
) -> Result<BreakingAnswer, RunFault>
    requires { ¬ IsTrue (S.has_failed sink.old) }
    ensures reports { Reports ⟦<IndexedBook as Book>⟧.meaning asked.entry inputs.now
        (S.written sink.old) (S.written sink.new) result }
    ensures device { (result ≡ Err Device) ↔ IsTrue (S.has_failed sink.new) }
{
    let first = match read_dictionary(alloc, 1, &inputs.first) {
        Ok(read) => read,
        Err(why) => return refused(alloc, &inputs.first, why, sink),
    };
    let second = match read_dictionary(alloc, 2, &inputs.second) {
        Ok(read) => read,
        Err(why) => return refused(alloc, &inputs.second, why, sink),
    };
    let books = BothBooks { first, second };
    over_books(alloc, asked, inputs, books, sink)
}

/// Lists what breaks over dictionaries that were read.
fn over_books<S: Sink>(
    alloc: Global,
    asked: Asked<'_>,
    inputs: &Inputs,
    books: BothBooks,
    sink: &mut S,
) -> Result<BreakingAnswer, RunFault>
    requires { ¬ IsTrue (S.has_failed sink.old) }
    ensures reports { AreReadFrom ⟦<IndexedBook as Book>⟧.meaning inputs.now books → ArePlaced inputs.now books
        → Reports ⟦<IndexedBook as Book>⟧.meaning asked.entry inputs.now (S.written sink.old) (S.written sink.new) result }
    ensures device { (result ≡ Err Device) ↔ IsTrue (S.has_failed sink.new) }
{
    let BooksAnswer { exit, found } = listed(alloc, asked, inputs, &books, sink)?;
    let report = Report::Read { books, found };
    Ok(BreakingAnswer { exit, report })
}

/// Writes the object of a dictionary that is refused.
fn refused<S: Sink>(
    alloc: Global,
    input: &Input,
    why: Refused,
    sink: &mut S,
) -> Result<BreakingAnswer, RunFault>
    requires { ¬ IsTrue (S.has_failed sink.old) }
    ensures refuses { RefusesFor input.now why (S.written sink.old) (S.written sink.new) result }
    ensures device { (result ≡ Err Device) ↔ IsTrue (S.has_failed sink.new) }
{
    match why {
        Refused::Bad(bad) => put_bad(alloc, input, bad, sink),
        Refused::NoMemory => Err(RunFault::NoMemory),
    }
}

fn put_bad<S: Sink>(
    alloc: Global,
    input: &Input,
    bad: BadInput,
    sink: &mut S,
) -> Result<BreakingAnswer, RunFault>
    requires { ¬ IsTrue (S.has_failed sink.old) }
    ensures refuses { Refuses input.now bad (S.written sink.old) (S.written sink.new) result }
    ensures device { (result ≡ Err Device) ↔ IsTrue (S.has_failed sink.new) }
{
    let text = bad_input_line(alloc, input, &bad)?;
    put_all(sink, text.as_bytes())?;
    let exit = Exit::Bad;
    let report = Report::Refused(bad);
    Ok(BreakingAnswer { exit, report })
}
