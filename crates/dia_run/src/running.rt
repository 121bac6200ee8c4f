//! A command, from its inputs to what is written.

ghost use Rattle.std.specs.Prelude.{◌≡◌, ◌↔◌, List, [], ℕ, IfOk, Err};
ghost use Rattle.std.specs.Prelude.{IsTrue, string_bytes};
ghost use Rattle.std.specs.Io.KnownBytes.{Appends};
ghost use Rattle.dia_io.specs.declared.Exit.{Exit as AnyExit};
ghost use Rattle.dia_io.specs.Writing.{AppendsFront};
ghost use Rattle.dia_run.specs.Outcome.{IsOutcome};
ghost use Rattle.dia_run.specs.Inclusion.{ShowsInclusion};
ghost use Rattle.dia_run.specs.Kinds.{IsReportOf, Reports};
ghost use Rattle.dia_run.specs.Report.{Answers, HasReport, IsReport};

use crate::commands::answer_of;
use crate::commands::check::check;
use crate::commands::compare::compare;
use crate::commands::propose::propose;
use crate::commands::refute::refute;
use crate::commands::render::render;
use crate::commands::show::show;
use dia_dict::{Book, IndexedBook};
use dia_io::{Command, Exit, Inputs, RunFault, Sink, put_all};
use dia_report::{Answered, Refused, Reported};
use std::alloc::{AllocError, Global};

/// Writes the text of a command for its inputs, and answers how it ended.
///
/// The text is made first, and then written in whatever pieces the sink takes.
pub fn run<S: Sink>(
    alloc: Global,
    command: &Command,
    inputs: &Inputs,
    sink: &mut S,
) -> Result<Exit, RunFault>
    requires { ¬ IsTrue (S.has_failed sink.old) }
    ensures text { IfOk result (λ exit. (text : List ℕ) × IsOutcome command.now inputs.now text exit
        × Appends (S.written sink.old) (S.written sink.new) text) }
    // For these inputs there is one text, and one end.
    ensures one { (a b : List ℕ) (x y : AnyExit)
        → IsOutcome command.now inputs.now a x → IsOutcome command.now inputs.now b y
        → (a ≡ b) × (x ≡ y) }
    // Where `compare` answers yes, what is valid under the first dictionary is valid under the second.
    ensures inclusion { IfOk result (λ exit. ShowsInclusion command.now inputs.now exit) }
    ensures device { (result ≡ Err RunFault.Device) ↔ IsTrue (S.has_failed sink.new) }
    ensures front { result ≡ Err RunFault.Device
        → (text : List ℕ) × (exit : AnyExit) × IsOutcome command.now inputs.now text exit
        × AppendsFront (S.written sink.old) (S.written sink.new) text }
    // An empty text is put as no piece.
    ensures nothing { (exit : AnyExit) → IsOutcome command.now inputs.now [] exit
        → sink.new ≡ sink.old }
    ensures no_memory { result ≡ Err RunFault.NoMemory → S.written sink.new ≡ S.written sink.old }
{
    let reported = run_reporting(alloc, command, inputs, sink)?;
    Ok(reported.exit)
}

/// `run`, with a report of what was read and found.
pub fn run_reporting<S: Sink>(
    alloc: Global,
    command: &Command,
    inputs: &Inputs,
    sink: &mut S,
) -> Result<Reported, RunFault>
    requires { ¬ IsTrue (S.has_failed sink.old) }
    ensures text { IfOk result (λ reported. (text : List ℕ) × IsOutcome command.now inputs.now text reported.exit
        × IsReport ⟦<IndexedBook as Book>⟧.meaning inputs.now reported.report text reported.exit
        × Appends (S.written sink.old) (S.written sink.new) text) }
    ensures kind { IfOk result (λ reported. IsReportOf command.now reported.report) }
    // For these inputs there is one text, and one end.
    ensures one { (a b : List ℕ) (x y : AnyExit)
        → IsOutcome command.now inputs.now a x → IsOutcome command.now inputs.now b y
        → (a ≡ b) × (x ≡ y) }
    // Where `compare` answers yes, what is valid under the first dictionary is valid under the second.
    ensures inclusion { IfOk result (λ reported. ShowsInclusion command.now inputs.now reported.exit) }
    ensures device { (result ≡ Err RunFault.Device) ↔ IsTrue (S.has_failed sink.new) }
    ensures front { result ≡ Err RunFault.Device
        → (text : List ℕ) × (exit : AnyExit) × IsOutcome command.now inputs.now text exit
        × AppendsFront (S.written sink.old) (S.written sink.new) text }
    // An empty text is put as no piece.
    ensures nothing { (exit : AnyExit) → IsOutcome command.now inputs.now [] exit
        → sink.new ≡ sink.old }
    ensures no_memory { result ≡ Err RunFault.NoMemory → S.written sink.new ≡ S.written sink.old }
{
    let Answered { text, exit, report } = answer(alloc, command, inputs)?;
    put_all(sink, text.as_bytes())?;
    Ok(Reported { exit, report })
}

/// The text of a command for its inputs, how it ends, and a report of what was read and found.
pub fn answer(alloc: Global, command: &Command, inputs: &Inputs) -> Result<Answered, AllocError>
    ensures outcome { IfOk result (λ answered. IsOutcome command.now inputs.now
        (string_bytes answered.text) answered.exit) }
    ensures report { IfOk result (HasReport ⟦<IndexedBook as Book>⟧.meaning inputs.now) }
    ensures kind { IfOk result (Reports (IsReportOf command.now)) }
{
    answer_of(alloc, attempt(alloc, command, inputs))
}

/// The answer of a command, or why an input of it is refused.
fn attempt(alloc: Global, command: &Command, inputs: &Inputs) -> Result<Answered, Refused>
    ensures outcome { Answers (IsOutcome command.now inputs.now) result }
    ensures report { IfOk result (HasReport ⟦<IndexedBook as Book>⟧.meaning inputs.now) }
    ensures kind { IfOk result (Reports (IsReportOf command.now)) }
{
    match command {
        Command::Show => show(alloc, inputs),
        Command::Render => render(alloc, inputs),
        Command::Check { unknown, levels } => check(alloc, *unknown, *levels, inputs),
        Command::Compare { unknown } => compare(alloc, *unknown, inputs),
        Command::Refute { unknown, levels } => refute(alloc, *unknown, *levels, inputs),
        Command::Propose { unknown, names } => propose(alloc, *unknown, names.as_slice(), inputs),
    }
}
