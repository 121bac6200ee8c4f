//! `compare` as JSON.

ghost use Rattle.std.specs.Prelude.{◌≡◌, ◌≢◌, ◌<◌, ◌↔◌, [], IfOk, length, string_bytes};
ghost use Rattle.dia_compat.specs.Closed.{IsTableAnswer};
ghost use Rattle.dia_compat.specs.Failings.{AreFailingsFor, AreFailingsOf};
ghost use Rattle.dia_compat.specs.TableText.{plain_table};
ghost use Rattle.dia_compared_json.specs.Compared.{IsAnswerJson, IsCompareJson, IsCompareReport, IsFailureJson};
ghost use Rattle.dia_compared_json.specs.Failures.{pairs_listed};
ghost use Rattle.dia_refused_json.specs.Recording.{HasReport};

use crate::failures::{failure_text, pair_at};
use dia_book::Book;
use dia_check::Unknown;
use dia_compat::{Answer, Failing, PairKind, Table, Test, Verdict, judge_table};
use dia_dict::IndexedBook;
use dia_io::{Exit, Inputs};
use dia_refused_json::refuse;
use dia_report::{Answered, BothBooks, Compared, Report};
use dia_run::{Outcome, read_dictionary, read_table, recorded};
use std::alloc::{AllocError, Global};

/// The object of an answer, how the program ends, and the answer with what fails.
#[derive(Drop)]
struct Found {
    text: String,
    exit: Exit,
    verdict: Verdict,
}

/// Whether the table shows inclusion, or else the first pair that fails a test, and all that fails it.
pub fn compare(alloc: Global, unknown: Unknown, inputs: &Inputs) -> Result<Answered, AllocError>
    ensures outcome { IfOk result (λ answered. IsCompareJson unknown inputs.now
        (string_bytes answered.text) answered.exit) }
    ensures report { IfOk result (HasReport (IsCompareReport ⟦<IndexedBook as Book>⟧.meaning unknown inputs.now)) }
{
    let first = match read_dictionary(alloc, 1, &inputs.first) {
        Ok(read) => read,
        Err(refused) => return refuse(alloc, &inputs.first, refused),
    };
    let second = match read_dictionary(alloc, 2, &inputs.second) {
        Ok(read) => read,
        Err(refused) => return refuse(alloc, &inputs.second, refused),
    };
    let table = match read_table(alloc, &inputs.table) {
        Ok(table) => table,
        Err(refused) => return refuse(alloc, &inputs.table, refused),
    };
    let Found {
        text,
        exit,
        verdict,
    } = found_of(alloc, &first.book, &second.book, unknown, &table)?;
    let Verdict { answer, failings } = verdict;
    let report = Report::Compared(Compared {
        books: BothBooks { first, second },
        table,
        unknown,
        answer,
        failings,
    });
    Ok(Answered { text, exit, report })
}

/// What is found of the table's pairs.
fn found_of<A: Book, B: Book>(
    alloc: Global,
    a: &A,
    b: &B,
    unknown: Unknown,
    table: &Table,
) -> Result<Found, AllocError>
    ensures answer { IfOk result (λ found. IsTableAnswer (A.meaning a.now) (B.meaning b.now) unknown
        (plain_table table.now) found.verdict.answer) }
    ensures failings { IfOk result (λ found. AreFailingsFor (A.meaning a.now) (B.meaning b.now) unknown
        (plain_table table.now) found.verdict.answer found.verdict.failings.items) }
    ensures recorded { IfOk result (λ found. IsAnswerJson (A.meaning a.now) (B.meaning b.now) unknown
        (plain_table table.now) found.verdict.answer (string_bytes found.text) found.exit) }
{
    let verdict = judge_table(alloc, a, b, unknown, table)?;
    let Outcome { text, exit } = recorded_of(alloc, a, b, unknown, table, &verdict)?;
    Ok(Found {
        text,
        exit,
        verdict,
    })
}

/// The object of an answer, and how the program ends.
fn recorded_of<A: Book, B: Book>(
    alloc: Global,
    a: &A,
    b: &B,
    unknown: Unknown,
    table: &Table,
    verdict: &Verdict,
) -> Result<Outcome, AllocError>
    requires answer { IsTableAnswer (A.meaning a.now) (B.meaning b.now) unknown (plain_table table.now) verdict.now.answer }
    requires failings { AreFailingsFor (A.meaning a.now) (B.meaning b.now) unknown (plain_table table.now)
        verdict.now.answer verdict.now.failings.items }
    requires none { (verdict.now.failings.items ≡ []) ↔ (verdict.now.answer ≡ Answer.Yes) }
    ensures { IfOk result (λ outcome. IsAnswerJson (A.meaning a.now) (B.meaning b.now) unknown
        (plain_table table.now) verdict.now.answer (string_bytes outcome.text) outcome.exit) }
{
    match verdict.answer {
        Answer::Yes => recorded(alloc, "{\"verdict\":\"yes\"}\n", Exit::Yes),
        Answer::No { kind, pair, reason } => {
            let fails = verdict.failings.as_slice();
            failure_of(alloc, a, b, unknown, table, kind, pair, reason, fails)
        }
    }
}

/// The outcome where the pair at a place is the first that fails this test, for all of these.
fn failure_of<A: Book, B: Book>(
    alloc: Global,
    a: &A,
    b: &B,
    unknown: Unknown,
    table: &Table,
    kind: PairKind,
    pair: usize,
    test: Test,
    fails: &[Failing],
) -> Result<Outcome, AllocError>
    requires within { pair < length (pairs_listed kind (plain_table table.now)) }
    requires are_all { AreFailingsOf (A.meaning a.now) (B.meaning b.now) unknown (plain_table table.now)
        kind pair test fails.now }
    requires not_none { fails.now ≢ [] }
    ensures { IfOk result (λ outcome. IsFailureJson (A.meaning a.now) (B.meaning b.now) unknown
        (plain_table table.now) kind pair test (string_bytes outcome.text) outcome.exit) }
{
    let names = pair_at(table, kind, pair);
    let text = failure_text(alloc, a, b, kind, names, test, fails)?;
    Ok(Outcome {
        text,
        exit: Exit::No,
    })
}
