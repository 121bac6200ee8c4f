//! `compare`: whether a table of pairs shows that what is valid under the first dictionary is valid under the second.

ghost use Rattle.std.specs.Prelude.{◌≡◌, IfOk, string_bytes};
ghost use Rattle.dia_compat.specs.TableText.{plain_table, plain_pair};
ghost use Rattle.dia_run.specs.Kinds.{IsOfCompare, Reports};
ghost use Rattle.dia_run.specs.Outcome.{IsCompareOutcome};
ghost use Rattle.dia_run.specs.Pairs.{IsAnswerText, NamesPair, failure_line, test_word};
ghost use Rattle.dia_run.specs.Report.{Answers, HasReport};

use crate::commands::{Outcome, recorded};
use crate::inputs::dictionary::read_dictionary;
use crate::inputs::table::read_table;
use dia_check::Unknown;
use dia_compat::{Answer, PairKind, Table, Test, Verdict, judge_table};
use dia_dict::{Book, IndexedBook};
use dia_io::{Exit, Inputs};
use dia_report::{Answered, BothBooks, Compared, Refused, Report};
use std::alloc::{AllocError, Global};

/// The answer for both dictionaries and the table.
pub fn compare(alloc: Global, unknown: Unknown, inputs: &Inputs) -> Result<Answered, Refused>
    ensures outcome { Answers (IsCompareOutcome unknown inputs.now) result }
    ensures report { IfOk result (HasReport ⟦<IndexedBook as Book>⟧.meaning inputs.now) }
    ensures kind { IfOk result (Reports (IsOfCompare unknown)) }
{
    let first = read_dictionary(alloc, 1, &inputs.first)?;
    let second = read_dictionary(alloc, 2, &inputs.second)?;
    let table = read_table(alloc, &inputs.table)?;
    let verdict = judge_table(alloc, &first.book, &second.book, unknown, &table)?;
    let Outcome { text, exit } = recorded_answer(alloc, &table, verdict.answer)?;
    let Verdict { answer, failings } = verdict;
    let report = Report::Compared(Compared {
        books: BothBooks { first, second },
        table,
        unknown,
        answer,
        failings,
    });
    Ok(Answered { text, exit, report })
}

/// The line of an answer about this table, and how the program ends.
pub fn recorded_answer(alloc: Global, table: &Table, answer: Answer) -> Result<Outcome, AllocError>
    requires { NamesPair (plain_table table.now) answer }
    ensures { IfOk result (λ outcome. IsAnswerText
        (plain_table table.now) answer (string_bytes outcome.text) outcome.exit) }
{
    match answer {
        Answer::Yes => recorded(alloc, "yes\n", Exit::Yes),
        Answer::No { kind, pair, reason } => match kind {
            PairKind::Command => failed(alloc, "command", &table.commands[pair], reason),
            PairKind::Avp => failed(alloc, "avp", &table.avps[pair], reason),
        },
    }
}

/// The outcome where this pair fails this test.
fn failed(
    alloc: Global,
    word: &str,
    pair: &(String, String),
    test: Test,
) -> Result<Outcome, AllocError>
    ensures text { IfOk result
        (λ outcome. string_bytes outcome.text ≡ failure_line word.now (plain_pair pair.now) test) }
    ensures exit { IfOk result (λ outcome. outcome.exit ≡ Exit.No) }
{
    let left = pair.0.as_str();
    let right = pair.1.as_str();
    let test = test_word(test);
    let text = format!(in alloc; "no {word} {left} = {right} {test}\n")?;
    let exit = Exit::No;
    Ok(Outcome { text, exit })
}

/// The word of a test.
pub fn test_word(test: Test) -> &'static str
    ensures { result.now ≡ test_word test }
{
    match test {
        Test::N1 => "N1",
        Test::N2 => "N2",
        Test::N3 => "N3",
        Test::N4 => "N4",
        Test::N5 => "N5",
        Test::N6 => "N6",
        Test::N7 => "N7",
        Test::N8 => "N8",
        Test::N9 => "N9",
        Test::N10 => "N10",
    }
}
