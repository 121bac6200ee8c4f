//! Two dictionaries compared by the text of a table of pairs.

ghost use Rattle.std.specs.Prelude.{◌≡◌, ◌≢◌, IfErr, IfOk, IfSome, IsSome, Some, string_bytes};
ghost use Rattle.dia_compat.specs.TableText.{plain_table};
ghost use Rattle.dia_c_calls.specs.Comparisons.{HasCompared, IsCompared, IsComparedBy, IsNoTable, table_problem};
ghost use Rattle.dia_c_calls.specs.Held.{MayBeText, text_in};

use crate::opening::{NOT_TEXT, Problem, Refused};
use crate::outcomes::{AnswerText, answer_text};
use dia_book::Book;
use dia_check::Unknown;
use dia_compat::{Table, TableFault, check_table, parse_table};
use dia_run::{Outcome, recorded_answer};
use std::alloc::Global;

/// What `diacmd compare` answers for two dictionaries and the text of a table.
pub fn compared<A: Book, B: Book>(
    alloc: Global,
    a: &A,
    b: &B,
    unknown: Unknown,
    text: &[u8],
) -> Result<AnswerText, Refused>
    ensures done { IfOk result (λ found. IfSome (text_in (Some found.text.value))
        (λ line. HasCompared (A.meaning a.now) (B.meaning b.now) unknown text.now line found.holds)) }
    ensures is_text { IfOk result (λ found. IsSome (text_in (Some found.text.value)) × ∥ MayBeText (Some found.text.value) ∥₁) }
    ensures problem { IfErr result (λ e. (p : Problem) → e ≡ Refused.Bad p → IsNoTable text.now p) }
{
    let outcome = outcome_of(alloc, a, b, unknown, text)?;
    Ok(answer_text(alloc, outcome)?)
}

/// The line of the answer for the text of a table.
fn outcome_of<A: Book, B: Book>(
    alloc: Global,
    a: &A,
    b: &B,
    unknown: Unknown,
    text: &[u8],
) -> Result<Outcome, Refused>
    ensures done { IfOk result (λ outcome. IsCompared (A.meaning a.now) (B.meaning b.now) unknown
        text.now (string_bytes outcome.text) outcome.exit) }
    ensures problem { IfErr result (λ e. (p : Problem) → e ≡ Refused.Bad p → IsNoTable text.now p) }
{
    let Ok(words) = str::from_utf8(text) else {
        return Err(Refused::Bad(NOT_TEXT));
    };
    match parse_table(alloc, words) {
        Ok(table) => outcome_by(alloc, a, b, unknown, &table),
        Err(fault) => Err(refusal_of(fault)),
    }
}

/// The problem of a fault of a table's text.
fn refusal_of(fault: TableFault) -> Refused
    ensures { (p : Problem) → result ≡ Refused.Bad p → (fault ≢ TableFault.NoMemory) × (p ≡ table_problem fault) }
{
    match fault {
        TableFault::Syntax { line } => Refused::Bad(Problem {
            kind: 1,
            line,
            token: 0,
        }),
        TableFault::Limit { line } => Refused::Bad(Problem {
            kind: 3,
            line,
            token: 0,
        }),
        TableFault::NoMemory => Refused::NoMemory,
    }
}

/// The line of the answer for a table.
fn outcome_by<A: Book, B: Book>(
    alloc: Global,
    a: &A,
    b: &B,
    unknown: Unknown,
    table: &Table,
) -> Result<Outcome, Refused>
    ensures done { IfOk result (λ outcome. IsComparedBy (A.meaning a.now) (B.meaning b.now) unknown
        (plain_table table.now) (string_bytes outcome.text) outcome.exit) }
    ensures no_memory { IfErr result (λ refused. refused ≡ Refused.NoMemory) }
{
    let answer = check_table(alloc, a, b, unknown, table)?;
    let outcome = recorded_answer(alloc, table, answer)?;
    Ok(outcome)
}
