//! Whether a table shows inclusion.
ghost use Rattle.std.specs.Prelude.{◌≡◌, ◌↔◌, [], IfOk};
ghost use Rattle.dia_compat.specs.TableText.{plain_table};
ghost use Rattle.dia_compat.specs.Closed.{IsIncluded, IsTableAnswer};
ghost use Rattle.dia_compat.specs.Failings.{AreFailingsFor};

use crate::comparing::{Comparison, Sides};
use crate::reasons::Failing;
use crate::table::Table;
use dia_book::Book;
use dia_terms::Unknown;
use std::alloc::{AllocError, Global};

/// A test of a pair of definitions; the tenth is of the pair itself.
#[derive(Debug, Clone, Copy, PartialEq, Eq)]
pub enum Test {
    N1,
    N2,
    N3,
    N4,
    N5,
    N6,
    N7,
    N8,
    N9,
    N10,
}

#[derive(Clone, Copy, PartialEq, Eq)]
pub enum PairKind {
    Command,
    Avp,
}

#[derive(Clone, Copy, PartialEq, Eq)]
pub enum Answer {
    Yes,
    No {
        kind: PairKind,
        pair: usize,
        reason: Test,
    },
}

/// What the tests of a table's pairs find.
#[derive(Drop)]
pub struct Verdict {
    pub answer: Answer,
    /// All that fails the test that the answer names, of the pair that it names, in the order of the rules, AVPs and commands
    /// that the test goes over.
    pub failings: Vec<Failing>,
}

/// Whether every pair of the table passes every test, or else which pair is the first that doesn't. Where each does, each message
/// that is valid under the first dictionary, of a command that the table lists, is valid under the second, as a message of a
/// command paired with it.
pub fn check_table<A: Book, B: Book>(
    alloc: Global,
    a: &A,
    b: &B,
    unknown: Unknown,
    table: &Table,
) -> Result<Answer, AllocError>
    ensures answer { IfOk result
        (IsTableAnswer (A.meaning a.now) (B.meaning b.now) unknown (plain_table table.now)) }
    ensures inclusion { IfOk result
        (λ answer. answer ≡ Answer.Yes
        → IsIncluded (A.meaning a.now) (B.meaning b.now) unknown (plain_table table.now)) }
{
    let sides = Sides {
        first: a,
        second: b,
        unknown,
    };
    let comparison = Comparison::new(alloc, &sides, table)?;
    comparison.answer(alloc)
}

/// The answer of `check_table`, with all that fails the test that it names.
pub fn judge_table<A: Book, B: Book>(
    alloc: Global,
    a: &A,
    b: &B,
    unknown: Unknown,
    table: &Table,
) -> Result<Verdict, AllocError>
    ensures answer { IfOk result (λ verdict. IsTableAnswer (A.meaning a.now) (B.meaning b.now)
        unknown (plain_table table.now) verdict.answer) }
    ensures inclusion { IfOk result
        (λ verdict. verdict.answer ≡ Answer.Yes
        → IsIncluded (A.meaning a.now) (B.meaning b.now) unknown (plain_table table.now)) }
    // What the test is about, and what of it fails.
    ensures failings { IfOk result (λ verdict. AreFailingsFor (A.meaning a.now) (B.meaning b.now)
        unknown (plain_table table.now) verdict.answer verdict.failings.items) }
    // There are some exactly where a pair fails a test.
    ensures none { IfOk result
        (λ verdict. (verdict.failings.items ≡ []) ↔ (verdict.answer ≡ Answer.Yes)) }
{
    let sides = Sides {
        first: a,
        second: b,
        unknown,
    };
    let comparison = Comparison::new(alloc, &sides, table)?;
    comparison.verdict(alloc)
}
