//! The tests of a table's pairs.
ghost use Rattle.std.specs.Prelude.{◌≡◌, [], IfOk, map, slice_get};
ghost use Rattle.dia_compat.specs.TableText.{plain_table, plain_pair};
ghost use Rattle.dia_compat.specs.Sides.{compared};
ghost use Rattle.dia_compat.specs.PairTests.{all_selected};
ghost use Rattle.dia_compat.specs.FirstFailures.{IsAnswerOf, IsFirstFailed, IsFound, PairTest};
ghost use Rattle.dia_compat.specs.FirstFailures.{failed_command, FailsAvp};
ghost use Rattle.std.specs.Option.{option_map};
ghost use Rattle.dia_compat.specs.PairTests.{entry_named, plain_names};
ghost use Rattle.dia_compat.specs.Failings.{command_failings, pairs_in, AreAvpFailings};
ghost use Rattle.dia_compat.specs.Failings.{AreFailings, AreFailingsAt, AreFailingsIn};

use super::commands::{all_selected, set_of_pairs};
use super::covers::Cover;
use super::failing_heads::name_failings;
use super::failing_pairs::{definition_failings, entry_failings};
use super::named_book::NamedBook;
use super::pair_tests::{failed_avps, failed_commands};
use super::sides::Sides;
use crate::checking::{Answer, PairKind, Test, Verdict};
use crate::reasons::Failing;
use crate::table::Table;
use dia_book::Book;
use indexmap::IndexSet;
use std::alloc::{AllocError, Global};
use std::marker::Model;

/// Two sides and a table, with what the tests of the table's pairs look up.
#[derive(Drop)]
pub(crate) struct Comparison<'a, A: Book, B: Book> {
    a: NamedBook<'a, A>,
    b: NamedBook<'a, B>,
    cover: Cover<'a, A, B>,
    /// Of each command of `a`, whether the table has what may be selected for its messages.
    selected: Vec<bool>,
}

impl<'a, A: Book, B: Book> Model for Comparison<'a, A, B> {
    ghost use Rattle.dia_compat.specs.Sides.{Compared};
    ghost use Rattle.dia_compat.specs.FirstFailures.{IsLookedUp};

    ghost Value = { Compared };

    ghost view = { λ all. all.cover };

    ghost invariant = { λ all. IsLookedUp all.cover all.a all.b all.selected.items };
}

impl<'a, A: Book, B: Book> Comparison<'a, A, B> {
    pub fn new(
        alloc: Global,
        sides: &Sides<'a, A, B>,
        table: &'a Table,
    ) -> Result<Box<Self>, AllocError>
        ensures { IfOk result (λ all. all.value ≡ compared sides.now (plain_table table.now)) }
    {
        let a = NamedBook::new(alloc, sides.first())?;
        let b = NamedBook::new(alloc, sides.second())?;
        let selected = selected_by(alloc, sides, table)?;
        let cover = Cover::new(alloc, sides, &a, &b, table)?;
        let all = Comparison {
            a,
            b,
            cover,
            selected,
        };
        Ok(Box::new(alloc, all)?)
    }

    /// Whether each pair of the table passes each test, and else all that fails the test that the answer names.
    pub fn verdict(&self, alloc: Global) -> Result<Verdict, AllocError>
        ensures answer { IfOk result (λ verdict. IsAnswerOf self.now verdict.answer) }
        ensures failings { IfOk result
            (λ verdict. AreFailingsIn self.now verdict.answer verdict.failings.items) }
    {
        let answer = self.answer(alloc)?;
        let failings = self.failings_in(alloc, answer)?;
        Ok(Verdict { answer, failings })
    }

    /// All that fails the test of the pair that an answer names.
    fn failings_in(&self, alloc: Global, answer: Answer) -> Result<Vec<Failing>, AllocError>
        ensures { IfOk result (λ all. AreFailingsIn self.now answer all.items) }
    {
        match answer {
            Answer::Yes => Ok(Vec::new(alloc)),
            Answer::No { kind, pair, reason } => self.failings(alloc, kind, pair, reason),
        }
    }

    /// Whether each pair of the table passes each test.
    pub fn answer(&self, alloc: Global) -> Result<Answer, AllocError>
        ensures { IfOk result (IsAnswerOf self.now) }
    {
        let table = self.cover.table();
        let commands = self.first_failure(alloc, PairKind::Command, &table.commands)?;
        match commands {
            Some(failure) => Ok(Answer::No {
                kind: PairKind::Command,
                pair: failure.0,
                reason: failure.1,
            }),
            None => {
                let avps = self.first_failure(alloc, PairKind::Avp, &table.avps)?;
                match avps {
                    Some(failure) => Ok(Answer::No {
                        kind: PairKind::Avp,
                        pair: failure.0,
                        reason: failure.1,
                    }),
                    None => Ok(Answer::Yes),
                }
            }
        }
    }

    /// The first pair that fails a test, with its place and the first test that it fails. A pair that repeats an earlier one is
    /// not tested again.
    fn first_failure(
        &self,
        alloc: Global,
        kind: PairKind,
        pairs: &[(String, String)],
    ) -> Result<Option<(usize, Test)>, AllocError>
        ensures { IfOk result (IsFound (PairTest self.now kind) (map plain_pair pairs.now)) }
    {
        let mut seen = IndexSet::new(alloc);
        self.first_among(&mut seen, kind, pairs)
    }

    /// The same. `seen` takes the pairs that were tested.
    fn first_among<'p>(
        &self,
        seen: &mut IndexSet<(&'p str, &'p str)>,
        kind: PairKind,
        pairs: &'p [(String, String)],
    ) -> Result<Option<(usize, Test)>, AllocError>
        requires { seen.old.keys ≡ [] }
        ensures { IfOk result (IsFound (PairTest self.now kind) (map plain_pair pairs.now)) }
    {
        for (place, pair) in pairs.iter().enumerate() {
            let first = pair.0.as_str();
            let second = pair.1.as_str();
            if seen.insert((first, second))? {
                match self.failed(kind, first, second) {
                    Some(test) => return Ok(Some((place, test))),
                    None => {}
                }
            }
        }
        Ok(None)
    }

    /// The first test that a pair fails.
    fn failed(&self, kind: PairKind, first: &str, second: &str) -> Option<Test>
        ensures { IsFirstFailed (PairTest self.now kind (first.now, second.now)) result }
    {
        // Opens it, for what it has looked up.
        let _ = &self.cover;
        match kind {
            PairKind::Command => self.failed_command(first, second),
            PairKind::Avp => self.failed_avp(first, second),
        }
    }

    /// All that fails a test of the pair at a place of the table.
    fn failings(
        &self,
        alloc: Global,
        kind: PairKind,
        pair: usize,
        test: Test,
    ) -> Result<Vec<Failing>, AllocError>
        ensures { IfOk result (λ all. AreFailingsAt self.now kind pair test all.items) }
    {
        match self.names_at(kind, pair) {
            Some(names) => self.failings_of(alloc, kind, names.0, names.1, test),
            None => Ok(Vec::new(alloc)),
        }
    }

    /// The names of the pair at a place of the table.
    fn names_at(&self, kind: PairKind, pair: usize) -> Option<(&str, &str)>
        ensures { option_map plain_names result ≡ slice_get (pairs_in kind self.now) pair }
    {
        let table = self.cover.table();
        match kind {
            PairKind::Command => names_of(&table.commands, pair),
            PairKind::Avp => names_of(&table.avps, pair),
        }
    }

    fn failings_of(
        &self,
        alloc: Global,
        kind: PairKind,
        first: &str,
        second: &str,
        test: Test,
    ) -> Result<Vec<Failing>, AllocError>
        ensures { IfOk result
            (λ all. AreFailings self.now kind test (first.now, second.now) all.items) }
    {
        match kind {
            PairKind::Command => self.command_failings(alloc, first, second, test),
            PairKind::Avp => self.avp_failings(alloc, first, second, test),
        }
    }

    fn command_failings(
        &self,
        alloc: Global,
        first: &str,
        second: &str,
        test: Test,
    ) -> Result<Vec<Failing>, AllocError>
        ensures { IfOk result
            (λ all. all.items ≡ command_failings self.now (first.now, second.now) test) }
    {
        match self.a.command(first) {
            Some(first) => match self.b.command(second) {
                Some(second) => definition_failings(alloc, &self.cover, test, first, second),
                None => name_failings(alloc, test, true, false),
            },
            None => name_failings(alloc, test, false, self.b.command(second).is_some()),
        }
    }

    fn avp_failings(
        &self,
        alloc: Global,
        first: &str,
        second: &str,
        test: Test,
    ) -> Result<Vec<Failing>, AllocError>
        ensures { IfOk result (λ all. AreAvpFailings self.now test
            (entry_named self.now.sides.first first.now)
            (entry_named self.now.sides.second second.now) all.items) }
    {
        match self.a.avp(first) {
            Some(first) => match self.b.avp(second) {
                Some(second) => entry_failings(alloc, &self.cover, test, first, second),
                None => name_failings(alloc, test, true, false),
            },
            None => name_failings(alloc, test, false, self.b.avp(second).is_some()),
        }
    }

    /// The first test that a pair of commands fails.
    fn failed_command(&self, first: &str, second: &str) -> Option<Test>
        ensures { result ≡ failed_command self.now (first.now, second.now) }
    {
        match self.a.command(first) {
            Some(first) => match self.b.command(second) {
                Some(second) => failed_commands(&self.cover, first, second, self.selected[first]),
                None => Some(Test::N10),
            },
            None => Some(Test::N10),
        }
    }

    /// The first test that a pair of AVPs fails.
    fn failed_avp(&self, first: &str, second: &str) -> Option<Test>
        ensures { FailsAvp self.now (first.now, second.now) result }
    {
        match self.a.avp(first) {
            Some(first) => match self.b.avp(second) {
                Some(second) => failed_avps(&self.cover, first, second),
                None => Some(Test::N10),
            },
            None => Some(Test::N10),
        }
    }
}

fn names_of(pairs: &[(String, String)], place: usize) -> Option<(&str, &str)>
    ensures { option_map plain_names result ≡ option_map plain_pair (slice_get pairs.now place) }
{
    match pairs.get(place) {
        Some(pair) => Some((pair.0.as_str(), pair.1.as_str())),
        None => None,
    }
}

/// Of each command of the first, in order, whether the table has what may be selected for its messages.
fn selected_by<A: Book, B: Book>(
    alloc: Global,
    sides: &Sides<'_, A, B>,
    table: &Table,
) -> Result<Vec<bool>, AllocError>
    ensures { IfOk result
        (λ all. all.items ≡ all_selected (compared sides.now (plain_table table.now))) }
{
    let beside = set_of_pairs(alloc, &table.commands)?;
    all_selected(alloc, sides, &beside)
}
