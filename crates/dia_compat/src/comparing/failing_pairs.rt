//! What fails a test of a pair of definitions, by their places.
ghost use Rattle.std.specs.Prelude.{◌≡◌, ◌<◌, IfOk, IfSome, Some, length};
ghost use Rattle.dia_book.specs.Dictionary.{definitions};
ghost use Rattle.dia_compat.specs.Failings.{place_failings, group_failings};
ghost use Rattle.dia_compat.specs.Failings.{rule_failings, AreEntryFailings};

use super::covers::Cover;
use super::failing_heads::{declaration_failings, head_failings, is_tenth};
use super::failing_rules::{RuleTest, failing_rules};
use super::failing_wildcards::{failing_least, failing_let_in, failing_most, failing_wildcard};
use super::rules::Rules;
use crate::checking::Test;
use crate::reasons::Failing;
use dia_book::{Book, DefId, Entry};
use std::alloc::{AllocError, Global};

/// Of two commands.
pub(super) fn definition_failings<A: Book, B: Book>(
    alloc: Global,
    cover: &Cover<'_, A, B>,
    test: Test,
    first: usize,
    second: usize,
) -> Result<Vec<Failing>, AllocError>
    requires first { first < length cover.now.sides.first.commands }
    requires second { second < length cover.now.sides.second.commands }
    ensures { IfOk result
        (λ all. all.items ≡ place_failings cover.now test (Some first) (Some second)) }
{
    let sides = cover.sides();
    let a = sides.first();
    let b = sides.second();
    let first = a.command_at(first);
    let second = b.command_at(second);
    if is_tenth(test) {
        head_failings(alloc, cover, a.def(first), b.def(second))
    } else {
        let a = sides.first_rules(first);
        let b = sides.second_rules(second);
        rule_failings(alloc, test, &a, &b, cover)
    }
}

/// Of two AVPs.
pub(super) fn entry_failings<A: Book, B: Book>(
    alloc: Global,
    cover: &Cover<'_, A, B>,
    test: Test,
    first: Entry,
    second: Entry,
) -> Result<Vec<Failing>, AllocError>
    requires first { first < length cover.now.sides.first.entries }
    requires second { second < length cover.now.sides.second.entries }
    ensures { IfOk result (λ all. AreEntryFailings cover.now test first second all.items) }
{
    let a = cover.sides().first();
    let b = cover.sides().second();
    if is_tenth(test) {
        declaration_failings(alloc, a, b, first, second)
    } else {
        group_failings(alloc, test, cover, a.group(first), b.group(second))
    }
}

/// Of the definitions of two AVPs, where both are Grouped.
fn group_failings<A: Book, B: Book>(
    alloc: Global,
    test: Test,
    cover: &Cover<'_, A, B>,
    first: Option<DefId>,
    second: Option<DefId>,
) -> Result<Vec<Failing>, AllocError>
    requires first { IfSome first (λ x. x < length (definitions cover.now.sides.first)) }
    requires second { IfSome second (λ y. y < length (definitions cover.now.sides.second)) }
    ensures { IfOk result (λ all. all.items ≡ group_failings cover.now test first second) }
{
    let sides = cover.sides();
    match first {
        Some(first) => match second {
            Some(second) => {
                let a = sides.first_rules(first);
                let b = sides.second_rules(second);
                rule_failings(alloc, test, &a, &b, cover)
            }
            None => Ok(Vec::new(alloc)),
        },
        None => Ok(Vec::new(alloc)),
    }
}

/// Of the rules of two definitions.
fn rule_failings<A: Book, B: Book>(
    alloc: Global,
    test: Test,
    a: &Rules<'_, A>,
    b: &Rules<'_, B>,
    cover: &Cover<'_, A, B>,
) -> Result<Vec<Failing>, AllocError>
    ensures { IfOk result (λ all. all.items ≡ rule_failings cover.now test a.now b.now) }
{
    match test {
        Test::N1 => failing_rules(alloc, RuleTest::Fixed, a, b, cover),
        Test::N2 => failing_rules(alloc, RuleTest::Counts, a, b, cover),
        Test::N3 => {
            let wild = b.has_wildcard();
            failing_rules(alloc, RuleTest::Unlisted { wild }, a, b, cover)
        }
        Test::N4 => failing_rules(alloc, RuleTest::Uncovered, a, b, cover),
        Test::N5 => {
            let wildcard = a.placed_wildcard();
            failing_rules(alloc, RuleTest::Own { wildcard }, a, b, cover)
        }
        Test::N6 => failing_wildcard(alloc, a, b),
        Test::N7 => failing_most(alloc, a, b, cover),
        Test::N8 => failing_least(alloc, a, b, cover),
        Test::N9 => failing_let_in(alloc, a, cover),
        Test::N10 => Ok(Vec::new(alloc)),
    }
}
