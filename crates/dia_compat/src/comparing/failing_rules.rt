//! The rules that fail a test that goes over the rules of a definition.
ghost use Rattle.std.specs.Prelude.{◌≡◌, IfOk};
ghost use Rattle.dia_compat.specs.Failings.{among, unless, fails_fixed, fails_counts};
ghost use Rattle.dia_compat.specs.Failings.{fails_own, fails_own_key, fails_crowded};
ghost use Rattle.dia_compat.specs.FailingRules.{asked_rules, fails_rule};

use super::bounds::{is_fixed, leads_at, max_within, within};
use super::covers::Cover;
use super::failing_heads::push_found;
use super::keys::{is_let_in, rule_is_covered};
use super::rules::Rules;
use super::sides::Sides;
use super::wildcards::{is_listed, lists};
use crate::reasons::Failing;
use dia_book::{Book, DRule, Key};
use std::alloc::{AllocError, Global};

/// What each of some rules is asked. `a` and `b` are the definitions of the first and of the second dictionary.
#[derive(Clone, Copy)]
pub(super) enum RuleTest {
    /// N1: whether at the place of a fixed rule of `b` a rule of `a` leads it.
    Fixed,
    /// N2: whether the counts of a rule of `a` are within those of the same key in `b`.
    Counts,
    /// N3: whether `b` lists the key of a rule of `a` that may occur, or accepts it by a wildcard.
    Unlisted { wild: bool },
    /// N4: whether the key of a rule of `a` that may occur is covered.
    Uncovered,
    /// N5: whether of the key of a rule of `b` that `a` doesn't list enough and not too many come by the wildcard of `a`.
    Own { wildcard: Option<(usize, DRule)> },
    /// N7: whether `b` lists the key of a rule of `a` that may occur. The wildcard of `b`, at this place, counts it otherwise.
    Other { wildcard: usize },
    /// N8: whether `a` lists the key of a rule of `b`. The wildcard of `b`, at this place, doesn't count it otherwise.
    Listed { wildcard: usize },
}

impl RuleTest {
    /// The rules that are asked.
    fn asked<'r>(self, a: &'r [DRule], b: &'r [DRule]) -> &'r [DRule]
        ensures { result.now ≡ asked_rules self a.now b.now }
    {
        match self {
            RuleTest::Fixed => b,
            RuleTest::Counts => a,
            RuleTest::Unlisted { .. } => a,
            RuleTest::Uncovered => a,
            RuleTest::Own { .. } => b,
            RuleTest::Other { .. } => a,
            RuleTest::Listed { .. } => b,
        }
    }
}

/// The rules that fail a test, in their order.
pub(super) fn failing_rules<A: Book, B: Book>(
    alloc: Global,
    test: RuleTest,
    a: &Rules<'_, A>,
    b: &Rules<'_, B>,
    cover: &Cover<'_, A, B>,
) -> Result<Vec<Failing>, AllocError>
    ensures { IfOk result (λ all. all.items ≡
        among (fails_rule cover.now test a.now b.now) (asked_rules test a.now b.now)) }
{
    let mut all = Vec::new(alloc);
    for (index, rule) in test.asked(a.list(), b.list()).iter().enumerate() {
        push_found(&mut all, fails_rule(test, a, b, cover, index, rule))?;
    }
    Ok(all)
}

/// What a rule at a place fails.
fn fails_rule<A: Book, B: Book>(
    test: RuleTest,
    a: &Rules<'_, A>,
    b: &Rules<'_, B>,
    cover: &Cover<'_, A, B>,
    index: usize,
    rule: &DRule,
) -> Option<Failing>
    ensures { result ≡ fails_rule cover.now test a.now b.now (index, rule.now) }
{
    match test {
        RuleTest::Fixed => fails_fixed(a, index, rule),
        RuleTest::Counts => fails_counts(b, index, rule),
        RuleTest::Unlisted { wild } => unless(
            is_let_in(rule, b, wild),
            Failing::Unlisted { first: index },
        ),
        RuleTest::Uncovered => unless(
            rule_is_covered(rule, cover),
            Failing::Uncovered { first: index },
        ),
        RuleTest::Own { wildcard } => fails_own(cover.sides(), a, wildcard, index, rule),
        RuleTest::Other { wildcard } => unless(
            is_listed(rule, b),
            Failing::CountsAsOther {
                first: index,
                wildcard,
            },
        ),
        RuleTest::Listed { wildcard } => unless(
            lists(a, rule),
            Failing::NotCounted {
                second: index,
                wildcard,
            },
        ),
    }
}

/// A failing, unless the test is passed.
pub(super) fn unless(passed: bool, failing: Failing) -> Option<Failing>
    ensures { result ≡ unless passed failing }
{
    if passed { None } else { Some(failing) }
}

fn fails_fixed<A: Book>(a: &Rules<'_, A>, index: usize, rule: &DRule) -> Option<Failing>
    ensures { result ≡ fails_fixed a.now (index, rule.now) }
{
    let first = match rule.key {
        Some(key) => a.place(key),
        None => None,
    };
    unless(
        !is_fixed(rule) || leads_at(a.list(), index, rule),
        Failing::Fixed {
            first,
            second: index,
        },
    )
}

fn fails_counts<B: Book>(b: &Rules<'_, B>, index: usize, rule: &DRule) -> Option<Failing>
    ensures { result ≡ fails_counts b.now (index, rule.now) }
{
    match rule.key {
        Some(key) => match b.placed(key) {
            Some(other) => unless(
                within(rule, &other.1),
                Failing::Counts {
                    first: index,
                    second: other.0,
                },
            ),
            None => None,
        },
        None => None,
    }
}

fn fails_own<A: Book, B: Book>(
    sides: &Sides<'_, A, B>,
    a: &Rules<'_, A>,
    wildcard: Option<(usize, DRule)>,
    index: usize,
    rule: &DRule,
) -> Option<Failing>
    ensures { result ≡ fails_own sides.now a.now wildcard (index, rule.now) }
{
    match rule.key {
        Some(key) => fails_own_key(sides, a, wildcard, index, rule, key),
        None => None,
    }
}

fn fails_own_key<A: Book, B: Book>(
    sides: &Sides<'_, A, B>,
    a: &Rules<'_, A>,
    wildcard: Option<(usize, DRule)>,
    index: usize,
    rule: &DRule,
    key: Key,
) -> Option<Failing>
    ensures { result ≡ fails_own_key sides.now a.now wildcard (index, rule.now) key }
{
    if a.lists(key) {
        None
    } else if rule.min == 0 {
        fails_crowded(sides.may_come(key), wildcard, index, rule)
    } else {
        Some(Failing::Required { second: index })
    }
}

/// Whether a wildcard that may bring a key brings more than the rule of the key allows.
fn fails_crowded(
    comes: bool,
    wildcard: Option<(usize, DRule)>,
    index: usize,
    rule: &DRule,
) -> Option<Failing>
    ensures { result ≡ fails_crowded comes wildcard (index, rule.now) }
{
    match wildcard {
        Some(own) => unless(
            !comes || max_within(own.1.max, rule.max),
            Failing::Crowded {
                first: own.0,
                second: index,
            },
        ),
        None => None,
    }
}
