//! The tests that go over the keys that definitions list.
ghost use Rattle.std.specs.Prelude.{◌≡◌};
ghost use Rattle.std.specs.List.{list_all};
ghost use Rattle.dia_valid.specs.Valid.{has_wildcard};
ghost use Rattle.dia_compat.specs.Tests.{common_rule, let_in_rule};
ghost use Rattle.dia_valid.specs.Rules.{wildcard_of};
ghost use Rattle.dia_compat.specs.Tests.{covered_rule, own_rule, has_room, may_come};
ghost use Rattle.dia_compat.specs.PairTests.{is_covered};

use super::bounds::{max_within, may_stand, within};
use super::covers::Cover;
use super::rules::Rules;
use super::sides::Sides;
use dia_book::{Book, DRule};

/// Whether the counts of each key that both list are within those of `b`.
pub(super) fn common_within<A: Book, B: Book>(a: &Rules<'_, A>, b: &Rules<'_, B>) -> bool
    ensures { result ≡ list_all (common_rule b.now) a.now }
{
    for rule in a.list() {
        if !is_common_within(rule, b) {
            return false;
        }
    }
    true
}

fn is_common_within<B: Book>(rule: &DRule, b: &Rules<'_, B>) -> bool
    ensures { result ≡ common_rule b.now rule.now }
{
    match rule.key {
        Some(key) => match b.rule(key) {
            Some(other) => within(rule, &other),
            None => true,
        },
        None => true,
    }
}

/// Whether each key that may occur under `a` may occur under `b`, by a rule or the wildcard.
pub(super) fn let_in<A: Book, B: Book>(a: &Rules<'_, A>, b: &Rules<'_, B>) -> bool
    ensures { result ≡ list_all (let_in_rule b.now (has_wildcard b.now)) a.now }
{
    let wild = b.has_wildcard();
    for rule in a.list() {
        if !is_let_in(rule, b, wild) {
            return false;
        }
    }
    true
}

pub(super) fn is_let_in<B: Book>(rule: &DRule, b: &Rules<'_, B>, wild: bool) -> bool
    ensures { result ≡ let_in_rule b.now wild rule.now }
{
    match rule.key {
        Some(key) => !may_stand(rule) || b.lists(key) || wild,
        None => true,
    }
}

/// Whether each key that may occur by a rule is covered.
pub(super) fn all_covered<A: Book, B: Book>(a: &Rules<'_, A>, cover: &Cover<'_, A, B>) -> bool
    ensures { result ≡ list_all (covered_rule (is_covered cover.now)) a.now }
{
    for rule in a.list() {
        if !rule_is_covered(rule, cover) {
            return false;
        }
    }
    true
}

pub(super) fn rule_is_covered<A: Book, B: Book>(rule: &DRule, cover: &Cover<'_, A, B>) -> bool
    ensures { result ≡ covered_rule (is_covered cover.now) rule.now }
{
    match rule.key {
        Some(key) => !may_stand(rule) || cover.covers(key),
        None => true,
    }
}

/// Whether each key that `b` alone lists may be absent under `b`, and occur as often as the wildcard of `a` may let it in.
pub(super) fn own_fit<A: Book, B: Book>(
    a: &Rules<'_, A>,
    b: &Rules<'_, B>,
    sides: &Sides<'_, A, B>,
) -> bool
    ensures { result ≡ list_all (own_rule (may_come sides.now) a.now (wildcard_of a.now)) b.now }
{
    let wildcard = a.wildcard();
    for rule in b.list() {
        if !own_fits(a, rule, wildcard, sides) {
            return false;
        }
    }
    true
}

fn own_fits<A: Book, B: Book>(
    a: &Rules<'_, A>,
    rule: &DRule,
    wildcard: Option<DRule>,
    sides: &Sides<'_, A, B>,
) -> bool
    ensures { result ≡ own_rule (may_come sides.now) a.now wildcard rule.now }
{
    match rule.key {
        Some(key) => {
            a.lists(key)
                || (rule.min == 0 && (!sides.may_come(key) || has_room(wildcard, rule.max)))
        }
        None => true,
    }
}

/// Whether all that the wildcard lets in is up to this greatest count.
pub(super) fn has_room(wildcard: Option<DRule>, max: Option<u32>) -> bool
    ensures { result ≡ has_room wildcard max }
{
    match wildcard {
        Some(wildcard) => max_within(wildcard.max, max),
        None => true,
    }
}
