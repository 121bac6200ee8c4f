//! The tests of wildcards.
ghost use Rattle.std.specs.Prelude.{◌≡◌, ◌&&◌, ◌||◌, not, true, false, nat_le};
ghost use Rattle.std.specs.List.{list_all};
ghost use Rattle.std.specs.Option.{option_map_or};
ghost use Rattle.dia_valid.specs.Valid.{is_listed, has_wildcard};
ghost use Rattle.dia_compat.specs.Tests.{is_above_zero, listed_rule};
ghost use Rattle.dia_valid.specs.Rules.{wildcard_of};
ghost use Rattle.dia_compat.specs.Tests.{bounded_wildcard, required_wildcard, of_key};

use super::bounds::may_stand;
use super::keys::has_room;
use super::rules::Rules;
use dia_book::{Book, DRule, Key};

/// Whether `b` has a wildcard where `a` has one.
pub(super) fn wildcard_kept<A: Book, B: Book>(a: &Rules<'_, A>, b: &Rules<'_, B>) -> bool
    ensures { result ≡ (not (has_wildcard a.now) || has_wildcard b.now) }
{
    !a.has_wildcard() || b.has_wildcard()
}

/// Whether the greatest count of the wildcard of `b` can't be exceeded.
pub(super) fn max_kept<A: Book, B: Book>(a: &Rules<'_, A>, b: &Rules<'_, B>) -> bool
    ensures { result ≡ option_map_or (λ w. bounded_wildcard a.now b.now w.max)
        (wildcard_of b.now) true }
{
    match b.wildcard() {
        Some(wildcard) => is_bounded(a, b, wildcard.max),
        None => true,
    }
}

fn is_bounded<A: Book, B: Book>(a: &Rules<'_, A>, b: &Rules<'_, B>, max: Option<u32>) -> bool
    ensures { result ≡ bounded_wildcard a.now b.now max }
{
    match max {
        Some(max) => all_listed(a, b) && has_room(a.wildcard(), Some(max)),
        None => true,
    }
}

/// Whether each key that may occur by a rule of `a` is listed in `b`.
fn all_listed<A: Book, B: Book>(a: &Rules<'_, A>, b: &Rules<'_, B>) -> bool
    ensures { result ≡ list_all (listed_rule b.now) a.now }
{
    for rule in a.list() {
        if !is_listed(rule, b) {
            return false;
        }
    }
    true
}

pub(super) fn is_listed<B: Book>(rule: &DRule, b: &Rules<'_, B>) -> bool
    ensures { result ≡ listed_rule b.now rule.now }
{
    match rule.key {
        Some(key) => !may_stand(rule) || b.lists(key),
        None => true,
    }
}

/// Whether the least count of the wildcard of `b` is met.
pub(super) fn min_kept<A: Book, B: Book>(a: &Rules<'_, A>, b: &Rules<'_, B>) -> bool
    ensures { result ≡ option_map_or (λ w. required_wildcard a.now b.now w.min)
        (wildcard_of b.now) true }
{
    match b.wildcard() {
        Some(wildcard) => is_required(a, b, wildcard.min),
        None => true,
    }
}

fn is_required<A: Book, B: Book>(a: &Rules<'_, A>, b: &Rules<'_, B>, min: u32) -> bool
    ensures { result ≡ required_wildcard a.now b.now min }
{
    min == 0 || (requires_as_many(a.wildcard(), min) && lists_all(a, b))
}

fn requires_as_many(wildcard: Option<DRule>, min: u32) -> bool
    ensures { result ≡ option_map_or (λ v. nat_le min v.min) wildcard false }
{
    match wildcard {
        Some(wildcard) => min <= wildcard.min,
        None => false,
    }
}

/// Whether `a` lists each key that `b` lists.
fn lists_all<A: Book, B: Book>(a: &Rules<'_, A>, b: &Rules<'_, B>) -> bool
    ensures { result ≡ list_all (of_key (is_listed a.now)) b.now }
{
    for rule in b.list() {
        if !lists(a, rule) {
            return false;
        }
    }
    true
}

pub(super) fn lists<A: Book>(a: &Rules<'_, A>, rule: &DRule) -> bool
    ensures { result ≡ of_key (is_listed a.now) rule.now }
{
    match rule.key {
        Some(key) => a.lists(key),
        None => true,
    }
}

/// Whether what the wildcard of `a` lets in is covered. `uncovered` are the known keys that are not, and `fit` says that unknown
/// ones do no harm. At most one key more than `a` lists is looked at.
pub(super) fn wildcard_covered<A: Book>(a: &Rules<'_, A>, uncovered: &[Key], fit: bool) -> bool
    ensures { result ≡ option_map_or (λ v. not (is_above_zero v.max) ||
        (fit && list_all (is_listed a.now) uncovered.now)) (wildcard_of a.now) true }
{
    match a.wildcard() {
        Some(wildcard) => !may_stand(&wildcard) || (fit && lists_keys(a, uncovered)),
        None => true,
    }
}

fn lists_keys<A: Book>(a: &Rules<'_, A>, keys: &[Key]) -> bool
    ensures { result ≡ list_all (is_listed a.now) keys.now }
{
    for key in keys {
        if !a.lists(*key) {
            return false;
        }
    }
    true
}
