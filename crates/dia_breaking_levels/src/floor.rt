//! The least level of a definition of A that is read by one of B, and the shortest AVPs that its wildcard lets in.
ghost use Rattle.std.specs.Prelude.{◌≡◌, ◌==◌, min, nat_lt, if◌then◌else◌, find, option_and_then, None};
ghost use Rattle.std.specs.Option.{option_map_or};
ghost use Rattle.dia_valid.specs.Valid.{has_wildcard};
ghost use Rattle.dia_valid.specs.Rules.{rules_in, wildcard_of};
ghost use Rattle.dia_breaking_levels.specs.Strangers.{needs};
ghost use Rattle.dia_breaking_levels.specs.LevelTests.{inner_length, cheapest, outer_length};
ghost use Rattle.dia_breaking_levels.specs.LevelTests.{is_outside, base_length, needed_up, too_long};

use crate::costs::Costs;
use crate::lengths::{TOO_LONG, capped, many};
use crate::rules::Rules;
use dia_book::{Book, DRule, Key};

/// What the levels of a definition of A take at least.
#[derive(Clone, Copy)]
pub(crate) struct Floor {
    /// The length of the least level.
    pub base: u64,
    /// The length of a shortest AVP by the wildcard that B's definition lists, and its key.
    pub inner: u64,
    pub first: Option<Key>,
    /// The length of a shortest one among the others that B's definition lists.
    pub second: u64,
    /// The length of a shortest AVP by the wildcard that B's definition doesn't list.
    pub outer: u64,
    /// How many AVPs that B's definition doesn't list the rules ask for, without the wildcard.
    pub needed: u64,
    /// The wildcard.
    pub wild: Option<DRule>,
    /// Whether the definition of B has one.
    pub lets_in: bool,
}

/// What the levels of `a` take at least, and what there is to know of them where they are read by `b`.
pub(crate) fn floor_of<A: Book, B: Book, C: Costs>(
    a: &Rules<'_, A>,
    b: &Rules<'_, B>,
    costs: &C,
) -> Floor
    ensures base { result.base ≡ base_length (C.listed_length costs.now)
        (min result.inner result.outer) (rules_in (A.meaning a.now.book.now) a.now.def) }
    ensures inner { result.inner ≡ cheapest (inner_length (C.other_length costs.now)
        (rules_in (A.meaning a.now.book.now) a.now.def) None)
        (rules_in (B.meaning b.now.book.now) b.now.def) }
    ensures first { result.first ≡ option_and_then (λ r. r.key) (find (λ r. inner_length
        (C.other_length costs.now) (rules_in (A.meaning a.now.book.now) a.now.def) None r
        == result.inner) (rules_in (B.meaning b.now.book.now) b.now.def)) }
    ensures second { result.second ≡ cheapest (inner_length (C.other_length costs.now)
        (rules_in (A.meaning a.now.book.now) a.now.def) result.first)
        (rules_in (B.meaning b.now.book.now) b.now.def) }
    ensures outer { result.outer ≡ outer_length (C.other_length costs.now)
        (C.other_keys costs.now) (rules_in (A.meaning a.now.book.now) a.now.def)
        (rules_in (B.meaning b.now.book.now) b.now.def) }
    ensures needed { result.needed ≡ needed_up (rules_in (B.meaning b.now.book.now) b.now.def)
        (rules_in (A.meaning a.now.book.now) a.now.def) }
    ensures wild { result.wild ≡ wildcard_of (rules_in (A.meaning a.now.book.now) a.now.def) }
    ensures lets_in { result.lets_in ≡ has_wildcard (rules_in (B.meaning b.now.book.now) b.now.def) }
{
    let inner = cheapest(a, b.list(), costs, None);
    let first = first_key(a, b.list(), costs, None, inner);
    let outer = outer_length(a, b, costs);
    Floor {
        base: base_length(costs, inner.min(outer), a.list()),
        inner,
        first,
        second: cheapest(a, b.list(), costs, first),
        outer,
        needed: needed(b, a.list()),
        wild: a.wildcard(),
        lets_in: b.has_wildcard(),
    }
}

/// The key of the first rule whose AVP has this length by the wildcard of `a`, and isn't left out.
fn first_key<A: Book, C: Costs>(
    a: &Rules<'_, A>,
    rules: &[DRule],
    costs: &C,
    except: Option<Key>,
    length: u64,
) -> Option<Key>
    ensures { result ≡ option_and_then (λ r. r.key) (find (λ r. inner_length
        (C.other_length costs.now) (rules_in (A.meaning a.now.book.now) a.now.def) except r == length)
        rules.now) }
{
    match first_rule(a, rules, costs, except, length) {
        Some(rule) => rule.key,
        None => None,
    }
}

fn first_rule<A: Book, C: Costs>(
    a: &Rules<'_, A>,
    rules: &[DRule],
    costs: &C,
    except: Option<Key>,
    length: u64,
) -> Option<DRule>
    ensures { result ≡ find (λ r. inner_length
        (C.other_length costs.now) (rules_in (A.meaning a.now.book.now) a.now.def) except r == length)
        rules.now }
{
    rules
        .iter()
        .copied()
        .find(|rule| inner_length(a, costs, except, rule) == length)
}

/// The same, where a message has room for such an AVP.
pub(crate) fn inner_key<A: Book, C: Costs>(
    a: &Rules<'_, A>,
    rules: &[DRule],
    costs: &C,
    except: Option<Key>,
    length: u64,
) -> Option<Key>
    ensures { result ≡ (if nat_lt length too_long then option_and_then (λ r. r.key) (find (λ r. inner_length
        (C.other_length costs.now) (rules_in (A.meaning a.now.book.now) a.now.def) except r == length) rules.now) else None) }
{
    if length < TOO_LONG {
        first_key(a, rules, costs, except, length)
    } else {
        None
    }
}

/// The length of a shortest AVP of the rule's key by the wildcard of `a`, if it comes there and isn't left out.
fn inner_length<A: Book, C: Costs>(
    a: &Rules<'_, A>,
    costs: &C,
    except: Option<Key>,
    rule: &DRule,
) -> u64
    ensures { result ≡ inner_length (C.other_length costs.now)
        (rules_in (A.meaning a.now.book.now) a.now.def) except rule.now }
{
    match rule.key {
        Some(key) => {
            if a.lists(key) || except == Some(key) {
                TOO_LONG
            } else {
                capped(costs.other(key))
            }
        }
        None => TOO_LONG,
    }
}

fn cheapest<A: Book, C: Costs>(
    a: &Rules<'_, A>,
    rules: &[DRule],
    costs: &C,
    except: Option<Key>,
) -> u64
    ensures { result ≡ cheapest (inner_length (C.other_length costs.now)
        (rules_in (A.meaning a.now.book.now) a.now.def) except) rules.now }
{
    let mut best = TOO_LONG;
    for rule in rules {
        best = best.min(inner_length(a, costs, except, rule));
    }
    best
}

/// The length of a shortest AVP that neither definition lists.
fn outer_length<A: Book, B: Book, C: Costs>(a: &Rules<'_, A>, b: &Rules<'_, B>, costs: &C) -> u64
    ensures { result ≡ outer_length (C.other_length costs.now) (C.other_keys costs.now)
        (rules_in (A.meaning a.now.book.now) a.now.def)
        (rules_in (B.meaning b.now.book.now) b.now.def) }
{
    match first_outside(a, b, costs.others()) {
        Some(key) => costs.other(key),
        None => TOO_LONG,
    }
}

/// The first of the keys that neither definition lists.
pub(crate) fn first_outside<A: Book, B: Book>(
    a: &Rules<'_, A>,
    b: &Rules<'_, B>,
    keys: &[Key],
) -> Option<Key>
    ensures { result ≡ find (is_outside (rules_in (A.meaning a.now.book.now) a.now.def)
        (rules_in (B.meaning b.now.book.now) b.now.def)) keys.now }
{
    keys.iter().copied().find(|key| is_outside(a, b, *key))
}

fn is_outside<A: Book, B: Book>(a: &Rules<'_, A>, b: &Rules<'_, B>, key: Key) -> bool
    ensures { result ≡ is_outside (rules_in (A.meaning a.now.book.now) a.now.def)
        (rules_in (B.meaning b.now.book.now) b.now.def) key }
{
    !a.lists(key) && !b.lists(key)
}

/// The length of a shortest AVP of the rule, where `filler` is that of one by the wildcard.
fn rule_length<C: Costs>(costs: &C, filler: u64, rule: &DRule) -> u64
    ensures { result ≡ option_map_or (C.listed_length costs.now) rule.now.key filler }
{
    match rule.key {
        Some(key) => costs.listed(key),
        None => filler,
    }
}

/// The length of a least level.
pub(crate) fn base_length<C: Costs>(costs: &C, filler: u64, rules: &[DRule]) -> u64
    ensures { result ≡ base_length (C.listed_length costs.now) filler rules.now }
{
    let mut sum: u64 = 0;
    for rule in rules {
        let length = many(u64::from(rule.min), rule_length(costs, filler, rule));
        sum = capped(sum.saturating_add(length));
    }
    sum
}

/// How many AVPs that `b` doesn't list the rule asks for.
fn needs<B: Book>(b: &Rules<'_, B>, rule: &DRule) -> u64
    ensures { result ≡ needs (rules_in (B.meaning b.now.book.now) b.now.def) rule.now }
{
    match rule.key {
        Some(key) => { if b.lists(key) { 0 } else { u64::from(rule.min) } }
        None => 0,
    }
}

fn needed<B: Book>(b: &Rules<'_, B>, rules: &[DRule]) -> u64
    ensures { result ≡ needed_up (rules_in (B.meaning b.now.book.now) b.now.def) rules.now }
{
    let mut sum: u64 = 0;
    for rule in rules {
        sum = sum.saturating_add(needs(b, rule));
    }
    sum
}
