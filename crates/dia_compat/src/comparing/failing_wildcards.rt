//! What fails a test of wildcards, N6 to N9.
ghost use Rattle.std.specs.Prelude.{◌≡◌, IfOk, [], option_and_then, option_to_list, filter_map};
ghost use Rattle.std.specs.Option.{option_map_or};
ghost use Rattle.dia_valid.specs.Valid.{is_listed, has_wildcard};
ghost use Rattle.dia_compat.specs.declared.reasons.Failing.TheVariants.{NoWildcard, LetIn, Stranger, WildcardMost};
ghost use Rattle.dia_compat.specs.Tests.{is_max_within};
ghost use Rattle.dia_compat.specs.PairTests.{stranger_fits};
ghost use Rattle.dia_compat.specs.Failings.{unless, placed_wildcard, fails_most, fails_few};
ghost use Rattle.dia_compat.specs.Failings.{fails_least, fails_strangers, fails_let_in};

use super::bounds::{max_within, may_stand};
use super::covers::{Cover, stranger_fits};
use super::failing_heads::{push_found, push_unless};
use super::failing_rules::{RuleTest, failing_rules, unless};
use super::rules::Rules;
use super::sides::Sides;
use crate::reasons::Failing;
use dia_book::{Book, DRule, Key};
use std::alloc::{AllocError, Global};

/// N6: the wildcard of `a`, where `b` has none.
pub(super) fn failing_wildcard<A: Book, B: Book>(
    alloc: Global,
    a: &Rules<'_, A>,
    b: &Rules<'_, B>,
) -> Result<Vec<Failing>, AllocError>
    ensures { IfOk result
        (λ all. all.items ≡ option_to_list (option_and_then
        (λ v. unless (has_wildcard b.now) (NoWildcard v.0)) (placed_wildcard a.now))) }
{
    let mut all = Vec::new(alloc);
    if let Some(own) = a.placed_wildcard() {
        if !b.has_wildcard() {
            all.push(Failing::NoWildcard { first: own.0 })?;
        }
    }
    Ok(all)
}

/// N7: the rules of `a` and its wildcard, where the wildcard of `b` has a greatest count.
pub(super) fn failing_most<A: Book, B: Book>(
    alloc: Global,
    a: &Rules<'_, A>,
    b: &Rules<'_, B>,
    cover: &Cover<'_, A, B>,
) -> Result<Vec<Failing>, AllocError>
    ensures { IfOk result
        (λ all. all.items ≡ option_map_or (λ w. fails_most a.now b.now w.0 w.1.max)
        (placed_wildcard b.now) []) }
{
    match b.placed_wildcard() {
        Some(wildcard) => fails_most(alloc, a, b, cover, wildcard.0, wildcard.1.max),
        None => Ok(Vec::new(alloc)),
    }
}

fn fails_most<A: Book, B: Book>(
    alloc: Global,
    a: &Rules<'_, A>,
    b: &Rules<'_, B>,
    cover: &Cover<'_, A, B>,
    place: usize,
    max: Option<u32>,
) -> Result<Vec<Failing>, AllocError>
    ensures { IfOk result (λ all. all.items ≡ fails_most a.now b.now place max) }
{
    let Some(max) = max else {
        return Ok(Vec::new(alloc));
    };
    let test = RuleTest::Other { wildcard: place };
    let mut all = failing_rules(alloc, test, a, b, cover)?;
    push_found(&mut all, fails_bound(a.placed_wildcard(), place, max))?;
    Ok(all)
}

fn fails_bound(own: Option<(usize, DRule)>, place: usize, max: u32) -> Option<Failing>
    ensures { result ≡ option_and_then
        (λ v. unless (is_max_within v.1.max (Some max)) (WildcardMost v.0 place)) own }
{
    match own {
        Some(own) => unless(
            max_within(own.1.max, Some(max)),
            Failing::WildcardMost {
                first: own.0,
                second: place,
            },
        ),
        None => None,
    }
}

/// N8: the wildcard of `a` and the rules of `b`, where the wildcard of `b` has a least count.
pub(super) fn failing_least<A: Book, B: Book>(
    alloc: Global,
    a: &Rules<'_, A>,
    b: &Rules<'_, B>,
    cover: &Cover<'_, A, B>,
) -> Result<Vec<Failing>, AllocError>
    ensures { IfOk result
        (λ all. all.items ≡ option_map_or (fails_least a.now b.now) (placed_wildcard b.now) []) }
{
    match b.placed_wildcard() {
        Some(wildcard) => fails_least(alloc, a, b, cover, wildcard),
        None => Ok(Vec::new(alloc)),
    }
}

fn fails_least<A: Book, B: Book>(
    alloc: Global,
    a: &Rules<'_, A>,
    b: &Rules<'_, B>,
    cover: &Cover<'_, A, B>,
    wildcard: (usize, DRule),
) -> Result<Vec<Failing>, AllocError>
    ensures { IfOk result (λ all. all.items ≡ fails_least a.now b.now wildcard) }
{
    let mut all = Vec::new(alloc);
    if wildcard.1.min == 0 {
        return Ok(all);
    }
    push_found(&mut all, fails_few(a.placed_wildcard(), wildcard))?;
    let test = RuleTest::Listed {
        wildcard: wildcard.0,
    };
    let mut listed = failing_rules(alloc, test, a, b, cover)?;
    all.append(&mut listed)?;
    Ok(all)
}

fn fails_few(own: Option<(usize, DRule)>, wildcard: (usize, DRule)) -> Option<Failing>
    ensures { result ≡ fails_few own wildcard }
{
    match own {
        Some(own) => unless(
            wildcard.1.min <= own.1.min,
            Failing::WildcardLeast {
                first: Some(own.0),
                second: wildcard.0,
            },
        ),
        None => Some(Failing::WildcardLeast {
            first: None,
            second: wildcard.0,
        }),
    }
}

/// N9: what the wildcard of `a` lets in and has no pair.
pub(super) fn failing_let_in<A: Book, B: Book>(
    alloc: Global,
    a: &Rules<'_, A>,
    cover: &Cover<'_, A, B>,
) -> Result<Vec<Failing>, AllocError>
    ensures { IfOk result
        (λ all. all.items ≡ option_map_or (fails_let_in cover.now a.now) (placed_wildcard a.now) []) }
{
    match a.placed_wildcard() {
        Some(wildcard) => fails_let_in(alloc, a, cover, wildcard),
        None => Ok(Vec::new(alloc)),
    }
}

fn fails_let_in<A: Book, B: Book>(
    alloc: Global,
    a: &Rules<'_, A>,
    cover: &Cover<'_, A, B>,
    wildcard: (usize, DRule),
) -> Result<Vec<Failing>, AllocError>
    ensures { IfOk result (λ all. all.items ≡ fails_let_in cover.now a.now wildcard) }
{
    if !may_stand(&wildcard.1) {
        return Ok(Vec::new(alloc));
    }
    let mut all = fails_strangers(alloc, cover.sides(), wildcard.0)?;
    let mut known = fails_known(alloc, a, cover.uncovered(), wildcard.0)?;
    all.append(&mut known)?;
    Ok(all)
}

/// The AVPs that the second alone knows and that do harm where the first lets unknown ones in.
fn fails_strangers<A: Book, B: Book>(
    alloc: Global,
    sides: &Sides<'_, A, B>,
    place: usize,
) -> Result<Vec<Failing>, AllocError>
    ensures { IfOk result (λ all. all.items ≡ fails_strangers sides.now place) }
{
    if sides.keeps() {
        strangers(alloc, sides.first(), sides.second(), place)
    } else {
        Ok(Vec::new(alloc))
    }
}

fn strangers<A: Book, B: Book>(
    alloc: Global,
    a: &A,
    b: &B,
    place: usize,
) -> Result<Vec<Failing>, AllocError>
    ensures { IfOk result
        (λ all. all.items ≡ filter_map (λ e. unless (stranger_fits (A.meaning a.now) e)
        (Stranger place e.key)) (B.meaning b.now).entries) }
{
    let mut all = Vec::new(alloc);
    for index in 0..b.entries() {
        let entry = b.entry_at(index);
        let key = b.entry_key(entry);
        let fits = stranger_fits(a, b, entry);
        let failing = Failing::Stranger { first: place, key };
        push_unless(&mut all, fits, failing)?;
    }
    Ok(all)
}

/// The keys that the rules of `a` don't list.
fn fails_known<A: Book>(
    alloc: Global,
    a: &Rules<'_, A>,
    keys: &[Key],
    place: usize,
) -> Result<Vec<Failing>, AllocError>
    ensures { IfOk result
        (λ all. all.items ≡ filter_map (λ key. unless (is_listed a.now key) (LetIn place key)) keys.now) }
{
    let mut all = Vec::new(alloc);
    for key in keys {
        let failing = Failing::LetIn {
            first: place,
            key: *key,
        };
        push_unless(&mut all, a.lists(*key), failing)?;
    }
    Ok(all)
}
