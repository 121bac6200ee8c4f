//! What the rules of a definition say of each of its levels.
ghost use Rattle.std.specs.Prelude.{◌≡◌, ◌≤◌, IfOk, filter, length, not, position};
ghost use Rattle.std.specs.Prelude.{is_some};
ghost use Rattle.dia_book.specs.Rules.{is_fixed};
ghost use Rattle.dia_book.specs.Shapes.{AreFirstWanted, IsFirstWanted, IsShape};

use crate::definition::DRule;
use dia_terms::RuleKind;
use std::alloc::{AllocError, Global};

/// What the rules of a definition say of each of its levels. Rules are given by their places.
#[derive(Drop)]
pub struct Shape {
    /// How many rules are fixed.
    pub fixed: usize,
    /// The wildcard's place.
    pub wildcard: Option<usize>,
    /// For each place the first rule from there on that has a least count, and the number of rules where none has.
    wanted: Vec<usize>,
}

impl Shape {
    /// The shape of these rules. The error comes only where memory was refused.
    pub(crate) fn of(alloc: Global, rules: &[DRule]) -> Result<Self, AllocError>
        ensures { IfOk result (IsShape rules.now) }
    {
        Ok(Shape {
            fixed: fixed_count(rules),
            wildcard: wildcard_place(rules),
            wanted: wanted_places(alloc, rules)?,
        })
    }

    /// The first rule from a place on that has a least count; the number of rules where none has.
    #[inline(always)]
    pub fn first_wanted(&self, rules: &[DRule], from: usize) -> usize
        requires shape { IsShape rules.now self.now }
        requires within { from ≤ length rules.now }
        ensures { IsFirstWanted rules.now from result }
    {
        match self.wanted.get(from) {
            Some(place) => *place,
            None => from,
        }
    }
}

/// A copy says the same.
impl Clone for Shape {
    ghost use Rattle.std.specs.Prelude.{◌≡◌};
    ghost use Rattle.dia_book.specs.Shapes.{IsSameShape};

    ghost is_clone = { λ old new. IsSameShape old new };

    fn clone(&self) -> Result<Shape, AllocError> {
        Ok(Shape {
            fixed: self.fixed,
            wildcard: self.wildcard,
            wanted: self.wanted.clone()?,
        })
    }
}

fn fixed_count(rules: &[DRule]) -> usize
    ensures { result ≡ length (filter is_fixed rules.now) }
{
    rules.iter().filter(|rule| is_fixed(rule)).count()
}

fn is_fixed(rule: &DRule) -> bool
    ensures { result ≡ is_fixed rule.now }
{
    rule.kind == RuleKind::Fixed
}

/// The place of the wildcard's rule.
fn wildcard_place(rules: &[DRule]) -> Option<usize>
    ensures { result ≡ position (λ rule. not (is_some rule.key)) rules.now }
{
    rules.iter().position(|rule| rule.key.is_none())
}

/// For each place the first rule from there on that has a least count.
fn wanted_places(alloc: Global, rules: &[DRule]) -> Result<Vec<usize>, AllocError>
    ensures { IfOk result (λ wanted. AreFirstWanted rules.now wanted.items) }
{
    let mut wanted = Vec::with_capacity(alloc, rules.len())?;
    let mut next = first_wanted(rules, 0);
    for from in 0..rules.len() {
        next = wanted_from(rules, from, next);
        wanted.push(next)?;
    }
    Ok(wanted)
}

/// The first from a place on; or the one that is known, if it is there.
fn wanted_from(rules: &[DRule], from: usize, before: usize) -> usize
    requires within { from ≤ length rules.now }
    requires before { from ≤ before → IsFirstWanted rules.now from before }
    ensures { IsFirstWanted rules.now from result }
{
    if before < from {
        first_wanted(rules, from)
    } else {
        before
    }
}

fn first_wanted(rules: &[DRule], from: usize) -> usize
    requires { from ≤ length rules.now }
    ensures { IsFirstWanted rules.now from result }
{
    for place in from..rules.len() {
        if rules[place].min > 0 {
            return place;
        }
    }
    rules.len()
}
