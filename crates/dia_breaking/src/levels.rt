//! How long the levels of a definition of A are at least if they hold an AVP.
ghost use Rattle.std.specs.Prelude.{◌≡◌, ◌<◌, length, not, find};
ghost use Rattle.dia_book.specs.Dictionary.{definitions};
ghost use Rattle.dia_valid.specs.Valid.{is_listed};
ghost use Rattle.dia_valid.specs.Rules.{rules_in};
ghost use Rattle.dia_breaking_levels.specs.LevelTests.{least_filler};
ghost use Rattle.dia_breaking_levels.specs.Levels.{OtherIsShortest};
ghost use Rattle.dia_breaking.specs.LevelCosts.{beside_of};

use crate::books::{lists, wildcard_of};
use dia_book::{Book, DRule, DefId, Key};
use dia_breaking_levels::{Costs, TOO_LONG, length_least};

/// The least lengths of a definition's levels.
#[derive(Clone, Copy)]
pub(crate) struct LevelCost {
    /// The length of a least level.
    pub base: u64,
    /// What a least level with an AVP that comes through the wildcard takes besides that AVP.
    pub beside: u64,
}

impl LevelCost {
    ghost use Rattle.dia_breaking.specs.LevelCosts.{IsCostOf, cost_of, with_listed};

    pub fn new<A: Book, C: Costs>(a: &A, def: DefId, costs: &C) -> Self
        requires { def < length (definitions (A.meaning a.now)) }
        ensures exact { result ≡ cost_of
            (C.listed_length costs.now) (C.other_length costs.now) (C.other_keys costs.now) (rules_in (A.meaning a.now) def) }
        ensures within { OtherIsShortest (C.other_length costs.now) (C.other_keys costs.now) (rules_in (A.meaning a.now) def)
            → IsCostOf (C.listed_length costs.now) (C.other_length costs.now) (rules_in (A.meaning a.now) def) result }
    {
        let base = length_least(a, def, costs);
        let beside = match wildcard_of(a, def) {
            Some(wild) => beside(base, filler_length(a, def, costs), &wild),
            None => TOO_LONG,
        };
        LevelCost { base, beside }
    }

    /// The length of a least level with an AVP of the rule's key that has this length.
    pub fn with_listed(&self, rule: &DRule, length: u64) -> u64
        ensures { result ≡ with_listed self.now rule.now length }
    {
        if rule.max == Some(0) || TOO_LONG <= length {
            TOO_LONG
        } else if 0 < rule.min {
            self.base
        } else {
            self.base.saturating_add(length).min(TOO_LONG)
        }
    }
}

/// What a least level takes besides an AVP that this wildcard lets in. A shortest one that it lets in has the length `filler`; it
/// lets in none where that is `TOO_LONG`.
fn beside(base: u64, filler: u64, wild: &DRule) -> u64
    ensures { result ≡ beside_of base filler wild.now }
{
    if wild.max == Some(0) || TOO_LONG <= base || TOO_LONG <= filler {
        TOO_LONG
    } else if 0 < wild.min {
        base.saturating_sub(filler)
    } else {
        base
    }
}

/// The length of a shortest AVP that no rule lists.
fn filler_length<A: Book, C: Costs>(a: &A, def: DefId, costs: &C) -> u64
    requires { def < length (definitions (A.meaning a.now)) }
    ensures { result ≡ least_filler (C.other_length costs.now) (C.other_keys costs.now) (rules_in (A.meaning a.now) def) }
{
    match filler_key(a, def, costs) {
        Some(key) => costs.other(key),
        None => TOO_LONG,
    }
}

fn filler_key<A: Book, C: Costs>(a: &A, def: DefId, costs: &C) -> Option<Key>
    requires { def < length (definitions (A.meaning a.now)) }
    ensures { result ≡ find (λ key. not (is_listed (rules_in (A.meaning a.now) def) key)) (C.other_keys costs.now) }
{
    costs
        .others()
        .iter()
        .copied()
        .find(|key| !lists(a, def, *key))
}
