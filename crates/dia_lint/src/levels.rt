//! How long the levels of a definition are at least.
ghost use Rattle.std.specs.Prelude.{◌≡◌, ◌<◌, nat_le, length, find, not};
ghost use Rattle.dia_book.specs.Dictionary.{definitions};
ghost use Rattle.dia_breaking_levels.specs.LevelTests.{least_filler, too_long};
ghost use Rattle.dia_breaking_shortest.specs.Lengths.{entry_length};
ghost use Rattle.dia_lint.specs.Costs.{level_of};
ghost use Rattle.dia_lint.specs.Ways.{beside_of, cost_of, other_in, side_of, with_listed, with_rule};
ghost use Rattle.dia_valid.specs.Rules.{rules_in};
ghost use Rattle.dia_valid.specs.Valid.{is_listed};

use crate::books::{lists, rules_of};
use crate::costs::Lengths;
use crate::definitions::wildcard_of;
use dia_book::{Book, DRule, DefId, Entry, Key};
use dia_breaking_levels::{Costs, TOO_LONG, length_least};

/// The least lengths of a definition's levels, in bytes. `TOO_LONG` means that no message has room.
#[derive(Clone, Copy)]
pub(crate) struct LevelCost {
    /// The length of a least level.
    pub base: u64,
    /// The length of a shortest AVP that no rule lists.
    pub filler: u64,
    /// What a least level with an AVP that comes through the wildcard takes besides that AVP.
    pub beside: u64,
}

impl LevelCost {
    pub fn of<B: Book>(lengths: &Lengths<'_, B>, def: DefId) -> Self
        requires { def < length (definitions (B.meaning lengths.now.book.now)) }
        ensures base { result.base ≡ level_of (B.meaning lengths.now.book.now) lengths.now.least.sends
            lengths.now.least.lengths.items lengths.now.others.items def }
        ensures exact { result ≡ cost_of (side_of B.meaning lengths.now) (rules_in (B.meaning lengths.now.book.now) def) }
    {
        let base = length_least(lengths.book, def, lengths);
        let filler = filler_length(lengths, def);
        let beside = match wildcard_of(rules_of(lengths.book, def)) {
            Some(wild) => beside(base, filler, &wild),
            None => TOO_LONG,
        };
        LevelCost {
            base,
            filler,
            beside,
        }
    }

    /// The length of a least level with an AVP of the rule: `length` is that of a shortest one of its key.
    pub fn with(&self, rule: &DRule, length: u64) -> u64
        ensures { result ≡ with_rule self.now rule.now length }
    {
        match rule.key {
            Some(_) => self.with_listed(rule, length),
            None => self.beside.saturating_add(self.filler).min(TOO_LONG),
        }
    }

    /// The same with an AVP that the rule lists.
    pub fn with_listed(&self, rule: &DRule, length: u64) -> u64
        ensures { result ≡ with_listed self.now rule.now length }
    {
        if rule.max == Some(0) || TOO_LONG <= length {
            TOO_LONG
        } else if 0 < rule.min {
            self.base
        } else {
            self.base.saturating_add(length).min(TOO_LONG)
        }
    }
}

/// What a least level takes besides an AVP that this wildcard lets in. A shortest one that it lets in has the length `filler`.
fn beside(base: u64, filler: u64, wild: &DRule) -> u64
    ensures { result ≡ beside_of base filler wild.now }
{
    if wild.max == Some(0) || TOO_LONG <= base {
        TOO_LONG
    } else if 0 < wild.min {
        base.saturating_sub(filler)
    } else {
        base
    }
}

/// The length of a shortest AVP that no rule of the definition lists.
fn filler_length<B: Book>(lengths: &Lengths<'_, B>, def: DefId) -> u64
    requires { def < length (definitions (B.meaning lengths.now.book.now)) }
    ensures { result ≡ least_filler (other_in (side_of B.meaning lengths.now)) lengths.now.others.items
        (rules_in (B.meaning lengths.now.book.now) def) }
{
    match filler_key(lengths, def) {
        Some(key) => lengths.other(key),
        None => TOO_LONG,
    }
}

fn filler_key<B: Book>(lengths: &Lengths<'_, B>, def: DefId) -> Option<Key>
    requires { def < length (definitions (B.meaning lengths.now.book.now)) }
    ensures { result ≡ find (λ key. not (is_listed (rules_in (B.meaning lengths.now.book.now) def) key)) lengths.now.others.items }
{
    lengths
        .others()
        .iter()
        .copied()
        .find(|key| !lists(lengths.book, def, *key))
}

/// Whether no AVP of the group fits.
pub(crate) fn has_no_level<B: Book>(lengths: &Lengths<'_, B>, entry: Entry) -> bool
    ensures { result ≡ nat_le too_long (entry_length lengths.now.least.lengths.items entry) }
{
    lengths.least.entry(entry) >= TOO_LONG
}
