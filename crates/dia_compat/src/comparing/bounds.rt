//! The counts of rules, and the rules that come first.
ghost use Rattle.std.specs.Prelude.{◌≡◌, slice_get, false};
ghost use Rattle.std.specs.Option.{option_map_or};
ghost use Rattle.dia_book.specs.Dictionary.{is_fixed};
ghost use Rattle.dia_compat.specs.Tests.{is_max_within, is_within};
ghost use Rattle.dia_compat.specs.Tests.{is_above_zero, leads, begins_with};

use dia_book::{DRule, RuleKind};

/// Whether all counts up to the one greatest count are up to the other.
pub(super) fn max_within(a: Option<u32>, b: Option<u32>) -> bool
    ensures { result ≡ is_max_within a b }
{
    match (a, b) {
        (_, None) => true,
        (None, Some(_)) => false,
        (Some(a), Some(b)) => a <= b,
    }
}

/// Whether each count that the one rule allows is allowed by the other.
pub(super) fn within(a: &DRule, b: &DRule) -> bool
    ensures { result ≡ is_within a.now b.now }
{
    b.min <= a.min && max_within(a.max, b.max)
}

/// Whether some AVP may occur by the rule.
pub(super) fn may_stand(rule: &DRule) -> bool
    ensures { result ≡ is_above_zero rule.now.max }
{
    rule.max != Some(0)
}

/// Whether the fixed rules of `b` are the first fixed rules of `a`, with the counts of these within theirs.
pub(super) fn fixed_within(a: &[DRule], b: &[DRule]) -> bool
    ensures { result ≡ begins_with a.now b.now }
{
    for (index, rule) in b.iter().enumerate() {
        if !is_fixed(rule) {
            return true;
        }
        if !leads_at(a, index, rule) {
            return false;
        }
    }
    true
}

pub(super) fn is_fixed(rule: &DRule) -> bool
    ensures { result ≡ is_fixed rule.now }
{
    match rule.kind {
        RuleKind::Fixed => true,
        RuleKind::Required | RuleKind::Optional => false,
    }
}

/// Whether the rule at a place is a fixed one of the same key, with counts within.
pub(super) fn leads_at(rules: &[DRule], index: usize, rule: &DRule) -> bool
    ensures { result ≡ option_map_or (λ own. leads own rule.now) (slice_get rules.now index) false }
{
    match rules.get(index) {
        Some(own) => leads(own, rule),
        None => false,
    }
}

fn leads(own: &DRule, rule: &DRule) -> bool
    ensures { result ≡ leads own.now rule.now }
{
    is_fixed(own) && own.key == rule.key && within(own, rule)
}
