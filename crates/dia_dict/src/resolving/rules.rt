//! What a rule can have wrong, and what it means.
ghost use Rattle.std.specs.Prelude.{◌≡◌};
ghost use Rattle.dia_ccf.specs.Plain.{plain_source, plain_rule};
ghost use Rattle.dia_dict.specs.Resolution.{is_bad, is_undefined, is_min_over_max};
ghost use Rattle.dia_dict.specs.Resolution.{is_required_min, is_optional_min};
ghost use Rattle.dia_dict.specs.Resolution.{least, greatest, rule_of};

use super::names::Names;
use crate::fault::DictKind;
use dia_book::DRule;
use dia_ccf::{Qual, Rule, RuleKind};

/// Whether a rule has this fault of a single rule.
pub(super) fn is_bad(names: &Names<'_>, kind: DictKind, rule: &Rule) -> bool
    ensures { result ≡ is_bad kind (plain_source names.now.source.now) (plain_rule rule.now) }
{
    match kind {
        DictKind::UndefinedName => is_undefined(names, rule),
        DictKind::MinOverMax => is_min_over_max(rule),
        DictKind::RequiredMin => is_required_min(rule),
        DictKind::OptionalMin => is_optional_min(rule),
        DictKind::Limit
        | DictKind::DuplicateName
        | DictKind::NoGroupFormat
        | DictKind::HeaderMismatch
        | DictKind::DuplicateKey
        | DictKind::DuplicateCommand
        | DictKind::RepeatedSlot => false,
    }
}

fn is_undefined(names: &Names<'_>, rule: &Rule) -> bool
    ensures { result ≡ is_undefined (plain_source names.now.source.now) (plain_rule rule.now) }
{
    match &rule.name {
        Some(name) => names.key(name).is_none(),
        None => false,
    }
}

fn is_min_over_max(rule: &Rule) -> bool
    ensures { result ≡ is_min_over_max (plain_rule rule.now) }
{
    greatest_count(rule.qual).is_some_and(|max| max < least_count(rule.kind, rule.qual))
}

fn is_required_min(rule: &Rule) -> bool
    ensures { result ≡ is_required_min (plain_rule rule.now) }
{
    match rule.kind {
        RuleKind::Required => least_count(RuleKind::Required, rule.qual) == 0,
        RuleKind::Fixed | RuleKind::Optional => false,
    }
}

fn is_optional_min(rule: &Rule) -> bool
    ensures { result ≡ is_optional_min (plain_rule rule.now) }
{
    match rule.kind {
        RuleKind::Optional => least_count(RuleKind::Optional, rule.qual) > 0,
        RuleKind::Fixed | RuleKind::Required => false,
    }
}

/// The least count. Without a qualifier it is 0 for an optional rule, else 1. A qualifier that names none means 1 for a
/// required rule, else 0.
pub fn least_count(kind: RuleKind, qual: Option<Qual>) -> u32
    ensures { result ≡ least kind qual }
{
    match qual {
        None => match kind {
            RuleKind::Optional => 0,
            RuleKind::Fixed | RuleKind::Required => 1,
        },
        Some(qual) => match kind {
            RuleKind::Required => qual.min.unwrap_or(1),
            RuleKind::Fixed | RuleKind::Optional => qual.min.unwrap_or(0),
        },
    }
}

/// The greatest count: 1 without a qualifier, and no bound where a qualifier names none.
pub fn greatest_count(qual: Option<Qual>) -> Option<u32>
    ensures { result ≡ greatest qual }
{
    match qual {
        None => Some(1),
        Some(qual) => qual.max,
    }
}

/// The rule with its key and its counts.
pub(super) fn rule(names: &Names<'_>, rule: &Rule) -> DRule
    ensures { result ≡ rule_of (plain_source names.now.source.now) (plain_rule rule.now) }
{
    let key = match &rule.name {
        Some(name) => names.key(name),
        None => None,
    };
    DRule {
        kind: rule.kind,
        key,
        min: least_count(rule.kind, rule.qual),
        max: greatest_count(rule.qual),
    }
}
