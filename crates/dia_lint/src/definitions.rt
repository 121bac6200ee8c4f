//! What the rules of a definition say of an AVP (RFC 6733 section 3.2).

ghost use Rattle.std.specs.Prelude.{◌≡◌, position};
ghost use Rattle.dia_book.specs.Dictionary.{is_fixed, lists_key};
ghost use Rattle.dia_valid.specs.Rules.{rule_of, wildcard_of};
ghost use Rattle.dia_valid.specs.Valid.{is_wildcard};
ghost use Rattle.dia_lint.specs.BaseAvps.{base_key};
ghost use Rattle.dia_lint.specs.Guidelines.{comes_first, counting_rule, is_required, lets_in, lists};
ghost use Rattle.dia_lint.specs.Guidelines.{rule_or_head, takes, takes_any_number, wildcard_or_head};

use crate::base_avps::BaseAvp;
use crate::finding::Place;
use dia_book::{DRule, DefId, Key, RuleKind};

/// Whether the rule is of this key.
fn is_of(rule: &DRule, key: Key) -> bool
    ensures { result ≡ lists_key key rule.now }
{
    rule.key == Some(key)
}

/// The place of the key's rule.
fn place_of(rules: &[DRule], key: Key) -> Option<usize>
    ensures { result ≡ position (lists_key key) rules.now }
{
    rules.iter().position(|rule| is_of(rule, key))
}

/// The key's rule.
fn rule_of(rules: &[DRule], key: Key) -> Option<DRule>
    ensures { result ≡ rule_of rules.now key }
{
    rules.iter().copied().find(|rule| is_of(rule, key))
}

/// The rule of the keys that no rule lists.
pub(crate) fn wildcard_of(rules: &[DRule]) -> Option<DRule>
    ensures { result ≡ wildcard_of rules.now }
{
    rules.iter().copied().find(|rule| rule.key.is_none())
}

fn wildcard_place(rules: &[DRule]) -> Option<usize>
    ensures { result ≡ position is_wildcard rules.now }
{
    rules.iter().position(|rule| rule.key.is_none())
}

/// Whether the rule lets AVPs in.
pub(crate) fn lets_in(rule: &DRule) -> bool
    ensures { result ≡ lets_in rule.now }
{
    !(rule.max == Some(0))
}

/// Whether a rule lets the AVP in.
pub(crate) fn lists(rules: &[DRule], avp: BaseAvp) -> bool
    ensures { result ≡ lists rules.now avp }
{
    match rule_of(rules, avp.key()) {
        Some(rule) => lets_in(&rule),
        None => false,
    }
}

/// Whether each level has the AVP.
pub(crate) fn is_required(rules: &[DRule], avp: BaseAvp) -> bool
    ensures { result ≡ is_required rules.now avp }
{
    match rule_of(rules, avp.key()) {
        Some(rule) => 0 < rule.min,
        None => false,
    }
}

/// The rule that counts the AVP: its own, else the wildcard.
fn counting_rule(rules: &[DRule], avp: BaseAvp) -> Option<DRule>
    ensures { result ≡ counting_rule rules.now avp }
{
    match rule_of(rules, avp.key()) {
        Some(rule) => Some(rule),
        None => wildcard_of(rules),
    }
}

/// Whether a level may have the AVP, by its rule or else by the wildcard.
pub(crate) fn takes(rules: &[DRule], avp: BaseAvp) -> bool
    ensures { result ≡ takes rules.now avp }
{
    match counting_rule(rules, avp) {
        Some(rule) => lets_in(&rule),
        None => false,
    }
}

/// Whether a level may have the AVP any number of times, by its rule or else by the wildcard.
pub(crate) fn takes_any_number(rules: &[DRule], avp: BaseAvp) -> bool
    ensures { result ≡ takes_any_number rules.now avp }
{
    match counting_rule(rules, avp) {
        Some(rule) => !rule.max.is_some(),
        None => false,
    }
}

/// Whether the AVP's rule is fixed and the first.
pub(crate) fn comes_first(rules: &[DRule], avp: BaseAvp) -> bool
    ensures { result ≡ comes_first rules.now avp }
{
    match rules.get(0) {
        Some(rule) => is_fixed(rule) && is_of(rule, avp.key()),
        None => false,
    }
}

pub(crate) fn is_fixed(rule: &DRule) -> bool
    ensures { result ≡ is_fixed rule.now }
{
    rule.kind == RuleKind::Fixed
}

/// The place of the AVP's rule, or that of the head.
pub(crate) fn rule_or_head(def: DefId, rules: &[DRule], avp: BaseAvp) -> Place
    ensures { result ≡ rule_or_head def rules.now avp }
{
    match place_of(rules, avp.key()) {
        Some(place) => Place::Rule(def, place),
        None => Place::Head(def),
    }
}

/// The place of the wildcard, or that of the head.
pub(crate) fn wildcard_or_head(def: DefId, rules: &[DRule]) -> Place
    ensures { result ≡ wildcard_or_head def rules.now }
{
    match wildcard_place(rules) {
        Some(place) => Place::Rule(def, place),
        None => Place::Head(def),
    }
}
