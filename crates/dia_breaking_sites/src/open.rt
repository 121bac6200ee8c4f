//! Wildcards by which a sender's side sends AVPs.
ghost use Rattle.std.specs.Prelude.{◌≡◌, ◌||◌};
ghost use Rattle.std.specs.List.{list_all, list_any};
ghost use Rattle.dia_breaking_sites.specs.Sent.{forbids, is_open, lets_in_freely, say_nothing};

use dia_book::DRule;
use dia_terms::Sends;

/// Whether a sender's side sends AVPs by the wildcard of these rules: `Listed` by none, `Filled` by one that is the only rule
/// that doesn't forbid, and doesn't ask for AVPs.
pub fn is_open(sends: Sends, rules: &[DRule]) -> bool
    ensures { result ≡ is_open sends rules.now }
{
    match sends {
        Sends::Any => true,
        Sends::Known => true,
        Sends::Filled => say_nothing(rules),
        Sends::Listed => false,
    }
}

fn say_nothing(rules: &[DRule]) -> bool
    ensures { result ≡ say_nothing rules.now }
{
    let lets_in = one_lets_in_freely(rules);
    let forbid = others_forbid(rules);
    lets_in && forbid
}

fn one_lets_in_freely(rules: &[DRule]) -> bool
    ensures { result ≡ list_any lets_in_freely rules.now }
{
    rules.iter().any(lets_in_freely)
}

fn others_forbid(rules: &[DRule]) -> bool
    ensures { result ≡ list_all (λ rule. lets_in_freely rule || forbids rule) rules.now }
{
    rules
        .iter()
        .all(|rule| lets_in_freely(rule) || forbids(rule))
}

/// Whether the rule is `[ AVP ]`, also with a greatest count that isn't 0.
fn lets_in_freely(rule: &DRule) -> bool
    ensures { result ≡ lets_in_freely rule.now }
{
    rule.key.is_none() && rule.min == 0 && !forbids(rule)
}

fn forbids(rule: &DRule) -> bool
    ensures { result ≡ forbids rule.now }
{
    rule.max == Some(0)
}
