//! The rules of a definition.

ghost use Rattle.std.specs.Prelude.{◌≡◌, codes, find};
ghost use Rattle.std.specs.Option.{option_map, option_or};
ghost use Rattle.dia_breaking_places.specs.Sought.{rule_place, slot_named};

use dia_ccf::{Def, Rule};

/// The place of the rule for an AVP in a definition, else that of the wildcard, else that of the definition.
pub(crate) fn rule_place(def: &Def, name: &str) -> usize
    ensures { result ≡ rule_place name.now def.now }
{
    match rule_for(&def.rules, name) {
        Some(rule) => rule.at,
        None => def.at,
    }
}

fn rule_for<'d>(rules: &'d [Rule], name: &str) -> Option<&'d Rule>
    ensures { option_map (λ r. r.now) result
        ≡ option_or (find (slot_named name.now) rules.now) (find (slot_named (codes "AVP")) rules.now) }
{
    match rule_named(rules, name) {
        Some(rule) => Some(rule),
        None => rule_named(rules, "AVP"),
    }
}

fn rule_named<'d>(rules: &'d [Rule], name: &str) -> Option<&'d Rule>
    ensures { option_map (λ r. r.now) result ≡ find (slot_named name.now) rules.now }
{
    rules.iter().find(|rule| rule.slot_name() == name)
}
