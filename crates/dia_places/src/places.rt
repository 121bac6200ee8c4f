//! Where a definition holds an AVP.
ghost use Rattle.std.specs.Prelude.{◌≡◌, ◌<◌, find, length, option_and_then, slice_get};
ghost use Rattle.dia_book.specs.Dictionary.{definitions};
ghost use Rattle.dia_places.specs.Paths.{rules_at};
ghost use Rattle.dia_places.specs.Places.{by_of, if_allows, is_wildcard, place_of, rule_of};

use crate::graph::allows;
use dia_book::{Book, DRule, DefId, Definition, Slot};
use dia_wire::Key;

/// By what the AVPs of a key occur in the levels of a definition.
#[derive(Clone, Copy, PartialEq, Eq)]
pub enum By {
    /// By the rule that lists the key.
    Rule(DRule),
    /// By the wildcard: no rule lists the key.
    Wildcard(DRule),
}

/// By what AVPs of the key may occur in levels of a definition, if they may.
pub fn by_of<B: Book>(book: &B, def: DefId, key: Key) -> Option<By>
    requires { def < length (definitions (B.meaning book.now)) }
    ensures { result ≡ by_of (rules_at (B.meaning book.now) def) key }
{
    let definition = book.def(def);
    match place_of(book.slot(def, key)) {
        Some(place) => by_rule(&definition.rules, place),
        None => by_wildcard(definition),
    }
}

/// The place of the rule that lists the key.
fn place_of(slot: Slot) -> Option<usize>
    ensures { result ≡ place_of slot }
{
    match slot {
        Slot::Fixed(place) => Some(place),
        Slot::Loose(place) => Some(place),
        Slot::Unlisted => None,
    }
}

fn by_rule(rules: &[DRule], place: usize) -> Option<By>
    ensures { result ≡ option_and_then (if_allows By.Rule) (slice_get rules.now place) }
{
    let rule = rules.get(place).copied()?;
    if allows(rule) {
        Some(By::Rule(rule))
    } else {
        None
    }
}

fn by_wildcard(definition: &Definition) -> Option<By>
    ensures { result
        ≡ option_and_then (if_allows By.Wildcard) (find is_wildcard definition.now.rules.items) }
{
    match definition.shape.wildcard {
        Some(place) => wildcard_at(&definition.rules, place),
        None => None,
    }
}

fn wildcard_at(rules: &[DRule], place: usize) -> Option<By>
    ensures { result ≡ option_and_then (if_allows By.Wildcard) (slice_get rules.now place) }
{
    let rule = rules.get(place).copied()?;
    if allows(rule) {
        Some(By::Wildcard(rule))
    } else {
        None
    }
}

impl By {
    /// The rule.
    pub fn rule(self) -> DRule
        ensures { result ≡ rule_of self }
    {
        match self {
            By::Rule(rule) | By::Wildcard(rule) => rule,
        }
    }
}
