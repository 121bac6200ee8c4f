//! Definitions with look-up by key.
ghost use Rattle.std.specs.Prelude.{◌≡◌, ◌<◌, length, position, slice_get};
ghost use Rattle.std.specs.Option.{option_map};
ghost use Rattle.dia_book.specs.Dictionary.{definitions};
ghost use Rattle.dia_valid.specs.Valid.{is_listed, is_wildcard, has_wildcard};
ghost use Rattle.dia_valid.specs.Rules.{rules_in, rule_of, wildcard_of};
ghost use Rattle.dia_compat.specs.Failings.{place_of_key, placed_rule, placed_wildcard};

use dia_book::{Book, DRule, DefId, Key, Slot};
use std::marker::Model;

/// The rules of a definition.
#[derive(Drop)]
pub(crate) struct Rules<'a, B: Book> {
    pub book: &'a B,
    pub def: DefId,
}

impl<'a, B: Book> Model for Rules<'a, B> {
    ghost use Rattle.std.specs.Prelude.{List, ◌<◌, length};
    ghost use Rattle.dia_book.specs.declared.DRule.{DRule as AnyRule};
    ghost use Rattle.dia_book.specs.Dictionary.{definitions};
    ghost use Rattle.dia_valid.specs.Rules.{rules_in};

    ghost Value = { List AnyRule };

    ghost view = { λ a. rules_in (B.meaning a.book.now) a.def };

    ghost invariant = { λ a. a.def < length (definitions (B.meaning a.book.now)) };
}

impl<'a, B: Book> Rules<'a, B> {
    /// The rules in their order.
    pub fn list(&self) -> &'a [DRule]
        ensures { result.now ≡ self.now }
    {
        &self.book.def(self.def).rules
    }

    /// The place of the rule of a key.
    pub fn place(&self, key: Key) -> Option<usize>
        ensures { result ≡ place_of_key self.now key }
    {
        // Opened, for what is known of the definition's number.
        let _ = self.list();
        match self.book.slot(self.def, key) {
            Slot::Fixed(index) => Some(index),
            Slot::Loose(index) => Some(index),
            Slot::Unlisted => None,
        }
    }

    /// The rule of a key, with its place.
    pub fn placed(&self, key: Key) -> Option<(usize, DRule)>
        ensures { result ≡ placed_rule self.now key }
    {
        match self.place(key) {
            Some(index) => placed_at(self.list(), index),
            None => None,
        }
    }

    /// The wildcard, with its place.
    pub fn placed_wildcard(&self) -> Option<(usize, DRule)>
        ensures { result ≡ placed_wildcard self.now }
    {
        let rules = self.list();
        match place_of_wildcard(rules) {
            Some(index) => placed_at(rules, index),
            None => None,
        }
    }

    /// The rule of a key.
    pub fn rule(&self, key: Key) -> Option<DRule>
        ensures { result ≡ rule_of self.now key }
    {
        let rules = self.list();
        match self.book.slot(self.def, key) {
            Slot::Fixed(index) => rule_at(rules, index),
            Slot::Loose(index) => rule_at(rules, index),
            Slot::Unlisted => None,
        }
    }

    /// Whether some rule is of this key.
    pub fn lists(&self, key: Key) -> bool
        ensures { result ≡ is_listed self.now key }
    {
        self.rule(key).is_some()
    }

    /// The rule of the keys that no rule lists.
    pub fn wildcard(&self) -> Option<DRule>
        ensures { result ≡ wildcard_of self.now }
    {
        let rules = self.list();
        match place_of_wildcard(rules) {
            Some(index) => rule_at(rules, index),
            None => None,
        }
    }

    /// Whether there is such a rule.
    pub fn has_wildcard(&self) -> bool
        ensures { result ≡ has_wildcard self.now }
    {
        self.wildcard().is_some()
    }
}

fn rule_at(rules: &[DRule], index: usize) -> Option<DRule>
    ensures { result ≡ slice_get rules.now index }
{
    rules.get(index).copied()
}

fn place_of_wildcard(rules: &[DRule]) -> Option<usize>
    ensures { result ≡ position is_wildcard rules.now }
{
    rules.iter().position(|rule| rule.key.is_none())
}

fn placed_at(rules: &[DRule], index: usize) -> Option<(usize, DRule)>
    ensures { result ≡ option_map (λ r. (index, r)) (slice_get rules.now index) }
{
    match rule_at(rules, index) {
        Some(rule) => Some((index, rule)),
        None => None,
    }
}
