//! Definitions with look-up by key.
ghost use Rattle.std.specs.Prelude.{◌≡◌, ◌<◌, ◌==◌, length, slice_get};
ghost use Rattle.dia_book.specs.Dictionary.{definitions};
ghost use Rattle.dia_valid.specs.Valid.{is_listed, has_wildcard};
ghost use Rattle.dia_valid.specs.Rules.{rules_in, rule_of, wildcard_of};
ghost use Rattle.dia_breaking_levels.specs.Places.{place, index};

use dia_book::{Book, DRule, DefId, Key, Slot};

/// A definition of a dictionary.
#[derive(Drop)]
pub(crate) struct Rules<'a, B: Book> {
    pub book: &'a B,
    pub def: DefId,
    pub ghost own: { def < length (definitions (B.meaning book.now)) },
}

impl<'a, B: Book> Rules<'a, B> {
    /// The rules in their order.
    pub fn list(&self) -> &'a [DRule]
        ensures { result.now ≡ rules_in (B.meaning self.now.book.now) self.now.def }
    {
        &self.book.def(self.def).rules
    }

    /// The rule of a key.
    pub fn rule(&self, key: Key) -> Option<DRule>
        ensures { result ≡ rule_of (rules_in (B.meaning self.now.book.now) self.now.def) key }
    {
        let rules = self.list();
        match self.book.slot(self.def, key) {
            Slot::Fixed(index) => rule_at(rules, index),
            Slot::Loose(index) => rule_at(rules, index),
            Slot::Unlisted => None,
        }
    }

    /// The place of the key's fixed rule, or one after them all.
    pub fn place(&self, key: Key) -> usize
        ensures { result ≡ place (rules_in (B.meaning self.now.book.now) self.now.def) key }
    {
        match self.book.slot(self.def, key) {
            Slot::Fixed(index) => index,
            Slot::Loose(_) | Slot::Unlisted => self.list().len(),
        }
    }

    /// The place of the key's rule, or one after all.
    pub fn index(&self, key: Key) -> usize
        ensures { result ≡ index (rules_in (B.meaning self.now.book.now) self.now.def) key }
    {
        match self.book.slot(self.def, key) {
            Slot::Fixed(index) => index,
            Slot::Loose(index) => index,
            Slot::Unlisted => self.list().len(),
        }
    }

    /// Whether no fixed rule is of this key.
    pub fn is_last(&self, key: Key) -> bool
        ensures { result ≡ (place (rules_in (B.meaning self.now.book.now) self.now.def) key
            == length (rules_in (B.meaning self.now.book.now) self.now.def)) }
    {
        self.place(key) == self.list().len()
    }

    /// Whether some rule is of this key.
    pub fn lists(&self, key: Key) -> bool
        ensures { result ≡ is_listed (rules_in (B.meaning self.now.book.now) self.now.def) key }
    {
        self.rule(key).is_some()
    }

    /// The rule of the keys that no rule lists.
    pub fn wildcard(&self) -> Option<DRule>
        ensures { result ≡ wildcard_of (rules_in (B.meaning self.now.book.now) self.now.def) }
    {
        self.list().iter().copied().find(|rule| rule.key.is_none())
    }

    /// Whether there is such a rule.
    pub fn has_wildcard(&self) -> bool
        ensures { result ≡ has_wildcard (rules_in (B.meaning self.now.book.now) self.now.def) }
    {
        self.wildcard().is_some()
    }
}

pub(crate) fn rule_at(rules: &[DRule], index: usize) -> Option<DRule>
    ensures { result ≡ slice_get rules.now index }
{
    rules.get(index).copied()
}
