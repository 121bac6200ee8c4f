//! The AVPs of a dictionary, shortest first.
ghost use Rattle.std.specs.Prelude.{◌≡◌, ◌<◌, length, find, slice_get, IfSome};
ghost use Rattle.dia_book.specs.Dictionary.{definitions, group_place};
ghost use Rattle.dia_valid.specs.Valid.{is_listed};
ghost use Rattle.dia_valid.specs.Rules.{rule_of, rules_in};
ghost use Rattle.dia_breaking_shortest.specs.Lengths.{is_unlisted};

use dia_book::{Book, DRule, DefId, Entry, Key, Slot};

/// An AVP, and how long a shortest one of its key is.
#[derive(Clone, Copy)]
pub(crate) struct Ranked {
    pub key: Key,
    pub length: u64,
}

/// The first that no rule of the definition lists.
pub(crate) fn first_unlisted<B: Book>(book: &B, def: DefId, order: &[Ranked]) -> Option<Ranked>
    requires { def < length (definitions (B.meaning book.now)) }
    ensures { result ≡ find (is_unlisted (rules_in (B.meaning book.now) def)) order.now }
{
    order
        .iter()
        .copied()
        .find(|ranked| !lists(book, def, ranked.key))
}

/// Whether some rule of the definition is of this key.
pub(crate) fn lists<B: Book>(book: &B, def: DefId, key: Key) -> bool
    requires { def < length (definitions (B.meaning book.now)) }
    ensures { result ≡ is_listed (rules_in (B.meaning book.now) def) key }
{
    rule(book, def, key).is_some()
}

fn rule<B: Book>(book: &B, def: DefId, key: Key) -> Option<DRule>
    requires { def < length (definitions (B.meaning book.now)) }
    ensures { result ≡ rule_of (rules_in (B.meaning book.now) def) key }
{
    let rules = rules_of(book, def);
    match book.slot(def, key) {
        Slot::Fixed(index) => rule_at(rules, index),
        Slot::Loose(index) => rule_at(rules, index),
        Slot::Unlisted => None,
    }
}

fn rule_at(rules: &[DRule], index: usize) -> Option<DRule>
    ensures { result ≡ slice_get rules.now index }
{
    rules.get(index).copied()
}

/// The definition of the entry, if it is a group.
pub(crate) fn group_of<B: Book>(book: &B, entry: Entry) -> Option<DefId>
    requires { entry < length (B.meaning book.now).entries }
    ensures within { IfSome result (λ def. def < length (definitions (B.meaning book.now))) }
    ensures place { result ≡ group_place (B.meaning book.now) entry }
{
    book.group(entry)
}

/// The rules of a definition.
pub(crate) fn rules_of<B: Book>(book: &B, def: DefId) -> &[DRule]
    requires { def < length (definitions (B.meaning book.now)) }
    ensures { result.now ≡ rules_in (B.meaning book.now) def }
{
    &book.def(def).rules
}
