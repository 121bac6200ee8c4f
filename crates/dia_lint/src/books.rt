//! Look-ups of a dictionary.
ghost use Rattle.std.specs.Prelude.{◌≡◌, ◌<◌, ◌+◌, IfSome, length, slice_get};
ghost use Rattle.dia_book.specs.Dictionary.{definitions, group_place, groups};
ghost use Rattle.dia_valid.specs.Rules.{rule_of, rules_in};
ghost use Rattle.dia_valid.specs.Valid.{is_listed};

use dia_book::{Book, DRule, DefId, Entry, Key, Slot};

/// The definition of the entry, if it is a group.
pub(crate) fn group_of<B: Book>(book: &B, entry: Entry) -> Option<DefId>
    requires { entry < length (B.meaning book.now).entries }
    ensures within { IfSome result (λ def. def < length (definitions (B.meaning book.now))) }
    ensures place { result ≡ group_place (B.meaning book.now) entry }
{
    book.group(entry)
}

/// The definition of the command at a place of the dictionary's order, from 0.
pub(crate) fn command_at<B: Book>(book: &B, index: usize) -> DefId
    requires { index < length (B.meaning book.now).commands }
    ensures within { result < length (definitions (B.meaning book.now)) }
    ensures number { result ≡ length (groups (B.meaning book.now)) + index }
{
    book.command_at(index)
}

/// The rules of a definition.
pub(crate) fn rules_of<B: Book>(book: &B, def: DefId) -> &[DRule]
    requires { def < length (definitions (B.meaning book.now)) }
    ensures { result.now ≡ rules_in (B.meaning book.now) def }
{
    &book.def(def).rules
}

/// Whether a rule of the definition is of the key.
pub(crate) fn lists<B: Book>(book: &B, def: DefId, key: Key) -> bool
    requires { def < length (definitions (B.meaning book.now)) }
    ensures { result ≡ is_listed (rules_in (B.meaning book.now) def) key }
{
    rule_of(book, def, key).is_some()
}

fn rule_of<B: Book>(book: &B, def: DefId, key: Key) -> Option<DRule>
    requires { def < length (definitions (B.meaning book.now)) }
    ensures { result ≡ rule_of (rules_in (B.meaning book.now) def) key }
{
    let rules = rules_of(book, def);
    match book.slot(def, key) {
        Slot::Fixed(index) => rule_at(rules, index),
        Slot::Loose(index) => rule_at(rules, index),
        Slot::Unlisted => None,
    }
}

fn rule_at(rules: &[DRule], index: usize) -> Option<DRule>
    ensures { result ≡ slice_get rules.now index }
{
    rules.get(index).copied()
}
