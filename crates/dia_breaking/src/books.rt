//! Look-ups of two dictionaries.
ghost use Rattle.std.specs.Prelude.{◌≡◌, ◌<◌, IfSome, is_some, length, option_and_then};
ghost use Rattle.std.specs.Prelude.{slice_get};
ghost use Rattle.std.specs.Option.{option_map};
ghost use Rattle.dia_book.specs.Dictionary.{definitions, selected};
ghost use Rattle.dia_data.specs.Plain.{plain_format};
ghost use Rattle.dia_valid.specs.Valid.{is_listed};
ghost use Rattle.dia_valid.specs.Rules.{rule_of, rules_in, wildcard_of};
ghost use Rattle.dia_breaking_avps.specs.Sent.{group_of};
ghost use Rattle.dia_breaking.specs.Meanings.{m_rule_in};
ghost use Rattle.dia_breaking.specs.Messages.{group_number};
ghost use Rattle.dia_breaking.specs.Words.{format_in};

use dia_book::{Book, Class, DRule, DefId, Format, Key, MRule, Slot};

/// The definition of the group with this key.
pub(crate) fn group_of<B: Book>(book: &B, key: Key) -> Option<DefId>
    ensures within { IfSome result (λ def. def < length (definitions (B.meaning book.now))) }
    ensures group { is_some result ≡ is_some (group_of (B.meaning book.now) key) }
    ensures definition { option_and_then (slice_get (definitions (B.meaning book.now))) result
        ≡ group_of (B.meaning book.now) key }
    ensures number { result ≡ group_number (B.meaning book.now) key }
{
    let entry = book.avp(key)?;
    book.group(entry)
}

/// The definition of a message.
pub(crate) fn command_of<B: Book>(book: &B, code: u32, class: Class, app: u32) -> Option<DefId>
    ensures within { IfSome result (λ def. def < length (definitions (B.meaning book.now))) }
    ensures selected { result ≡ selected (B.meaning book.now) code class app }
{
    book.select(code, class, app)
}

pub(crate) fn format_of<B: Book>(book: &B, key: Key) -> Option<&Format>
    ensures { option_map (λ format. plain_format format.now) result ≡ format_in (B.meaning book.now) key }
{
    let entry = book.avp(key)?;
    Some(book.format(entry))
}

pub(crate) fn m_rule_of<B: Book>(book: &B, key: Key) -> Option<MRule>
    ensures { result ≡ m_rule_in (B.meaning book.now) key }
{
    let entry = book.avp(key)?;
    Some(book.rule(entry))
}

/// The rules of a definition.
pub(crate) fn rules_of<B: Book>(book: &B, def: DefId) -> &[DRule]
    requires { def < length (definitions (B.meaning book.now)) }
    ensures { result.now ≡ rules_in (B.meaning book.now) def }
{
    &book.def(def).rules
}

/// The rule of a key.
pub(crate) fn rule_of<B: Book>(book: &B, def: DefId, key: Key) -> Option<DRule>
    requires { def < length (definitions (B.meaning book.now)) }
    ensures { result ≡ rule_of (rules_in (B.meaning book.now) def) key }
{
    let rules = rules_of(book, def);
    match book.slot(def, key) {
        Slot::Fixed(index) => rule_at(rules, index),
        Slot::Loose(index) => rule_at(rules, index),
        Slot::Unlisted => None,
    }
}

fn rule_at(rules: &[DRule], index: usize) -> Option<DRule>
    ensures { result ≡ slice_get rules.now index }
{
    rules.get(index).copied()
}

/// Whether a rule is of the key.
pub(crate) fn lists<B: Book>(book: &B, def: DefId, key: Key) -> bool
    requires { def < length (definitions (B.meaning book.now)) }
    ensures { result ≡ is_listed (rules_in (B.meaning book.now) def) key }
{
    rule_of(book, def, key).is_some()
}

/// The rule of the keys that no rule lists.
pub(crate) fn wildcard_of<B: Book>(book: &B, def: DefId) -> Option<DRule>
    requires { def < length (definitions (B.meaning book.now)) }
    ensures { result ≡ wildcard_of (rules_in (B.meaning book.now) def) }
{
    rules_of(book, def)
        .iter()
        .copied()
        .find(|rule| rule.key.is_none())
}
