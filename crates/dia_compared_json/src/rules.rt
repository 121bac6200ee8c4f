//! The rules of definitions as JSON.

ghost use Rattle.std.specs.Prelude.{◌≡◌, IfOk, string_bytes};
ghost use Rattle.serde_json.specs.Data.{object};
ghost use Rattle.serde_json.specs.Written.{compact_text};
ghost use Rattle.dia_book.specs.Rules.{is_fixed};
ghost use Rattle.dia_compared_json.specs.Objects.{rule_members, slot_name};

use crate::arrays::number_or_null;
use dia_book::{Book, DRule, Key, RuleKind};
use dia_refused_json::quoted;
use std::alloc::{AllocError, Global};

/// A rule, by its number in the definition.
pub fn rule_text<B: Book>(
    alloc: Global,
    book: &B,
    number: usize,
    rule: &DRule,
) -> Result<String, AllocError>
    ensures { IfOk result (λ text. string_bytes text
        ≡ compact_text (object (rule_members (B.meaning book.now) number rule.now))) }
{
    let fixed = is_fixed(rule);
    let min = rule.min;
    let avp = quoted(alloc, slot_name(book, rule.key))?;
    let max = number_or_null(alloc, rule.max)?;
    format!(in alloc;
        "{{\"number\":{number},\"avp\":{avp},\"fixed\":{fixed},\"min\":{min},\"max\":{max}}}"
    )
}

fn is_fixed(rule: &DRule) -> bool
    ensures { result ≡ is_fixed rule.now }
{
    rule.kind == RuleKind::Fixed
}

/// The name of the AVPs that a rule is for.
fn slot_name<B: Book>(book: &B, key: Option<Key>) -> &str
    ensures { result.now ≡ slot_name (B.meaning book.now) key }
{
    let Some(key) = key else {
        return "AVP";
    };
    match book.avp(key) {
        Some(entry) => book.entry_name(entry),
        None => "",
    }
}
