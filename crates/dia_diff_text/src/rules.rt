//! The words of rules.

ghost use Rattle.std.specs.Prelude.{◌≡◌, ◌<◌, ◌++◌, ◌^◌, IfSome, OnOk, codes, slice_get, string_bytes};
ghost use Rattle.std.specs.Option.{option_map_or};
ghost use Rattle.dia_valid.specs.Valid.{known};
ghost use Rattle.dia_differences.specs.Owners.{rules_of};
ghost use Rattle.dia_diff_text.specs.Words.{AddsText, avp_words, close_word, open_word, place_rule_words, place_words, rule_words};

use dia_book::{Book, DRule, Key, RuleKind};
use dia_differences::{RulePlace, push_counts};
use std::alloc::AllocError;

/// Adds a rule, as `[ User-Name ] 0..1`, and of a fixed one its place: `< Session-Id > 1 at 1`.
pub(crate) fn push_rule<D: Book>(
    out: &mut String,
    book: &D,
    place: RulePlace,
) -> Result<(), AllocError>
    ensures { OnOk result (AddsText out.old out.new (λ text. text ≡ place_rule_words (D.meaning book.now) place)) }
{
    push_rule_words(out, book, place)
}

fn push_rule_words<D: Book>(out: &mut String, book: &D, place: RulePlace) -> Result<(), AllocError>
    ensures { OnOk result (string_bytes out.new
        ≡ string_bytes out.old ++ place_rule_words (D.meaning book.now) place) }
{
    match rule_at(book, place) {
        Some(rule) => push_rule_at(out, book, rule, place.rule),
        None => Ok(()),
    }
}

fn rule_at<D: Book>(book: &D, place: RulePlace) -> Option<DRule>
    ensures exact { result ≡ slice_get (rules_of (D.meaning book.now) place.of) place.rule }
    ensures within { IfSome result (λ rule. place.rule < 2 ^ 63) }
{
    let rules = place.of.rules(book);
    if place.rule >= rules.len() {
        return None;
    }
    Some(rules[place.rule])
}

fn push_rule_at<D: Book>(
    out: &mut String,
    book: &D,
    rule: DRule,
    place: usize,
) -> Result<(), AllocError>
    requires { place < 2 ^ 63 }
    ensures { OnOk result (string_bytes out.new
        ≡ string_bytes out.old ++ rule_words (D.meaning book.now) rule place) }
{
    out.push_str(open_word(rule.kind))?;
    out.push_str(" ")?;
    out.push_str(rule_name(book, rule))?;
    out.push_str(" ")?;
    out.push_str(close_word(rule.kind))?;
    out.push_str(" ")?;
    push_counts(out, rule)?;
    push_place(out, rule.kind, place)
}

fn open_word(kind: RuleKind) -> &'static str
    ensures { result.now ≡ open_word kind }
{
    match kind {
        RuleKind::Fixed => "<",
        RuleKind::Required => "{",
        RuleKind::Optional => "[",
    }
}

fn close_word(kind: RuleKind) -> &'static str
    ensures { result.now ≡ close_word kind }
{
    match kind {
        RuleKind::Fixed => ">",
        RuleKind::Required => "}",
        RuleKind::Optional => "]",
    }
}

/// Adds the place of a fixed rule, from 1.
fn push_place(out: &mut String, kind: RuleKind, place: usize) -> Result<(), AllocError>
    requires { place < 2 ^ 63 }
    ensures { OnOk result (string_bytes out.new ≡ string_bytes out.old ++ place_words kind place) }
{
    match kind {
        RuleKind::Fixed => {
            let number = place + 1;
            write!(out, " at {number}")
        }
        RuleKind::Required | RuleKind::Optional => Ok(()),
    }
}

/// The name of a rule's AVP; `AVP` for the wildcard.
fn rule_name<D: Book>(book: &D, rule: DRule) -> &str
    ensures { result.now ≡ avp_words (D.meaning book.now) rule.key }
{
    match rule.key {
        Some(key) => avp_name(book, key),
        None => "AVP",
    }
}

fn avp_name<D: Book>(book: &D, key: Key) -> &str
    ensures { result.now ≡ option_map_or (λ e. e.name) (known (D.meaning book.now) key) (codes "AVP") }
{
    match book.avp(key) {
        Some(entry) => book.entry_name(entry),
        None => "AVP",
    }
}
