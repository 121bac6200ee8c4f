//! Rules of definitions that say nothing.
ghost use Rattle.std.specs.Prelude.{◌≡◌, ◌<◌, false, None, Some, IfOk, if◌then◌else◌, length};
ghost use Rattle.std.specs.Option.{option_map_or};
ghost use Rattle.dia_book.specs.Dictionary.{definitions};
ghost use Rattle.dia_lint.specs.Gathered.{gathered};
ghost use Rattle.dia_lint.specs.OwnRules.{is_any_number, lets_others_in, named_by, rule_lines, rule_part, rules_of_command};
ghost use Rattle.dia_lint.specs.OwnRules.{rules_of_entry, says_nothing, says_nothing_lines, why_nothing};

use crate::books::{command_at, group_of};
use crate::definitions::{is_fixed, lets_in, wildcard_of};
use crate::detail::Detail;
use crate::finding::{Finding, Named, Place, Subject, push};
use crate::rule::Rule;
use dia_book::{Book, DRule, DefId, Entry};
use std::alloc::{AllocError, Global};

/// The rules without which the same AVPs are as the rules say: those of the groups, and then those of the commands, in the
/// dictionary's order.
pub fn rule_findings<B: Book>(alloc: Global, book: &B) -> Result<Vec<Finding>, AllocError>
    ensures { IfOk result (λ found. found.items ≡ says_nothing_lines (B.meaning book.now)) }
{
    let mut found = of_groups(alloc, book)?;
    found.extend_from_slice(&of_commands(alloc, book)?)?;
    Ok(found)
}

fn of_groups<B: Book>(alloc: Global, book: &B) -> Result<Vec<Finding>, AllocError>
    ensures { IfOk result (λ found. found.items ≡ gathered (rules_of_entry (B.meaning book.now)) (length (B.meaning book.now).entries)) }
{
    let mut found = Vec::new(alloc);
    for index in 0..book.entries() {
        found.extend_from_slice(&of_entry(alloc, book, book.entry_at(index))?)?;
    }
    Ok(found)
}

/// The findings of the entry's group, if it has one.
fn of_entry<B: Book>(alloc: Global, book: &B, entry: Entry) -> Result<Vec<Finding>, AllocError>
    requires { entry < length (B.meaning book.now).entries }
    ensures { IfOk result (λ found. found.items ≡ rules_of_entry (B.meaning book.now) entry) }
{
    match group_of(book, entry) {
        Some(def) => of_definition(alloc, book, def),
        None => Ok(Vec::new(alloc)),
    }
}

fn of_commands<B: Book>(alloc: Global, book: &B) -> Result<Vec<Finding>, AllocError>
    ensures { IfOk result (λ found. found.items ≡ gathered (rules_of_command (B.meaning book.now)) (length (B.meaning book.now).commands)) }
{
    let mut found = Vec::new(alloc);
    for index in 0..book.commands() {
        found.extend_from_slice(&of_definition(alloc, book, command_at(book, index))?)?;
    }
    Ok(found)
}

fn of_definition<B: Book>(alloc: Global, book: &B, def: DefId) -> Result<Vec<Finding>, AllocError>
    requires { def < length (definitions (B.meaning book.now)) }
    ensures { IfOk result (λ found. found.items ≡ rule_lines (B.meaning book.now) def) }
{
    of_rules(alloc, def, &book.def(def).rules)
}

fn of_rules(alloc: Global, def: DefId, rules: &[DRule]) -> Result<Vec<Finding>, AllocError>
    ensures { IfOk result (λ found. found.items ≡ gathered (rule_part def rules.now) (length rules.now)) }
{
    let wildcard = wildcard_of(rules);
    let mut found = Vec::new(alloc);
    for index in 0..rules.len() {
        push(
            &mut found,
            says_nothing(def, wildcard, index, &rules[index]),
        )?;
    }
    Ok(found)
}

fn says_nothing(def: DefId, wildcard: Option<DRule>, index: usize, rule: &DRule) -> Option<Finding>
    ensures { result ≡ says_nothing def wildcard index rule.now }
{
    match why_nothing(wildcard, rule) {
        Some(detail) => Some(Finding {
            rule: Rule::SaysNothing,
            place: Place::Rule(def, index),
            subject: Subject::Within(def, named(rule)),
            detail,
        }),
        None => None,
    }
}

/// Why the rule says nothing, if it does.
fn why_nothing(wildcard: Option<DRule>, rule: &DRule) -> Option<Detail>
    ensures { result ≡ why_nothing wildcard rule.now }
{
    if rule.min > 0 {
        None
    } else if rule.key.is_none() || !lets_others_in(wildcard) {
        nothing_if(!lets_in(rule), Detail::NothingLetsItIn)
    } else {
        nothing_if(is_beside_any_number(rule, wildcard), Detail::WildcardSaysIt)
    }
}

fn nothing_if(says_nothing: bool, detail: Detail) -> Option<Detail>
    ensures { result ≡ (if says_nothing then Some detail else None) }
{
    if says_nothing { Some(detail) } else { None }
}

/// Whether there is a wildcard that lets AVPs in.
fn lets_others_in(wildcard: Option<DRule>) -> bool
    ensures { result ≡ lets_others_in wildcard }
{
    match wildcard {
        Some(wild) => lets_in(&wild),
        None => false,
    }
}

fn is_beside_any_number(rule: &DRule, wildcard: Option<DRule>) -> bool
    ensures { result ≡ option_map_or (is_any_number rule.now) wildcard false }
{
    match wildcard {
        Some(wild) => is_any_number(rule, &wild),
        None => false,
    }
}

/// Whether the rule is loose, and neither it nor the wildcard counts.
fn is_any_number(rule: &DRule, wild: &DRule) -> bool
    ensures { result ≡ is_any_number rule.now wild.now }
{
    !is_fixed(rule) && !rule.max.is_some() && wild.min == 0 && !wild.max.is_some()
}

/// The AVPs of a rule.
pub(crate) fn named(rule: &DRule) -> Named
    ensures { result ≡ named_by rule.now.key }
{
    match rule.key {
        Some(key) => Named::Key(key),
        None => Named::Others,
    }
}
