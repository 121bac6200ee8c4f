//! The rules of a definition in a form that is equal for definitions of the same levels.
ghost use Rattle.std.specs.Prelude.{◌≡◌, ◌↔◌, ◌⊎◌, ◌++◌, None, Some, ℕ, length, map, option_to_list, IfOk, IsTrue, OnOk};
ghost use Rattle.std.specs.BTreeSet.{IsEmpty, IsOrdered, contains};
ghost use Rattle.std.specs.Option.{option_map};
ghost use Rattle.dia_lint.specs.Gathered.{gathered};
ghost use Rattle.dia_lint.specs.LevelParts.{AreAlike, Parts, is_any, is_first, is_needed, is_said, others_of, settled};
ghost use Rattle.dia_lint.specs.NormalForms.{AreCountsOf, AreEqual, HasAny, HasParts, IsNormalOf, any_counts, counts_cmp};
ghost use Rattle.dia_lint.specs.NormalForms.{counts_of, first_counts, first_part, key_numbers, numbers};

use crate::definitions::{is_fixed, lets_in, wildcard_of};
use dia_book::DRule;
use std::alloc::{AllocError, Global};
use std::collections::BTreeSet;

/// Code and vendor of the AVPs of a rule; their least count, and one more than their greatest, or 0 where there is none.
type Counts = ((u32, u32), (u32, u64));

/// What rules ask of a level: the counts of the AVPs that come first, in their order; those of the AVPs that follow; and how
/// often all others occur.
#[derive(Drop)]
struct Normal {
    firsts: Vec<Counts>,
    anys: BTreeSet<Counts>,
    others: Option<(u32, u64)>,
}

/// Whether the rules of two definitions have the same normal form.
pub(crate) fn are_alike(
    alloc: Global,
    rules: &[DRule],
    others: &[DRule],
) -> Result<bool, AllocError>
    ensures { IfOk result (λ same. IsTrue same ↔ AreAlike rules.now others.now) }
{
    let own = Normal::of(alloc, rules)?;
    let theirs = Normal::of(alloc, others)?;
    Ok(own.asks_same(&theirs))
}

impl Normal {
    /// What these rules ask.
    fn of(alloc: Global, rules: &[DRule]) -> Result<Normal, AllocError>
        ensures { IfOk result (IsNormalOf rules.now) }
    {
        let others = others_of(rules);
        let firsts = firsts_of(alloc, rules)?;
        let anys = anys_of(alloc, rules, others)?;
        settled(firsts, anys, others)
    }

    /// Whether both ask the same.
    fn asks_same(&self, other: &Normal) -> bool
        ensures { IsTrue result ↔ AreEqual self.now other.now }
    {
        self.firsts == other.firsts && self.others == other.others && self.anys == other.anys
    }
}

/// The last of the first AVPs may be in any order where none follow.
fn settled(
    firsts: Vec<Counts>,
    anys: BTreeSet<Counts>,
    others: Option<DRule>,
) -> Result<Normal, AllocError>
    ensures { (p : Parts) → firsts.items ≡ map counts_of p.firsts → AreCountsOf p.anys anys → others ≡ p.others → IfOk result (HasParts (settled p)) }
{
    if others.is_none() && anys.is_empty() {
        return last_in_any_order(firsts, anys);
    }
    Ok(Normal {
        firsts,
        anys,
        others: numbers_if(others),
    })
}

fn last_in_any_order(
    mut firsts: Vec<Counts>,
    mut anys: BTreeSet<Counts>,
) -> Result<Normal, AllocError>
    ensures { (p : Parts) → firsts.items ≡ map counts_of p.firsts → AreCountsOf p.anys anys → IsEmpty anys → p.others ≡ None
        → IfOk result (HasParts (settled p)) }
{
    let last = firsts.pop();
    add_counts(&mut anys, last)?;
    Ok(Normal {
        firsts,
        anys,
        others: None,
    })
}

fn numbers_if(rule: Option<DRule>) -> Option<(u32, u64)>
    ensures { result ≡ option_map numbers rule }
{
    match rule {
        Some(rule) => Some(numbers(&rule)),
        None => None,
    }
}

fn firsts_of(alloc: Global, rules: &[DRule]) -> Result<Vec<Counts>, AllocError>
    ensures { IfOk result (λ firsts. firsts.items ≡ gathered (first_part rules.now) (length rules.now)) }
{
    let mut firsts = Vec::new(alloc);
    for index in 0..rules.len() {
        push_counts(&mut firsts, first_counts(&rules[index]))?;
    }
    Ok(firsts)
}

fn push_counts(list: &mut Vec<Counts>, counts: Option<Counts>) -> Result<(), AllocError>
    ensures { OnOk result (list.new.items ≡ list.old.items ++ option_to_list counts) }
{
    if let Some(counts) = counts {
        list.push(counts)?;
    }
    Ok(())
}

fn anys_of(
    alloc: Global,
    rules: &[DRule],
    others: Option<DRule>,
) -> Result<BTreeSet<Counts>, AllocError>
    ensures ordered { IfOk result (λ anys. IsOrdered counts_cmp anys) }
    ensures anys { IfOk result (λ anys. (q : (ℕ × ℕ) × (ℕ × ℕ)) → IsTrue (contains counts_cmp anys q) ↔ HasAny rules.now others (length rules.now) q) }
{
    let mut anys = BTreeSet::new(alloc);
    for index in 0..rules.len() {
        add_counts(&mut anys, any_counts(others, &rules[index]))?;
    }
    Ok(anys)
}

fn add_counts(set: &mut BTreeSet<Counts>, counts: Option<Counts>) -> Result<(), AllocError>
    requires { IsOrdered counts_cmp set.old }
    ensures ordered { OnOk result (IsOrdered counts_cmp set.new) }
    ensures more { OnOk result ((q : (ℕ × ℕ) × (ℕ × ℕ)) → IsTrue (contains counts_cmp set.new q) ↔ (IsTrue (contains counts_cmp set.old q) ⊎ (counts ≡ Some q))) }
{
    if let Some(counts) = counts {
        set.insert(counts)?;
    }
    Ok(())
}

/// The counts of a rule whose AVPs come first.
fn first_counts(rule: &DRule) -> Option<Counts>
    ensures { result ≡ first_counts rule.now }
{
    if is_first(rule) {
        Some(counts_of(rule))
    } else {
        None
    }
}

/// The counts of a rule whose AVPs follow in any order.
fn any_counts(others: Option<DRule>, rule: &DRule) -> Option<Counts>
    ensures { result ≡ any_counts others rule.now }
{
    if is_any(others, rule) {
        Some(counts_of(rule))
    } else {
        None
    }
}

fn counts_of(rule: &DRule) -> Counts
    ensures { result ≡ counts_of rule.now }
{
    (key_numbers(rule), numbers(rule))
}

fn key_numbers(rule: &DRule) -> (u32, u32)
    ensures { result ≡ key_numbers rule.now.key }
{
    match rule.key {
        Some(key) => (key.code, key.vendor),
        None => (0, 0),
    }
}

fn numbers(rule: &DRule) -> (u32, u64)
    ensures { result ≡ numbers rule.now }
{
    match rule.max {
        Some(max) => (rule.min, u64::from(max) + 1),
        None => (rule.min, 0),
    }
}

/// The wildcard, unless it lets nothing in.
fn others_of(rules: &[DRule]) -> Option<DRule>
    ensures { result ≡ others_of rules.now }
{
    match wildcard_of(rules) {
        Some(wild) if lets_in(&wild) => Some(wild),
        _ => None,
    }
}

/// Whether the rule's AVPs come first, and may be there.
fn is_first(rule: &DRule) -> bool
    ensures { result ≡ is_first rule.now }
{
    rule.key.is_some() && is_fixed(rule) && lets_in(rule)
}

/// Whether the rule's AVPs follow in any order, and the levels differ without it.
fn is_any(others: Option<DRule>, rule: &DRule) -> bool
    ensures { result ≡ is_any others rule.now }
{
    rule.key.is_some() && !(is_fixed(rule) && lets_in(rule)) && is_needed(others, rule)
}

fn is_needed(others: Option<DRule>, rule: &DRule) -> bool
    ensures { result ≡ is_needed others rule.now }
{
    match others {
        Some(wild) => !is_said(rule, &wild),
        None => lets_in(rule),
    }
}

/// Whether the rule is loose, and neither it nor the wildcard counts.
fn is_said(rule: &DRule, wild: &DRule) -> bool
    ensures { result ≡ is_said rule.now wild.now }
{
    !is_fixed(rule) && rule.min == 0 && !rule.max.is_some() && wild.min == 0 && !wild.max.is_some()
}
