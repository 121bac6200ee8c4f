//! Levels of a definition, AVP by AVP.
ghost use Rattle.std.specs.Prelude.{◌≡◌, ◌∷◌, ◌++◌, [], IfOk, OnOk, filter};
ghost use Rattle.dia_valid.specs.Rules.{rules_in};
ghost use Rattle.dia_breaking_levels.specs.Chosen.{count_of, extra_at, is_of_kind, kind_parts, level_parts, other_count, other_parts};
ghost use Rattle.dia_breaking_levels.specs.Chosen.{parts_at, parts_by, parts_of, plain_demand, rule_parts, occurs, wild_parts};

use crate::demand::{Demand, Wanted};
use crate::line::Part;
use crate::rules::{Rules, rule_at};
use dia_book::{Book, DRule, Key, RuleKind};
use std::alloc::{AllocError, Global};

/// Adds so many AVPs of a key, at most as many as a part can have.
fn push_part(parts: &mut Vec<Part>, key: Option<Key>, count: u64) -> Result<(), AllocError>
    ensures { OnOk result (parts.new.items ≡ parts.old.items ++ parts_of key count) }
{
    match key {
        Some(key) => {
            if count > 0 {
                let count = count.min(u64::from(u32::MAX)) as u32;
                parts.push(Part { key, count })?;
            }
        }
        None => {}
    }
    Ok(())
}

/// How often the key is wanted at least.
fn count_of(wanted: Option<Wanted>, key: Key) -> u64
    ensures { result ≡ count_of wanted key }
{
    match wanted {
        Some(wanted) => { if wanted.key == key { wanted.count } else { 0 } }
        None => 0,
    }
}

/// Adds a wanted key that comes by the wildcard.
fn push_other<A: Book>(
    parts: &mut Vec<Part>,
    a: &Rules<'_, A>,
    wanted: Option<Wanted>,
) -> Result<(), AllocError>
    ensures { OnOk result (parts.new.items ≡ parts.old.items
        ++ other_parts (rules_in (A.meaning a.now.book.now) a.now.def) wanted) }
{
    match wanted {
        Some(wanted) => {
            if a.lists(wanted.key) {
                return Ok(());
            }
            push_part(parts, Some(wanted.key), wanted.count)
        }
        None => Ok(()),
    }
}

/// How many AVPs of a wanted key come by the wildcard.
fn other_count<A: Book>(a: &Rules<'_, A>, wanted: Option<Wanted>) -> u64
    ensures { result ≡ other_count (rules_in (A.meaning a.now.book.now) a.now.def) wanted }
{
    match wanted {
        Some(wanted) => { if a.lists(wanted.key) { 0 } else { wanted.count } }
        None => 0,
    }
}

/// Adds what comes by the wildcard.
#[tactic(auto, using(crate::proofs::PartsOfLevels::four_parts))]
fn push_others<A: Book>(
    parts: &mut Vec<Part>,
    a: &Rules<'_, A>,
    demand: &Demand,
    min: u32,
    extra: u64,
) -> Result<(), AllocError>
    ensures { OnOk result (parts.new.items ≡ parts.old.items
        ++ wild_parts (rules_in (A.meaning a.now.book.now) a.now.def) (plain_demand demand.now) min extra) }
{
    push_other(parts, a, demand.first)?;
    push_other(parts, a, demand.second)?;
    push_part(parts, demand.outer, extra)?;
    let left = u64::from(min)
        .saturating_sub(other_count(a, demand.first))
        .saturating_sub(other_count(a, demand.second))
        .saturating_sub(extra);
    push_part(parts, demand.rest, left)
}

/// Adds what comes by a rule.
fn push_rule<A: Book>(
    parts: &mut Vec<Part>,
    a: &Rules<'_, A>,
    demand: &Demand,
    rule: &DRule,
    extra: u64,
) -> Result<(), AllocError>
    ensures { OnOk result (parts.new.items ≡ parts.old.items
        ++ rule_parts (rules_in (A.meaning a.now.book.now) a.now.def) (plain_demand demand.now) extra rule.now) }
{
    match rule.key {
        Some(key) => {
            let least = count_of(demand.first, key).max(count_of(demand.second, key));
            let count = least.max(u64::from(rule.min)).saturating_add(extra);
            push_part(parts, Some(key), count)
        }
        None => push_others(parts, a, demand, rule.min, extra),
    }
}

/// Whether the rule is a fixed one, or whether it is another.
fn is_of_kind(rule: &DRule, fixed: bool) -> bool
    ensures { result ≡ is_of_kind fixed rule.now }
{
    if rule.kind == RuleKind::Fixed {
        fixed
    } else {
        !fixed
    }
}

/// Adds what comes by the rule, if it is of this kind.
fn push_kind<A: Book>(
    parts: &mut Vec<Part>,
    a: &Rules<'_, A>,
    demand: &Demand,
    fixed: bool,
    rule: &DRule,
    extra: u64,
) -> Result<(), AllocError>
    ensures { OnOk result (parts.new.items ≡ parts.old.items
        ++ parts_by (rules_in (A.meaning a.now.book.now) a.now.def) (plain_demand demand.now) fixed extra rule.now) }
{
    if is_of_kind(rule, fixed) {
        push_rule(parts, a, demand, rule, extra)
    } else {
        Ok(())
    }
}

/// How many AVPs more the rule at a place has.
fn extra_at(demand: &Demand, index: usize) -> u64
    ensures { result ≡ extra_at (plain_demand demand.now) index }
{
    match demand.extras.get(index) {
        Some(extra) => *extra,
        None => 0,
    }
}

/// Adds what comes by the rule at a place, if it is of this kind.
fn push_at<A: Book>(
    parts: &mut Vec<Part>,
    a: &Rules<'_, A>,
    demand: &Demand,
    fixed: bool,
    index: usize,
) -> Result<(), AllocError>
    ensures { OnOk result (parts.new.items ≡ parts.old.items
        ++ parts_at (rules_in (A.meaning a.now.book.now) a.now.def) (plain_demand demand.now) fixed index) }
{
    match rule_at(a.list(), index) {
        Some(rule) => push_kind(parts, a, demand, fixed, &rule, extra_at(demand, index)),
        None => Ok(()),
    }
}

/// What comes by the fixed rules, or by the others, in the order of the rules.
fn kind_parts<A: Book>(
    alloc: Global,
    a: &Rules<'_, A>,
    demand: &Demand,
    fixed: bool,
) -> Result<Vec<Part>, AllocError>
    ensures { IfOk result (λ parts. parts.items
        ≡ kind_parts (rules_in (A.meaning a.now.book.now) a.now.def) (plain_demand demand.now) fixed) }
{
    let mut parts = Vec::new(alloc);
    for index in 0..a.list().len() {
        push_at(&mut parts, a, demand, fixed, index)?;
    }
    Ok(parts)
}

/// Whether the part is of this key, or whether it isn't.
fn occurs(part: &Part, front: Option<Key>, in_front: bool) -> bool
    ensures { result ≡ occurs front in_front part.now }
{
    if front == Some(part.key) {
        in_front
    } else {
        !in_front
    }
}

/// Adds the parts that are of this key, or those that aren't.
fn push_parts(
    level: &mut Vec<Part>,
    parts: &[Part],
    front: Option<Key>,
    in_front: bool,
) -> Result<(), AllocError>
    ensures { OnOk result (level.new.items ≡ level.old.items ++ filter (occurs front in_front) parts.now) }
{
    for part in parts {
        push_if(level, part, front, in_front)?;
    }
    Ok(())
}

fn push_if(
    level: &mut Vec<Part>,
    part: &Part,
    front: Option<Key>,
    in_front: bool,
) -> Result<(), AllocError>
    ensures { OnOk result (level.new.items ≡ level.old.items ++ filter (occurs front in_front) (part.now ∷ [])) }
{
    if occurs(part, front, in_front) {
        level.push(*part)?;
    }
    Ok(())
}

/// The AVPs of a level that has what is demanded, in their order.
pub(crate) fn level_parts<A: Book>(
    alloc: Global,
    a: &Rules<'_, A>,
    demand: &Demand,
) -> Result<Vec<Part>, AllocError>
    ensures { IfOk result (λ parts. parts.items
        ≡ level_parts (rules_in (A.meaning a.now.book.now) a.now.def) (plain_demand demand.now)) }
{
    let mut level = kind_parts(alloc, a, demand, true)?;
    let loose = kind_parts(alloc, a, demand, false)?;
    push_parts(&mut level, &loose, demand.front, true)?;
    push_parts(&mut level, &loose, demand.front, false)?;
    Ok(level)
}
