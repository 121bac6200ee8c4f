//! Steps from the least level to ones with more AVPs that B's definition doesn't list.
ghost use Rattle.std.specs.Prelude.{◌≡◌, ◌++◌, IfOk, OnOk};
ghost use Rattle.dia_valid.specs.Rules.{rules_in};
ghost use Rattle.dia_breaking_levels.specs.LevelTests.{filler};
ghost use Rattle.dia_breaking_levels.specs.Steps.{room_above, steps_of, steps, taken};
ghost use Rattle.dia_breaking_levels.specs.Steps.{IsLeastTaken, IsTakenInOrder};

use crate::costs::Costs;
use crate::lengths::{TOO_LONG, capped, many};
use crate::rules::Rules;
use dia_book::{Book, DRule};
use std::alloc::{AllocError, Global};

/// A way to more AVPs: how long each makes the level, and how many there can be.
#[derive(Clone, Copy)]
pub(crate) struct Step {
    pub length: u64,
    pub count: u64,
}

/// How many more than its least count a rule allows, or as many as are wanted.
pub(crate) fn room_above(wanted: u64, rule: &DRule) -> u64
    ensures { result ≡ room_above wanted rule.now }
{
    match rule.max {
        Some(max) => u64::from(max).saturating_sub(u64::from(rule.min)),
        None => wanted,
    }
}

/// Adds the steps of a rule. `lengths` are that of a shortest AVP by the wildcard, and that of a shortest one that `b` doesn't
/// list.
fn push_steps<B: Book, C: Costs>(
    steps: &mut Vec<Step>,
    b: &Rules<'_, B>,
    costs: &C,
    lengths: (u64, u64),
    wanted: u64,
    rule: &DRule,
) -> Result<(), AllocError>
    ensures { OnOk result (steps.new.items ≡ steps.old.items ++ steps_of
        (C.listed_length costs.now) lengths.0 lengths.1
        (rules_in (B.meaning b.now.book.now) b.now.def) wanted rule.now) }
{
    let count = room_above(wanted, rule);
    match rule.key {
        Some(key) => {
            if !b.lists(key) {
                steps.push(Step {
                    length: costs.listed(key),
                    count,
                })?;
            }
        }
        None => {
            steps.push(Step {
                length: lengths.1.saturating_sub(lengths.0),
                count: u64::from(rule.min),
            })?;
            steps.push(Step {
                length: lengths.1,
                count,
            })?;
        }
    }
    Ok(())
}

pub(crate) fn all_steps<B: Book, C: Costs>(
    alloc: Global,
    rules: &[DRule],
    b: &Rules<'_, B>,
    costs: &C,
    lengths: (u64, u64),
    wanted: u64,
) -> Result<Vec<Step>, AllocError>
    ensures { IfOk result (λ all. all.items ≡ steps (C.listed_length costs.now) lengths.0 lengths.1
        (rules_in (B.meaning b.now.book.now) b.now.def) wanted rules.now) }
{
    let mut steps = Vec::new(alloc);
    for rule in rules {
        push_steps(&mut steps, b, costs, lengths, wanted, rule)?;
    }
    Ok(steps)
}

/// The length of so many AVPs, taken from the first step on.
fn taken(wanted: u64, steps: &[Step]) -> u64
    ensures { result ≡ taken wanted steps.now }
{
    let mut left = wanted;
    let mut length: u64 = 0;
    for step in steps {
        length = capped(length.saturating_add(many(left.min(step.count), step.length)));
        left = left.saturating_sub(step.count);
    }
    if left == 0 { length } else { TOO_LONG }
}

/// The least length of so many AVPs by these steps.
pub(crate) fn least_taken(wanted: u64, mut steps: Vec<Step>) -> Result<u64, AllocError>
    ensures least { IfOk result (λ n. IsLeastTaken wanted steps.items n) }
    ensures taken { IfOk result (λ n. IsTakenInOrder wanted steps.items n) }
{
    steps.sort_by_key(|step| step.length)?;
    Ok(taken(wanted, &steps))
}
