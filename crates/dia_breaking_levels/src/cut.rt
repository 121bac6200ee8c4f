//! How many AVPs are taken of each step.
ghost use Rattle.std.specs.Prelude.{◌≡◌, IfOk, fold};
ghost use Rattle.dia_valid.specs.Rules.{rules_in};
ghost use Rattle.dia_breaking_levels.specs.Chosen.{cut_after, cut_following, extra_of, extras_of, reads, taken_of};
ghost use Rattle.dia_breaking_levels.specs.Cuts.{IsCut, cut_step};
ghost use Rattle.dia_breaking_levels.specs.LevelTests.{filler};

use crate::costs::Costs;
use crate::floor::Floor;
use crate::rules::Rules;
use crate::steps::{Step, room_above};
use dia_book::{Book, DRule};
use std::alloc::{AllocError, Global};

/// Where the steps that are taken end: those that are shorter are taken whole, and of those of this length so many AVPs.
#[derive(Clone, Copy)]
pub(crate) struct Cut {
    pub length: u64,
    pub left: u64,
}

impl Cut {
    /// How many AVPs of a step are taken.
    fn take(&mut self, length: u64, count: u64) -> u64
        ensures taken { result ≡ taken_of self.old length count }
        ensures following { self.new ≡ cut_following self.old length count }
    {
        if length < self.length {
            count
        } else if length == self.length {
            let taken = count.min(self.left);
            self.left -= taken;
            taken
        } else {
            0
        }
    }
}

/// Where so many AVPs end, taken from the first step on.
fn cut_of(wanted: u64, steps: &[Step]) -> Cut
    ensures { result ≡ (fold cut_step (record { length = 0; left = wanted }, wanted) steps.now).0 }
{
    let mut cut = Cut {
        length: 0,
        left: wanted,
    };
    let mut left = wanted;
    for step in steps {
        if left > 0 && step.length > cut.length {
            cut = Cut {
                length: step.length,
                left,
            };
        }
        left = left.saturating_sub(step.count);
    }
    cut
}

pub(crate) fn sorted_cut(wanted: u64, mut steps: Vec<Step>) -> Result<Cut, AllocError>
    ensures { IfOk result (IsCut wanted steps.items) }
{
    steps.sort_by_key(|step| step.length)?;
    Ok(cut_of(wanted, &steps))
}

/// How many AVPs more each rule of `a` has where the steps end so.
pub(crate) fn rule_extras<A: Book, B: Book, C: Costs>(
    alloc: Global,
    a: &Rules<'_, A>,
    b: &Rules<'_, B>,
    costs: &C,
    floor: &Floor,
    wanted: u64,
    mut cut: Cut,
) -> Result<Vec<u64>, AllocError>
    ensures { IfOk result (λ extras. extras.items ≡ extras_of
        (reads (rules_in (A.meaning a.now.book.now) a.now.def) (rules_in (B.meaning b.now.book.now) b.now.def)
        (C.listed_length costs.now) (C.other_length costs.now) (C.other_keys costs.now) floor.now)
        wanted cut (rules_in (A.meaning a.now.book.now) a.now.def)) }
{
    let mut extras = Vec::new(alloc);
    for rule in a.list() {
        extras.push(extra(&mut cut, a, b, costs, floor, wanted, rule))?;
    }
    Ok(extras)
}

fn extra<A: Book, B: Book, C: Costs>(
    cut: &mut Cut,
    a: &Rules<'_, A>,
    b: &Rules<'_, B>,
    costs: &C,
    floor: &Floor,
    wanted: u64,
    rule: &DRule,
) -> u64
    ensures extra { result ≡ extra_of
        (reads (rules_in (A.meaning a.now.book.now) a.now.def) (rules_in (B.meaning b.now.book.now) b.now.def)
        (C.listed_length costs.now) (C.other_length costs.now) (C.other_keys costs.now) floor.now)
        wanted cut.old rule.now }
    ensures following { cut.new ≡ cut_after
        (reads (rules_in (A.meaning a.now.book.now) a.now.def) (rules_in (B.meaning b.now.book.now) b.now.def)
        (C.listed_length costs.now) (C.other_length costs.now) (C.other_keys costs.now) floor.now)
        wanted cut.old rule.now }
{
    let count = room_above(wanted, rule);
    match rule.key {
        Some(key) => {
            if b.lists(key) {
                return 0;
            }
            cut.take(costs.listed(key), count)
        }
        None => {
            let spared = floor.outer.saturating_sub(floor.filler());
            let others = cut.take(spared, u64::from(rule.min));
            others.saturating_add(cut.take(floor.outer, count))
        }
    }
}
