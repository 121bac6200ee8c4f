//! What the rules of a level say of its AVPs and of its end.

ghost use Rattle.std.specs.Prelude.{◌≡◌, ◌≢◌, ◌⊎◌, ◌+◌, ◌<◌, ◌≤◌, ◌-◌, ◌^◌, ◌∷◌, ◌++◌, [], List, ℕ};
ghost use Rattle.std.specs.Prelude.{IfOk, OnOk, Option, length, map, slice_get, Some};
ghost use Rattle.dia_wire.specs.declared.Key.{Key as AnyKey};
ghost use Rattle.dia_book.specs.declared.DRule.{DRule as AnyRule};
ghost use Rattle.dia_book.specs.Dictionary.{AreRules, definitions};
ghost use Rattle.dia_book.specs.Shapes.{IsShape};
ghost use Rattle.dia_check.specs.declared.open_levels.Wrong.{Wrong as AnyWrong};
ghost use Rattle.dia_check.specs.OpenLevels.{Leads};
ghost use Rattle.dia_check.specs.Recording.{recorded};
ghost use Rattle.dia_faults.specs.Collecting.{Adds};
ghost use Rattle.dia_faults.specs.Rules.{AreMissingAtEnd, ArePlaced, IsMisput, missing_from};
ghost use Rattle.dia_faults.specs.States.{HasRules, IsCounted, count_of};

use crate::collector::Collector;
use crate::counts::Counts;
use dia_book::{Book, DRule, DefId, Shape};
use dia_check::{Reason, Subject, Wrong, lead, missing};
use dia_wire::Key;
use std::alloc::AllocError;

/// What is known of a level that is being judged.
#[derive(Clone, Copy)]
pub(crate) struct Level {
    /// Its definition.
    pub(crate) def: DefId,
    /// The place where it begins.
    pub(crate) start: usize,
    /// The fixed rule in whose run it is; behind the last run, the number of fixed rules.
    pub(crate) run: usize,
}

/// Judges an AVP of this key by the rules of its level, and counts it. Answers the run that it leads to.
pub(crate) fn place<B: Book>(
    book: &B,
    found: &mut Collector,
    counts: &mut Counts,
    level: Level,
    at: usize,
    key: Key,
) -> Result<usize, AllocError>
    requires low { (at < 2 ^ 32) × (level.start < 2 ^ 32) }
    requires counted { ∥ ((rules : List AnyRule) × (keys : List AnyKey) × HasRules (B.meaning book.now) level.def rules
        × IsCounted counts.old.counts.entries level.start level.run rules keys × (length keys < 4294967295)) ∥₁ }
    ensures placed { IfOk result (λ run. (rules : List AnyRule) (keys : List AnyKey)
        → HasRules (B.meaning book.now) level.def rules
        → IsCounted counts.old.counts.entries level.start level.run rules keys
        → ((wrongs : List AnyWrong) × ArePlaced rules keys key wrongs × Adds found.old found.new (map (recorded at) wrongs))
        × IsCounted counts.new.counts.entries level.start run rules (keys ++ key ∷ [])) }
    ensures others { OnOk result ((s i : ℕ) → i < 1024 → s ≢ level.start
        → count_of counts.new.counts.entries s i ≡ count_of counts.old.counts.entries s i) }
{
    let definition = book.def(level.def);
    let rules = definition.rules.as_slice();
    let shape = &definition.shape;
    let (run, rule) = lead(level.run, shape, book.slot(level.def, key));
    push_missing(found, counts, rules, shape, level.start, level.run, run, at)?;
    match rule {
        Some(rule) => count(found, counts, rules, level.start, rule, at, key)?,
        None => found.push(
            at,
            Wrong {
                reason: Reason::NotAllowed,
                subject: Subject::Avp(key),
            },
        )?,
    }
    Ok(run)
}

/// Adds the rules that are missing at the end of a level, which is at a place.
pub(crate) fn push_missing_at_end<B: Book>(
    book: &B,
    found: &mut Collector,
    counts: &Counts,
    level: Level,
    end: usize,
) -> Result<(), AllocError>
    requires low { (end < 2 ^ 32) × (level.start < 2 ^ 32) }
    requires counted { ∥ ((rules : List AnyRule) × (keys : List AnyKey) × HasRules (B.meaning book.now) level.def rules
        × IsCounted counts.now.counts.entries level.start level.run rules keys) ∥₁ }
    ensures { OnOk result ((rules : List AnyRule) (keys : List AnyKey)
        → HasRules (B.meaning book.now) level.def rules
        → IsCounted counts.now.counts.entries level.start level.run rules keys
        → (wrongs : List AnyWrong) × AreMissingAtEnd rules keys wrongs × Adds found.old found.new (map (recorded end) wrongs)) }
{
    let definition = book.def(level.def);
    let rules = definition.rules.as_slice();
    let shape = &definition.shape;
    let many = rules.len();
    push_missing(
        found,
        counts,
        rules,
        shape,
        level.start,
        level.run,
        many,
        end,
    )
}

/// Adds the rules from one number up to another that were met less often than their min, at a place. Once there are more
/// faults than were asked for, it takes no time.
fn push_missing(
    found: &mut Collector,
    counts: &Counts,
    rules: &[DRule],
    shape: &Shape,
    start: usize,
    from: usize,
    to: usize,
    at: usize,
) -> Result<(), AllocError>
    requires low { (at < 2 ^ 32) × (start < 2 ^ 32) }
    requires shape { IsShape rules.now shape.now }
    requires few { length rules.now ≤ 1024 }
    requires within { (from ≤ length rules.now) × (to ≤ length rules.now) }
    ensures { OnOk result (Adds found.old found.new (map (recorded at)
        (missing_from (λ i rule. count_of counts.now.counts.entries start i) rules.now from (to - from)))) }
{
    if found.more {
        return Ok(());
    }
    let mut rule = shape.first_wanted(rules, from);
    while rule < to {
        if counts.of(start, rule) < rules[rule].min {
            found.push(at, missing(rules[rule]))?;
        }
        rule = shape.first_wanted(rules, rule + 1);
    }
    Ok(())
}

/// Counts an AVP that a rule counts, and adds that it is one too many.
fn count(
    found: &mut Collector,
    counts: &mut Counts,
    rules: &[DRule],
    start: usize,
    rule: usize,
    at: usize,
    key: Key,
) -> Result<(), AllocError>
    requires low { (at < 2 ^ 32) × (start < 2 ^ 32) × (rule < 1024) }
    requires within { rule < length rules.now }
    requires few { count_of counts.old.counts.entries start rule < 4294967295 }
    ensures judged { OnOk result ((keys : List AnyKey) (run next : ℕ) → Leads rules.now keys key run next (Some rule)
        → IsCounted counts.old.counts.entries start run rules.now keys
        → (wrongs : List AnyWrong) × IsMisput rules.now keys key wrongs × Adds found.old found.new (map (recorded at) wrongs)) }
    ensures counted { OnOk result (count_of counts.new.counts.entries start rule
        ≡ count_of counts.old.counts.entries start rule + 1) }
    ensures others { OnOk result ((s i : ℕ) → i < 1024 → (s ≢ start) ⊎ (i ≢ rule)
        → count_of counts.new.counts.entries s i ≡ count_of counts.old.counts.entries s i) }
{
    let met = counts.of(start, rule);
    counts.set(start, rule, met + 1)?;
    if rules[rule].max == Some(met) {
        found.push(
            at,
            Wrong {
                reason: Reason::TooMany,
                subject: Subject::Avp(key),
            },
        )?;
    }
    Ok(())
}
