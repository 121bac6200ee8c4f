//! What makes a message invalid, done to one of its levels.

use crate::change::LevelChange;
use crate::data::wrong;
use crate::plan::{Plan, Reached, is_fixed};
use dia_book::{Book, DRule, Key, MRule};
use std::alloc::{AllocError, Global};

impl<B: Book> Plan<'_, '_, B> {
    /// The faulty changes to the level of the definition at a place.
    pub(crate) fn faulty_changes(
        &self,
        alloc: Global,
        place: usize,
        reached: &Reached<'_>,
    ) -> Result<Vec<LevelChange>, AllocError> {
        let mut changes = Vec::new(alloc);
        let last = self.last_standing(reached);
        for rule in 0..reached.definition.rules.len() {
            let at = &reached.definition.rules[rule];
            let Some(key) = reached.key_of(self.stock, at) else {
                continue;
            };
            push_counts(&mut changes, rule, at, key)?;
            if is_fixed(at) && at.max != Some(0) && rule < last {
                changes.push(LevelChange::Last { rule, key })?;
            }
            if self.is_site(place, rule, key) {
                self.push_site_faults(alloc, &mut changes, rule, key)?;
            }
        }
        self.push_behind(&mut changes, reached)?;
        Ok(changes)
    }

    /// The place of the last rule that can stand, and 0 where none can.
    fn last_standing(&self, reached: &Reached<'_>) -> usize {
        let mut last = 0;
        for rule in 0..reached.definition.rules.len() {
            if reached
                .standing(self.stock, &reached.definition.rules[rule])
                .is_some()
            {
                last = rule;
            }
        }
        last
    }

    /// Adds the flag and the data that the key may not have.
    fn push_site_faults(
        &self,
        alloc: Global,
        changes: &mut Vec<LevelChange>,
        rule: usize,
        key: Key,
    ) -> Result<(), AllocError> {
        let Some(entry) = self.stock.book.avp(key) else {
            return Ok(());
        };
        match self.stock.book.rule(entry) {
            MRule::Must => changes.push(LevelChange::Flag {
                rule,
                key,
                m: false,
            })?,
            MRule::MustNot => changes.push(LevelChange::Flag { rule, key, m: true })?,
            MRule::Any => {}
        }
        for datum in &wrong(alloc, self.stock.book.format(entry))? {
            changes.push(LevelChange::Data {
                rule,
                key,
                datum: *datum,
            })?;
        }
        Ok(())
    }

    /// Adds what may not follow the plain level, and Lengths that don't fit.
    fn push_behind(
        &self,
        changes: &mut Vec<LevelChange>,
        reached: &Reached<'_>,
    ) -> Result<(), AllocError> {
        let unknown = self.stock.unknown_key();
        if !reached.has_wildcard() {
            if let Some(key) = reached.stranger {
                changes.push(LevelChange::And { key })?;
            }
        }
        if !reached.has_wildcard() || self.stock.refuses_unknown() {
            changes.push(LevelChange::And { key: unknown })?;
        }
        changes.push(LevelChange::AndMandatory { key: unknown })?;
        if let Some(run) = reached.runs.first() {
            changes.push(LevelChange::FirstLength { key: run.key })?;
        }
        if let Some(run) = reached.runs.last() {
            changes.push(LevelChange::LastLength { key: run.key })?;
        }
        changes.push(LevelChange::Zeros)?;
        Ok(())
    }
}

/// Adds the counts next to those that a rule allows.
fn push_counts(
    changes: &mut Vec<LevelChange>,
    rule: usize,
    at: &DRule,
    key: Key,
) -> Result<(), AllocError> {
    if at.min > 0 {
        changes.push(LevelChange::Count {
            rule,
            key,
            count: u64::from(at.min).saturating_sub(1),
        })?;
    }
    if let Some(max) = at.max {
        changes.push(LevelChange::Count {
            rule,
            key,
            count: u64::from(max) + 1,
        })?;
    }
    Ok(())
}
