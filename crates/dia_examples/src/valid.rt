//! What leaves a message valid, done to one of its levels.

use crate::change::LevelChange;
use crate::data::{further, plain};
use crate::plan::{Plan, Reached, is_fixed, some_of};
use dia_book::{Book, DRule, Key, MRule};
use std::alloc::{AllocError, Global};

impl<B: Book> Plan<'_, '_, B> {
    /// The valid changes to the level of the definition at a place.
    pub(crate) fn valid_changes(
        &self,
        alloc: Global,
        place: usize,
        reached: &Reached<'_>,
    ) -> Result<Vec<LevelChange>, AllocError> {
        let mut changes = Vec::new(alloc);
        for rule in 0..reached.definition.rules.len() {
            let at = &reached.definition.rules[rule];
            if let Some(key) = reached.standing(self.stock, at) {
                push_counts(&mut changes, reached, rule, at, key)?;
                if self.is_site(place, rule, key) {
                    self.push_site(alloc, &mut changes, rule, key)?;
                }
            }
        }
        self.push_all_rules(&mut changes, reached)?;
        Ok(changes)
    }

    /// Adds the flag and the data that the key may have, too.
    fn push_site(
        &self,
        alloc: Global,
        changes: &mut Vec<LevelChange>,
        rule: usize,
        key: Key,
    ) -> Result<(), AllocError> {
        let Some(entry) = self.stock.book.avp(key) else {
            return Ok(());
        };
        if self.stock.book.rule(entry) == MRule::Any {
            changes.push(LevelChange::Flag { rule, key, m: true })?;
        }
        let format = self.stock.book.format(entry);
        let own = plain(key, format, self.context());
        for datum in &further(alloc, format)? {
            if datum.as_slice() != own.as_slice() {
                changes.push(LevelChange::Data {
                    rule,
                    key,
                    datum: *datum,
                })?;
            }
        }
        Ok(())
    }

    /// Adds the levels with AVPs for each rule.
    fn push_all_rules(
        &self,
        changes: &mut Vec<LevelChange>,
        reached: &Reached<'_>,
    ) -> Result<(), AllocError> {
        let mut optional: usize = 0;
        let mut loose: usize = 0;
        for rule in &reached.definition.rules {
            if reached.standing(self.stock, rule).is_some() {
                if rule.min == 0 {
                    optional = optional.saturating_add(1);
                }
                if !is_fixed(rule) {
                    loose = loose.saturating_add(1);
                }
            }
        }
        if optional >= 2 {
            changes.push(LevelChange::EachRule)?;
        }
        if loose >= 2 {
            changes.push(LevelChange::Reversed)?;
        }
        Ok(())
    }
}

/// Adds the counts that a rule allows beside its least.
fn push_counts(
    changes: &mut Vec<LevelChange>,
    reached: &Reached<'_>,
    rule: usize,
    at: &DRule,
    key: Key,
) -> Result<(), AllocError> {
    let some = some_of(at);
    if at.min == 0 {
        changes.push(LevelChange::Count {
            rule,
            key,
            count: 1,
        })?;
    }
    if at.key.is_none() {
        if let Some(other) = reached.stranger {
            if other != key {
                changes.push(LevelChange::Count {
                    rule,
                    key: other,
                    count: some,
                })?;
            }
        }
    }
    let most = match at.max {
        Some(max) => u64::from(max),
        None => some.saturating_add(1),
    };
    if most > some {
        changes.push(LevelChange::Count {
            rule,
            key,
            count: most,
        })?;
    }
    Ok(())
}
