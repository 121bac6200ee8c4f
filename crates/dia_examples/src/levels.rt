//! What the changed levels are made of.

use crate::change::LevelChange;
use crate::pieces::Piece;
use crate::plan::{Plan, Reached, is_fixed, some_of};
use dia_book::{Book, DRule, Key};
use dia_breaking_shortest::shortest_head;
use std::alloc::{AllocError, Global};

/// Plain AVPs of one key in a row, for the rule at a place.
#[derive(Clone, Copy)]
pub(crate) struct Run {
    pub rule: usize,
    pub key: Key,
    pub count: u64,
}

/// The AVPs of the plain level of some rules: each as often as its least count, the filler for the wildcard.
pub(crate) fn runs_of(
    alloc: Global,
    rules: &[DRule],
    filler: Option<Key>,
) -> Result<Vec<Run>, AllocError> {
    let mut runs = Vec::new(alloc);
    for rule in 0..rules.len() {
        let at = rules[rule];
        if let Some(key) = at.key.or(filler) {
            if at.min > 0 {
                runs.push(Run {
                    rule,
                    key,
                    count: u64::from(at.min),
                })?;
            }
        }
    }
    Ok(runs)
}

impl<B: Book> Plan<'_, '_, B> {
    /// The parts of the level with the change.
    pub(crate) fn pieces(
        &self,
        alloc: Global,
        reached: &Reached<'_>,
        change: LevelChange,
    ) -> Result<Vec<Piece>, AllocError> {
        let runs = reached.runs.as_slice();
        match change {
            LevelChange::Count { rule, key, count } => with_piece(
                alloc,
                runs,
                rule,
                Piece::Plain { key, count },
            ),
            LevelChange::Flag { rule, key, m } => with_first(
                alloc,
                runs,
                rule,
                Piece::Flagged { key, m },
            ),
            LevelChange::Data { rule, key, datum } => with_first(
                alloc,
                runs,
                rule,
                Piece::Leaf { key, datum },
            ),
            LevelChange::EachRule => self.each_rule(alloc, reached),
            LevelChange::Reversed => self.reversed(alloc, reached),
            LevelChange::Last { rule, key } => self.last(alloc, reached, rule, key),
            LevelChange::And { key } => followed(alloc, runs, Piece::Plain { key, count: 1 }),
            LevelChange::AndMandatory { key } => followed(
                alloc,
                runs,
                Piece::Flagged { key, m: true },
            ),
            LevelChange::FirstLength { key } => first_length(alloc, runs, key),
            LevelChange::LastLength { key } => self.last_length(alloc, runs, key),
            LevelChange::Zeros => followed(alloc, runs, Piece::Zeros),
        }
    }

    /// Each rule that can stand, as often as it has to, or once.
    fn each_rule(&self, alloc: Global, reached: &Reached<'_>) -> Result<Vec<Piece>, AllocError> {
        let mut pieces = Vec::new(alloc);
        for rule in &reached.definition.rules {
            if let Some(key) = reached.standing(self.stock, rule) {
                pieces.push(Piece::Plain {
                    key,
                    count: some_of(rule),
                })?;
            }
        }
        Ok(pieces)
    }

    /// The same, with what follows the fixed AVPs in reverse order.
    fn reversed(&self, alloc: Global, reached: &Reached<'_>) -> Result<Vec<Piece>, AllocError> {
        let mut pieces = Vec::new(alloc);
        let mut loose = Vec::new(alloc);
        for rule in &reached.definition.rules {
            if let Some(key) = reached.standing(self.stock, rule) {
                let piece = Piece::Plain {
                    key,
                    count: some_of(rule),
                };
                if is_fixed(rule) {
                    pieces.push(piece)?;
                } else {
                    loose.push(piece)?;
                }
            }
        }
        loose.reverse();
        pieces.extend_from_slice(&loose)?;
        Ok(pieces)
    }

    /// The AVPs of a fixed rule after all others, of which there is one at least for a later rule.
    fn last(
        &self,
        alloc: Global,
        reached: &Reached<'_>,
        rule: usize,
        key: Key,
    ) -> Result<Vec<Piece>, AllocError> {
        let mut pieces = Vec::new(alloc);
        let mut is_followed = false;
        for run in &reached.runs {
            if run.rule != rule {
                pieces.push(Piece::of(run))?;
            }
            if run.rule > rule {
                is_followed = true;
            }
        }
        if !is_followed {
            if let Some(other) = self.first_after(reached, rule) {
                pieces.push(Piece::Plain {
                    key: other,
                    count: 1,
                })?;
            }
        }
        let count = match reached.definition.rules.get(rule) {
            Some(at) => some_of(at),
            None => 1,
        };
        pieces.push(Piece::Plain { key, count })?;
        Ok(pieces)
    }

    /// The key of the first rule after this one that can stand.
    fn first_after(&self, reached: &Reached<'_>, rule: usize) -> Option<Key> {
        let rules = reached.definition.rules.as_slice();
        for later in 0..rules.len() {
            if later > rule {
                if let Some(key) = reached.standing(self.stock, &rules[later]) {
                    return Some(key);
                }
            }
        }
        None
    }

    /// The runs, the last AVP with a Length that is greater by four.
    fn last_length(&self, alloc: Global, runs: &[Run], key: Key) -> Result<Vec<Piece>, AllocError> {
        let mut pieces = Vec::new(alloc);
        for index in 0..runs.len() {
            let run = &runs[index];
            if index + 1 < runs.len() {
                pieces.push(Piece::of(run))?;
            } else {
                pieces.push(Piece::Plain {
                    key: run.key,
                    count: run.count.saturating_sub(1),
                })?;
            }
        }
        pieces.push(Piece::Measured {
            key,
            length: self.avp_length(key).saturating_add(4),
        })?;
        Ok(pieces)
    }
}

/// The runs, with this piece in place of the rule's.
fn with_piece(
    alloc: Global,
    runs: &[Run],
    rule: usize,
    piece: Piece,
) -> Result<Vec<Piece>, AllocError> {
    let mut pieces = Vec::new(alloc);
    for run in runs {
        if run.rule < rule {
            pieces.push(Piece::of(run))?;
        }
    }
    pieces.push(piece)?;
    for run in runs {
        if run.rule > rule {
            pieces.push(Piece::of(run))?;
        }
    }
    Ok(pieces)
}

/// The runs, with this piece in place of the first AVP for the rule.
fn with_first(
    alloc: Global,
    runs: &[Run],
    rule: usize,
    piece: Piece,
) -> Result<Vec<Piece>, AllocError> {
    let mut pieces = before(alloc, runs, rule)?;
    pieces.push(piece)?;
    pieces.extend_from_slice(&after(alloc, runs, rule)?)?;
    Ok(pieces)
}

/// The runs before a rule.
pub(crate) fn before(alloc: Global, runs: &[Run], rule: usize) -> Result<Vec<Piece>, AllocError> {
    let mut pieces = Vec::new(alloc);
    for run in runs {
        if run.rule < rule {
            pieces.push(Piece::of(run))?;
        }
    }
    Ok(pieces)
}

/// The runs after the first AVP for a rule.
pub(crate) fn after(alloc: Global, runs: &[Run], rule: usize) -> Result<Vec<Piece>, AllocError> {
    let mut pieces = Vec::new(alloc);
    for run in runs {
        if run.rule == rule {
            pieces.push(Piece::Plain {
                key: run.key,
                count: run.count.saturating_sub(1),
            })?;
        }
        if run.rule > rule {
            pieces.push(Piece::of(run))?;
        }
    }
    Ok(pieces)
}

/// The runs and then this piece.
fn followed(alloc: Global, runs: &[Run], piece: Piece) -> Result<Vec<Piece>, AllocError> {
    let mut pieces = Vec::new(alloc);
    for run in runs {
        pieces.push(Piece::of(run))?;
    }
    pieces.push(piece)?;
    Ok(pieces)
}

/// The runs, the first AVP with a Length that is one below its header's.
fn first_length(alloc: Global, runs: &[Run], key: Key) -> Result<Vec<Piece>, AllocError> {
    let mut pieces = Vec::new(alloc);
    pieces.push(Piece::Measured {
        key,
        length: shortest_head(key).saturating_sub(1),
    })?;
    for index in 0..runs.len() {
        let run = &runs[index];
        pieces.push(if index > 0 {
            Piece::of(run)
        } else {
            Piece::Plain {
                key: run.key,
                count: run.count.saturating_sub(1),
            }
        })?;
    }
    Ok(pieces)
}
