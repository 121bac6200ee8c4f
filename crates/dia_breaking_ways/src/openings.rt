//! The levels that let AVPs in through their wildcards, in the order of their lengths.
ghost use Rattle.std.specs.Prelude.{IfOk, MatchBool, length};
ghost use Rattle.dia_breaking_ways.specs.Openings.{AreRising, AreNumbered, AreOpenings, IsOrdered, IsOpenTo, IsShutTo};
ghost use Rattle.dia_breaking_ways.specs.Openings.{IsFirstOpen, opening_key};

use crate::offers::within;
use crate::stages::Stage;
use std::alloc::{AllocError, Global};

/// A level with a wildcard.
#[derive(Clone, Copy)]
pub(crate) struct Opening {
    /// What a message takes besides an AVP that comes through it.
    pub length: u64,
    pub level: usize,
}

/// The levels that let AVPs in through their wildcards.
fn unordered(alloc: Global, room: u64, stages: &[Stage<'_>]) -> Result<Vec<Opening>, AllocError>
    ensures rising { IfOk result (λ openings. AreNumbered (length stages.now) openings.items) }
    ensures openings { IfOk result (λ openings. AreOpenings room stages.now (length stages.now) openings.items) }
{
    let mut openings = Vec::new(alloc);
    for level in 0..stages.len() {
        let stage = &stages[level];
        if let Some(length) = within(room, stage.way, stage.exits.beside) {
            openings.push(Opening { length, level })?;
        }
    }
    Ok(openings)
}

/// The same in the order of their lengths.
pub(crate) fn openings(
    alloc: Global,
    room: u64,
    stages: &[Stage<'_>],
) -> Result<Vec<Opening>, AllocError>
    ensures ordered { IfOk result (λ openings. IsOrdered opening_key openings.items (length openings.items)) }
    ensures openings { IfOk result (λ openings. AreOpenings room stages.now (length stages.now) openings.items) }
{
    let mut openings = unordered(alloc, room, stages)?;
    openings.sort_by_key(|opening| (opening.length, opening.level))?;
    Ok(openings)
}

/// Whether no rule of the level lists the place.
fn is_open(stages: &[Stage<'_>], level: usize, place: usize) -> bool
    requires { AreRising stages.now }
    ensures { MatchBool result (IsOpenTo stages.now place level) (IsShutTo stages.now place level) }
{
    match stages.get(level) {
        Some(stage) => !stage.lists(place),
        None => false,
    }
}

/// The first level that lets in the AVP of a place.
pub(crate) fn first_open(
    stages: &[Stage<'_>],
    openings: &[Opening],
    place: usize,
) -> Option<Opening>
    requires { AreRising stages.now }
    ensures { IsFirstOpen stages.now openings.now place (length openings.now) result }
{
    for opening in openings {
        if is_open(stages, opening.level, place) {
            return Some(*opening);
        }
    }
    None
}
