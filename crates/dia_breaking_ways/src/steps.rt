//! The steps of a walk, by the shortest ways to their AVPs.
ghost use Rattle.std.specs.Prelude.{◌≡◌, IfOk, MatchBool, length, option_map};
ghost use Rattle.dia_breaking_ways.specs.Walks.{plain_level, level_of};
ghost use Rattle.dia_breaking_ways.specs.Stages.{HaveLevels, graph_in};
ghost use Rattle.dia_breaking_ways.specs.Steps.{AreStepsTo, AreOuterFirst, IsWayAt, IsStepAt};
ghost use Rattle.dia_breaking_ways.specs.Rounds.{AreStepsBy, AreWithin};

use crate::graph::{Level, Reach, Step, Ways};
use std::alloc::{AllocError, Global};

/// The level of the AVP at a place.
fn level_at<'a>(ways: Ways<'a>, place: usize) -> Option<&'a Level>
    ensures { option_map (λ level. plain_level level.now) result ≡ level_of (graph_in ways.entry) place }
{
    match ways.nodes.get(place) {
        Some(node) => node.level.as_ref(),
        None => None,
    }
}

/// The shortest way to the AVP at a place.
fn way_at(reached: &[Option<Reach>], place: usize) -> Option<Reach>
    ensures { IsWayAt reached.now place result }
{
    match reached.get(place) {
        Some(way) => *way,
        None => None,
    }
}

/// The step to the level of the AVP at a place.
fn step_at(ways: Ways<'_>, reached: &[Option<Reach>], place: usize) -> Option<Step>
    ensures { IsStepAt (graph_in ways.entry) reached.now place result }
{
    let Some(level) = level_at(ways, place) else {
        return None;
    };
    let Some(reach) = way_at(reached, place) else {
        return None;
    };
    Some(Step {
        place,
        way: reach.length.saturating_sub(level.least),
        wild: reach.wild,
        outer: reach.level,
    })
}

/// The steps to the levels that are reached, in the order of their places.
fn unordered(
    alloc: Global,
    ways: Ways<'_>,
    reached: &[Option<Reach>],
) -> Result<Vec<Step>, AllocError>
    ensures { IfOk result (λ steps. AreStepsTo (graph_in ways.entry) reached.now (length reached.now) steps.items) }
{
    let mut steps = Vec::new(alloc);
    for place in 0..reached.len() {
        if let Some(step) = step_at(ways, reached, place) {
            steps.push(step)?;
        }
    }
    Ok(steps)
}

/// The steps to all levels that are reached, those of the shortest way first.
pub(crate) fn steps_by(
    alloc: Global,
    ways: Ways<'_>,
    reached: &[Option<Reach>],
) -> Result<Vec<Step>, AllocError>
    ensures { IfOk result (λ steps. AreStepsBy (graph_in ways.entry) reached.now steps.items) }
{
    let mut steps = unordered(alloc, ways, reached)?;
    steps.sort_by_key(|step| (step.way, step.place))?;
    Ok(steps)
}

/// The steps that lead to a level by a way that isn't longer than the room.
pub(crate) fn within_room(
    alloc: Global,
    ways: Ways<'_>,
    rough: &[Step],
) -> Result<Vec<Step>, AllocError>
    ensures levels { IfOk result (λ steps. HaveLevels (graph_in ways.entry) steps.items) }
    ensures within { IfOk result (λ steps. AreWithin (graph_in ways.entry) steps.items) }
{
    let mut steps = Vec::new(alloc);
    for step in rough {
        if 0 < step.way && step.way <= ways.room && level_at(ways, step.place).is_some() {
            steps.push(*step)?;
        }
    }
    Ok(steps)
}

/// Whether each level lies in the start, or in that of an earlier step.
pub(crate) fn are_outer_first(steps: &[Step]) -> bool
    ensures { MatchBool result (AreOuterFirst steps.now (length steps.now)) (¬ AreOuterFirst steps.now (length steps.now)) }
{
    for i in 0..steps.len() {
        if i < steps[i].outer {
            return false;
        }
    }
    true
}
