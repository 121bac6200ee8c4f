//! The shortest ways from a start to the levels of groups, and to AVPs.
ghost use Rattle.std.specs.Prelude.{IfOk, IfSome, IsSome};
ghost use Rattle.dia_breaking_ways.specs.Rounds.{AreWithin, IsRound};
ghost use Rattle.dia_breaking_ways.specs.Stages.{HaveLevels, graph_in};
ghost use Rattle.dia_breaking_ways.specs.Walks.{AreLevelsShorter, graph_of, IsWalk};

use crate::graph::{Exits, Node, Step, Walk, Ways};
use crate::reach::shortest_ways;
use crate::search::search_levels;
use crate::steps::{are_outer_first, steps_by, within_room};
use std::alloc::{AllocError, Global};

/// The levels of groups in messages of a length up to the room, and the shortest ways to the AVPs in them. There is a walk if
/// each level with an AVP is longer than the level in the AVP.
pub fn walk(
    alloc: Global,
    nodes: &[Node],
    start: &Exits,
    room: u64,
) -> Result<Option<Walk>, AllocError>
    ensures ways { IfOk result (λ found. IfSome found (λ walk.
        IsWalk (graph_of nodes.now start.now room) walk.steps.items walk.reached.items)) }
    ensures found { AreLevelsShorter (graph_of nodes.now start.now room) → IfOk result (λ found. IsSome found) }
{
    let ways = Ways { nodes, start, room };
    let rough = search_levels(alloc, ways)?;
    let steps = within_room(alloc, ways, &rough)?;
    let Some(walk) = settle(alloc, ways, steps)? else {
        return Ok(None);
    };
    if are_outer_first(&walk.steps) {
        Ok(Some(walk))
    } else {
        Ok(None)
    }
}

/// Runs rounds until the steps stay the same: one round if they are right. Each round makes at least the steps right whose ways
/// are one byte longer than those before.
fn settle(alloc: Global, ways: Ways<'_>, rough: Vec<Step>) -> Result<Option<Walk>, AllocError>
    requires levels { HaveLevels (graph_in ways) rough.items }
    requires within { AreWithin (graph_in ways) rough.items }
    ensures stay { IfOk result (λ found. IfSome found (λ walk.
        IsRound (graph_in ways.entry) walk.steps.items walk.reached.items walk.steps.items)) }
    ensures found { AreLevelsShorter (graph_in ways.entry) → IfOk result (λ found. IsSome found) }
{
    let mut steps = rough;
    for _ in 0..=ways.room {
        let Some(walk) = round(alloc, ways, &steps)? else {
            return Ok(None);
        };
        if walk.steps == steps {
            return Ok(Some(walk));
        }
        steps = walk.steps;
    }
    Ok(None)
}

/// The shortest ways through the levels of some steps, and the steps by these ways. A round doesn't change a walk's steps.
fn round(alloc: Global, ways: Ways<'_>, steps: &[Step]) -> Result<Option<Walk>, AllocError>
    ensures ways { IfOk result (λ found. IfSome found (λ walk.
        IsRound (graph_in ways.entry) steps.now walk.reached.items walk.steps.items)) }
    ensures found { HaveLevels (graph_in ways.entry) steps.now → IfOk result (λ found. IsSome found) }
{
    let Some(reached) = shortest_ways(alloc, ways, steps)? else {
        return Ok(None);
    };
    let steps = steps_by(alloc, ways, &reached)?;
    Ok(Some(Walk { steps, reached }))
}
