//! The shortest way to each AVP, through levels that are known.
ghost use Rattle.std.specs.Prelude.{IfOk, IfSome, IsSome, length};
ghost use Rattle.dia_breaking_ways.specs.Stages.{HaveLevels, graph_in};
ghost use Rattle.dia_breaking_ways.specs.Openings.{AreRising};
ghost use Rattle.dia_breaking_ways.specs.Reached.{AreNone, AreListed, AreOthers, AreShortest};

use crate::graph::{Node, Reach, Step, Ways};
use crate::offers::{offer, offer_listed, within};
use crate::openings::{Opening, first_open, openings};
use crate::stages::{Stage, stages};
use std::alloc::{AllocError, Global};

/// No way to any of so many AVPs.
fn no_ways(alloc: Global, nodes: &[Node]) -> Result<Vec<Option<Reach>>, AllocError>
    ensures { IfOk result (λ best. AreNone (length nodes.now) best.items) }
{
    let mut best = Vec::new(alloc);
    for _ in nodes {
        best.push(None)?;
    }
    Ok(best)
}

/// Records the ways to the AVPs that rules list.
fn reach_listed(room: u64, stages: &[Stage<'_>], best: &mut Vec<Option<Reach>>)
    ensures { AreListed room stages.now (length stages.now) best.old.items best.new.items }
{
    for level in 0..stages.len() {
        let stage = &stages[level];
        offer_listed(
            best,
            room,
            level,
            stage.way,
            stage.wild,
            &stage.exits.listed,
        );
    }
}

/// Records the ways to the AVPs that come through wildcards.
fn reach_others(
    ways: Ways<'_>,
    stages: &[Stage<'_>],
    openings: &[Opening],
    best: &mut Vec<Option<Reach>>,
)
    requires { AreRising stages.now }
    ensures { AreOthers ways.entry.room ways.entry.nodes.now stages.now openings.now
        (length ways.entry.nodes.now) best.old.items best.new.items }
{
    for place in 0..ways.nodes.len() {
        let node = &ways.nodes[place];
        let Some(opening) = first_open(stages, openings, place) else {
            continue;
        };
        if let Some(length) = within(ways.room, opening.length, node.other) {
            let reach = Reach {
                level: opening.level,
                length,
                wild: true,
            };
            offer(best, place, reach);
        }
    }
}

/// The shortest way to each AVP through the levels of the steps.
pub(crate) fn shortest_ways(
    alloc: Global,
    ways: Ways<'_>,
    steps: &[Step],
) -> Result<Option<Vec<Option<Reach>>>, AllocError>
    ensures ways { IfOk result (λ found. IfSome found (λ best.
        AreShortest (graph_in ways.entry) steps.now best.items)) }
    ensures found { HaveLevels (graph_in ways.entry) steps.now → IfOk result (λ found. IsSome found) }
{
    let Some(stages) = stages(alloc, ways, steps)? else {
        return Ok(None);
    };
    let openings = openings(alloc, ways.room, &stages)?;
    let mut best = no_ways(alloc, ways.nodes)?;
    reach_listed(ways.room, &stages, &mut best);
    reach_others(ways, &stages, &openings, &mut best);
    Ok(Some(best))
}
