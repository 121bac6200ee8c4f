//! The levels of a message, by their numbers.
ghost use Rattle.std.specs.Prelude.{◌≡◌, IfOk, IfSome, IsSome, None, MatchBool, Contains, length};
ghost use Rattle.std.specs.List.Sorted.{IsNonDecreasing};
ghost use Rattle.dia_breaking_ways.specs.Walks.{level_of, plain_exits, stage_of};
ghost use Rattle.dia_breaking_ways.specs.Stages.{graph_in, HasPlaces, HaveLevels, IsStage, AreStages};

use crate::graph::{Exits, Step, Ways};
use std::alloc::{AllocError, Global};

/// A level in a message.
#[derive(Drop)]
pub(crate) struct Stage<'a> {
    /// What the message takes at least around it.
    pub way: u64,
    /// Whether an AVP around it comes through a wildcard.
    pub wild: bool,
    pub exits: &'a Exits,
    /// The places that a rule lists, in order.
    pub places: Vec<usize>,
}

/// The places that rules list, in order.
fn places_of(alloc: Global, listed: &[(usize, u64)]) -> Result<Vec<usize>, AllocError>
    ensures { IfOk result (λ places. HasPlaces listed.now places.items) }
{
    let mut places = Vec::new(alloc);
    for (place, _) in listed {
        places.push(*place)?;
    }
    places.sort()?;
    Ok(places)
}

impl<'a> Stage<'a> {
    fn new(alloc: Global, way: u64, wild: bool, exits: &'a Exits) -> Result<Self, AllocError>
        ensures { IfOk result (λ stage. IsStage (Some (record { way = way; wild = wild; exits = plain_exits exits.now })) stage) }
    {
        let places = places_of(alloc, &exits.listed)?;
        Ok(Stage {
            way,
            wild,
            exits,
            places,
        })
    }

    /// Whether a rule lists the place.
    pub fn lists(&self, place: usize) -> bool
        requires { IsNonDecreasing self.now.places.items }
        ensures { MatchBool result (Contains self.now.places.items place) (¬ Contains self.now.places.items place) }
    {
        self.places.binary_search(&place).is_ok()
    }
}

/// The level of a step's group.
fn stage_of<'a>(alloc: Global, ways: Ways<'a>, step: Step) -> Result<Option<Stage<'a>>, AllocError>
    ensures stage { IfOk result (λ found. IfSome found (λ stage.
        IsStage (stage_of (graph_in ways.entry) step) stage)) }
    ensures found { IfOk result (λ found. found ≡ None → level_of (graph_in ways.entry) step.place ≡ None) }
{
    let Some(node) = ways.nodes.get(step.place) else {
        return Ok(None);
    };
    let Some(level) = &node.level else {
        return Ok(None);
    };
    Ok(Some(Stage::new(alloc, step.way, step.wild, &level.exits)?))
}

/// The levels of a message: the start, and those of the steps.
pub(crate) fn stages<'a>(
    alloc: Global,
    ways: Ways<'a>,
    steps: &[Step],
) -> Result<Option<Vec<Stage<'a>>>, AllocError>
    ensures stages { IfOk result (λ found. IfSome found (λ stages.
        AreStages (graph_in ways.entry) steps.now (length steps.now) stages.items)) }
    ensures found { HaveLevels (graph_in ways.entry) steps.now → IfOk result (λ found. IsSome found) }
{
    let mut stages = Vec::new(alloc);
    stages.push(Stage::new(alloc, 0, false, ways.start)?)?;
    for step in steps {
        let Some(stage) = stage_of(alloc, ways, *step)? else {
            return Ok(None);
        };
        stages.push(stage)?;
    }
    Ok(Some(stages))
}
