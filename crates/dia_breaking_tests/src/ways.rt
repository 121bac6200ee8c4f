//! Small graphs whose shortest ways are plain.

use dia_breaking_ways::{Exits, Level, Node, Reach, Step, Walk, walk};
use std::alloc::{AllocError, Global};

/// The `beside` of a level without a wildcard.
const CLOSED: u64 = u64::MAX;

fn exits(alloc: Global, listed: &[(usize, u64)], beside: u64) -> Result<Exits, AllocError> {
    let listed = Vec::from_slice(alloc, listed)?;
    Ok(Exits { listed, beside })
}

/// A group whose least level has the length 8, and which has no wildcard.
fn group(alloc: Global, listed: &[(usize, u64)]) -> Result<Node, AllocError> {
    let exits = exits(alloc, listed, CLOSED)?;
    Ok(Node {
        other: 16,
        level: Some(Level { least: 8, exits }),
    })
}

/// An AVP that is no group.
fn leaf(other: u64) -> Node {
    Node { other, level: None }
}

fn has(found: Option<Walk>, steps: &[Step], reached: &[Option<Reach>]) -> bool {
    match found {
        Some(walk) => walk.steps.as_slice() == steps && walk.reached.as_slice() == reached,
        None => false,
    }
}

fn step(place: usize, way: u64, outer: usize) -> Step {
    Step {
        place,
        way,
        wild: false,
        outer,
    }
}

/// A step whose way goes through a wildcard.
fn wild_step(place: usize, way: u64, outer: usize) -> Step {
    Step {
        place,
        way,
        wild: true,
        outer,
    }
}

fn reach(level: usize, length: u64) -> Option<Reach> {
    Some(Reach {
        level,
        length,
        wild: false,
    })
}

/// A way through a wildcard.
fn wild_reach(level: usize, length: u64) -> Option<Reach> {
    Some(Reach {
        level,
        length,
        wild: true,
    })
}

/// A group in a group: each way is longer by what the outer level takes.
fn chain(alloc: Global) -> Result<bool, AllocError> {
    let start = exits(alloc, &[(0, 20)], CLOSED)?;
    let nodes = vec![in alloc;
        group(alloc, &[(1, 30)])?,
        group(alloc, &[(2, 24)])?,
        leaf(12),
    ]?;
    let found = walk(alloc, &nodes, &start, 100)?;
    Ok(has(
        found,
        &[step(0, 12, 0), step(1, 34, 1)],
        &[reach(0, 20), reach(1, 42), reach(2, 58)],
    ))
}

/// Two groups lead to one AVP, and messages with it are equally long: the first level counts.
fn tie(alloc: Global) -> Result<bool, AllocError> {
    let start = exits(alloc, &[(1, 20), (0, 20)], CLOSED)?;
    let nodes = vec![in alloc;
        group(alloc, &[(2, 30)])?,
        group(alloc, &[(2, 30)])?,
        leaf(12),
    ]?;
    let found = walk(alloc, &nodes, &start, 100)?;
    Ok(has(
        found,
        &[step(0, 12, 0), step(1, 12, 0)],
        &[reach(0, 20), reach(0, 20), reach(1, 42)],
    ))
}

/// A wildcard lets in what no rule lists. An AVP that a rule lists at a length above the room stays out.
fn wildcard(alloc: Global) -> Result<bool, AllocError> {
    let start = exits(alloc, &[(0, 200)], 40)?;
    let nodes = vec![in alloc; leaf(10), leaf(12), leaf(70)]?;
    let found = walk(alloc, &nodes, &start, 100)?;
    Ok(has(found, &[], &[None, wild_reach(0, 52), None]))
}

/// A group in itself has one step.
fn in_itself(alloc: Global) -> Result<bool, AllocError> {
    let start = exits(alloc, &[], 0)?;
    let nodes = vec![in alloc; group(alloc, &[(0, 16)])?]?;
    let found = walk(alloc, &nodes, &start, 100)?;
    Ok(has(found, &[wild_step(0, 8, 0)], &[wild_reach(0, 16)]))
}

/// Two groups hold one AVP, and messages with it are equally long: the group whose rule lists it comes before the one whose
/// wildcard lets it in, which is the first level.
fn rule_or_wildcard(alloc: Global) -> Result<bool, AllocError> {
    let start = exits(alloc, &[(0, 20), (1, 20)], CLOSED)?;
    let open = Node {
        other: 16,
        level: Some(Level {
            least: 8,
            exits: exits(alloc, &[], 18)?,
        }),
    };
    let nodes = vec![in alloc; open, group(alloc, &[(2, 30)])?, leaf(12)]?;
    let found = walk(alloc, &nodes, &start, 100)?;
    Ok(has(
        found,
        &[step(0, 12, 0), step(1, 12, 0)],
        &[reach(0, 20), reach(0, 20), reach(2, 42)],
    ))
}

/// The rules of two groups list one AVP, and messages with it are equally long: the group that a rule lists comes before the one
/// that comes through a wildcard, and whose level is the first.
fn group_by_wildcard(alloc: Global) -> Result<bool, AllocError> {
    let start = exits(alloc, &[(1, 20)], 4)?;
    let nodes = vec![in alloc;
        group(alloc, &[(2, 30)])?,
        group(alloc, &[(2, 30)])?,
        leaf(97),
    ]?;
    let found = walk(alloc, &nodes, &start, 100)?;
    Ok(has(
        found,
        &[wild_step(0, 12, 0), step(1, 12, 0)],
        &[wild_reach(0, 20), reach(0, 20), reach(2, 42)],
    ))
}

/// A shorter way through a wildcard comes before a longer one by rules.
fn shorter_by_wildcard(alloc: Global) -> Result<bool, AllocError> {
    let start = exits(alloc, &[(0, 20)], 29)?;
    let nodes = vec![in alloc; group(alloc, &[(1, 30)])?, leaf(12)]?;
    let found = walk(alloc, &nodes, &start, 100)?;
    Ok(has(found, &[step(0, 12, 0)], &[reach(0, 20), wild_reach(0, 41)]))
}

#[test]
fn finds_shortest_ways(rt: HostRuntime) {
    assert!(rt; matches!(chain(rt.alloc()), Ok(true)));
    assert!(rt; matches!(tie(rt.alloc()), Ok(true)));
}

#[test]
fn lets_in_what_is_not_listed(rt: HostRuntime) {
    assert!(rt; matches!(wildcard(rt.alloc()), Ok(true)));
    assert!(rt; matches!(in_itself(rt.alloc()), Ok(true)));
}

#[test]
fn of_one_length_prefers_rules(rt: HostRuntime) {
    assert!(rt; matches!(rule_or_wildcard(rt.alloc()), Ok(true)));
    assert!(rt; matches!(group_by_wildcard(rt.alloc()), Ok(true)));
    assert!(rt; matches!(shorter_by_wildcard(rt.alloc()), Ok(true)));
}
