//! Where the rules of definitions lead: the definitions of a dictionary as the nodes of a walk.
ghost use Rattle.std.specs.Prelude.{◌≡◌, ◌<◌, ◌^◌, All, IfOk, length, map};
ghost use Rattle.dia_book.specs.Dictionary.{definitions, groups};
ghost use Rattle.dia_breaking_ways.specs.Walks.{plain_exits, plain_node};
ghost use Rattle.dia_places.specs.Graph.{commands_from, exits_to, graph_in, listed_by, node_by, node_with};
ghost use Rattle.dia_places.specs.Paths.{ArePaths, allows, group_by, rules_at};
ghost use Rattle.dia_places.specs.Records.{paths_of, reached_by};

use dia_book::{Book, DRule, DefId};
use dia_breaking_ways::{Exits, Level, Node, Step, walk};
use std::alloc::{AllocError, Global};

/// The most definitions that a path has: a dictionary has no more.
const ROOM: u64 = 16_384;

/// A definition that a command reaches.
#[derive(Clone, Copy, PartialEq, Eq)]
pub struct Reached {
    pub def: DefId,
    /// The definition before it on its path, by its number among those that are reached, from 1; 0 for a command.
    pub outer: usize,
}

/// The definitions that a command reaches by rules whose greatest count isn't 0, each with the definition before it on a
/// shortest path. Those with the shortest path come first, and of one length those that come first in the dictionary: groups in
/// the order of their AVPs, and then commands. Of several shortest paths it is the one whose last group is in the first
/// definition in this order.
pub fn all_reached<B: Book>(alloc: Global, book: &B) -> Result<Vec<Reached>, AllocError>
    ensures paths { IfOk result (λ reached. ArePaths (B.meaning book.now) (paths_of reached.items)) }
    ensures within { IfOk result (λ reached.
        All (λ r. r.def < length (definitions (B.meaning book.now))) reached.items) }
{
    let nodes = nodes_of(alloc, book)?;
    let start = start_of(alloc, book)?;
    match walk(alloc, &nodes, &start, ROOM)? {
        Some(walk) => by_steps(alloc, &walk.steps),
        None => Ok(Vec::new(alloc)),
    }
}

/// The definitions as nodes, each at its number.
fn nodes_of<B: Book>(alloc: Global, book: &B) -> Result<Vec<Node>, AllocError>
    ensures { IfOk result (λ nodes. map plain_node nodes.items
        ≡ map (node_by (B.meaning book.now)) (definitions (B.meaning book.now))) }
{
    let mut nodes = Vec::new(alloc);
    for number in 0..count_of(book) {
        nodes.push(node_of(alloc, book, DefId::new(number))?)?;
    }
    Ok(nodes)
}

/// How many definitions there are.
fn count_of<B: Book>(book: &B) -> usize
    ensures { result ≡ length (definitions (B.meaning book.now)) }
{
    groups_of(book) + book.commands()
}

/// How many of them are of groups.
fn groups_of<B: Book>(book: &B) -> usize
    ensures { result ≡ length (groups (B.meaning book.now)) }
{
    let mut count = 0usize;
    for index in 0..book.entries() {
        if book.group(book.entry_at(index)).is_some() {
            count += 1;
        }
    }
    count
}

/// A definition as a node. No wildcard leads to it.
fn node_of<B: Book>(alloc: Global, book: &B, def: DefId) -> Result<Node, AllocError>
    requires { def < length (definitions (B.meaning book.now)) }
    ensures { IfOk result (λ node. plain_node node
        ≡ node_with (B.meaning book.now) (rules_at (B.meaning book.now) def)) }
{
    let listed = listed_by(alloc, book, &book.def(def).rules)?;
    Ok(Node {
        other: 1,
        level: Some(Level {
            least: 0,
            exits: exits_to(listed),
        }),
    })
}

/// Where rules alone lead.
fn exits_to(listed: Vec<(usize, u64)>) -> Exits
    ensures { plain_exits result ≡ exits_to listed.items }
{
    Exits {
        listed,
        beside: ROOM + 1,
    }
}

/// The numbers of the definitions of the groups that the rules allow.
fn listed_by<B: Book>(
    alloc: Global,
    book: &B,
    rules: &[DRule],
) -> Result<Vec<(usize, u64)>, AllocError>
    ensures { IfOk result (λ listed. listed.items ≡ listed_by (B.meaning book.now) rules.now) }
{
    let mut listed = Vec::new(alloc);
    for rule in rules {
        if let Some(def) = group_by(book, *rule) {
            listed.push((def.index(), 1))?;
        }
    }
    Ok(listed)
}

/// The definition of the group that a rule allows, if it allows one.
fn group_by<B: Book>(book: &B, rule: DRule) -> Option<DefId>
    ensures { result ≡ group_by (B.meaning book.now) rule }
{
    if !allows(rule) {
        return None;
    }
    let entry = book.avp(rule.key?)?;
    book.group(entry)
}

/// Whether AVPs may occur by a rule: its greatest count isn't 0.
pub(crate) fn allows(rule: DRule) -> bool
    ensures { result ≡ allows rule }
{
    rule.max != Some(0)
}

/// Where messages lead: to the commands.
fn start_of<B: Book>(alloc: Global, book: &B) -> Result<Exits, AllocError>
    ensures { IfOk result (λ start. plain_exits start ≡ (graph_in (B.meaning book.now)).start) }
{
    let mut listed = Vec::new(alloc);
    for index in 0..book.commands() {
        listed.push((book.command_at(index).index(), 1))?;
    }
    Ok(exits_to(listed))
}

/// The definitions of the steps.
fn by_steps(alloc: Global, steps: &[Step]) -> Result<Vec<Reached>, AllocError>
    requires { All (λ step. step.place < 2 ^ 32) steps.now }
    ensures { IfOk result (λ reached. reached.items ≡ map reached_by steps.now) }
{
    let mut reached = Vec::new(alloc);
    for step in steps {
        let def = DefId::new(step.place);
        let outer = step.outer;
        reached.push(Reached { def, outer })?;
    }
    Ok(reached)
}
