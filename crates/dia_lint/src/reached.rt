//! Which levels and AVPs valid messages have.
ghost use Rattle.std.specs.Prelude.{◌≡◌, ◌<◌, ◌+◌, ◌++◌, nat_le, IfOk, IfSome, OnOk, is_some, length, map, option_and_then};
ghost use Rattle.std.specs.Prelude.{option_to_list, slice_get};
ghost use Rattle.std.specs.List.{filter_map};
ghost use Rattle.dia_book.specs.Dictionary.{definitions};
ghost use Rattle.dia_breaking_levels.specs.LevelTests.{too_long};
ghost use Rattle.dia_breaking_ways.specs.Walks.{IsWalk, plain_exits, plain_node};
ghost use Rattle.dia_lint.specs.Ways.{AreAvpsReached, AreNoWays, AreOfSide, AreReachedBy, AreWays, HaveWays, IsReached, command_node, cost_of, entry_node};
ghost use Rattle.dia_lint.specs.Ways.{exit_by, exits_of, graph_in, has_in, listed_in, nodes_of, side_of, start_of, way_in};
ghost use Rattle.dia_valid.specs.Rules.{rules_in};

use crate::books::{command_at, group_of, rules_of};
use crate::costs::Lengths;
use crate::levels::LevelCost;
use dia_book::{Book, DRule, DefId, Entry};
use dia_breaking_levels::{Costs, TOO_LONG};
use dia_breaking_shortest::shortest_head;
use dia_breaking_ways::{Exits, Level, Node, Walk, walk};
use std::alloc::{AllocError, Global};

/// The most bytes that a walk may take: the body of a message, with one byte around it that stands for the choice of a command.
const ROOM: u64 = TOO_LONG;

/// The byte around the body of a command's message.
const CHOICE: u64 = 1;

/// What messages have, by the least lengths of what a side sends.
#[derive(Drop)]
pub(crate) struct Reached {
    /// For each entry whether a message has an AVP of it.
    avps: Vec<bool>,
    /// For each entry, and then each command, what a message takes at least around a level of its definition, if one has such a
    /// level.
    ways: Vec<Option<u64>>,
}

impl Reached {
    pub fn of<B: Book>(alloc: Global, lengths: &Lengths<'_, B>) -> Result<Self, AllocError>
        requires { AreOfSide (side_of B.meaning lengths.now) }
        ensures { IfOk result (IsReached (side_of B.meaning lengths.now)) }
    {
        let nodes = nodes(alloc, lengths)?;
        let start = start(alloc, lengths)?;
        match walk(alloc, &nodes, &start, ROOM)? {
            Some(walk) => reached_by(alloc, lengths.book.entries(), &walk),
            None => all_reached(alloc, lengths.book.entries()),
        }
    }

    /// Whether a message has an AVP of this entry.
    pub fn has(&self, entry: Entry) -> bool
        ensures { result ≡ has_in self.now entry }
    {
        self.avps.get(entry.index()).copied().unwrap_or(false)
    }

    /// Of each entry whether a message has an AVP of it.
    pub fn into_avps(self) -> Vec<bool>
        ensures { result ≡ self.avps }
    {
        let Reached { avps, ways: _ } = self;
        avps
    }

    /// What a message takes at least around a level of the definition at a place: of an entry's group, or behind all entries of a
    /// command.
    pub fn way(&self, place: usize) -> Option<u64>
        ensures { result ≡ way_in self.now place }
    {
        match self.ways.get(place) {
            Some(way) => *way,
            None => None,
        }
    }
}

/// Whether a message has room for a level of this length where it takes so much around it.
pub(crate) fn has_room(way: u64, length: u64) -> bool
    ensures { result ≡ nat_le (way + length) too_long }
{
    way.saturating_add(length) <= ROOM
}

fn reached_by(alloc: Global, entries: usize, walk: &Walk) -> Result<Reached, AllocError>
    ensures { IfOk result (AreReachedBy entries walk.now.steps.items walk.now.reached.items) }
{
    let avps = avps_of(alloc, entries, walk)?;
    let ways = ways_of(alloc, walk)?;
    Ok(Reached { avps, ways })
}

fn avps_of(alloc: Global, entries: usize, walk: &Walk) -> Result<Vec<bool>, AllocError>
    ensures { IfOk result (λ avps. AreAvpsReached walk.now.reached.items entries avps.items) }
{
    let mut avps = Vec::new(alloc);
    for place in 0..entries {
        avps.push(is_reached(walk, place))?;
    }
    Ok(avps)
}

fn is_reached(walk: &Walk, place: usize) -> bool
    ensures { result ≡ is_some (option_and_then (λ way. way) (slice_get walk.now.reached.items place)) }
{
    match walk.reached.get(place) {
        Some(reach) => reach.is_some(),
        None => false,
    }
}

fn ways_of(alloc: Global, walk: &Walk) -> Result<Vec<Option<u64>>, AllocError>
    ensures ways { IfOk result (λ ways. AreWays walk.now.steps.items ways.items) }
    ensures each { IfOk result (λ ways. HaveWays (length walk.now.reached.items) walk.now.steps.items ways.items) }
{
    let mut ways = no_ways(alloc, walk.reached.len())?;
    for step in &walk.steps {
        if step.place < ways.len() {
            ways[step.place] = Some(step.way);
        }
    }
    Ok(ways)
}

fn no_ways(alloc: Global, nodes: usize) -> Result<Vec<Option<u64>>, AllocError>
    ensures { IfOk result (λ ways. AreNoWays nodes ways.items) }
{
    let mut ways = Vec::new(alloc);
    for _ in 0..nodes {
        ways.push(None)?;
    }
    Ok(ways)
}

/// All AVPs, and no level, so that nothing is reported. It is never called: a walk goes through each graph of levels that are
/// shorter than their AVPs, as these are.
fn all_reached(alloc: Global, entries: usize) -> Result<Reached, AllocError> {
    let mut avps = Vec::new(alloc);
    for _ in 0..entries {
        avps.push(true)?;
    }
    Ok(Reached {
        avps,
        ways: Vec::new(alloc),
    })
}

/// The entries, and then the commands.
fn nodes<B: Book>(alloc: Global, lengths: &Lengths<'_, B>) -> Result<Vec<Node>, AllocError>
    ensures { IfOk result (λ nodes. map plain_node nodes.items ≡ nodes_of (side_of B.meaning lengths.now)) }
{
    let mut nodes = entry_nodes(alloc, lengths)?;
    push_commands(alloc, &mut nodes, lengths)?;
    Ok(nodes)
}

fn entry_nodes<B: Book>(alloc: Global, lengths: &Lengths<'_, B>) -> Result<Vec<Node>, AllocError>
    ensures { IfOk result (λ nodes. map plain_node nodes.items
        ≡ map (entry_node (side_of B.meaning lengths.now)) (B.meaning lengths.now.book.now).entries) }
{
    let mut nodes = Vec::new(alloc);
    for index in 0..lengths.book.entries() {
        nodes.push(entry_node(alloc, lengths, lengths.book.entry_at(index))?)?;
    }
    Ok(nodes)
}

fn push_commands<B: Book>(
    alloc: Global,
    nodes: &mut Vec<Node>,
    lengths: &Lengths<'_, B>,
) -> Result<(), AllocError>
    ensures { OnOk result (map plain_node nodes.new.items
        ≡ map plain_node nodes.old.items ++ map (command_node (side_of B.meaning lengths.now)) (B.meaning lengths.now.book.now).commands) }
{
    for index in 0..lengths.book.commands() {
        nodes.push(command_node(alloc, lengths, command_at(lengths.book, index))?)?;
    }
    Ok(())
}

fn entry_node<B: Book>(
    alloc: Global,
    lengths: &Lengths<'_, B>,
    entry: Entry,
) -> Result<Node, AllocError>
    requires { entry < length (B.meaning lengths.now.book.now).entries }
    ensures { IfOk result (λ node. IfSome (slice_get (B.meaning lengths.now.book.now).entries entry)
        (λ e. plain_node node ≡ entry_node (side_of B.meaning lengths.now) e)) }
{
    let key = lengths.book.entry_key(entry);
    let other = lengths.other(key);
    let Some(def) = group_of(lengths.book, entry) else {
        return Ok(Node { other, level: None });
    };
    let exits = exits(alloc, lengths, def)?;
    let least = lengths.key(key).saturating_sub(shortest_head(key));
    let level = Some(Level { least, exits });
    Ok(Node { other, level })
}

/// A command as an AVP that only the start lists. Its level is that of the messages.
fn command_node<B: Book>(
    alloc: Global,
    lengths: &Lengths<'_, B>,
    def: DefId,
) -> Result<Node, AllocError>
    requires { def < length (definitions (B.meaning lengths.now.book.now)) }
    ensures { IfOk result (λ node. IfSome (slice_get (definitions (B.meaning lengths.now.book.now)) def)
        (λ x. plain_node node ≡ command_node (side_of B.meaning lengths.now) x)) }
{
    let exits = exits(alloc, lengths, def)?;
    let least = LevelCost::of(lengths, def).base;
    let level = Some(Level { least, exits });
    Ok(Node {
        other: ROOM + CHOICE,
        level,
    })
}

/// The choice of a command.
fn start<B: Book>(alloc: Global, lengths: &Lengths<'_, B>) -> Result<Exits, AllocError>
    ensures { IfOk result (λ start. plain_exits start ≡ start_of (side_of B.meaning lengths.now)) }
{
    let entries = lengths.book.entries();
    let mut listed = Vec::new(alloc);
    for index in 0..lengths.book.commands() {
        let base = LevelCost::of(lengths, command_at(lengths.book, index)).base;
        listed.push((entries + index, base + CHOICE))?;
    }
    Ok(Exits {
        listed,
        beside: ROOM + CHOICE,
    })
}

/// Where the levels of a definition lead.
fn exits<B: Book>(alloc: Global, lengths: &Lengths<'_, B>, def: DefId) -> Result<Exits, AllocError>
    requires { def < length (definitions (B.meaning lengths.now.book.now)) }
    ensures { IfOk result (λ exits. plain_exits exits ≡ exits_of (side_of B.meaning lengths.now) (rules_in (B.meaning lengths.now.book.now) def)) }
{
    let cost = LevelCost::of(lengths, def);
    let listed = exits_by(alloc, lengths, &cost, rules_of(lengths.book, def))?;
    Ok(Exits {
        listed,
        beside: cost.beside,
    })
}

fn exits_by<B: Book>(
    alloc: Global,
    lengths: &Lengths<'_, B>,
    cost: &LevelCost,
    rules: &[DRule],
) -> Result<Vec<(usize, u64)>, AllocError>
    ensures { IfOk result (λ listed. listed.items ≡ filter_map (exit_by (side_of B.meaning lengths.now) cost.now) rules.now) }
{
    let mut listed = Vec::new(alloc);
    for rule in rules {
        push_exit(&mut listed, exit_by(lengths, cost, rule))?;
    }
    Ok(listed)
}

fn push_exit(listed: &mut Vec<(usize, u64)>, exit: Option<(usize, u64)>) -> Result<(), AllocError>
    ensures { OnOk result (listed.new.items ≡ listed.old.items ++ option_to_list exit) }
{
    if let Some(exit) = exit {
        listed.push(exit)?;
    }
    Ok(())
}

/// The place of the rule's AVP, and the length of a least level that has one.
fn exit_by<B: Book>(
    lengths: &Lengths<'_, B>,
    cost: &LevelCost,
    rule: &DRule,
) -> Option<(usize, u64)>
    ensures { result ≡ exit_by (side_of B.meaning lengths.now) cost.now rule.now }
{
    let key = rule.key?;
    let entry = lengths.book.avp(key)?;
    Some((entry.index(), cost.with_listed(rule, lengths.key(key))))
}
