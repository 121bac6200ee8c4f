//! Levels and AVPs as a graph: where levels lead, and the shortest ways through them.

/// Where the levels of a definition lead.
#[derive(Drop)]
pub struct Exits {
    /// The AVPs that a rule lists, by their places among the nodes, and the length of a least level that has one.
    pub listed: Vec<(usize, u64)>,
    /// What a least level takes besides an AVP that comes through the wildcard. It is above the room if there is no wildcard.
    pub beside: u64,
}

/// The level of an AVP that is Grouped for both sides.
#[derive(Drop)]
pub struct Level {
    /// The length of a least one.
    pub least: u64,
    pub exits: Exits,
}

/// An AVP of which there is something to report. It is named by its place in the list of nodes.
#[derive(Drop)]
pub struct Node {
    /// The length of a shortest one that comes through a wildcard.
    pub other: u64,
    pub level: Option<Level>,
}

/// The level of a group in a shortest message that has one.
#[derive(Clone, Copy, PartialEq, Eq)]
pub struct Step {
    /// The place of the group's AVP.
    pub place: usize,
    /// What the message takes at least around the level.
    pub way: u64,
    /// Whether the group's AVP, or one around it, comes through a wildcard.
    pub wild: bool,
    /// The level round it: 0 is the start, the command's level, and i + 1 that of step i.
    pub outer: usize,
}

/// A shortest way to an AVP.
#[derive(Clone, Copy, PartialEq, Eq)]
pub struct Reach {
    /// The level that holds the AVP, numbered as in `Step`.
    pub level: usize,
    /// What the AVPs of a shortest message with one take.
    pub length: u64,
    /// Whether the AVP, or one around it, comes through a wildcard.
    pub wild: bool,
}

/// The shortest ways from a start to the levels of groups, and to AVPs.
#[derive(Drop)]
pub struct Walk {
    /// The levels of groups, those with the shortest way first.
    pub steps: Vec<Step>,
    /// The shortest way to each node, if a message has room for one.
    pub reached: Vec<Option<Reach>>,
}

/// What a walk goes through: the AVPs, where the command's level leads, and how long messages may be.
#[derive(Clone, Copy)]
pub(crate) struct Ways<'a> {
    pub nodes: &'a [Node],
    pub start: &'a Exits,
    pub room: u64,
}
