//! The AVPs of which there is something to report, as the nodes of a walk.
ghost use Rattle.std.specs.Prelude.{◌≡◌, IfOk, map};
ghost use Rattle.dia_breaking_ways.specs.Walks.{plain_exits, plain_level, plain_node};
ghost use Rattle.dia_breaking.specs.Nodes.{exits_in, level_in, node_in};

use crate::exits::{Exits, Inner, Outlook};
use dia_breaking_ways::{Exits as WalkExits, Level, Node};
use std::alloc::{AllocError, Global};

/// The nodes of these AVPs, in their order.
pub(crate) fn nodes_of(alloc: Global, outlooks: &[Outlook]) -> Result<Vec<Node>, AllocError>
    ensures { IfOk result (λ nodes. map plain_node nodes.items ≡ map node_in outlooks.now) }
{
    let mut nodes = Vec::new(alloc);
    for outlook in outlooks {
        nodes.push(node_of(outlook)?)?;
    }
    Ok(nodes)
}

fn node_of(outlook: &Outlook) -> Result<Node, AllocError>
    ensures { IfOk result (λ node. plain_node node ≡ node_in outlook.now) }
{
    let other = outlook.other;
    match &outlook.inner {
        Some(inner) => Ok(Node {
            other,
            level: Some(level_of(inner)?),
        }),
        None => Ok(Node { other, level: None }),
    }
}

fn level_of(inner: &Inner) -> Result<Level, AllocError>
    ensures { IfOk result (λ level. plain_level level ≡ level_in inner.now) }
{
    Ok(Level {
        least: inner.least,
        exits: walk_exits(&inner.exits)?,
    })
}

/// Where levels lead, as a walk takes it.
pub(crate) fn walk_exits(exits: &Exits) -> Result<WalkExits, AllocError>
    ensures { IfOk result (λ found. plain_exits found ≡ exits_in exits.now) }
{
    Ok(WalkExits {
        listed: exits.listed.clone()?,
        beside: exits.beside,
    })
}
