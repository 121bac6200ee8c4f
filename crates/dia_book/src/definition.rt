ghost use Rattle.std.proofs.Props.{props};
ghost use Rattle.dia_book.specs.Shapes.{IsShape};

use crate::shape::Shape;
use dia_terms::{Pxy, RuleKind};
use dia_wire::Key;

/// The class of a message, by its R and E flags (RFC 6733 section 3).
#[derive(Clone, Copy, PartialEq, Eq, Hash)]
pub enum Class {
    /// R is set, and E is clear.
    Request,
    /// Both are clear.
    Answer,
    /// R is clear, and E is set.
    Error,
}

/// What a definition is for.
#[derive(Clone, Copy, PartialEq, Eq)]
pub enum DefHead {
    /// The data of a Grouped AVP.
    Group(Key),
    /// The messages of a command code, a class that is not Error, and an application or all that no other definition names.
    /// `p` is what the P flag may be.
    Command {
        code: u32,
        class: Class,
        app: Option<u32>,
        p: Pxy,
    },
    /// All messages of the class Error (RFC 6733 section 7.2).
    Error {
        p: Pxy,
    },
}

/// A rule of a definition (RFC 6733 section 3.2): how often an AVP may occur there, with no greatest count where `max` is
/// none, and never where it is 0. One without a key is the wildcard, for all AVPs that the definition does not list; its
/// counts are of them all together (our profile).
#[derive(Clone, Copy, PartialEq, Eq)]
pub struct DRule {
    pub kind: RuleKind,
    pub key: Option<Key>,
    pub min: u32,
    pub max: Option<u32>,
}

/// A group or a command: what its level of AVPs is made of.
#[derive(Drop)]
pub struct Definition {
    pub name: String,
    pub head: DefHead,
    pub rules: Vec<DRule>,
    /// What the rules say of each level, so that no level has to look for it.
    pub shape: Shape,
    ghost shaped: { IsShape rules.items shape } by { Prim.hlevel props },
}

/// Where a key belongs in a definition, by its rule's place from 0.
#[derive(Debug, Clone, Copy, PartialEq, Eq)]
pub enum Slot {
    /// Among the fixed rules, whose AVPs come first and in order.
    Fixed(usize),
    /// Among the others, whose AVPs follow in any order.
    Loose(usize),
    /// Nowhere: the wildcard's, if there is one.
    Unlisted,
}
