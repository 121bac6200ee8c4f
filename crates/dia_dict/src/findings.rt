//! What is wrong with a source, and where.
ghost use Rattle.std.specs.Prelude.{◌≡◌, Some, None, [], IfOk};
ghost use Rattle.dia_dict.specs.Resolution.{wrong, finding, part_at, rule_at};
ghost use Rattle.dia_dict.specs.SourceChecks.{recorded, plain_finding, wrong_of};

use crate::fault::{DictFault, DictKind};
use std::alloc::{AllocError, Global};

/// What a part of a source is.
#[derive(Clone, Copy)]
pub enum PartKind {
    Declaration,
    Group,
    Command,
}

/// A part of a source by its index among those of its kind, or a rule of it by the rule's index.
#[derive(Clone, Copy)]
pub struct Part {
    pub kind: PartKind,
    pub index: usize,
    pub rule: Option<usize>,
}

impl PartKind {
    /// The part of this kind with this index.
    pub(crate) fn at(self, index: usize) -> Part
        ensures { result ≡ part_at self index }
    {
        Part {
            kind: self,
            index,
            rule: None,
        }
    }
}

impl Part {
    /// The rule of this part with this index.
    pub(crate) fn rule_at(self, index: usize) -> Part
        ensures { result ≡ rule_at self index }
    {
        Part {
            kind: self.kind,
            index: self.index,
            rule: Some(index),
        }
    }
}

/// What is reported of a fault: the names are those of `DictFault`, and parts of the source.
#[derive(Debug, Clone, Copy)]
pub struct Recorded<'a> {
    pub kind: DictKind,
    pub name: &'a str,
    pub slot: &'a str,
}

/// A fault of a source.
#[derive(Clone, Copy)]
pub struct Finding<'a> {
    pub recorded: Recorded<'a>,
    /// What has the fault. A source with too many parts has it as a whole.
    pub part: Option<Part>,
    /// What it conflicts with: the first of those that it is like, or the declaration of a group.
    pub other: Option<Part>,
}

impl<'a> Recorded<'a> {
    /// A fault of a definition or an AVP.
    pub(crate) fn of(kind: DictKind, name: &'a str) -> Self
        ensures { recorded result ≡ wrong kind name.now [] }
    {
        Recorded {
            kind,
            name,
            slot: "",
        }
    }

    /// A fault of a definition's rule.
    pub(crate) fn of_rule(kind: DictKind, name: &'a str, slot: &'a str) -> Self
        ensures { recorded result ≡ wrong kind name.now slot.now }
    {
        Recorded { kind, name, slot }
    }

    /// The finding that this part has the fault.
    pub(crate) fn at(self, part: Part) -> Finding<'a>
        ensures { plain_finding result ≡ finding (recorded self.entry) part None }
    {
        Finding {
            recorded: self,
            part: Some(part),
            other: None,
        }
    }

    /// The finding that the source as a whole has the fault.
    pub(crate) fn of_source(self) -> Finding<'a>
        ensures { plain_finding result
            ≡ record { wrong = recorded self.entry; part = None; other = None } }
    {
        Finding {
            recorded: self,
            part: None,
            other: None,
        }
    }

    /// The finding that this part has the fault, and conflicts with the other.
    pub(crate) fn at_both(self, part: Part, other: Option<Part>) -> Finding<'a>
        ensures { plain_finding result ≡ finding (recorded self.entry) part other }
    {
        Finding {
            recorded: self,
            part: Some(part),
            other,
        }
    }

    /// The fault, with copies of the names.
    pub(crate) fn fault(self, alloc: Global) -> Result<DictFault, AllocError>
        ensures { IfOk result (λ fault. wrong_of fault ≡ Some (recorded self.entry)) }
    {
        let name = String::from_str(alloc, self.name)?;
        let slot = String::from_str(alloc, self.slot)?;
        Ok(DictFault::Stands {
            kind: self.kind,
            name,
            slot,
        })
    }
}
