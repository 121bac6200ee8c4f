ghost use Rattle.std.specs.Prelude.{◌≡◌, IfOk, map, find};
ghost use Rattle.std.specs.List.{list_any};
ghost use Rattle.std.specs.Option.{option_map};
ghost use Rattle.std.proofs.Props.{props};
ghost use Rattle.dia_ccf.specs.Plain.{plain_source, plain_decl, plain_def};
ghost use Rattle.dia_dict.specs.Resolution.{placed_avps, placed_groups, placed_commands};
ghost use Rattle.dia_dict.specs.Resolution.{first_decls, first_defs, names_decl, names_def};
ghost use Rattle.dia_dict.specs.Resolution.{key_of_name, key_of_decl, group_key};
ghost use Rattle.dia_dict.specs.SourceChecks.{placed_decl, placed_def, named_decl, named_def};

use super::parts::{Firsts, PlacedDecl, PlacedDef, first_parts};
use crate::findings::PartKind;
use dia_ccf::{Decl, Def, Head, Source};
use dia_wire::Key;
use std::alloc::{AllocError, Global};

/// A source, with the first part of each name.
#[derive(Drop)]
pub(super) struct Names<'a> {
    pub source: &'a Source,
    avps: Box<Firsts<'a, Decl>>,
    groups: Box<Firsts<'a, Def>>,
    commands: Box<Firsts<'a, Def>>,
    ghost kept_avps: { map named_decl avps.value.entries
        ≡ map (λ d. (d.1.name, d)) (first_decls (placed_avps (plain_source source.now))) } by { Prim.hlevel props },
    ghost kept_groups: { map named_def groups.value.entries
        ≡ map (λ d. (d.1.name, d)) (first_defs (placed_groups (plain_source source.now))) } by { Prim.hlevel props },
    ghost kept_commands: { map named_def commands.value.entries
        ≡ map (λ d. (d.1.name, d)) (first_defs (placed_commands (plain_source source.now))) } by { Prim.hlevel props },
}

impl<'a> Names<'a> {
    /// The names of a source.
    pub(super) fn new(alloc: Global, source: &'a Source) -> Result<Self, AllocError>
        ensures { IfOk result (λ names. names.source.now ≡ source.now) }
    {
        let avps = first_parts(alloc, PartKind::Declaration, &source.avps)?;
        let groups = first_parts(alloc, PartKind::Group, &source.groups)?;
        let commands = first_parts(alloc, PartKind::Command, &source.commands)?;
        Ok(Names {
            source,
            avps,
            groups,
            commands,
        })
    }

    /// The first declaration of each name.
    pub(super) fn first_avps(&self) -> &[PlacedDecl<'a>]
        ensures { map placed_decl result.now ≡ first_decls (placed_avps (plain_source self.now.source.now)) }
    {
        self.avps.values().as_slice()
    }

    /// The first group of each name.
    pub(super) fn first_groups(&self) -> &[PlacedDef<'a>]
        ensures { map placed_def result.now ≡ first_defs (placed_groups (plain_source self.now.source.now)) }
    {
        self.groups.values().as_slice()
    }

    /// The first command of each name.
    pub(super) fn first_commands(&self) -> &[PlacedDef<'a>]
        ensures { map placed_def result.now ≡ first_defs (placed_commands (plain_source self.now.source.now)) }
    {
        self.commands.values().as_slice()
    }

    /// The declaration of a name.
    pub(super) fn placed_declaration(&self, name: &str) -> Option<PlacedDecl<'a>>
        ensures { option_map placed_decl result
            ≡ find (λ d. names_decl name.now d.1) (placed_avps (plain_source self.now.source.now)) }
    {
        self.avps.get(&name).copied()
    }

    /// The declaration of a name, without its place.
    pub(super) fn declaration(&self, name: &str) -> Option<&'a Decl>
        ensures { option_map (λ d. plain_decl d.now) result
            ≡ find (names_decl name.now) (plain_source self.now.source.now).avps }
    {
        match self.placed_declaration(name) {
            Some(placed) => Some(placed.item),
            None => None,
        }
    }

    /// The group of a name.
    pub(super) fn group(&self, name: &str) -> Option<&'a Def>
        ensures { option_map (λ d. plain_def d.now) result
            ≡ find (names_def name.now) (plain_source self.now.source.now).groups }
    {
        match self.groups.get(&name) {
            Some(placed) => Some(placed.item),
            None => None,
        }
    }

    /// Whether a declaration has the name.
    pub(super) fn is_declared(&self, name: &str) -> bool
        ensures { result ≡ list_any (names_decl name.now) (plain_source self.now.source.now).avps }
    {
        self.avps.contains_key(&name)
    }

    /// Whether a group has the name.
    pub(super) fn is_group(&self, name: &str) -> bool
        ensures { result ≡ list_any (names_def name.now) (plain_source self.now.source.now).groups }
    {
        self.groups.contains_key(&name)
    }

    /// The key that a name means: that of its declaration, else that of its group.
    pub(super) fn key(&self, name: &str) -> Option<Key>
        ensures { result ≡ key_of_name (plain_source self.now.source.now) name.now }
    {
        match self.declaration(name) {
            Some(decl) => Some(key_of_declaration(decl)),
            None => Some(key_of_group(self.group(name)?)),
        }
    }
}

/// The code and the vendor of a declaration.
pub fn key_of_declaration(decl: &Decl) -> Key
    ensures { result ≡ key_of_decl (plain_decl decl.now) }
{
    Key {
        code: decl.code,
        vendor: decl.vendor,
    }
}

/// The code and the vendor in a group's header.
pub fn key_of_group(group: &Def) -> Key
    ensures { result ≡ group_key group.now.head }
{
    match group.head {
        Head::Group { code, vendor } => Key { code, vendor },
        Head::Command { code, .. } => Key { code, vendor: 0 },
        Head::Error { .. } => Key { code: 0, vendor: 0 },
    }
}
