//! The first part of each name, with its place in a source.
ghost use Rattle.std.specs.Prelude.{◌≡◌, [], IfOk, map};
ghost use Rattle.dia_terms.specs.Names.{same_bytes};
ghost use Rattle.dia_dict.specs.Resolution.{placed, part_at, firsts};
ghost use Rattle.dia_dict.specs.SourceChecks.{named_part};

use super::noting::note;
use crate::findings::{Part, PartKind};
use dia_ccf::{Decl, Def};
use indexmap::IndexMap;
use std::alloc::{AllocError, Global};

/// What has a name: a declaration, a group or a command.
pub(super) trait Named {
    ghost use Rattle.std.specs.Prelude.{ℕ, List};

    ghost name: { Self → List ℕ };

    fn name(&self) -> &str
        ensures { result.now ≡ name self.now };
}

impl Named for Decl {
    ghost use Rattle.std.specs.Prelude.{string_bytes};

    ghost name = { λ d. string_bytes d.name };

    fn name(&self) -> &str {
        &self.name
    }
}

impl Named for Def {
    ghost use Rattle.std.specs.Prelude.{string_bytes};

    ghost name = { λ d. string_bytes d.name };

    fn name(&self) -> &str {
        &self.name
    }
}

/// A declaration, a group or a command, with its place.
#[derive(Clone, Copy)]
pub(super) struct Placed<T> {
    pub part: Part,
    pub item: T,
}

pub(super) type PlacedDecl<'a> = Placed<&'a Decl>;

/// A group or a command.
pub(super) type PlacedDef<'a> = Placed<&'a Def>;

/// The first part of each name.
pub(super) type Firsts<'a, T> = IndexMap<&'a str, Placed<&'a T>>;

pub(super) fn first_parts<'a, T: Named>(
    alloc: Global,
    kind: PartKind,
    items: &'a [T],
) -> Result<Box<Firsts<'a, T>>, AllocError>
    ensures { IfOk result (λ kept. map named_part kept.value.entries
        ≡ map (λ x. (T.name x.1, x)) (firsts (λ a b. same_bytes (T.name a.1) (T.name b.1)) []
        (placed (part_at kind) items.now))) }
{
    let mut parts = Box::new(alloc, IndexMap::new(alloc))?;
    for (index, item) in items.iter().enumerate() {
        let part = kind.at(index);
        note(&mut parts, item.name(), Placed { part, item })?;
    }
    Ok(parts)
}
