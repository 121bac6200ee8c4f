//! The parts of a dictionary text, and where they are in it.

ghost use Rattle.std.specs.Prelude.{◌≡◌};
ghost use Rattle.dia_explain_places.specs.Parts.{part_place};

use dia_ccf::{Decl, Def, Head, Rule, Source};
use dia_dict::{Part, PartKind, key_of_declaration, key_of_group};
use dia_explain_places::{Place, part_place, place_of};
use dia_wire::Key;

/// The parts of a source, the text that spells it, and the word that names the text.
#[derive(Clone, Copy)]
pub struct Parts<'a> {
    pub source: &'a Source,
    pub name: &'a str,
    pub text: &'a str,
}

impl<'a> Parts<'a> {
    /// How many declarations, groups and commands there are.
    pub fn count(&self) -> usize {
        let source = self.source;
        let defs = source.groups.len().saturating_add(source.commands.len());
        source.avps.len().saturating_add(defs)
    }

    pub fn decl(&self, part: Option<Part>) -> Option<&'a Decl> {
        let Part { kind, index, .. } = part?;
        match kind {
            PartKind::Declaration => self.source.avps.get(index),
            PartKind::Group | PartKind::Command => None,
        }
    }

    pub fn def(&self, part: Option<Part>) -> Option<&'a Def> {
        let Part { kind, index, .. } = part?;
        match kind {
            PartKind::Declaration => None,
            PartKind::Group => self.source.groups.get(index),
            PartKind::Command => self.source.commands.get(index),
        }
    }

    pub fn rule(&self, part: Option<Part>) -> Option<&'a Rule> {
        self.def(part)?.rules.get(part?.rule?)
    }

    pub fn head(&self, part: Option<Part>) -> Option<Head> {
        Some(self.def(part)?.head)
    }

    /// The place of the name of a part, or of the name in a rule.
    pub fn at(&self, part: Option<Part>) -> Option<usize>
        ensures { result ≡ part_place self.now.text.now self.now.source.now part }
    {
        part_place(self.text, self.source, part)
    }

    /// The line and the column of that name.
    pub fn place(&self, part: Option<Part>) -> Option<Place> {
        Some(place_of(self.text.as_bytes(), self.at(part)?))
    }

    pub fn name(&self, part: Option<Part>) -> Option<&'a str> {
        match self.def(part) {
            Some(def) => Some(def.name.as_str()),
            None => Some(self.decl(part)?.name.as_str()),
        }
    }

    /// The code and the vendor of a declaration or a group.
    pub fn key(&self, part: Option<Part>) -> Option<Key> {
        match self.def(part) {
            Some(group) => Some(key_of_group(group)),
            None => Some(key_of_declaration(self.decl(part)?)),
        }
    }
}
