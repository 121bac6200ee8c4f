//! The parts of a dictionary's text, by their names and numbers.

ghost use Rattle.std.specs.Prelude.{◌≡◌, IfOk, Some, string_bytes};

use crate::tables::{DeclTable, DefTable};
use crate::texts::{code_text, command_text, head_text, number_text};
use dia_ccf::{Def, Head, Source};
use std::alloc::{AllocError, Global};

/// The parts of a dictionary's text.
#[derive(Drop)]
pub struct Places<'s> {
    pub(crate) avps: DeclTable<'s>,
    pub(crate) groups: DefTable<'s>,
    pub(crate) commands: DefTable<'s>,
}

impl<'s> Places<'s> {
    ghost use Rattle.std.specs.Prelude.{◌≡◌, IfOk, string_bytes};
    ghost use Rattle.std.specs.Option.{option_map};
    ghost use Rattle.dia_breaking_places.specs.Parts.{parts_in, parts_of};
    ghost use Rattle.dia_breaking_places.specs.Sought.{avp_place, avp_place_of, command_for, name_of, number_of, same_command};

    /// The parts of what a text says.
    pub fn new(alloc: Global, source: &'s Source) -> Result<Places<'s>, AllocError>
        ensures { IfOk result (λ made. parts_in made ≡ parts_of source.now) }
    {
        Ok(Places {
            avps: DeclTable::new(alloc, &source.avps)?,
            groups: DefTable::new(alloc, &source.groups)?,
            commands: DefTable::new(alloc, &source.commands)?,
        })
    }

    /// The number of an AVP, by its name: of its declaration, else of its definition.
    pub(crate) fn number_of(&self, alloc: Global, name: &str) -> Result<Option<String>, AllocError>
        ensures { IfOk result (λ found. option_map (λ t. string_bytes t) found ≡ number_of (parts_in self.now) name.now) }
    {
        if let Some(decl) = self.avps.named(name) {
            return Ok(Some(number_text(alloc, decl.code, decl.vendor)?));
        }
        match self.groups.named(name) {
            Some(group) => Ok(Some(head_text(alloc, group.head)?)),
            None => Ok(None),
        }
    }

    /// The name of an AVP, by its number.
    pub(crate) fn name_of(&self, number: &str) -> Option<&'s str>
        ensures { option_map (λ t. t.now) result ≡ name_of (parts_in self.now) number.now }
    {
        match self.avps.numbered(number) {
            Some(decl) => Some(decl.name.as_str()),
            None => Some(self.groups.numbered(number)?.name.as_str()),
        }
    }

    /// The place of an AVP, by its name: of its declaration, else of its definition.
    pub(crate) fn avp_place(&self, name: &str) -> Option<usize>
        ensures { result ≡ avp_place (parts_in self.now) name.now }
    {
        match self.avps.named(name) {
            Some(decl) => Some(decl.at),
            None => Some(self.groups.named(name)?.at),
        }
    }

    /// The same, by its number.
    pub(crate) fn avp_place_of(&self, number: &str) -> Option<usize>
        ensures { result ≡ avp_place_of (parts_in self.now) number.now }
    {
        match self.avps.numbered(number) {
            Some(decl) => Some(decl.at),
            None => Some(self.groups.numbered(number)?.at),
        }
    }

    /// The command that has the messages of another dictionary's: of the application, if one is wanted, else of that of the other;
    /// else the one without an application; else the first of the code and the class.
    pub(crate) fn same_command(
        &self,
        alloc: Global,
        wanted: Option<u32>,
        other: Head,
    ) -> Result<Option<&'s Def>, AllocError>
        ensures { IfOk result (λ found. option_map (λ d. d.now) found ≡ same_command (parts_in self.now) wanted other) }
    {
        match other {
            Head::Group { .. } => Ok(None),
            Head::Command {
                code,
                request,
                app,
                ..
            } => self.command_for(alloc, code, request, wanted.or(app)),
            Head::Error { .. } => Ok(self.commands.numbered("ERR")),
        }
    }

    fn command_for(
        &self,
        alloc: Global,
        code: u32,
        request: bool,
        app: Option<u32>,
    ) -> Result<Option<&'s Def>, AllocError>
        ensures { IfOk result (λ found. option_map (λ d. d.now) found ≡ command_for (parts_in self.now) code request app) }
    {
        let own = command_text(alloc, code, request, app)?;
        if let Some(def) = self.commands.numbered(own.as_str()) {
            return Ok(Some(def));
        }
        let any = code_text(alloc, code, request)?;
        match self.commands.numbered(any.as_str()) {
            Some(def) => Ok(Some(def)),
            None => Ok(self.commands.coded(any.as_str())),
        }
    }
}
