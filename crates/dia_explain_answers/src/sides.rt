//! Dictionaries with the texts that they were read from, and the places of their parts in these.

use crate::books::avp_of;
use crate::texts::{Scene, push_text};
use dia_book::{DefHead, Definition, Key};
use dia_ccf::{Def, Source};
use dia_dict::{IndexedBook, Part, PartKind};
use dia_explain_places::{NamedText, Note, name_from, part_place};
use dia_report::ReadBook;

/// A dictionary, the word that names its text, the text, and what the text says.
#[derive(Clone, Copy)]
pub struct Side<'a> {
    pub book: &'a IndexedBook,
    pub name: &'a str,
    pub text: &'a str,
    pub source: &'a Source,
}

impl<'a> Side<'a> {
    /// A dictionary that was read from a text.
    pub fn of(dictionary: &NamedText<'a>, read: &'a ReadBook) -> Self {
        Side {
            book: &read.book,
            name: dictionary.name,
            text: str::from_utf8(dictionary.text).unwrap_or(""),
            source: &read.source,
        }
    }

    /// Adds a line about a part of the text, or about the dictionary, and shows the text there.
    pub fn push_part<S: Scene>(
        &self,
        note: &mut Note,
        at: Option<usize>,
        scene: &S,
        recorded: &str,
    ) {
        let text = self.text.as_bytes();
        note.put_start(self.name, text, at);
        push_text(note, scene, recorded);
        note.put("\n");
        if let Some(at) = at {
            note.put_excerpt(text, at);
        }
    }

    /// Adds the name of an AVP, or its code and vendor where the dictionary doesn't know it.
    pub fn push_name(&self, note: &mut Note, key: Key) {
        match avp_of(self.book, key) {
            Some(known) => note.put(known.name),
            None => {
                let alloc = note.allocator();
                note.put_made(format!(in alloc; "{key}"));
            }
        }
    }

    /// The place of the name of a definition, or of the name in this rule of it.
    pub fn definition_at(&self, def: &Definition, rule: Option<usize>) -> Option<usize> {
        let name = def.name.as_str();
        match def.head {
            DefHead::Group(_) => self.part_at(PartKind::Group, &self.source.groups, name, rule),
            DefHead::Command { .. } | DefHead::Error { .. } => {
                self.part_at(PartKind::Command, &self.source.commands, name, rule)
            }
        }
    }

    /// The place of the name in the declaration of an AVP, or in its definition where it has no declaration.
    pub fn avp_at(&self, name: &str) -> Option<usize> {
        for decl in &self.source.avps {
            if decl.name.as_str() == name {
                return Some(name_from(self.text, decl.at));
            }
        }
        self.part_at(PartKind::Group, &self.source.groups, name, None)
    }

    fn part_at(
        &self,
        kind: PartKind,
        defs: &[Def],
        name: &str,
        rule: Option<usize>,
    ) -> Option<usize> {
        for (index, def) in defs.iter().enumerate() {
            if def.name.as_str() == name {
                let part = Part { kind, index, rule };
                return part_place(self.text, self.source, Some(part));
            }
        }
        None
    }
}
