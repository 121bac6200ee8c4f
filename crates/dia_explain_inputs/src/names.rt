//! The names that a dictionary has.

use dia_ccf::{Def, Source};
use dia_explain_places::{Note, nearest_command, nearest_name};
use std::alloc::{AllocError, Global};

/// What a dictionary's text says, and the word that names the text.
#[derive(Clone, Copy)]
pub struct NamedSource<'a> {
    pub name: &'a str,
    pub source: &'a Source,
}

/// Which names are meant: those of commands, or those of AVPs.
#[derive(Clone, Copy, PartialEq, Eq)]
pub enum Named {
    Command,
    Avp,
}

/// The names of a dictionary, each kind in order, to look them up.
#[derive(Drop)]
pub struct Vocabulary<'a> {
    pub dictionary: NamedSource<'a>,
    commands: Vec<&'a str>,
    avps: Vec<&'a str>,
}

/// The names of commands, or those of declarations and groups.
pub fn names_of<'a>(
    alloc: Global,
    source: &'a Source,
    named: Named,
) -> Result<Vec<&'a str>, AllocError> {
    match named {
        Named::Command => defined(Vec::new(alloc), &source.commands),
        Named::Avp => {
            let mut names = Vec::new(alloc);
            for decl in &source.avps {
                names.push(decl.name.as_str())?;
            }
            defined(names, &source.groups)
        }
    }
}

/// These names, and those of definitions.
fn defined<'a>(names: Vec<&'a str>, defs: &'a [Def]) -> Result<Vec<&'a str>, AllocError> {
    let mut names = names;
    for def in defs {
        names.push(def.name.as_str())?;
    }
    Ok(names)
}

impl<'a> Vocabulary<'a> {
    pub fn of(alloc: Global, dictionary: &NamedSource<'a>) -> Result<Self, AllocError> {
        let mut commands = names_of(alloc, dictionary.source, Named::Command)?;
        commands.sort_unstable();
        let mut avps = names_of(alloc, dictionary.source, Named::Avp)?;
        avps.sort_unstable();
        Ok(Vocabulary {
            dictionary: *dictionary,
            commands,
            avps,
        })
    }

    pub fn has(&self, named: Named, name: &str) -> bool {
        let names = match named {
            Named::Command => &self.commands,
            Named::Avp => &self.avps,
        };
        names.binary_search(&name).is_ok()
    }

    /// Adds what is meant by an unknown name, and returns whether that is known. `instead` says what it is where it is one of the
    /// other names.
    pub fn push_meant(&self, note: &mut Note, named: Named, name: &str, instead: &str) -> bool {
        let other = match named {
            Named::Command => Named::Avp,
            Named::Avp => Named::Command,
        };
        if self.has(other, name) {
            note.put_all(&["hint: ", name, " is ", instead, "\n"]);
            return true;
        }
        match self.near(note.allocator(), named, name) {
            Ok(Some(near)) => {
                note.put_near(near);
                true
            }
            Ok(None) => false,
            Err(error) => {
                note.keep(Err(error));
                false
            }
        }
    }

    /// The name that is nearest to another.
    fn near(&self, alloc: Global, named: Named, name: &str) -> Result<Option<&'a str>, AllocError> {
        let names = names_of(alloc, self.dictionary.source, named)?;
        Ok(match named {
            Named::Command => nearest_command(name, &names),
            Named::Avp => nearest_name(name, &names),
        })
    }
}
