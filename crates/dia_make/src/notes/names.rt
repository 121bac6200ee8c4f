//! The names of a dictionary, of which one may be meant by a word.

use dia_dict::IndexedBook;
use dia_explain_places::{Note, avp_names, command_names, nearest_command, nearest_name};
use std::alloc::{AllocError, Global};

/// What to do about a name that the base dictionary doesn't have.
const OTHER: &str =
    "hint: the names here are those of the base dictionary; --dict D takes those of the dictionary D\n";

/// A dictionary whose names are meant.
#[derive(Clone, Copy)]
pub struct NamesOf<'a> {
    pub book: &'a IndexedBook,
    /// Whether it is the base dictionary, which is taken where no other is given.
    pub is_base: bool,
}

/// The names of a dictionary's commands and AVPs.
#[derive(Drop)]
struct Names<'a> {
    commands: Vec<&'a str>,
    avps: Vec<&'a str>,
}

impl<'a> NamesOf<'a> {
    /// Adds what is meant by a word in place of a command's name.
    pub fn push_command(&self, note: &mut Note, name: &str) {
        match self.names(note.allocator()) {
            Ok(names) if names.avps.contains(&name) => note.put_all(&[
                "hint: ",
                name,
                " is an AVP, and a message begins with the line of its header\n",
            ]),
            Ok(names) => self.push_near(note, nearest_command(name, &names.commands)),
            Err(error) => note.keep(Err(error)),
        }
    }

    /// Adds what is meant by a word in place of an AVP's name.
    pub fn push_avp(&self, note: &mut Note, name: &str) {
        match self.names(note.allocator()) {
            Ok(names) => {
                let near = nearest_name(name, &names.avps);
                match nearest_name(name, &names.commands) {
                    Some(command) if near.is_none() => note.put_all(&[
                        "hint: ",
                        command,
                        " is a command, and an empty line separates two messages\n",
                    ]),
                    _ => self.push_near(note, near),
                }
            }
            Err(error) => note.keep(Err(error)),
        }
    }

    /// Adds the nearest name, if there is one.
    fn push_near(&self, note: &mut Note, near: Option<&str>) {
        match near {
            Some(near) => note.put_near(near),
            None => note.put(if self.is_base { OTHER } else { "" }),
        }
    }

    fn names(&self, alloc: Global) -> Result<Names<'a>, AllocError> {
        Ok(Names {
            commands: command_names(alloc, self.book)?,
            avps: avp_names(alloc, self.book)?,
        })
    }
}
