//! Applications that the second dictionary refuses, and for which it has no command that takes their place.

use dia_book::{Book, Class, DefHead};
use dia_ccf::{Def, Head};
use dia_dict::IndexedBook;
use dia_explain_places::{InputTexts, Note};
use dia_report::BothBooks;
use dia_upgrades::Recorded;
use std::alloc::{AllocError, Global};

/// The most applications that are reported, but for a last one.
const MOST: usize = 21;

/// A command for one application.
#[derive(Clone, Copy, PartialEq, Eq, PartialOrd, Ord)]
struct Single {
    code: u32,
    request: bool,
    app: u32,
}

/// Adds for which applications the second dictionary has a command that it refuses for the first dictionary's application. It is
/// reported of the first line after which nothing is compared: unless just one of these applications is new, it isn't known which
/// takes the place of the other. `names` are those of the commands that were asked for: all where there is none.
pub fn push_unchosen(
    note: &mut Note,
    texts: &InputTexts<'_>,
    books: &BothBooks,
    names: &[String],
    causes: &[Recorded],
) -> Result<(), AllocError> {
    let refused = refusals_of(note.allocator(), causes)?;
    if refused.is_empty() {
        return Ok(());
    }
    let new = new_in_second(note.allocator(), books)?;
    for command in &books.first.source.commands {
        match single_of(command) {
            Some(single)
                if refused.binary_search(&single.app).is_ok()
                    && is_asked(names, command)
                    && is_unchosen(&books.second.book, &new, single) => {
                push_offers(
                    note,
                    texts,
                    command.name.as_str(),
                    single.app,
                    of_kind(&new, single),
                );
                break;
            }
            _ => {}
        }
    }
    Ok(())
}

/// The applications that the lines refuse, in order.
fn refusals_of(alloc: Global, causes: &[Recorded]) -> Result<Vec<u32>, AllocError> {
    let mut refused = Vec::new(alloc);
    for cause in causes {
        if let Some(app) = refused_by(cause.words.as_str()) {
            refused.push(app)?;
        }
    }
    refused.sort_unstable();
    Ok(refused)
}

/// Of `application 5: not accepted, in 1 command, first in T` the number.
fn refused_by(words: &str) -> Option<u32> {
    let rest = words.strip_prefix("application ")?;
    let (number, _) = rest.split_once(':')?;
    number.parse::<u32>().ok()
}

/// The commands of the second dictionary for one application that the first doesn't have, in order.
fn new_in_second(alloc: Global, books: &BothBooks) -> Result<Vec<Single>, AllocError> {
    let mut new = Vec::new(alloc);
    for command in &books.second.source.commands {
        if let Some(single) = single_of(command) {
            if !has(&books.first.book, single) {
                new.push(single)?;
            }
        }
    }
    new.sort_unstable();
    Ok(new)
}

fn single_of(command: &Def) -> Option<Single> {
    match command.head {
        Head::Command {
            code,
            request,
            app: Some(app),
            ..
        } => Some(Single { code, request, app }),
        Head::Command { .. } | Head::Error { .. } | Head::Group { .. } => None,
    }
}

fn is_asked(names: &[String], command: &Def) -> bool {
    for name in names {
        if name.as_str() == command.name.as_str() {
            return true;
        }
    }
    names.is_empty()
}

impl Single {
    fn class(self) -> Class {
        if self.request {
            Class::Request
        } else {
            Class::Answer
        }
    }
}

/// Whether a dictionary has a command for just this application.
fn has(book: &IndexedBook, single: Single) -> bool {
    let Some(def) = book.select(single.code, single.class(), single.app) else {
        return false;
    };
    match book.def(def).head {
        DefHead::Command { app, .. } => app == Some(single.app),
        DefHead::Error { .. } | DefHead::Group(_) => false,
    }
}

/// Whether the second dictionary has the command, but not for its application, and not for just one that is new.
fn is_unchosen(second: &IndexedBook, new: &[Single], single: Single) -> bool {
    let class = single.class();
    second.select(single.code, class, single.app).is_none()
        && second.has_command(single.code, class)
        && of_kind(new, single).len() != 1
}

/// Those commands, of some in order, that have the code and the class of another.
fn of_kind(commands: &[Single], other: Single) -> &[Single] {
    let least = Single { app: 0, ..other };
    let from = match commands.binary_search(&least) {
        Ok(place) | Err(place) => place,
    };
    let rest = commands.get(from..).unwrap_or(commands);
    let mut count = 0usize;
    for single in rest {
        if single.code != other.code || single.request != other.request {
            break;
        }
        count = count.saturating_add(1);
    }
    rest.get(..count).unwrap_or(rest)
}

/// Adds for which applications the second dictionary has a command, if not only for some that the first has, too.
fn push_offers(note: &mut Note, texts: &InputTexts<'_>, command: &str, app: u32, new: &[Single]) {
    note.put_all(&[command, ": application "]);
    note.put_number(u64::from(app));
    note.put_all(&[": ", texts.second.name, " has it "]);
    if new.is_empty() {
        note.put_all(&["only for applications that ", texts.first.name, " has, too"]);
    } else {
        push_numbers(note, new);
    }
    note.put(", so nothing is compared after that line\n")
}

/// Adds `for applications 6, 7 and 8`, of at least two commands.
fn push_numbers(note: &mut Note, commands: &[Single]) {
    let recorded = commands.len().saturating_sub(1).min(MOST);
    note.put("for applications ");
    for (place, single) in commands.iter().take(recorded).enumerate() {
        note.put(if place == 0 { "" } else { ", " });
        note.put_number(u64::from(single.app));
    }
    match commands.get(recorded..) {
        Some([last]) => {
            note.put(" and ");
            note.put_number(u64::from(last.app));
        }
        Some(rest) => {
            note.put(" and ");
            note.put_number(rest.len() as u64);
            note.put(" more");
        }
        None => {}
    }
}
