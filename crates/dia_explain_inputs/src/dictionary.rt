//! The diagnostic of a dictionary that is refused, and of one that has no entries.

ghost use Rattle.std.specs.Prelude.{◌≡◌};
ghost use Rattle.std.specs.Str.{IsUtf8};
ghost use Rattle.dia_explain_inputs.specs.Beginnings.{DictionaryBegins, MisfitBegins, RecordsFirst};

mod causes;
mod expecting;
mod meaning;
mod scene;
mod shipped;

use crate::kinds::{RETURNS, is_capture, is_cut_by_comment};
use crate::messages::push_capture;
use crate::notes::{push_line_column, push_made, push_not_text, push_too_long};
use causes::push_cause;
use dia_ccf::{MAX_TEXT, Misfit, next_lexeme};
use dia_explain_places::{NamedText, Note, place_of};
use dia_report::{BadDictionary, WrongSource};
use meaning::push_meaning;
use scene::Scene;
use std::alloc::{AllocError, Global};

/// The word for a dictionary or a table without lines.
pub const NO_LINES: &str = "@none";

const CAPTURED: &str =
    "the dictionary comes before the messages, and docs/CAPTURES.md says how to take these out of a capture";

/// Adds the diagnostic of a dictionary that is refused for this reason.
pub fn push_dictionary(note: &mut Note, dictionary: &NamedText<'_>, why: &BadDictionary)
    ensures { IsUtf8 dictionary.now.text.now
        → DictionaryBegins dictionary.now.name.now dictionary.now.text.now why.now note.old note.new }
{
    match why {
        BadDictionary::Wrong(wrong) => push_wrong(note, dictionary, wrong),
        BadDictionary::NoSource(misfit) => push_syntax(note, dictionary, misfit),
        BadDictionary::NotText { .. } if is_capture(dictionary.text) => {
            push_capture(note, dictionary.name, "the text of a dictionary", CAPTURED)
        }
        BadDictionary::NotText { at } => push_not_text(note, dictionary, *at),
        BadDictionary::TooLong => push_long(note, dictionary.name),
    }
}

/// Adds the diagnostic of a text that spells a source which names no dictionary.
fn push_wrong(note: &mut Note, dictionary: &NamedText<'_>, wrong: &WrongSource)
    ensures { IsUtf8 dictionary.now.text.now
        → RecordsFirst dictionary.now.name.now dictionary.now.text.now wrong.now note.old note.new }
{
    push_meaning(note, dictionary.name, spelt(dictionary.text), wrong);
}

/// The text that bytes are in UTF-8, or none.
fn spelt(text: &[u8]) -> &str
    ensures { IsUtf8 text.entry.now → result.now ≡ text.entry.now }
{
    str::from_utf8(text).unwrap_or("")
}

fn push_long(note: &mut Note, name: &str) {
    push_too_long(note, name, MAX_TEXT);
    note.put_hint(
        "leave out what the comparison doesn't need; render writes a dictionary without its comments",
    );
    note.put_hint("if this is a message or a capture: the dictionary comes before it");
}

/// Adds the diagnostic of a text that the grammar doesn't derive: the token, what was expected, its line, and a hint.
fn push_syntax(note: &mut Note, dictionary: &NamedText<'_>, misfit: &Misfit)
    ensures { MisfitBegins dictionary.now.name.now dictionary.now.text.now misfit.now note.old note.new }
{
    let scene = Scene::new(spelt(dictionary.text), misfit);
    let recorded = syntax_recorded(note.allocator(), &scene);
    push_made(note, dictionary, Some(misfit.at), recorded);
}

/// The diagnostic of a fault's place: what is wrong, its line, and the hint.
fn syntax_recorded(alloc: Global, scene: &Scene<'_>) -> Result<String, AllocError> {
    let mut recorded = Note::new(alloc);
    scene.push_fault(&mut recorded);
    push_line(&mut recorded, scene);
    push_cause(&mut recorded, scene);
    recorded.finish()
}

/// Ends a fault's diagnostic, and adds its line. Where a fixed rule after others was read as the name of a definition on an
/// earlier line, the place and the line of that name are added.
fn push_line(recorded: &mut Note, scene: &Scene<'_>) {
    let shown = match scene.late_name() {
        Some(name) => {
            recorded.put("; the name is at ");
            push_line_column(recorded, place_of(scene.text, name.at));
            name.at
        }
        None => scene.misfit.at,
    };
    recorded.put("\n");
    recorded.put_excerpt(scene.text, shown);
}

/// Adds that a dictionary's text has neither declarations nor definitions, or that the rest of it is a comment. A missing input
/// and the dictionary without lines add nothing.
pub fn push_empty(note: &mut Note, dictionary: &NamedText<'_>) {
    let NamedText { name, text } = *dictionary;
    if name.is_empty() || name == NO_LINES {
        return;
    }
    let is_cut = is_cut_by_comment(text);
    let is_empty = match str::from_utf8(text) {
        Ok(text) => next_lexeme(text, 0).is_none(),
        Err(_) => false,
    };
    let recorded = if is_empty {
        ": the dictionary is empty: it has no declaration and no definition\n"
    } else if is_cut {
        ": all that follows the first ; of the dictionary is a comment\n"
    } else {
        return;
    };
    note.put_all(&[name, recorded]);
    if is_cut {
        note.put_hint(RETURNS);
    }
}
