//! What all diagnostics are made of.

ghost use Rattle.dia_explain_places.specs.Notes.{Gains};
ghost use Rattle.dia_explain_places.specs.Places.{place_text, start_text};
ghost use Rattle.dia_explain_inputs.specs.Beginnings.{BeginsWith, note_text};

use dia_explain_places::{NamedText, Note, Place};
use std::alloc::AllocError;

/// The hint about a text that isn't UTF-8.
pub const SAVE: &str = "save the file as UTF-8";

/// Adds the diagnostic of a whole input, and the hint.
pub fn push_whole(note: &mut Note, input: &NamedText<'_>, recorded: &str, hint: &str) {
    note.put_all(&[input.name, ": ", recorded, "\nhint: ", hint, "\n"]);
}

/// Adds that an input is longer than a limit.
pub fn push_too_long(note: &mut Note, name: &str, limit: usize) {
    note.put_all(&[name, ": the text has more than "]);
    note.put_number(limit as u64);
    note.put(" bytes\n");
}

/// Adds the diagnostic of a place, and the line of the place.
pub fn push_recorded(note: &mut Note, input: &NamedText<'_>, at: usize, recorded: &str)
    ensures { Gains note.old note.new (note_text input.now.name.now input.now.text.now at recorded.now) }
{
    note.put_place(input.name, input.text, at);
    note.put(recorded);
    note.put("\n");
    note.put_excerpt(input.text, at);
}

/// Adds the diagnostic of a place, the line of the place, and the hint, if there is one.
pub fn push_noted(
    note: &mut Note,
    input: &NamedText<'_>,
    at: usize,
    recorded: &str,
    hint: Option<&str>,
)
    ensures { BeginsWith (place_text input.now.name.now input.now.text.now at) note.old note.new }
{
    push_recorded(note, input, at, recorded);
    if let Some(hint) = hint {
        note.put_hint(hint);
    }
}

/// Adds a place of an input, or the whole input, and after it the diagnostic that was made for it.
pub fn push_made(
    note: &mut Note,
    input: &NamedText<'_>,
    at: Option<usize>,
    made: Result<String, AllocError>,
)
    ensures { BeginsWith (start_text input.now.name.now input.now.text.now at) note.old note.new }
{
    match made {
        Ok(recorded) => {
            note.put_start(input.name, input.text, at);
            note.put(recorded.as_str());
        }
        Err(error) => note.keep(Err(error)),
    }
}

/// Adds the diagnostic of a text that isn't UTF-8 from a place on.
pub fn push_not_text(note: &mut Note, input: &NamedText<'_>, at: usize) {
    if let Some(packed) = packed_of(input.text) {
        return push_whole(note, input, packed.what, packed.hint);
    }
    push_recorded(note, input, at, "these bytes aren't UTF-8");
    let more = if input.text.contains(&0) {
        "; this one looks like UTF-16, or like no text at all"
    } else {
        ""
    };
    note.put_all(&["hint: ", SAVE, more, "\n"]);
}

/// A form in which files are packed.
#[derive(Clone, Copy)]
pub struct Packed {
    pub what: &'static str,
    pub hint: &'static str,
}

/// The form in which a file with these bytes is packed.
pub fn packed_of(bytes: &[u8]) -> Option<Packed> {
    if bytes.starts_with(b"\x1f\x8b") {
        Some(Packed {
            what: "the file is packed by gzip",
            hint: "`gunzip` unpacks it",
        })
    } else if bytes.starts_with(b"PK\x03\x04") {
        Some(Packed {
            what: "the file is a ZIP archive, as a .docx file is",
            hint: "save its text as UTF-8",
        })
    } else {
        None
    }
}

/// Adds bytes as text in quotes.
pub fn push_quoted(note: &mut Note, bytes: &[u8]) {
    note.put("\"");
    note.put_shown(bytes);
    note.put("\"");
}

/// Adds a place as `LINE:COLUMN`.
pub fn push_line_column(note: &mut Note, place: Place) {
    let Place { line, column } = place;
    note.put_number(line as u64);
    note.put(":");
    note.put_number(column as u64);
}
