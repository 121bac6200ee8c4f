//! What a dictionary has that has no commands.

use dia_ccf::Source;
use dia_explain_places::{NamedText, Note};

/// What to do about a dictionary without commands.
const HINT: &str = "hint: a command is <NAME> ::= < Diameter Header: CODE, REQ > and its rules; \
    `cat` puts the parts of a dictionary together\n";

/// What is reported of a text whose lines end in carriage returns alone.
const RETURNS: &str =
    "the text has carriage returns and no line feed, so its first comment goes on to its end\n\
    hint: save the file with line feeds\n";

/// Adds what the text of a dictionary has in place of commands.
pub fn push_without_commands(note: &mut Note, dictionary: &NamedText<'_>, source: &Source) {
    let NamedText { name, text } = *dictionary;
    let avps = source.avps.len();
    let groups = source.groups.len();
    note.put_all(&[name, ": the dictionary has no commands: "]);
    if text.contains(&b'\r') && !text.contains(&b'\n') {
        note.put(RETURNS)
    } else if avps == 0 && groups == 0 {
        note.put("the text declares nothing\n");
        note.put(HINT);
    } else {
        note.put("the text has AVPs (");
        note.put_number(avps as u64);
        note.put(") and groups (");
        note.put_number(groups as u64);
        note.put(") alone\n");
        note.put(HINT);
    }
}
