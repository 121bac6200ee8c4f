//! Diagnostics of messages that come one per line and aren't retained: how to explain one by itself.

use crate::checking::{Asked, push_options};
use dia_explain_places::Note;

/// The word of standard input.
const STANDARD_INPUT: &str = "-";

/// Adds the command that explains one line of `check`. `messages` is the word that names the text of all.
pub fn push_check_alone(note: &mut Note, messages: &str, asked: &Asked, dictionary: &str) {
    let words = [" ", dictionary, " -` explains the fault"];
    push_alone(note, messages, "check", asked, &words)
}

/// Adds the command that explains one line of `refute`. `messages` is the word that names the text of all.
pub fn push_refute_alone(
    note: &mut Note,
    messages: &str,
    asked: &Asked,
    first: &str,
    second: &str,
) {
    let words = [" ", first, " ", second, " -` explains the answer"];
    push_alone(note, messages, "refute", asked, &words)
}

/// Adds a command that explains one line: its name, its options, and the words after them.
fn push_alone(note: &mut Note, messages: &str, command: &str, asked: &Asked, words: &[&str]) {
    let is_input = messages == STANDARD_INPUT;
    if is_input {
        note.put("hint: of a line alone, `diacmd ");
    } else {
        note.put_all(&["hint: `sed -n NUMBERp ", messages, " | diacmd "]);
    }
    note.put(command);
    push_options(note, asked);
    note.put_all(words);
    note.put(if is_input {
        "\n"
    } else {
        " of the line with that number\n"
    })
}
