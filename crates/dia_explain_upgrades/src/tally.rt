//! How much breaks.

ghost use Rattle.std.specs.Prelude.{◌≡◌, ◌≢◌, length};
ghost use Rattle.dia_explain_places.specs.Notes.{Gains};
ghost use Rattle.dia_explain_upgrades.specs.Tally.{cause_word, line_word, tally_text};

use dia_explain_places::{InputTexts, Note};
use dia_upgrades::Recorded;

/// Adds how many lines are left, and how many causes they have, if there are some; with the names of the two dictionaries.
pub fn push_tally(note: &mut Note, texts: &InputTexts<'_>, lines: usize, causes: &[Recorded])
    ensures none { lines ≡ 0 → note.new ≡ note.old }
    ensures some { lines ≢ 0 → Gains note.old note.new
        (tally_text lines (length causes.now) texts.now.first.name.now texts.now.second.name.now) }
{
    if lines == 0 {
        return;
    }
    note.put_number(lines as u64);
    note.put(line_word(lines));
    note.put_number(causes.len() as u64);
    note.put(cause_word(causes.len()));
    note.put(": what ");
    note.put(texts.first.name);
    note.put(" sends and ");
    note.put(texts.second.name);
    note.put(" accepts\n");
}

/// What follows a number of lines.
fn line_word(lines: usize) -> &'static str
    ensures { result.now ≡ line_word lines }
{
    if lines == 1 { " line, " } else { " lines, " }
}

/// What follows a number of causes.
fn cause_word(causes: usize) -> &'static str
    ensures { result.now ≡ cause_word causes }
{
    if causes == 1 { " cause" } else { " causes" }
}

/// Adds how many AVPs are read as another format, with the first, if there are some. `meanings` has a line for each.
pub fn push_meanings(note: &mut Note, meanings: &[Recorded]) {
    let Some(first) = meanings.first() else {
        return;
    };
    let count = meanings.len();
    note.put("with --meaning: ");
    note.put_number(count as u64);
    note.put(if count == 1 { " AVP is" } else { " AVPs are" });
    // Of `meaning X: Unsigned32 sent, Float32 read, in 1 command, first in T` what is between its first word and the count.
    let words = first.words.as_str();
    let front = match words.rsplit_once(", in ") {
        Some((front, _)) => front,
        None => words,
    };
    let recorded = front.strip_prefix("meaning ").unwrap_or(front);
    note.put_all(&[" read as another format, first ", recorded, "\n"]);
}
