//! The diagnostic of a table that is refused.

ghost use Rattle.dia_explain_inputs.specs.Beginnings.{TableBegins, LineBegins};

use crate::dictionary::NO_LINES;
use crate::hints::{Sight, hint_of};
use crate::kinds::kind_of;
use crate::notes::{push_made, push_not_text, push_quoted, push_too_long};
use dia_compat::{MAX_NAME, MAX_PAIRS, MAX_TABLE, PairPart, Table};
use dia_explain_places::{InputTexts, NamedText, Note, RefusedWord, back, limit_word, syntax_word};
use dia_report::BadTable;
use std::alloc::{AllocError, Global};

/// How many bytes of a word are shown.
const SHOWN: usize = 60;

/// A place of a line, as hints name it, and what may come there.
type Slot = (&'static str, &'static str);

/// Adds the diagnostic of a table that is refused for this reason.
pub fn push_table(note: &mut Note, table: &NamedText<'_>, why: &BadTable)
    ensures { TableBegins table.now.name.now table.now.text.now why.now note.old note.new }
{
    match why {
        BadTable::TooLong => push_too_long(note, table.name, MAX_TABLE),
        BadTable::NotText { at } => push_not_text(note, table, *at),
        BadTable::Syntax { line } => push_syntax(note, table, *line),
        BadTable::Limit { line } => push_limit(note, table, *line),
    }
}

/// Adds the first word of a line that isn't allowed at its place.
fn push_syntax(note: &mut Note, table: &NamedText<'_>, line: u32)
    ensures { LineBegins table.now.name.now table.now.text.now line note.old note.new }
{
    let word = syntax_word(table.text, line);
    let recorded = syntax_recorded(note.allocator(), table.text, &word);
    push_made(note, table, Some(word.at), recorded);
}

/// The diagnostic of a word that isn't allowed at its place.
fn syntax_recorded(
    alloc: Global,
    text: &[u8],
    word: &RefusedWord<'_>,
) -> Result<String, AllocError> {
    let (place, wanted) = slot_of(word.part);
    let mut recorded = Note::new(alloc);
    if word.text.is_empty() {
        recorded.put("the line ends here");
    } else {
        recorded.put("found ");
        push_quoted(&mut recorded, word.text.get(..SHOWN).unwrap_or(word.text));
    }
    recorded.put_all(&["; expected ", wanted, "\n"]);
    recorded.put_excerpt(text, word.at);
    if let Some(hint) = hint_of(&[place], &sight_of(text, word)) {
        recorded.put_hint(hint);
    }
    recorded.finish()
}

/// The place of a part, and what may come there.
fn slot_of(part: PairPart) -> Slot {
    match part {
        PairPart::Kind => (
            "pair",
            "command or avp: a line is command A = B, or avp A = B",
        ),
        PairPart::First => ("name", "a name of the first dictionary"),
        PairPart::Sign => ("sign", "= between the two names"),
        PairPart::Second => ("name", "a name of the second dictionary"),
        PairPart::After => ("behind", "the end of the line"),
    }
}

fn sight_of<'a>(text: &'a [u8], word: &RefusedWord<'a>) -> Sight<'a> {
    let kind = if word.text.is_empty() {
        "the end"
    } else if is_number(word.text) {
        "a number"
    } else {
        kind_of(word.text)
    };
    Sight {
        kind,
        word: word.text,
        rest: back(text, word.at),
        before: b"".as_slice(),
    }
}

fn is_number(word: &[u8]) -> bool {
    for byte in word {
        if !byte.is_ascii_digit() {
            return false;
        }
    }
    true
}

/// Adds which limit a line exceeds.
fn push_limit(note: &mut Note, table: &NamedText<'_>, line: u32)
    ensures { LineBegins table.now.name.now table.now.text.now line note.old note.new }
{
    let word = limit_word(table.text, line);
    let recorded = limit_recorded(note.allocator(), table.text, &word);
    push_made(note, table, Some(word.at), recorded);
}

/// The diagnostic of a word by which a line exceeds a limit.
fn limit_recorded(
    alloc: Global,
    text: &[u8],
    word: &RefusedWord<'_>,
) -> Result<String, AllocError> {
    let mut recorded = Note::new(alloc);
    if word.part == PairPart::Kind {
        recorded.put("this pair is one too many: a table has at most ");
        recorded.put_number(MAX_PAIRS as u64);
        recorded.put("\n");
        recorded.put_excerpt(text, word.at);
        recorded.put_hint(
            "leave out the pairs of what the listed commands don't reach; propose writes the least table",
        );
    } else {
        recorded.put("the name has more than ");
        recorded.put_number(MAX_NAME as u64);
        recorded.put(" bytes\n");
        recorded.put_excerpt(text, word.at);
    }
    recorded.finish()
}

/// Adds that a table lists no command, where it lists none.
pub fn push_no_pairs(note: &mut Note, texts: &InputTexts<'_>, table: &Table) {
    if !table.commands.is_empty() {
        return;
    }
    // A table without lines has no input.
    let name = if texts.table.name.is_empty() {
        NO_LINES
    } else {
        texts.table.name
    };
    let (first, second) = (texts.first.name, texts.second.name);
    note.put_all(&[
        name,
        ": the table lists no command, so nothing was compared\n",
    ]);
    note.put_all(&["hint: `diacmd propose ", first, " ", second]);
    note.put_all(&[
        " COMMAND..` writes the table for these commands of ",
        first,
        "\n",
    ]);
}
