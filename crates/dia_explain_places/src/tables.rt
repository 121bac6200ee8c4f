//! The word for which a line of a table is refused.

ghost use Rattle.std.specs.Prelude.{◌≡◌, ◌<◌, ◌≤◌, ◌+◌, ◌^◌, ℕ, length};
ghost use Rattle.dia_compat.specs.Words.{limit_part, plain_words, word_of};
ghost use Rattle.dia_explain_places.specs.Places.{line_at};
ghost use Rattle.dia_explain_places.specs.Tables.{limit_place, syntax_part, syntax_place, words_of_line};

use crate::lines::{line_from, start_of_line};
use dia_compat::{PairPart, PairWords, words_of};

/// A word of a table's line, which is empty where the line has no more words.
#[derive(Clone, Copy)]
pub struct RefusedWord<'a> {
    /// The part of `command A = B` in whose place it is.
    pub part: PairPart,
    pub text: &'a [u8],
    /// How many bytes of the table's text precede it.
    pub at: usize,
}

/// Of the line of this number, which is no pair, the first word that isn't allowed at its place.
pub fn syntax_word(text: &[u8], line: u32) -> RefusedWord<'_>
    ensures part { result.part ≡ syntax_part text.entry.now line }
    ensures text { result.text.now ≡ (word_of (words_of_line text.entry.now line) result.part).text }
    ensures place { result.at ≡ syntax_place text.entry.now line }
    ensures on_line { (k : ℕ) → k ≤ length text.entry.now → line_at text.entry.now k ≡ line
        → line_at text.entry.now result.at ≡ line }
{
    let start = start_of_line(text, line);
    let words = words_of(line_from(text, start));
    let part = words.wrong_part().unwrap_or(PairPart::After);
    refused_word(start, &words, part)
}

/// Of the line of this number, which passes a limit, the first name that is too long or, where none is, the first word.
pub fn limit_word(text: &[u8], line: u32) -> RefusedWord<'_>
    ensures part { result.part ≡ limit_part (words_of_line text.entry.now line) }
    ensures text { result.text.now ≡ (word_of (words_of_line text.entry.now line) result.part).text }
    ensures place { result.at ≡ limit_place text.entry.now line }
    ensures on_line { (k : ℕ) → k ≤ length text.entry.now → line_at text.entry.now k ≡ line
        → line_at text.entry.now result.at ≡ line }
{
    let start = start_of_line(text, line);
    let words = words_of(line_from(text, start));
    refused_word(start, &words, words.limit_part())
}

/// The word in the place of a part of the line that begins at a place.
fn refused_word<'a>(start: usize, words: &PairWords<'a>, part: PairPart) -> RefusedWord<'a>
    ensures part { result.part ≡ part }
    ensures text { result.text.now ≡ (word_of (plain_words words.now) part).text }
    ensures place { start + (word_of (plain_words words.now) part).at < 2 ^ 64
        → result.at ≡ start + (word_of (plain_words words.now) part).at }
{
    let word = words.word(part);
    RefusedWord {
        part,
        text: word.text,
        at: start.saturating_add(word.at),
    }
}
