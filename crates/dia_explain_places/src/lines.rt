//! The lines of a text: where one begins, and what is on it.

ghost use Rattle.std.specs.Prelude.{◌≡◌, ◌<◌, ◌≤◌, ◌+◌, ◌-◌, ◌^◌, ℕ, length, slice_get};
ghost use Rattle.dia_explain_places.specs.Places.{line_at};
ghost use Rattle.dia_explain_places.specs.Tables.{line_from, start_of_line, unreturned};

use crate::place::{back, front};
use crate::runs::{Kind, run_length};

/// The rest of a line from a place on, without the end of the line.
pub fn line_from(text: &[u8], from: usize) -> &[u8]
    ensures line { result.now ≡ line_from text.entry.now from }
    ensures within { from + length result.now < 2 ^ 64 }
    ensures on_line { (k : ℕ) → k ≤ length result.now → line_at text.entry.now (from + k) ≡ line_at text.entry.now from }
{
    let rest = back(text, from);
    let length = run_length(rest, Kind::Line);
    let line = front(rest, length);
    without_return(line)
}

/// A line without the carriage return at its end.
fn without_return(line: &[u8]) -> &[u8]
    ensures line { result.now ≡ unreturned line.entry.now
        (slice_get line.entry.now (length line.entry.now - 1)) }
    ensures within { length result.now ≤ length line.entry.now }
{
    match line {
        [front @ .., b'\r'] => front,
        _ => line,
    }
}

/// The place where a line begins, by its number from 1: the end of the text where there is none.
pub fn start_of_line(text: &[u8], number: u32) -> usize
    ensures line { result < length text.now → line_at text.now result ≡ number }
    ensures there { (k : ℕ) → k ≤ length text.now → line_at text.now k ≡ number → line_at text.now result ≡ number }
    ensures first { (k : ℕ) → k < result → ¬ (line_at text.now k ≡ number) }
    ensures start { result ≡ start_of_line text.now number }
{
    let wanted = number as usize;
    let mut line = 1usize;
    for (index, byte) in text.iter().enumerate() {
        if line == wanted {
            return index;
        }
        if *byte == b'\n' {
            line = line.saturating_add(1);
        }
    }
    text.len()
}
