//! Lines and columns of places of a text that come in order.
ghost use Rattle.std.specs.Prelude.{◌≡◌, ◌==◌, ◌<◌, ◌+◌, ◌-◌, ◌^◌, ◌≤◌, if◌then◌else◌, length, not, take};
ghost use Rattle.dia_explain_places.specs.Places.{is_inner};

use dia_explain_places::Place;

/// A place of a text that moves on.
#[derive(Clone, Copy)]
pub(crate) struct Cursor<'a> {
    pub text: &'a [u8],
    pub at: usize,
    pub line: usize,
    pub column: usize,
}

impl<'a> Cursor<'a> {
    ghost use Rattle.std.specs.Prelude.{◌≡◌, ◌≤◌, ◌+◌, Some, length, slice_get};
    ghost use Rattle.dia_explain_places.specs.Places.{column_at, line_at};
    ghost use Rattle.dia_lint_text.specs.Cursors.{IsCursor};

    /// The beginning of a text.
    pub fn new(text: &'a [u8]) -> Self
        ensures text { result.text.now ≡ text.now }
        ensures cursor { IsCursor result }
        ensures at { result.at ≡ 0 }
    {
        Cursor {
            text,
            at: 0,
            line: 1,
            column: 1,
        }
    }

    /// Moves to an offset, and returns its line and its column, in characters, both from 1. Offsets that don't fall
    /// take the time of
    /// one pass.
    pub fn move_to(&mut self, at: usize) -> Place
        requires { IsCursor self.old }
        ensures text { self.new.text.now ≡ self.old.text.now }
        ensures cursor { IsCursor self.new }
        ensures line { result.line ≡ line_at self.old.text.now at }
        ensures column { result.column ≡ column_at self.old.text.now at }
    {
        let end = end_of(self.text, at);
        self.rewind(end);
        self.advance(end);
        Place {
            line: self.line,
            column: self.column,
        }
    }

    /// Moves to the beginning, if the offset precedes this place.
    fn rewind(&mut self, end: usize)
        requires { IsCursor self.old }
        ensures text { self.new.text.now ≡ self.old.text.now }
        ensures cursor { IsCursor self.new }
        ensures at { self.new.at ≤ end }
    {
        if end < self.at {
            *self = Cursor::new(self.text);
        }
    }

    /// Moves on to an offset.
    fn advance(&mut self, end: usize)
        requires cursor { IsCursor self.old }
        requires start { self.old.at ≤ end }
        requires within { end ≤ length self.old.text.now }
        ensures text { self.new.text.now ≡ self.old.text.now }
        ensures cursor { IsCursor self.new }
        ensures at { self.new.at ≡ end }
    {
        let text = self.text;
        for index in self.at..end {
            self.pass(text[index]);
        }
    }

    fn pass(&mut self, byte: u8)
        requires cursor { IsCursor self.old }
        requires byte { slice_get self.old.text.now self.old.at ≡ Some byte }
        ensures text { self.new.text.now ≡ self.old.text.now }
        ensures at { self.new.at ≡ self.old.at + 1 }
        ensures cursor { IsCursor self.new }
    {
        self.line = next_line(self.line, byte);
        self.column = next_column(self.column, byte);
        self.at += 1;
    }
}

/// How many bytes precede an offset.
fn end_of(text: &[u8], at: usize) -> usize
    ensures end { result ≡ length (take at text.now) }
    ensures within { result ≤ length text.now }
{
    text.get(..at).unwrap_or(text).len()
}

/// The line after a byte.
fn next_line(line: usize, byte: u8) -> usize
    requires { line < 2 ^ 64 - 1 }
    ensures { result ≡ line + (if byte == 10 then 1 else 0) }
{
    if byte == b'\n' { line + 1 } else { line }
}

/// The column after it.
fn next_column(column: usize, byte: u8) -> usize
    requires { column < 2 ^ 64 - 1 }
    ensures { result ≡ (if byte == 10 then 1 else column + (if is_inner byte then 0 else 1)) }
{
    if byte == b'\n' {
        1
    } else if is_first(byte) {
        column + 1
    } else {
        column
    }
}

/// Whether a character begins with the byte.
fn is_first(byte: u8) -> bool
    ensures { result ≡ not (is_inner byte) }
{
    byte < 0x80 || byte >= 0xc0
}
