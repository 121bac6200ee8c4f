//! Lines and columns of many places of a text.

ghost use Rattle.std.specs.Prelude.{◌≡◌, ◌<◌, ◌≤◌, ◌+◌, ◌*◌, ℕ, IfOk, List, Some, ◌^◌, length, slice_get};
ghost use Rattle.dia_explain_places.specs.Places.{column_at, is_inner, line_at};
ghost use Rattle.dia_breaking_places.specs.Marks.{AreMarks, IsPlaceAt};

use dia_explain_places::{Place, place_of};
use std::alloc::{AllocError, Global};

/// Each so many bytes of a text have a mark.
const STEP: usize = 64;

/// A text, with the line and the column of each `STEP` bytes.
#[derive(Drop)]
pub struct Marks<'t> {
    text: &'t [u8],
    marks: Vec<Place>,
    ghost are: { AreMarks text.now marks.items },
}

impl<'t> Marks<'t> {
    ghost use Rattle.std.specs.Prelude.{◌≡◌, IfOk};
    ghost use Rattle.dia_explain_places.specs.Places.{column_at, line_at};
    ghost use Rattle.dia_breaking_places.specs.MarkedTexts.{text_in};

    /// The marks of a text.
    pub fn new(alloc: Global, text: &'t [u8]) -> Result<Marks<'t>, AllocError>
        ensures { IfOk result (λ made. text_in made ≡ text.now) }
    {
        let marks = marks_of(alloc, text)?;
        Ok(Marks { text, marks })
    }

    /// The line and the column of an offset.
    pub fn place(&self, at: usize) -> Place
        ensures line { result.line ≡ line_at (text_in self.now) at }
        ensures column { result.column ≡ column_at (text_in self.now) at }
    {
        if at > self.text.len() {
            return place_of(self.text, at);
        }
        let index = at / STEP;
        match self.marks.get(index) {
            Some(mark) => place_from(self.text, index * STEP, *mark, at),
            None => place_of(self.text, at),
        }
    }
}

/// The marks of a text.
fn marks_of(alloc: Global, text: &[u8]) -> Result<Vec<Place>, AllocError>
    ensures { IfOk result (λ marks. AreMarks text.now marks.items) }
{
    let mut place = Place { line: 1, column: 1 };
    let mut marks = Vec::new(alloc);
    marks.push(place)?;
    for index in 0..text.len() / STEP {
        place = place_from(text, index * STEP, place, index * STEP + STEP);
        marks.push(place)?;
    }
    Ok(marks)
}

/// The line and the column of an offset, by those of one before it.
fn place_from(text: &[u8], from: usize, place: Place, to: usize) -> Place
    requires before { from ≤ to }
    requires within { to ≤ length text.now }
    requires is { IsPlaceAt text.now from place }
    ensures { IsPlaceAt text.now to result }
{
    let mut place = place;
    for at in from..to {
        place = after(place, text[at]);
    }
    place
}

/// The line and the column after a byte.
fn after(place: Place, byte: u8) -> Place
    ensures { (text : List ℕ) (at : ℕ) → slice_get text at ≡ Some byte → at < 2 ^ 63
        → IsPlaceAt text at place → IsPlaceAt text (at + 1) result }
{
    if byte == b'\n' {
        Place {
            line: place.line.saturating_add(1),
            column: 1,
        }
    } else if is_inner(byte) {
        place
    } else {
        Place {
            line: place.line,
            column: place.column.saturating_add(1),
        }
    }
}

/// Whether a byte continues a character of UTF-8.
fn is_inner(byte: u8) -> bool
    ensures { result ≡ is_inner byte }
{
    byte >= 0x80 && byte < 0xc0
}
