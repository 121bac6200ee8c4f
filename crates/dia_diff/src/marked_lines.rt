//! The lines with their marks.

ghost use Rattle.std.specs.Prelude.{◌≡◌, ◌≢◌, IfOk, length, map};
ghost use Rattle.dia_differences.specs.Partners.{matches_of, paired};
ghost use Rattle.dia_diff.specs.Marked.{effects_by};
ghost use Rattle.dia_diff.specs.MarkedLines.{AreMarkedLines, back_from, there_from, with_marks};
ghost use Rattle.dia_diff.specs.Marks.{whats};
ghost use Rattle.dia_diff.specs.Unbroken.{AreSoundMarks};

use crate::command::Asked;
use crate::marking::marks_of;
use crate::marks::EffectMarks;
use crate::traffic::Traffic;
use dia_book::Book;
use dia_differences::{Line, Partners, Side};
use std::alloc::{AllocError, Global};

/// The lines, each with what comes of it.
pub(crate) fn marked_lines<A: Book, B: Book>(
    alloc: Global,
    asked: Asked,
    a: &A,
    b: &B,
    partners: &Partners,
    lines: &[Line],
) -> Result<Vec<Line>, AllocError>
    requires partners { paired partners.now ≡ matches_of (A.meaning a.now) (B.meaning b.now) }
    requires some { length lines.now ≢ 0 }
    ensures same { IfOk result (λ found. whats found.items ≡ whats lines.now) }
    ensures marks { IfOk result
        (λ found. AreMarkedLines (A.meaning a.now) (B.meaning b.now) asked.sends asked.unknown found.items) }
{
    let there = marks_there(alloc, asked, a, b, partners, lines)?;
    let back = marks_back(alloc, asked, a, b, partners, lines)?;
    marked(alloc, lines, &there, &back)
}

/// What comes of the lines for messages of the first side.
fn marks_there<A: Book, B: Book>(
    alloc: Global,
    asked: Asked,
    a: &A,
    b: &B,
    partners: &Partners,
    lines: &[Line],
) -> Result<EffectMarks, AllocError>
    requires { paired partners.now ≡ matches_of (A.meaning a.now) (B.meaning b.now) }
    ensures { IfOk result (λ marks. AreSoundMarks
        (there_from (A.meaning a.now) (B.meaning b.now) asked.sends asked.unknown) (whats lines.now) (effects_by marks)) }
{
    let traffic = Traffic {
        sender: a,
        receiver: b,
        side: Side::First,
        commands: &partners.commands.there,
        sends: asked.sends,
        unknown: asked.unknown,
    };
    marks_of(alloc, lines, &traffic)
}

/// What comes of them for messages of the second side.
fn marks_back<A: Book, B: Book>(
    alloc: Global,
    asked: Asked,
    a: &A,
    b: &B,
    partners: &Partners,
    lines: &[Line],
) -> Result<EffectMarks, AllocError>
    requires { paired partners.now ≡ matches_of (A.meaning a.now) (B.meaning b.now) }
    ensures { IfOk result (λ marks. AreSoundMarks
        (back_from (A.meaning a.now) (B.meaning b.now) asked.sends asked.unknown) (whats lines.now) (effects_by marks)) }
{
    let traffic = Traffic {
        sender: b,
        receiver: a,
        side: Side::Second,
        commands: &partners.commands.back,
        sends: asked.sends,
        unknown: asked.unknown,
    };
    marks_of(alloc, lines, &traffic)
}

/// The lines with their marks.
fn marked(
    alloc: Global,
    lines: &[Line],
    there: &EffectMarks,
    back: &EffectMarks,
) -> Result<Vec<Line>, AllocError>
    ensures { IfOk result (λ found. found.items
        ≡ map (with_marks (effects_by there.now) (effects_by back.now)) lines.now) }
{
    let mut found = Vec::with_capacity(alloc, lines.len())?;
    for line in lines {
        let what = line.what;
        let first = there.effects_of(alloc, what)?;
        let second = back.effects_of(alloc, what)?;
        found.push(Line {
            what,
            there: first,
            back: second,
        })?;
    }
    Ok(found)
}
