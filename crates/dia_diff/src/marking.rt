//! What comes of differences: each line of `breaking`, and that AVPs are ignored, comes from the differences that it is about.

ghost use Rattle.std.specs.Prelude.{◌≡◌, ◌<◌, ◌||◌, IfOk, OnOk, length};
ghost use Rattle.std.specs.HashSet.{contains};
ghost use Rattle.std.specs.List.{list_any};
ghost use Rattle.dia_breaking.specs.Upgrades.{sides_of};
ghost use Rattle.dia_differences.specs.declared.lines.What.{What as AnyWhat};
ghost use Rattle.dia_diff.specs.Marked.{effects_by, is_marked};
ghost use Rattle.dia_diff.specs.Marks.{IsFound, breaks_by, comes_from, ignores_by, is_from, is_other_by, whats};
ghost use Rattle.dia_diff.specs.Origins.{found_of};
ghost use Rattle.dia_diff.specs.Routes.{route_of};
ghost use Rattle.dia_diff.specs.Subjects.{same_subject};
ghost use Rattle.dia_diff.specs.Unbroken.{AreSoundMarks, IsValidIfNone, MarksFound};

use crate::candidates::candidates_of;
use crate::ignored::ignored_of;
use crate::marks::{EffectMarks, Marks};
use crate::origins::{Origin, origin_of};
use crate::subjects::{Subject, all_subjects};
use crate::traffic::Traffic;
use dia_book::Book;
use dia_breaking::{Breaks, Line as Breach, Upgrade};
use dia_differences::Line;
use std::alloc::{AllocError, Global};
use std::collections::HashSet;

/// What comes of the differences.
pub(crate) fn marks_of<A: Book, B: Book>(
    alloc: Global,
    lines: &[Line],
    traffic: &Traffic<'_, A, B>,
) -> Result<EffectMarks, AllocError>
    ensures { IfOk result (λ marks. AreSoundMarks (route_of A.meaning B.meaning traffic.now) (whats lines.now) (effects_by marks)) }
{
    let present = all_subjects(alloc, lines)?;
    let upgrade = Upgrade::new(
        alloc,
        traffic.sender,
        traffic.receiver,
        traffic.sends,
        traffic.unknown,
    )?;
    marks_by(alloc, &present, traffic, &upgrade)
}

/// The same, where these are the subjects of the differences.
fn marks_by<A: Book, B: Book>(
    alloc: Global,
    present: &HashSet<Subject>,
    traffic: &Traffic<'_, A, B>,
    upgrade: &Upgrade<'_, A, B>,
) -> Result<EffectMarks, AllocError>
    requires { sides_of upgrade.now ≡ (route_of A.meaning B.meaning traffic.now).between }
    ensures { IfOk result (λ marks. MarksFound (contains same_subject present.now) (route_of A.meaning B.meaning traffic.now)
        (length (route_of A.meaning B.meaning traffic.now).between.sender.commands) (effects_by marks)) }
{
    let mut marks = EffectMarks::new(alloc);
    for index in 0..traffic.sender.commands() {
        let breaks = breaks_of(alloc, upgrade, index)?;
        mark_command(alloc, &mut marks, present, traffic, index, &breaks)?;
    }
    Ok(marks)
}

/// What breaks a command of the sender. No message is checked: a line counts whatever its standing.
fn breaks_of<A: Book, B: Book>(
    alloc: Global,
    upgrade: &Upgrade<'_, A, B>,
    index: usize,
) -> Result<Breaks, AllocError>
    requires { index < length (sides_of upgrade.now).sender.commands }
    ensures found { IfOk result (λ breaks. IsFound (sides_of upgrade.now) (found_of index breaks)) }
    ensures valid { IfOk result (λ breaks. IsValidIfNone (sides_of upgrade.now) (found_of index breaks)) }
{
    let mut left = 0;
    let command = upgrade.sender().command_at(index);
    upgrade.breaks(alloc, command, &mut left)
}

/// Marks the differences from which it comes that messages of a command break, that AVPs are read as another format, and that AVPs
/// are ignored.
fn mark_command<A: Book, B: Book>(
    alloc: Global,
    marks: &mut EffectMarks,
    present: &HashSet<Subject>,
    traffic: &Traffic<'_, A, B>,
    index: usize,
    breaks: &Breaks,
) -> Result<(), AllocError>
    ensures breaks { OnOk result ((w : AnyWhat) → is_marked marks.new.breaks w ≡ (is_marked marks.old.breaks w
        || breaks_by (contains same_subject present.now) (route_of A.meaning B.meaning traffic.now) w (found_of index breaks.now))) }
    ensures other_format { OnOk result ((w : AnyWhat) → is_marked marks.new.other_format w ≡ (is_marked marks.old.other_format w
        || is_other_by (contains same_subject present.now) (route_of A.meaning B.meaning traffic.now) w (found_of index breaks.now))) }
    ensures ignored { OnOk result ((w : AnyWhat) → is_marked marks.new.ignored w ≡ (is_marked marks.old.ignored w
        || ignores_by (contains same_subject present.now) (route_of A.meaning B.meaning traffic.now) w (found_of index breaks.now))) }
{
    mark_lines(
        alloc,
        &mut marks.breaks,
        present,
        traffic,
        index,
        breaks,
        &breaks.lines,
    )?;
    mark_lines(
        alloc,
        &mut marks.other_format,
        present,
        traffic,
        index,
        breaks,
        &breaks.meanings,
    )?;
    mark_ignored(alloc, &mut marks.ignored, present, traffic, index, breaks)
}

/// Marks the differences from which some lines of a command come.
fn mark_lines<A: Book, B: Book>(
    alloc: Global,
    marks: &mut Marks,
    present: &HashSet<Subject>,
    traffic: &Traffic<'_, A, B>,
    index: usize,
    breaks: &Breaks,
    lines: &[Breach],
) -> Result<(), AllocError>
    ensures { OnOk result ((w : AnyWhat) → is_marked marks.new w ≡ (is_marked marks.old w
        || list_any (comes_from (contains same_subject present.now) (route_of A.meaning B.meaning traffic.now) (found_of index breaks.now) w) lines.now)) }
{
    for breach in lines {
        let origin = origin_of(traffic, index, breaks, breach);
        mark(alloc, marks, present, traffic, origin)?;
    }
    Ok(())
}

/// Marks the differences by which AVPs of a command are ignored.
fn mark_ignored<A: Book, B: Book>(
    alloc: Global,
    marks: &mut Marks,
    present: &HashSet<Subject>,
    traffic: &Traffic<'_, A, B>,
    index: usize,
    breaks: &Breaks,
) -> Result<(), AllocError>
    ensures { OnOk result ((w : AnyWhat) → is_marked marks.new w ≡ (is_marked marks.old w
        || ignores_by (contains same_subject present.now) (route_of A.meaning B.meaning traffic.now) w (found_of index breaks.now))) }
{
    let origins = ignored_of(alloc, traffic, index, breaks)?;
    mark_all(alloc, marks, present, traffic, &origins)
}

fn mark_all<A: Book, B: Book>(
    alloc: Global,
    marks: &mut Marks,
    present: &HashSet<Subject>,
    traffic: &Traffic<'_, A, B>,
    origins: &[Origin],
) -> Result<(), AllocError>
    ensures { OnOk result ((w : AnyWhat) → is_marked marks.new w ≡ (is_marked marks.old w
        || list_any (is_from (contains same_subject present.now) (route_of A.meaning B.meaning traffic.now) w) origins.now)) }
{
    for origin in origins {
        mark(alloc, marks, present, traffic, *origin)?;
    }
    Ok(())
}

/// Marks the differences from which what is about this comes.
fn mark<A: Book, B: Book>(
    alloc: Global,
    marks: &mut Marks,
    present: &HashSet<Subject>,
    traffic: &Traffic<'_, A, B>,
    origin: Origin,
) -> Result<(), AllocError>
    ensures { OnOk result ((w : AnyWhat) → is_marked marks.new w ≡ (is_marked marks.old w
        || is_from (contains same_subject present.now) (route_of A.meaning B.meaning traffic.now) w origin)) }
{
    let lists = candidates_of(alloc, traffic, origin)?;
    marks.mark(present, &lists)
}
