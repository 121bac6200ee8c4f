//! The lines of the levels of two definitions.
ghost use Rattle.std.specs.Prelude.{◌≡◌, ◌<◌, IfOk, find, length};
ghost use Rattle.dia_book.specs.Dictionary.{AreRules, definitions};
ghost use Rattle.dia_valid.specs.Rules.{rules_in};
ghost use Rattle.dia_breaking_levels.specs.LevelTests.{is_outside, price, needed_up, lines_of};
ghost use Rattle.dia_breaking_levels.specs.Exact.{AreLevelLines, HasOrderLines};
ghost use Rattle.dia_breaking_levels.specs.Levels.{HasEachLine, FirstIsShortest};
ghost use Rattle.dia_breaking_levels.specs.Steps.{greatest, IsLeastOver, IsLeastMost, IsLongUnbounded};

use crate::costs::Costs;
use crate::floor::{Floor, first_outside, floor_of};
use crate::lengths::{TOO_LONG, swapped};
use crate::level::Level;
use crate::line::{Line, Reason};
use crate::rules::Rules;
use crate::steps::{all_steps, least_taken};
use dia_book::{Book, DefId};
use std::alloc::{AllocError, Global};

/// The lines of the levels of a definition of `a` that break the rules of one of `b`: by reasons, and those of a reason in the
/// order of the rules. A level that breaks them shows a line whose length is no more than its own. The list is unique
/// (`lines_are_one`).
pub fn level_lines<A: Book, B: Book, C: Costs>(
    alloc: Global,
    a: &A,
    a_def: DefId,
    b: &B,
    b_def: DefId,
    costs: &C,
) -> Result<Vec<Line>, AllocError>
    requires first { a_def < length (definitions (A.meaning a.now)) }
    requires second { b_def < length (definitions (B.meaning b.now)) }
    requires shortest { FirstIsShortest (C.other_length costs.now) (C.other_keys costs.now)
        (rules_in (A.meaning a.now) a_def) (rules_in (B.meaning b.now) b_def) }
    ensures complete { IfOk result (λ lines. HasEachLine
        (price (C.listed_length costs.now) (C.other_length costs.now)
        (rules_in (A.meaning a.now) a_def))
        (rules_in (A.meaning a.now) a_def) (rules_in (B.meaning b.now) b_def) lines.items) }
    ensures exact { IfOk result (λ lines. AreLevelLines
        (C.listed_length costs.now) (C.other_length costs.now) (C.other_keys costs.now)
        (rules_in (A.meaning a.now) a_def) (rules_in (B.meaning b.now) b_def) lines.items) }
{
    both_sound(a, a_def, b, b_def);
    let a = Rules {
        book: a,
        def: a_def,
    };
    let b = Rules {
        book: b,
        def: b_def,
    };
    let floor = floor_of(&a, &b, costs);
    let most = most(alloc, &a, &b, costs, &floor)?;
    let level = Level {
        a,
        b,
        costs,
        floor,
        most,
    };
    lines_at(alloc, &level)
}

/// The lines of counts, and after them those of the order.
fn lines_at<A: Book, B: Book, C: Costs>(
    alloc: Global,
    level: &Level<'_, A, B, C>,
) -> Result<Vec<Line>, AllocError>
    requires first { AreRules (rules_in (A.meaning level.now.a.book.now) level.now.a.def) }
    requires second { AreRules (rules_in (B.meaning level.now.b.book.now) level.now.b.def) }
    ensures { IfOk result (λ all. HasOrderLines level.now.floor
        (C.listed_length level.now.costs.now) (C.other_length level.now.costs.now)
        (rules_in (A.meaning level.now.a.book.now) level.now.a.def)
        (rules_in (B.meaning level.now.b.book.now) level.now.b.def)
        (find (is_outside (rules_in (A.meaning level.now.a.book.now) level.now.a.def)
        (rules_in (B.meaning level.now.b.book.now) level.now.b.def)) (C.other_keys level.now.costs.now))
        (lines_of level.now.floor level.now.most
        (C.listed_length level.now.costs.now) (C.other_length level.now.costs.now)
        (rules_in (A.meaning level.now.a.book.now) level.now.a.def)
        (rules_in (B.meaning level.now.b.book.now) level.now.b.def)) all.items) }
{
    let outer = first_outside(&level.a, &level.b, level.costs.others());
    let lines = all_lines(alloc, level)?;
    level.with_order_lines(alloc, lines, outer)
}

/// The rules of the definitions of two dictionaries are sound.
fn both_sound<A: Book, B: Book>(a: &A, a_def: DefId, b: &B, b_def: DefId)
    ensures first { AreRules (rules_in (A.meaning a.now) a_def) }
    ensures second { AreRules (rules_in (B.meaning b.now) b_def) }
{
    is_sound(a, a_def);
    is_sound(b, b_def);
}

/// The rules of the definitions of a dictionary meet the conditions of the laws.
pub(crate) fn is_sound<B: Book>(book: &B, def: DefId)
    ensures { AreRules (rules_in (B.meaning book.now) def) }
{}

/// The lines of each reason.
fn all_lines<A: Book, B: Book, C: Costs>(
    alloc: Global,
    level: &Level<'_, A, B, C>,
) -> Result<Vec<Line>, AllocError>
    ensures { IfOk result (λ lines. lines.items ≡ lines_of level.now.floor level.now.most
        (C.listed_length level.now.costs.now) (C.other_length level.now.costs.now)
        (rules_in (A.meaning level.now.a.book.now) level.now.a.def)
        (rules_in (B.meaning level.now.b.book.now) level.now.b.def)) }
{
    let (a, b) = (level.a.list(), level.b.list());
    let lines = level.with_lines(Vec::new(alloc), Reason::Missing, b)?;
    let lines = level.with_lines(lines, Reason::TooMany, b)?;
    let lines = level.with_lines(lines, Reason::NotAllowed, a)?;
    let lines = level.with_lines(lines, Reason::NotAllowedOther, a)?;
    let lines = level.with_lines(lines, Reason::MissingOthers, b)?;
    level.with_lines(lines, Reason::TooManyOthers, b)
}

/// The greatest count of the wildcard.
fn greatest<B: Book>(b: &Rules<'_, B>) -> Option<u32>
    ensures { result ≡ greatest (rules_in (B.meaning b.now.book.now) b.now.def) }
{
    match b.wildcard() {
        Some(wild) => wild.max,
        None => None,
    }
}

/// The least length of a level with more AVPs by the wildcard of `b` than it allows.
fn most<A: Book, B: Book, C: Costs>(
    alloc: Global,
    a: &Rules<'_, A>,
    b: &Rules<'_, B>,
    costs: &C,
    floor: &Floor,
) -> Result<u64, AllocError>
    requires { floor.now.needed ≡ needed_up (rules_in (B.meaning b.now.book.now) b.now.def)
        (rules_in (A.meaning a.now.book.now) a.now.def) }
    ensures least { IfOk result (IsLeastMost (C.listed_length costs.now) floor.now
        (rules_in (A.meaning a.now.book.now) a.now.def)
        (rules_in (B.meaning b.now.book.now) b.now.def)) }
    ensures none { IfOk result (IsLongUnbounded (rules_in (B.meaning b.now.book.now) b.now.def)) }
{
    match greatest(b) {
        Some(max) => least_over(alloc, a, b, costs, floor, max),
        None => Ok(TOO_LONG),
    }
}

/// The least length of a level with more AVPs that `b` doesn't list than this.
fn least_over<A: Book, B: Book, C: Costs>(
    alloc: Global,
    a: &Rules<'_, A>,
    b: &Rules<'_, B>,
    costs: &C,
    floor: &Floor,
    max: u32,
) -> Result<u64, AllocError>
    requires { floor.now.needed ≡ needed_up (rules_in (B.meaning b.now.book.now) b.now.def)
        (rules_in (A.meaning a.now.book.now) a.now.def) }
    ensures { IfOk result (λ n. IsLeastOver (C.listed_length costs.now) floor.now
        (rules_in (A.meaning a.now.book.now) a.now.def)
        (rules_in (B.meaning b.now.book.now) b.now.def) max n) }
{
    let wanted = (u64::from(max) + 1).saturating_sub(floor.needed);
    let lengths = (floor.filler(), floor.outer);
    let steps = all_steps(alloc, a.list(), b, costs, lengths, wanted)?;
    let more = least_taken(wanted, steps)?;
    Ok(swapped(floor.base, 0, more))
}
