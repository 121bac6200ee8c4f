//! Least levels, AVP by AVP.
ghost use Rattle.std.specs.Prelude.{◌≡◌, ◌<◌, IfOk, length, not, find};
ghost use Rattle.dia_book.specs.Dictionary.{definitions};
ghost use Rattle.dia_valid.specs.Valid.{is_listed};
ghost use Rattle.dia_valid.specs.Rules.{rules_in};
ghost use Rattle.dia_breaking_levels.specs.Chosen.{IsLineLevel, least_parts, parts_with, reads_between};
ghost use Rattle.dia_breaking_levels.specs.LevelTests.{price, least_filler, least_length, length_once};
ghost use Rattle.dia_breaking_levels.specs.Levels.{OtherIsShortest, IsWithinAll, IsWithinAllWith};

use crate::costs::Costs;
use crate::demand::{Wanted, demand_of, demand_of_line};
use crate::floor::{base_length, floor_of};
use crate::lengths::{TOO_LONG, listed_at_least, other_at_least};
use crate::levels::is_sound;
use crate::line::{Line, Part};
use crate::parts::level_parts;
use crate::rules::Rules;
use dia_book::{Book, DefId, Key};
use std::alloc::{AllocError, Global};

/// The AVPs of a shortest level of a definition of `a` that shows a line of one of `b`, in their order.
pub fn line_level<A: Book, B: Book, C: Costs>(
    alloc: Global,
    a: &A,
    a_def: DefId,
    b: &B,
    b_def: DefId,
    costs: &C,
    line: &Line,
) -> Result<Vec<Part>, AllocError>
    requires first { a_def < length (definitions (A.meaning a.now)) }
    requires second { b_def < length (definitions (B.meaning b.now)) }
    ensures { IfOk result (λ parts. IsLineLevel
        (reads_between (rules_in (A.meaning a.now) a_def) (rules_in (B.meaning b.now) b_def)
        (C.listed_length costs.now) (C.other_length costs.now) (C.other_keys costs.now))
        line.now parts.items) }
{
    let a = Rules {
        book: a,
        def: a_def,
    };
    let b = Rules {
        book: b,
        def: b_def,
    };
    parts_for(alloc, &a, &b, costs, line)
}

/// The AVPs that the line demands, in their order.
fn parts_for<A: Book, B: Book, C: Costs>(
    alloc: Global,
    a: &Rules<'_, A>,
    b: &Rules<'_, B>,
    costs: &C,
    line: &Line,
) -> Result<Vec<Part>, AllocError>
    ensures { IfOk result (λ parts. IsLineLevel
        (reads_between (rules_in (A.meaning a.now.book.now) a.now.def) (rules_in (B.meaning b.now.book.now) b.now.def)
        (C.listed_length costs.now) (C.other_length costs.now) (C.other_keys costs.now))
        line.now parts.items) }
{
    let floor = floor_of(a, b, costs);
    let demand = demand_of_line(alloc, a, b, costs, &floor, line)?;
    level_parts(alloc, a, &demand)
}

/// The key of a shortest AVP by the wildcard.
fn filler_key<A: Book, C: Costs>(a: &Rules<'_, A>, costs: &C) -> Option<Key>
    ensures { result ≡ find (λ key. not (is_listed
        (rules_in (A.meaning a.now.book.now) a.now.def) key)) (C.other_keys costs.now) }
{
    costs.others().iter().copied().find(|key| !a.lists(*key))
}

/// The length of a shortest AVP by the wildcard.
fn filler_length<A: Book, C: Costs>(a: &Rules<'_, A>, costs: &C) -> u64
    ensures { result ≡ least_filler (C.other_length costs.now) (C.other_keys costs.now)
        (rules_in (A.meaning a.now.book.now) a.now.def) }
{
    match filler_key(a, costs) {
        Some(key) => costs.other(key),
        None => TOO_LONG,
    }
}

/// The length of the least level.
fn least_length<A: Book, C: Costs>(a: &Rules<'_, A>, costs: &C) -> u64
    ensures { result ≡ least_length (C.listed_length costs.now) (C.other_length costs.now)
        (C.other_keys costs.now) (rules_in (A.meaning a.now.book.now) a.now.def) }
{
    base_length(costs, filler_length(a, costs), a.list())
}

/// The length of the least level in which the key occurs once or more.
fn length_once<A: Book, C: Costs>(a: &Rules<'_, A>, costs: &C, key: Key) -> u64
    ensures { result ≡ length_once (C.listed_length costs.now) (C.other_length costs.now)
        (C.other_keys costs.now) (rules_in (A.meaning a.now.book.now) a.now.def) key }
{
    let base = least_length(a, costs);
    match a.rule(key) {
        Some(rule) => listed_at_least(base, costs.listed(key), 1, &rule),
        None => {
            let filler = filler_length(a, costs);
            other_at_least(base, filler, costs.other(key), 1, a.wildcard())
        }
    }
}

/// The length of the least level of a definition.
pub fn length_least<A: Book, C: Costs>(a: &A, a_def: DefId, costs: &C) -> u64
    requires { a_def < length (definitions (A.meaning a.now)) }
    ensures within { OtherIsShortest (C.other_length costs.now) (C.other_keys costs.now)
        (rules_in (A.meaning a.now) a_def) → IsWithinAll
        (price (C.listed_length costs.now) (C.other_length costs.now)
        (rules_in (A.meaning a.now) a_def)) (rules_in (A.meaning a.now) a_def) result }
    ensures computed { result ≡ least_length (C.listed_length costs.now) (C.other_length costs.now)
        (C.other_keys costs.now) (rules_in (A.meaning a.now) a_def) }
{
    is_sound(a, a_def);
    let a = Rules {
        book: a,
        def: a_def,
    };
    least_length(&a, costs)
}

/// The length of the least level of a definition in which the key occurs once or more.
pub fn length_with<A: Book, C: Costs>(a: &A, a_def: DefId, costs: &C, key: Key) -> u64
    requires { a_def < length (definitions (A.meaning a.now)) }
    ensures { OtherIsShortest (C.other_length costs.now) (C.other_keys costs.now)
        (rules_in (A.meaning a.now) a_def) → IsWithinAllWith
        (price (C.listed_length costs.now) (C.other_length costs.now)
        (rules_in (A.meaning a.now) a_def)) (rules_in (A.meaning a.now) a_def) key result }
{
    is_sound(a, a_def);
    let a = Rules {
        book: a,
        def: a_def,
    };
    length_once(&a, costs, key)
}

/// The AVPs of the least level of a definition, in their order.
pub fn level_least<A: Book, C: Costs>(
    alloc: Global,
    a: &A,
    a_def: DefId,
    costs: &C,
) -> Result<Vec<Part>, AllocError>
    requires { a_def < length (definitions (A.meaning a.now)) }
    ensures { IfOk result (λ parts. parts.items
        ≡ least_parts (C.other_keys costs.now) (rules_in (A.meaning a.now) a_def)) }
{
    let a = Rules {
        book: a,
        def: a_def,
    };
    let demand = demand_of(alloc, None, None, filler_key(&a, costs));
    level_parts(alloc, &a, &demand)
}

/// The AVPs of a least level of a definition in which the key occurs once or more, in their order.
pub fn level_with<A: Book, C: Costs>(
    alloc: Global,
    a: &A,
    a_def: DefId,
    costs: &C,
    key: Key,
) -> Result<Vec<Part>, AllocError>
    requires { a_def < length (definitions (A.meaning a.now)) }
    ensures { IfOk result (λ parts. parts.items
        ≡ parts_with (C.other_keys costs.now) (rules_in (A.meaning a.now) a_def) key) }
{
    let a = Rules {
        book: a,
        def: a_def,
    };
    let first = Some(Wanted { key, count: 1 });
    let demand = demand_of(alloc, first, None, filler_key(&a, costs));
    level_parts(alloc, &a, &demand)
}
