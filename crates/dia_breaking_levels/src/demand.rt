//! What a level is to have beyond the least counts of its rules.
ghost use Rattle.std.specs.Prelude.{◌≡◌, ◌+◌, ◌-◌, ◌^◌, IfOk, unwrap_or};
ghost use Rattle.std.specs.Option.{option_map_or};
ghost use Rattle.dia_valid.specs.Rules.{rules_in, wildcard_of};
ghost use Rattle.dia_breaking_levels.specs.declared.cut.Cut.{Cut as AnyCut};
ghost use Rattle.dia_breaking_levels.specs.Chosen.{AreExtrasBy, IsDemandOf, above_greatest, below_least, cheapest_key, demand};
ghost use Rattle.dia_breaking_levels.specs.Chosen.{IsManyBy, inner_first, missing_demand, missing_others_demand, next_key};
ghost use Rattle.dia_breaking_levels.specs.Chosen.{not_allowed_demand, order_demand, outer_key, too_many_demand};
ghost use Rattle.dia_breaking_levels.specs.Chosen.{plain_demand, reads, wants, wild_min};

use crate::costs::Costs;
use crate::cut::{rule_extras, sorted_cut};
use crate::floor::{Floor, first_outside, inner_key};
use crate::lengths::TOO_LONG;
use crate::line::{Line, Reason};
use crate::rules::Rules;
use crate::steps::all_steps;
use dia_book::{Book, DRule, Key};
use std::alloc::{AllocError, Global};

/// A key that has to occur so many times or more.
#[derive(Clone, Copy)]
pub(crate) struct Wanted {
    pub key: Key,
    pub count: u64,
}

/// What a level has to have beyond the least counts of its rules.
#[derive(Drop)]
pub(crate) struct Demand {
    pub first: Option<Wanted>,
    pub second: Option<Wanted>,
    /// The key that fills the wildcard's least count.
    pub rest: Option<Key>,
    /// The key whose AVPs precede the other loose ones.
    pub front: Option<Key>,
    /// How many AVPs more each rule of `a` has, if any has more; those of the wildcard are of the key `outer`.
    pub extras: Vec<u64>,
    pub outer: Option<Key>,
}

/// The keys of shortest AVPs by the wildcard.
#[derive(Clone, Copy)]
struct Fillers {
    /// Of all.
    cheapest: Option<Key>,
    /// Of those that B's definition lists.
    inner: Option<Key>,
    /// Of those that it doesn't list.
    outer: Option<Key>,
}

fn fillers_of<A: Book, B: Book, C: Costs>(
    a: &Rules<'_, A>,
    b: &Rules<'_, B>,
    costs: &C,
    floor: &Floor,
) -> Fillers
    ensures cheapest { result.cheapest ≡ cheapest_key
        (reads (rules_in (A.meaning a.now.book.now) a.now.def) (rules_in (B.meaning b.now.book.now) b.now.def)
        (C.listed_length costs.now) (C.other_length costs.now) (C.other_keys costs.now) floor.now) }
    ensures inner { result.inner ≡ inner_first
        (reads (rules_in (A.meaning a.now.book.now) a.now.def) (rules_in (B.meaning b.now.book.now) b.now.def)
        (C.listed_length costs.now) (C.other_length costs.now) (C.other_keys costs.now) floor.now) }
    ensures outer { result.outer ≡ outer_key
        (reads (rules_in (A.meaning a.now.book.now) a.now.def) (rules_in (B.meaning b.now.book.now) b.now.def)
        (C.listed_length costs.now) (C.other_length costs.now) (C.other_keys costs.now) floor.now) }
{
    let inner = if floor.inner < TOO_LONG {
        floor.first
    } else {
        None
    };
    let outer = first_outside(a, b, costs.others());
    let cheapest = if floor.inner <= floor.outer {
        inner
    } else {
        outer
    };
    Fillers {
        cheapest,
        inner,
        outer,
    }
}

/// The key of a shortest AVP by the wildcard that isn't of this one.
fn next_key<A: Book, B: Book, C: Costs>(
    a: &Rules<'_, A>,
    b: &Rules<'_, B>,
    costs: &C,
    floor: &Floor,
) -> Option<Key>
    ensures { result ≡ next_key
        (reads (rules_in (A.meaning a.now.book.now) a.now.def) (rules_in (B.meaning b.now.book.now) b.now.def)
        (C.listed_length costs.now) (C.other_length costs.now) (C.other_keys costs.now) floor.now) }
{
    if floor.second <= floor.outer {
        inner_key(a, b.list(), costs, floor.first, floor.second)
    } else {
        first_outside(a, b, costs.others())
    }
}

fn wants(key: Option<Key>, count: u64) -> Option<Wanted>
    ensures { result ≡ wants key count }
{
    match key {
        Some(key) => Some(Wanted { key, count }),
        None => None,
    }
}

/// What a level with nothing but the least counts has, and these keys.
pub(crate) fn demand_of(
    alloc: Global,
    first: Option<Wanted>,
    second: Option<Wanted>,
    rest: Option<Key>,
) -> Demand
    ensures { plain_demand result ≡ demand first second rest }
{
    Demand {
        first,
        second,
        rest,
        front: None,
        extras: Vec::new(alloc),
        outer: None,
    }
}

/// What a shortest level that shows the line has.
pub(crate) fn demand_of_line<A: Book, B: Book, C: Costs>(
    alloc: Global,
    a: &Rules<'_, A>,
    b: &Rules<'_, B>,
    costs: &C,
    floor: &Floor,
    line: &Line,
) -> Result<Demand, AllocError>
    ensures { IfOk result (λ demand. IsDemandOf
        (reads (rules_in (A.meaning a.now.book.now) a.now.def) (rules_in (B.meaning b.now.book.now) b.now.def)
        (C.listed_length costs.now) (C.other_length costs.now) (C.other_keys costs.now) floor.now)
        line.now (plain_demand demand)) }
{
    match line.reason {
        Reason::Missing => Ok(of_missing(alloc, a, b, costs, floor, line.key)),
        Reason::TooMany => Ok(of_too_many(alloc, a, b, costs, floor, line.key)),
        Reason::NotAllowed => Ok(of_not_allowed(alloc, a, b, costs, floor, line.key)),
        Reason::NotAllowedOther => Ok(of_not_allowed_other(alloc, a, b, costs, floor)),
        Reason::MissingOthers => Ok(of_missing_others(alloc, a, b, costs, floor)),
        Reason::TooManyOthers => of_too_many_others(alloc, a, b, costs, floor),
        Reason::Order => Ok(of_order(alloc, a, b, costs, floor, line.following, line.key)),
    }
}

/// What a level with more of the key has than `b` allows.
fn of_too_many<A: Book, B: Book, C: Costs>(
    alloc: Global,
    a: &Rules<'_, A>,
    b: &Rules<'_, B>,
    costs: &C,
    floor: &Floor,
    key: Option<Key>,
) -> Demand
    ensures { plain_demand result ≡ too_many_demand
        (reads (rules_in (A.meaning a.now.book.now) a.now.def) (rules_in (B.meaning b.now.book.now) b.now.def)
        (C.listed_length costs.now) (C.other_length costs.now) (C.other_keys costs.now) floor.now)
        key }
{
    let cheapest = fillers_of(a, b, costs, floor).cheapest;
    demand_of(alloc, wants(key, above_greatest(b, key)), None, cheapest)
}

/// What a level with the key has.
fn of_not_allowed<A: Book, B: Book, C: Costs>(
    alloc: Global,
    a: &Rules<'_, A>,
    b: &Rules<'_, B>,
    costs: &C,
    floor: &Floor,
    key: Option<Key>,
) -> Demand
    ensures { plain_demand result ≡ not_allowed_demand
        (reads (rules_in (A.meaning a.now.book.now) a.now.def) (rules_in (B.meaning b.now.book.now) b.now.def)
        (C.listed_length costs.now) (C.other_length costs.now) (C.other_keys costs.now) floor.now)
        key }
{
    let cheapest = fillers_of(a, b, costs, floor).cheapest;
    demand_of(alloc, wants(key, 1), None, cheapest)
}

/// What a level with an AVP has that neither definition lists.
fn of_not_allowed_other<A: Book, B: Book, C: Costs>(
    alloc: Global,
    a: &Rules<'_, A>,
    b: &Rules<'_, B>,
    costs: &C,
    floor: &Floor,
) -> Demand
    ensures { plain_demand result ≡ not_allowed_demand
        (reads (rules_in (A.meaning a.now.book.now) a.now.def) (rules_in (B.meaning b.now.book.now) b.now.def)
        (C.listed_length costs.now) (C.other_length costs.now) (C.other_keys costs.now) floor.now)
        (outer_key
        (reads (rules_in (A.meaning a.now.book.now) a.now.def) (rules_in (B.meaning b.now.book.now) b.now.def)
        (C.listed_length costs.now) (C.other_length costs.now) (C.other_keys costs.now) floor.now)) }
{
    let fillers = fillers_of(a, b, costs, floor);
    demand_of(alloc, wants(fillers.outer, 1), None, fillers.cheapest)
}

/// What a level with more AVPs that `b` doesn't list has than its wildcard allows.
fn of_too_many_others<A: Book, B: Book, C: Costs>(
    alloc: Global,
    a: &Rules<'_, A>,
    b: &Rules<'_, B>,
    costs: &C,
    floor: &Floor,
) -> Result<Demand, AllocError>
    ensures { IfOk result (λ demand. (cut : AnyCut) × IsManyBy
        (reads (rules_in (A.meaning a.now.book.now) a.now.def) (rules_in (B.meaning b.now.book.now) b.now.def)
        (C.listed_length costs.now) (C.other_length costs.now) (C.other_keys costs.now) floor.now)
        cut (plain_demand demand)) }
{
    let fillers = fillers_of(a, b, costs, floor);
    let extras = extras(alloc, a, b, costs, floor)?;
    Ok(Demand {
        first: None,
        second: None,
        rest: fillers.cheapest,
        front: None,
        extras,
        outer: fillers.outer,
    })
}

/// What a level with one key after another has.
fn of_order<A: Book, B: Book, C: Costs>(
    alloc: Global,
    a: &Rules<'_, A>,
    b: &Rules<'_, B>,
    costs: &C,
    floor: &Floor,
    following: Option<Key>,
    key: Option<Key>,
) -> Demand
    ensures { plain_demand result ≡ order_demand
        (reads (rules_in (A.meaning a.now.book.now) a.now.def) (rules_in (B.meaning b.now.book.now) b.now.def)
        (C.listed_length costs.now) (C.other_length costs.now) (C.other_keys costs.now) floor.now)
        following key }
{
    Demand {
        first: wants(following, 1),
        second: wants(key, 1),
        rest: fillers_of(a, b, costs, floor).cheapest,
        front: following,
        extras: Vec::new(alloc),
        outer: None,
    }
}

/// One more than the greatest count of the key.
fn above_greatest<B: Book>(b: &Rules<'_, B>, key: Option<Key>) -> u64
    ensures { result ≡ above_greatest (rules_in (B.meaning b.now.book.now) b.now.def) key }
{
    match key {
        Some(key) => match b.rule(key) {
            Some(rule) => match rule.max {
                Some(max) => u64::from(max) + 1,
                None => 0,
            },
            None => 0,
        },
        None => 0,
    }
}

/// One less than the least count of a rule.
fn below_least(rule: Option<DRule>) -> u64
    ensures { result ≡ below_least rule }
{
    match rule {
        Some(rule) => u64::from(rule.min).saturating_sub(1),
        None => 0,
    }
}

/// What a level with fewer of the key has than `b` asks for: where it is the cheapest by the wildcard another one fills the
/// rest.
fn of_missing<A: Book, B: Book, C: Costs>(
    alloc: Global,
    a: &Rules<'_, A>,
    b: &Rules<'_, B>,
    costs: &C,
    floor: &Floor,
    key: Option<Key>,
) -> Demand
    ensures { plain_demand result ≡ missing_demand
        (reads (rules_in (A.meaning a.now.book.now) a.now.def) (rules_in (B.meaning b.now.book.now) b.now.def)
        (C.listed_length costs.now) (C.other_length costs.now) (C.other_keys costs.now) floor.now)
        key }
{
    let cheapest = fillers_of(a, b, costs, floor).cheapest;
    match key {
        Some(key) => {
            if a.lists(key) || cheapest != Some(key) {
                return demand_of(alloc, None, None, cheapest);
            }
            let count = below_least(b.rule(key)).min(wild_min(floor));
            let next = next_key(a, b, costs, floor);
            demand_of(alloc, wants(Some(key), count), None, next)
        }
        None => demand_of(alloc, None, None, cheapest),
    }
}

/// The least count of the wildcard of `a`.
fn wild_min(floor: &Floor) -> u64
    ensures { result ≡ wild_min floor.now }
{
    match floor.wild {
        Some(wild) => u64::from(wild.min),
        None => 0,
    }
}

/// What a level with fewer AVPs that `b` doesn't list has than its wildcard asks for.
fn of_missing_others<A: Book, B: Book, C: Costs>(
    alloc: Global,
    a: &Rules<'_, A>,
    b: &Rules<'_, B>,
    costs: &C,
    floor: &Floor,
) -> Demand
    ensures { plain_demand result ≡ missing_others_demand
        (reads (rules_in (A.meaning a.now.book.now) a.now.def) (rules_in (B.meaning b.now.book.now) b.now.def)
        (C.listed_length costs.now) (C.other_length costs.now) (C.other_keys costs.now) floor.now) }
{
    let fillers = fillers_of(a, b, costs, floor);
    let most = below_least(b.wildcard());
    let left = most.saturating_sub(floor.needed).min(wild_min(floor));
    demand_of(alloc, wants(fillers.cheapest, left), None, fillers.inner)
}

/// How many AVPs that `b` doesn't list are wanted beyond those that the rules ask for.
fn wanted_others<B: Book>(b: &Rules<'_, B>, floor: &Floor) -> u64
    ensures { result ≡ option_map_or (λ wild. unwrap_or wild.max (2 ^ 32 - 1))
        (wildcard_of (rules_in (B.meaning b.now.book.now) b.now.def)) 0 + 1 - floor.now.needed }
{
    let max = match b.wildcard() {
        Some(wild) => wild.max.unwrap_or(u32::MAX),
        None => 0,
    };
    (u64::from(max) + 1).saturating_sub(floor.needed)
}

/// How many AVPs more each rule has in a shortest level with more that `b` doesn't list than its wildcard allows.
fn extras<A: Book, B: Book, C: Costs>(
    alloc: Global,
    a: &Rules<'_, A>,
    b: &Rules<'_, B>,
    costs: &C,
    floor: &Floor,
) -> Result<Vec<u64>, AllocError>
    ensures { IfOk result (λ extras. (cut : AnyCut) × AreExtrasBy
        (reads (rules_in (A.meaning a.now.book.now) a.now.def) (rules_in (B.meaning b.now.book.now) b.now.def)
        (C.listed_length costs.now) (C.other_length costs.now) (C.other_keys costs.now) floor.now)
        cut extras.items) }
{
    let wanted = wanted_others(b, floor);
    let lengths = (floor.filler(), floor.outer);
    let steps = all_steps(alloc, a.list(), b, costs, lengths, wanted)?;
    let cut = sorted_cut(wanted, steps)?;
    rule_extras(alloc, a, b, costs, floor, wanted, cut)
}
