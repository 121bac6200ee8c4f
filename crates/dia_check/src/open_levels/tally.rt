//! The tally of a level: how often its rules were met, in the order of the rules. A rule that isn't recorded was not met.

ghost use Rattle.std.specs.Prelude.{◌≡◌, ◌≢◌, ◌<◌, ◌≤◌, ◌+◌, ◌^◌, ◌++◌, ℕ, IsTrue, IsFalse};
ghost use Rattle.std.specs.Prelude.{Some, drop, insert, slice_get, slice_set, take, vec_len, vec_capacity};
ghost use Rattle.dia_check.specs.declared.open_levels.tally.Met.{Met as AnyMet};
ghost use Rattle.dia_check.specs.Tallies.{count_in, never, unmet};
ghost use Rattle.dia_check.specs.Tallies.{AreBelow, AreRising, HasPlaceFor, IsPlaceOf, IsRecorded};
ghost use Rattle.dia_check.specs.LaidOutTallies.{laid_out};

/// While a tally records fewer rules than these, one more is inserted, and those after it move; from here on, one more
/// has all the rules of the level laid out at once.
const MANY_RECORDED: usize = 128;

/// How often a rule was met.
#[derive(Clone, Copy)]
pub(crate) struct Met {
    pub(super) rule: u32,
    pub(super) count: u32,
}

/// Records the first rules, as ones that were not met: each is at its own place then, where `recorded_at` looks first. There
/// is room.
#[inline(always)]
pub(super) fn lay_out(tallies: &mut Vec<Met>, many: usize)
    requires room { vec_len tallies.old + many ≤ vec_capacity tallies.old }
    requires few { many < 2 ^ 32 }
    ensures items { tallies.new.items ≡ tallies.old.items ++ unmet 0 many }
    ensures capacity { vec_capacity tallies.new ≡ vec_capacity tallies.old }
{
    for rule in 0..many {
        tallies.push_reserved(Met {
            rule: rule as u32,
            count: 0,
        });
    }
}

/// The place of a rule: after the rules before it.
#[inline(always)]
fn place_of(tally: &[Met], rule: usize) -> usize
    requires { AreRising 0 tally.now }
    ensures { IsPlaceOf tally.now rule result }
{
    match tally.last() {
        Some(last) if (last.rule as usize) < rule => tally.len(),
        Some(last) if last.rule as usize == rule => tally.len() - 1,
        _ => tally.partition_point(|met| (met.rule as usize) < rule),
    }
}

/// The place of a rule in the tally that begins at a place of the list and goes to its end. A rule that isn't recorded
/// there is recorded then, as one that was not met. There is room.
#[inline(always)]
pub(super) fn recorded_at(tallies: &mut Vec<Met>, base: usize, many: usize, rule: usize) -> usize
    requires { HasPlaceFor tallies.old.items (vec_capacity tallies.old) base many rule }
    ensures recorded { IsRecorded tallies.old.items tallies.new.items base many rule result }
    ensures capacity { vec_capacity tallies.old ≤ vec_capacity tallies.new }
{
    match tallies.get(base + rule) {
        Some(met) if met.rule as usize == rule => base + rule,
        _ => deliver(tallies, base, many, rule),
    }
}

/// The same for a rule that isn't at its own place.
#[inline(never)]
fn deliver(tallies: &mut Vec<Met>, base: usize, many: usize, rule: usize) -> usize
    requires { HasPlaceFor tallies.old.items (vec_capacity tallies.old) base many rule }
    ensures recorded { IsRecorded tallies.old.items tallies.new.items base many rule result }
    ensures capacity { vec_capacity tallies.old ≤ vec_capacity tallies.new }
{
    let tally = &tallies[base..];
    let place = place_of(tally, rule);
    if is_at(tally, place, rule) {
        return base + place;
    }
    if tally.len() >= MANY_RECORDED {
        lay_out_all(tallies, base, many);
        return base + rule;
    }
    add(tallies, base + place, rule as u32);
    base + place
}

/// Lays out the tally that begins at a place of the list: each of the level's rules is at its own place then, with the
/// count that was recorded. There is room. Places for the rules that were not recorded are made at the end; then each is
/// written, the last first, so that no count is written over before it is read.
#[inline(never)]
fn lay_out_all(tallies: &mut Vec<Met>, base: usize, many: usize)
    requires room { (base ≤ vec_len tallies.old) × (base + many ≤ vec_capacity tallies.old) × (many ≤ 1024) }
    requires recorded { AreRising 0 (drop base tallies.old.items) × AreBelow many (drop base tallies.old.items) }
    ensures front { take base tallies.new.items ≡ take base tallies.old.items }
    ensures rules { drop base tallies.new.items ≡ laid_out (drop base tallies.old.items) 0 many }
    ensures capacity { vec_capacity tallies.new ≡ vec_capacity tallies.old }
{
    let mut left = tallies.len() - base;
    lay_out(tallies, many - left);
    for rule in (0..many).rev() {
        let (count, before) = last_count(&tallies[base..base + left], rule);
        write(
            tallies,
            base + rule,
            Met {
                rule: rule as u32,
                count,
            },
        );
        left = before;
    }
}

/// The count of a rule after which none is recorded, and how many are recorded before it.
#[inline(always)]
fn last_count(tally: &[Met], rule: usize) -> (u32, usize)
    requires { AreRising 0 tally.now × AreBelow (rule + 1) tally.now }
    ensures count { result.0 ≡ count_in tally.now rule }
    ensures place { IsPlaceOf tally.now rule result.1 }
{
    let Some(last) = tally.last() else {
        return (0, 0);
    };
    if last.rule as usize == rule {
        return (last.count, tally.len() - 1);
    }
    (0, tally.len())
}

/// Whether the rule is recorded at a place.
fn is_at(tally: &[Met], place: usize, rule: usize) -> bool
    ensures yes { IsTrue result → (m : AnyMet) × (slice_get tally.now place ≡ Some m) × (m.rule ≡ rule) }
    ensures no { IsFalse result → (m : AnyMet) → slice_get tally.now place ≡ Some m → m.rule ≢ rule }
{
    match tally.get(place) {
        Some(met) => met.rule as usize == rule,
        None => false,
    }
}

/// Records a rule at a place, as one that was not met. There is room.
fn add(tallies: &mut Vec<Met>, place: usize, rule: u32)
    requires { (place ≤ vec_len tallies.old) × (vec_len tallies.old < vec_capacity tallies.old) }
    ensures items { tallies.new.items ≡ insert tallies.old.items place (never rule) }
    ensures capacity { vec_capacity tallies.old ≤ vec_capacity tallies.new }
{
    let met = Met { rule, count: 0 };
    match tallies.insert(place, met) {
        Ok(()) => {}
        Err(_) => unreachable!(),
    }
}

/// What is recorded of a rule and those after it.
pub(super) fn from_rule(tally: &[Met], rule: usize) -> &[Met]
    requires { AreRising 0 tally.now }
    ensures rising { AreRising 0 result.now }
    ensures same { (i : ℕ) → rule ≤ i → count_in result.now i ≡ count_in tally.now i }
{
    if rule == 0 {
        return tally;
    }
    &tally[place_of(tally, rule)..]
}

/// What is recorded at a place.
#[inline(always)]
pub(super) fn read(tallies: &Vec<Met>, place: usize) -> Met
    requires { place < vec_len tallies.now }
    ensures { slice_get tallies.now.items place ≡ Some result }
{
    tallies[place]
}

/// Replaces what is recorded at a place.
#[inline(always)]
pub(super) fn write(tallies: &mut Vec<Met>, place: usize, met: Met)
    requires { place < vec_len tallies.old }
    ensures items { tallies.new.items ≡ slice_set tallies.old.items place met }
    ensures capacity { vec_capacity tallies.new ≡ vec_capacity tallies.old }
{
    tallies[place] = met;
}
