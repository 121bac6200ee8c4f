//! Rules of a level that were met too seldom.

ghost use Rattle.std.specs.Prelude.{◌≡◌, ◌<◌, ◌≤◌, List, length, MatchOption};
ghost use Rattle.dia_book.specs.Shapes.{IsShape};
ghost use Rattle.dia_check.specs.Faults.{subject_of};
ghost use Rattle.dia_check.specs.declared.open_levels.tally.Met.{Met as AnyMet};
ghost use Rattle.dia_check.specs.Tallies.{AreRising, count_in};
ghost use Rattle.dia_check.specs.OpenLevels.{AreMet, IsFirstUnmet};

use super::Wrong;
use super::tally::{Met, from_rule};
use crate::fault::{Reason, Subject};
use dia_book::{DRule, Shape};

/// The AVP of a rule is missing.
pub fn missing(rule: DRule) -> Wrong
    ensures { result ≡ record { reason = Reason.Missing; subject = subject_of rule.key } }
{
    let subject = match rule.key {
        Some(key) => Subject::Avp(key),
        None => Subject::Wildcard,
    };
    Wrong {
        reason: Reason::Missing,
        subject,
    }
}

/// How far the rules are met, from the first on, where those before a rule are, and it was met so often now.
#[inline(always)]
pub(super) fn met_up_to(rules: &[DRule], shape: &Shape, rule: usize, count: u32) -> usize
    requires shape { IsShape rules.now shape.now }
    requires within { rule < length rules.now }
    ensures within { result ≤ length rules.now }
    ensures met { (tally : List AnyMet) → count_in tally rule ≡ count
        → AreMet rules.now tally 0 rule → AreMet rules.now tally 0 result }
{
    if rules[rule].min <= count {
        shape.first_wanted(rules, rule + 1)
    } else {
        rule
    }
}

/// The first rule from one place up to another that was met less often than its min.
#[inline(always)]
pub(super) fn first_unmet(
    rules: &[DRule],
    shape: &Shape,
    tally: &[Met],
    from: usize,
    to: usize,
) -> Option<usize>
    requires shape { IsShape rules.now shape.now }
    requires rising { AreRising 0 tally.now }
    requires within { (from ≤ length rules.now) × (to ≤ length rules.now) }
    ensures { MatchOption result (AreMet rules.now tally.now from to)
        (λ i. IsFirstUnmet rules.now tally.now from to i) }
{
    if to <= from || to <= shape.first_wanted(rules, from) {
        None
    } else {
        unmet_apart(rules, shape, tally, from, to)
    }
}

/// The same, out of line: the loop over AVPs seldom asks for it.
#[inline(never)]
fn unmet_apart(
    rules: &[DRule],
    shape: &Shape,
    tally: &[Met],
    from: usize,
    to: usize,
) -> Option<usize>
    requires shape { IsShape rules.now shape.now }
    requires rising { AreRising 0 tally.now }
    requires within { (from ≤ length rules.now) × (to ≤ length rules.now) }
    ensures { MatchOption result (AreMet rules.now tally.now from to)
        (λ i. IsFirstUnmet rules.now tally.now from to i) }
{
    unmet_among(rules, shape, tally, from, to)
}

/// The same, also where no rule with a least count is between the places. It takes as many steps as there are rules
/// that were met, and one more, and what `from_rule` takes.
#[inline(always)]
pub(super) fn unmet_among(
    rules: &[DRule],
    shape: &Shape,
    tally: &[Met],
    from: usize,
    to: usize,
) -> Option<usize>
    requires shape { IsShape rules.now shape.now }
    requires rising { AreRising 0 tally.now }
    requires within { (from ≤ length rules.now) × (to ≤ length rules.now) }
    ensures { MatchOption result (AreMet rules.now tally.now from to)
        (λ i. IsFirstUnmet rules.now tally.now from to i) }
{
    let mut place = shape.first_wanted(rules, from);
    if to <= place {
        return None;
    }
    for met in from_rule(tally, from) {
        let rule = met.rule as usize;
        if rule < place {
            continue;
        }
        if place < rule || met.count < rules[place].min {
            return Some(place);
        }
        place = shape.first_wanted(rules, place + 1);
        if to <= place {
            return None;
        }
    }
    Some(place)
}
