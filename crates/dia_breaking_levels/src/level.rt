//! The levels of one definition of A that break the rules of one of B.
ghost use Rattle.std.specs.Prelude.{◌≡◌, ◌++◌, IfOk, filter_map};
ghost use Rattle.dia_valid.specs.Rules.{rules_in};
ghost use Rattle.dia_breaking_levels.specs.LevelTests.{at_least, at_most, few_others, filler};
ghost use Rattle.dia_breaking_levels.specs.LevelTests.{missing_length, too_many_length};
ghost use Rattle.dia_breaking_levels.specs.LevelTests.{not_allowed_length, not_allowed_other_length};
ghost use Rattle.dia_breaking_levels.specs.LevelTests.{missing_others_length, too_many_others_length};
ghost use Rattle.dia_breaking_levels.specs.LevelTests.{length_of, line_of, next_length};

use crate::costs::Costs;
use crate::floor::Floor;
use crate::lengths::{TOO_LONG, listed_at_least, listed_at_most, other_at_least, refilled};
use crate::line::{Line, Reason};
use crate::rules::Rules;
use dia_book::{Book, DRule, Key};
use std::alloc::AllocError;

impl Floor {
    /// The length of a shortest AVP by the wildcard.
    pub fn filler(&self) -> u64
        ensures { result ≡ filler self.now }
    {
        self.inner.min(self.outer)
    }

    /// The length of a shortest AVP by the wildcard that is not of this key.
    fn next_length(&self, key: Key) -> u64
        ensures { result ≡ next_length self.now key }
    {
        if self.first == Some(key) {
            self.second.min(self.outer)
        } else {
            self.filler()
        }
    }

    /// The least level in which the key, whose rule is this, occurs at most `count` times.
    fn at_most(&self, key: Key, count: u64, rule: Option<DRule>) -> u64
        ensures { result ≡ at_most self.now key count rule self.now.wild }
    {
        match rule {
            Some(rule) => listed_at_most(self.base, count, &rule),
            None => refilled(
                self.base,
                self.filler(),
                self.next_length(key),
                count,
                self.wild,
            ),
        }
    }

    /// The least level with at most `count` AVPs that B's definition doesn't list.
    fn few_others(&self, count: u64) -> u64
        ensures { result ≡ few_others self.now count self.now.wild }
    {
        if self.needed <= count {
            let left = count.saturating_sub(self.needed);
            refilled(self.base, self.filler(), self.inner, left, self.wild)
        } else {
            TOO_LONG
        }
    }

    /// The least level with one AVP by the wildcard that neither definition lists.
    fn not_allowed_other(&self, rule: &DRule) -> u64
        ensures { result ≡ not_allowed_other_length self.now rule.now }
    {
        if self.lets_in || rule.key.is_some() {
            TOO_LONG
        } else {
            other_at_least(self.base, self.filler(), self.outer, 1, self.wild)
        }
    }

    /// The least level with fewer AVPs by the wildcard of B's definition than it asks for.
    fn missing_others(&self, rule: &DRule) -> u64
        ensures { result ≡ missing_others_length self.now rule.now }
    {
        if rule.key.is_some() || rule.min == 0 {
            TOO_LONG
        } else {
            self.few_others(u64::from(rule.min).saturating_sub(1))
        }
    }
}

/// The length of the least level with too many AVPs by the wildcard of B's definition, reported at the wildcard.
fn too_many_others(most: u64, rule: &DRule) -> u64
    ensures { result ≡ too_many_others_length most rule.now }
{
    if rule.key.is_some() || rule.max.is_none() {
        TOO_LONG
    } else {
        most
    }
}

/// A definition of A, read by one of B.
#[derive(Drop)]
pub(crate) struct Level<'a, A: Book, B: Book, C: Costs> {
    pub a: Rules<'a, A>,
    pub b: Rules<'a, B>,
    pub costs: &'a C,
    pub floor: Floor,
    /// The length of the least level with too many AVPs by the wildcard of `b`.
    pub most: u64,
}

impl<'a, A: Book, B: Book, C: Costs> Level<'a, A, B, C> {
    /// The least level in which the key, whose rule is this, occurs `count` times or more.
    fn at_least(&self, key: Key, count: u64, rule: Option<DRule>) -> u64
        ensures { result ≡ at_least self.now.floor (C.listed_length self.now.costs.now)
            (C.other_length self.now.costs.now) key count rule self.now.floor.wild }
    {
        let floor = &self.floor;
        match rule {
            Some(rule) => listed_at_least(floor.base, self.costs.listed(key), count, &rule),
            None => other_at_least(
                floor.base,
                floor.filler(),
                self.costs.other(key),
                count,
                floor.wild,
            ),
        }
    }

    /// The least level with fewer of the rule's key than it asks for.
    fn missing(&self, rule: &DRule) -> u64
        ensures { result ≡ missing_length self.now.floor
            (rules_in (A.meaning self.now.a.book.now) self.now.a.def) rule.now }
    {
        match rule.key {
            Some(key) => {
                if rule.min == 0 {
                    return TOO_LONG;
                }
                let count = u64::from(rule.min).saturating_sub(1);
                self.floor.at_most(key, count, self.a.rule(key))
            }
            None => TOO_LONG,
        }
    }

    /// The least level with more of the rule's key than it allows.
    fn too_many(&self, rule: &DRule) -> u64
        ensures { result ≡ too_many_length self.now.floor (C.listed_length self.now.costs.now)
            (C.other_length self.now.costs.now)
            (rules_in (A.meaning self.now.a.book.now) self.now.a.def) rule.now }
    {
        match rule.key {
            Some(key) => match rule.max {
                Some(max) => self.at_least(key, u64::from(max) + 1, self.a.rule(key)),
                None => TOO_LONG,
            },
            None => TOO_LONG,
        }
    }

    /// The least level with an AVP of the rule of `a`, which `b` neither lists nor lets in.
    fn not_allowed(&self, rule: &DRule) -> u64
        ensures { result ≡ not_allowed_length self.now.floor (C.listed_length self.now.costs.now)
            (rules_in (B.meaning self.now.b.book.now) self.now.b.def) rule.now }
    {
        match rule.key {
            Some(key) => {
                if self.floor.lets_in || self.b.lists(key) {
                    return TOO_LONG;
                }
                listed_at_least(self.floor.base, self.costs.listed(key), 1, rule)
            }
            None => TOO_LONG,
        }
    }

    /// The least level for a reason of counts. That of an order is of two keys (`best`).
    fn length(&self, reason: Reason, rule: &DRule) -> u64
        ensures { result ≡ length_of reason self.now.floor self.now.most
            (C.listed_length self.now.costs.now) (C.other_length self.now.costs.now)
            (rules_in (A.meaning self.now.a.book.now) self.now.a.def)
            (rules_in (B.meaning self.now.b.book.now) self.now.b.def) rule.now }
    {
        match reason {
            Reason::Missing => self.missing(rule),
            Reason::TooMany => self.too_many(rule),
            Reason::NotAllowed => self.not_allowed(rule),
            Reason::NotAllowedOther => self.floor.not_allowed_other(rule),
            Reason::MissingOthers => self.floor.missing_others(rule),
            Reason::TooManyOthers => too_many_others(self.most, rule),
            Reason::Order => TOO_LONG,
        }
    }

    /// The line of a reason of counts and a rule, if some level that isn't too long shows it.
    fn line(&self, reason: Reason, rule: &DRule) -> Option<Line>
        ensures { result ≡ line_of reason self.now.floor self.now.most
            (C.listed_length self.now.costs.now) (C.other_length self.now.costs.now)
            (rules_in (A.meaning self.now.a.book.now) self.now.a.def)
            (rules_in (B.meaning self.now.b.book.now) self.now.b.def) rule.now }
    {
        let length = self.length(reason, rule);
        if length < TOO_LONG {
            Some(Line {
                reason,
                key: rule.key,
                following: None,
                length,
            })
        } else {
            None
        }
    }

    /// Adds the lines of a reason, in the order of these rules.
    pub fn with_lines(
        &self,
        mut lines: Vec<Line>,
        reason: Reason,
        rules: &[DRule],
    ) -> Result<Vec<Line>, AllocError>
        ensures { IfOk result (λ all. all.items ≡ lines.items ++ filter_map
            (line_of reason self.now.floor self.now.most
            (C.listed_length self.now.costs.now) (C.other_length self.now.costs.now)
            (rules_in (A.meaning self.now.a.book.now) self.now.a.def)
            (rules_in (B.meaning self.now.b.book.now) self.now.b.def)) rules.now) }
    {
        for rule in rules {
            match self.line(reason, rule) {
                Some(line) => lines.push(line)?,
                None => {}
            }
        }
        Ok(lines)
    }
}
