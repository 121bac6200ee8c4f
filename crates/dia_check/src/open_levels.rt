//! The levels that are open, and how often their rules were met.

mod tally;
mod unmet;

ghost use Rattle.std.specs.Prelude.{◌≡◌, ◌<◌, ◌≤◌, ◌↔◌, ◌++◌, ◌∷◌, [], List, Option};
ghost use Rattle.std.specs.Prelude.{Some, drop, length, slice_get, MatchOption};
ghost use Rattle.std.specs.Prelude.{OnOk, IsTrue, IsFalse, MatchResult};
ghost use Rattle.dia_wire.specs.declared.Key.{Key as AnyKey};
ghost use Rattle.dia_book.specs.declared.DRule.{DRule as AnyRule};
ghost use Rattle.dia_book.specs.Dictionary.{AreRules, PlainDefinition, slot_of};
ghost use Rattle.dia_book.specs.Shapes.{IsShape};
ghost use Rattle.dia_valid.specs.Valid.{fixed_rules};
ghost use Rattle.dia_valid.specs.LongestRuns.{IsAt};
ghost use Rattle.dia_check.specs.OpenLevels.{IsCounted, IsLed, Leads};
ghost use Rattle.dia_check.specs.OpenLevels.{IsWellPlaced, IsFirstMisplaced};
ghost use Rattle.dia_check.specs.OpenLevels.{IsMetAtEnd, IsMissingAtEnd, SoFar};
ghost use Rattle.dia_check.specs.OpenLevels.{begun, and_key, HasRoom, AreOpen};

use self::tally::{Met, lay_out, read, recorded_at, write};
pub use self::unmet::missing;
use self::unmet::{first_unmet, met_up_to, unmet_among};
use crate::fault::{Reason, Subject};
use dia_book::{DRule, DefId, Shape, Slot};
use dia_wire::Key;
use std::alloc::{AllocError, Global};
use thiserror::Error;

/// How many rules of a body its tally records from the start: all that a definition may have.
const LAID_OUT_OF_BODY: usize = 1024;

/// The same for a group. Nested groups take 8 bytes for each.
const LAID_OUT_OF_GROUP: usize = 8;

/// How many more rules the first list of tallies has room for than the body's, so that the groups of most messages take no
/// memory for theirs.
const ROOM_FOR_GROUPS: usize = 32;

/// For how many levels memory is retained after a message: 40 KB at most.
const MOST_LEVELS_KEPT: usize = 1024;

/// For how many rules of tallies it is: 40 KB at most, enough for as many levels of groups of four rules.
const MOST_RULES_KEPT: usize = 5120;

/// An open level.
#[derive(Clone, Copy)]
pub(crate) struct OpenLevel {
    pub(crate) def: DefId,
    /// The place after its last byte.
    pub(crate) end: usize,
    /// Where its tally begins; it goes up to the next level's.
    base: usize,
    /// The fixed rule in whose run the level is; after the last run, the number of fixed rules.
    run: usize,
    /// A place before which each rule was met often enough: the number of rules, where the AVPs that have to be there
    /// came in the order of their rules.
    done: usize,
}

/// The levels that are open, and their tallies, one level after the other.
///
/// A level that opens has room for all its rules in its tally, which records only the first ones from the start: so an
/// AVP that is met takes no memory, and to open or close a level costs little, however many rules it has.
#[derive(Drop)]
pub(crate) struct OpenLevels {
    innermost: OpenLevel,
    /// The levels round it, the outermost first.
    outer: Vec<OpenLevel>,
    tallies: Vec<Met>,
}

/// What is wrong with an AVP or at the end of a level.
#[derive(Clone, Copy, Debug, Error)]
#[error("{reason}")]
pub struct Wrong {
    pub reason: Reason,
    pub subject: Subject,
}

impl Wrong {
    /// What is wrong with an AVP of this key.
    pub(crate) fn avp(reason: Reason, key: Key) -> Self
        ensures { result ≡ record { reason = reason; subject = Subject.Avp key } }
    {
        Wrong {
            reason,
            subject: Subject::Avp(key),
        }
    }
}

impl OpenLevel {
    /// A level of which nothing was read yet, whose tally begins at a place, and whose first rule with a least count is
    /// at another.
    #[inline(always)]
    fn new(def: DefId, end: usize, base: usize, done: usize) -> Self
        ensures { result ≡ record { def = def; end = end; base = base; run = 0; done = done } }
    {
        OpenLevel {
            def,
            end,
            base,
            run: 0,
            done,
        }
    }

    /// The run into which an AVP of this key and slot leads and the rule that counts it, or what is wrong with it.
    #[inline(always)]
    fn rule_for(
        &self,
        tally: &[Met],
        rules: &[DRule],
        shape: &Shape,
        slot: Slot,
        key: Key,
    ) -> Result<(usize, usize), Wrong>
        requires rules { AreRules rules.now }
        requires shape { IsShape rules.now shape.now }
        requires slot { slot ≡ slot_of rules.now key }
        requires counted { ∥ ((keys : List AnyKey) × IsCounted rules.now keys self.now tally.now) ∥₁ }
        ensures { (keys : List AnyKey) → IsCounted rules.now keys self.now tally.now
            → MatchResult result
            (λ led. IsLed rules.now keys key tally.now self.now.run led.0 led.1)
            (λ wrong. IsFirstMisplaced rules.now keys key wrong) }
    {
        let (run, rule) = lead(self.run, shape, slot);
        if let Some(place) = first_unmet(rules, shape, tally, self.run, run) {
            let rule = rules[place];
            return Err(missing(rule));
        }
        match rule {
            Some(rule) => Ok((run, rule)),
            None => Err(Wrong::avp(Reason::NotAllowed, key)),
        }
    }
}

/// The run into which an AVP of this slot leads, where those before it end in a run, and the rule that counts it. Runs
/// count from 0; after the last comes the number of fixed rules.
#[inline(always)]
pub fn lead(run: usize, shape: &Shape, slot: Slot) -> (usize, Option<usize>)
    ensures { (rules : List AnyRule) (keys : List AnyKey) (key : AnyKey)
        → AreRules rules → IsShape rules shape.now → IsAt (fixed_rules rules) run keys
        → slot ≡ slot_of rules key → Leads rules keys key run result.0 result.1 }
{
    match slot {
        Slot::Fixed(rule) if rule >= run => (rule, Some(rule)),
        Slot::Fixed(_) => (shape.fixed, None),
        Slot::Loose(rule) => (shape.fixed, Some(rule)),
        Slot::Unlisted => (shape.fixed, shape.wildcard),
    }
}

impl OpenLevels {
    /// Levels of no message, which have no memory yet.
    pub(crate) fn empty(alloc: Global) -> Self {
        OpenLevels {
            innermost: OpenLevel::new(DefId::new(0), 0, 0, 0),
            outer: Vec::new(alloc),
            tallies: Vec::new(alloc),
        }
    }

    /// The levels of a message of which nothing was read yet, in the memory that is there: its body alone, which ends at a
    /// place.
    #[inline(always)]
    pub(crate) fn begin(
        &mut self,
        def: DefId,
        rules: &[DRule],
        shape: &Shape,
        end: usize,
    ) -> Result<(), AllocError>
        requires { IsShape rules.now shape.now }
        ensures { (defs : List PlainDefinition) (definition : PlainDefinition)
            → slice_get defs def ≡ Some definition → definition.rules ≡ rules.now
            → OnOk result (AreOpen defs self.new [] (begun rules.now end)) }
    {
        self.outer.clear();
        self.tallies.clear();
        self.tallies.reserve(rules.len() + ROOM_FOR_GROUPS)?;
        lay_out(&mut self.tallies, rules.len().min(LAID_OUT_OF_BODY));
        self.innermost = OpenLevel::new(def, end, 0, shape.first_wanted(rules, 0));
        Ok(())
    }

    /// Gives memory back where it is more than most messages want.
    #[inline(always)]
    pub(crate) fn give_back(&mut self, alloc: Global) {
        let many_levels = self.outer.capacity() > MOST_LEVELS_KEPT;
        if many_levels || self.tallies.capacity() > MOST_RULES_KEPT {
            *self = OpenLevels::empty(alloc);
        }
    }

    /// Opens a level in the innermost one. This alone takes memory.
    #[inline(always)]
    pub(crate) fn open(
        &mut self,
        def: DefId,
        rules: &[DRule],
        shape: &Shape,
        end: usize,
    ) -> Result<(), AllocError>
        requires shape { IsShape rules.now shape.now }
        requires rules { AreRules rules.now }
        requires open { ∥ ((defs : List PlainDefinition) × (outer : List SoFar) × (level : SoFar)
            × AreOpen defs self.old outer level) ∥₁ }
        ensures { (defs : List PlainDefinition)
            (definition : PlainDefinition) (outer : List SoFar) (level : SoFar)
            → slice_get defs def ≡ Some definition
            → definition.rules ≡ rules.now → AreOpen defs self.old outer level
            → OnOk result (AreOpen defs self.new (outer ++ level ∷ []) (begun rules.now end)) }
    {
        self.outer.push(self.innermost)?;
        self.tallies.reserve(rules.len())?;
        let done = shape.first_wanted(rules, 0);
        self.innermost = OpenLevel::new(def, end, self.tallies.len(), done);
        lay_out(&mut self.tallies, rules.len().min(LAID_OUT_OF_GROUP));
        Ok(())
    }

    /// Ends the innermost level. Answers whether it lay in another, which is the innermost then.
    #[inline(never)]
    pub(crate) fn close(&mut self) -> bool
        requires { ∥ ((defs : List PlainDefinition) × (outer : List SoFar) × (level : SoFar)
            × AreOpen defs self.old outer level) ∥₁ }
        ensures inner { IsTrue result
            → (defs : List PlainDefinition) (outer : List SoFar) (level : SoFar)
            → AreOpen defs self.old outer level
            → (others : List SoFar) × (next : SoFar) × (outer ≡ others ++ next ∷ [])
            × AreOpen defs self.new others next }
        ensures last { IsFalse result
            → (defs : List PlainDefinition) (outer : List SoFar) (level : SoFar)
            → AreOpen defs self.old outer level → outer ≡ [] }
    {
        self.tallies.truncate(self.innermost.base);
        match self.outer.pop() {
            Some(next) => {
                self.innermost = next;
                true
            }
            None => false,
        }
    }

    /// Meets an AVP of this key and slot in the innermost level, or says what is wrong.
    #[inline(always)]
    pub(crate) fn meet(
        &mut self,
        rules: &[DRule],
        shape: &Shape,
        slot: Slot,
        key: Key,
    ) -> Option<Wrong>
        requires rules { AreRules rules.now }
        requires shape { IsShape rules.now shape.now }
        requires slot { slot ≡ slot_of rules.now key }
        requires open { ∥ ((defs : List PlainDefinition) × (outer : List SoFar) × (level : SoFar)
            × AreOpen defs self.old outer level × (level.rules ≡ rules.now) × HasRoom level) ∥₁ }
        ensures { (defs : List PlainDefinition) (outer : List SoFar) (level : SoFar)
            → AreOpen defs self.old outer level → level.rules ≡ rules.now
            → MatchOption result (IsWellPlaced rules.now level.keys key
            × AreOpen defs self.new outer (and_key level key))
            (λ wrong. IsFirstMisplaced rules.now level.keys key wrong) }
    {
        let tally = &self.tallies[self.innermost.base..];
        match self.innermost.rule_for(tally, rules, shape, slot, key) {
            Ok((run, rule)) => self.count(rules, shape, run, rule, key),
            Err(wrong) => Some(wrong),
        }
    }

    /// Counts an AVP of this key, which leads into a run and to a rule, or says that there is one too many.
    #[inline(always)]
    fn count(
        &mut self,
        rules: &[DRule],
        shape: &Shape,
        run: usize,
        rule: usize,
        key: Key,
    ) -> Option<Wrong>
        requires rules { AreRules rules.now }
        requires shape { IsShape rules.now shape.now }
        requires led { ∥ ((defs : List PlainDefinition) × (outer : List SoFar) × (level : SoFar)
            × AreOpen defs self.old outer level × (level.rules ≡ rules.now) × HasRoom level
            × IsLed rules.now level.keys key (drop self.old.innermost.base self.old.tallies.items)
            self.old.innermost.run run rule) ∥₁ }
        ensures { (defs : List PlainDefinition) (outer : List SoFar) (level : SoFar)
            → AreOpen defs self.old outer level → level.rules ≡ rules.now
            → IsLed rules.now level.keys key (drop self.old.innermost.base self.old.tallies.items)
            self.old.innermost.run run rule
            → MatchOption result (IsWellPlaced rules.now level.keys key
            × AreOpen defs self.new outer (and_key level key))
            (λ wrong. IsFirstMisplaced rules.now level.keys key wrong) }
    {
        let place = recorded_at(&mut self.tallies, self.innermost.base, rules.len(), rule);
        let met = read(&self.tallies, place);
        if rules[rule].max == Some(met.count) {
            return Some(Wrong::avp(Reason::TooMany, key));
        }
        let met = Met {
            rule: met.rule,
            count: met.count + 1,
        };
        write(&mut self.tallies, place, met);
        self.innermost.run = run;
        if rule != self.innermost.done {
            return None;
        }
        self.innermost.done = met_up_to(rules, shape, rule, met.count);
        None
    }

    /// Whether it is known, without a look at the tally, that nothing is missing at the end of the innermost level.
    #[inline(always)]
    pub(crate) fn is_met(&self, rules: &[DRule]) -> bool
        ensures { IsTrue result ↔ (length rules.now ≤ self.now.innermost.done) }
    {
        rules.len() <= self.innermost.done
    }

    /// What is missing at the end of the innermost level.
    pub(crate) fn missing(&self, rules: &[DRule], shape: &Shape) -> Option<Wrong>
        requires shape { IsShape rules.now shape.now }
        requires open { ∥ ((defs : List PlainDefinition) × (outer : List SoFar) × (level : SoFar)
            × AreOpen defs self.now outer level × (level.rules ≡ rules.now)) ∥₁ }
        ensures { (defs : List PlainDefinition) (outer : List SoFar) (level : SoFar)
            → AreOpen defs self.now outer level → level.rules ≡ rules.now
            → MatchOption result (IsMetAtEnd rules.now level.keys)
            (IsMissingAtEnd rules.now level.keys) }
    {
        let tally = &self.tallies[self.innermost.base..];
        let place = unmet_among(rules, shape, tally, self.innermost.done, rules.len())?;
        Some(missing(rules[place]))
    }

    /// The innermost level.
    #[inline(always)]
    pub(crate) fn innermost(&self) -> OpenLevel
        ensures { result ≡ self.now.innermost }
    {
        self.innermost
    }

    /// How many groups the innermost level lies in.
    #[inline(always)]
    pub(crate) fn depth(&self) -> usize
        ensures { (defs : List PlainDefinition) (outer : List SoFar) (level : SoFar)
            → AreOpen defs self.now outer level → result ≡ length outer }
    {
        self.outer.len()
    }
}
