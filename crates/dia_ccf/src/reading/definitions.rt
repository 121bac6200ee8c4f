//! Definitions of groups and commands, and their rules.
ghost use Rattle.std.specs.Prelude.{◌≡◌};
ghost use Rattle.dia_ccf.specs.Names.{is_fixed};

use super::Reader;
use super::refusal::Refusal;
use crate::lexer::{Sign, Token};
use crate::source::{Def, Qual, Rule};
use dia_terms::RuleKind;

/// The opening of a definition: its place and its name.
#[derive(Drop)]
pub(super) struct Opening {
    pub(super) at: usize,
    pub(super) name: String,
}

/// What follows some rules of a definition.
#[derive(Drop)]
enum After {
    /// One more rule.
    Rule(Rule),
    /// The next definition's name, in angle brackets.
    Definition(Opening),
    /// Nothing of this definition.
    Nothing,
}

impl<'a> Reader<'a> {
    ghost use Rattle.std.specs.Prelude.{◌<◌, ◌≤◌, ◌≢◌, ℕ, List, [], ◌&&◌};
    ghost use Rattle.std.specs.Prelude.{◌||◌, not, map, true, false};
    ghost use Rattle.std.specs.Prelude.{IfOk, OnOk, IfSome, IsSome};
    ghost use Rattle.std.specs.Prelude.{IsTrue, MatchBool, string_bytes};
    ghost use Rattle.std.specs.Option.{option_map};
    ghost use Rattle.dia_ccf.specs.declared.source.Head.{Head as AnyHead};
    ghost use Rattle.dia_ccf.specs.Names.{is_name, fixed_first, is_number_or_none, is_qualifier};
    ghost use Rattle.dia_ccf.specs.Tokens.{Less, Greater, Assign, Declares};
    ghost use Rattle.dia_ccf.specs.Plain.{PlainSource, PlainDef, plain_def, plain_rule};
    ghost use Rattle.dia_ccf.specs.Machine.{State, Between, Def_assign, Rules, Qual_done};
    ghost use Rattle.dia_ccf.specs.Machine.{add_def, with_rule, all_fixed, name_at};
    ghost use Rattle.dia_ccf.specs.Machine.{sign_at, slot_at, number_at, same_sign};
    ghost use Rattle.dia_ccf.specs.Machine.{is_number, begins_qualifier, begins_loose};
    ghost use Rattle.dia_ccf.specs.Machine.{on_loose};
    ghost use Rattle.dia_ccf.specs.Limits.{max_number};
    ghost use Rattle.dia_ccf.specs.ReaderFunctions.{Accepts, Leads, Takes, Wants};
    ghost use Rattle.dia_ccf.specs.ReaderFunctions.{Reads_by, course, begins_with};
    ghost use Rattle.dia_ccf.specs.ReaderFunctions.{left, following, after_rules};
    ghost use Rattle.dia_ccf.specs.ReaderFunctions.{KeepsOrder, NamesNext, Goes};
    ghost use Rattle.dia_ccf.specs.ReaderFunctions.{Derived, From, Passed_after, Placed_after, unread};
    ghost use Rattle.dia_ccf.specs.Grammar.{◌then◌, one, name, rule, bracketed, count, qualifier};
    ghost use Rattle.dia_ccf.specs.Places.{DefOccurs, RulesStand, opened};

    /// The name of a definition, in angle brackets or bare.
    pub(super) fn defined_name(&mut self) -> Result<String, Refusal>
        requires { IsSome self.old.token }
        ensures read { (done : PlainSource)
            → begins_with (same_sign Declares) (left self.old) ≡ false
            → Leads (course (done, Between) self.old)
            (λ name. (done, Def_assign (string_bytes name))) result self.new }
        ensures named { IfOk result (λ name. IsTrue (is_name (string_bytes name))) }
        ensures derived { IfOk result (λ name. Derived (opened (string_bytes name)) self.old self.new) }
        ensures farther { OnOk result (self.old.taken < self.new.taken) }
    {
        if self.takes(Sign::Less) {
            self.name_in_angles()
        } else {
            self.name()
        }
    }

    /// A name and its `>`, where the `<` was read.
    fn name_in_angles(&mut self) -> Result<String, Refusal>
        ensures read { (state : State) (mid to : List ℕ → State)
            → Reads_by false true name_at mid state
            → ((name : List ℕ) → Reads_by false false (sign_at Greater) (λ u. to name) (mid name))
            → Leads (course state self.old) (λ name. to (string_bytes name)) result self.new }
        ensures named { IfOk result (λ name. IsTrue (is_name (string_bytes name))) }
        ensures derived { IfOk result
            (λ found. Derived (name (string_bytes found) then one Greater) self.old self.new) }
        ensures farther { OnOk result (self.old.taken ≤ self.new.taken) }
    {
        let name = self.name()?;
        self.expect(Sign::Greater)?;
        Ok(name)
    }

    /// The definition whose name was read, and the next one's name, where that is in angle brackets.
    pub(super) fn definition(&mut self, opening: Opening) -> Result<(Def, Option<Opening>), Refusal>
        requires named { IsTrue (is_name (string_bytes opening.name)) }
        requires begun { From opening.at (opened (string_bytes opening.name)) self.old }
        ensures read { (done : PlainSource)
            → Leads (course (done, Def_assign (string_bytes opening.name)) self.old)
            (λ found. (add_def done (plain_def found.0), following found.1)) result self.new }
        ensures named { IfOk result
            (λ found. IfSome found.1 (λ next. IsTrue (is_name (string_bytes next.name)))) }
        ensures placed { IfOk result (λ found. DefOccurs self.new.text.now found.0) }
        ensures begins { IfOk result (λ found. found.0.at ≡ opening.at) }
        ensures begun { IfOk result (λ found. IfSome found.1
            (λ next. From next.at (opened (string_bytes next.name)) self.new)) }
        ensures later { IfOk result (λ found. opening.at < unread found.1 self.new) }
        ensures farther { OnOk result (self.old.taken < self.new.taken) }
    {
        let Opening { at, name } = opening;
        self.expect(Sign::Assign)?;
        self.expect(Sign::Less)?;
        let head = self.head()?;
        self.expect(Sign::Greater)?;
        let (rules, next) = self.rules()?;
        let def = Def {
            at,
            name,
            head,
            rules,
        };
        Ok((def, next))
    }

    /// The rules of a definition, and the next one's name, where that is in angle brackets.
    fn rules(&mut self) -> Result<(Vec<Rule>, Option<Opening>), Refusal>
        ensures read { (done : PlainSource) (name : List ℕ) (head : AnyHead)
            → Leads
            (course (done, Rules (record { name = name; head = head; rules = [] })) self.old)
            (λ found. (
              add_def done
                  (record { name = name; head = head; rules = map plain_rule found.0.items }),
              following found.1,
            )) result self.new }
        ensures ordered { IfOk result
            (λ found. IsTrue (fixed_first (map (λ r. r.kind) found.0.items))) }
        ensures named { IfOk result
            (λ found. IfSome found.1 (λ next. IsTrue (is_name (string_bytes next.name)))) }
        ensures placed { IfOk result (λ found. (end : ℕ)
            × RulesStand self.new.text.now self.old.taken found.0.items end) }
        ensures begun { IfOk result (λ found. IfSome found.1
            (λ next. From next.at (opened (string_bytes next.name)) self.new)) }
        ensures later { IfOk result (λ found. IfSome found.1 (λ next. self.old.at ≤ next.at)) }
        ensures farther { OnOk result (self.old.taken ≤ self.new.taken) }
    {
        let mut rules = Vec::new(self.alloc);
        let mut only_fixed = true;
        loop {
            match self.following_rules(only_fixed)? {
                After::Rule(rule) => {
                    only_fixed = is_fixed(rule.kind);
                    rules.push(rule)?;
                }
                After::Definition(opening) => return Ok((rules, Some(opening))),
                After::Nothing => return Ok((rules, None)),
            }
        }
    }

    /// What follows the rules that were read; `only_fixed` is whether all of them are fixed.
    fn following_rules(&mut self, only_fixed: bool) -> Result<After, Refusal>
        ensures read { (done : PlainSource) (d : PlainDef) → all_fixed d.rules ≡ only_fixed
            → Leads (course (done, Rules d) self.old) (after_rules done d) result self.new }
        ensures ordered { IfOk result (λ found. KeepsOrder found only_fixed) }
        ensures named { IfOk result NamesNext }
        ensures placed { IfOk result (λ found. Placed_after found self.old) }
        ensures derived { IfOk result (λ found. Passed_after found self.old self.new) }
        ensures farther { IfOk result (λ found. Goes found self.old.taken self.new.taken) }
    {
        let at = self.at;
        if self.takes(Sign::Less) {
            let name = self.name_in_angles()?;
            if self.is_at_definition(only_fixed) {
                return Ok(After::Definition(Opening { at, name }));
            }
            return Ok(After::Rule(Rule {
                at,
                kind: RuleKind::Fixed,
                name: Some(name),
                qual: None,
            }));
        }
        if self.is_at_qualifier() {
            let rule = self.qualified(only_fixed)?;
            return Ok(After::Rule(rule));
        }
        if self.is_at_loose() {
            let rule = self.loose(at, None)?;
            return Ok(After::Rule(rule));
        }
        Ok(After::Nothing)
    }

    /// Whether the name in angle brackets before this place begins a definition: `::=` is ahead, or no
    /// fixed rule may come any more.
    fn is_at_definition(&self, only_fixed: bool) -> bool
        ensures { result ≡ (not only_fixed || begins_with (same_sign Assign) (left self.now)) }
    {
        !only_fixed || self.is_at(Sign::Assign)
    }

    /// Goes past the `<` of a fixed rule, if one may come and it is ahead.
    fn takes_fixed(&mut self, fixed: bool) -> bool
        ensures read { MatchBool result
            ((fixed ≡ true) × Takes (same_sign Less) self.old true self.new)
            (((fixed && begins_with (same_sign Less) (left self.old)) ≡ false)
            × (self.new ≡ self.old)) }
        ensures farther { self.old.taken ≤ self.new.taken }
    {
        fixed && self.takes(Sign::Less)
    }

    /// Whether a qualifier begins here.
    fn is_at_qualifier(&self) -> bool
        ensures { result ≡ begins_with begins_qualifier (left self.now) }
    {
        self.is_at_number() || self.is_at(Sign::Star)
    }

    /// Whether a rule without qualifier begins here that is not fixed.
    fn is_at_loose(&self) -> bool
        ensures { result ≡ begins_with begins_loose (left self.now) }
    {
        self.is_at(Sign::OpenBrace) || self.is_at(Sign::OpenBracket)
    }

    /// A rule with a qualifier; it may be a fixed one only where `fixed` is true.
    fn qualified(&mut self, fixed: bool) -> Result<Rule, Refusal>
        requires { begins_with begins_qualifier (left self.old) ≡ true }
        ensures read { (done : PlainSource) (d : PlainDef) → all_fixed d.rules ≡ fixed
            → Leads (course (done, Rules d) self.old)
            (λ rule. (done, Rules (with_rule d (plain_rule rule)))) result self.new }
        ensures ordered { IfOk result (λ rule. rule.kind ≡ RuleKind.Fixed → fixed ≡ true) }
        ensures placed { IfOk result (λ rule. rule.at ≡ self.old.at) }
        ensures derived { IfOk result (λ found. Derived (rule (plain_rule found)) self.old self.new) }
        ensures farther { OnOk result (self.old.taken < self.new.taken) }
    {
        let at = self.at;
        let qual = self.qualifier()?;
        if self.takes_fixed(fixed) {
            let name = self.name_in_angles()?;
            return Ok(Rule {
                at,
                kind: RuleKind::Fixed,
                name: Some(name),
                qual: Some(qual),
            });
        }
        self.loose(at, Some(qual))
    }

    /// A rule that is not fixed, after its qualifier. The rule begins at the place.
    fn loose(&mut self, at: usize, qual: Option<Qual>) -> Result<Rule, Refusal>
        requires { IsTrue (is_qualifier qual) }
        ensures read { (done : PlainSource) (d : PlainDef) (state : State)
            → Wants false false (on_loose done d qual) state (left self.old)
            → Leads (course state self.old)
            (λ rule. (done, Rules (with_rule d (plain_rule rule)))) result self.new }
        ensures ordered { IfOk result (λ rule. rule.kind ≢ RuleKind.Fixed) }
        ensures placed { IfOk result (λ rule. (rule.at ≡ at) × (rule.qual ≡ qual)) }
        ensures derived { IfOk result
            (λ rule. Derived (bracketed rule.kind (plain_rule rule).name) self.old self.new) }
        ensures farther { OnOk result (self.old.taken < self.new.taken) }
    {
        if self.takes(Sign::OpenBrace) {
            let name = self.slot()?;
            self.expect(Sign::CloseBrace)?;
            return Ok(Rule {
                at,
                kind: RuleKind::Required,
                name,
                qual,
            });
        }
        self.expect(Sign::OpenBracket)?;
        let name = self.slot()?;
        self.expect(Sign::CloseBracket)?;
        Ok(Rule {
            at,
            kind: RuleKind::Optional,
            name,
            qual,
        })
    }

    fn qualifier(&mut self) -> Result<Qual, Refusal>
        requires { begins_with begins_qualifier (left self.old) ≡ true }
        ensures read { (done : PlainSource) (d : PlainDef)
            → Leads (course (done, Rules d) self.old)
            (λ qual. (done, Qual_done d qual)) result self.new }
        ensures farther { OnOk result (self.old.taken < self.new.taken) }
        ensures small { IfOk result (λ qual. IsTrue (is_qualifier (Some qual))) }
        ensures derived { IfOk result (λ qual. Derived (qualifier (Some qual)) self.old self.new) }
    {
        let min = self.count()?;
        self.expect(Sign::Star)?;
        let max = self.count()?;
        Ok(Qual { min, max })
    }

    /// A number, if one is ahead.
    fn count(&mut self) -> Result<Option<u32>, Refusal>
        ensures read { MatchBool (begins_with is_number (left self.old))
            (Accepts true false (λ token. option_map (λ n. Some n) (number_at 0 max_number token))
            (λ n. n) self.old result self.new) ((result ≡ Ok None) × (self.new ≡ self.old)) }
        ensures derived { IfOk result (λ n. Derived (count n) self.old self.new) }
        ensures small { IfOk result (λ n. IsTrue (is_number_or_none n)) }
        ensures farther { OnOk result (self.old.taken ≤ self.new.taken) }
    {
        if self.is_at_number() {
            let n = self.number(0, u32::MAX)?;
            return Ok(Some(n));
        }
        Ok(None)
    }

    /// The name in a rule that is not fixed, or none for the wildcard.
    fn slot(&mut self) -> Result<Option<String>, Refusal>
        ensures { Accepts false true slot_at
            (λ name. option_map (λ text. string_bytes text) name) self.old result self.new }
    {
        if self.takes_word("AVP") {
            return Ok(None);
        }
        let name = self.name()?;
        Ok(Some(name))
    }
}

fn is_fixed(kind: RuleKind) -> bool
    ensures { result ≡ is_fixed kind }
{
    matches!(kind, RuleKind::Fixed)
}
