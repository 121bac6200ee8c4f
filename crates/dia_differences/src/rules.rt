//! The lines of rules.

ghost use Rattle.std.specs.Prelude.{◌≡◌, ◌<◌, ◌↔◌, IfSome, IsTrue, OnOk, is_some, length, not};
ghost use Rattle.std.specs.Prelude.{◌∷◌, ◌++◌, [], if◌then◌else◌, option_and_then, position, slice_get, true};
ghost use Rattle.dia_book.specs.Dictionary.{definitions, lists_key};
ghost use Rattle.dia_book.specs.Rules.{is_fixed};
ghost use Rattle.dia_differences.specs.Owners.{rules_of};
ghost use Rattle.dia_differences.specs.Lines.{Adds, AllRules, OtherRules, OwnRules, RuleLine, RuleLines, unmarked};
ghost use Rattle.dia_differences.specs.Matching.{IsSameAt, listed_at, other_key, place_by, rule_place};
ghost use Rattle.dia_differences.specs.Partners.{paired};
ghost use Rattle.dia_differences.specs.Slots.{slot_place};

use crate::avps::partner;
use crate::lines::{Line, RulePlace, What, push_line, push_unless};
use crate::owner::Owner;
use crate::partners::Partners;
use crate::sides::Side;
use dia_book::{Book, DRule, DefId, Definition, Key, RuleKind, Slot};
use std::alloc::AllocError;

/// Adds the rules of a definition that one dictionary alone has.
pub fn push_all_rules<D: Book>(
    lines: &mut Vec<Line>,
    side: Side,
    book: &D,
    of: Owner,
) -> Result<(), AllocError>
    ensures { OnOk result (Adds lines.old.items lines.new.items
        (AllRules side of (length (rules_of (D.meaning book.now) of)))) }
{
    let rules = of.rules(book);
    for rule in 0..rules.len() {
        push_line(lines, What::Rule(side, RulePlace { of, rule }))?;
    }
    Ok(())
}

/// Adds the lines of two definitions that correspond: the rules of the first in their order, then those that the second alone has.
pub fn push_rules<A: Book, B: Book>(
    lines: &mut Vec<Line>,
    a: &A,
    own: Owner,
    b: &B,
    other: Owner,
    partners: &Partners,
) -> Result<(), AllocError>
    ensures { OnOk result (Adds lines.old.items lines.new.items
        (RuleLines (A.meaning a.now) (B.meaning b.now) (paired partners.now) own other)) }
{
    push_own_rules(lines, a, own, b, other, &partners.avps.there)?;
    push_other_rules(lines, b, other, a, own, &partners.avps.back)
}

/// Adds the rules of the first that the second lacks, or has another way.
fn push_own_rules<A: Book, B: Book>(
    lines: &mut Vec<Line>,
    a: &A,
    own: Owner,
    b: &B,
    other: Owner,
    pairs: &[Option<usize>],
) -> Result<(), AllocError>
    ensures { OnOk result (Adds lines.old.items lines.new.items
        (OwnRules (A.meaning a.now) (B.meaning b.now) pairs.now own other)) }
{
    let rules = own.rules(a);
    for place in 0..rules.len() {
        let first = RulePlace {
            of: own,
            rule: place,
        };
        push_own_rule(lines, a, rules[place], first, b, other, pairs)?;
    }
    Ok(())
}

/// Adds a rule of the first, if the second lacks it or has it another way.
fn push_own_rule<A: Book, B: Book>(
    lines: &mut Vec<Line>,
    a: &A,
    rule: DRule,
    first: RulePlace,
    b: &B,
    other: Owner,
    pairs: &[Option<usize>],
) -> Result<(), AllocError>
    ensures { OnOk result (Adds lines.old.items lines.new.items
        (RuleLine first.of other first.rule rule (rules_of (B.meaning b.now) other)
        (rule_place (A.meaning a.now) (B.meaning b.now) pairs.now other rule))) }
{
    match rule_for(a, rule, b, other, pairs) {
        None => push_line(lines, What::Rule(Side::First, first)),
        Some(place) => {
            let second = RulePlace {
                of: other,
                rule: place,
            };
            let same = is_same_at(rule, first.rule, other.rules(b), place);
            push_unless(lines, same, What::RuleChange { first, second })
        }
    }
}

/// Adds the rules that the second alone has.
fn push_other_rules<A: Book, B: Book>(
    lines: &mut Vec<Line>,
    b: &B,
    other: Owner,
    a: &A,
    own: Owner,
    pairs: &[Option<usize>],
) -> Result<(), AllocError>
    ensures { OnOk result (Adds lines.old.items lines.new.items
        (OtherRules (A.meaning a.now) (B.meaning b.now) pairs.now own other)) }
{
    let rules = other.rules(b);
    for rule in 0..rules.len() {
        let second = RulePlace { of: other, rule };
        push_other_rule(lines, rule_for(b, rules[rule], a, own, pairs), own, second)?;
    }
    Ok(())
}

/// Adds a rule of the second, if the first has no place for it.
fn push_other_rule(
    lines: &mut Vec<Line>,
    place: Option<usize>,
    own: Owner,
    second: RulePlace,
) -> Result<(), AllocError>
    ensures { OnOk result (lines.new.items
        ≡ if is_some place then lines.old.items else lines.old.items ++ unmarked (What.NewRule own second) ∷ []) }
{
    push_unless(lines, place.is_some(), What::NewRule { own, place: second })
}

/// The place of the rule, in a definition of the other dictionary, for the AVP that corresponds.
fn rule_for<D: Book, E: Book>(
    book: &D,
    rule: DRule,
    other: &E,
    of: Owner,
    pairs: &[Option<usize>],
) -> Option<usize>
    ensures { result ≡ rule_place (D.meaning book.now) (E.meaning other.now) pairs.now of rule }
{
    match of.definition(other) {
        Some(def) => place_in(book, rule, other, def, pairs),
        None => None,
    }
}

/// The place of the rule in this definition.
fn place_in<D: Book, E: Book>(
    book: &D,
    rule: DRule,
    other: &E,
    def: DefId,
    pairs: &[Option<usize>],
) -> Option<usize>
    requires { def < length (definitions (E.meaning other.now)) }
    ensures { IfSome (slice_get (definitions (E.meaning other.now)) def)
        (λ d. result ≡ place_by (D.meaning book.now) (E.meaning other.now) pairs.now d.rules rule.key) }
{
    match rule.key {
        None => wildcard_place(other.def(def)),
        Some(key) => keyed_place(other, def, other_key(book, key, other, pairs)),
    }
}

/// The place of the rule of a definition for a key, or without a key of the wildcard's: none where there is no such rule.
pub fn place_of_rule<D: Book>(book: &D, of: Owner, key: Option<Key>) -> Option<usize>
    ensures { result ≡ listed_at key (rules_of (D.meaning book.now) of) }
{
    match of.definition(book) {
        Some(def) => place_among(book, def, key),
        None => None,
    }
}

/// The same among the rules of this definition.
fn place_among<D: Book>(book: &D, def: DefId, key: Option<Key>) -> Option<usize>
    requires { def < length (definitions (D.meaning book.now)) }
    ensures { IfSome (slice_get (definitions (D.meaning book.now)) def)
        (λ d. result ≡ listed_at key d.rules) }
{
    match key {
        None => wildcard_place(book.def(def)),
        Some(key) => slot_place(book.slot(def, key)),
    }
}

/// The place of the wildcard's rule.
fn wildcard_place(definition: &Definition) -> Option<usize>
    ensures { result ≡ position (λ r. not (is_some r.key)) definition.now.rules.items }
{
    definition.shape.wildcard
}

/// The place of the rule for a key.
fn keyed_place<E: Book>(other: &E, def: DefId, key: Option<Key>) -> Option<usize>
    requires { def < length (definitions (E.meaning other.now)) }
    ensures { IfSome (slice_get (definitions (E.meaning other.now)) def)
        (λ d. result ≡ option_and_then (λ k. position (lists_key k) d.rules) key) }
{
    match key {
        Some(key) => slot_place(other.slot(def, key)),
        None => None,
    }
}

/// The key of the AVP that corresponds to the one of a key.
fn other_key<D: Book, E: Book>(
    book: &D,
    key: Key,
    other: &E,
    pairs: &[Option<usize>],
) -> Option<Key>
    ensures { result ≡ other_key (D.meaning book.now) (E.meaning other.now) pairs.now key }
{
    let entry = book.avp(key)?;
    let place = partner(pairs, entry.index(), other.entries())?;
    Some(other.entry_key(other.entry_at(place)))
}

/// The place of a slot's rule.
fn slot_place(slot: Slot) -> Option<usize>
    ensures { result ≡ slot_place slot }
{
    match slot {
        Slot::Fixed(place) | Slot::Loose(place) => Some(place),
        Slot::Unlisted => None,
    }
}

/// Whether a rule is the same as the one at a place: brackets, counts, and the place of a fixed one.
fn is_same_at(rule: DRule, place: usize, others: &[DRule], other_place: usize) -> bool
    ensures { IsTrue result ↔ IsSameAt rule place others.now other_place }
{
    match others.get(other_place) {
        Some(other) => is_same_rule(rule, *other) && is_same_place(rule, place, other_place),
        None => false,
    }
}

fn is_same_rule(rule: DRule, other: DRule) -> bool
    ensures { IsTrue result ↔ ((rule.kind ≡ other.kind) × (rule.min ≡ other.min) × (rule.max ≡ other.max)) }
{
    rule.kind == other.kind && rule.min == other.min && rule.max == other.max
}

fn is_same_place(rule: DRule, place: usize, other_place: usize) -> bool
    ensures { IsTrue result ↔ (is_fixed rule ≡ true → place ≡ other_place) }
{
    rule.kind != RuleKind::Fixed || place == other_place
}
