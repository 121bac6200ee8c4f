//! The AVPs that the definitions of some commands let in, and the groups in them.
ghost use Rattle.std.specs.Prelude.{◌≡◌, ◌<◌, ◌↔◌, IfOk, OnOk, IsTrue, Some, None};
ghost use Rattle.std.specs.Prelude.{IfSome, not, is_some, filter, map, length, slice_get, []};
ghost use Rattle.dia_wire.specs.declared.Key.{Key as AnyKey};
ghost use Rattle.dia_data.specs.Plain.{Grouped, plain_format};
ghost use Rattle.dia_book.specs.declared.DRule.{DRule as AnyRule};
ghost use Rattle.dia_book.specs.Dictionary.{PlainDefinition, definitions, entry_of};
ghost use Rattle.dia_compat.specs.Below.{IsAboveZero};
ghost use Rattle.dia_valid.specs.Rules.{IsListed, HasWildcard};
ghost use Rattle.dia_compat.specs.ReachedKeys.{has, IsAllowedBy, IsAllowed};
ghost use Rattle.dia_compat.specs.ReachedKeys.{Admits, Inserts, ComesTo};
ghost use Rattle.dia_compat.specs.ReachedKeys.{ComesToAll, Follows, IsSharedGroup};
ghost use Rattle.dia_compat.specs.ReachedKeys.{AllWait, AreRest, Sorts};

use crate::comparing::{Rules, Sides};
use dia_book::{Book, DRule, DefId, Format, Key};
use std::alloc::{AllocError, Global};
use std::collections::HashSet;
use std::mem;

/// The AVPs that a proposal has reached, by their keys, and those of them whose groups are still to be gone through.
#[derive(Drop)]
pub(crate) struct Reached {
    keys: HashSet<Key>,
    waiting: Vec<Key>,
    /// Among these are all keys that both dictionaries know and that were not reached.
    rest: Vec<Key>,
}

impl Reached {
    /// Nothing yet, with room for as many AVPs.
    pub(crate) fn new<A: Book, B: Book>(
        alloc: Global,
        sides: &Sides<'_, A, B>,
        most: usize,
    ) -> Result<Reached, AllocError>
        ensures empty { IfOk result (λ r. r.keys.keys ≡ []) }
        ensures none { IfOk result (λ r. r.waiting.items ≡ []) }
        ensures rest { IfOk result (AreRest sides.now) }
    {
        Ok(Reached {
            keys: HashSet::with_capacity(alloc, most)?,
            waiting: Vec::new(alloc),
            rest: shared_keys(alloc, sides)?,
        })
    }

    /// Whether the AVP with this key was reached.
    pub(crate) fn contains(&self, key: Key) -> bool
        ensures { result ≡ has self.now key }
    {
        self.keys.contains(&key)
    }

    /// Reaches the AVP with this key.
    fn insert(&mut self, key: Key) -> Result<(), AllocError>
        ensures { OnOk result (Inserts key self.old self.new) }
    {
        if self.keys.insert(key)? {
            self.waiting.push(key)?;
        }
        Ok(())
    }

    /// Reaches the AVP with this key, if both dictionaries know it.
    fn come_to<A: Book, B: Book>(
        &mut self,
        sides: &Sides<'_, A, B>,
        key: Key,
    ) -> Result<(), AllocError>
        ensures { OnOk result (ComesTo sides.now key self.old self.new) }
    {
        if sides.both_know(key) {
            self.insert(key)?;
        }
        Ok(())
    }

    /// Reaches the AVP that a rule lists, if the rule lets it in.
    fn come_to_allowed<A: Book, B: Book>(
        &mut self,
        sides: &Sides<'_, A, B>,
        rule: DRule,
    ) -> Result<(), AllocError>
        ensures { OnOk result (ComesToAll sides.now (IsAllowedBy rule) self.old self.new) }
    {
        match rule.key {
            Some(key) if is_above_zero(rule.max) => self.come_to(sides, key),
            _ => Ok(()),
        }
    }

    /// Reaches the AVPs that the rules list and let in.
    fn come_to_listed<A: Book, B: Book>(
        &mut self,
        sides: &Sides<'_, A, B>,
        rules: &[DRule],
    ) -> Result<(), AllocError>
        ensures { OnOk result (ComesToAll sides.now (IsAllowed rules.now) self.old self.new) }
    {
        for rule in rules {
            self.come_to_allowed(sides, *rule)?;
        }
        Ok(())
    }

    /// Reaches the AVP with this key, if a definition of the first does not list it, and else leaves it among the rest.
    fn come_to_or_leave<A: Book, B: Book>(
        &mut self,
        sides: &Sides<'_, A, B>,
        rules: &Rules<'_, A>,
        key: Key,
    ) -> Result<(), AllocError>
        ensures { OnOk result (Sorts sides.now rules.now key self.old self.new) }
    {
        if rules.lists(key) {
            self.rest.push(key)?;
        } else {
            self.come_to(sides, key)?;
        }
        Ok(())
    }

    /// Reaches the AVPs that a definition of the first does not list. The rest is then no longer than its rules.
    fn come_to_unlisted<A: Book, B: Book>(
        &mut self,
        alloc: Global,
        sides: &Sides<'_, A, B>,
        rules: &Rules<'_, A>,
    ) -> Result<(), AllocError>
        requires { AreRest sides.now self.old }
        ensures { OnOk result
            (ComesToAll sides.now (λ key. ¬ IsListed rules.now key) self.old self.new) }
    {
        let rest = mem::replace(&mut self.rest, Vec::new(alloc));
        for key in rest.as_slice() {
            self.come_to_or_leave(sides, rules, *key)?;
        }
        Ok(())
    }

    /// Reaches the AVPs that a definition of the first lets in.
    pub(crate) fn come_to_admitted<A: Book, B: Book>(
        &mut self,
        alloc: Global,
        sides: &Sides<'_, A, B>,
        rules: &Rules<'_, A>,
    ) -> Result<(), AllocError>
        requires { AreRest sides.now self.old }
        ensures { OnOk result (ComesToAll sides.now (Admits rules.now) self.old self.new) }
    {
        let list = rules.list();
        self.come_to_listed(sides, list)?;
        if has_open_wildcard(list) {
            self.come_to_unlisted(alloc, sides, rules)?;
        }
        Ok(())
    }

    /// Reaches the AVPs that are let in by the groups that wait, and by those that then wait.
    pub(crate) fn follow<A: Book, B: Book>(
        &mut self,
        alloc: Global,
        sides: &Sides<'_, A, B>,
    ) -> Result<(), AllocError>
        requires wait { AllWait self.old }
        requires rest { AreRest sides.now self.old }
        ensures { OnOk result
            ((key : AnyKey) → IsTrue (has self.new key) ↔ Follows sides.now self.old key) }
    {
        while let Some(key) = self.waiting.pop() {
            if let Some(group) = shared_group(sides, key) {
                self.come_to_admitted(alloc, sides, &sides.first_rules(group))?;
            }
        }
        Ok(())
    }
}

/// The keys that both dictionaries know, in the first's order.
fn shared_keys<A: Book, B: Book>(
    alloc: Global,
    sides: &Sides<'_, A, B>,
) -> Result<Vec<Key>, AllocError>
    ensures { IfOk result (λ keys. keys.items
        ≡ filter (λ key. is_some (entry_of sides.now.second key))
        (map (λ e. e.key) sides.now.first.entries)) }
{
    let a = sides.first();
    let b = sides.second();
    let mut keys = Vec::new(alloc);
    for index in 0..a.entries() {
        let key = a.entry_key(a.entry_at(index));
        if b.avp(key).is_some() {
            keys.push(key)?;
        }
    }
    Ok(keys)
}

/// The definition of the first's AVP with this key, where the second's is Grouped too.
fn shared_group<A: Book, B: Book>(sides: &Sides<'_, A, B>, key: Key) -> Option<DefId>
    ensures within { IfSome result (λ def. def < length (definitions sides.now.first)) }
    ensures some { IfSome result (λ def. (d : PlainDefinition)
        × (slice_get (definitions sides.now.first) def ≡ Some d) × IsSharedGroup sides.now key d) }
    ensures none { result ≡ None → (d : PlainDefinition) → ¬ IsSharedGroup sides.now key d }
{
    let a = sides.first();
    let b = sides.second();
    let entry = a.avp(key)?;
    let other = b.avp(key)?;
    if is_grouped(a.format(entry)) && is_grouped(b.format(other)) {
        a.group(entry)
    } else {
        None
    }
}

fn is_grouped(format: &Format) -> bool
    ensures { IsTrue result ↔ (plain_format format.now ≡ Grouped) }
{
    matches!(format, Format::Grouped)
}

/// Whether a rule lets AVPs in.
fn is_above_zero(max: Option<u32>) -> bool
    ensures { IsTrue result ↔ IsAboveZero max }
{
    max != Some(0)
}

/// Whether the rules have a wildcard that lets AVPs in.
fn has_open_wildcard(rules: &[DRule]) -> bool
    ensures { IsTrue result ↔ ((w : AnyRule) × HasWildcard rules.now w × IsAboveZero w.max) }
{
    rules
        .iter()
        .any(|rule| rule.key.is_none() && is_above_zero(rule.max))
}
