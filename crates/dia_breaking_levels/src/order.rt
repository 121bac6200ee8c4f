//! The levels of a definition of A whose order breaks the rules of one of B.
ghost use Rattle.std.specs.Prelude.{◌≡◌, ◌+◌, ◌≤◌, ◌++◌, ℕ, true, Some, [], length, reverse};
ghost use Rattle.std.specs.Prelude.{Option, IfOk, OnOk};
ghost use Rattle.dia_wire.specs.declared.Key.{Key as AnyKey};
ghost use Rattle.dia_book.specs.Dictionary.{AreRules};
ghost use Rattle.dia_valid.specs.Valid.{is_listed};
ghost use Rattle.dia_valid.specs.Rules.{rules_in};
ghost use Rattle.dia_breaking_levels.specs.Exact.{line_of_offer, unless_long, with_line};
ghost use Rattle.dia_breaking_levels.specs.Exact.{IsOrderAt, IsOrderOf, AreOrderLines, HasOrderLines};
ghost use Rattle.dia_breaking_levels.specs.Offers.{own_index, offer_of};
ghost use Rattle.dia_breaking_levels.specs.Offers.{AreOffers, IsOffered, AreLess, AreOfferedFrom};
ghost use Rattle.dia_breaking_levels.specs.Offers.{MayCome, AreTrueFrom};
ghost use Rattle.dia_breaking_levels.specs.OrderTests.{beyond, by_wild, with_others};
ghost use Rattle.dia_breaking_levels.specs.Places.{place, IsAtOrLast};

use crate::costs::Costs;
use crate::lengths::{TOO_LONG, capped, has_room, many, swapped};
use crate::level::Level;
use crate::line::{Line, Reason};
use crate::offers::{Offer, Offers, least_between, lesser, no_offers, put};
use dia_book::{Book, DRule, Key};
use std::alloc::{AllocError, Global};

/// The least level with so many certain AVPs by the wildcard, and with others: together they have this length. The least that
/// the wildcard lets in has the length `filler`.
fn with_others(base: u64, filler: u64, count: u64, length: u64, wildcard: Option<DRule>) -> u64
    ensures { result ≡ with_others base filler count length wildcard }
{
    match wildcard {
        Some(wild) => {
            if has_room(count, wild.max) {
                let spared = count.min(u64::from(wild.min));
                swapped(base, many(spared, filler), length)
            } else {
                TOO_LONG
            }
        }
        None => {
            if count == 0 {
                swapped(base, 0, length)
            } else {
                TOO_LONG
            }
        }
    }
}

/// How many AVPs of a key with this rule come by the wildcard where there is one.
fn by_wild(rule: Option<DRule>) -> u64
    ensures { result ≡ by_wild rule }
{
    match rule {
        Some(_) => 0,
        None => 1,
    }
}

impl<'a, A: Book, B: Book, C: Costs> Level<'a, A, B, C> {
    /// What one AVP of the key, whose rule is this, takes beyond the least level.
    fn beyond(&self, key: Key, rule: Option<DRule>) -> u64
        ensures { result ≡ beyond (C.listed_length self.now.costs.now)
            (C.other_length self.now.costs.now) key rule }
    {
        match rule {
            Some(rule) => {
                if has_room(1, rule.max) {
                    let missing = 1_u64.saturating_sub(u64::from(rule.min));
                    many(missing, self.costs.listed(key))
                } else {
                    TOO_LONG
                }
            }
            None => capped(self.costs.other(key)),
        }
    }

    /// Which of two keys that take as much comes first: those that `a` lists by their rules, the others by those of `b`.
    fn turn(&self, x: Key) -> usize
        ensures { result ≡ own_index (rules_in (A.meaning self.now.a.book.now) self.now.a.def)
            (rules_in (B.meaning self.now.b.book.now) self.now.b.def) x }
    {
        if self.a.lists(x) {
            self.a.index(x)
        } else {
            self.b.index(x)
        }
    }

    /// What is offered of a key.
    fn offer_of(&self, x: Key) -> Offer
        ensures { result ≡ offer_of (C.listed_length self.now.costs.now) (C.other_length self.now.costs.now)
            (rules_in (A.meaning self.now.a.book.now) self.now.a.def)
            (rules_in (B.meaning self.now.b.book.now) self.now.b.def) x }
    {
        Offer {
            length: self.beyond(x, self.a.rule(x)),
            turn: self.turn(x),
            key: Some(x),
        }
    }

    /// Offers a key before those that come next.
    fn offer(&self, offers: &mut Offers, x: Key)
        requires { AreOffers (rules_in (A.meaning self.now.a.book.now) self.now.a.def) offers.old }
        ensures offers { AreOffers (rules_in (A.meaning self.now.a.book.now) self.now.a.def) offers.new }
        ensures less { AreLess (rules_in (A.meaning self.now.a.book.now) self.now.a.def) offers.new offers.old }
        ensures offered { IsOffered (C.listed_length self.now.costs.now) (C.other_length self.now.costs.now)
            (rules_in (A.meaning self.now.a.book.now) self.now.a.def) (rules_in (B.meaning self.now.b.book.now) self.now.b.def)
            offers.new x }
        ensures true_still { (outer : Option AnyKey) (from : ℕ)
            → AreTrueFrom (C.listed_length self.now.costs.now) (C.other_length self.now.costs.now)
            (rules_in (A.meaning self.now.a.book.now) self.now.a.def) (rules_in (B.meaning self.now.b.book.now) self.now.b.def)
            outer from offers.old
            → MayCome (rules_in (A.meaning self.now.a.book.now) self.now.a.def)
            (rules_in (B.meaning self.now.b.book.now) self.now.b.def) outer x
            → from ≤ place (rules_in (B.meaning self.now.b.book.now) self.now.b.def) x
            → AreTrueFrom (C.listed_length self.now.costs.now) (C.other_length self.now.costs.now)
            (rules_in (A.meaning self.now.a.book.now) self.now.a.def) (rules_in (B.meaning self.now.b.book.now) self.now.b.def)
            outer from offers.new }
    {
        let offer = self.offer_of(x);
        match self.a.rule(x) {
            Some(_) => {
                let leaf = offers.nodes.len() / 2 + self.a.place(x);
                put(&mut offers.nodes, leaf, offer);
            }
            None => {
                offers.other = lesser(offers.other, offer);
            }
        }
    }

    /// Offers a key that no fixed rule of `b` is of.
    fn offer_last(&self, offers: &mut Offers, key: Option<Key>)
        requires { AreOffers (rules_in (A.meaning self.now.a.book.now) self.now.a.def) offers.old }
        ensures offers { AreOffers (rules_in (A.meaning self.now.a.book.now) self.now.a.def) offers.new }
        ensures less { AreLess (rules_in (A.meaning self.now.a.book.now) self.now.a.def) offers.new offers.old }
        ensures offered { (x : AnyKey) → key ≡ Some x
            → place (rules_in (B.meaning self.now.b.book.now) self.now.b.def) x
            ≡ length (rules_in (B.meaning self.now.b.book.now) self.now.b.def)
            → IsOffered (C.listed_length self.now.costs.now) (C.other_length self.now.costs.now)
            (rules_in (A.meaning self.now.a.book.now) self.now.a.def) (rules_in (B.meaning self.now.b.book.now) self.now.b.def)
            offers.new x }
        ensures true_still { (outer : Option AnyKey)
            → AreTrueFrom (C.listed_length self.now.costs.now) (C.other_length self.now.costs.now)
            (rules_in (A.meaning self.now.a.book.now) self.now.a.def) (rules_in (B.meaning self.now.b.book.now) self.now.b.def)
            outer (length (rules_in (B.meaning self.now.b.book.now) self.now.b.def)) offers.old
            → ((x : AnyKey) → key ≡ Some x
            → MayCome (rules_in (A.meaning self.now.a.book.now) self.now.a.def)
            (rules_in (B.meaning self.now.b.book.now) self.now.b.def) outer x)
            → AreTrueFrom (C.listed_length self.now.costs.now) (C.other_length self.now.costs.now)
            (rules_in (A.meaning self.now.a.book.now) self.now.a.def) (rules_in (B.meaning self.now.b.book.now) self.now.b.def)
            outer (length (rules_in (B.meaning self.now.b.book.now) self.now.b.def)) offers.new }
    {
        match key {
            Some(x) => {
                if self.b.is_last(x) {
                    self.offer(offers, x);
                }
            }
            None => {}
        }
    }

    /// Offers the keys of these rules that no fixed rule of `b` is of.
    fn offer_all_last(&self, offers: &mut Offers, rules: &[DRule])
        requires { AreOffers (rules_in (A.meaning self.now.a.book.now) self.now.a.def) offers.old }
        ensures offers { AreOffers (rules_in (A.meaning self.now.a.book.now) self.now.a.def) offers.new }
        ensures less { AreLess (rules_in (A.meaning self.now.a.book.now) self.now.a.def) offers.new offers.old }
        ensures offered { (x : AnyKey) → is_listed rules.now x ≡ true
            → place (rules_in (B.meaning self.now.b.book.now) self.now.b.def) x
            ≡ length (rules_in (B.meaning self.now.b.book.now) self.now.b.def)
            → IsOffered (C.listed_length self.now.costs.now) (C.other_length self.now.costs.now)
            (rules_in (A.meaning self.now.a.book.now) self.now.a.def) (rules_in (B.meaning self.now.b.book.now) self.now.b.def)
            offers.new x }
        ensures true_still { (outer : Option AnyKey)
            → AreTrueFrom (C.listed_length self.now.costs.now) (C.other_length self.now.costs.now)
            (rules_in (A.meaning self.now.a.book.now) self.now.a.def) (rules_in (B.meaning self.now.b.book.now) self.now.b.def)
            outer (length (rules_in (B.meaning self.now.b.book.now) self.now.b.def)) offers.old
            → ((x : AnyKey) → is_listed rules.now x ≡ true
            → MayCome (rules_in (A.meaning self.now.a.book.now) self.now.a.def)
            (rules_in (B.meaning self.now.b.book.now) self.now.b.def) outer x)
            → AreTrueFrom (C.listed_length self.now.costs.now) (C.other_length self.now.costs.now)
            (rules_in (A.meaning self.now.a.book.now) self.now.a.def) (rules_in (B.meaning self.now.b.book.now) self.now.b.def)
            outer (length (rules_in (B.meaning self.now.b.book.now) self.now.b.def)) offers.new }
    {
        for rule in rules {
            self.offer_last(offers, rule.key);
        }
    }

    /// What is offered before the key of the last fixed rule of `b`.
    fn last_offers(&self, alloc: Global, outer: Option<Key>) -> Result<Offers, AllocError>
        ensures offers { IfOk result (AreOffers (rules_in (A.meaning self.now.a.book.now) self.now.a.def)) }
        ensures offered { IfOk result (AreOfferedFrom (C.listed_length self.now.costs.now) (C.other_length self.now.costs.now)
            (rules_in (A.meaning self.now.a.book.now) self.now.a.def) (rules_in (B.meaning self.now.b.book.now) self.now.b.def)
            outer (length (rules_in (B.meaning self.now.b.book.now) self.now.b.def))) }
        ensures true_still { IfOk result (AreTrueFrom (C.listed_length self.now.costs.now) (C.other_length self.now.costs.now)
            (rules_in (A.meaning self.now.a.book.now) self.now.a.def) (rules_in (B.meaning self.now.b.book.now) self.now.b.def)
            outer (length (rules_in (B.meaning self.now.b.book.now) self.now.b.def))) }
    {
        let (a, b) = (self.a.list(), self.b.list());
        let mut offers = no_offers(alloc, a.len().saturating_add(1))?;
        self.offer_all_last(&mut offers, a);
        self.offer_all_last(&mut offers, b);
        self.offer_last(&mut offers, outer);
        Ok(offers)
    }

    /// The line of the least level with `y` and what is offered, where so many of what is offered come by the wildcard.
    fn line_with(&self, y: Key, by_wildcard: u64, offer: Offer) -> Line
        requires { by_wildcard ≤ 1 }
        ensures { result ≡ line_of_offer self.now.floor (C.listed_length self.now.costs.now) (C.other_length self.now.costs.now)
            (rules_in (A.meaning self.now.a.book.now) self.now.a.def) y by_wildcard offer }
    {
        let rule = self.a.rule(y);
        let more = offer.length.saturating_add(self.beyond(y, rule));
        Line {
            reason: Reason::Order,
            key: Some(y),
            following: offer.key,
            length: with_others(
                self.floor.base,
                self.floor.filler(),
                by_wildcard + by_wild(rule),
                capped(more),
                self.floor.wild,
            ),
        }
    }

    /// The line of the least level with what is offered before `y`.
    fn line_at(&self, y: Key, offers: &Offers) -> Line
        requires first { AreRules (rules_in (A.meaning self.now.a.book.now) self.now.a.def) }
        requires second { AreRules (rules_in (B.meaning self.now.b.book.now) self.now.b.def) }
        requires offers { AreOffers (rules_in (A.meaning self.now.a.book.now) self.now.a.def) offers.now }
        ensures { (outer : Option AnyKey)
            → AreTrueFrom (C.listed_length self.now.costs.now) (C.other_length self.now.costs.now)
            (rules_in (A.meaning self.now.a.book.now) self.now.a.def) (rules_in (B.meaning self.now.b.book.now) self.now.b.def)
            outer (place (rules_in (B.meaning self.now.b.book.now) self.now.b.def) y + 1) offers.now
            → AreOfferedFrom (C.listed_length self.now.costs.now) (C.other_length self.now.costs.now)
            (rules_in (A.meaning self.now.a.book.now) self.now.a.def) (rules_in (B.meaning self.now.b.book.now) self.now.b.def)
            outer (place (rules_in (B.meaning self.now.b.book.now) self.now.b.def) y + 1) offers.now
            → IsOrderAt self.now.floor (C.listed_length self.now.costs.now) (C.other_length self.now.costs.now)
            (rules_in (A.meaning self.now.a.book.now) self.now.a.def) (rules_in (B.meaning self.now.b.book.now) self.now.b.def)
            outer y (unless_long result) }
    {
        let size = offers.nodes.len() / 2;
        let place = self.a.place(y);
        let listed = least_between(&offers.nodes, size, size + place + 1);
        let line = self.line_with(y, 0, listed);
        if place < self.a.list().len() {
            return line;
        }
        let other = self.line_with(y, 1, offers.other);
        if other.length < line.length {
            other
        } else {
            line
        }
    }

    /// The line of the key at a place of `b`, if it has a fixed rule there, and some level that isn't too long shows it.
    fn recorded_at(&self, offers: &Offers, at: usize, key: Option<Key>) -> Option<Line>
        requires first { AreRules (rules_in (A.meaning self.now.a.book.now) self.now.a.def) }
        requires second { AreRules (rules_in (B.meaning self.now.b.book.now) self.now.b.def) }
        requires offers { AreOffers (rules_in (A.meaning self.now.a.book.now) self.now.a.def) offers.now }
        requires place { IsAtOrLast (rules_in (B.meaning self.now.b.book.now) self.now.b.def) at key }
        ensures { (outer : Option AnyKey)
            → AreTrueFrom (C.listed_length self.now.costs.now) (C.other_length self.now.costs.now)
            (rules_in (A.meaning self.now.a.book.now) self.now.a.def) (rules_in (B.meaning self.now.b.book.now) self.now.b.def)
            outer (at + 1) offers.now
            → AreOfferedFrom (C.listed_length self.now.costs.now) (C.other_length self.now.costs.now)
            (rules_in (A.meaning self.now.a.book.now) self.now.a.def) (rules_in (B.meaning self.now.b.book.now) self.now.b.def)
            outer (at + 1) offers.now
            → IsOrderOf self.now.floor (C.listed_length self.now.costs.now) (C.other_length self.now.costs.now)
            (rules_in (A.meaning self.now.a.book.now) self.now.a.def) (rules_in (B.meaning self.now.b.book.now) self.now.b.def)
            outer key result }
    {
        match key {
            Some(y) => {
                if self.b.place(y) == at {
                    unless_long(self.line_at(y, offers))
                } else {
                    None
                }
            }
            None => None,
        }
    }

    /// Offers the key at a place of `b`, if it has a fixed rule there, to those before it.
    fn offer_at(&self, offers: &mut Offers, at: usize, key: Option<Key>)
        requires { AreOffers (rules_in (A.meaning self.now.a.book.now) self.now.a.def) offers.old }
        ensures offers { AreOffers (rules_in (A.meaning self.now.a.book.now) self.now.a.def) offers.new }
        ensures less { AreLess (rules_in (A.meaning self.now.a.book.now) self.now.a.def) offers.new offers.old }
        ensures offered { (x : AnyKey) → key ≡ Some x
            → place (rules_in (B.meaning self.now.b.book.now) self.now.b.def) x ≡ at
            → IsOffered (C.listed_length self.now.costs.now) (C.other_length self.now.costs.now)
            (rules_in (A.meaning self.now.a.book.now) self.now.a.def) (rules_in (B.meaning self.now.b.book.now) self.now.b.def)
            offers.new x }
        ensures true_still { (outer : Option AnyKey)
            → AreTrueFrom (C.listed_length self.now.costs.now) (C.other_length self.now.costs.now)
            (rules_in (A.meaning self.now.a.book.now) self.now.a.def) (rules_in (B.meaning self.now.b.book.now) self.now.b.def)
            outer at offers.old
            → ((x : AnyKey) → key ≡ Some x
            → MayCome (rules_in (A.meaning self.now.a.book.now) self.now.a.def)
            (rules_in (B.meaning self.now.b.book.now) self.now.b.def) outer x)
            → AreTrueFrom (C.listed_length self.now.costs.now) (C.other_length self.now.costs.now)
            (rules_in (A.meaning self.now.a.book.now) self.now.a.def) (rules_in (B.meaning self.now.b.book.now) self.now.b.def)
            outer at offers.new }
    {
        match key {
            Some(y) => {
                if self.b.place(y) == at {
                    self.offer(offers, y);
                }
            }
            None => {}
        }
    }

    /// The lines of the order, from the last rule of `b` to the first.
    fn lines_back(&self, alloc: Global, outer: Option<Key>) -> Result<Vec<Line>, AllocError>
        requires first { AreRules (rules_in (A.meaning self.now.a.book.now) self.now.a.def) }
        requires second { AreRules (rules_in (B.meaning self.now.b.book.now) self.now.b.def) }
        ensures { IfOk result (λ lines. AreOrderLines self.now.floor
            (C.listed_length self.now.costs.now) (C.other_length self.now.costs.now)
            (rules_in (A.meaning self.now.a.book.now) self.now.a.def) (rules_in (B.meaning self.now.b.book.now) self.now.b.def)
            outer (rules_in (B.meaning self.now.b.book.now) self.now.b.def) (reverse lines.items)) }
    {
        let mut lines = Vec::new(alloc);
        let mut offers = self.last_offers(alloc, outer)?;
        let rules = self.b.list();
        let mut left = rules.len();
        while left > 0 {
            left -= 1;
            let key = rules[left].key;
            push_recorded(&mut lines, self.recorded_at(&offers, left, key))?;
            self.offer_at(&mut offers, left, key);
        }
        Ok(lines)
    }

    /// Adds the lines of the order, in the order of the rules of `b`. `outer` is the key of a shortest AVP that neither
    /// definition lists.
    pub fn with_order_lines(
        &self,
        alloc: Global,
        mut lines: Vec<Line>,
        outer: Option<Key>,
    ) -> Result<Vec<Line>, AllocError>
        requires first { AreRules (rules_in (A.meaning self.now.a.book.now) self.now.a.def) }
        requires second { AreRules (rules_in (B.meaning self.now.b.book.now) self.now.b.def) }
        ensures { IfOk result (λ all. HasOrderLines self.now.floor
            (C.listed_length self.now.costs.now) (C.other_length self.now.costs.now)
            (rules_in (A.meaning self.now.a.book.now) self.now.a.def) (rules_in (B.meaning self.now.b.book.now) self.now.b.def)
            outer lines.items all.items) }
    {
        let mut orders = self.lines_back(alloc, outer)?;
        orders.reverse();
        lines.extend_from_slice(&orders)?;
        Ok(lines)
    }
}

/// The line, if the level that it reports isn't too long.
fn unless_long(line: Line) -> Option<Line>
    ensures { result ≡ unless_long line }
{
    if line.length < TOO_LONG {
        Some(line)
    } else {
        None
    }
}

/// Adds a line, if there is one.
fn push_recorded(lines: &mut Vec<Line>, recorded: Option<Line>) -> Result<(), AllocError>
    ensures { OnOk result (lines.new.items ≡ lines.old.items ++ with_line recorded []) }
{
    match recorded {
        Some(line) => lines.push(line)?,
        None => {}
    }
    Ok(())
}
