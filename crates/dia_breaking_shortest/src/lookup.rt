//! The lengths of shortest AVPs.
ghost use Rattle.std.specs.Prelude.{◌≡◌, ◌<◌, ◌≤◌, length, map, IfOk};
ghost use Rattle.std.specs.Option.{option_map_or};
ghost use Rattle.dia_book.specs.Dictionary.{definitions};
ghost use Rattle.dia_valid.specs.Rules.{rules_in};
ghost use Rattle.dia_breaking_levels.specs.LevelTests.{base_length};
ghost use Rattle.dia_breaking_shortest.specs.Kept.{kept_at};
ghost use Rattle.dia_breaking_shortest.specs.Lengths.{IsOrder, entry_length, filler_of, filler_length};
ghost use Rattle.dia_breaking_shortest.specs.Lengths.{group_length};
ghost use Rattle.dia_breaking_shortest.specs.Lengths.{length_of, rank, unknown_length};

use crate::lengths::{capped, many, padded, shortest_head};
use crate::order::{Ranked, first_unlisted, rules_of};
use dia_book::{Book, DRule, DefId, Entry, Key};
use dia_breaking_data::Witness;
use dia_breaking_levels::TOO_LONG;
use dia_terms::Sends;
use std::alloc::{AllocError, Global};

/// How long the shortest AVPs are that a side sends, and what they are made of.
#[derive(Drop)]
pub struct Least {
    pub sends: Sends,
    /// A key that the dictionary doesn't know, without vendor.
    pub unknown: Key,
    /// The length of a shortest AVP of each entry, with its padding.
    pub lengths: Vec<u64>,
    /// For each group the key that its wildcard's least count is met with.
    pub fillers: Vec<Option<Key>>,
    /// For each leaf shortest data of its format, if it has any.
    pub leaf_data: Vec<Option<Witness>>,
}

impl Least {
    /// The length of a shortest AVP of the entry that is sent, with its padding, and `TOO_LONG` where none is.
    pub fn entry(&self, entry: Entry) -> u64
        ensures { result ≡ entry_length self.now.lengths.items entry }
    {
        match self.lengths.get(entry.index()) {
            Some(length) => *length,
            None => TOO_LONG,
        }
    }

    /// The key that the wildcard's least count of a group is met with.
    pub(crate) fn filler_at(&self, entry: Entry) -> Option<Key>
        ensures { result ≡ kept_at self.now.fillers.items entry }
    {
        match self.fillers.get(entry.index()) {
            Some(filler) => *filler,
            None => None,
        }
    }

    /// The data that are retained for a leaf.
    pub(crate) fn data_at(&self, entry: Entry) -> Option<Witness>
        ensures { result ≡ kept_at self.now.leaf_data.items entry }
    {
        match self.leaf_data.get(entry.index()) {
            Some(found) => *found,
            None => None,
        }
    }

    /// The length of a shortest AVP of a key that the dictionary doesn't know.
    pub fn unknown_length(&self, key: Key) -> u64
        ensures { result ≡ unknown_length self.now.sends key }
    {
        match self.sends {
            Sends::Any => shortest_head(key),
            Sends::Known => TOO_LONG,
            Sends::Filled => TOO_LONG,
            Sends::Listed => TOO_LONG,
        }
    }

    /// The length of a shortest AVP of the key that is sent, with its padding, and `TOO_LONG` where none is.
    pub fn key<B: Book>(&self, book: &B, key: Key) -> u64
        ensures { result ≡ length_of (B.meaning book.now) self.now.sends self.now.lengths.items key }
    {
        match book.avp(key) {
            Some(entry) => self.entry(entry),
            None => self.unknown_length(key),
        }
    }

    /// What a rule's AVP takes, where the wildcard's has the length `filler`.
    fn rule_length<B: Book>(&self, book: &B, filler: u64, rule: &DRule) -> u64
        ensures { result ≡ option_map_or
            (length_of (B.meaning book.now) self.now.sends self.now.lengths.items)
            rule.now.key filler }
    {
        match rule.key {
            Some(key) => self.key(book, key),
            None => filler,
        }
    }

    /// What the least level of these rules takes.
    fn level_length<B: Book>(&self, book: &B, filler: u64, rules: &[DRule]) -> u64
        ensures { result ≡ base_length
            (length_of (B.meaning book.now) self.now.sends self.now.lengths.items)
            filler rules.now }
    {
        let mut sum: u64 = 0;
        for rule in rules {
            let length = many(rule.min, self.rule_length(book, filler, rule));
            sum = capped(sum.saturating_add(length));
        }
        sum
    }

    /// The length of a group of the key, by its definition's least level.
    pub(crate) fn group<B: Book>(
        &self,
        book: &B,
        filler: Option<Ranked>,
        key: Key,
        def: DefId,
    ) -> u64
        requires { def < length (definitions (B.meaning book.now)) }
        ensures { result ≡ group_length
            (length_of (B.meaning book.now) self.now.sends self.now.lengths.items)
            (filler_length filler) key (rules_in (B.meaning book.now) def) }
    {
        let filler = match filler {
            Some(ranked) => capped(ranked.length),
            None => TOO_LONG,
        };
        let level = self.level_length(book, filler, rules_of(book, def));
        padded(shortest_head(key), level)
    }

    /// What the least count of a definition's wildcard is met with. `Filled` sends nothing by a wildcard that asks for AVPs.
    pub(crate) fn filler<B: Book>(&self, book: &B, def: DefId, order: &[Ranked]) -> Option<Ranked>
        requires { def < length (definitions (B.meaning book.now)) }
        ensures { result ≡ filler_of self.now.sends self.now.unknown order.now
            (rules_in (B.meaning book.now) def) }
    {
        match self.sends {
            Sends::Any => Some(Ranked {
                key: self.unknown,
                length: shortest_head(self.unknown),
            }),
            Sends::Known => first_unlisted(book, def, order),
            Sends::Filled => None,
            Sends::Listed => None,
        }
    }

    /// The AVPs that the dictionary knows, in its order.
    fn ranks<B: Book>(&self, alloc: Global, book: &B) -> Result<Vec<Ranked>, AllocError>
        ensures { IfOk result (λ ranks. ranks.items ≡ map (rank
            (length_of (B.meaning book.now) self.now.sends self.now.lengths.items))
            (B.meaning book.now).entries) }
    {
        let mut ranks = Vec::new(alloc);
        for index in 0..book.entries() {
            let key = book.entry_key(book.entry_at(index));
            ranks.push(Ranked {
                key,
                length: self.key(book, key),
            })?;
        }
        Ok(ranks)
    }

    /// The AVPs that the dictionary knows, shortest first.
    pub(crate) fn order<B: Book>(&self, alloc: Global, book: &B) -> Result<Vec<Ranked>, AllocError>
        ensures { IfOk result (λ order. IsOrder
            (length_of (B.meaning book.now) self.now.sends self.now.lengths.items)
            (B.meaning book.now).entries order.items) }
    {
        let mut order = self.ranks(alloc, book)?;
        order.sort_by_key(|ranked| ranked.length)?;
        Ok(order)
    }
}
