//! The lengths of the AVPs that A's side sends.
ghost use Rattle.std.specs.Prelude.{◌≡◌, ◌<◌, ◌⊎◌, ◌∷◌, [], IfOk, IsSome, MatchBool, length};
ghost use Rattle.std.specs.List.Sorted.{IsPermutation, IsNonDecreasingBy, IsStableByKey};
ghost use Rattle.std.specs.Ordering.{nat_cmp};
ghost use Rattle.dia_book.specs.Dictionary.{definitions, entry_of};
ghost use Rattle.dia_breaking_sites.specs.Sent.{is_open};
ghost use Rattle.dia_valid.specs.Rules.{rules_in};
ghost use Rattle.dia_breaking_shortest.specs.Exact.{AreExact};
ghost use Rattle.dia_breaking_shortest.specs.Floors.{AreFloors};
ghost use Rattle.dia_breaking.specs.Lengths.{AreEntryLengths, AreExactlyOthers, IsLeastFor, listed_length};
ghost use Rattle.dia_breaking.specs.SentKeys.{IsStrange, IsStranger, entry_keys};

use crate::books::rules_of;
use dia_book::{Book, DefId, Key};
use dia_breaking_levels::{Costs, Line as LevelLine, TOO_LONG, level_lines};
use dia_breaking_shortest::{Least, least_lengths, shortest_head};
use dia_breaking_sites::is_open;
use dia_terms::Sends;
use std::alloc::{AllocError, Global};

/// A's dictionary, what A's side sends, and the lengths of the shortest AVPs that it sends.
#[derive(Drop)]
pub(crate) struct Lengths<'a, A: Book> {
    pub book: &'a A,
    pub sends: Sends,
    pub least: Least,
    /// The length of a shortest AVP of each entry.
    pub entries: Vec<u64>,
    /// Keys of AVPs that are sent by a wildcard. The first of them that no rule lists is one of a shortest AVP.
    pub others: Vec<Key>,
    ghost floors: { ∥ AreFloors (A.meaning book.now) sends (listed_length (A.meaning book.now) sends entries.items) ∥₁ },
    ghost exact: { ∥ IsLeastFor (A.meaning book.now) sends least entries.items ∥₁ },
}

impl<'a, A: Book> Lengths<'a, A> {
    ghost use Rattle.dia_breaking.specs.LevelCosts.{PicksShortest};
    ghost use Rattle.dia_breaking.specs.Lengths.{prices_in};
    ghost use Rattle.dia_breaking.specs.Sender.{costs_of, prices_of, sender_in};
    ghost use Rattle.dia_breaking.specs.TheLines.{AreLinesOf};

    /// The lengths of A's entries.
    pub fn new<B: Book>(alloc: Global, book: &'a A, b: &B, sends: Sends) -> Result<Self, AllocError>
        ensures book { IfOk result (λ lengths. lengths.book.now ≡ book.now) }
        ensures sends { IfOk result (λ lengths. lengths.sends ≡ sends) }
        ensures least { IfOk result (λ lengths. AreExact (sender_in lengths) lengths.sends lengths.least.lengths.items) }
        ensures entries { IfOk result
            (λ lengths. AreEntryLengths (sender_in lengths) lengths.least.lengths.items lengths.entries.items) }
        ensures others { IfOk result (λ lengths. AreExactlyOthers
            (sender_in lengths) (B.meaning b.now) lengths.sends lengths.entries.items lengths.others.items) }
    {
        let least = least_lengths(alloc, book, sends)?;
        let entries = lengths_of_entries(alloc, book, &least)?;
        let others = others_of(alloc, book, b, sends, &entries)?;
        Ok(Lengths {
            book,
            sends,
            least,
            entries,
            others,
        })
    }

    /// The length of a shortest AVP of a key that a rule lists.
    pub fn listed(&self, key: Key) -> u64
        ensures { result ≡ (costs_of self.now).listed key }
    {
        length_of(self.book, self.sends, &self.entries, key)
    }

    /// The length of a shortest AVP of a key that comes by a wildcard by which AVPs are sent.
    pub fn other(&self, key: Key) -> u64
        ensures { result ≡ (costs_of self.now).other key }
    {
        match self.sends {
            Sends::Any => length_of(self.book, Sends::Any, &self.entries, key),
            Sends::Known => length_of(self.book, Sends::Known, &self.entries, key),
            Sends::Filled => length_of(self.book, Sends::Filled, &self.entries, key),
            Sends::Listed => TOO_LONG,
        }
    }

    /// The lengths in the levels of a definition.
    pub fn of_level(&self, def: DefId) -> LevelLengths<'_, 'a, A>
        requires { def < length (definitions (sender_in self.now)) }
        ensures { prices_of result ≡ prices_in (costs_of self.now) (rules_in (sender_in self.now) def) }
    {
        LevelLengths {
            lengths: self,
            is_open: self.is_open(def),
        }
    }

    /// How the levels of a definition break the rules of one of B.
    pub fn lines_between<B: Book>(
        &self,
        alloc: Global,
        def: DefId,
        b: &B,
        other: DefId,
    ) -> Result<Vec<LevelLine>, AllocError>
        requires first { def < length (definitions (sender_in self.now)) }
        requires second { other < length (definitions (B.meaning b.now)) }
        requires shortest { PicksShortest (sender_in self.now) (B.meaning b.now) (costs_of self.now) }
        ensures { IfOk result (λ lines. AreLinesOf (costs_of self.now)
            (rules_in (sender_in self.now) def) (rules_in (B.meaning b.now) other) lines.items) }
    {
        let level = self.of_level(def);
        level_lines(alloc, self.book, def, b, other, &level)
    }

    /// Whether A's side sends AVPs by the wildcard of a definition.
    pub fn is_open(&self, def: DefId) -> bool
        requires { def < length (definitions (sender_in self.now)) }
        ensures { result ≡ is_open self.now.sends (rules_in (sender_in self.now) def) }
    {
        is_open(self.sends, rules_of(self.book, def))
    }
}

/// The lengths of the AVPs in the levels of a definition of A.
#[derive(Drop)]
pub(crate) struct LevelLengths<'l, 'a, A: Book> {
    pub lengths: &'l Lengths<'a, A>,
    /// Whether A's side sends AVPs by the definition's wildcard.
    pub is_open: bool,
}

/// The keys of AVPs that are sent by a wildcard. Where any are, none is shorter than one that neither dictionary knows, without
/// vendor; where those that A knows are, the shortest come first; and where each AVP has to be listed, there are none.
fn others_of<A: Book, B: Book>(
    alloc: Global,
    a: &A,
    b: &B,
    sends: Sends,
    entries: &[u64],
) -> Result<Vec<Key>, AllocError>
    ensures { IfOk result (λ keys. AreExactlyOthers (A.meaning a.now) (B.meaning b.now) sends entries.now keys.items) }
{
    match sends {
        Sends::Any => only(alloc, stranger(a, b)),
        Sends::Known => in_order(alloc, a, entries),
        Sends::Filled => in_order(alloc, a, entries),
        Sends::Listed => Ok(Vec::new(alloc)),
    }
}

fn only(alloc: Global, key: Key) -> Result<Vec<Key>, AllocError>
    ensures { IfOk result (λ keys. keys.items ≡ key ∷ []) }
{
    let mut keys = Vec::new(alloc);
    keys.push(key)?;
    Ok(keys)
}

/// The length of a shortest AVP of a key.
fn length_of<A: Book>(book: &A, sends: Sends, entries: &[u64], key: Key) -> u64
    ensures { result ≡ listed_length (A.meaning book.now) sends entries.now key }
{
    match book.avp(key) {
        Some(entry) => match entries.get(entry.index()) {
            Some(length) => (*length).max(8).min(TOO_LONG),
            None => TOO_LONG,
        },
        None => match sends {
            Sends::Any => shortest_head(key),
            Sends::Known => TOO_LONG,
            Sends::Filled => TOO_LONG,
            Sends::Listed => TOO_LONG,
        },
    }
}

/// The keys of A's entries, ordered by the lengths of their shortest AVPs.
fn in_order<A: Book>(alloc: Global, book: &A, entries: &[u64]) -> Result<Vec<Key>, AllocError>
    ensures sorted { IfOk result
        (λ keys. IsNonDecreasingBy (listed_length (A.meaning book.now) Sends.Known entries.now) keys.items) }
    ensures all { IfOk result (λ keys. IsPermutation (entry_keys (A.meaning book.now)) keys.items) }
    ensures stable { IfOk result (λ keys. IsStableByKey (listed_length (A.meaning book.now) Sends.Known entries.now) nat_cmp
        (entry_keys (A.meaning book.now)) keys.items) }
{
    let mut keys = keys_of(alloc, book)?;
    keys.sort_by_key(|key| length_of(book, Sends::Known, entries, *key))?;
    Ok(keys)
}

/// The keys of the entries.
pub(crate) fn keys_of<B: Book>(alloc: Global, book: &B) -> Result<Vec<Key>, AllocError>
    ensures { IfOk result (λ keys. keys.items ≡ entry_keys (B.meaning book.now)) }
{
    let mut keys = Vec::new(alloc);
    for index in 0..book.entries() {
        keys.push(book.entry_key(book.entry_at(index)))?;
    }
    Ok(keys)
}

/// The first key without vendor that neither dictionary knows. There is one, as they know fewer keys than there are codes.
pub(crate) fn stranger<A: Book, B: Book>(a: &A, b: &B) -> Key
    ensures { IsStranger (A.meaning a.now) (B.meaning b.now) result }
{
    for code in 0..u32::MAX {
        let key = Key { code, vendor: 0 };
        if is_strange(a, b, key) {
            return key;
        }
    }
    unreachable!()
}

/// Whether neither dictionary knows the key.
fn is_strange<A: Book, B: Book>(a: &A, b: &B, key: Key) -> bool
    ensures { MatchBool result (IsStrange (A.meaning a.now) (B.meaning b.now) key)
        (IsSome (entry_of (A.meaning a.now) key) ⊎ IsSome (entry_of (B.meaning b.now) key)) }
{
    a.avp(key).is_none() && b.avp(key).is_none()
}

fn lengths_of_entries<A: Book>(
    alloc: Global,
    book: &A,
    least: &Least,
) -> Result<Vec<u64>, AllocError>
    ensures { IfOk result (λ lengths. AreEntryLengths (A.meaning book.now) least.now.lengths.items lengths.items) }
{
    let mut lengths = Vec::new(alloc);
    for index in 0..book.entries() {
        lengths.push(least.entry(book.entry_at(index)))?;
    }
    Ok(lengths)
}

impl<'l, 'a, A: Book> Costs for LevelLengths<'l, 'a, A> {
    ghost use Rattle.dia_breaking.specs.Sender.{prices_of};

    ghost listed_length = { λ level. (prices_of level).listed };

    ghost other_length = { λ level. (prices_of level).other };

    ghost other_keys = { λ level. (prices_of level).others };

    fn listed(&self, key: Key) -> u64 {
        self.lengths.listed(key)
    }

    fn other(&self, key: Key) -> u64 {
        if self.is_open {
            self.lengths.other(key)
        } else {
            TOO_LONG
        }
    }

    fn others(&self) -> &[Key] {
        if self.is_open {
            &self.lengths.others
        } else {
            &[]
        }
    }
}
