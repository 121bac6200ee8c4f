//! What the vectors of all commands of a dictionary are made of.
ghost use Rattle.std.specs.Prelude.{◌<◌, length};
ghost use Rattle.dia_book.specs.Dictionary.{definitions};

use crate::data::{Context, plain};
use crate::levels::{Run, runs_of};
use crate::lookup::group_of;
use dia_book::{Book, DefId, Entry, Key, MRule, Slot};
use dia_breaking_levels::{Costs, TOO_LONG};
use dia_breaking_shortest::{Least, least_lengths, shortest_head};
use dia_terms::{Sends, Unknown};
use std::alloc::{AllocError, Global};

/// A dictionary, with the plain AVP of each key, and the keys that wildcards let in.
#[derive(Drop)]
pub struct Stock<'a, B: Book> {
    pub(crate) book: &'a B,
    pub(crate) least: Least,
    unknown: Unknown,
    /// The keys that wildcards let in, those of the shortest AVPs first.
    others: Vec<Key>,
    /// The keys of which there are AVPs, in the dictionary's order.
    known: Vec<Key>,
    /// The known keys whose M flag may be clear.
    optional: Vec<Key>,
    /// What the plain level of each entry is made of, if it is a group.
    levels: Vec<Vec<Run>>,
    /// How long the plain AVP of each entry is, with its padding.
    lengths: Vec<u64>,
}

impl<'a, B: Book> Stock<'a, B> {
    /// All that is found once for all commands. The error comes only where memory was refused.
    pub fn new(alloc: Global, book: &'a B, unknown: Unknown) -> Result<Self, AllocError> {
        let least = least_lengths(alloc, book, sends_of(unknown))?;
        let ranks = ranks_of(alloc, book, &least)?;
        let others = others_of(alloc, book, unknown, &least, &ranks)?;
        let known = known_of(alloc, book, &least)?;
        let optional = optional_of(alloc, book, &known)?;
        let levels = levels_of(alloc, book, &others)?;
        let lengths = lengths_of(alloc, book, &levels, &ranks)?;
        Ok(Stock {
            book,
            least,
            unknown,
            others,
            known,
            optional,
            levels,
            lengths,
        })
    }

    /// How long a level of these AVPs is.
    pub(crate) fn level_length(&self, runs: &[Run]) -> u64 {
        level_length(self.book, &self.lengths, runs)
    }

    /// How long the plain AVP of a key is, with its padding.
    pub(crate) fn length(&self, key: Key) -> u64 {
        length(self.book, &self.lengths, key)
    }

    /// What the plain level of an entry is made of; nothing where it is no group.
    pub(crate) fn level(&self, entry: Entry) -> &[Run] {
        match self.levels.get(entry.index()) {
            Some(level) => level.as_slice(),
            None => &[],
        }
    }

    /// Whether there is an AVP of the key.
    pub(crate) fn has_avp(&self, key: Key) -> bool {
        self.least.key(self.book, key) < TOO_LONG
    }

    /// The key that counts for a definition's wildcard.
    pub(crate) fn filler(&self, def: DefId) -> Option<Key>
        requires { def < length (definitions (B.meaning self.now.book.now)) }
    {
        first_unlisted(self.book, def, &self.others)
    }

    /// The first known key that the definition doesn't list, one whose M flag may be clear before others.
    pub(crate) fn stranger(&self, def: DefId) -> Option<Key>
        requires { def < length (definitions (B.meaning self.now.book.now)) }
    {
        match first_unlisted(self.book, def, &self.optional) {
            Some(key) => Some(key),
            None => first_unlisted(self.book, def, &self.known),
        }
    }

    /// The first key without vendor that the dictionary doesn't know.
    pub(crate) fn unknown_key(&self) -> Key {
        self.least.unknown
    }

    /// Whether AVPs that the dictionary doesn't know are refused.
    pub(crate) fn refuses_unknown(&self) -> bool {
        self.unknown == Unknown::Refused
    }

    /// Whether the AVP of a key has M: where the dictionary demands it.
    pub(crate) fn has_m(&self, key: Key) -> bool {
        match self.book.avp(key) {
            Some(entry) => self.book.rule(entry) == MRule::Must,
            None => false,
        }
    }
}

/// The lengths of shortest AVPs.
impl<B: Book> Costs for Stock<'_, B> {
    ghost use Rattle.dia_breaking_shortest.specs.Lengths.{length_of};

    ghost listed_length = { λ stock key. length_of (B.meaning stock.book.now) stock.least.sends stock.least.lengths.items key };

    ghost other_length = { λ stock key. length_of (B.meaning stock.book.now) stock.least.sends stock.least.lengths.items key };

    ghost other_keys = { λ stock. stock.others.items };

    fn listed(&self, key: Key) -> u64 {
        self.least.key(self.book, key)
    }

    fn other(&self, key: Key) -> u64 {
        self.least.key(self.book, key)
    }

    fn others(&self) -> &[Key] {
        &self.others
    }
}

/// What a message may have, under the policy for AVPs that the dictionary doesn't know.
fn sends_of(unknown: Unknown) -> Sends {
    match unknown {
        Unknown::Kept => Sends::Any,
        Unknown::Refused => Sends::Known,
    }
}

/// The places of the entries of which there are AVPs, each with the length of a shortest one, the shortest first.
fn ranks_of<B: Book>(
    alloc: Global,
    book: &B,
    least: &Least,
) -> Result<Vec<(u64, usize)>, AllocError> {
    let mut ranks = Vec::new(alloc);
    for index in 0..book.entries() {
        let length = least.entry(book.entry_at(index));
        if length < TOO_LONG {
            ranks.push((length, index))?;
        }
    }
    ranks.sort_unstable();
    Ok(ranks)
}

/// The keys that wildcards let in.
fn others_of<B: Book>(
    alloc: Global,
    book: &B,
    unknown: Unknown,
    least: &Least,
    ranks: &[(u64, usize)],
) -> Result<Vec<Key>, AllocError> {
    let mut others = Vec::new(alloc);
    match unknown {
        Unknown::Kept => others.push(least.unknown)?,
        Unknown::Refused => {
            for &(_, index) in ranks {
                if index < book.entries() {
                    others.push(book.entry_key(book.entry_at(index)))?;
                }
            }
        }
    }
    Ok(others)
}

/// The keys of which there are AVPs.
fn known_of<B: Book>(alloc: Global, book: &B, least: &Least) -> Result<Vec<Key>, AllocError> {
    let mut known = Vec::new(alloc);
    for index in 0..book.entries() {
        let entry = book.entry_at(index);
        if least.entry(entry) < TOO_LONG {
            known.push(book.entry_key(entry))?;
        }
    }
    Ok(known)
}

/// Those whose M flag may be clear.
fn optional_of<B: Book>(alloc: Global, book: &B, known: &[Key]) -> Result<Vec<Key>, AllocError> {
    let mut optional = Vec::new(alloc);
    for key in known {
        if let Some(entry) = book.avp(*key) {
            if book.rule(entry) != MRule::Must {
                optional.push(*key)?;
            }
        }
    }
    Ok(optional)
}

/// What the plain levels of all entries are made of.
fn levels_of<B: Book>(
    alloc: Global,
    book: &B,
    others: &[Key],
) -> Result<Vec<Vec<Run>>, AllocError> {
    let mut levels = Vec::new(alloc);
    for index in 0..book.entries() {
        levels.push(level_of(alloc, book, others, book.entry_at(index))?)?;
    }
    Ok(levels)
}

fn level_of<B: Book>(
    alloc: Global,
    book: &B,
    others: &[Key],
    entry: Entry,
) -> Result<Vec<Run>, AllocError>
    requires { entry < length (B.meaning book.now).entries }
{
    match group_of(book, entry) {
        Some(def) => {
            let filler = first_unlisted(book, def, others);
            runs_of(alloc, &book.def(def).rules, filler)
        }
        None => Ok(Vec::new(alloc)),
    }
}

/// The lengths of all plain AVPs. The least level of a group has only shorter AVPs, so those are measured before it.
fn lengths_of<B: Book>(
    alloc: Global,
    book: &B,
    levels: &[Vec<Run>],
    ranks: &[(u64, usize)],
) -> Result<Vec<u64>, AllocError> {
    let mut lengths = Vec::new(alloc);
    for _ in 0..book.entries() {
        lengths.push(TOO_LONG)?;
    }
    for &(_, index) in ranks {
        let length = length_at(book, levels, &lengths, index);
        if let Some(place) = lengths.get_mut(index) {
            *place = length;
        }
    }
    Ok(lengths)
}

/// The length of the plain AVP of the entry at a place.
fn length_at<B: Book>(book: &B, levels: &[Vec<Run>], lengths: &[u64], index: usize) -> u64 {
    if index >= book.entries() {
        return TOO_LONG;
    }
    let entry = book.entry_at(index);
    let key = book.entry_key(entry);
    let inner = match (book.group(entry), levels.get(index)) {
        (Some(_), Some(level)) => level_length(book, lengths, level),
        _ => plain(key, book.format(entry), Context::NONE).length(),
    };
    padded(shortest_head(key).saturating_add(inner))
}

fn level_length<B: Book>(book: &B, lengths: &[u64], runs: &[Run]) -> u64 {
    let mut sum: u64 = 0;
    for run in runs {
        sum = sum.saturating_add(run.count.saturating_mul(length(book, lengths, run.key)));
    }
    sum
}

fn length<B: Book>(book: &B, lengths: &[u64], key: Key) -> u64 {
    match book.avp(key) {
        Some(entry) => match lengths.get(entry.index()) {
            Some(length) => *length,
            None => TOO_LONG,
        },
        None => shortest_head(key),
    }
}

/// The first key that the definition doesn't list.
fn first_unlisted<B: Book>(book: &B, def: DefId, keys: &[Key]) -> Option<Key>
    requires { def < length (definitions (B.meaning book.now)) }
{
    for key in keys {
        if book.slot(def, *key) == Slot::Unlisted {
            return Some(*key);
        }
    }
    None
}

/// The length with its padding (RFC 6733 section 4.1).
pub(crate) fn padded(length: u64) -> u64 {
    if length >= TOO_LONG {
        TOO_LONG
    } else {
        (length + 3) / 4 * 4
    }
}
