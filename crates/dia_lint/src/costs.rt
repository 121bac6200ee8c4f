//! The lengths of the shortest AVPs that a side sends.
ghost use Rattle.std.specs.Prelude.{◌≡◌, ◌∷◌, [], IfOk};
ghost use Rattle.std.specs.List.Sorted.{IsPermutation, IsNonDecreasingBy};
ghost use Rattle.dia_breaking_shortest.specs.Least.{IsFirstUnknown};
ghost use Rattle.dia_breaking_shortest.specs.Lengths.{length_of};
ghost use Rattle.dia_lint.specs.Costs.{AreOthers, entry_keys};

use dia_book::{Book, Key};
use dia_breaking_levels::{Costs, TOO_LONG};
use dia_breaking_shortest::{Least, least_lengths};
use dia_terms::Sends;
use std::alloc::{AllocError, Global};

/// The lengths of the shortest AVPs that a side sends by a book.
#[derive(Drop)]
pub(crate) struct Lengths<'a, B: Book> {
    pub book: &'a B,
    pub least: Least,
    /// Keys that a wildcard lets in. The first of them that no rule lists is one of a shortest AVP.
    pub others: Vec<Key>,
}

impl<'a, B: Book> Lengths<'a, B> {
    ghost use Rattle.std.specs.Prelude.{◌≡◌, ◌≢◌, IfOk};
    ghost use Rattle.dia_breaking_shortest.specs.Lengths.{length_of};
    ghost use Rattle.dia_lint.specs.Costs.{AreLengths};

    pub fn new(alloc: Global, book: &'a B, sends: Sends) -> Result<Self, AllocError>
        requires { sends ≢ Sends.Filled }
        ensures book { IfOk result (λ lengths. lengths.book.now ≡ book.now) }
        ensures sends { IfOk result (λ lengths. lengths.least.sends ≡ sends) }
        ensures lengths { IfOk result (λ lengths. AreLengths (B.meaning book.now) sends
            lengths.least.lengths.items lengths.others.items) }
    {
        let least = least_lengths(alloc, book, sends)?;
        let others = others_of(alloc, book, &least)?;
        Ok(Lengths {
            book,
            least,
            others,
        })
    }

    /// The length of a shortest AVP of the key, whatever lets it in.
    pub fn key(&self, key: Key) -> u64
        ensures { result ≡ length_of (B.meaning self.now.book.now) self.now.least.sends self.now.least.lengths.items key }
    {
        self.least.key(self.book, key)
    }
}

/// Where a wildcard lets any AVP in, none is shorter than one that the book doesn't know; where it lets in what the book knows,
/// the shortest come first; and where each AVP has to be listed, it lets in none.
fn others_of<B: Book>(alloc: Global, book: &B, least: &Least) -> Result<Vec<Key>, AllocError>
    requires { IsFirstUnknown (B.meaning book.now) least.now.unknown }
    ensures { IfOk result (λ keys. AreOthers (B.meaning book.now) least.now.sends least.now.lengths.items keys.items) }
{
    match least.sends {
        Sends::Any => only(alloc, least.unknown),
        Sends::Known => in_order(alloc, book, least),
        Sends::Filled => Ok(Vec::new(alloc)),
        Sends::Listed => Ok(Vec::new(alloc)),
    }
}

fn only(alloc: Global, key: Key) -> Result<Vec<Key>, AllocError>
    ensures { IfOk result (λ keys. keys.items ≡ key ∷ []) }
{
    let mut keys = Vec::new(alloc);
    keys.push(key)?;
    Ok(keys)
}

/// The keys that the book knows, those of the shortest AVPs first.
fn in_order<B: Book>(alloc: Global, book: &B, least: &Least) -> Result<Vec<Key>, AllocError>
    ensures sorted { IfOk result (λ keys. IsNonDecreasingBy
        (length_of (B.meaning book.now) least.now.sends least.now.lengths.items) keys.items) }
    ensures all { IfOk result (λ keys. IsPermutation (entry_keys (B.meaning book.now)) keys.items) }
{
    let mut keys = keys_of(alloc, book)?;
    keys.sort_by_key(|key| least.key(book, *key))?;
    Ok(keys)
}

/// The keys of the entries.
fn keys_of<B: Book>(alloc: Global, book: &B) -> Result<Vec<Key>, AllocError>
    ensures { IfOk result (λ keys. keys.items ≡ entry_keys (B.meaning book.now)) }
{
    let mut keys = Vec::new(alloc);
    for index in 0..book.entries() {
        keys.push(book.entry_key(book.entry_at(index)))?;
    }
    Ok(keys)
}

impl<'a, B: Book> Costs for Lengths<'a, B> {
    ghost use Rattle.dia_breaking_shortest.specs.Lengths.{length_of};
    ghost use Rattle.dia_lint.specs.Costs.{other_length};

    ghost listed_length = { λ lengths. length_of (B.meaning lengths.book.now) lengths.least.sends lengths.least.lengths.items };

    ghost other_length = { λ lengths. other_length (B.meaning lengths.book.now) lengths.least.sends lengths.least.lengths.items };

    ghost other_keys = { λ lengths. lengths.others.items };

    fn listed(&self, key: Key) -> u64 {
        self.key(key)
    }

    fn other(&self, key: Key) -> u64 {
        match self.least.sends {
            Sends::Any => self.key(key),
            Sends::Known => self.key(key),
            Sends::Filled => TOO_LONG,
            Sends::Listed => TOO_LONG,
        }
    }

    fn others(&self) -> &[Key] {
        &self.others
    }
}
