//! The least lengths of the AVPs that a side sends, as a least fixed point.
ghost use Rattle.std.specs.Prelude.{◌≡◌, ◌<◌, ℕ, nat_lt, false, length, IfSome, IfOk};
ghost use Rattle.std.specs.Prelude.{slice_get, slice_set, if◌then◌else◌};
ghost use Rattle.std.specs.Option.{option_map};
ghost use Rattle.dia_breaking_data.specs.Shortest.{witness_bytes};
ghost use Rattle.dia_breaking_data.specs.TheData.{the_data};
ghost use Rattle.dia_breaking_shortest.specs.Kept.{AreData, AreDataOf, kept_at};
ghost use Rattle.dia_breaking_shortest.specs.Least.{AreFillers, AreTheData, IsFirstUnknown, IsLeastOf, entry_filler};
ghost use Rattle.dia_breaking_shortest.specs.Lengths.{IsLeafLength, entry_length};
ghost use Rattle.dia_breaking_shortest.specs.Exact.{AreExact, AreSpellable};
ghost use Rattle.dia_breaking_shortest.specs.Floors.{AreFloors, IsSpellable};
ghost use Rattle.dia_breaking_shortest.specs.Passes.{AreKept, AreNoShorter, AreSettled, IsLess, IsSettled};
ghost use Rattle.dia_breaking_shortest.specs.Passes.{IsWhole};
ghost use Rattle.dia_breaking_shortest.specs.Passes.{length_in};

use crate::lengths::{padded, shortest_head};
use crate::lookup::Least;
use crate::order::{Ranked, group_of};
use crate::search::search;
use dia_book::{Book, Entry, Key};
use dia_breaking_data::{Witness, shortest};
use dia_breaking_levels::TOO_LONG;
use dia_terms::Sends;
use std::alloc::{AllocError, Global};

/// More keys of one vendor than a dictionary knows.
const KEYS: u32 = 16_385;

/// How long the shortest AVPs are that a side sends by this dictionary.
///
/// The groups are settled as in Dijkstra's search, the shortest first. Then passes over all groups look for shorter ones until
/// one finds none, which is the first. The dictionary and what is sent determine what the shortest AVPs are made of
/// (`IsLeastOf`).
pub fn least_lengths<B: Book>(alloc: Global, book: &B, sends: Sends) -> Result<Least, AllocError>
    ensures sends { IfOk result (λ least. least.sends ≡ sends) }
    ensures floors { IfOk result (λ least. AreFloors (B.meaning book.now) sends
        (length_in (B.meaning book.now) least)) }
    ensures exact { IfOk result (λ least. AreExact (B.meaning book.now) sends
        least.lengths.items) }
    ensures spelled { IfOk result (λ least. AreSpellable (B.meaning book.now)) }
    ensures leaf_data { IfOk result (λ least. AreData (B.meaning book.now) least.leaf_data.items) }
    ensures least { IfOk result (IsLeastOf (B.meaning book.now) sends) }
{
    let mut least = leaves(alloc, book, sends)?;
    search(alloc, book, &mut least)?;
    let least = settled(alloc, book, least)?;
    let fillers = all_fillers(alloc, book, &least)?;
    let leaf_data = all_data(alloc, book)?;
    Ok(Least {
        fillers,
        leaf_data,
        ..least
    })
}

/// For each group the key that its wildcard's least count is met with.
fn all_fillers<B: Book>(
    alloc: Global,
    book: &B,
    least: &Least,
) -> Result<Vec<Option<Key>>, AllocError>
    ensures { IfOk result (λ all. AreFillers (B.meaning book.now) least.now.sends least.now.unknown
        least.now.lengths.items all.items) }
{
    let order = least.order(alloc, book)?;
    fillers_in(alloc, book, least, &order)
}

fn fillers_in<B: Book>(
    alloc: Global,
    book: &B,
    least: &Least,
    order: &[Ranked],
) -> Result<Vec<Option<Key>>, AllocError>
    ensures { IfOk result (λ all. (e : ℕ) → e < length (B.meaning book.now).entries → kept_at all.items e
        ≡ entry_filler (B.meaning book.now) least.now.sends least.now.unknown order.now e) }
{
    let mut found = Vec::new(alloc);
    for index in 0..book.entries() {
        found.push(entry_filler(book, least, order, book.entry_at(index)))?;
    }
    Ok(found)
}

fn entry_filler<B: Book>(book: &B, least: &Least, order: &[Ranked], entry: Entry) -> Option<Key>
    requires { entry < length (B.meaning book.now).entries }
    ensures { result ≡ entry_filler (B.meaning book.now) least.now.sends least.now.unknown order.now entry }
{
    match group_of(book, entry) {
        Some(def) => least.filler(book, def, order).map(|ranked| ranked.key),
        None => None,
    }
}

/// Shortest data of each entry as a leaf, where there are any.
fn all_data<B: Book>(alloc: Global, book: &B) -> Result<Vec<Option<Witness>>, AllocError>
    ensures shortest { IfOk result (λ all. AreData (B.meaning book.now) all.items) }
    ensures exactly { IfOk result (λ all. AreTheData (B.meaning book.now) all.items) }
{
    let mut found = Vec::new(alloc);
    for index in 0..book.entries() {
        found.push(leaf_data(book, book.entry_at(index)))?;
    }
    Ok(found)
}

fn leaf_data<B: Book>(book: &B, entry: Entry) -> Option<Witness>
    requires { entry < length (B.meaning book.now).entries }
    ensures shortest { IfSome (slice_get (B.meaning book.now).entries entry) (λ e. AreDataOf e result) }
    ensures exactly { IfSome (slice_get (B.meaning book.now).entries entry)
        (λ e. option_map witness_bytes result ≡ the_data e.format) }
{
    shortest(book.format(entry))
}

/// The lengths that no group's least level makes less.
fn settled<B: Book>(alloc: Global, book: &B, least: Least) -> Result<Least, AllocError>
    requires { AreKept (B.meaning book.now) least }
    ensures sends { IfOk result (λ last. last.sends ≡ least.sends) }
    ensures kept { IfOk result (AreKept (B.meaning book.now)) }
    ensures settled { IfOk result (AreSettled (B.meaning book.now)) }
{
    let mut last = least;
    loop {
        let order = last.order(alloc, book)?;
        if !lower_all(&mut last, book, &order) {
            return Ok(last);
        }
    }
}

/// The lengths of leaves, where no group is known to be sent.
fn leaves<B: Book>(alloc: Global, book: &B, sends: Sends) -> Result<Least, AllocError>
    ensures kept { IfOk result (AreKept (B.meaning book.now)) }
    ensures sends { IfOk result (λ least. least.sends ≡ sends) }
    ensures spelled { IfOk result (λ least. AreSpellable (B.meaning book.now)) }
{
    let mut lengths = Vec::new(alloc);
    for index in 0..book.entries() {
        lengths.push(leaf_length(book, book.entry_at(index)))?;
    }
    Ok(Least {
        sends,
        unknown: unknown_key(book),
        lengths,
        fillers: Vec::new(alloc),
        leaf_data: Vec::new(alloc),
    })
}

fn leaf_length<B: Book>(book: &B, entry: Entry) -> u64
    requires { entry < length (B.meaning book.now).entries }
    ensures leaf { IfSome (slice_get (B.meaning book.now).entries entry) (λ e. IsLeafLength e result) }
    ensures spelled { IfSome (slice_get (B.meaning book.now).entries entry) (λ e. IsSpellable e.key) }
{
    let key = book.entry_key(entry);
    match shortest(book.format(entry)) {
        Some(data) => padded(shortest_head(key), data.as_slice().len() as u64),
        None => TOO_LONG,
    }
}

/// The first key without vendor that the dictionary doesn't know.
fn unknown_key<B: Book>(book: &B) -> Key
    ensures { IsFirstUnknown (B.meaning book.now) result }
{
    for code in 0..KEYS {
        let key = Key { code, vendor: 0 };
        if book.avp(key).is_none() {
            return key;
        }
    }
    unreachable!()
}

/// Makes the lengths of groups less by their least levels, and returns whether any became less.
fn lower_all<B: Book>(least: &mut Least, book: &B, order: &[Ranked]) -> bool
    requires whole { IsWhole (B.meaning book.now) least.old }
    requires ranks { AreNoShorter (length_in (B.meaning book.now) least.old) order.now }
    ensures less { IsLess (B.meaning book.now) least.old least.new result }
    ensures settled { result ≡ false → (e : ℕ) → e < length (B.meaning book.now).entries
        → IsSettled (B.meaning book.now) least.new order.now e }
{
    let mut changed = false;
    for index in 0..book.entries() {
        if lower(least, book, order, index) {
            changed = true;
        }
    }
    changed
}

/// Makes the length of an entry less, if it is a group whose least level takes less.
pub(crate) fn lower<B: Book>(least: &mut Least, book: &B, order: &[Ranked], index: usize) -> bool
    requires whole { IsWhole (B.meaning book.now) least.old }
    requires within { index < length (B.meaning book.now).entries }
    requires ranks { AreNoShorter (length_in (B.meaning book.now) least.old) order.now }
    ensures less { IsLess (B.meaning book.now) least.old least.new result }
    ensures settled { result ≡ false → IsSettled (B.meaning book.now) least.new order.now index }
{
    let entry = book.entry_at(index);
    match group_of(book, entry) {
        Some(def) => {
            let filler = least.filler(book, def, order);
            let length = least.group(book, filler, book.entry_key(entry), def);
            improve(least, index, length)
        }
        None => false,
    }
}

/// Records the length for an entry, if it is less than before.
fn improve(least: &mut Least, index: usize, shorter: u64) -> bool
    requires { index < length least.old.lengths.items }
    ensures sends { least.new.sends ≡ least.old.sends }
    ensures unknown { least.new.unknown ≡ least.old.unknown }
    ensures lengths { least.new.lengths.items ≡ (if result
        then slice_set least.old.lengths.items index shorter else least.old.lengths.items) }
    ensures test { result ≡ nat_lt shorter (entry_length least.old.lengths.items index) }
{
    if shorter >= least.lengths[index] {
        return false;
    }
    least.lengths[index] = shorter;
    true
}
