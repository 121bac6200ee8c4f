//! Which lines a list accepts, one by one, and which of its entries accept none.
ghost use Rattle.std.specs.Prelude.{◌≡◌, ◌&&◌, ◌++◌, ◌∷◌, List, ℕ, [], IfOk, OnOk, Some, if◌then◌else◌, map, unwrap_or, true};
ghost use Rattle.std.specs.Prelude.{false};
ghost use Rattle.std.specs.Str.{bytes_eq};
ghost use Rattle.dia_accepted.specs.Accepted.{plain_entry};
ghost use Rattle.dia_accepted.specs.Seen.{mark, unmarked};
ghost use Rattle.dia_accepted.specs.Sets.{found, has};

use crate::list::Entry;
use crate::words::{anywhere, counted};
use indexmap::IndexMap;
use std::alloc::{AllocError, Global};

/// A list of accepted lines that is asked for one line after another.
pub struct Accepting<'l> {
    pub(crate) list: &'l [Entry],
    /// What counts of the lines of the list, each with whether a line came of which it counts.
    pub(crate) texts: IndexMap<Vec<u8>, bool>,
}

// Written out: for a derived `Drop`, each crate that drops this type proves the drops of all its parts again.
impl Drop for Accepting<'_> {
    fn drop(self) {
        let Accepting { list: _, texts: _ } = self;
    }
}

impl<'l> Accepting<'l> {
    ghost use Rattle.std.specs.Prelude.{◌≡◌, ◌++◌, ◌∷◌, List, [], IfOk, OnOk, map};
    ghost use Rattle.std.specs.List.{list_any};
    ghost use Rattle.dia_accepted.specs.Accepted.{PlainEntry, PlainRecorded, accepts, plain_entry, unused_of};
    ghost use Rattle.dia_accepted.specs.Seen.{HasSeen};

    /// No line has come.
    pub fn new(alloc: Global, list: &'l [Entry]) -> Result<Accepting<'l>, AllocError>
        ensures { IfOk result (λ made. HasSeen made (map plain_entry list.now) []) }
    {
        let texts = texts_of(alloc, list)?;
        Ok(Accepting { list, texts })
    }

    /// Whether the list accepts a line, which has come from now on.
    pub fn accepts(&mut self, alloc: Global, words: &str) -> Result<bool, AllocError>
        ensures accepted { IfOk result (λ known. (list : List PlainEntry) (recorded : List PlainRecorded)
            → HasSeen self.old list recorded
            → known ≡ list_any (accepts words.now) list) }
        ensures come { OnOk result ((list : List PlainEntry) (recorded : List PlainRecorded) (t : PlainRecorded)
            → t.words ≡ words.now
            → HasSeen self.old list recorded → HasSeen self.new list (recorded ++ t ∷ [])) }
    {
        if self.list.is_empty() {
            return Ok(false);
        }
        let words = words.as_bytes();
        let own = mark_known(&mut self.texts, counted(alloc, words)?)?;
        let any = mark_known(&mut self.texts, anywhere(alloc, words)?)?;
        Ok(own || any)
    }

    /// The entries that accept none of the lines that have come, in their order.
    pub fn unused(&self, alloc: Global) -> Result<Vec<Entry>, AllocError>
        ensures { IfOk result (λ unused. (list : List PlainEntry) (recorded : List PlainRecorded) → HasSeen self.now list recorded
            → map plain_entry unused.items ≡ unused_of list recorded) }
    {
        unmarked(alloc, self.list, &self.texts)
    }
}

/// What counts of the lines of a list. None is marked.
fn texts_of(alloc: Global, list: &[Entry]) -> Result<IndexMap<Vec<u8>, bool>, AllocError>
    ensures { IfOk result (λ texts. (text : List ℕ) → found texts.entries text ≡ mark (map plain_entry list.now) [] text) }
{
    let mut texts = IndexMap::new(alloc);
    for entry in list {
        let counted = Vec::from_slice(alloc, entry.counted.as_slice())?;
        texts.insert(counted, false)?;
    }
    Ok(texts)
}

/// Marks a text, if it is there, and answers whether it is.
fn mark_known(texts: &mut IndexMap<Vec<u8>, bool>, text: Vec<u8>) -> Result<bool, AllocError>
    ensures known { IfOk result (λ known. known ≡ has texts.old.entries text.items) }
    ensures marked { OnOk result ((x : List ℕ) → found texts.new.entries x
        ≡ (if has texts.old.entries text.items && bytes_eq x text.items then Some true else found texts.old.entries x)) }
{
    let known = texts.contains_key(text.as_slice());
    if known {
        texts.insert(text, true)?;
    }
    Ok(known)
}

/// The entries of a list that aren't marked.
fn unmarked(
    alloc: Global,
    list: &[Entry],
    texts: &IndexMap<Vec<u8>, bool>,
) -> Result<Vec<Entry>, AllocError>
    ensures { IfOk result (λ entries. map plain_entry entries.items ≡ unmarked texts.now.entries (map plain_entry list.now)) }
{
    let mut entries = Vec::new(alloc);
    for entry in list {
        let known = is_marked(texts, entry.counted.as_slice());
        push_copy(alloc, &mut entries, entry, known)?;
    }
    Ok(entries)
}

/// Adds a copy of an entry, unless it is known.
pub(crate) fn push_copy(
    alloc: Global,
    entries: &mut Vec<Entry>,
    entry: &Entry,
    known: bool,
) -> Result<(), AllocError>
    ensures { OnOk result (map plain_entry entries.new.items ≡ map plain_entry entries.old.items
        ++ (if known then [] else plain_entry entry.now ∷ [])) }
{
    if !known {
        entries.push(entry.copy(alloc)?)?;
    }
    Ok(())
}

fn is_marked(texts: &IndexMap<Vec<u8>, bool>, text: &[u8]) -> bool
    ensures { result ≡ unwrap_or (found texts.now.entries text.now) false }
{
    match texts.get(text) {
        Some(marked) => *marked,
        None => false,
    }
}

/// Adds an item, unless it is known.
pub(crate) fn push_unless<T: Drop>(
    items: &mut Vec<T>,
    item: T,
    known: bool,
) -> Result<(), AllocError>
    ensures { OnOk result (items.new.items ≡ items.old.items ++ (if known then [] else item ∷ [])) }
{
    if !known {
        items.push(item)?;
    }
    Ok(())
}
