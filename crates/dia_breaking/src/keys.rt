//! The keys of the AVPs that A's side may send: all that A knows, also those of which no message can hold an AVP. There is
//! something to report of AVPs that break by themselves, in which both dictionaries see a level, or that are read as another
//! format.
ghost use Rattle.std.specs.Prelude.{◌≡◌, ◌≤◌, ◌<◌, ◌&&◌, ◌⊎◌, ℕ, false, [], None, Contains};
ghost use Rattle.std.specs.Prelude.{◌++◌, ◌∷◌, ◌↔◌, IfOk, OnOk, filter, is_some};
ghost use Rattle.std.specs.HashMap.{get};
ghost use Rattle.std.specs.List.Sorted.{IsNonDecreasing, IsPermutation};
ghost use Rattle.dia_wire.specs.declared.Key.{Key as AnyKey};
ghost use Rattle.dia_book.specs.Keys.{same_key};
ghost use Rattle.dia_breaking_avps.specs.Breaks.{IsSilent, IsSilentData};
ghost use Rattle.dia_breaking_avps.specs.Sent.{group_of};
ghost use Rattle.dia_breaking.specs.SentKeys.{AreSentInOrder, entry_keys, is_unknown, keys_of_b_alone};
ghost use Rattle.dia_breaking.specs.Sides.{sides};
ghost use Rattle.dia_breaking.specs.Recording.{Adds, AreExactlyRecorded, AreRecorded, IsExactlyOwn, IsExactRecording, IsRecordedOf};

use crate::books::group_of;
use crate::lengths::{keys_of, stranger};
use crate::meanings::is_read_as_other;
use dia_book::{Book, Key};
use dia_breaking_avps::{AvpBreaks, DataBreak, avp_breaks};
use dia_terms::{Sends, Unknown};
use std::alloc::{AllocError, Global};
use std::collections::HashMap;

/// The AVPs of a key of which there is something to report.
#[derive(Clone, Copy)]
pub(crate) struct Own {
    pub key: Key,
    /// Whether both dictionaries see a level in it.
    pub is_group: bool,
    /// Whether it breaks by itself.
    pub breaks: bool,
    /// Whether B's side accepts all of its data, and reads them as another format.
    pub is_other: bool,
}

/// What there is to report of a key.
fn own_of<A: Book, B: Book>(a: &A, b: &B, key: Key, sends: Sends, unknown: Unknown) -> Own
    ensures recorded { IsRecordedOf (sides (A.meaning a.now) (B.meaning b.now) sends unknown) key result }
    ensures exact { IsExactlyOwn (sides (A.meaning a.now) (B.meaning b.now) sends unknown) result }
{
    let breaks = avp_breaks(a, b, key, sends, unknown);
    let is_other = is_read_as_other(a, b, key, sends, unknown, &breaks);
    Own {
        key,
        is_group: are_groups(a, b, key),
        breaks: breaks_alone(breaks),
        is_other,
    }
}

pub(crate) fn breaks_alone(breaks: AvpBreaks) -> bool
    ensures { (result ≡ false) ↔ IsSilent breaks }
{
    match breaks.head {
        Some(_) => true,
        None => breaks_data(breaks.data),
    }
}

/// Whether both dictionaries see a level in AVPs of the key.
fn are_groups<A: Book, B: Book>(a: &A, b: &B, key: Key) -> bool
    ensures { result ≡ (is_some (group_of (A.meaning a.now) key) && is_some (group_of (B.meaning b.now) key)) }
{
    group_of(a, key).is_some() && group_of(b, key).is_some()
}

fn breaks_data(found: DataBreak) -> bool
    ensures { (result ≡ false) ↔ IsSilentData found }
{
    match found {
        DataBreak::Fits => false,
        DataBreak::Groups { .. } => false,
        DataBreak::Data(_) => true,
        DataBreak::LeastLevel => true,
        DataBreak::EightBytes => true,
        DataBreak::Undecided => true,
    }
}

/// The keys of the AVPs that A's side may send: the keys of all of A's entries, and, where it sends any AVP, the keys that B
/// alone knows and one that neither dictionary knows.
fn sent_keys<A: Book, B: Book>(
    alloc: Global,
    a: &A,
    b: &B,
    sends: Sends,
) -> Result<Vec<Key>, AllocError>
    ensures { IfOk result (λ keys. AreSentInOrder (A.meaning a.now) (B.meaning b.now) sends keys.items) }
{
    let keys = keys_of(alloc, a)?;
    match sends {
        Sends::Any => with_others(keys, a, b),
        Sends::Known => Ok(keys),
        Sends::Filled => Ok(keys),
        Sends::Listed => Ok(keys),
    }
}

/// The keys of A's entries, then the keys that B alone knows, then one that neither dictionary knows.
fn with_others<A: Book, B: Book>(keys: Vec<Key>, a: &A, b: &B) -> Result<Vec<Key>, AllocError>
    requires { keys.items ≡ entry_keys (A.meaning a.now) }
    ensures { IfOk result (λ all. AreSentInOrder (A.meaning a.now) (B.meaning b.now) Sends.Any all.items) }
{
    let mut all = keys;
    push_keys_of_b_alone(&mut all, a, b)?;
    all.push(stranger(a, b))?;
    Ok(all)
}

/// Adds the keys that B alone knows.
fn push_keys_of_b_alone<A: Book, B: Book>(
    keys: &mut Vec<Key>,
    a: &A,
    b: &B,
) -> Result<(), AllocError>
    ensures { OnOk result (keys.new.items ≡ keys.old.items ++ keys_of_b_alone (A.meaning a.now) (B.meaning b.now)) }
{
    for index in 0..b.entries() {
        push_unknown(keys, a, b.entry_key(b.entry_at(index)))?;
    }
    Ok(())
}

/// Adds a key that A doesn't know.
fn push_unknown<A: Book>(keys: &mut Vec<Key>, a: &A, key: Key) -> Result<(), AllocError>
    ensures { OnOk result (keys.new.items ≡ keys.old.items ++ filter (is_unknown (A.meaning a.now)) (key ∷ [])) }
{
    if a.avp(key).is_none() {
        keys.push(key)?;
    }
    Ok(())
}

/// The least number that is not in `numbers`.
pub(crate) fn least_missing(numbers: Vec<u32>) -> Result<u32, AllocError>
    ensures below { IfOk result (λ least. (n : ℕ) → n < least → Contains numbers.items n) }
    ensures missing { IfOk result (λ least. (¬ Contains numbers.items least) ⊎ (4294967295 ≤ least)) }
{
    let sorted = in_order(numbers)?;
    Ok(least_beside(&sorted))
}

fn in_order(numbers: Vec<u32>) -> Result<Vec<u32>, AllocError>
    ensures sorted { IfOk result (λ sorted. IsNonDecreasing sorted.items) }
    ensures same { IfOk result (λ sorted. IsPermutation numbers.items sorted.items) }
{
    let mut sorted = numbers;
    sorted.sort()?;
    Ok(sorted)
}

/// The least number that is not in `numbers`, which are in order. Where all are there, the greatest one.
fn least_beside(numbers: &[u32]) -> u32
    requires { IsNonDecreasing numbers.now }
    ensures below { (n : ℕ) → n < result → Contains numbers.now n }
    ensures missing { (¬ Contains numbers.now result) ⊎ (4294967295 ≤ result) }
{
    let mut least: u32 = 0;
    for number in numbers {
        if *number == least {
            least = least.saturating_add(1);
        }
    }
    least
}

/// The AVPs of which there is something to report, in the order of the lines, and their places by their keys.
#[derive(Drop)]
pub(crate) struct Recording {
    pub own: Vec<Own>,
    pub places: HashMap<Key, usize>,
}

impl Recording {
    pub fn new<A: Book, B: Book>(
        alloc: Global,
        a: &A,
        b: &B,
        sends: Sends,
        unknown: Unknown,
    ) -> Result<Box<Self>, AllocError>
        ensures { IfOk result (λ recording.
            IsExactRecording (sides (A.meaning a.now) (B.meaning b.now) sends unknown) recording.value) }
    {
        let mut recording = Box::new(alloc, Recording::empty(alloc))?;
        let keys = sent_keys(alloc, a, b, sends)?;
        recording.add_all(a, b, sends, unknown, &keys)?;
        Ok(recording)
    }

    fn empty(alloc: Global) -> Self
        ensures items { result.own.items ≡ [] }
        ensures places { (key : AnyKey) → get same_key result.places key ≡ None }
    {
        Recording {
            own: Vec::new(alloc),
            places: HashMap::new(alloc),
        }
    }

    /// Adds what there is to report of these keys to an empty record.
    fn add_all<A: Book, B: Book>(
        &mut self,
        a: &A,
        b: &B,
        sends: Sends,
        unknown: Unknown,
        keys: &[Key],
    ) -> Result<(), AllocError>
        requires recorded { AreRecorded (sides (A.meaning a.now) (B.meaning b.now) sends unknown) [] self.old }
        requires exact { AreExactlyRecorded (sides (A.meaning a.now) (B.meaning b.now) sends unknown) [] self.old }
        ensures recorded { OnOk result (AreRecorded (sides (A.meaning a.now) (B.meaning b.now) sends unknown) keys.now self.new) }
        ensures exact { OnOk result (AreExactlyRecorded (sides (A.meaning a.now) (B.meaning b.now) sends unknown) keys.now self.new) }
    {
        for key in keys {
            self.add(own_of(a, b, *key, sends, unknown))?;
        }
        Ok(())
    }

    /// Adds what there is to report of a key, if there is something.
    fn add(&mut self, own: Own) -> Result<(), AllocError>
        ensures { OnOk result (Adds own self.old self.new) }
    {
        if own.breaks || own.is_group || own.is_other {
            let place = self.own.len();
            self.places.insert(own.key, place)?;
            self.own.push(own)?;
        }
        Ok(())
    }
}
