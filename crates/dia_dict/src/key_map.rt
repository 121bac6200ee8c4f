//! Maps of keys.
ghost use Rattle.std.specs.Prelude.{◌≡◌, Some, IfOk, IfSome};
ghost use Rattle.indexmap.specs.IndexMap.{get};
ghost use Rattle.dia_book.specs.Keys.{same_key};

use crate::hashing::Hashing;
use dia_wire::Key;
use indexmap::IndexMap;
use std::alloc::{AllocError, Global};

/// The index that no key has.
const NO_INDEX: u32 = u32::MAX;

/// A map of keys with guesses: for each number that codes end with in binary, the index of a key with such a code. A key
/// that is not at the index is looked up by its hash.
#[derive(Drop)]
pub(crate) struct KeyMap<V> {
    pub map: IndexMap<Key, V, Hashing>,
    mask: u32,
    guesses: Vec<u32>,
}

impl<V: Copy> KeyMap<V> {
    pub fn with_guesses(alloc: Global, map: IndexMap<Key, V, Hashing>) -> Result<Self, AllocError>
        ensures { IfOk result (λ keyed. keyed.map ≡ map) }
    {
        let mask = mask_for(map.len());
        let guesses = guesses(alloc, map.keys().as_slice(), mask)?;
        Ok(KeyMap { map, mask, guesses })
    }

    /// The value of a key.
    #[inline(always)]
    pub fn get(&self, key: Key) -> Option<V>
        ensures { result ≡ get same_key self.now.map key }
    {
        match self.guessed(key) {
            Some((other, value)) if *other == key => Some(*value),
            _ => self.map.get(&key).copied(),
        }
    }

    /// The entry at the guessed index.
    #[inline(always)]
    fn guessed(&self, key: Key) -> Option<(&Key, &V)>
        ensures { IfSome result (λ entry. get same_key self.now.map entry.0.now ≡ Some entry.1.now) }
    {
        let guess = self.guesses.get((key.code & self.mask) as usize)?;
        self.map.get_index(*guess as usize)
    }
}

/// The greatest number of the guesses for so many keys.
fn mask_for(keys: usize) -> u32 {
    let keys = keys.min(1 << 16) as u32;
    (4 * keys).next_power_of_two() - 1
}

/// For each number up to the greatest the index of the first key whose code ends with it, or one that no key has.
fn guesses(alloc: Global, keys: &[Key], mask: u32) -> Result<Vec<u32>, AllocError> {
    let mut guesses = Vec::new(alloc);
    guesses.resize(mask as usize + 1, NO_INDEX)?;
    for (index, key) in keys.iter().enumerate() {
        if let Some(guess) = guesses.get_mut((key.code & mask) as usize) {
            if *guess == NO_INDEX {
                *guess = index.min(NO_INDEX as usize) as u32;
            }
        }
    }
    Ok(guesses)
}
