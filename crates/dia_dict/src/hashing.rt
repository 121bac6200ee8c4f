//! How the maps of a dictionary hash, whoever wrote the dictionary.
ghost use Rattle.std.specs.Prelude.{◌<◌};

use std::alloc::{AllocError, Global};
use std::hash::{BuildHasher, FoldHasher, Hash, Hasher};

/// Makes hashers that all begin in one state.
#[derive(Clone, Copy)]
pub(crate) struct Hashing {
    start: FoldHasher,
}

impl BuildHasher for Hashing {
    type Hasher = FoldHasher;

    ghost build_hasher = { λ hashing. hashing.start };

    fn build_hasher(&self) -> FoldHasher {
        self.start
    }
}

/// How many seeds are tried for keys that crowd.
const SEEDS: u32 = 32;

/// So many keys may be in one place: a search among them is still short.
const FEW: usize = 256;

impl Hashing {
    fn new(seed: u32) -> Self {
        let mut start = FoldHasher::default();
        start.write_u32(seed);
        Hashing { start }
    }

    /// For these keys: the first seed under which their searches are short, else the one with the shortest.
    pub fn of<K: Hash + Copy>(alloc: Global, keys: &[K]) -> Result<Self, AllocError> {
        let mut best = Self::new(0);
        if keys.len() <= FEW {
            return Ok(best);
        }
        let mut least = best.excess(alloc, keys)?;
        for seed in 1..SEEDS {
            if least <= FEW {
                break;
            }
            let other = Self::new(seed);
            let excess = other.excess(alloc, keys)?;
            if excess < least {
                best = other;
                least = excess;
            }
        }
        Ok(best)
    }

    /// How many keys at most have to look for room elsewhere at one place of a map.
    fn excess<K: Hash + Copy>(self, alloc: Global, keys: &[K]) -> Result<usize, AllocError> {
        let counts = self.counts(alloc, keys)?;
        let mut waiting: usize = 0;
        let mut most = 0;
        // The last group is followed by the first.
        for _ in 0..2 {
            for count in &counts {
                waiting = waiting.saturating_add(*count).saturating_sub(LANES);
                most = most.max(waiting);
            }
        }
        Ok(most)
    }

    /// How many keys begin their search in each group of a map.
    fn counts<K: Hash + Copy>(self, alloc: Global, keys: &[K]) -> Result<Vec<usize>, AllocError> {
        let groups = groups(keys.len());
        let mut counts = Vec::new(alloc);
        counts.resize(groups, 0usize)?;
        for key in keys {
            let hash = self.hash_one(*key);
            let group = (hash ^ hash >> 32) as usize % groups;
            if let Some(count) = counts.get_mut(group) {
                *count = usize::saturating_add(*count, 1);
            }
        }
        Ok(counts)
    }
}

/// How many keys a group of a map of `indexmap` holds.
const LANES: usize = 12;

/// How many groups a map of `indexmap` has that is made for so many keys.
fn groups(keys: usize) -> usize
    ensures { 0 < result }
{
    (keys / 9 + 1).next_power_of_two()
}
