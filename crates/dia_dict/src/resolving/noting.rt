//! Maps that retain the first value of each key.
ghost use Rattle.std.specs.Prelude.{◌≡◌, ◌++◌, ◌∷◌, [], OnOk, IfOk, is_some};
ghost use Rattle.std.specs.Prelude.{if◌then◌else◌};
ghost use Rattle.indexmap.specs.IndexMap.{get};

use indexmap::IndexMap;
use std::alloc::AllocError;
use std::hash::Hash;

/// The value that a key has already, or none, and then it has this one.
pub(super) fn note<K: Eq + Hash + Copy, V: Copy>(
    kept: &mut IndexMap<K, V>,
    key: K,
    value: V,
) -> Result<Option<V>, AllocError>
    ensures first { IfOk result (λ first. first ≡ get K.eq kept.old key) }
    ensures kept { OnOk result (kept.new.entries ≡ (if is_some (get K.eq kept.old key)
        then kept.old.entries else kept.old.entries ++ (key, value) ∷ [])) }
{
    match kept.get(&key) {
        Some(first) => Ok(Some(*first)),
        None => {
            kept.insert(key, value)?;
            Ok(None)
        }
    }
}
