//! Checks of many messages at once.

ghost use Rattle.std.specs.Prelude.{◌⊎◌, ◌≡◌, ◌≢◌, None, IfSome, IsSome, length};
ghost use Rattle.dia_c_calls.specs.Batches.{AreEnds, AreVerdicts};
ghost use Rattle.dia_c_calls.specs.Held.{dict_in};
ghost use Rattle.dia_c_calls.specs.Verdicts.{IsUnknownPolicy, limit_of, policy_of};

use crate::batch::are_ends;
use crate::handle::{DictHandle, check_all_in};
use crate::status::{BAD_ARGUMENT, DONE, IS_CLOSED, NO_MEMORY};
use crate::verdict::{Verdict, limit_of, policy_of};
use std::alloc::{AllocError, Global};

/// What `diacmd check` says of each of the messages that follow one another in a buffer.
pub fn check_many(
    alloc: Global,
    handle: &mut DictHandle,
    unknown: u32,
    levels: u32,
    bytes: &[u8],
    ends: &[usize],
    verdicts: &mut [Verdict],
) -> u32
    ensures finishes { (result ≡ DONE) ⊎ (result ≡ NO_MEMORY) ⊎ (result ≡ IS_CLOSED) ⊎ (result ≡ BAD_ARGUMENT) }
    ensures kept { handle.new.slot.seal.held ≡ handle.old.slot.seal.held }
    ensures done { result ≡ DONE → IfSome (dict_in handle.old.slot.seal.held)
        (λ d. AreVerdicts d (policy_of unknown) (limit_of levels) bytes.now ends.now verdicts.new) }
    ensures closed { result ≡ IS_CLOSED → handle.old.slot.seal.held ≡ None }
    ensures was_open { (result ≡ DONE) ⊎ (result ≡ NO_MEMORY) → IsSome (dict_in handle.old.slot.seal.held) }
    ensures bad { result ≡ BAD_ARGUMENT
        → ¬ (IsUnknownPolicy unknown × (length ends.now ≡ length verdicts.old) × AreEnds (length bytes.now) ends.now) }
    ensures good { result ≢ BAD_ARGUMENT
        → IsUnknownPolicy unknown × (length ends.now ≡ length verdicts.old) × AreEnds (length bytes.now) ends.now }
    ensures only { result ≢ DONE → verdicts.new ≡ verdicts.old }
{
    let Some(unknown) = policy_of(unknown) else {
        return BAD_ARGUMENT;
    };
    if ends.len() != verdicts.len() || !are_ends(ends, bytes.len()) {
        return BAD_ARGUMENT;
    }
    let levels = limit_of(levels);
    let Some(mut held) = handle.take(alloc) else {
        return IS_CLOSED;
    };
    let found = check_all_in(alloc, &mut *held, unknown, levels, bytes, ends);
    handle.put(held);
    match found {
        Ok(recorded) => {
            verdicts.copy_from_slice(&recorded);
            DONE
        }
        Err(AllocError) => NO_MEMORY,
    }
}
