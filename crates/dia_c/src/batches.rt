//! Checks of many messages at once.

ghost use Rattle.std.specs.Prelude.{◌⊎◌, ◌≡◌, ◌≢◌, None, IfSome, IsSome, length};
ghost use Rattle.dia_c_calls.specs.Batches.{AreEnds, AreVerdicts};
ghost use Rattle.dia_c_calls.specs.Held.{dict_in};
ghost use Rattle.dia_c_calls.specs.Verdicts.{IsUnknownPolicy, limit_of, policy_of};

use dia_c_calls::{BAD_ARGUMENT, DONE, DictHandle, IS_CLOSED, NO_MEMORY, Verdict};
use std::alloc::Global;

/// What `diacmd check` says of each of the messages that follow one another in a buffer.
#[unsafe(no_mangle)]
pub extern "C" fn dia_check_many(
    alloc: Global,
    handle: &mut DictHandle,
    unknown: u32,
    levels: u32,
    bytes: &[u8],
    ends: &[usize],
    verdicts: &mut [Verdict],
) -> u32
    ensures finishes { (result ≡ DONE) ⊎ (result ≡ NO_MEMORY) ⊎ (result ≡ IS_CLOSED) ⊎ (result ≡ BAD_ARGUMENT) }
    ensures kept { handle.new.slot.seal.held ≡ handle.old.slot.seal.held }
    ensures done { result ≡ DONE → IfSome (dict_in handle.old.slot.seal.held)
        (λ d. AreVerdicts d (policy_of unknown) (limit_of levels) bytes.now ends.now verdicts.new) }
    ensures closed { result ≡ IS_CLOSED → handle.old.slot.seal.held ≡ None }
    ensures was_open { (result ≡ DONE) ⊎ (result ≡ NO_MEMORY) → IsSome (dict_in handle.old.slot.seal.held) }
    ensures bad { result ≡ BAD_ARGUMENT
        → ¬ (IsUnknownPolicy unknown × (length ends.now ≡ length verdicts.old) × AreEnds (length bytes.now) ends.now) }
    ensures good { result ≢ BAD_ARGUMENT
        → IsUnknownPolicy unknown × (length ends.now ≡ length verdicts.old) × AreEnds (length bytes.now) ends.now }
    ensures only { result ≢ DONE → verdicts.new ≡ verdicts.old }
{
    dia_c_calls::check_many(alloc, handle, unknown, levels, bytes, ends, verdicts)
}
