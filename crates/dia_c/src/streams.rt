//! Messages that come in pieces: opened, fed, asked, finished, closed.

ghost use Rattle.std.specs.Prelude.{◌⊎◌, ◌≡◌, ◌≢◌, ◌↔◌, [], None, IfSome, IsSome};
ghost use Rattle.dia_c_calls.specs.Held.{Denotes, IsCheckedBy, dict_in};
ghost use Rattle.dia_c_calls.specs.Streams.{HasFed, HasFinished, HasLevels, IsKept, IsSpent, OpensIn, DenotesNone};
ghost use Rattle.dia_c_calls.specs.Streams.{BeginsAgain, IsCheckedAlike};
ghost use Rattle.dia_c_calls.specs.Verdicts.{IsUnknownPolicy, limit_of, policy_of};

use dia_c_calls::{
    BAD_ARGUMENT, DONE, DictHandle, Fed, IS_CLOSED, IS_OPEN, NO_MEMORY, SPENT, StreamHandle,
    Verdict,
};
use std::alloc::Global;

/// Begins a message that is checked by a dictionary.
#[unsafe(no_mangle)]
pub extern "C" fn dia_stream_open(
    alloc: Global,
    handle: &mut DictHandle,
    unknown: u32,
    levels: u32,
    stream: &mut StreamHandle,
) -> u32
    ensures ends { (result ≡ DONE) ⊎ (result ≡ NO_MEMORY) ⊎ (result ≡ IS_OPEN) ⊎ (result ≡ IS_CLOSED) ⊎ (result ≡ BAD_ARGUMENT) }
    ensures kept_dict { handle.new.slot.seal.held ≡ handle.old.slot.seal.held }
    ensures done { result ≡ DONE → IfSome (dict_in handle.old.slot.seal.held)
        (λ d. Denotes stream.new.slot.seal.held d (policy_of unknown) (limit_of levels) []) }
    ensures checked_by { result ≡ DONE → IfSome (dict_in handle.old.slot.seal.held)
        (λ d. IsCheckedBy stream.new.slot.seal.held d (policy_of unknown) (limit_of levels)) }
    ensures kept { result ≢ DONE → stream.new.slot.seal.held ≡ stream.old.slot.seal.held }
    ensures was_closed { result ≢ IS_OPEN → result ≢ BAD_ARGUMENT → stream.old.slot.seal.held ≡ None }
    ensures was_open { result ≡ IS_OPEN → IsSome stream.old.slot.seal.held }
    ensures closed { result ≡ IS_CLOSED → handle.old.slot.seal.held ≡ None }
    ensures dict_is_open { (result ≡ DONE) ⊎ (result ≡ NO_MEMORY) → IsSome (dict_in handle.old.slot.seal.held) }
    ensures bad { result ≡ BAD_ARGUMENT → ¬ IsUnknownPolicy unknown }
    ensures good { result ≢ BAD_ARGUMENT → IsUnknownPolicy unknown }
{
    dia_c_calls::stream_open(alloc, handle, unknown, levels, stream)
}

/// Takes the next piece of the message, as far as it belongs to it.
#[unsafe(no_mangle)]
pub extern "C" fn dia_stream_feed(
    alloc: Global,
    stream: &mut StreamHandle,
    piece: &[u8],
    fed: &mut Fed,
) -> u32
    ensures ends { (result ≡ DONE) ⊎ (result ≡ NO_MEMORY) ⊎ (result ≡ IS_CLOSED) ⊎ (result ≡ SPENT) }
    ensures done { result ≡ DONE → HasFed stream.old.slot.seal.held stream.new.slot.seal.held piece.now fed.new }
    ensures no_memory { result ≡ NO_MEMORY → OpensIn stream.old.slot.seal.held piece.now }
    ensures spent { (result ≡ SPENT) ↔ IsSpent stream.old.slot.seal.held }
    ensures goes_on { result ≡ DONE → ¬ IsSpent stream.new.slot.seal.held }
    ensures refused { (result ≡ NO_MEMORY) ⊎ (result ≡ SPENT) → IsSpent stream.new.slot.seal.held }
    ensures nothing { result ≡ SPENT → DenotesNone stream.old.slot.seal.held }
    ensures alike { IsCheckedAlike stream.old.slot.seal.held stream.new.slot.seal.held }
    ensures is_open { result ≢ IS_CLOSED → IsSome stream.new.slot.seal.held }
    ensures only { result ≢ DONE → fed.new ≡ fed.old }
    ensures closed { result ≡ IS_CLOSED → (stream.old.slot.seal.held ≡ None) × (stream.new.slot.seal.held ≡ None) }
    ensures was_open { result ≢ IS_CLOSED → IsSome stream.old.slot.seal.held }
{
    dia_c_calls::stream_feed(alloc, stream, piece, fed)
}

/// How many levels are open.
#[unsafe(no_mangle)]
pub extern "C" fn dia_stream_levels(
    alloc: Global,
    stream: &mut StreamHandle,
    levels: &mut usize,
) -> u32
    ensures ends { (result ≡ DONE) ⊎ (result ≡ IS_CLOSED) }
    ensures done { result ≡ DONE → HasLevels stream.old.slot.seal.held levels.new }
    ensures kept { IsKept stream.old.slot.seal.held stream.new.slot.seal.held }
    ensures alike { IsCheckedAlike stream.old.slot.seal.held stream.new.slot.seal.held }
    ensures spent { IsSpent stream.new.slot.seal.held ↔ IsSpent stream.old.slot.seal.held }
    ensures only { result ≡ IS_CLOSED → levels.new ≡ levels.old }
    ensures closed { result ≡ IS_CLOSED → (stream.old.slot.seal.held ≡ None) × (stream.new.slot.seal.held ≡ None) }
    ensures was_open { result ≡ DONE → IsSome stream.old.slot.seal.held × IsSome stream.new.slot.seal.held }
{
    dia_c_calls::stream_levels(alloc, stream, levels)
}

/// What `diacmd check` says of the bytes that came, and lets the message go.
#[unsafe(no_mangle)]
pub extern "C" fn dia_stream_finish(
    alloc: Global,
    stream: &mut StreamHandle,
    verdict: &mut Verdict,
) -> u32
    ensures ends { (result ≡ DONE) ⊎ (result ≡ IS_CLOSED) ⊎ (result ≡ SPENT) }
    ensures done { result ≡ DONE → HasFinished stream.old.slot.seal.held verdict.new }
    ensures spent { IsSpent stream.old.slot.seal.held → result ≡ SPENT }
    ensures nothing { result ≡ SPENT → DenotesNone stream.old.slot.seal.held }
    ensures is_closed { stream.new.slot.seal.held ≡ None }
    ensures only { result ≢ DONE → verdict.new ≡ verdict.old }
    ensures closed { result ≡ IS_CLOSED → stream.old.slot.seal.held ≡ None }
    ensures was_open { result ≢ IS_CLOSED → IsSome stream.old.slot.seal.held }
{
    dia_c_calls::stream_finish(alloc, stream, verdict)
}

/// What `diacmd check` says of the bytes that came; and begins the next message, which is checked by the same.
#[unsafe(no_mangle)]
pub extern "C" fn dia_stream_again(
    alloc: Global,
    stream: &mut StreamHandle,
    verdict: &mut Verdict,
) -> u32
    ensures ends { (result ≡ DONE) ⊎ (result ≡ IS_CLOSED) ⊎ (result ≡ SPENT) }
    ensures done { result ≡ DONE → HasFinished stream.old.slot.seal.held verdict.new }
    ensures begins { BeginsAgain stream.old.slot.seal.held stream.new.slot.seal.held }
    ensures spent { IsSpent stream.old.slot.seal.held → result ≡ SPENT }
    ensures nothing { result ≡ SPENT → DenotesNone stream.old.slot.seal.held }
    ensures goes_on { ¬ IsSpent stream.new.slot.seal.held }
    ensures is_open { result ≢ IS_CLOSED → IsSome stream.new.slot.seal.held }
    ensures only { result ≢ DONE → verdict.new ≡ verdict.old }
    ensures closed { result ≡ IS_CLOSED → (stream.old.slot.seal.held ≡ None) × (stream.new.slot.seal.held ≡ None) }
    ensures was_open { result ≢ IS_CLOSED → IsSome stream.old.slot.seal.held }
{
    dia_c_calls::stream_again(alloc, stream, verdict)
}

/// Lets the message go, if the handle has one.
#[unsafe(no_mangle)]
pub extern "C" fn dia_stream_close(alloc: Global, stream: &mut StreamHandle)
    ensures closed { stream.new.slot.seal.held ≡ None }
{
    dia_c_calls::stream_close(alloc, stream);
}
