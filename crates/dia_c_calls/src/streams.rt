//! Messages that come in pieces: opened, fed, asked, finished, closed.

ghost use Rattle.std.specs.Prelude.{◌⊎◌, ◌≡◌, ◌≢◌, ◌↔◌, [], None, IfOk, IfSome, IsSome, Some};
ghost use Rattle.dia_c_calls.specs.Held.{MayBeStream, Denotes, IsCheckedBy, dict_in};
ghost use Rattle.dia_c_calls.specs.Streams.{HasFed, HasFinished, HasLevels, IsKept, IsSpent, OpensIn, DenotesNone};
ghost use Rattle.dia_c_calls.specs.Streams.{BeginsAgain, IsCheckedAlike, fed_of};
ghost use Rattle.dia_c_calls.specs.Verdicts.{IsUnknownPolicy, limit_of, policy_of};

use crate::feeding::Feeding;
use crate::handle::{DictHandle, StreamHandle, feeding_in, owner_in};
use crate::held::Held;
use crate::status::{BAD_ARGUMENT, DONE, IS_CLOSED, IS_OPEN, NO_MEMORY, SPENT};
use crate::verdict::{Unrecorded, Verdict, limit_of, policy_of, verdict_of};
use dia_book::Book;
use dia_check::{Levels, Progress, StreamFault, Unknown};
use dia_dict::IndexedBook;
use std::alloc::{AllocError, Global};
use std::sync::Arc;

/// What was done with a piece.
#[repr(C)]
#[derive(Clone, Copy, PartialEq, Eq)]
pub struct Fed {
    /// How many of its first bytes belong to the message.
    pub taken: usize,
    /// 1 where the message takes no more, else 0.
    pub done: u32,
}

/// Begins a message that is checked by a dictionary.
pub fn stream_open(
    alloc: Global,
    handle: &mut DictHandle,
    unknown: u32,
    levels: u32,
    stream: &mut StreamHandle,
) -> u32
    ensures ends { (result ≡ DONE) ⊎ (result ≡ NO_MEMORY) ⊎ (result ≡ IS_OPEN) ⊎ (result ≡ IS_CLOSED) ⊎ (result ≡ BAD_ARGUMENT) }
    ensures kept_dict { handle.new.slot.seal.held ≡ handle.old.slot.seal.held }
    ensures done { result ≡ DONE → IfSome (dict_in handle.old.slot.seal.held)
        (λ d. Denotes stream.new.slot.seal.held d (policy_of unknown) (limit_of levels) []) }
    ensures checked_by { result ≡ DONE → IfSome (dict_in handle.old.slot.seal.held)
        (λ d. IsCheckedBy stream.new.slot.seal.held d (policy_of unknown) (limit_of levels)) }
    ensures kept { result ≢ DONE → stream.new.slot.seal.held ≡ stream.old.slot.seal.held }
    ensures was_closed { result ≢ IS_OPEN → result ≢ BAD_ARGUMENT → stream.old.slot.seal.held ≡ None }
    ensures was_open { result ≡ IS_OPEN → IsSome stream.old.slot.seal.held }
    ensures closed { result ≡ IS_CLOSED → handle.old.slot.seal.held ≡ None }
    ensures dict_is_open { (result ≡ DONE) ⊎ (result ≡ NO_MEMORY) → IsSome (dict_in handle.old.slot.seal.held) }
    ensures bad { result ≡ BAD_ARGUMENT → ¬ IsUnknownPolicy unknown }
    ensures good { result ≢ BAD_ARGUMENT → IsUnknownPolicy unknown }
{
    let Some(unknown) = policy_of(unknown) else {
        return BAD_ARGUMENT;
    };
    let levels = limit_of(levels);
    if stream.is_open() {
        return IS_OPEN;
    }
    let Some(held) = handle.take(alloc) else {
        return IS_CLOSED;
    };
    let made = begun(alloc, owner_in(&held), unknown, levels);
    handle.put(held);
    match made {
        Ok(made) => {
            stream.put(made);
            DONE
        }
        Err(AllocError) => NO_MEMORY,
    }
}

/// A message of which nothing came, beside another owner of its dictionary.
fn begun(
    alloc: Global,
    owner: &Arc<IndexedBook>,
    unknown: Unknown,
    levels: Levels,
) -> Result<Box<Held>, AllocError>
    ensures occurs { IfOk result (λ held. Denotes (Some held.value)
        (⟦<IndexedBook as Book>⟧.meaning owner.now.value) unknown levels []) }
    ensures checked_by { IfOk result (λ held. IsCheckedBy (Some held.value)
        (⟦<IndexedBook as Book>⟧.meaning owner.now.value) unknown levels) }
    ensures is_stream { IfOk result (λ held. ∥ MayBeStream (Some held.value) ∥₁) }
{
    let other = Arc::try_clone(owner)?;
    let feeding = Feeding::new(alloc, other, unknown, levels);
    Ok(Box::new(alloc, Held::Stream(feeding))?)
}

/// Takes the next piece of the message, as far as it belongs to it.
pub fn stream_feed(alloc: Global, stream: &mut StreamHandle, piece: &[u8], fed: &mut Fed) -> u32
    ensures ends { (result ≡ DONE) ⊎ (result ≡ NO_MEMORY) ⊎ (result ≡ IS_CLOSED) ⊎ (result ≡ SPENT) }
    ensures done { result ≡ DONE → HasFed stream.old.slot.seal.held stream.new.slot.seal.held piece.now fed.new }
    ensures no_memory { result ≡ NO_MEMORY → OpensIn stream.old.slot.seal.held piece.now }
    ensures spent { (result ≡ SPENT) ↔ IsSpent stream.old.slot.seal.held }
    ensures goes_on { result ≡ DONE → ¬ IsSpent stream.new.slot.seal.held }
    ensures refused { (result ≡ NO_MEMORY) ⊎ (result ≡ SPENT) → IsSpent stream.new.slot.seal.held }
    ensures nothing { result ≡ SPENT → DenotesNone stream.old.slot.seal.held }
    ensures alike { IsCheckedAlike stream.old.slot.seal.held stream.new.slot.seal.held }
    ensures is_open { result ≢ IS_CLOSED → IsSome stream.new.slot.seal.held }
    ensures only { result ≢ DONE → fed.new ≡ fed.old }
    ensures closed { result ≡ IS_CLOSED → (stream.old.slot.seal.held ≡ None) × (stream.new.slot.seal.held ≡ None) }
    ensures was_open { result ≢ IS_CLOSED → IsSome stream.old.slot.seal.held }
{
    let Some(mut held) = stream.take(alloc) else {
        return IS_CLOSED;
    };
    let (feeding, answer) = feeding_in(&mut held).fed(piece);
    Box::replace(&mut held, Held::Stream(feeding));
    stream.put(held);
    match answer {
        Ok(progress) => {
            *fed = fed_of(progress);
            DONE
        }
        Err(fault) => match fault {
            StreamFault::NoMemory => NO_MEMORY,
            StreamFault::Spent => SPENT,
        },
    }
}

fn fed_of(progress: Progress) -> Fed
    ensures { result ≡ fed_of progress }
{
    Fed {
        taken: progress.taken,
        done: if progress.done { 1 } else { 0 },
    }
}

/// How many levels are open.
pub fn stream_levels(alloc: Global, stream: &mut StreamHandle, levels: &mut usize) -> u32
    ensures ends { (result ≡ DONE) ⊎ (result ≡ IS_CLOSED) }
    ensures done { result ≡ DONE → HasLevels stream.old.slot.seal.held levels.new }
    ensures kept { IsKept stream.old.slot.seal.held stream.new.slot.seal.held }
    ensures alike { IsCheckedAlike stream.old.slot.seal.held stream.new.slot.seal.held }
    ensures spent { IsSpent stream.new.slot.seal.held ↔ IsSpent stream.old.slot.seal.held }
    ensures only { result ≡ IS_CLOSED → levels.new ≡ levels.old }
    ensures closed { result ≡ IS_CLOSED → (stream.old.slot.seal.held ≡ None) × (stream.new.slot.seal.held ≡ None) }
    ensures was_open { result ≡ DONE → IsSome stream.old.slot.seal.held × IsSome stream.new.slot.seal.held }
{
    let Some(mut held) = stream.take(alloc) else {
        return IS_CLOSED;
    };
    let (feeding, count) = feeding_in(&mut held).counted();
    Box::replace(&mut held, Held::Stream(feeding));
    stream.put(held);
    *levels = count;
    DONE
}

/// What `diacmd check` says of the bytes that came, and lets the message go.
pub fn stream_finish(alloc: Global, stream: &mut StreamHandle, verdict: &mut Verdict) -> u32
    ensures ends { (result ≡ DONE) ⊎ (result ≡ IS_CLOSED) ⊎ (result ≡ SPENT) }
    ensures done { result ≡ DONE → HasFinished stream.old.slot.seal.held verdict.new }
    ensures spent { IsSpent stream.old.slot.seal.held → result ≡ SPENT }
    ensures nothing { result ≡ SPENT → DenotesNone stream.old.slot.seal.held }
    ensures is_closed { stream.new.slot.seal.held ≡ None }
    ensures only { result ≢ DONE → verdict.new ≡ verdict.old }
    ensures closed { result ≡ IS_CLOSED → stream.old.slot.seal.held ≡ None }
    ensures was_open { result ≢ IS_CLOSED → IsSome stream.old.slot.seal.held }
{
    let Some(mut held) = stream.take(alloc) else {
        return IS_CLOSED;
    };
    match verdict_of(feeding_in(&mut held).finished()) {
        Ok(recorded) => {
            *verdict = recorded;
            DONE
        }
        Err(Unrecorded::Spent) => SPENT,
        Err(Unrecorded::NoMemory) => unreachable!(),
    }
}

/// What `diacmd check` says of the bytes that came; and begins the next message, which is checked by the same.
pub fn stream_again(alloc: Global, stream: &mut StreamHandle, verdict: &mut Verdict) -> u32
    ensures ends { (result ≡ DONE) ⊎ (result ≡ IS_CLOSED) ⊎ (result ≡ SPENT) }
    ensures done { result ≡ DONE → HasFinished stream.old.slot.seal.held verdict.new }
    ensures begins { BeginsAgain stream.old.slot.seal.held stream.new.slot.seal.held }
    ensures spent { IsSpent stream.old.slot.seal.held → result ≡ SPENT }
    ensures nothing { result ≡ SPENT → DenotesNone stream.old.slot.seal.held }
    ensures goes_on { ¬ IsSpent stream.new.slot.seal.held }
    ensures is_open { result ≢ IS_CLOSED → IsSome stream.new.slot.seal.held }
    ensures only { result ≢ DONE → verdict.new ≡ verdict.old }
    ensures closed { result ≡ IS_CLOSED → (stream.old.slot.seal.held ≡ None) × (stream.new.slot.seal.held ≡ None) }
    ensures was_open { result ≢ IS_CLOSED → IsSome stream.old.slot.seal.held }
{
    let Some(mut held) = stream.take(alloc) else {
        return IS_CLOSED;
    };
    let (feeding, answer) = feeding_in(&mut held).again(alloc);
    Box::replace(&mut held, Held::Stream(feeding));
    stream.put(held);
    match verdict_of(answer) {
        Ok(recorded) => {
            *verdict = recorded;
            DONE
        }
        Err(Unrecorded::Spent) => SPENT,
        Err(Unrecorded::NoMemory) => unreachable!(),
    }
}

/// Lets the message go, if the handle has one.
pub fn stream_close(alloc: Global, stream: &mut StreamHandle)
    ensures closed { stream.new.slot.seal.held ≡ None }
{
    drop(stream.take(alloc));
}
