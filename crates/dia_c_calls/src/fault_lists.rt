//! All faults of a dictionary's text, and the lines and columns of places.

ghost use Rattle.std.specs.Prelude.{◌⊎◌, ◌≡◌, ◌≢◌, ◌≤◌, ◌<◌, length, slice_get, None, Some, IsSome, IfSome, IfOk};
ghost use Rattle.dia_explain_places.specs.Places.{line_at, column_at};
ghost use Rattle.dia_c_calls.specs.AllFaults.{AreFaultsOf};
ghost use Rattle.dia_c_calls.specs.Held.{MayBeFaults, faults_in};
ghost use Rattle.dia_c_calls.specs.PlainFaults.{IsRecordedFault};

use crate::findings::faults_of;
use crate::handle::{FaultsHandle, faults_in};
use crate::held::Held;
use crate::recorded_fault::{RecordedFault, recorded_at};
use crate::status::{DONE, IS_CLOSED, IS_OPEN, NO_MEMORY, NONE};
use dia_explain_places::place_of;
use std::alloc::{AllocError, Global};

/// Finds all faults of a dictionary's text.
pub fn faults_open(alloc: Global, text: &[u8], handle: &mut FaultsHandle, count: &mut usize) -> u32
    ensures ends { (result ≡ DONE) ⊎ (result ≡ NO_MEMORY) ⊎ (result ≡ IS_OPEN) }
    ensures done { result ≡ DONE → IfSome (faults_in handle.new.slot.seal.held) (AreFaultsOf text.now) }
    ensures count { result ≡ DONE → IfSome (faults_in handle.new.slot.seal.held) (λ faults. count.new ≡ length faults) }
    ensures is_open { result ≡ DONE → IsSome (faults_in handle.new.slot.seal.held) }
    ensures kept { result ≢ DONE → handle.new.slot.seal.held ≡ handle.old.slot.seal.held }
    ensures only { result ≢ DONE → count.new ≡ count.old }
    ensures was_closed { result ≢ IS_OPEN → handle.old.slot.seal.held ≡ None }
    ensures was_open { result ≡ IS_OPEN → IsSome handle.old.slot.seal.held }
{
    if handle.is_open() {
        return IS_OPEN;
    }
    match found(alloc, text) {
        Ok(held) => {
            *count = faults_in(&held).len();
            handle.put(held);
            DONE
        }
        Err(AllocError) => NO_MEMORY,
    }
}

/// All faults of a text.
fn found(alloc: Global, text: &[u8]) -> Result<Box<Held>, AllocError>
    ensures { IfOk result (λ held. (∥ MayBeFaults (Some held.value) ∥₁) × IsSome (faults_in (Some held.value))
        × IfSome (faults_in (Some held.value)) (AreFaultsOf text.now)) }
{
    let faults = faults_of(alloc, text)?;
    Ok(Box::new(alloc, Held::Faults(faults))?)
}

/// Delivers a fault by its index in the list, from 0.
pub fn faults_get(
    alloc: Global,
    handle: &mut FaultsHandle,
    index: usize,
    fault: &mut RecordedFault,
) -> u32
    ensures ends { (result ≡ DONE) ⊎ (result ≡ NONE) ⊎ (result ≡ IS_CLOSED) }
    ensures kept { handle.new.slot.seal.held ≡ handle.old.slot.seal.held }
    ensures done { result ≡ DONE → IfSome (faults_in handle.old.slot.seal.held)
        (λ faults. IfSome (slice_get faults index) (λ f. IsRecordedFault f fault.new)) }
    ensures some { result ≡ DONE → IfSome (faults_in handle.old.slot.seal.held) (λ faults. index < length faults) }
    ensures none { result ≡ NONE → IfSome (faults_in handle.old.slot.seal.held) (λ faults. length faults ≤ index) }
    ensures only { result ≢ DONE → fault.new ≡ fault.old }
    ensures closed { result ≡ IS_CLOSED → handle.old.slot.seal.held ≡ None }
    ensures was_open { result ≢ IS_CLOSED → IsSome (faults_in handle.old.slot.seal.held) }
{
    let Some(held) = handle.take(alloc) else {
        return IS_CLOSED;
    };
    let found = recorded_at(faults_in(&held).as_slice(), index);
    handle.put(held);
    match found {
        Some(recorded) => {
            *fault = recorded;
            DONE
        }
        None => NONE,
    }
}

/// Lets the faults go, if the handle has some.
pub fn faults_close(alloc: Global, handle: &mut FaultsHandle)
    ensures closed { handle.new.slot.seal.held ≡ None }
{
    drop(handle.take(alloc));
}

/// The line and the column of a place of a text.
pub fn line_column(text: &[u8], at: usize, line: &mut usize, column: &mut usize)
    ensures line { line.new ≡ line_at text.now at }
    ensures column { column.new ≡ column_at text.now at }
{
    let place = place_of(text, at);
    *line = place.line;
    *column = place.column;
}
