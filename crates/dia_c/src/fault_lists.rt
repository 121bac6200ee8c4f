//! All faults of a dictionary's text, and the lines and columns of places.

ghost use Rattle.std.specs.Prelude.{◌⊎◌, ◌≡◌, ◌≢◌, ◌≤◌, ◌<◌, length, slice_get, None, IsSome, IfSome};
ghost use Rattle.dia_explain_places.specs.Places.{line_at, column_at};
ghost use Rattle.dia_c_calls.specs.AllFaults.{AreFaultsOf};
ghost use Rattle.dia_c_calls.specs.Held.{faults_in};
ghost use Rattle.dia_c_calls.specs.PlainFaults.{IsRecordedFault};

use dia_c_calls::{DONE, FaultsHandle, IS_CLOSED, IS_OPEN, NO_MEMORY, NONE, RecordedFault};
use std::alloc::Global;

/// Finds all faults of a dictionary's text.
#[unsafe(no_mangle)]
pub extern "C" fn dia_faults_open(
    alloc: Global,
    text: &[u8],
    handle: &mut FaultsHandle,
    count: &mut usize,
) -> u32
    ensures ends { (result ≡ DONE) ⊎ (result ≡ NO_MEMORY) ⊎ (result ≡ IS_OPEN) }
    ensures done { result ≡ DONE → IfSome (faults_in handle.new.slot.seal.held) (AreFaultsOf text.now) }
    ensures count { result ≡ DONE → IfSome (faults_in handle.new.slot.seal.held) (λ faults. count.new ≡ length faults) }
    ensures is_open { result ≡ DONE → IsSome (faults_in handle.new.slot.seal.held) }
    ensures kept { result ≢ DONE → handle.new.slot.seal.held ≡ handle.old.slot.seal.held }
    ensures only { result ≢ DONE → count.new ≡ count.old }
    ensures was_closed { result ≢ IS_OPEN → handle.old.slot.seal.held ≡ None }
    ensures was_open { result ≡ IS_OPEN → IsSome handle.old.slot.seal.held }
{
    dia_c_calls::faults_open(alloc, text, handle, count)
}

/// Delivers a fault by its index in the list, from 0.
#[unsafe(no_mangle)]
pub extern "C" fn dia_faults_get(
    alloc: Global,
    handle: &mut FaultsHandle,
    index: usize,
    fault: &mut RecordedFault,
) -> u32
    ensures ends { (result ≡ DONE) ⊎ (result ≡ NONE) ⊎ (result ≡ IS_CLOSED) }
    ensures kept { handle.new.slot.seal.held ≡ handle.old.slot.seal.held }
    ensures done { result ≡ DONE → IfSome (faults_in handle.old.slot.seal.held)
        (λ faults. IfSome (slice_get faults index) (λ f. IsRecordedFault f fault.new)) }
    ensures some { result ≡ DONE → IfSome (faults_in handle.old.slot.seal.held) (λ faults. index < length faults) }
    ensures none { result ≡ NONE → IfSome (faults_in handle.old.slot.seal.held) (λ faults. length faults ≤ index) }
    ensures only { result ≢ DONE → fault.new ≡ fault.old }
    ensures closed { result ≡ IS_CLOSED → handle.old.slot.seal.held ≡ None }
    ensures was_open { result ≢ IS_CLOSED → IsSome (faults_in handle.old.slot.seal.held) }
{
    dia_c_calls::faults_get(alloc, handle, index, fault)
}

/// Lets the faults go, if the handle has some.
#[unsafe(no_mangle)]
pub extern "C" fn dia_faults_close(alloc: Global, handle: &mut FaultsHandle)
    ensures closed { handle.new.slot.seal.held ≡ None }
{
    dia_c_calls::faults_close(alloc, handle);
}

/// The line and the column of a place of a text.
#[unsafe(no_mangle)]
pub extern "C" fn dia_line_column(text: &[u8], at: usize, line: &mut usize, column: &mut usize)
    ensures line { line.new ≡ line_at text.now at }
    ensures column { column.new ≡ column_at text.now at }
{
    dia_c_calls::line_column(text, at, line, column);
}
