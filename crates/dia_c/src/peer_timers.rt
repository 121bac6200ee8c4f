//! What the timer of a connection does, and identifiers for requests of the caller's own.

ghost use Rattle.std.specs.Prelude.{◌⊎◌, ◌≡◌, ◌↔◌, IfSome, IsSome, None};
ghost use Rattle.dia_peer.specs.Timers.{IsQuietTime};
ghost use Rattle.dia_c_calls.specs.Held.{peer_in};
ghost use Rattle.dia_c_calls.specs.PeerTimers.{AreStepNumbers, IsTimerOf, TakesIds};

use dia_c_calls::{BAD_ARGUMENT, DONE, IS_CLOSED, PeerHandle};
use std::alloc::Global;

/// Takes the next identifiers of the end, for a request of the caller's own.
#[unsafe(no_mangle)]
pub extern "C" fn dia_peer_identifiers(
    alloc: Global,
    handle: &mut PeerHandle,
    hop: &mut u32,
    e2e: &mut u32,
) -> u32
    ensures ends { (result ≡ DONE) ⊎ (result ≡ IS_CLOSED) }
    ensures done { result ≡ DONE → IfSome (peer_in handle.old.slot.seal.held)
        (λ old. IfSome (peer_in handle.new.slot.seal.held) (TakesIds hop.new e2e.new old)) }
    ensures is_open { result ≡ DONE → IsSome (peer_in handle.new.slot.seal.held) }
    ensures was_open { result ≡ DONE → IsSome (peer_in handle.old.slot.seal.held) }
    ensures closed { result ≡ IS_CLOSED → handle.old.slot.seal.held ≡ None }
    ensures kept { result ≡ IS_CLOSED → handle.new.slot.seal.held ≡ handle.old.slot.seal.held }
    ensures only { result ≡ IS_CLOSED → (hop.new ≡ hop.old) × (e2e.new ≡ e2e.old) }
{
    dia_c_calls::peer_identifiers(alloc, handle, hop, e2e)
}

/// Delivers what the timer of a connection does after a step, by the numbers of the states around it and of the event.
#[unsafe(no_mangle)]
pub extern "C" fn dia_peer_timer(before: u32, event: u32, after: u32, timer: &mut u32) -> u32
    ensures ends { (result ≡ DONE) ⊎ (result ≡ BAD_ARGUMENT) }
    ensures done { result ≡ DONE → IsTimerOf before event after timer.new }
    ensures bad { (result ≡ BAD_ARGUMENT) ↔ (¬ AreStepNumbers before event after) }
    ensures only { result ≡ BAD_ARGUMENT → timer.new ≡ timer.old }
{
    dia_c_calls::peer_timer(before, event, after, timer)
}

/// How long a connection may be quiet before a watchdog, in milliseconds.
#[unsafe(no_mangle)]
pub extern "C" fn dia_peer_quiet_ms(tw: u32, drawn: u32) -> u64
    ensures { IsQuietTime tw drawn result }
{
    dia_c_calls::peer_quiet_ms(tw, drawn)
}
