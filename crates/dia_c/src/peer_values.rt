//! What an end of a connection learns of the other.

ghost use Rattle.std.specs.Prelude.{◌⊎◌, ◌≡◌, ◌≢◌, ◌<◌, ◌≤◌, drop, length, take, IfSome, IsSome, None, Some};
ghost use Rattle.dia_c_calls.specs.Held.{peer_in};
ghost use Rattle.dia_c_calls.specs.PeerValues.{HasSaid, HasSaidBytes, Hears, IsValueNumber, SuspectAs};

use dia_c_calls::{BAD_ARGUMENT, DONE, IS_CLOSED, NO_ROOM, NONE, PeerHandle};
use std::alloc::Global;

/// Reports that a message of an application came, which isn't delivered to the end.
#[unsafe(no_mangle)]
pub extern "C" fn dia_peer_heard(alloc: Global, handle: &mut PeerHandle) -> u32
    ensures ends { (result ≡ DONE) ⊎ (result ≡ IS_CLOSED) }
    ensures done { result ≡ DONE → IfSome (peer_in handle.old.slot.seal.held)
        (λ old. IfSome (peer_in handle.new.slot.seal.held) (Hears old)) }
    ensures is_open { result ≡ DONE → IsSome (peer_in handle.new.slot.seal.held) }
    ensures was_open { result ≡ DONE → IsSome (peer_in handle.old.slot.seal.held) }
    ensures closed { result ≡ IS_CLOSED → handle.old.slot.seal.held ≡ None }
    ensures kept { result ≡ IS_CLOSED → handle.new.slot.seal.held ≡ handle.old.slot.seal.held }
{
    dia_c_calls::peer_heard(alloc, handle)
}

/// Delivers whether the connection is suspect: 1, or 0 where it isn't.
#[unsafe(no_mangle)]
pub extern "C" fn dia_peer_suspect(alloc: Global, handle: &mut PeerHandle, suspect: &mut u32) -> u32
    ensures ends { (result ≡ DONE) ⊎ (result ≡ IS_CLOSED) }
    ensures kept { handle.new.slot.seal.held ≡ handle.old.slot.seal.held }
    ensures done { result ≡ DONE → IfSome (peer_in handle.old.slot.seal.held) (λ peer. SuspectAs peer suspect.new) }
    ensures closed { result ≡ IS_CLOSED → handle.old.slot.seal.held ≡ None }
    ensures was_open { result ≡ DONE → IsSome (peer_in handle.old.slot.seal.held) }
    ensures only { result ≡ IS_CLOSED → suspect.new ≡ suspect.old }
{
    dia_c_calls::peer_suspect(alloc, handle, suspect)
}

/// Copies out what the other end said of itself, by its number, where there is room for all of it.
#[unsafe(no_mangle)]
pub extern "C" fn dia_peer_value(
    alloc: Global,
    handle: &mut PeerHandle,
    which: u32,
    out: &mut [u8],
    count: &mut usize,
) -> u32
    ensures ends { (result ≡ DONE) ⊎ (result ≡ NONE) ⊎ (result ≡ NO_ROOM) ⊎ (result ≡ IS_CLOSED) ⊎ (result ≡ BAD_ARGUMENT) }
    ensures kept { handle.new.slot.seal.held ≡ handle.old.slot.seal.held }
    ensures done { result ≡ DONE → IfSome (peer_in handle.old.slot.seal.held)
        (λ peer. HasSaid which peer (Some (take count.new out.new))) }
    ensures count { result ≡ DONE → count.new ≤ length out.new }
    ensures none { result ≡ NONE → IfSome (peer_in handle.old.slot.seal.held) (λ peer. HasSaid which peer None) }
    ensures room { result ≡ NO_ROOM → length out.new < count.new }
    ensures wanted { result ≡ NO_ROOM → IfSome (peer_in handle.old.slot.seal.held) (HasSaidBytes which count.new) }
    ensures only { result ≢ DONE → result ≢ NO_ROOM → count.new ≡ count.old }
    ensures rest { result ≡ DONE → drop count.new out.new ≡ drop count.new out.old }
    ensures untouched { result ≢ DONE → out.new ≡ out.old }
    ensures closed { result ≡ IS_CLOSED → handle.old.slot.seal.held ≡ None }
    ensures was_open { result ≢ IS_CLOSED → result ≢ BAD_ARGUMENT → IsSome (peer_in handle.old.slot.seal.held) }
    ensures bad { result ≡ BAD_ARGUMENT → ¬ IsValueNumber which }
    ensures good { result ≢ BAD_ARGUMENT → IsValueNumber which }
{
    dia_c_calls::peer_value(alloc, handle, which, out, count)
}
