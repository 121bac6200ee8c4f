//! One end of a connection: it takes events, gives outputs, and is closed.

ghost use Rattle.std.specs.Prelude.{◌⊎◌, ◌≡◌, ◌≢◌, ◌<◌, ◌≤◌, [], drop, length, slice_get, take, IfSome, IsSome, None};
ghost use Rattle.dia_peer.specs.Outputs.{PlainOutput};
ghost use Rattle.dia_c_calls.specs.Held.{Takes, peer_in};
ghost use Rattle.dia_c_calls.specs.Peers.{ServesAs, recorded_pair};
ghost use Rattle.dia_c_calls.specs.PeerSteps.{HasHappened, IsEventNumber, IsRecordedOutput, WantsRoom, state_number};

use dia_c_calls::{
    BAD_ARGUMENT, DONE, IS_CLOSED, NO_MEMORY, NO_ROOM, NONE, OUTPUTS_LEFT, PeerApp, PeerHandle,
};
use std::alloc::Global;

/// Delivers an event to an end.
#[unsafe(no_mangle)]
pub extern "C" fn dia_peer_event(
    alloc: Global,
    handle: &mut PeerHandle,
    event: u32,
    bytes: &[u8],
    cause: u32,
) -> u32
    ensures ends { (result ≡ DONE) ⊎ (result ≡ NO_MEMORY) ⊎ (result ≡ OUTPUTS_LEFT) ⊎ (result ≡ IS_CLOSED)
        ⊎ (result ≡ BAD_ARGUMENT) }
    ensures done { result ≡ DONE → IfSome (peer_in handle.old.slot.seal.held)
        (λ old. IfSome (peer_in handle.new.slot.seal.held) (HasHappened event bytes.now cause old)) }
    ensures is_open { result ≡ DONE → IsSome (peer_in handle.new.slot.seal.held) }
    ensures kept { result ≢ DONE → handle.new.slot.seal.held ≡ handle.old.slot.seal.held }
    ensures left { result ≡ OUTPUTS_LEFT → IfSome (peer_in handle.old.slot.seal.held) (λ old. old.left ≢ []) }
    ensures none_left { result ≡ NO_MEMORY → IfSome (peer_in handle.old.slot.seal.held) (λ old. old.left ≡ []) }
    ensures closed { result ≡ IS_CLOSED → handle.old.slot.seal.held ≡ None }
    ensures was_open { result ≢ IS_CLOSED → result ≢ BAD_ARGUMENT → IsSome (peer_in handle.old.slot.seal.held) }
    ensures bad { result ≡ BAD_ARGUMENT → ¬ IsEventNumber event cause }
    ensures good { result ≢ BAD_ARGUMENT → IsEventNumber event cause }
{
    dia_c_calls::peer_event(alloc, handle, event, bytes, cause)
}

/// Takes the next output of an end.
#[unsafe(no_mangle)]
pub extern "C" fn dia_peer_output(
    alloc: Global,
    handle: &mut PeerHandle,
    output: &mut u32,
    out: &mut [u8],
    count: &mut usize,
    why: &mut u32,
) -> u32
    ensures ends { (result ≡ DONE) ⊎ (result ≡ NONE) ⊎ (result ≡ NO_ROOM) ⊎ (result ≡ IS_CLOSED) }
    ensures done { result ≡ DONE → (taken : PlainOutput)
        × Takes (peer_in handle.old.slot.seal.held) (peer_in handle.new.slot.seal.held) taken
        × IsRecordedOutput taken output.new (take count.new out.new) why.new }
    ensures count { result ≡ DONE → count.new ≤ length out.new }
    ensures is_open { result ≡ DONE → IsSome (peer_in handle.new.slot.seal.held) }
    ensures kept { result ≢ DONE → handle.new.slot.seal.held ≡ handle.old.slot.seal.held }
    ensures none { result ≡ NONE → IfSome (peer_in handle.old.slot.seal.held) (λ old. old.left ≡ []) }
    ensures room { result ≡ NO_ROOM → length out.new < count.new }
    ensures wanted { result ≡ NO_ROOM → IfSome (peer_in handle.old.slot.seal.held) (WantsRoom count.new) }
    ensures only { result ≢ DONE → (output.new ≡ output.old) × (why.new ≡ why.old) }
    ensures only_count { (result ≡ NONE) ⊎ (result ≡ IS_CLOSED) → count.new ≡ count.old }
    ensures rest { result ≡ DONE → drop count.new out.new ≡ drop count.new out.old }
    ensures untouched { result ≢ DONE → out.new ≡ out.old }
    ensures closed { result ≡ IS_CLOSED → handle.old.slot.seal.held ≡ None }
    ensures was_open { result ≢ IS_CLOSED → IsSome (peer_in handle.old.slot.seal.held) }
{
    dia_c_calls::peer_output(alloc, handle, output, out, count, why)
}

/// The state of the connection.
#[unsafe(no_mangle)]
pub extern "C" fn dia_peer_state(alloc: Global, handle: &mut PeerHandle, state: &mut u32) -> u32
    ensures ends { (result ≡ DONE) ⊎ (result ≡ IS_CLOSED) }
    ensures kept { handle.new.slot.seal.held ≡ handle.old.slot.seal.held }
    ensures done { result ≡ DONE → IfSome (peer_in handle.old.slot.seal.held)
        (λ peer. state.new ≡ state_number peer.core.state) }
    ensures closed { result ≡ IS_CLOSED → handle.old.slot.seal.held ≡ None }
    ensures was_open { result ≡ DONE → IsSome (peer_in handle.old.slot.seal.held) }
    ensures only { result ≡ IS_CLOSED → state.new ≡ state.old }
{
    dia_c_calls::peer_state(alloc, handle, state)
}

/// Delivers an application that both ends have in common by its index, from 0: none before the connection is open.
#[unsafe(no_mangle)]
pub extern "C" fn dia_peer_common(
    alloc: Global,
    handle: &mut PeerHandle,
    index: usize,
    app: &mut PeerApp,
) -> u32
    ensures ends { (result ≡ DONE) ⊎ (result ≡ NONE) ⊎ (result ≡ IS_CLOSED) }
    ensures kept { handle.new.slot.seal.held ≡ handle.old.slot.seal.held }
    ensures done { result ≡ DONE → IfSome (peer_in handle.old.slot.seal.held)
        (λ peer. IfSome (slice_get peer.core.common index) (λ p. app.new ≡ recorded_pair p)) }
    ensures some { result ≡ DONE → IfSome (peer_in handle.old.slot.seal.held) (λ peer. index < length peer.core.common) }
    ensures none { result ≡ NONE → IfSome (peer_in handle.old.slot.seal.held) (λ peer. length peer.core.common ≤ index) }
    ensures closed { result ≡ IS_CLOSED → handle.old.slot.seal.held ≡ None }
    ensures was_open { result ≢ IS_CLOSED → IsSome (peer_in handle.old.slot.seal.held) }
    ensures only { result ≢ DONE → app.new ≡ app.old }
{
    dia_c_calls::peer_common(alloc, handle, index, app)
}

/// Delivers whether messages of an application are for this connection: 1, or 0 where they aren't.
#[unsafe(no_mangle)]
pub extern "C" fn dia_peer_serves(
    alloc: Global,
    handle: &mut PeerHandle,
    id: u32,
    serves: &mut u32,
) -> u32
    ensures ends { (result ≡ DONE) ⊎ (result ≡ IS_CLOSED) }
    ensures kept { handle.new.slot.seal.held ≡ handle.old.slot.seal.held }
    ensures done { result ≡ DONE → IfSome (peer_in handle.old.slot.seal.held) (λ peer. ServesAs id peer serves.new) }
    ensures closed { result ≡ IS_CLOSED → handle.old.slot.seal.held ≡ None }
    ensures was_open { result ≡ DONE → IsSome (peer_in handle.old.slot.seal.held) }
    ensures only { result ≡ IS_CLOSED → serves.new ≡ serves.old }
{
    dia_c_calls::peer_serves(alloc, handle, id, serves)
}

/// Lets the end go, if the handle has one.
#[unsafe(no_mangle)]
pub extern "C" fn dia_peer_close(alloc: Global, handle: &mut PeerHandle)
    ensures closed { handle.new.slot.seal.held ≡ None }
{
    dia_c_calls::peer_close(alloc, handle);
}
