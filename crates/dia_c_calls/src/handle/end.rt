//! The events and outputs of the end of a connection in a handle.

ghost use Rattle.std.specs.Prelude.{◌⊎◌, ◌≡◌, ◌≢◌, ◌<◌, ◌≤◌, ℕ, [], length, take, IfSome, IsSome, Some};
ghost use Rattle.dia_peer.specs.declared.event.Why.{Why as AnyWhy};
ghost use Rattle.dia_peer.specs.Outputs.{SentBytes, ClosedFor};
ghost use Rattle.dia_c_calls.specs.Held.{MayBePeer, Takes, peer_in};
ghost use Rattle.dia_c_calls.specs.PeerSteps.{HasStepped, LeavesRest, WantsRoom, plain_end};
ghost use Rattle.dia_c_calls.specs.PeerTimers.{TakesIds};
ghost use Rattle.dia_c_calls.specs.PeerValues.{Hears};

use crate::held::Held;
use crate::peer::{Given, Peer};
use crate::status::{DONE, NO_MEMORY, OUTPUTS_LEFT};
use dia_peer::Event;

/// The end that a handle of one holds.
pub fn peer_in(held: &Held) -> &Peer
    requires { ∥ MayBePeer (Some held.now) ∥₁ }
    ensures { peer_in (Some held.now) ≡ Some (plain_end result.now) }
{
    match held {
        Held::Peer(peer) => peer,
        Held::Dict(..) => unreachable!(),
        Held::Text(_) => unreachable!(),
        Held::Faults(_) => unreachable!(),
        Held::Stream(_) => unreachable!(),
        Held::Nothing => unreachable!(),
    }
}

/// Delivers an event to the end in a handle.
pub fn report_in(held: &mut Held, event: Event<'_>) -> u32
    requires { ∥ MayBePeer (Some held.old) ∥₁ }
    ensures ends { (result ≡ DONE) ⊎ (result ≡ NO_MEMORY) ⊎ (result ≡ OUTPUTS_LEFT) }
    ensures done { result ≡ DONE → IfSome (peer_in (Some held.old))
        (λ old. IfSome (peer_in (Some held.new)) (HasStepped old.core event.entry)) }
    ensures kept { result ≢ DONE → held.new ≡ held.old }
    ensures left { result ≡ OUTPUTS_LEFT → IfSome (peer_in (Some held.old)) (λ old. old.left ≢ []) }
    ensures none_left { result ≢ OUTPUTS_LEFT → IfSome (peer_in (Some held.old)) (λ old. old.left ≡ []) }
    ensures only { ∥ MayBePeer (Some held.new) ∥₁ }
{
    match held {
        Held::Peer(peer) => peer.deliver(event),
        Held::Dict(..) => unreachable!(),
        Held::Text(_) => unreachable!(),
        Held::Faults(_) => unreachable!(),
        Held::Stream(_) => unreachable!(),
        Held::Nothing => unreachable!(),
    }
}

/// Takes the next output of the end in a handle.
pub fn give_in(held: &mut Held, out: &mut [u8]) -> Given
    requires { ∥ MayBePeer (Some held.old) ∥₁ }
    ensures sent { (count : ℕ) → result ≡ Given.Sent count
        → Takes (peer_in (Some held.old)) (peer_in (Some held.new)) (SentBytes (take count out.new)) }
    ensures count { (count : ℕ) → result ≡ Given.Sent count → count ≤ length out.new }
    ensures closed { (why : AnyWhy) → result ≡ Given.Closed why
        → Takes (peer_in (Some held.old)) (peer_in (Some held.new)) (ClosedFor why) }
    ensures room { (count : ℕ) → result ≡ Given.NoRoom count → length out.new < count }
    ensures wanted { (count : ℕ) → result ≡ Given.NoRoom count
        → IfSome (peer_in (Some held.old)) (WantsRoom count) }
    ensures kept { (count : ℕ) → result ≡ Given.NoRoom count → held.new ≡ held.old }
    ensures nothing { result ≡ Given.Nothing → (held.new ≡ held.old)
        × IfSome (peer_in (Some held.old)) (λ old. old.left ≡ []) }
    ensures rest { LeavesRest result out.old out.new }
    ensures was_peer { IsSome (peer_in (Some held.old)) }
    ensures is_peer { IsSome (peer_in (Some held.new)) }
    ensures only { ∥ MayBePeer (Some held.new) ∥₁ }
{
    match held {
        Held::Peer(peer) => peer.give(out),
        Held::Dict(..) => unreachable!(),
        Held::Text(_) => unreachable!(),
        Held::Faults(_) => unreachable!(),
        Held::Stream(_) => unreachable!(),
        Held::Nothing => unreachable!(),
    }
}

/// Takes the next identifiers of the end in a handle.
pub fn take_ids_in(held: &mut Held) -> (u32, u32)
    requires { ∥ MayBePeer (Some held.old) ∥₁ }
    ensures taken { IfSome (peer_in (Some held.old))
        (λ old. IfSome (peer_in (Some held.new)) (TakesIds result.0 result.1 old)) }
    ensures was_peer { IsSome (peer_in (Some held.old)) }
    ensures is_peer { IsSome (peer_in (Some held.new)) }
    ensures only { ∥ MayBePeer (Some held.new) ∥₁ }
{
    match held {
        Held::Peer(peer) => peer.core.take_ids(),
        Held::Dict(..) => unreachable!(),
        Held::Text(_) => unreachable!(),
        Held::Faults(_) => unreachable!(),
        Held::Stream(_) => unreachable!(),
        Held::Nothing => unreachable!(),
    }
}

/// Reports to the end in a handle that a message of an application came.
pub fn hear_in(held: &mut Held)
    requires { ∥ MayBePeer (Some held.old) ∥₁ }
    ensures heard { IfSome (peer_in (Some held.old)) (λ old. IfSome (peer_in (Some held.new)) (Hears old)) }
    ensures was_peer { IsSome (peer_in (Some held.old)) }
    ensures is_peer { IsSome (peer_in (Some held.new)) }
    ensures only { ∥ MayBePeer (Some held.new) ∥₁ }
{
    match held {
        Held::Peer(peer) => peer.core.heard(),
        Held::Dict(..) => unreachable!(),
        Held::Text(_) => unreachable!(),
        Held::Faults(_) => unreachable!(),
        Held::Stream(_) => unreachable!(),
        Held::Nothing => unreachable!(),
    }
}
