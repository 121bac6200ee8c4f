//! What an end of a connection learns of the other.

ghost use Rattle.std.specs.Prelude.{◌⊎◌, ◌≡◌, ◌≢◌, ◌<◌, ◌≤◌, drop, length, take, IfSome, IsSome, None, Some};
ghost use Rattle.dia_peer.specs.Life.{IsSuspect};
ghost use Rattle.dia_c_calls.specs.Held.{peer_in};
ghost use Rattle.dia_c_calls.specs.PeerValues.{HasSaid, HasSaidBytes, Hears, IsValueNumber, Says, SaysBytes, SuspectAs, value_of};

use crate::handle::{PeerHandle, hear_in, peer_in};
use crate::names::copied_whole;
use crate::status::{BAD_ARGUMENT, DONE, IS_CLOSED, NO_ROOM, NONE};
use dia_peer::{Core, Value};
use std::alloc::Global;

/// Reports that a message of an application came, which isn't delivered to the end.
pub fn peer_heard(alloc: Global, handle: &mut PeerHandle) -> u32
    ensures ends { (result ≡ DONE) ⊎ (result ≡ IS_CLOSED) }
    ensures done { result ≡ DONE → IfSome (peer_in handle.old.slot.seal.held)
        (λ old. IfSome (peer_in handle.new.slot.seal.held) (Hears old)) }
    ensures is_open { result ≡ DONE → IsSome (peer_in handle.new.slot.seal.held) }
    ensures was_open { result ≡ DONE → IsSome (peer_in handle.old.slot.seal.held) }
    ensures closed { result ≡ IS_CLOSED → handle.old.slot.seal.held ≡ None }
    ensures kept { result ≡ IS_CLOSED → handle.new.slot.seal.held ≡ handle.old.slot.seal.held }
{
    let Some(mut held) = handle.take(alloc) else {
        return IS_CLOSED;
    };
    hear_in(&mut held);
    handle.put(held);
    DONE
}

/// Delivers whether the connection is suspect: 1, or 0 where it isn't.
pub fn peer_suspect(alloc: Global, handle: &mut PeerHandle, suspect: &mut u32) -> u32
    ensures ends { (result ≡ DONE) ⊎ (result ≡ IS_CLOSED) }
    ensures kept { handle.new.slot.seal.held ≡ handle.old.slot.seal.held }
    ensures done { result ≡ DONE → IfSome (peer_in handle.old.slot.seal.held) (λ peer. SuspectAs peer suspect.new) }
    ensures closed { result ≡ IS_CLOSED → handle.old.slot.seal.held ≡ None }
    ensures was_open { result ≡ DONE → IsSome (peer_in handle.old.slot.seal.held) }
    ensures only { result ≡ IS_CLOSED → suspect.new ≡ suspect.old }
{
    let Some(held) = handle.take(alloc) else {
        return IS_CLOSED;
    };
    *suspect = suspect_number(&peer_in(&held).core);
    handle.put(held);
    DONE
}

fn suspect_number(core: &Core) -> u32
    ensures yes { IsSuspect core.now → result ≡ 1 }
    ensures no { ¬ IsSuspect core.now → result ≡ 0 }
{
    if core.suspect() { 1 } else { 0 }
}

/// Copies out what the other end said of itself, by its number, where there is room for all of it.
pub fn peer_value(
    alloc: Global,
    handle: &mut PeerHandle,
    which: u32,
    out: &mut [u8],
    count: &mut usize,
) -> u32
    ensures ends { (result ≡ DONE) ⊎ (result ≡ NONE) ⊎ (result ≡ NO_ROOM) ⊎ (result ≡ IS_CLOSED) ⊎ (result ≡ BAD_ARGUMENT) }
    ensures kept { handle.new.slot.seal.held ≡ handle.old.slot.seal.held }
    ensures done { result ≡ DONE → IfSome (peer_in handle.old.slot.seal.held)
        (λ peer. HasSaid which peer (Some (take count.new out.new))) }
    ensures count { result ≡ DONE → count.new ≤ length out.new }
    ensures none { result ≡ NONE → IfSome (peer_in handle.old.slot.seal.held) (λ peer. HasSaid which peer None) }
    ensures room { result ≡ NO_ROOM → length out.new < count.new }
    ensures wanted { result ≡ NO_ROOM → IfSome (peer_in handle.old.slot.seal.held) (HasSaidBytes which count.new) }
    ensures only { result ≢ DONE → result ≢ NO_ROOM → count.new ≡ count.old }
    ensures rest { result ≡ DONE → drop count.new out.new ≡ drop count.new out.old }
    ensures untouched { result ≢ DONE → out.new ≡ out.old }
    ensures closed { result ≡ IS_CLOSED → handle.old.slot.seal.held ≡ None }
    ensures was_open { result ≢ IS_CLOSED → result ≢ BAD_ARGUMENT → IsSome (peer_in handle.old.slot.seal.held) }
    ensures bad { result ≡ BAD_ARGUMENT → ¬ IsValueNumber which }
    ensures good { result ≢ BAD_ARGUMENT → IsValueNumber which }
{
    let Some(value) = value_of(which) else {
        return BAD_ARGUMENT;
    };
    let Some(held) = handle.take(alloc) else {
        return IS_CLOSED;
    };
    let status = copied_value(&peer_in(&held).core, value, out, count);
    handle.put(held);
    status
}

/// Copies a value out where there is one, and room for it.
fn copied_value(core: &Core, value: Value, out: &mut [u8], count: &mut usize) -> u32
    ensures ends { (result ≡ DONE) ⊎ (result ≡ NONE) ⊎ (result ≡ NO_ROOM) }
    ensures done { result ≡ DONE → Says value core.now (Some (take count.new out.new)) }
    ensures count { result ≡ DONE → count.new ≤ length out.new }
    ensures none { result ≡ NONE → Says value core.now None }
    ensures room { result ≡ NO_ROOM → length out.new < count.new }
    ensures wanted { result ≡ NO_ROOM → SaysBytes value count.new core.now }
    ensures only { result ≡ NONE → count.new ≡ count.old }
    ensures rest { result ≡ DONE → drop count.new out.new ≡ drop count.new out.old }
    ensures untouched { result ≢ DONE → out.new ≡ out.old }
{
    let Some(bytes) = core.value(value) else {
        return NONE;
    };
    *count = bytes.len();
    if copied_whole(bytes, out) {
        DONE
    } else {
        NO_ROOM
    }
}

/// The value of a number.
fn value_of(which: u32) -> Option<Value>
    ensures some { IfSome result (λ found. (found ≡ value_of which) × IsValueNumber which) }
    ensures none { result ≡ None → ¬ IsValueNumber which }
{
    match which {
        0 => Some(Value::Host),
        1 => Some(Value::Realm),
        2 => Some(Value::Product),
        3 => Some(Value::Result),
        4 => Some(Value::Cause),
        _ => None,
    }
}
