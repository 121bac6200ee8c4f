//! Texts that the library writes, read in pieces.

ghost use Rattle.std.specs.Prelude.{◌⊎◌, ◌≡◌, ◌≢◌, ◌-◌, length, take, drop, min, None, IsSome, IfSome};
ghost use Rattle.dia_c_calls.specs.Held.{text_in};
ghost use Rattle.dia_c_calls.specs.Openings.{IsUnread, IsRenderedOf};

use crate::handle::{TextHandle, bytes_in};
use crate::names::copied_from;
use crate::opening::{Problem, Refused, canonical};
use crate::status::{DONE, IS_CLOSED, IS_OPEN, NO_MEMORY, REFUSED};
use std::alloc::Global;

/// The canonical text of the definitions of a dictionary's text.
pub fn render(alloc: Global, text: &[u8], rendered: &mut TextHandle, problem: &mut Problem) -> u32
    ensures ends { (result ≡ DONE) ⊎ (result ≡ REFUSED) ⊎ (result ≡ NO_MEMORY) ⊎ (result ≡ IS_OPEN) }
    ensures done { result ≡ DONE → IfSome (text_in rendered.new.slot.seal.held) (IsRenderedOf text.now) }
    ensures is_open { result ≡ DONE → IsSome (text_in rendered.new.slot.seal.held) }
    ensures kept { result ≢ DONE → rendered.new.slot.seal.held ≡ rendered.old.slot.seal.held }
    ensures refused { result ≡ REFUSED → IsUnread text.now problem.new }
    ensures only { result ≢ REFUSED → problem.new ≡ problem.old }
    ensures was_closed { result ≢ IS_OPEN → rendered.old.slot.seal.held ≡ None }
    ensures was_open { result ≡ IS_OPEN → IsSome rendered.old.slot.seal.held }
{
    if rendered.is_open() {
        return IS_OPEN;
    }
    match canonical(alloc, text) {
        Ok(held) => {
            rendered.put(held);
            DONE
        }
        Err(Refused::Bad(recorded)) => {
            *problem = recorded;
            REFUSED
        }
        Err(Refused::NoMemory) => NO_MEMORY,
    }
}

/// Copies as much of the text, from a place in bytes on, as there is room for.
pub fn text_read(
    alloc: Global,
    handle: &mut TextHandle,
    from: usize,
    out: &mut [u8],
    count: &mut usize,
) -> u32
    ensures ends { (result ≡ DONE) ⊎ (result ≡ IS_CLOSED) }
    ensures kept { handle.new.slot.seal.held ≡ handle.old.slot.seal.held }
    ensures done { result ≡ DONE → IfSome (text_in handle.old.slot.seal.held)
        (λ text. (count.new ≡ min (length out.old) (length text - from))
        × (take count.new out.new ≡ take count.new (drop from text))) }
    ensures rest { result ≡ DONE → drop count.new out.new ≡ drop count.new out.old }
    ensures closed { result ≡ IS_CLOSED → handle.old.slot.seal.held ≡ None }
    ensures was_open { result ≡ DONE → IsSome (text_in handle.old.slot.seal.held) }
    ensures only { result ≡ IS_CLOSED → (count.new ≡ count.old) × (out.new ≡ out.old) }
{
    let Some(held) = handle.take(alloc) else {
        return IS_CLOSED;
    };
    *count = copied_from(bytes_in(&held).as_slice(), from, out);
    handle.put(held);
    DONE
}

/// How many bytes the text has.
pub fn text_length(alloc: Global, handle: &mut TextHandle, count: &mut usize) -> u32
    ensures ends { (result ≡ DONE) ⊎ (result ≡ IS_CLOSED) }
    ensures kept { handle.new.slot.seal.held ≡ handle.old.slot.seal.held }
    ensures done { result ≡ DONE → IfSome (text_in handle.old.slot.seal.held)
        (λ text. count.new ≡ length text) }
    ensures closed { result ≡ IS_CLOSED → handle.old.slot.seal.held ≡ None }
    ensures was_open { result ≡ DONE → IsSome (text_in handle.old.slot.seal.held) }
    ensures only { result ≡ IS_CLOSED → count.new ≡ count.old }
{
    let Some(held) = handle.take(alloc) else {
        return IS_CLOSED;
    };
    *count = bytes_in(&held).len();
    handle.put(held);
    DONE
}

/// Lets the text go, if the handle has one.
pub fn text_close(alloc: Global, handle: &mut TextHandle)
    ensures closed { handle.new.slot.seal.held ≡ None }
{
    drop(handle.take(alloc));
}
