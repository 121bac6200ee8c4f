//! Texts that the library writes, read in pieces.

ghost use Rattle.std.specs.Prelude.{◌⊎◌, ◌≡◌, ◌≢◌, ◌-◌, length, take, drop, min, None, IsSome, IfSome};
ghost use Rattle.dia_c_calls.specs.Held.{text_in};
ghost use Rattle.dia_c_calls.specs.Openings.{IsUnread, IsRenderedOf};

use dia_c_calls::{DONE, IS_CLOSED, IS_OPEN, NO_MEMORY, Problem, REFUSED, TextHandle};
use std::alloc::Global;

/// The canonical text of the definitions of a dictionary's text.
#[unsafe(no_mangle)]
pub extern "C" fn dia_render(
    alloc: Global,
    text: &[u8],
    rendered: &mut TextHandle,
    problem: &mut Problem,
) -> u32
    ensures ends { (result ≡ DONE) ⊎ (result ≡ REFUSED) ⊎ (result ≡ NO_MEMORY) ⊎ (result ≡ IS_OPEN) }
    ensures done { result ≡ DONE → IfSome (text_in rendered.new.slot.seal.held) (IsRenderedOf text.now) }
    ensures is_open { result ≡ DONE → IsSome (text_in rendered.new.slot.seal.held) }
    ensures kept { result ≢ DONE → rendered.new.slot.seal.held ≡ rendered.old.slot.seal.held }
    ensures refused { result ≡ REFUSED → IsUnread text.now problem.new }
    ensures only { result ≢ REFUSED → problem.new ≡ problem.old }
    ensures was_closed { result ≢ IS_OPEN → rendered.old.slot.seal.held ≡ None }
    ensures was_open { result ≡ IS_OPEN → IsSome rendered.old.slot.seal.held }
{
    dia_c_calls::render(alloc, text, rendered, problem)
}

/// Copies as much of the text, from a place in bytes on, as there is room for.
#[unsafe(no_mangle)]
pub extern "C" fn dia_text_read(
    alloc: Global,
    handle: &mut TextHandle,
    from: usize,
    out: &mut [u8],
    count: &mut usize,
) -> u32
    ensures ends { (result ≡ DONE) ⊎ (result ≡ IS_CLOSED) }
    ensures kept { handle.new.slot.seal.held ≡ handle.old.slot.seal.held }
    ensures done { result ≡ DONE → IfSome (text_in handle.old.slot.seal.held)
        (λ text. (count.new ≡ min (length out.old) (length text - from))
        × (take count.new out.new ≡ take count.new (drop from text))) }
    ensures rest { result ≡ DONE → drop count.new out.new ≡ drop count.new out.old }
    ensures closed { result ≡ IS_CLOSED → handle.old.slot.seal.held ≡ None }
    ensures was_open { result ≡ DONE → IsSome (text_in handle.old.slot.seal.held) }
    ensures only { result ≡ IS_CLOSED → (count.new ≡ count.old) × (out.new ≡ out.old) }
{
    dia_c_calls::text_read(alloc, handle, from, out, count)
}

/// How many bytes the text has.
#[unsafe(no_mangle)]
pub extern "C" fn dia_text_length(alloc: Global, handle: &mut TextHandle, count: &mut usize) -> u32
    ensures ends { (result ≡ DONE) ⊎ (result ≡ IS_CLOSED) }
    ensures kept { handle.new.slot.seal.held ≡ handle.old.slot.seal.held }
    ensures done { result ≡ DONE → IfSome (text_in handle.old.slot.seal.held)
        (λ text. count.new ≡ length text) }
    ensures closed { result ≡ IS_CLOSED → handle.old.slot.seal.held ≡ None }
    ensures was_open { result ≡ DONE → IsSome (text_in handle.old.slot.seal.held) }
    ensures only { result ≡ IS_CLOSED → count.new ≡ count.old }
{
    dia_c_calls::text_length(alloc, handle, count)
}

/// Lets the text go, if the handle has one.
#[unsafe(no_mangle)]
pub extern "C" fn dia_text_close(alloc: Global, handle: &mut TextHandle)
    ensures closed { handle.new.slot.seal.held ≡ None }
{
    dia_c_calls::text_close(alloc, handle);
}
