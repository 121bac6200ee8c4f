//! The bytes of a text where they are.

ghost use Rattle.std.specs.Prelude.{◌⊎◌, ◌≡◌, IfSome, IsSome, None, length};
ghost use Rattle.dia_c_calls.specs.Held.{IsTextAt, text_in};

use crate::handle::{TextHandle, bytes_in};
use crate::status::{DONE, IS_CLOSED};
use std::alloc::Global;

/// The address of the text's bytes, and how many there are.
pub fn text_view(
    alloc: Global,
    handle: &mut TextHandle,
    bytes: &mut *const u8,
    count: &mut usize,
) -> u32
    ensures ends { (result ≡ DONE) ⊎ (result ≡ IS_CLOSED) }
    ensures kept { handle.new.slot.seal.held ≡ handle.old.slot.seal.held }
    ensures view { result ≡ DONE → IsTextAt handle.old.slot.seal.held bytes.new }
    ensures done { result ≡ DONE → IfSome (text_in handle.old.slot.seal.held) (λ text. count.new ≡ length text) }
    ensures closed { result ≡ IS_CLOSED → handle.old.slot.seal.held ≡ None }
    ensures was_open { result ≡ DONE → IsSome (text_in handle.old.slot.seal.held) }
    ensures only { result ≡ IS_CLOSED → (bytes.new ≡ bytes.old) × (count.new ≡ count.old) }
{
    let Some(held) = handle.take(alloc) else {
        return IS_CLOSED;
    };
    let text = bytes_in(&held);
    *bytes = text.as_ptr();
    *count = text.len();
    handle.put(held);
    DONE
}
