//! Diagnostics of messages.

ghost use Rattle.std.specs.Prelude.{◌⊎◌, ◌≡◌, ◌≢◌, IsSome, None};
ghost use Rattle.dia_c_calls.specs.Held.{text_in};
ghost use Rattle.dia_c_calls.specs.Verdicts.{IsUnknownPolicy};

use dia_c_calls::{BAD_ARGUMENT, DONE, IS_OPEN, NO_MEMORY, TextHandle};
use std::alloc::Global;

/// Explains what a check by the dictionary of a text finds of a message.
#[unsafe(no_mangle)]
pub extern "C" fn dia_explain(
    alloc: Global,
    text: &[u8],
    unknown: u32,
    levels: u32,
    message: &[u8],
    note: &mut TextHandle,
) -> u32
    ensures ends { (result ≡ DONE) ⊎ (result ≡ NO_MEMORY) ⊎ (result ≡ IS_OPEN) ⊎ (result ≡ BAD_ARGUMENT) }
    ensures is_open { result ≡ DONE → IsSome (text_in note.new.slot.seal.held) }
    ensures kept { result ≢ DONE → note.new.slot.seal.held ≡ note.old.slot.seal.held }
    ensures was_closed { (result ≡ DONE) ⊎ (result ≡ NO_MEMORY) → note.old.slot.seal.held ≡ None }
    ensures was_open { result ≡ IS_OPEN → IsSome note.old.slot.seal.held }
    ensures bad { result ≡ BAD_ARGUMENT → ¬ IsUnknownPolicy unknown }
    ensures good { result ≢ BAD_ARGUMENT → IsUnknownPolicy unknown }
{
    dia_c_calls::explain(alloc, text, unknown, levels, message, note)
}
