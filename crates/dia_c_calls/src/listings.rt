//! Messages as texts.

ghost use Rattle.std.specs.Prelude.{◌⊎◌, ◌≡◌, ◌≢◌, IfSome, IsSome, None};
ghost use Rattle.dia_c_calls.specs.Held.{dict_in, text_in};
ghost use Rattle.dia_c_calls.specs.Listings.{HasShown};
ghost use Rattle.dia_c_calls.specs.Verdicts.{IsNoMessage};

use crate::handle::{DictHandle, TextHandle, owner_in};
use crate::listing::{Unshown, shown};
use crate::status::{DONE, IS_CLOSED, IS_OPEN, NO_MEMORY, REFUSED};
use crate::verdict::Verdict;
use std::alloc::Global;

/// What `diacmd show` writes of a message, with the names of a dictionary.
pub fn show(
    alloc: Global,
    handle: &mut DictHandle,
    message: &[u8],
    text: &mut TextHandle,
    whole: &mut u32,
    verdict: &mut Verdict,
) -> u32
    ensures ends { (result ≡ DONE) ⊎ (result ≡ REFUSED) ⊎ (result ≡ NO_MEMORY) ⊎ (result ≡ IS_OPEN) ⊎ (result ≡ IS_CLOSED) }
    ensures kept_dict { handle.new.slot.seal.held ≡ handle.old.slot.seal.held }
    ensures done { result ≡ DONE → IfSome (dict_in handle.old.slot.seal.held) (λ d. IfSome (text_in text.new.slot.seal.held)
        (λ lines. HasShown d message.now lines whole.new)) }
    ensures is_open { result ≡ DONE → IsSome (text_in text.new.slot.seal.held) }
    ensures kept { result ≢ DONE → text.new.slot.seal.held ≡ text.old.slot.seal.held }
    ensures refused { result ≡ REFUSED → IsNoMessage message.now verdict.new }
    ensures only { result ≢ REFUSED → verdict.new ≡ verdict.old }
    ensures only_done { result ≢ DONE → whole.new ≡ whole.old }
    ensures was_closed { result ≢ IS_OPEN → text.old.slot.seal.held ≡ None }
    ensures was_open { result ≡ IS_OPEN → IsSome text.old.slot.seal.held }
    ensures closed { result ≡ IS_CLOSED → handle.old.slot.seal.held ≡ None }
    ensures dict_is_open { (result ≡ DONE) ⊎ (result ≡ REFUSED) ⊎ (result ≡ NO_MEMORY)
        → IsSome (dict_in handle.old.slot.seal.held) }
{
    if text.is_open() {
        return IS_OPEN;
    }
    let Some(held) = handle.take(alloc) else {
        return IS_CLOSED;
    };
    let answer = shown(alloc, &**owner_in(&held), message);
    handle.put(held);
    match answer {
        Ok(found) => {
            *whole = found.holds;
            text.put(found.text);
            DONE
        }
        Err(unshown) => match unshown {
            Unshown::NoMessage(recorded) => {
                *verdict = recorded;
                REFUSED
            }
            Unshown::NoMemory => NO_MEMORY,
        },
    }
}
