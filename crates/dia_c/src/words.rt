//! The words of numbers, and the line of a verdict.

ghost use Rattle.std.specs.Prelude.{◌⊎◌, ◌≡◌, ◌≢◌, ◌≤◌, ◌<◌, ℕ, List, None, Some, IfSome, IsSome, length, take, drop};
ghost use Rattle.dia_c_calls.specs.Held.{dict_in};
ghost use Rattle.dia_c_calls.specs.Words.{IsVerdictText, kind_text, reason_text, status_text};

use dia_c_calls::{BAD_ARGUMENT, DONE, DictHandle, IS_CLOSED, NO_MEMORY, NO_ROOM, NONE, Verdict};
use std::alloc::Global;

/// The word of a status.
#[unsafe(no_mangle)]
pub extern "C" fn dia_status_word(status: u32, out: &mut [u8], count: &mut usize) -> u32
    ensures ends { (result ≡ DONE) ⊎ (result ≡ NONE) ⊎ (result ≡ NO_ROOM) }
    ensures done { result ≡ DONE → status_text status ≡ Some (take count.new out.new) }
    ensures none { result ≡ NONE → status_text status ≡ None }
    ensures wanted { result ≡ NO_ROOM → IfSome (status_text status) (λ word. count.new ≡ length word) }
    ensures is_word { result ≡ NO_ROOM → IsSome (status_text status) }
    ensures room { result ≡ NO_ROOM → length out.new < count.new }
    ensures count { result ≡ DONE → count.new ≤ length out.new }
    ensures rest { result ≡ DONE → drop count.new out.new ≡ drop count.new out.old }
    ensures untouched { result ≢ DONE → out.new ≡ out.old }
    ensures only { result ≡ NONE → count.new ≡ count.old }
{
    dia_c_calls::status_word(status, out, count)
}

/// The word of a reason, as lines of `check` have it.
#[unsafe(no_mangle)]
pub extern "C" fn dia_reason_word(reason: u32, out: &mut [u8], count: &mut usize) -> u32
    ensures ends { (result ≡ DONE) ⊎ (result ≡ NONE) ⊎ (result ≡ NO_ROOM) }
    ensures done { result ≡ DONE → reason_text reason ≡ Some (take count.new out.new) }
    ensures none { result ≡ NONE → reason_text reason ≡ None }
    ensures wanted { result ≡ NO_ROOM → IfSome (reason_text reason) (λ word. count.new ≡ length word) }
    ensures is_word { result ≡ NO_ROOM → IsSome (reason_text reason) }
    ensures room { result ≡ NO_ROOM → length out.new < count.new }
    ensures count { result ≡ DONE → count.new ≤ length out.new }
    ensures rest { result ≡ DONE → drop count.new out.new ≡ drop count.new out.old }
    ensures untouched { result ≢ DONE → out.new ≡ out.old }
    ensures only { result ≡ NONE → count.new ≡ count.old }
{
    dia_c_calls::reason_word(reason, out, count)
}

/// The word of a kind of problem, as answers in JSON have it.
#[unsafe(no_mangle)]
pub extern "C" fn dia_kind_word(kind: u32, out: &mut [u8], count: &mut usize) -> u32
    ensures ends { (result ≡ DONE) ⊎ (result ≡ NONE) ⊎ (result ≡ NO_ROOM) }
    ensures done { result ≡ DONE → kind_text kind ≡ Some (take count.new out.new) }
    ensures none { result ≡ NONE → kind_text kind ≡ None }
    ensures wanted { result ≡ NO_ROOM → IfSome (kind_text kind) (λ word. count.new ≡ length word) }
    ensures is_word { result ≡ NO_ROOM → IsSome (kind_text kind) }
    ensures room { result ≡ NO_ROOM → length out.new < count.new }
    ensures count { result ≡ DONE → count.new ≤ length out.new }
    ensures rest { result ≡ DONE → drop count.new out.new ≡ drop count.new out.old }
    ensures untouched { result ≢ DONE → out.new ≡ out.old }
    ensures only { result ≡ NONE → count.new ≡ count.old }
{
    dia_c_calls::kind_word(kind, out, count)
}

/// The line of `check` for a verdict, without its line feed.
#[unsafe(no_mangle)]
pub extern "C" fn dia_verdict_text(
    alloc: Global,
    handle: &mut DictHandle,
    verdict: &Verdict,
    out: &mut [u8],
    count: &mut usize,
) -> u32
    ensures ends { (result ≡ DONE) ⊎ (result ≡ NO_MEMORY) ⊎ (result ≡ NO_ROOM) ⊎ (result ≡ IS_CLOSED) ⊎ (result ≡ BAD_ARGUMENT) }
    ensures kept { handle.new.slot.seal.held ≡ handle.old.slot.seal.held }
    ensures done { result ≡ DONE → IfSome (dict_in handle.old.slot.seal.held)
        (λ d. IsVerdictText d verdict.now (take count.new out.new)) }
    ensures wanted { result ≡ NO_ROOM → IfSome (dict_in handle.old.slot.seal.held)
        (λ d. (text : List ℕ) × IsVerdictText d verdict.now text × (count.new ≡ length text)) }
    ensures bad { result ≡ BAD_ARGUMENT → IfSome (dict_in handle.old.slot.seal.held)
        (λ d. (text : List ℕ) → ¬ IsVerdictText d verdict.now text) }
    ensures room { result ≡ NO_ROOM → length out.new < count.new }
    ensures count { result ≡ DONE → count.new ≤ length out.new }
    ensures rest { result ≡ DONE → drop count.new out.new ≡ drop count.new out.old }
    ensures untouched { result ≢ DONE → out.new ≡ out.old }
    ensures only { result ≢ DONE → result ≢ NO_ROOM → count.new ≡ count.old }
    ensures closed { result ≡ IS_CLOSED → handle.old.slot.seal.held ≡ None }
    ensures was_open { result ≢ IS_CLOSED → IsSome (dict_in handle.old.slot.seal.held) }
{
    dia_c_calls::verdict_text(alloc, handle, verdict, out, count)
}
