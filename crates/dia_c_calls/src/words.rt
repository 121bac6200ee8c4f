//! The words of numbers, and the line of a verdict.

ghost use Rattle.std.specs.Prelude.{◌⊎◌, ◌≡◌, ◌≢◌, ◌≤◌, ◌<◌, ℕ, List, None, Option, Some, IfSome, IsSome, length, take, drop};
ghost use Rattle.std.specs.Option.{option_map};
ghost use Rattle.dia_c_calls.specs.Held.{dict_in};
ghost use Rattle.dia_c_calls.specs.Words.{IsVerdictText, kind_text, reason_text, status_text};

use crate::handle::{DictHandle, owner_in};
use crate::names::copied;
use crate::numbers::{word_of_kind, word_of_reason, word_of_status};
use crate::status::{BAD_ARGUMENT, DONE, IS_CLOSED, NO_MEMORY, NO_ROOM, NONE};
use crate::verdict::Verdict;
use crate::verdict_words::text_of;
use std::alloc::{AllocError, Global};

/// The word of a status.
pub fn status_word(status: u32, out: &mut [u8], count: &mut usize) -> u32
    ensures ends { (result ≡ DONE) ⊎ (result ≡ NONE) ⊎ (result ≡ NO_ROOM) }
    ensures done { result ≡ DONE → status_text status ≡ Some (take count.new out.new) }
    ensures none { result ≡ NONE → status_text status ≡ None }
    ensures wanted { result ≡ NO_ROOM → IfSome (status_text status) (λ word. count.new ≡ length word) }
    ensures is_word { result ≡ NO_ROOM → IsSome (status_text status) }
    ensures room { result ≡ NO_ROOM → length out.new < count.new }
    ensures count { result ≡ DONE → count.new ≤ length out.new }
    ensures rest { result ≡ DONE → drop count.new out.new ≡ drop count.new out.old }
    ensures untouched { result ≢ DONE → out.new ≡ out.old }
    ensures only { result ≡ NONE → count.new ≡ count.old }
{
    put_word(word_of_status(status), out, count)
}

/// The word of a reason, as lines of `check` have it.
pub fn reason_word(reason: u32, out: &mut [u8], count: &mut usize) -> u32
    ensures ends { (result ≡ DONE) ⊎ (result ≡ NONE) ⊎ (result ≡ NO_ROOM) }
    ensures done { result ≡ DONE → reason_text reason ≡ Some (take count.new out.new) }
    ensures none { result ≡ NONE → reason_text reason ≡ None }
    ensures wanted { result ≡ NO_ROOM → IfSome (reason_text reason) (λ word. count.new ≡ length word) }
    ensures is_word { result ≡ NO_ROOM → IsSome (reason_text reason) }
    ensures room { result ≡ NO_ROOM → length out.new < count.new }
    ensures count { result ≡ DONE → count.new ≤ length out.new }
    ensures rest { result ≡ DONE → drop count.new out.new ≡ drop count.new out.old }
    ensures untouched { result ≢ DONE → out.new ≡ out.old }
    ensures only { result ≡ NONE → count.new ≡ count.old }
{
    put_word(word_of_reason(reason), out, count)
}

/// The word of a kind of problem, as answers in JSON have it.
pub fn kind_word(kind: u32, out: &mut [u8], count: &mut usize) -> u32
    ensures ends { (result ≡ DONE) ⊎ (result ≡ NONE) ⊎ (result ≡ NO_ROOM) }
    ensures done { result ≡ DONE → kind_text kind ≡ Some (take count.new out.new) }
    ensures none { result ≡ NONE → kind_text kind ≡ None }
    ensures wanted { result ≡ NO_ROOM → IfSome (kind_text kind) (λ word. count.new ≡ length word) }
    ensures is_word { result ≡ NO_ROOM → IsSome (kind_text kind) }
    ensures room { result ≡ NO_ROOM → length out.new < count.new }
    ensures count { result ≡ DONE → count.new ≤ length out.new }
    ensures rest { result ≡ DONE → drop count.new out.new ≡ drop count.new out.old }
    ensures untouched { result ≢ DONE → out.new ≡ out.old }
    ensures only { result ≡ NONE → count.new ≡ count.old }
{
    put_word(word_of_kind(kind), out, count)
}

/// Copies a word out where there is one, and room for it.
fn put_word(word: Option<&'static str>, out: &mut [u8], count: &mut usize) -> u32
    ensures ends { (result ≡ DONE) ⊎ (result ≡ NONE) ⊎ (result ≡ NO_ROOM) }
    ensures done { result ≡ DONE → option_map (λ w. w.now) word.entry ≡ Some (take count.new out.new) }
    ensures none { result ≡ NONE → option_map (λ w. w.now) word.entry ≡ None }
    ensures wanted { result ≡ NO_ROOM → IfSome (option_map (λ w. w.now) word.entry) (λ word. count.new ≡ length word) }
    ensures is_word { result ≡ NO_ROOM → IsSome (option_map (λ w. w.now) word.entry) }
    ensures room { result ≡ NO_ROOM → length out.new < count.new }
    ensures count { result ≡ DONE → count.new ≤ length out.new }
    ensures rest { result ≡ DONE → drop count.new out.new ≡ drop count.new out.old }
    ensures untouched { result ≢ DONE → out.new ≡ out.old }
    ensures only { result ≡ NONE → count.new ≡ count.old }
{
    match word {
        Some(word) => copied(word, out, count),
        None => NONE,
    }
}

/// The line of `check` for a verdict, without its line feed.
pub fn verdict_text(
    alloc: Global,
    handle: &mut DictHandle,
    verdict: &Verdict,
    out: &mut [u8],
    count: &mut usize,
) -> u32
    ensures ends { (result ≡ DONE) ⊎ (result ≡ NO_MEMORY) ⊎ (result ≡ NO_ROOM) ⊎ (result ≡ IS_CLOSED) ⊎ (result ≡ BAD_ARGUMENT) }
    ensures kept { handle.new.slot.seal.held ≡ handle.old.slot.seal.held }
    ensures done { result ≡ DONE → IfSome (dict_in handle.old.slot.seal.held)
        (λ d. IsVerdictText d verdict.now (take count.new out.new)) }
    ensures wanted { result ≡ NO_ROOM → IfSome (dict_in handle.old.slot.seal.held)
        (λ d. (text : List ℕ) × IsVerdictText d verdict.now text × (count.new ≡ length text)) }
    ensures bad { result ≡ BAD_ARGUMENT → IfSome (dict_in handle.old.slot.seal.held)
        (λ d. (text : List ℕ) → ¬ IsVerdictText d verdict.now text) }
    ensures room { result ≡ NO_ROOM → length out.new < count.new }
    ensures count { result ≡ DONE → count.new ≤ length out.new }
    ensures rest { result ≡ DONE → drop count.new out.new ≡ drop count.new out.old }
    ensures untouched { result ≢ DONE → out.new ≡ out.old }
    ensures only { result ≢ DONE → result ≢ NO_ROOM → count.new ≡ count.old }
    ensures closed { result ≡ IS_CLOSED → handle.old.slot.seal.held ≡ None }
    ensures was_open { result ≢ IS_CLOSED → IsSome (dict_in handle.old.slot.seal.held) }
{
    let Some(held) = handle.take(alloc) else {
        return IS_CLOSED;
    };
    let made = text_of(alloc, &**owner_in(&held), verdict);
    handle.put(held);
    match made {
        Ok(Some(text)) => copied(text.as_str(), out, count),
        Ok(None) => BAD_ARGUMENT,
        Err(AllocError) => NO_MEMORY,
    }
}
