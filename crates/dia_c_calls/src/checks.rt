//! Checks of messages.

ghost use Rattle.std.specs.Prelude.{◌⊎◌, ◌≡◌, ◌≢◌, None, IfSome, IsSome};
ghost use Rattle.dia_check.specs.Faults.{HasLength};
ghost use Rattle.dia_c_calls.specs.Held.{dict_in, text_in};
ghost use Rattle.dia_c_calls.specs.VerdictLines.{IsVerdictLine};
ghost use Rattle.dia_c_calls.specs.Verdicts.{Answers, IsHeadVerdict, IsUnknownPolicy, limit_of, policy_of};

use crate::handle::{DictHandle, TextHandle, check_in, owner_in};
use crate::status::{BAD_ARGUMENT, DONE, IS_CLOSED, IS_OPEN, NO_MEMORY, REFUSED};
use crate::verdict;
use crate::verdict::{Verdict, limit_of, policy_of};
use crate::verdict_line::verdict_line;
use std::alloc::{AllocError, Global};

/// What `diacmd check` says of a message.
pub fn check(
    alloc: Global,
    handle: &mut DictHandle,
    unknown: u32,
    levels: u32,
    message: &[u8],
    verdict: &mut Verdict,
) -> u32
    ensures ends { (result ≡ DONE) ⊎ (result ≡ NO_MEMORY) ⊎ (result ≡ IS_CLOSED) ⊎ (result ≡ BAD_ARGUMENT) }
    ensures kept { handle.new.slot.seal.held ≡ handle.old.slot.seal.held }
    ensures done { result ≡ DONE → IfSome (dict_in handle.old.slot.seal.held)
        (λ d. Answers d unknown levels message.now verdict.new) }
    ensures closed { result ≡ IS_CLOSED → handle.old.slot.seal.held ≡ None }
    ensures was_open { result ≢ IS_CLOSED → result ≢ BAD_ARGUMENT → IsSome (dict_in handle.old.slot.seal.held) }
    ensures bad { result ≡ BAD_ARGUMENT → ¬ IsUnknownPolicy unknown }
    ensures good { result ≢ BAD_ARGUMENT → IsUnknownPolicy unknown }
    ensures only { result ≢ DONE → verdict.new ≡ verdict.old }
{
    let Some(unknown) = policy_of(unknown) else {
        return BAD_ARGUMENT;
    };
    let levels = limit_of(levels);
    let Some(mut held) = handle.take(alloc) else {
        return IS_CLOSED;
    };
    let answer = check_in(&mut *held, unknown, levels, message);
    handle.put(held);
    match answer {
        Ok(recorded) => {
            *verdict = recorded;
            DONE
        }
        Err(AllocError) => NO_MEMORY,
    }
}

/// The line that `diacmd check --json` writes of a message.
pub fn check_json(
    alloc: Global,
    handle: &mut DictHandle,
    unknown: u32,
    levels: u32,
    message: &[u8],
    line: &mut TextHandle,
) -> u32
    ensures ends { (result ≡ DONE) ⊎ (result ≡ NO_MEMORY) ⊎ (result ≡ IS_OPEN) ⊎ (result ≡ IS_CLOSED) ⊎ (result ≡ BAD_ARGUMENT) }
    ensures kept_dict { handle.new.slot.seal.held ≡ handle.old.slot.seal.held }
    ensures done { result ≡ DONE → IfSome (dict_in handle.old.slot.seal.held) (λ d. IfSome (text_in line.new.slot.seal.held)
        (λ text. IsVerdictLine d (policy_of unknown) (limit_of levels) message.now text)) }
    ensures is_open { result ≡ DONE → IsSome (text_in line.new.slot.seal.held) }
    ensures kept { result ≢ DONE → line.new.slot.seal.held ≡ line.old.slot.seal.held }
    ensures was_closed { result ≢ IS_OPEN → result ≢ BAD_ARGUMENT → line.old.slot.seal.held ≡ None }
    ensures was_open { result ≡ IS_OPEN → IsSome line.old.slot.seal.held }
    ensures closed { result ≡ IS_CLOSED → handle.old.slot.seal.held ≡ None }
    ensures dict_is_open { (result ≡ DONE) ⊎ (result ≡ NO_MEMORY) → IsSome (dict_in handle.old.slot.seal.held) }
    ensures bad { result ≡ BAD_ARGUMENT → ¬ IsUnknownPolicy unknown }
    ensures good { result ≢ BAD_ARGUMENT → IsUnknownPolicy unknown }
{
    let Some(unknown) = policy_of(unknown) else {
        return BAD_ARGUMENT;
    };
    if line.is_open() {
        return IS_OPEN;
    }
    let levels = limit_of(levels);
    let Some(held) = handle.take(alloc) else {
        return IS_CLOSED;
    };
    let made = verdict_line(alloc, &**owner_in(&held), unknown, levels, message);
    handle.put(held);
    match made {
        Ok(text) => {
            line.put(text);
            DONE
        }
        Err(AllocError) => NO_MEMORY,
    }
}

/// How many bytes the message has whose header begins these.
pub fn message_length(header: &[u8], length: &mut u32, verdict: &mut Verdict) -> u32
    ensures ends { (result ≡ DONE) ⊎ (result ≡ REFUSED) }
    ensures done { result ≡ DONE → HasLength header.now length.new }
    ensures refused { result ≡ REFUSED → IsHeadVerdict header.now verdict.new }
    ensures only { result ≡ DONE → verdict.new ≡ verdict.old }
    ensures kept { result ≡ REFUSED → length.new ≡ length.old }
{
    match verdict::message_length(header) {
        Ok(found) => {
            *length = found;
            DONE
        }
        Err(recorded) => {
            *verdict = recorded;
            REFUSED
        }
    }
}
