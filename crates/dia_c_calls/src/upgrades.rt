//! What breaks where messages of one dictionary are read by another.

ghost use Rattle.std.specs.Prelude.{◌⊎◌, ◌≡◌, ◌≢◌, None, IfSome, IsSome};
ghost use Rattle.dia_c_calls.specs.Held.{dict_in, text_in};
ghost use Rattle.dia_c_calls.specs.Upgrades.{AreNumbers, HasListed, IsNotListed, wanted_of};

use crate::handle::{DictHandle, TextHandle, owner_in};
use crate::opening::{Problem, Refused};
use crate::status::{BAD_ARGUMENT, DONE, IS_CLOSED, IS_OPEN, NO_MEMORY, REFUSED};
use crate::upgrade::listed;
use crate::wanted::wanted_of;
use std::alloc::Global;

/// What `diacmd breaking` writes of two dictionaries.
pub fn breaking(
    alloc: Global,
    a: &mut DictHandle,
    b: &mut DictHandle,
    sends: u32,
    unknown: u32,
    options: u32,
    commands: &[u8],
    accepted: &[u8],
    text: &mut TextHandle,
    safe: &mut u32,
    problem: &mut Problem,
) -> u32
    ensures ends { (result ≡ DONE) ⊎ (result ≡ REFUSED) ⊎ (result ≡ NO_MEMORY) ⊎ (result ≡ IS_OPEN) ⊎ (result ≡ IS_CLOSED)
        ⊎ (result ≡ BAD_ARGUMENT) }
    ensures kept_a { a.new.slot.seal.held ≡ a.old.slot.seal.held }
    ensures kept_b { b.new.slot.seal.held ≡ b.old.slot.seal.held }
    ensures done { result ≡ DONE → IfSome (dict_in a.old.slot.seal.held) (λ first. IfSome (dict_in b.old.slot.seal.held)
        (λ second. IfSome (text_in text.new.slot.seal.held)
        (λ recorded. HasListed first second (wanted_of sends unknown options) commands.now accepted.now recorded safe.new))) }
    ensures is_open { result ≡ DONE → IsSome (text_in text.new.slot.seal.held) }
    ensures kept { result ≢ DONE → text.new.slot.seal.held ≡ text.old.slot.seal.held }
    ensures refused { result ≡ REFUSED → IfSome (dict_in a.old.slot.seal.held)
        (λ first. IsNotListed first commands.now accepted.now problem.new) }
    ensures only { result ≢ REFUSED → problem.new ≡ problem.old }
    ensures only_done { result ≢ DONE → safe.new ≡ safe.old }
    ensures was_closed { result ≢ IS_OPEN → result ≢ BAD_ARGUMENT → text.old.slot.seal.held ≡ None }
    ensures was_open { result ≡ IS_OPEN → IsSome text.old.slot.seal.held }
    ensures closed { result ≡ IS_CLOSED → (a.old.slot.seal.held ≡ None) ⊎ (b.old.slot.seal.held ≡ None) }
    ensures first_is_open { (result ≡ DONE) ⊎ (result ≡ REFUSED) ⊎ (result ≡ NO_MEMORY) → IsSome (dict_in a.old.slot.seal.held) }
    ensures second_is_open { (result ≡ DONE) ⊎ (result ≡ REFUSED) ⊎ (result ≡ NO_MEMORY) → IsSome (dict_in b.old.slot.seal.held) }
    ensures bad { result ≡ BAD_ARGUMENT → ¬ AreNumbers sends unknown options }
    ensures good { result ≢ BAD_ARGUMENT → AreNumbers sends unknown options }
{
    let Some(wanted) = wanted_of(sends, unknown, options) else {
        return BAD_ARGUMENT;
    };
    if text.is_open() {
        return IS_OPEN;
    }
    let Some(first) = a.take(alloc) else {
        return IS_CLOSED;
    };
    let Some(second) = b.take(alloc) else {
        a.put(first);
        return IS_CLOSED;
    };
    let answer = listed(
        alloc,
        &**owner_in(&first),
        &**owner_in(&second),
        wanted,
        commands,
        accepted,
    );
    a.put(first);
    b.put(second);
    match answer {
        Ok(found) => {
            *safe = found.holds;
            text.put(found.text);
            DONE
        }
        Err(refused) => match refused {
            Refused::Bad(recorded) => {
                *problem = recorded;
                REFUSED
            }
            Refused::NoMemory => NO_MEMORY,
        },
    }
}
