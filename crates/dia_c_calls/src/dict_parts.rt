//! The commands and the AVPs of a dictionary, one by one.

ghost use Rattle.std.specs.Prelude.{◌⊎◌, ◌≡◌, ◌≢◌, ◌≤◌, IfSome, IsSome, None, length};
ghost use Rattle.dia_c_calls.specs.DictParts.{IsAvpAt, IsCommandAt};
ghost use Rattle.dia_c_calls.specs.Held.{dict_in};

use crate::dict_records::{DictAvp, DictCommand, avp_at, command_at};
use crate::handle::{DictHandle, owner_in};
use crate::status::{DONE, IS_CLOSED, NONE};
use dia_book::Book;
use std::alloc::Global;

/// How many commands the dictionary has.
pub fn dict_commands(alloc: Global, handle: &mut DictHandle, count: &mut usize) -> u32
    ensures ends { (result ≡ DONE) ⊎ (result ≡ IS_CLOSED) }
    ensures kept { handle.new.slot.seal.held ≡ handle.old.slot.seal.held }
    ensures done { result ≡ DONE → IfSome (dict_in handle.old.slot.seal.held) (λ d. count.new ≡ length d.commands) }
    ensures only { result ≡ IS_CLOSED → count.new ≡ count.old }
    ensures closed { result ≡ IS_CLOSED → handle.old.slot.seal.held ≡ None }
    ensures was_open { result ≡ DONE → IsSome (dict_in handle.old.slot.seal.held) }
{
    let Some(held) = handle.take(alloc) else {
        return IS_CLOSED;
    };
    *count = owner_in(&held).commands();
    handle.put(held);
    DONE
}

/// Delivers a command by its index, from 0.
pub fn dict_command(
    alloc: Global,
    handle: &mut DictHandle,
    index: usize,
    command: &mut DictCommand,
) -> u32
    ensures ends { (result ≡ DONE) ⊎ (result ≡ NONE) ⊎ (result ≡ IS_CLOSED) }
    ensures kept { handle.new.slot.seal.held ≡ handle.old.slot.seal.held }
    ensures done { result ≡ DONE → IfSome (dict_in handle.old.slot.seal.held) (λ d. IsCommandAt d index command.new) }
    ensures none { result ≡ NONE → IfSome (dict_in handle.old.slot.seal.held) (λ d. length d.commands ≤ index) }
    ensures only { result ≢ DONE → command.new ≡ command.old }
    ensures closed { result ≡ IS_CLOSED → handle.old.slot.seal.held ≡ None }
    ensures was_open { result ≢ IS_CLOSED → IsSome (dict_in handle.old.slot.seal.held) }
{
    let Some(held) = handle.take(alloc) else {
        return IS_CLOSED;
    };
    let found = command_at(&**owner_in(&held), index);
    handle.put(held);
    match found {
        Some(recorded) => {
            *command = recorded;
            DONE
        }
        None => NONE,
    }
}

/// How many AVPs the dictionary has.
pub fn dict_avps(alloc: Global, handle: &mut DictHandle, count: &mut usize) -> u32
    ensures ends { (result ≡ DONE) ⊎ (result ≡ IS_CLOSED) }
    ensures kept { handle.new.slot.seal.held ≡ handle.old.slot.seal.held }
    ensures done { result ≡ DONE → IfSome (dict_in handle.old.slot.seal.held) (λ d. count.new ≡ length d.entries) }
    ensures only { result ≡ IS_CLOSED → count.new ≡ count.old }
    ensures closed { result ≡ IS_CLOSED → handle.old.slot.seal.held ≡ None }
    ensures was_open { result ≡ DONE → IsSome (dict_in handle.old.slot.seal.held) }
{
    let Some(held) = handle.take(alloc) else {
        return IS_CLOSED;
    };
    *count = owner_in(&held).entries();
    handle.put(held);
    DONE
}

/// Delivers an AVP of the dictionary by its index, from 0.
pub fn dict_avp(alloc: Global, handle: &mut DictHandle, index: usize, avp: &mut DictAvp) -> u32
    ensures ends { (result ≡ DONE) ⊎ (result ≡ NONE) ⊎ (result ≡ IS_CLOSED) }
    ensures kept { handle.new.slot.seal.held ≡ handle.old.slot.seal.held }
    ensures done { result ≡ DONE → IfSome (dict_in handle.old.slot.seal.held) (λ d. IsAvpAt d index avp.new) }
    ensures none { result ≡ NONE → IfSome (dict_in handle.old.slot.seal.held) (λ d. length d.entries ≤ index) }
    ensures only { result ≢ DONE → avp.new ≡ avp.old }
    ensures closed { result ≡ IS_CLOSED → handle.old.slot.seal.held ≡ None }
    ensures was_open { result ≢ IS_CLOSED → IsSome (dict_in handle.old.slot.seal.held) }
{
    let Some(held) = handle.take(alloc) else {
        return IS_CLOSED;
    };
    let found = avp_at(&**owner_in(&held), index);
    handle.put(held);
    match found {
        Some(recorded) => {
            *avp = recorded;
            DONE
        }
        None => NONE,
    }
}
