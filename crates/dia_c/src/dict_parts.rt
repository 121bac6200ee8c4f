//! The commands and the AVPs of a dictionary, one by one.

ghost use Rattle.std.specs.Prelude.{◌⊎◌, ◌≡◌, ◌≢◌, ◌≤◌, IfSome, IsSome, None, length};
ghost use Rattle.dia_c_calls.specs.DictParts.{IsAvpAt, IsCommandAt};
ghost use Rattle.dia_c_calls.specs.Held.{dict_in};

use dia_c_calls::{DONE, DictAvp, DictCommand, DictHandle, IS_CLOSED, NONE};
use std::alloc::Global;

/// How many commands the dictionary has.
#[unsafe(no_mangle)]
pub extern "C" fn dia_dict_commands(
    alloc: Global,
    handle: &mut DictHandle,
    count: &mut usize,
) -> u32
    ensures ends { (result ≡ DONE) ⊎ (result ≡ IS_CLOSED) }
    ensures kept { handle.new.slot.seal.held ≡ handle.old.slot.seal.held }
    ensures done { result ≡ DONE → IfSome (dict_in handle.old.slot.seal.held) (λ d. count.new ≡ length d.commands) }
    ensures only { result ≡ IS_CLOSED → count.new ≡ count.old }
    ensures closed { result ≡ IS_CLOSED → handle.old.slot.seal.held ≡ None }
    ensures was_open { result ≡ DONE → IsSome (dict_in handle.old.slot.seal.held) }
{
    dia_c_calls::dict_commands(alloc, handle, count)
}

/// Delivers a command by its index, from 0.
#[unsafe(no_mangle)]
pub extern "C" fn dia_dict_command(
    alloc: Global,
    handle: &mut DictHandle,
    index: usize,
    command: &mut DictCommand,
) -> u32
    ensures ends { (result ≡ DONE) ⊎ (result ≡ NONE) ⊎ (result ≡ IS_CLOSED) }
    ensures kept { handle.new.slot.seal.held ≡ handle.old.slot.seal.held }
    ensures done { result ≡ DONE → IfSome (dict_in handle.old.slot.seal.held) (λ d. IsCommandAt d index command.new) }
    ensures none { result ≡ NONE → IfSome (dict_in handle.old.slot.seal.held) (λ d. length d.commands ≤ index) }
    ensures only { result ≢ DONE → command.new ≡ command.old }
    ensures closed { result ≡ IS_CLOSED → handle.old.slot.seal.held ≡ None }
    ensures was_open { result ≢ IS_CLOSED → IsSome (dict_in handle.old.slot.seal.held) }
{
    dia_c_calls::dict_command(alloc, handle, index, command)
}

/// How many AVPs the dictionary has.
#[unsafe(no_mangle)]
pub extern "C" fn dia_dict_avps(alloc: Global, handle: &mut DictHandle, count: &mut usize) -> u32
    ensures ends { (result ≡ DONE) ⊎ (result ≡ IS_CLOSED) }
    ensures kept { handle.new.slot.seal.held ≡ handle.old.slot.seal.held }
    ensures done { result ≡ DONE → IfSome (dict_in handle.old.slot.seal.held) (λ d. count.new ≡ length d.entries) }
    ensures only { result ≡ IS_CLOSED → count.new ≡ count.old }
    ensures closed { result ≡ IS_CLOSED → handle.old.slot.seal.held ≡ None }
    ensures was_open { result ≡ DONE → IsSome (dict_in handle.old.slot.seal.held) }
{
    dia_c_calls::dict_avps(alloc, handle, count)
}

/// Delivers an AVP of the dictionary by its index, from 0.
#[unsafe(no_mangle)]
pub extern "C" fn dia_dict_avp(
    alloc: Global,
    handle: &mut DictHandle,
    index: usize,
    avp: &mut DictAvp,
) -> u32
    ensures ends { (result ≡ DONE) ⊎ (result ≡ NONE) ⊎ (result ≡ IS_CLOSED) }
    ensures kept { handle.new.slot.seal.held ≡ handle.old.slot.seal.held }
    ensures done { result ≡ DONE → IfSome (dict_in handle.old.slot.seal.held) (λ d. IsAvpAt d index avp.new) }
    ensures none { result ≡ NONE → IfSome (dict_in handle.old.slot.seal.held) (λ d. length d.entries ≤ index) }
    ensures only { result ≢ DONE → avp.new ≡ avp.old }
    ensures closed { result ≡ IS_CLOSED → handle.old.slot.seal.held ≡ None }
    ensures was_open { result ≢ IS_CLOSED → IsSome (dict_in handle.old.slot.seal.held) }
{
    dia_c_calls::dict_avp(alloc, handle, index, avp)
}
