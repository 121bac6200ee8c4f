//! Dictionaries: opened from a text or built in, shared, closed, and asked for names.

ghost use Rattle.std.specs.Prelude.{◌⊎◌, ◌≡◌, ◌≢◌, ◌≤◌, ◌<◌, ℕ, List, length, take, drop};
ghost use Rattle.std.specs.Prelude.{None, Some, IsSome, IfSome, IfOk};
ghost use Rattle.dia_book.specs.Dictionary.{definitions, entry_of, groups};
ghost use Rattle.dia_dict.specs.Base.{base};
ghost use Rattle.dia_c_calls.specs.Held.{dict_in, MayBeDict};
ghost use Rattle.dia_c_calls.specs.Names.{IsCommandName, IsAvpName};
ghost use Rattle.dia_c_calls.specs.Openings.{IsTextOf, HasProblem};

use crate::handle::{DictHandle, owner_in};
use crate::held::Held;
use crate::names;
use crate::names::copied;
use crate::opening::{Problem, Refused, base_opened, opened};
use crate::status::{DONE, IS_CLOSED, IS_OPEN, NO_MEMORY, NO_ROOM, NONE, REFUSED};
use dia_book::Key;
use dia_check::Room;
use dia_dict::IndexedBook;
use std::alloc::{AllocError, Global};
use std::sync::Arc;

/// Opens the dictionary of a text.
pub fn dict_open(alloc: Global, text: &[u8], handle: &mut DictHandle, problem: &mut Problem) -> u32
    ensures ends { (result ≡ DONE) ⊎ (result ≡ REFUSED) ⊎ (result ≡ NO_MEMORY) ⊎ (result ≡ IS_OPEN) }
    ensures done { result ≡ DONE → IfSome (dict_in handle.new.slot.seal.held) (IsTextOf text.now) }
    ensures is_open { result ≡ DONE → IsSome (dict_in handle.new.slot.seal.held) }
    ensures kept { result ≢ DONE → handle.new.slot.seal.held ≡ handle.old.slot.seal.held }
    ensures refused { result ≡ REFUSED → HasProblem text.now problem.new }
    ensures only { result ≢ REFUSED → problem.new ≡ problem.old }
    ensures was_closed { result ≢ IS_OPEN → handle.old.slot.seal.held ≡ None }
    ensures was_open { result ≡ IS_OPEN → IsSome handle.old.slot.seal.held }
{
    if handle.is_open() {
        return IS_OPEN;
    }
    match opened(alloc, text) {
        Ok(book) => {
            handle.put(book);
            DONE
        }
        Err(Refused::Bad(recorded)) => {
            *problem = recorded;
            REFUSED
        }
        Err(Refused::NoMemory) => NO_MEMORY,
    }
}

/// Opens the built-in dictionary of RFC 6733.
pub fn dict_open_base(alloc: Global, handle: &mut DictHandle) -> u32
    ensures ends { (result ≡ DONE) ⊎ (result ≡ NO_MEMORY) ⊎ (result ≡ IS_OPEN) }
    ensures done { result ≡ DONE → dict_in handle.new.slot.seal.held ≡ Some base }
    ensures kept { result ≢ DONE → handle.new.slot.seal.held ≡ handle.old.slot.seal.held }
    ensures was_closed { result ≢ IS_OPEN → handle.old.slot.seal.held ≡ None }
    ensures was_open { result ≡ IS_OPEN → IsSome handle.old.slot.seal.held }
{
    if handle.is_open() {
        return IS_OPEN;
    }
    match base_opened(alloc) {
        Ok(book) => {
            handle.put(book);
            DONE
        }
        Err(AllocError) => NO_MEMORY,
    }
}

/// Lets the dictionary go, if the handle has one.
pub fn dict_close(alloc: Global, handle: &mut DictHandle)
    ensures closed { handle.new.slot.seal.held ≡ None }
{
    drop(handle.take(alloc));
}

/// Makes a closed handle another one of the same dictionary.
pub fn dict_share(alloc: Global, handle: &mut DictHandle, other: &mut DictHandle) -> u32
    ensures ends { (result ≡ DONE) ⊎ (result ≡ NO_MEMORY) ⊎ (result ≡ IS_OPEN) ⊎ (result ≡ IS_CLOSED) }
    ensures kept { handle.new.slot.seal.held ≡ handle.old.slot.seal.held }
    ensures done { result ≡ DONE → dict_in other.new.slot.seal.held ≡ dict_in handle.old.slot.seal.held }
    ensures is_open { result ≡ DONE → IsSome (dict_in other.new.slot.seal.held) }
    ensures refused { result ≢ DONE → other.new.slot.seal.held ≡ other.old.slot.seal.held }
    ensures was_closed { result ≢ IS_OPEN → other.old.slot.seal.held ≡ None }
    ensures was_open { result ≡ IS_OPEN → IsSome other.old.slot.seal.held }
    ensures closed { result ≡ IS_CLOSED → handle.old.slot.seal.held ≡ None }
{
    if other.is_open() {
        return IS_OPEN;
    }
    let Some(held) = handle.take(alloc) else {
        return IS_CLOSED;
    };
    let made = owner_of(alloc, owner_in(&held));
    handle.put(held);
    match made {
        Ok(owner) => {
            other.put(owner);
            DONE
        }
        Err(AllocError) => NO_MEMORY,
    }
}

/// Another owner of a dictionary.
fn owner_of(alloc: Global, owner: &Arc<IndexedBook>) -> Result<Box<Held>, AllocError>
    ensures { IfOk result (λ held. (dict_in (Some held.value) ≡ dict_in (Some (Held.Dict owner.now tt)))
        × ∥ MayBeDict (Some held.value) ∥₁) }
{
    let other = Arc::try_clone(owner)?;
    Ok(Box::new(alloc, Held::Dict(other, Room::new(alloc)))?)
}

/// The name of the command that a verdict's number denotes.
pub fn command_name(
    alloc: Global,
    handle: &mut DictHandle,
    command: u32,
    out: &mut [u8],
    count: &mut usize,
) -> u32
    ensures ends { (result ≡ DONE) ⊎ (result ≡ NONE) ⊎ (result ≡ NO_ROOM) ⊎ (result ≡ IS_CLOSED) }
    ensures kept { handle.new.slot.seal.held ≡ handle.old.slot.seal.held }
    ensures done { result ≡ DONE → IfSome (dict_in handle.old.slot.seal.held)
        (λ d. IsCommandName d command (take count.new out.new)) }
    ensures none { result ≡ NONE → IfSome (dict_in handle.old.slot.seal.held)
        (λ d. (length (definitions d) ≤ command) ⊎ (command < length (groups d))) }
    ensures count { result ≡ DONE → count.new ≤ length out.new }
    ensures rest { result ≡ DONE → drop count.new out.new ≡ drop count.new out.old }
    ensures untouched { result ≢ DONE → out.new ≡ out.old }
    ensures room { result ≡ NO_ROOM → length out.new < count.new }
    ensures wanted { result ≡ NO_ROOM → IfSome (dict_in handle.old.slot.seal.held)
        (λ d. (name : List ℕ) × IsCommandName d command name × (count.new ≡ length name)) }
    ensures only { (result ≡ NONE) ⊎ (result ≡ IS_CLOSED) → count.new ≡ count.old }
    ensures closed { result ≡ IS_CLOSED → handle.old.slot.seal.held ≡ None }
    ensures was_open { result ≢ IS_CLOSED → IsSome (dict_in handle.old.slot.seal.held) }
{
    let Some(held) = handle.take(alloc) else {
        return IS_CLOSED;
    };
    let answer = match names::command_name(&**owner_in(&held), command) {
        Some(name) => copied(name, out, count),
        None => NONE,
    };
    handle.put(held);
    answer
}

/// The name of an AVP.
pub fn avp_name(
    alloc: Global,
    handle: &mut DictHandle,
    code: u32,
    vendor: u32,
    out: &mut [u8],
    count: &mut usize,
) -> u32
    ensures ends { (result ≡ DONE) ⊎ (result ≡ NONE) ⊎ (result ≡ NO_ROOM) ⊎ (result ≡ IS_CLOSED) }
    ensures kept { handle.new.slot.seal.held ≡ handle.old.slot.seal.held }
    ensures done { result ≡ DONE → IfSome (dict_in handle.old.slot.seal.held)
        (λ d. IsAvpName d (record { code = code; vendor = vendor }) (take count.new out.new)) }
    ensures none { result ≡ NONE → IfSome (dict_in handle.old.slot.seal.held)
        (λ d. entry_of d (record { code = code; vendor = vendor }) ≡ None) }
    ensures count { result ≡ DONE → count.new ≤ length out.new }
    ensures rest { result ≡ DONE → drop count.new out.new ≡ drop count.new out.old }
    ensures untouched { result ≢ DONE → out.new ≡ out.old }
    ensures room { result ≡ NO_ROOM → length out.new < count.new }
    ensures wanted { result ≡ NO_ROOM → IfSome (dict_in handle.old.slot.seal.held)
        (λ d. (name : List ℕ) × IsAvpName d (record { code = code; vendor = vendor }) name × (count.new ≡ length name)) }
    ensures only { (result ≡ NONE) ⊎ (result ≡ IS_CLOSED) → count.new ≡ count.old }
    ensures closed { result ≡ IS_CLOSED → handle.old.slot.seal.held ≡ None }
    ensures was_open { result ≢ IS_CLOSED → IsSome (dict_in handle.old.slot.seal.held) }
{
    let Some(held) = handle.take(alloc) else {
        return IS_CLOSED;
    };
    let answer = match names::avp_name(&**owner_in(&held), Key { code, vendor }) {
        Some(name) => copied(name, out, count),
        None => NONE,
    };
    handle.put(held);
    answer
}
