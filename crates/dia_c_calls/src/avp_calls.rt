//! The AVPs of a message.

ghost use Rattle.std.specs.Prelude.{◌⊎◌, ◌≡◌, ◌≢◌, ◌≤◌, ◌<◌, IfSome, IsSome, None, length};
ghost use Rattle.dia_c_calls.specs.Avps.{AreListed};
ghost use Rattle.dia_c_calls.specs.FirstAvps.{HasNoneIn, IsFirstIn};
ghost use Rattle.dia_c_calls.specs.Held.{dict_in};
ghost use Rattle.dia_c_calls.specs.HeldOffsets.{AreFoundAt};
ghost use Rattle.dia_c_calls.specs.Verdicts.{IsNoMessage};

use crate::avp_list::list_avps;
use crate::avp_path::list_path;
use crate::avp_records::MessageAvp;
use crate::first_avp::find_avp;
use crate::handle::{DictHandle, owner_in};
use crate::listing::Unshown;
use crate::status::{DONE, IS_CLOSED, NO_MEMORY, NO_ROOM, NONE, REFUSED};
use crate::verdict::Verdict;
use dia_book::Key;
use std::alloc::Global;

/// The AVPs of a message, with what the dictionary has of them.
pub fn avps(
    alloc: Global,
    handle: &mut DictHandle,
    message: &[u8],
    avps: &mut [MessageAvp],
    count: &mut usize,
    bad: &mut usize,
    verdict: &mut Verdict,
) -> u32
    ensures ends { (result ≡ DONE) ⊎ (result ≡ REFUSED) ⊎ (result ≡ NO_MEMORY) ⊎ (result ≡ NO_ROOM) ⊎ (result ≡ IS_CLOSED) }
    ensures kept { handle.new.slot.seal.held ≡ handle.old.slot.seal.held }
    ensures listed { (result ≡ DONE) ⊎ (result ≡ NO_ROOM) → IfSome (dict_in handle.old.slot.seal.held)
        (λ d. AreListed d message.now avps.old avps.new count.new bad.new) }
    ensures refused { result ≡ REFUSED → IsNoMessage message.now verdict.new }
    ensures fits { result ≡ DONE → count.new ≤ length avps.old }
    ensures room { result ≡ NO_ROOM → length avps.old < count.new }
    ensures untouched { (result ≡ REFUSED) ⊎ (result ≡ IS_CLOSED) → avps.new ≡ avps.old }
    ensures only_count { result ≢ DONE → result ≢ NO_ROOM → (count.new ≡ count.old) × (bad.new ≡ bad.old) }
    ensures only { result ≢ REFUSED → verdict.new ≡ verdict.old }
    ensures closed { result ≡ IS_CLOSED → handle.old.slot.seal.held ≡ None }
    ensures dict_is_open { result ≢ IS_CLOSED → IsSome (dict_in handle.old.slot.seal.held) }
{
    let Some(held) = handle.take(alloc) else {
        return IS_CLOSED;
    };
    let room = avps.len();
    let answer = list_avps(alloc, &**owner_in(&held), message, avps);
    handle.put(held);
    match answer {
        Ok(found) => {
            *count = found.count;
            *bad = found.bad;
            if found.count > room { NO_ROOM } else { DONE }
        }
        Err(unlisted) => match unlisted {
            Unshown::NoMessage(recorded) => {
                *verdict = recorded;
                REFUSED
            }
            Unshown::NoMemory => NO_MEMORY,
        },
    }
}

/// The AVPs of a message that hold the byte at an offset, the outermost first: the groups around an AVP, and the AVP.
pub fn avps_at(
    alloc: Global,
    handle: &mut DictHandle,
    message: &[u8],
    offset: usize,
    avps: &mut [MessageAvp],
    count: &mut usize,
    verdict: &mut Verdict,
) -> u32
    ensures ends { (result ≡ DONE) ⊎ (result ≡ REFUSED) ⊎ (result ≡ NO_ROOM) ⊎ (result ≡ IS_CLOSED) }
    ensures kept { handle.new.slot.seal.held ≡ handle.old.slot.seal.held }
    ensures found { (result ≡ DONE) ⊎ (result ≡ NO_ROOM) → IfSome (dict_in handle.old.slot.seal.held)
        (λ d. AreFoundAt d message.now offset avps.old avps.new count.new) }
    ensures refused { result ≡ REFUSED → IsNoMessage message.now verdict.new }
    ensures fits { result ≡ DONE → count.new ≤ length avps.old }
    ensures room { result ≡ NO_ROOM → length avps.old < count.new }
    ensures untouched { (result ≡ REFUSED) ⊎ (result ≡ IS_CLOSED) → avps.new ≡ avps.old }
    ensures only_count { (result ≡ REFUSED) ⊎ (result ≡ IS_CLOSED) → count.new ≡ count.old }
    ensures only { result ≢ REFUSED → verdict.new ≡ verdict.old }
    ensures closed { result ≡ IS_CLOSED → handle.old.slot.seal.held ≡ None }
    ensures dict_is_open { result ≢ IS_CLOSED → IsSome (dict_in handle.old.slot.seal.held) }
{
    let Some(held) = handle.take(alloc) else {
        return IS_CLOSED;
    };
    let room = avps.len();
    let answer = list_path(&**owner_in(&held), message, offset, avps);
    handle.put(held);
    match answer {
        Ok(found) => {
            *count = found;
            if found > room { NO_ROOM } else { DONE }
        }
        Err(recorded) => {
            *verdict = recorded;
            REFUSED
        }
    }
}

/// The first AVP of a message that has this code and this vendor, 0 for none, and is in no group.
pub fn avp_find(
    alloc: Global,
    handle: &mut DictHandle,
    message: &[u8],
    code: u32,
    vendor: u32,
    avp: &mut MessageAvp,
    verdict: &mut Verdict,
) -> u32
    ensures ends { (result ≡ DONE) ⊎ (result ≡ NONE) ⊎ (result ≡ REFUSED) ⊎ (result ≡ IS_CLOSED) }
    ensures kept { handle.new.slot.seal.held ≡ handle.old.slot.seal.held }
    ensures found { result ≡ DONE → IfSome (dict_in handle.old.slot.seal.held)
        (λ d. IsFirstIn d message.now code vendor avp.new) }
    ensures none { result ≡ NONE → IfSome (dict_in handle.old.slot.seal.held)
        (λ d. HasNoneIn d message.now code vendor) }
    ensures refused { result ≡ REFUSED → IsNoMessage message.now verdict.new }
    ensures untouched { result ≢ DONE → avp.new ≡ avp.old }
    ensures only { result ≢ REFUSED → verdict.new ≡ verdict.old }
    ensures closed { result ≡ IS_CLOSED → handle.old.slot.seal.held ≡ None }
    ensures dict_is_open { result ≢ IS_CLOSED → IsSome (dict_in handle.old.slot.seal.held) }
{
    let Some(held) = handle.take(alloc) else {
        return IS_CLOSED;
    };
    let answer = find_avp(&**owner_in(&held), message, Key { code, vendor });
    handle.put(held);
    match answer {
        Ok(found) => match found {
            Some(recorded) => {
                *avp = recorded;
                DONE
            }
            None => NONE,
        },
        Err(recorded) => {
            *verdict = recorded;
            REFUSED
        }
    }
}
