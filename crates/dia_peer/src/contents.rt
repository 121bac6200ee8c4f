//! What the AVPs of a message say: the applications that it names, and its result code.

ghost use Rattle.std.specs.Prelude.{◌≡◌, ◌⊎◌, ◌↔◌, ℕ, List, IsTrue, IfOk, OnOk, MatchOption, drop, option_copied};
ghost use Rattle.dia_peer.specs.Values.{first_data, has_code};
ghost use Rattle.std.specs.List.{AllByRecursion};
ghost use Rattle.dia_wire.specs.Wire.{PlainAvp, plain_avp, SpellsAll};
ghost use Rattle.dia_peer.specs.Core.{Pair, are_in_order};
ghost use Rattle.dia_peer.specs.Incoming.{
  Has,
  HasNumber,
  NamesApplication,
  SaidBy,
  Records,
  IsReadable,
  IsResult,
  HasCode,
  kind_of,
  is_vendor_specific,
  is_result_code,
  pairs_named,
};

use crate::codes::{
    ACCT_APPLICATION_ID, AUTH_APPLICATION_ID, RESULT_CODE, VENDOR_SPECIFIC_APPLICATION_ID,
};
use crate::config::Kind;
use crate::named_apps::NamedApps;
use dia_book::Key;
use dia_wire::{Avp, Avps, HEADER_LENGTH, key, number32};
use std::alloc::{AllocError, Global};

/// The applications that the AVPs of a body name, and those directly inside its Vendor-Specific-Application-Ids.
///
/// Each is put into an ordered set: a body of n AVPs takes n times log n steps.
pub(crate) fn named_in(alloc: Global, body: &[u8]) -> Result<NamedApps, AllocError>
    ensures recorded { IfOk result
        (λ named. (avps : List PlainAvp) → SpellsAll avps body.now → AllByRecursion IsReadable avps
        → (p : Pair) → Has named p ↔ SaidBy Records avps p) }
    ensures ordered { IfOk result (λ named. IsTrue (are_in_order (pairs_named named))) }
{
    let mut named = NamedApps::new(alloc);
    for found in Avps::new(body) {
        let Ok(avp) = found else { break };
        add_recorded(&mut named, &avp)?;
    }
    named.know_their_order();
    Ok(named)
}

/// The data of the first AVP of a code without vendor in a message.
pub(crate) fn first_data(message: &[u8], code: u32) -> Option<&[u8]>
    ensures { (avps : List PlainAvp) → SpellsAll avps (drop 20 message.entry.now)
        → option_copied result ≡ first_data code avps }
{
    let length = message.len();
    if length < HEADER_LENGTH {
        return None;
    }
    first_in(&message[HEADER_LENGTH..], code)
}

/// The same in a body.
fn first_in(body: &[u8], code: u32) -> Option<&[u8]>
    ensures { (avps : List PlainAvp) → SpellsAll avps body.entry.now
        → option_copied result ≡ first_data code avps }
{
    for found in Avps::new(body) {
        let Ok(avp) = found else { break };
        if has_code(key(&avp), code) {
            return Some(avp.bytes);
        }
    }
    None
}

fn has_code(key: Key, code: u32) -> bool
    ensures { result ≡ has_code code key }
{
    key.code == code && key.vendor == 0
}

/// The number of the first Result-Code.
pub(crate) fn result_code(body: &[u8]) -> Option<u32>
    ensures { (avps : List PlainAvp) → SpellsAll avps body.now → AllByRecursion HasCode avps
        → MatchOption result ((n : ℕ) → ¬ SaidBy IsResult avps n) (SaidBy IsResult avps) }
{
    for found in Avps::new(body) {
        let Ok(avp) = found else { break };
        if is_result_code(key(&avp)) {
            return number32(avp.bytes);
        }
    }
    None
}

/// Adds the application that an AVP names, and those that are directly inside it.
fn add_recorded(named: &mut NamedApps, avp: &Avp<'_>) -> Result<(), AllocError>
    ensures { OnOk result
        (IsReadable (plain_avp avp.now) → (p : Pair) → Has named.new p
        ↔ (Has named.old p ⊎ Records (plain_avp avp.now) p)) }
{
    add_named(named, avp)?;
    if is_vendor_specific(key(avp)) {
        add_members(named, avp.bytes)?;
    }
    Ok(())
}

/// Adds the applications that the AVPs of a group name.
fn add_members(named: &mut NamedApps, level: &[u8]) -> Result<(), AllocError>
    ensures { OnOk result
        ((avps : List PlainAvp) → SpellsAll avps level.now
        → AllByRecursion HasNumber avps → (p : Pair)
        → Has named.new p ↔ (Has named.old p ⊎ SaidBy NamesApplication avps p)) }
{
    for found in Avps::new(level) {
        let Ok(avp) = found else { break };
        add_named(named, &avp)?;
    }
    Ok(())
}

/// Adds the application that an AVP names.
fn add_named(named: &mut NamedApps, avp: &Avp<'_>) -> Result<(), AllocError>
    ensures { OnOk result
        (HasNumber (plain_avp avp.now) → (p : Pair) → Has named.new p
        ↔ (Has named.old p ⊎ NamesApplication (plain_avp avp.now) p)) }
{
    let Some(kind) = kind_of(key(avp)) else {
        return Ok(());
    };
    let Some(id) = number32(avp.bytes) else {
        return Ok(());
    };
    named.insert(kind, id)?;
    Ok(())
}

fn kind_of(key: Key) -> Option<Kind>
    ensures { result ≡ kind_of key }
{
    match (key.vendor, key.code) {
        (0, AUTH_APPLICATION_ID) => Some(Kind::Auth),
        (0, ACCT_APPLICATION_ID) => Some(Kind::Acct),
        _ => None,
    }
}

fn is_vendor_specific(key: Key) -> bool
    ensures { result ≡ is_vendor_specific key }
{
    key.code == VENDOR_SPECIFIC_APPLICATION_ID && key.vendor == 0
}

fn is_result_code(key: Key) -> bool
    ensures { result ≡ is_result_code key }
{
    key.code == RESULT_CODE && key.vendor == 0
}
