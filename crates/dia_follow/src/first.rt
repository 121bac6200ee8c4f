//! The first AVP of a code in a level, and where no AVP begins.

ghost use Rattle.std.specs.Prelude.{◌≡◌, List, ℕ};
ghost use Rattle.std.specs.Option.{option_copied};
ghost use Rattle.dia_wire.specs.Wire.{PlainAvp, plain_avp};
ghost use Rattle.dia_follow.specs.Fronts.{IsFront, first_data, first_number, is_avp, number_of};

use dia_wire::{Avp, AvpFault, Avps, key, next_avp, number32};

/// What is left of a level after its AVPs: nothing, or where no AVP begins.
pub(crate) fn after_avps(level: &[u8]) -> &[u8]
    ensures { (avps : List PlainAvp) × IsFront avps level.entry.now result.now }
{
    let mut left = level;
    loop {
        match next_avp(left) {
            Ok(Some((_, following))) => left = following,
            Ok(None) => return left,
            Err(AvpFault::Length) => return left,
        }
    }
}

/// Every level has a front.
pub(crate) fn know_front(level: &[u8])
    ensures { (avps : List PlainAvp) × (left : List ℕ) × IsFront avps level.now left }
{
    let _ = after_avps(level);
}

/// The data of the first AVP of a code, without vendor.
pub(crate) fn first_data(level: &[u8], code: u32) -> Option<&[u8]>
    ensures { (avps : List PlainAvp) (left : List ℕ) → IsFront avps level.entry.now left
        → option_copied result ≡ first_data code avps }
{
    for found in Avps::new(level) {
        let Ok(avp) = found else { break };
        if is_avp(&avp, code) {
            return Some(avp.bytes);
        }
    }
    None
}

/// The number that is the data of the first AVP of a code, without vendor.
pub(crate) fn first_number(level: &[u8], code: u32) -> Option<u32>
    ensures { (avps : List PlainAvp) (left : List ℕ) → IsFront avps level.now left
        → result ≡ first_number code avps }
{
    match first_data(level, code) {
        Some(bytes) => number_of(bytes),
        None => None,
    }
}

pub(crate) fn number_of(bytes: &[u8]) -> Option<u32>
    ensures { result ≡ number_of bytes.now }
{
    number32(bytes)
}

pub(crate) fn is_avp(avp: &Avp<'_>, code: u32) -> bool
    ensures { result ≡ is_avp code (plain_avp avp.now) }
{
    let key = key(avp);
    key.code == code && key.vendor == 0
}
