//! Lengths of levels, and the least ones where an AVP occurs often or seldom.
ghost use Rattle.std.specs.Prelude.{◌≡◌};
ghost use Rattle.dia_breaking_levels.specs.LevelTests.{capped, has_room, swapped, many};
ghost use Rattle.dia_breaking_levels.specs.LevelTests.{listed_at_least, listed_at_most};
ghost use Rattle.dia_breaking_levels.specs.LevelTests.{other_at_least, refilled};

use dia_book::DRule;

/// One byte more than the AVPs of a message may have together. It represents all lengths from there on.
pub const TOO_LONG: u64 = 16_777_193;

pub(crate) fn capped(length: u64) -> u64
    ensures { result ≡ capped length }
{
    length.min(TOO_LONG)
}

/// So many AVPs of one length.
pub(crate) fn many(count: u64, length: u64) -> u64
    ensures { result ≡ many count length }
{
    capped(count.saturating_mul(length))
}

/// A level of the length `base` with some AVPs taken out and others put in.
pub(crate) fn swapped(base: u64, out: u64, into: u64) -> u64
    ensures { result ≡ swapped base out into }
{
    capped(base.saturating_sub(out).saturating_add(into))
}

/// Whether the greatest count is this one or above.
pub(crate) fn has_room(count: u64, max: Option<u32>) -> bool
    ensures { result ≡ has_room count max }
{
    match max {
        Some(max) => count <= u64::from(max),
        None => true,
    }
}

/// The least level in which the rule's AVP, of this length, occurs `count` times or more.
pub(crate) fn listed_at_least(base: u64, length: u64, count: u64, rule: &DRule) -> u64
    ensures { result ≡ listed_at_least base length count rule.now }
{
    if !has_room(count, rule.max) {
        return TOO_LONG;
    }
    let min = u64::from(rule.min);
    swapped(base, many(min, length), many(count.max(min), length))
}

/// The least level in which the rule's AVP occurs at most `count` times.
pub(crate) fn listed_at_most(base: u64, count: u64, rule: &DRule) -> u64
    ensures { result ≡ listed_at_most base count rule.now }
{
    if u64::from(rule.min) <= count {
        base
    } else {
        TOO_LONG
    }
}

/// The least level in which AVPs of this length occur `count` times or more by the wildcard. The least that it lets in has the
/// length `filler`.
pub(crate) fn other_at_least(
    base: u64,
    filler: u64,
    length: u64,
    count: u64,
    wildcard: Option<DRule>,
) -> u64
    ensures { result ≡ other_at_least base filler length count wildcard }
{
    match wildcard {
        Some(wild) => {
            if !has_room(count, wild.max) {
                return TOO_LONG;
            }
            let spared = count.min(u64::from(wild.min));
            swapped(base, many(spared, filler), many(count, length))
        }
        None => TOO_LONG,
    }
}

/// The least level in which of the least AVPs by the wildcard, whose length is `filler`, at most `count` occur, and the others
/// have at least this length.
pub(crate) fn refilled(
    base: u64,
    filler: u64,
    length: u64,
    count: u64,
    wildcard: Option<DRule>,
) -> u64
    ensures { result ≡ refilled base filler length count wildcard }
{
    match wildcard {
        Some(wild) => {
            let left = u64::from(wild.min).saturating_sub(count);
            swapped(base, many(left, filler), many(left, length))
        }
        None => base,
    }
}
