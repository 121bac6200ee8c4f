//! The shortest ways that are known so far.
ghost use Rattle.std.specs.Prelude.{◌+◌, ◌≤◌, ◌↔◌, length, SomeIff, IsTrue};
ghost use Rattle.dia_breaking_ways.specs.Offers.{IsEarlier, IsOffered, IsSooner, AreOffered};

use crate::graph::Reach;

/// The sum of two lengths, if it is within the room.
pub(crate) fn within(room: u64, a: u64, b: u64) -> Option<u64>
    ensures { SomeIff result (a + b ≤ room) (a + b) }
{
    if b <= room && a <= room - b {
        Some(a + b)
    } else {
        None
    }
}

/// Whether a way is shorter than another; or as long, and by rules alone where the other isn't; or else in an earlier level.
fn is_sooner(reach: Reach, other: Reach) -> bool
    ensures { IsTrue result ↔ IsSooner reach other }
{
    if reach.length != other.length {
        reach.length < other.length
    } else if reach.wild != other.wild {
        other.wild
    } else {
        reach.level < other.level
    }
}

/// Whether a way comes before the one that is known.
fn is_earlier(known: Option<Reach>, reach: Reach) -> bool
    ensures { IsTrue result ↔ IsEarlier known reach }
{
    match known {
        Some(other) => is_sooner(reach, other),
        None => true,
    }
}

/// Records a way to an AVP, unless one that is no later is recorded.
pub(crate) fn offer(best: &mut Vec<Option<Reach>>, place: usize, reach: Reach)
    ensures { IsOffered best.old.items best.new.items place reach }
{
    if place < best.len() && is_earlier(best[place], reach) {
        best[place] = Some(reach);
    }
}

/// Records the ways to the AVPs that the rules of a level list.
pub(crate) fn offer_listed(
    best: &mut Vec<Option<Reach>>,
    room: u64,
    level: usize,
    way: u64,
    wild: bool,
    listed: &[(usize, u64)],
)
    ensures { AreOffered best.old.items best.new.items room level way wild listed.now (length listed.now) }
{
    for (place, inner) in listed {
        if let Some(length) = within(room, way, *inner) {
            let reach = Reach {
                level,
                length,
                wild,
            };
            offer(best, *place, reach);
        }
    }
}
