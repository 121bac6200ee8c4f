//! The entries of the list of accepted lines that are stale.

ghost use Rattle.std.specs.Prelude.{◌≡◌, ◌<◌, ◌++◌, All, IfOk, List, false, filter, length, map, true};
ghost use Rattle.dia_accepted.specs.Accepted.{is_about, plain_entry};
ghost use Rattle.dia_breaking.specs.Upgrades.{sides_of};
ghost use Rattle.dia_upgrades.specs.Asking.{names_of};
ghost use Rattle.dia_upgrades.specs.Places.{asked_places};
ghost use Rattle.dia_upgrades.specs.Stale.{AreLookedFor, AreUnused, AreUnusedBy, AreUnusedWith};
ghost use Rattle.dia_upgrades.specs.Recorded.{AreRecorded};
ghost use Rattle.dia_upgrades.specs.Rows.{Row, unused_of};

use crate::asked::{Asked, Stale};
use crate::lines::put_lines;
use crate::nowhere::Nowhere;
use crate::words::InWords;
use dia_accepted::{Entry, about};
use dia_breaking::Upgrade;
use dia_dict::Book;
use dia_io::RunFault;
use dia_terms::{Sends, Unknown};
use std::alloc::{AllocError, Global};

/// The stale entries among those that accept no line of the answer, unless they are ignored. For entries that may be stale the
/// lines of other policies are found, too.
pub(crate) fn stale_of<A: Book, B: Book>(
    alloc: Global,
    asked: Asked<'_>,
    a: &A,
    b: &B,
    commands: &[usize],
    unused: &[Entry],
) -> Result<Vec<Entry>, AllocError>
    requires { All (λ place. place < length (A.meaning a.now).commands) commands.now }
    ensures { IfOk result (λ stale. commands.now ≡ asked_places (A.meaning a.now) (names_of asked.entry)
        → AreLookedFor asked.entry.stale asked.entry (A.meaning a.now) (B.meaning b.now)
        (filter (is_about (names_of asked.entry)) (map plain_entry unused.now)) (map plain_entry stale.items)) }
{
    match asked.stale {
        Stale::Fails => look_for(alloc, asked, a, b, commands, unused),
        Stale::Allowed => look_for(alloc, asked, a, b, commands, unused),
        Stale::Ignored => Ok(Vec::new(alloc)),
    }
}

/// The entries about a command that is asked for that accept no line of any policies.
fn look_for<A: Book, B: Book>(
    alloc: Global,
    asked: Asked<'_>,
    a: &A,
    b: &B,
    commands: &[usize],
    unused: &[Entry],
) -> Result<Vec<Entry>, AllocError>
    requires { All (λ place. place < length (A.meaning a.now).commands) commands.now }
    ensures { IfOk result (λ stale. commands.now ≡ asked_places (A.meaning a.now) (names_of asked.entry)
        → AreUnused asked.entry (A.meaning a.now) (B.meaning b.now)
        (filter (is_about (names_of asked.entry)) (map plain_entry unused.now)) (map plain_entry stale.items)) }
{
    let entries = about(alloc, unused, asked.names)?;
    let first = unused_by(alloc, asked, Sends::Any, a, b, commands, entries)?;
    let second = unused_by(alloc, asked, Sends::Known, a, b, commands, first)?;
    unused_by(alloc, asked, Sends::Listed, a, b, commands, second)
}

/// The entries that accept no line where A's side sends this.
fn unused_by<A: Book, B: Book>(
    alloc: Global,
    asked: Asked<'_>,
    sends: Sends,
    a: &A,
    b: &B,
    commands: &[usize],
    list: Vec<Entry>,
) -> Result<Vec<Entry>, AllocError>
    requires { All (λ place. place < length (A.meaning a.now).commands) commands.now }
    ensures { IfOk result (λ left. commands.now ≡ asked_places (A.meaning a.now) (names_of asked.entry)
        → AreUnusedBy asked.entry (A.meaning a.now) (B.meaning b.now) sends (map plain_entry list.items)
        (map plain_entry left.items)) }
{
    let mid = unused_with(alloc, asked, sends, Unknown::Kept, a, b, commands, list)?;
    unused_with(alloc, asked, sends, Unknown::Refused, a, b, commands, mid)
}

/// The entries that accept no line of these policies: all, where these are the policies that are asked for.
fn unused_with<A: Book, B: Book>(
    alloc: Global,
    asked: Asked<'_>,
    sends: Sends,
    unknown: Unknown,
    a: &A,
    b: &B,
    commands: &[usize],
    list: Vec<Entry>,
) -> Result<Vec<Entry>, AllocError>
    requires { All (λ place. place < length (A.meaning a.now).commands) commands.now }
    ensures { IfOk result (λ left. commands.now ≡ asked_places (A.meaning a.now) (names_of asked.entry)
        → AreUnusedWith asked.entry (A.meaning a.now) (B.meaning b.now) sends unknown (map plain_entry list.items)
        (map plain_entry left.items)) }
{
    if list.is_empty() {
        return Ok(list);
    }
    if asks_so(asked, sends, unknown) {
        return Ok(list);
    }
    let upgrade = Upgrade::new(alloc, a, b, sends, unknown)?;
    unused_over(alloc, asked, &upgrade, commands, list.as_slice())
}

fn asks_so(asked: Asked<'_>, sends: Sends, unknown: Unknown) -> bool
    ensures { result ≡ true → (sends ≡ asked.entry.sends) × (unknown ≡ asked.entry.unknown) }
{
    sends == asked.sends && unknown == asked.unknown
}

/// The entries that accept no line of the commands at these places.
fn unused_over<A: Book, B: Book>(
    alloc: Global,
    asked: Asked<'_>,
    upgrade: &Upgrade<'_, A, B>,
    commands: &[usize],
    list: &[Entry],
) -> Result<Vec<Entry>, AllocError>
    requires { All (λ place. place < length (sides_of upgrade.now).sender.commands) commands.now }
    ensures { IfOk result (λ left. (recorded : List Row) × (apart : List Row)
        × AreRecorded (sides_of upgrade.now) false asked.entry.meaning commands.now recorded apart
        × (map plain_entry left.items ≡ unused_of (map plain_entry list.now) (recorded ++ apart))) }
{
    let mut nowhere = Nowhere;
    let asked = Asked {
        messages: false,
        once: true,
        ..asked
    };
    match put_lines(
        alloc,
        &mut nowhere,
        upgrade,
        commands,
        asked,
        &InWords,
        list,
    ) {
        Ok(listing) => listing.seen.accepting.unused(alloc),
        Err(RunFault::NoMemory) => Err(AllocError),
        Err(RunFault::Device) => unreachable!(),
    }
}
