//! The lines of the commands, as they are found.

ghost use Rattle.std.specs.Prelude.{◌≡◌, ◌<◌, ◌↔◌, ◌∷◌, All, Bool, Err, IfErr, IfOk, IsOk, IsTrue, OnOk};
ghost use Rattle.std.specs.Prelude.{List, ℕ, Option, [], length, map, true, false};
ghost use Rattle.dia_breaking.specs.Upgrades.{facts_of, sides_of, stock_of};
ghost use Rattle.dia_breaking.specs.Confirmed.{most_checked_together};
ghost use Rattle.std.specs.Io.KnownBytes.{Appends};
ghost use Rattle.dia_io.specs.declared.RunFault.TheVariants.{Device};
ghost use Rattle.dia_accepted.specs.Accepted.{PlainEntry, plain_entry};
ghost use Rattle.dia_upgrades.specs.declared.asked.Asked.{Asked as AnyAsked};
ghost use Rattle.dia_upgrades.specs.UnderWay.{AreAllPut, AreFirstLines, AreUnderWay, GoesOn, IsPut, IsRecordedIn, IsUnderWay};
ghost use Rattle.dia_upgrades.specs.UnderWay.{SeesApart, Occurs, OccursAfter, OccursPut, StopsAmong, StopsIn, text_shown};
ghost use Rattle.dia_upgrades.specs.Places.{IsEachNew};
ghost use Rattle.dia_upgrades.specs.Recorded.{AreParts, IsRecordedOf};
ghost use Rattle.dia_upgrades.specs.Rows.{Row};
ghost use Rattle.dia_upgrades.specs.Writing.{Writing};

use crate::asked::Asked;
use crate::naming::are_distinct;
use crate::pending::Pending;
use crate::seen::Seen;
use crate::showing::{apart_of, see_line, shown_of};
use crate::shown::add_shown;
use crate::writer::LineWriter;
use dia_accepted::Entry;
use dia_breaking::{Breaks, Line, MOST_CHECKED_TOGETHER, Upgrade};
use dia_dict::Book;
use dia_io::{RunFault, Sink};
use std::alloc::{AllocError, Global};

/// The lines so far.
#[derive(Drop)]
pub(crate) struct Listing<'l> {
    pub seen: Seen<'l>,
    /// What wasn't put yet.
    pub pending: Pending,
    /// How many bytes of messages may still be checked.
    pub budget: u64,
}

/// Puts the lines of the commands at these places of A's commands, as they are found, and answers what is known of them. Where
/// memory is refused, the lines so far are put.
pub(crate) fn put_lines<'l, A: Book, B: Book, S: Sink, W: LineWriter>(
    alloc: Global,
    sink: &mut S,
    upgrade: &'l Upgrade<'_, A, B>,
    places: &[usize],
    asked: Asked<'_>,
    writer: &W,
    list: &'l [Entry],
) -> Result<Box<Listing<'l>>, RunFault>
    requires sound { ¬ IsTrue (S.has_failed sink.old) }
    requires places { All (λ place. place < length (sides_of upgrade.now).sender.commands) places.now }
    ensures all { IfOk result
        (λ listing. AreAllPut (W.writes writer.now) (sides_of upgrade.now) asked.entry (map plain_entry list.now) places.now
        (S.written sink.old) (S.written sink.new) listing.value.seen) }
    ensures front { IfErr result (λ fault. (first : List Row)
        × AreFirstLines (sides_of upgrade.now) asked.entry (map plain_entry list.now) places.now first
        × OccursPut fault (S.written sink.old) (S.written sink.new) (text_shown (W.writes writer.now) asked.entry first)) }
    ensures device { (result ≡ Err Device) ↔ IsTrue (S.has_failed sink.new) }
{
    let forgets = are_distinct(alloc, places)?;
    let mut listing = begun(alloc, list)?;
    let found = put_commands(
        alloc,
        &mut listing,
        sink,
        upgrade,
        places,
        asked,
        writer,
        forgets,
    );
    put_rest(&mut listing.pending, sink, found)?;
    Ok(listing)
}

/// No line is listed yet. What is known of lines owns much, so it is in a box.
fn begun(alloc: Global, list: &[Entry]) -> Result<Box<Listing<'_>>, AllocError>
    ensures budget { IfOk result (λ listing. listing.value.budget ≡ most_checked_together) }
    ensures way { IfOk result (λ listing. (w : Writing) (asked : AnyAsked) (forgets : Bool) (put : Option (List ℕ))
        → IsUnderWay w asked forgets (map plain_entry list.now) 0 0 put put listing.value [] []) }
{
    let seen = Seen::new(alloc, list)?;
    let listing = Listing {
        seen,
        pending: Pending::new(alloc),
        budget: MOST_CHECKED_TOGETHER,
    };
    Ok(Box::new(alloc, listing)?)
}

/// Puts what is pending, unless the sink has failed.
fn put_rest<S: Sink>(
    pending: &mut Pending,
    sink: &mut S,
    found: Result<(), RunFault>,
) -> Result<(), RunFault>
    requires { IsTrue (S.has_failed sink.old) ↔ (found ≡ Err Device) }
    ensures all { OnOk result (IsOk found × ((begun : Option (List ℕ)) (text : List ℕ)
        → IsPut begun (S.written sink.old) pending.old text → Appends begun (S.written sink.new) text)) }
    ensures front { IfErr result (λ fault. OccursAfter found fault (S.written sink.old) (S.written sink.new) pending.old) }
    ensures device { (result ≡ Err Device) ↔ IsTrue (S.has_failed sink.new) }
{
    match found {
        Ok(()) => {
            pending.put(sink)?;
            Ok(())
        }
        Err(RunFault::NoMemory) => {
            pending.put(sink)?;
            Err(RunFault::NoMemory)
        }
        Err(RunFault::Device) => Err(RunFault::Device),
    }
}

/// Puts the lines of the commands at these places.
fn put_commands<'l, A: Book, B: Book, S: Sink, W: LineWriter>(
    alloc: Global,
    listing: &mut Listing<'l>,
    sink: &mut S,
    upgrade: &'l Upgrade<'_, A, B>,
    places: &[usize],
    asked: Asked<'_>,
    writer: &W,
    forgets: bool,
) -> Result<(), RunFault>
    requires sound { ¬ IsTrue (S.has_failed sink.old) }
    requires places { All (λ place. place < length (sides_of upgrade.now).sender.commands) places.now }
    ensures all { OnOk result ((list : List PlainEntry) (begun : Option (List ℕ)) (place : ℕ)
        → (forgets ≡ true → IsEachNew places.now)
        → listing.old.budget ≡ most_checked_together
        → IsUnderWay (W.writes writer.now) asked.entry forgets list place 0 begun (S.written sink.old) listing.old [] []
        → AreUnderWay (W.writes writer.now) (sides_of upgrade.now) asked.entry forgets list places.now begun
        (S.written sink.new) listing.new) }
    ensures stops { IfErr result (λ fault. (list : List PlainEntry) (begun : Option (List ℕ)) (place : ℕ)
        → (forgets ≡ true → IsEachNew places.now)
        → listing.old.budget ≡ most_checked_together
        → IsUnderWay (W.writes writer.now) asked.entry forgets list place 0 begun (S.written sink.old) listing.old [] []
        → (first : List Row) × AreFirstLines (sides_of upgrade.now) asked.entry list places.now first
        × Occurs fault begun (S.written sink.new) listing.new.pending (text_shown (W.writes writer.now) asked.entry first)) }
    ensures device { (result ≡ Err Device) ↔ IsTrue (S.has_failed sink.new) }
{
    for place in places {
        listing.seen.begin(forgets);
        put_command(alloc, listing, sink, upgrade, *place, asked, writer)?;
    }
    Ok(())
}

/// Puts the lines of a command of A, by its place among the commands.
fn put_command<'l, A: Book, B: Book, S: Sink, W: LineWriter>(
    alloc: Global,
    listing: &mut Listing<'l>,
    sink: &mut S,
    upgrade: &'l Upgrade<'_, A, B>,
    place: usize,
    asked: Asked<'_>,
    writer: &W,
) -> Result<(), RunFault>
    requires sound { ¬ IsTrue (S.has_failed sink.old) }
    requires place { place < length (sides_of upgrade.now).sender.commands }
    ensures all { OnOk result ((recorded apart : List Row)
        × IsRecordedOf (sides_of upgrade.now) (stock_of upgrade.now) asked.entry.messages asked.entry.meaning
        (facts_of upgrade.now).lengths place listing.old.budget listing.new.budget recorded apart
        × GoesOn (W.writes writer.now) asked.entry place (S.written sink.old)
        (S.written sink.new) listing.old listing.new recorded apart) }
    ensures stops { IfErr result (λ fault. StopsIn (W.writes writer.now) (sides_of upgrade.now) (stock_of upgrade.now) asked.entry
        (facts_of upgrade.now).lengths place fault (S.written sink.old) (S.written sink.new) listing.old listing.new) }
    ensures device { (result ≡ Err Device) ↔ IsTrue (S.has_failed sink.new) }
{
    let command = upgrade.sender().command_at(place);
    let breaks = upgrade.breaks(alloc, command, &mut listing.budget)?;
    let shown = shown_of(alloc, &breaks, asked.meaning)?;
    let lines = shown.as_slice();
    let apart = apart_of(breaks.meanings.as_slice(), asked.meaning);
    put_each(
        alloc, listing, sink, upgrade, &breaks, lines, place, asked, writer,
    )?;
    see_each_apart(alloc, &mut listing.seen, upgrade, &breaks, apart, place)?;
    Ok(())
}

/// Puts these lines of a command.
fn put_each<'l, A: Book, B: Book, S: Sink, W: LineWriter>(
    alloc: Global,
    listing: &mut Listing<'l>,
    sink: &mut S,
    upgrade: &'l Upgrade<'_, A, B>,
    breaks: &Breaks,
    lines: &[Line],
    place: usize,
    asked: Asked<'_>,
    writer: &W,
) -> Result<(), RunFault>
    requires { ¬ IsTrue (S.has_failed sink.old) }
    ensures all { OnOk result ((recorded : List Row)
        × AreParts (IsRecordedIn upgrade.now breaks.now place asked.entry.messages) lines.now recorded
        × GoesOn (W.writes writer.now) asked.entry place (S.written sink.old)
        (S.written sink.new) listing.old listing.new recorded []) }
    ensures stops { IfErr result
        (λ fault. StopsAmong (W.writes writer.now) asked.entry place fault (S.written sink.old) (S.written sink.new)
        listing.old listing.new (IsRecordedIn upgrade.now breaks.now place asked.entry.messages) lines.now) }
    ensures budget { listing.new.budget ≡ listing.old.budget }
    ensures device { (result ≡ Err Device) ↔ IsTrue (S.has_failed sink.new) }
{
    for line in lines {
        put_line(
            alloc, listing, sink, upgrade, breaks, line, place, asked, writer,
        )?;
    }
    Ok(())
}

/// Puts a line of a command, unless the list accepts it or each cause has one line.
fn put_line<'l, A: Book, B: Book, S: Sink, W: LineWriter>(
    alloc: Global,
    listing: &mut Listing<'l>,
    sink: &mut S,
    upgrade: &'l Upgrade<'_, A, B>,
    breaks: &Breaks,
    line: &Line,
    place: usize,
    asked: Asked<'_>,
    writer: &W,
) -> Result<(), RunFault>
    requires { ¬ IsTrue (S.has_failed sink.old) }
    ensures all { OnOk result ((t : Row)
        × IsRecordedIn upgrade.now breaks.now place asked.entry.messages line.now (t ∷ [])
        × GoesOn (W.writes writer.now) asked.entry place (S.written sink.old) (S.written sink.new) listing.old listing.new
        (t ∷ []) []) }
    ensures stops { IfErr result
        (λ fault. StopsAmong (W.writes writer.now) asked.entry place fault (S.written sink.old) (S.written sink.new)
        listing.old listing.new (IsRecordedIn upgrade.now breaks.now place asked.entry.messages) (line.now ∷ [])) }
    ensures budget { listing.new.budget ≡ listing.old.budget }
    ensures device { (result ≡ Err Device) ↔ IsTrue (S.has_failed sink.new) }
{
    let shown = see_line(
        alloc,
        &mut listing.seen,
        upgrade,
        breaks,
        line,
        place,
        asked,
        writer,
    )?;
    add_shown(&mut listing.pending, sink, &shown)?;
    Ok(())
}

/// Sees these lines of meanings, which aren't put.
fn see_each_apart<A: Book, B: Book>(
    alloc: Global,
    seen: &mut Seen<'_>,
    upgrade: &Upgrade<'_, A, B>,
    breaks: &Breaks,
    lines: &[Line],
    place: usize,
) -> Result<(), AllocError>
    ensures { OnOk result ((others : List Row)
        × AreParts (IsRecordedIn upgrade.now breaks.now place false) lines.now others
        × ((asked : AnyAsked) → SeesApart asked place seen.old seen.new others)) }
{
    for line in lines {
        see_apart(alloc, seen, upgrade, breaks, line, place)?;
    }
    Ok(())
}

/// Sees a line of a meaning.
fn see_apart<A: Book, B: Book>(
    alloc: Global,
    seen: &mut Seen<'_>,
    upgrade: &Upgrade<'_, A, B>,
    breaks: &Breaks,
    line: &Line,
    place: usize,
) -> Result<(), AllocError>
    ensures { OnOk result ((others : List Row)
        × IsRecordedIn upgrade.now breaks.now place false line.now others
        × ((asked : AnyAsked) → SeesApart asked place seen.old seen.new others)) }
{
    let mut words = String::new(alloc);
    upgrade.push_words(alloc, &mut words, breaks, line)?;
    seen.see_apart(alloc, place, words.as_str())
}
