//! What is written of two dictionaries and the text of a list of accepted lines.

ghost use Rattle.std.specs.Prelude.{◌≡◌, ◌<◌, ◌↔◌, ◌==◌, All, IfOk, IsTrue, List, ℕ, Err, length, map, string_bytes};
ghost use Rattle.std.specs.Io.KnownBytes.{Appends};
ghost use Rattle.dia_io.specs.declared.Input.{Input as AnyInput};
ghost use Rattle.dia_io.specs.declared.RunFault.TheVariants.{Device, NoMemory};
ghost use Rattle.dia_io.specs.Writing.{AppendsFront};
ghost use Rattle.dia_accepted.specs.Accepted.{plain_entry};
ghost use Rattle.dia_breaking.specs.Sides.{sides};
ghost use Rattle.dia_breaking.specs.Upgrades.{sides_of};
ghost use Rattle.dia_upgrades.specs.Begun.{IsBegun, IsBegunOrWhole};
ghost use Rattle.dia_upgrades.specs.Lists.{IsListText};
ghost use Rattle.dia_upgrades.specs.Asking.{names_of};
ghost use Rattle.dia_upgrades.specs.Outcome.{CanAsk, IsListed};
ghost use Rattle.dia_upgrades.specs.Places.{asked_places};
ghost use Rattle.dia_upgrades.specs.UnderWay.{Answers};

use crate::asked::Asked;
use crate::ending::{ended, refused};
use crate::lines::put_lines;
use crate::list::{BadList, read_accepted};
use crate::naming::named;
use crate::reporting::{BooksAnswer, Findings};
use crate::stale::stale_of;
use crate::writer::LineWriter;
use dia_accepted::Entry;
use dia_breaking::Upgrade;
use dia_dict::Book;
use dia_io::{Input, RunFault, Sink};
use std::alloc::{AllocError, Global};

/// Writes a line for each way in which messages break, over two dictionaries that were read and the text of a list of accepted
/// lines, as [`breaking`](crate::breaking) does, by a writer. The list is judged first, then the first dictionary's commands,
/// then the names.
pub fn breaking_of<A: Book, B: Book, S: Sink, W: LineWriter>(
    alloc: Global,
    asked: Asked<'_>,
    writer: &W,
    list: &Input,
    a: &A,
    b: &B,
    sink: &mut S,
) -> Result<BooksAnswer, RunFault>
    requires { ¬ IsTrue (S.has_failed sink.old) }
    ensures text { IfOk result (λ listed. (text : List ℕ)
        × IsListed (W.writes writer.now) asked.entry list.now (A.meaning a.now) (B.meaning b.now) text listed.exit listed.found
        × Appends (S.written sink.old) (S.written sink.new) text) }
    ensures device { (result ≡ Err Device) ↔ IsTrue (S.has_failed sink.new) }
    // What was written is a beginning of such lines, or of all that is written.
    ensures front { result ≡ Err Device → (text : List ℕ)
        × IsBegunOrWhole (W.writes writer.now) asked.entry list.now (A.meaning a.now) (B.meaning b.now) text
        × AppendsFront (S.written sink.old) (S.written sink.new) text }
    // Such lines were written, and nothing else.
    ensures no_memory { result ≡ Err NoMemory → (text : List ℕ)
        × IsBegun (W.writes writer.now) asked.entry list.now (A.meaning a.now) (B.meaning b.now) text
        × Appends (S.written sink.old) (S.written sink.new) text }
{
    answered(alloc, asked, writer, list, a, b, sink)
}

/// The same, in one clause.
fn answered<A: Book, B: Book, S: Sink, W: LineWriter>(
    alloc: Global,
    asked: Asked<'_>,
    writer: &W,
    list: &Input,
    a: &A,
    b: &B,
    sink: &mut S,
) -> Result<BooksAnswer, RunFault>
    requires { ¬ IsTrue (S.has_failed sink.old) }
    ensures answers { Answers (W.writes writer.now) asked.entry list.now (A.meaning a.now) (B.meaning b.now)
        (S.written sink.old) (S.written sink.new) result }
    ensures device { (result ≡ Err Device) ↔ IsTrue (S.has_failed sink.new) }
{
    match read_accepted(alloc, list)? {
        Ok(list) => listed(alloc, asked, writer, list.as_slice(), a, b, sink),
        Err(bad) => {
            let text = no_list_text(alloc, writer, list, bad)?;
            refused(sink, text.as_str(), Findings::NoList(bad))
        }
    }
}

/// What is written of two dictionaries, where this is the list of accepted lines.
fn listed<A: Book, B: Book, S: Sink, W: LineWriter>(
    alloc: Global,
    asked: Asked<'_>,
    writer: &W,
    list: &[Entry],
    a: &A,
    b: &B,
    sink: &mut S,
) -> Result<BooksAnswer, RunFault>
    requires { ¬ IsTrue (S.has_failed sink.old) }
    ensures answers { (input : AnyInput) → IsListText input (map plain_entry list.now)
        → Answers (W.writes writer.now) asked.entry input (A.meaning a.now) (B.meaning b.now) (S.written sink.old)
        (S.written sink.new) result }
    ensures device { (result ≡ Err Device) ↔ IsTrue (S.has_failed sink.new) }
{
    if has_no_commands(a) {
        let text = no_commands_text(alloc, writer)?;
        return refused(sink, text.as_str(), Findings::NoCommands);
    }
    match named(alloc, a, asked.names)? {
        Ok(commands) => compared(alloc, asked, writer, list, a, b, commands.as_slice(), sink),
        Err(name) => {
            let text = no_command_text(alloc, writer, name)?;
            refused(sink, text.as_str(), Findings::NoCommand)
        }
    }
}

fn has_no_commands<A: Book>(a: &A) -> bool
    ensures { result ≡ (length (A.meaning a.now).commands == 0) }
{
    a.commands() == 0
}

/// What is written of the commands at these places.
fn compared<A: Book, B: Book, S: Sink, W: LineWriter>(
    alloc: Global,
    asked: Asked<'_>,
    writer: &W,
    list: &[Entry],
    a: &A,
    b: &B,
    commands: &[usize],
    sink: &mut S,
) -> Result<BooksAnswer, RunFault>
    requires sound { ¬ IsTrue (S.has_failed sink.old) }
    requires places { All (λ place. place < length (A.meaning a.now).commands) commands.now }
    ensures answers { (input : AnyInput) → IsListText input (map plain_entry list.now) → CanAsk asked.entry (A.meaning a.now)
        → commands.now ≡ asked_places (A.meaning a.now) (names_of asked.entry)
        → Answers (W.writes writer.now) asked.entry input (A.meaning a.now) (B.meaning b.now) (S.written sink.old)
        (S.written sink.new) result }
    ensures device { (result ≡ Err Device) ↔ IsTrue (S.has_failed sink.new) }
{
    let upgrade = Upgrade::new(alloc, a, b, asked.sends, asked.unknown)?;
    compared_by(alloc, asked, writer, list, a, b, &upgrade, commands, sink)
}

/// The same, by what is known of both.
fn compared_by<A: Book, B: Book, S: Sink, W: LineWriter>(
    alloc: Global,
    asked: Asked<'_>,
    writer: &W,
    list: &[Entry],
    a: &A,
    b: &B,
    upgrade: &Upgrade<'_, A, B>,
    commands: &[usize],
    sink: &mut S,
) -> Result<BooksAnswer, RunFault>
    requires sound { ¬ IsTrue (S.has_failed sink.old) }
    requires places { All (λ place. place < length (A.meaning a.now).commands) commands.now }
    requires between { sides_of upgrade.now ≡ sides (A.meaning a.now) (B.meaning b.now) asked.sends asked.unknown }
    ensures answers { (input : AnyInput) → IsListText input (map plain_entry list.now) → CanAsk asked.entry (A.meaning a.now)
        → commands.now ≡ asked_places (A.meaning a.now) (names_of asked.entry)
        → Answers (W.writes writer.now) asked.entry input (A.meaning a.now) (B.meaning b.now) (S.written sink.old)
        (S.written sink.new) result }
    ensures device { (result ≡ Err Device) ↔ IsTrue (S.has_failed sink.new) }
{
    let listing = put_lines(alloc, sink, upgrade, commands, asked, writer, list)?;
    let unused = listing.seen.accepting.unused(alloc)?;
    let stale = stale_of(alloc, asked, a, b, commands, unused.as_slice())?;
    ended(alloc, asked, writer, &listing.seen, unused, stale, sink)
}

fn no_list_text<W: LineWriter>(
    alloc: Global,
    writer: &W,
    list: &Input,
    bad: BadList,
) -> Result<String, AllocError>
    ensures { IfOk result (λ text. string_bytes text ≡ (W.writes writer.now).of_bad_list list.now bad) }
{
    let mut text = String::new(alloc);
    writer.write_bad_list(alloc, &mut text, list, bad)?;
    Ok(text)
}

fn no_commands_text<W: LineWriter>(alloc: Global, writer: &W) -> Result<String, AllocError>
    ensures { IfOk result (λ text. string_bytes text ≡ (W.writes writer.now).of_no_commands) }
{
    let mut text = String::new(alloc);
    writer.write_no_commands(alloc, &mut text)?;
    Ok(text)
}

fn no_command_text<W: LineWriter>(
    alloc: Global,
    writer: &W,
    name: &str,
) -> Result<String, AllocError>
    ensures { IfOk result (λ text. string_bytes text ≡ (W.writes writer.now).of_no_command name.now) }
{
    let mut text = String::new(alloc);
    writer.write_no_command(alloc, &mut text, name)?;
    Ok(text)
}
