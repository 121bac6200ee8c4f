//! What is written after all lines, and of inputs that are refused.

ghost use Rattle.std.specs.Prelude.{◌≡◌, ◌↔◌, Bool, IfErr, IfOk, IsTrue, List, ℕ, Err, OnOk, map, string_bytes};
ghost use Rattle.std.specs.List.{flat_map};
ghost use Rattle.std.specs.Io.KnownBytes.{Appends};
ghost use Rattle.dia_io.specs.declared.RunFault.TheVariants.{Device};
ghost use Rattle.dia_io.specs.Writing.{AppendsFront};
ghost use Rattle.dia_accepted.specs.Accepted.{PlainRecorded, plain_entry};
ghost use Rattle.dia_accepted.specs.Seen.{AreCauses};
ghost use Rattle.dia_upgrades.specs.Stale.{failing};
ghost use Rattle.dia_upgrades.specs.Rows.{cause_among, cause_with};
ghost use Rattle.dia_upgrades.specs.UnderWay.{Ends, IsTextOfCauses, counts_in, end_text, exit_of, lines_end, nothing_said};
ghost use Rattle.dia_upgrades.specs.UnderWay.{plain_first};
ghost use Rattle.dia_upgrades.specs.Writing.{Adds, cause_in, stale_text};

use crate::asked::{Asked, Stale};
use crate::reporting::{BooksAnswer, Counts, Findings};
use crate::seen::{First, Seen};
use crate::shown::digits_in;
use crate::writer::LineWriter;
use dia_accepted::{Causes, Entry, Recorded, once_words};
use dia_io::{Exit, RunFault, Sink, put_all};
use std::alloc::{AllocError, Global};

/// Writes what follows all lines, and answers what was found.
pub(crate) fn ended<S: Sink, W: LineWriter>(
    alloc: Global,
    asked: Asked<'_>,
    writer: &W,
    seen: &Seen<'_>,
    unused: Vec<Entry>,
    stale: Vec<Entry>,
    sink: &mut S,
) -> Result<BooksAnswer, RunFault>
    requires { ¬ IsTrue (S.has_failed sink.old) }
    ensures ends { Ends (W.writes writer.now) asked.entry seen.now unused stale (S.written sink.old) (S.written sink.new) result }
    ensures device { (result ≡ Err Device) ↔ IsTrue (S.has_failed sink.new) }
{
    let causes = seen.causes.lines(alloc)?;
    let meanings = seen.meanings.lines(alloc)?;
    let counts = counts_in(seen, &causes, &stale);
    let fails = failing(asked.stale, stale.as_slice());
    let text = end_text(alloc, writer, asked.meaning, seen, counts, fails)?;
    let exit = exit_of(seen.lines, fails.len());
    put_all(sink, text.as_bytes())?;
    let found = Findings::Listed {
        unused,
        stale,
        lines: seen.lines,
        accepted: seen.accepted,
        causes,
        meanings,
    };
    Ok(BooksAnswer { exit, found })
}

/// What follows all lines: that none is left, unless entries fail, or the causes; the entries that fail; and the counts.
fn end_text<W: LineWriter>(
    alloc: Global,
    writer: &W,
    meaning: bool,
    seen: &Seen<'_>,
    counts: Counts,
    fails: &[Entry],
) -> Result<String, AllocError>
    ensures { IfOk result (λ text. (causes : List ℕ) × IsTextOfCauses (W.writes writer.now) seen.now causes
        × (string_bytes text ≡ end_text (W.writes writer.now) meaning seen.now.is_some causes counts
        (map plain_entry fails.now))) }
{
    let causes = causes_text(alloc, writer, &seen.causes, seen.firsts.as_slice())?;
    let causes = causes.as_str();
    let lines = counts.lines;
    let failing = fails.len();
    let mut text = String::new(alloc);
    push_end(
        alloc,
        &mut text,
        writer,
        meaning,
        lines,
        seen.is_some,
        causes,
        failing,
    )?;
    push_stale(alloc, &mut text, writer, fails)?;
    writer.write_counts(alloc, &mut text, counts)?;
    Ok(text)
}

fn counts_in(seen: &Seen<'_>, causes: &Vec<Recorded>, stale: &Vec<Entry>) -> Counts
    ensures { result ≡ counts_in seen.now causes.now stale.now }
{
    Counts {
        lines: seen.lines,
        causes: causes.len(),
        accepted: seen.accepted,
        stale: stale.len(),
    }
}

/// Adds that no line is left, unless entries fail; or the causes.
fn push_end<W: LineWriter>(
    alloc: Global,
    text: &mut String,
    writer: &W,
    meaning: bool,
    lines: usize,
    is_some: bool,
    causes: &str,
    failing: usize,
) -> Result<(), AllocError>
    ensures { OnOk result (Adds text.old text.new (lines_end (W.writes writer.now) meaning lines is_some causes.now failing)) }
{
    if lines == 0 {
        push_nothing(alloc, text, writer, meaning, is_some, failing)
    } else {
        text.push_str(causes)
    }
}

/// What is written of the causes, of which these are the first lines.
fn causes_text<W: LineWriter>(
    alloc: Global,
    writer: &W,
    causes: &Causes,
    firsts: &[First<'_>],
) -> Result<String, AllocError>
    ensures { IfOk result (λ text. (forgets : Bool) (recorded : List PlainRecorded) (command visits : ℕ)
        → AreCauses forgets causes.now recorded command visits
        → string_bytes text
        ≡ flat_map (cause_in (W.writes writer.now)) (map (cause_among recorded) (map plain_first firsts.now))) }
{
    let mut text = String::new(alloc);
    for first in firsts {
        let commands = causes.count(first.words.as_str());
        push_cause(alloc, &mut text, writer, commands, first)?;
    }
    Ok(text)
}

/// Adds what is written of a cause that so many commands have.
fn push_cause<W: LineWriter>(
    alloc: Global,
    text: &mut String,
    writer: &W,
    commands: usize,
    first: &First<'_>,
) -> Result<(), AllocError>
    ensures { OnOk result (Adds text.old text.new
        (cause_in (W.writes writer.now) (cause_with commands (plain_first first.now)))) }
{
    let words = once_words(alloc, commands, first.words.as_str())?;
    let digits = digits_in(&first.digits);
    writer.write_cause(alloc, text, commands, words.as_str(), &first.parts, digits)
}

/// Adds that no line is left, unless entries fail.
fn push_nothing<W: LineWriter>(
    alloc: Global,
    text: &mut String,
    writer: &W,
    meaning: bool,
    is_some: bool,
    failing: usize,
) -> Result<(), AllocError>
    ensures { OnOk result (Adds text.old text.new (nothing_said (W.writes writer.now) meaning is_some failing)) }
{
    if failing == 0 {
        writer.write_nothing(alloc, text, meaning, is_some)
    } else {
        Ok(())
    }
}

/// Adds what is written of these entries.
fn push_stale<W: LineWriter>(
    alloc: Global,
    text: &mut String,
    writer: &W,
    entries: &[Entry],
) -> Result<(), AllocError>
    ensures { OnOk result (Adds text.old text.new (stale_text (W.writes writer.now) (map plain_entry entries.now))) }
{
    for entry in entries {
        writer.write_stale(alloc, text, entry)?;
    }
    Ok(())
}

fn exit_of(lines: usize, failing: usize) -> Exit
    ensures { result ≡ exit_of lines failing }
{
    if lines == 0 && failing == 0 {
        Exit::Yes
    } else {
        Exit::No
    }
}

/// The stale entries for which the answer is no.
fn failing(stale: Stale, entries: &[Entry]) -> &[Entry]
    ensures { map plain_entry result.now ≡ failing stale (map plain_entry entries.now) }
{
    match stale {
        Stale::Fails => entries,
        Stale::Allowed => &[],
        Stale::Ignored => &[],
    }
}

/// Writes the text of a refusal.
pub(crate) fn refused<S: Sink>(
    sink: &mut S,
    text: &str,
    found: Findings,
) -> Result<BooksAnswer, RunFault>
    requires { ¬ IsTrue (S.has_failed sink.old) }
    ensures put { OnOk result (Appends (S.written sink.old) (S.written sink.new) text.now) }
    ensures exit { IfOk result (λ listed. listed.exit ≡ Exit.Bad) }
    ensures found { IfOk result (λ listed. listed.found ≡ found) }
    ensures fault { IfErr result (λ fault. fault ≡ Device) }
    ensures front { AppendsFront (S.written sink.old) (S.written sink.new) text.now }
    ensures device { (result ≡ Err Device) ↔ IsTrue (S.has_failed sink.new) }
{
    put_all(sink, text.as_bytes())?;
    let exit = Exit::Bad;
    Ok(BooksAnswer { exit, found })
}
