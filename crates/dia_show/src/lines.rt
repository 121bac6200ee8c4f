//! `show` of a text that has a message a line, from its inputs to what is written.

ghost use Rattle.std.specs.Prelude.{◌≡◌, ◌≢◌, ◌↔◌, ◌≤◌, ◌⊎◌, if◌then◌else◌, length};
ghost use Rattle.std.specs.Prelude.{Err, IfOk, IfSome, IsErr, IsTrue, string_bytes};
ghost use Rattle.std.specs.Io.KnownBytes.{Appends, IsAtEnd};
ghost use Rattle.dia_io.specs.Writing.{AppendsFront};
ghost use Rattle.dia_streams.specs.declared.fault.LinesFault.TheVariants.{NoMemory, Device, Endless};
ghost use Rattle.dia_streams.specs.FeedToSink.{FrontAnswered, LinesAnswered, most_pieces};
ghost use Rattle.dia_streams.specs.Lines.{recorded_lines};
ghost use Rattle.dia_report.specs.declared.reporting.Report.TheVariants.{Done as NothingToReport};
ghost use Rattle.dia_run.specs.Texts.{IsDictionaryText};
ghost use Rattle.dia_show.specs.Lines.{AreLinesShown, AreOutcomesListed, IsFrontShown, IsOpening, OfLine, numbered};
ghost use Rattle.dia_show.specs.Report.{HasLinesReport};

use crate::command::{no_values, refuse};
use crate::judging::{Endings, ShowJudge};
use crate::manner::Manner;
use crate::reading::read_manner;
use crate::reporting::{Answered, Report, Reported};
use dia_dict::{Book, IndexedBook};
use dia_io::{Exit, Feed, Inputs, Sink, put_all};
use dia_report::{ReadBook, Refused};
use dia_run::{Outcome, read_dictionary};
use dia_streams::{Judge, LinesFault, answer_lines};
use std::alloc::{AllocError, Global};

/// `show` of each line of a feed: a line with its number, and then what `show` writes for it alone. Yes where each is shown to
/// its end. Where the dictionary or the words are refused, nothing is read.
pub fn show_lines<F: Feed, S: Sink>(
    alloc: Global,
    names: bool,
    inputs: &Inputs,
    feed: &mut F,
    sink: &mut S,
) -> Result<Reported, LinesFault>
    requires sound_feed { ¬ IsTrue (F.has_failed feed.old) }
    requires sound_sink { ¬ IsTrue (S.has_failed sink.old) }
    ensures shown { IfOk result (λ reported. AreLinesShown names inputs.now (F.remaining feed.old)
        (F.remaining feed.new) (S.written sink.old) (S.written sink.new) reported.exit) }
    ensures report { IfOk result (HasLinesReport inputs.now (S.written sink.old) (S.written sink.new)) }
    ensures all { IfOk result (λ reported. reported.exit ≢ Exit.Bad → IsAtEnd (F.remaining feed.new)) }
    ensures unread { IfOk result (λ reported. reported.exit ≡ Exit.Bad → feed.new ≡ feed.old) }
    ensures device { (result ≡ Err Device)
        ↔ (IsTrue (F.has_failed feed.new) ⊎ IsTrue (S.has_failed sink.new)) }
    ensures front { IsErr result → IsFrontShown names inputs.now
        (F.remaining feed.old) (F.remaining feed.new) (S.written sink.old) (S.written sink.new) }
    ensures no_memory { result ≡ Err NoMemory → LinesAnswered (OfLine names inputs.now) (recorded_lines numbered)
        (F.remaining feed.old) (F.remaining feed.new) (S.written sink.old) (S.written sink.new) }
    ensures endless { result ≡ Err Endless → LinesAnswered (OfLine names inputs.now) (recorded_lines numbered)
        (F.remaining feed.old) (F.remaining feed.new) (S.written sink.old) (S.written sink.new) }
    ensures pieces { result ≡ Err Endless
        → IfSome (F.remaining feed.old) (λ bytes. most_pieces ≤ length bytes) }
{
    let opening = open(alloc, names, inputs)?;
    match opening {
        Opening::Ready { manner, first } => {
            let judge = ShowJudge {
                manner: &manner,
                book: &first.book,
            };
            list_lines(alloc, &judge, feed, sink)
        }
        Opening::Refused(answered) => put_refusal(answered, sink),
    }
}

/// What is known before the lines are read: how they are shown, or the answer of an input that is refused.
#[derive(Drop)]
pub enum Opening<'t> {
    Ready {
        manner: Box<Manner<'t>>,
        first: Box<ReadBook>,
    },
    Refused(Answered),
}

/// Reads the dictionary and the words.
fn open<'t>(alloc: Global, names: bool, inputs: &'t Inputs) -> Result<Opening<'t>, AllocError>
    ensures { IfOk result (IsOpening ⟦<IndexedBook as Book>⟧.meaning names inputs.now) }
{
    match read_dictionary(alloc, 1, &inputs.first) {
        Ok(first) => with_words(alloc, names, first, inputs),
        Err(Refused::Bad(bad)) => Ok(Opening::Refused(refuse(alloc, bad)?)),
        Err(Refused::NoMemory) => Err(AllocError),
    }
}

/// Reads the words.
fn with_words<'t>(
    alloc: Global,
    names: bool,
    first: Box<ReadBook>,
    inputs: &'t Inputs,
) -> Result<Opening<'t>, AllocError>
    ensures { IsDictionaryText inputs.now.first (⟦<IndexedBook as Book>⟧.meaning first.value.book)
        → IfOk result (IsOpening ⟦<IndexedBook as Book>⟧.meaning names inputs.now) }
{
    match read_manner(alloc, names, &inputs.table)? {
        Ok(manner) => Ok(Opening::Ready { manner, first }),
        Err(bad) => Ok(Opening::Refused(no_values(alloc, bad)?)),
    }
}

/// Answers each line of a feed by a judge of outcomes. Yes where each ended with yes, else no.
pub fn list_lines<J: Judge<Verdict = Outcome>, F: Feed, S: Sink>(
    alloc: Global,
    judge: &J,
    feed: &mut F,
    sink: &mut S,
) -> Result<Reported, LinesFault>
    requires sound_feed { ¬ IsTrue (F.has_failed feed.old) }
    requires sound_sink { ¬ IsTrue (S.has_failed sink.old) }
    ensures listed { IfOk result (λ reported. AreOutcomesListed (J.says judge.now) (J.recorded judge.now)
        (F.remaining feed.old) (F.remaining feed.new) (S.written sink.old) (S.written sink.new) reported.exit) }
    ensures all { IfOk result (λ reported. IsAtEnd (F.remaining feed.new)) }
    ensures exit { IfOk result (λ reported. reported.exit ≢ Exit.Bad) }
    ensures report { IfOk result (λ reported. reported.report ≡ Report.OfShow NothingToReport) }
    ensures device { (result ≡ Err Device)
        ↔ (IsTrue (F.has_failed feed.new) ⊎ IsTrue (S.has_failed sink.new)) }
    ensures front { IsErr result → FrontAnswered (J.says judge.now) (recorded_lines (J.recorded judge.now))
        (F.remaining feed.old) (F.remaining feed.new) (S.written sink.old) (S.written sink.new) }
    ensures no_memory { result ≡ Err NoMemory → LinesAnswered (J.says judge.now) (recorded_lines (J.recorded judge.now))
        (F.remaining feed.old) (F.remaining feed.new) (S.written sink.old) (S.written sink.new) }
    ensures endless { result ≡ Err Endless → LinesAnswered (J.says judge.now) (recorded_lines (J.recorded judge.now))
        (F.remaining feed.old) (F.remaining feed.new) (S.written sink.old) (S.written sink.new) }
    ensures pieces { result ≡ Err Endless
        → IfSome (F.remaining feed.old) (λ bytes. most_pieces ≤ length bytes) }
{
    let mut endings = Endings { each: true };
    answer_lines(alloc, judge, &mut endings, feed, sink)?;
    Ok(ended(endings.each))
}

/// How lines ended: yes where each was shown to its end.
fn ended(each: bool) -> Reported
    ensures exit { result.exit ≡ (if each then Exit.Yes else Exit.No) }
    ensures report { result.report ≡ Report.OfShow NothingToReport }
{
    let exit = if each { Exit::Yes } else { Exit::No };
    let report = Report::OfShow(dia_report::Report::Done);
    Reported { exit, report }
}

/// Puts the line of an input that is refused.
pub fn put_refusal<S: Sink>(answered: Answered, sink: &mut S) -> Result<Reported, LinesFault>
    requires { ¬ IsTrue (S.has_failed sink.old) }
    ensures exit { IfOk result (λ reported. reported.exit ≡ answered.exit) }
    ensures report { IfOk result (λ reported. reported.report ≡ answered.report) }
    ensures put { IfOk result
        (λ reported. Appends (S.written sink.old) (S.written sink.new) (string_bytes answered.text)) }
    ensures front { IsErr result
        → AppendsFront (S.written sink.old) (S.written sink.new) (string_bytes answered.text) }
    ensures device { (result ≡ Err Device) ↔ IsTrue (S.has_failed sink.new) }
    ensures memory { result ≢ Err NoMemory }
    ensures counted { result ≢ Err Endless }
{
    let Answered { text, exit, report } = answered;
    put_all(sink, text.as_bytes())?;
    Ok(Reported { exit, report })
}
