//! Runs over many messages: those of a judge, and the commands over the texts of their dictionaries.

ghost use Rattle.std.specs.Prelude.{◌≡◌, ◌≢◌, ◌↔◌, ◌≤◌, ◌⊎◌, if◌then◌else◌, length};
ghost use Rattle.std.specs.Prelude.{Err, IfOk, IfSome, IsErr, IsOk, IsTrue, None, string_bytes};
ghost use Rattle.std.specs.List.{flat_map};
ghost use Rattle.std.specs.Io.KnownBytes.{Appends, IsAtEnd};
ghost use Rattle.dia_io.specs.Writing.{AppendsFront};
ghost use Rattle.dia_streams.specs.declared.fault.LinesFault.TheVariants.{NoMemory, Device, Endless};
ghost use Rattle.dia_streams.specs.FeedToSink.{FrontAnswered, LinesAnswered, most_pieces};
ghost use Rattle.dia_streams.specs.Lines.{recorded_lines};
ghost use Rattle.dia_streams.specs.Streams.{SomeRecorded, WholeRecorded, most_places};
ghost use Rattle.dia_run.specs.Texts.{line};
ghost use Rattle.dia_report.specs.Refusals.{RecordsOf};
ghost use Rattle.dia_captures.specs.Counts.{checked_items, refuted_items};
ghost use Rattle.dia_captures.specs.Lines.{AreLinesAnswered, IsFrontPut, OfLine, checks, refutations, text_of};
ghost use Rattle.dia_captures.specs.Runs.{AreLinesRecorded, IsStreamPut, IsStreamSummed, each_exit, some_exit};
ghost use Rattle.dia_captures.specs.Streams.{IsStreamAnswered, IsStreamFrontPut, OfMessage, placed};
ghost use Rattle.dia_captures.specs.Summaries.{AreLinesSummed, IsCheckSummary, IsMade, IsRefuteSummary, IsStreamSummary};
ghost use Rattle.dia_captures.specs.Verdicts.{checked_exit, refuted_exit};

use crate::judges::{CheckJudge, RefuteJudge};
use crate::summaries::Lines;
use crate::tally::Tally;
use crate::verdicts::{Checked, Refuted};
use dia_check::{Levels, Unknown};
use dia_dict::Book;
use dia_io::{Exit, Feed, Inputs, Sink, put_all};
use dia_report::{Answered, Refused, Report, Reported};
use dia_run::{answer_of, read_dictionary};
use dia_streams::{Judge, LinesFault, MessageJudge, answer_lines, answer_stream};
use std::alloc::{AllocError, Global};

/// How a command over many messages ended.
#[derive(Drop)]
pub struct Captured {
    pub reported: Reported,
    /// How many messages are valid, or refute, and the reasons why others aren't valid, unless memory was refused to it. None
    /// where a dictionary is refused.
    pub summary: Option<Result<String, AllocError>>,
}

impl Captured {
    /// How a command ended whose messages were read: yes or no.
    pub fn ended(yes: bool, summary: Result<String, AllocError>) -> Self
        ensures exit { result.reported.exit ≡ (if yes then Exit.Yes else Exit.No) }
        ensures summary { result.summary ≡ Some summary }
        ensures report { result.reported.report ≡ Report.Done }
    {
        let exit = if yes { Exit::Yes } else { Exit::No };
        let report = Report::Done;
        Captured {
            reported: Reported { exit, report },
            summary: Some(summary),
        }
    }
}

/// Answers each line of a feed by a judge of `check`: yes where each is valid. The summary has the names of a dictionary.
pub fn run_checks<J: Judge<Verdict = Checked>, B: Book, F: Feed, S: Sink>(
    alloc: Global,
    judge: &J,
    book: &B,
    feed: &mut F,
    sink: &mut S,
) -> Result<Captured, LinesFault>
    requires sound_feed { ¬ IsTrue (F.has_failed feed.old) }
    requires sound_sink { ¬ IsTrue (S.has_failed sink.old) }
    ensures recorded { IfOk result (λ captured. AreLinesRecorded (J.says judge.now) (recorded_lines (J.recorded judge.now))
        checked_exit each_exit (F.remaining feed.old) (F.remaining feed.new) (S.written sink.old) (S.written sink.new)
        captured.reported.exit) }
    ensures all { IfOk result (λ captured. IsAtEnd (F.remaining feed.new)) }
    ensures exit { IfOk result (λ captured. captured.reported.exit ≢ Exit.Bad) }
    ensures summary { IfOk result (λ captured. IsMade captured.summary
        (λ text. AreLinesSummed (J.says judge.now) (recorded_lines (J.recorded judge.now)) checked_items (B.meaning book.now)
        Lines.Checked (F.remaining feed.old) (F.remaining feed.new) (S.written sink.old) (S.written sink.new) (string_bytes text))) }
    ensures report { IfOk result (λ captured. captured.reported.report ≡ Report.Done) }
    ensures device { (result ≡ Err Device)
        ↔ (IsTrue (F.has_failed feed.new) ⊎ IsTrue (S.has_failed sink.new)) }
    ensures front { IsErr result → FrontAnswered (J.says judge.now) (recorded_lines (J.recorded judge.now))
        (F.remaining feed.old) (F.remaining feed.new) (S.written sink.old) (S.written sink.new) }
    ensures no_memory { result ≡ Err NoMemory → LinesAnswered (J.says judge.now) (recorded_lines (J.recorded judge.now))
        (F.remaining feed.old) (F.remaining feed.new) (S.written sink.old) (S.written sink.new) }
    ensures endless { result ≡ Err Endless → LinesAnswered (J.says judge.now) (recorded_lines (J.recorded judge.now))
        (F.remaining feed.old) (F.remaining feed.new) (S.written sink.old) (S.written sink.new) }
    ensures pieces { result ≡ Err Endless
        → IfSome (F.remaining feed.old) (λ bytes. most_pieces ≤ length bytes) }
{
    let mut tally = Tally::new(alloc);
    answer_lines(alloc, judge, &mut tally, feed, sink)?;
    let each = tally.ended.each;
    Ok(Captured::ended(each, tally.summary(alloc, book, Lines::Checked)))
}

/// Answers each line of a feed by a judge of `refute`: yes where one refutes. The summary has the names of a dictionary.
pub fn run_refutations<J: Judge<Verdict = Refuted>, B: Book, F: Feed, S: Sink>(
    alloc: Global,
    judge: &J,
    book: &B,
    feed: &mut F,
    sink: &mut S,
) -> Result<Captured, LinesFault>
    requires sound_feed { ¬ IsTrue (F.has_failed feed.old) }
    requires sound_sink { ¬ IsTrue (S.has_failed sink.old) }
    ensures recorded { IfOk result (λ captured. AreLinesRecorded (J.says judge.now) (recorded_lines (J.recorded judge.now))
        refuted_exit some_exit (F.remaining feed.old) (F.remaining feed.new) (S.written sink.old) (S.written sink.new)
        captured.reported.exit) }
    ensures all { IfOk result (λ captured. IsAtEnd (F.remaining feed.new)) }
    ensures exit { IfOk result (λ captured. captured.reported.exit ≢ Exit.Bad) }
    ensures summary { IfOk result (λ captured. IsMade captured.summary
        (λ text. AreLinesSummed (J.says judge.now) (recorded_lines (J.recorded judge.now)) refuted_items (B.meaning book.now)
        Lines.Refuted (F.remaining feed.old) (F.remaining feed.new) (S.written sink.old) (S.written sink.new) (string_bytes text))) }
    ensures report { IfOk result (λ captured. captured.reported.report ≡ Report.Done) }
    ensures device { (result ≡ Err Device)
        ↔ (IsTrue (F.has_failed feed.new) ⊎ IsTrue (S.has_failed sink.new)) }
    ensures front { IsErr result → FrontAnswered (J.says judge.now) (recorded_lines (J.recorded judge.now))
        (F.remaining feed.old) (F.remaining feed.new) (S.written sink.old) (S.written sink.new) }
    ensures no_memory { result ≡ Err NoMemory → LinesAnswered (J.says judge.now) (recorded_lines (J.recorded judge.now))
        (F.remaining feed.old) (F.remaining feed.new) (S.written sink.old) (S.written sink.new) }
    ensures endless { result ≡ Err Endless → LinesAnswered (J.says judge.now) (recorded_lines (J.recorded judge.now))
        (F.remaining feed.old) (F.remaining feed.new) (S.written sink.old) (S.written sink.new) }
    ensures pieces { result ≡ Err Endless
        → IfSome (F.remaining feed.old) (λ bytes. most_pieces ≤ length bytes) }
{
    let mut tally = Tally::new(alloc);
    answer_lines(alloc, judge, &mut tally, feed, sink)?;
    let some = tally.ended.some;
    Ok(Captured::ended(some, tally.summary(alloc, book, Lines::Refuted)))
}

/// Answers each message of a stream by a judge of `check`: yes where each is valid. The summary has the names of a dictionary.
pub fn run_stream<J: MessageJudge<Verdict = Checked>, B: Book, F: Feed, S: Sink>(
    alloc: Global,
    judge: &J,
    book: &B,
    feed: &mut F,
    sink: &mut S,
) -> Result<Captured, LinesFault>
    requires sound_feed { ¬ IsTrue (F.has_failed feed.old) }
    requires sound_sink { ¬ IsTrue (S.has_failed sink.old) }
    ensures recorded { IfOk result (λ captured. IsStreamPut (J.says judge.now) (J.recorded judge.now)
        (F.remaining feed.old) (F.remaining feed.new) (S.written sink.old) (S.written sink.new) captured.reported.exit) }
    ensures exit { IfOk result (λ captured. captured.reported.exit ≢ Exit.Bad) }
    ensures summary { IfOk result (λ captured. IsMade captured.summary
        (λ text. IsStreamSummed (J.says judge.now) (J.recorded judge.now) (B.meaning book.now)
        (F.remaining feed.old) (F.remaining feed.new) (S.written sink.old) (S.written sink.new) (string_bytes text))) }
    ensures report { IfOk result (λ captured. captured.reported.report ≡ Report.Done) }
    ensures device { (result ≡ Err Device)
        ↔ (IsTrue (F.has_failed feed.new) ⊎ IsTrue (S.has_failed sink.new)) }
    ensures front { IsErr result → SomeRecorded (J.says judge.now) (J.recorded judge.now)
        (F.remaining feed.old) (F.remaining feed.new) (S.written sink.old) (S.written sink.new) }
    ensures no_memory { result ≡ Err NoMemory → WholeRecorded (J.says judge.now) (J.recorded judge.now)
        (F.remaining feed.old) (F.remaining feed.new) (S.written sink.old) (S.written sink.new) }
    ensures endless { result ≡ Err Endless → WholeRecorded (J.says judge.now) (J.recorded judge.now)
        (F.remaining feed.old) (F.remaining feed.new) (S.written sink.old) (S.written sink.new) }
    ensures pieces { result ≡ Err Endless
        → IfSome (F.remaining feed.old) (λ bytes. most_places ≤ length bytes) }
{
    let mut tally = Tally::new(alloc);
    answer_stream(alloc, judge, &mut tally, feed, sink)?;
    let each = tally.ended.each;
    Ok(Captured::ended(each, tally.summary(alloc, book, Lines::Placed)))
}

/// `check` of each line of a feed: yes where each is valid.
pub fn check_lines<F: Feed, S: Sink>(
    alloc: Global,
    unknown: Unknown,
    levels: Levels,
    inputs: &Inputs,
    feed: &mut F,
    sink: &mut S,
) -> Result<Captured, LinesFault>
    requires sound_feed { ¬ IsTrue (F.has_failed feed.old) }
    requires sound_sink { ¬ IsTrue (S.has_failed sink.old) }
    ensures answered { IfOk result (λ captured. AreLinesAnswered (checks unknown levels) inputs.now
        (F.remaining feed.old) (F.remaining feed.new) (S.written sink.old) (S.written sink.new)
        captured.reported.exit) }
    ensures all { IfOk result
        (λ captured. captured.reported.exit ≢ Exit.Bad → IsAtEnd (F.remaining feed.new)) }
    ensures unread { IfOk result (λ captured. captured.reported.exit ≡ Exit.Bad → feed.new ≡ feed.old) }
    ensures summary { IfOk result (λ captured. captured.reported.exit ≢ Exit.Bad → IsMade captured.summary
        (λ text. IsCheckSummary unknown levels inputs.now (F.remaining feed.old) (F.remaining feed.new)
        (S.written sink.old) (S.written sink.new) (string_bytes text))) }
    ensures no_summary { IfOk result
        (λ captured. captured.reported.exit ≡ Exit.Bad → captured.summary ≡ None) }
    ensures report { IfOk result
        (λ captured. captured.reported.exit ≢ Exit.Bad → captured.reported.report ≡ Report.Done) }
    ensures device { (result ≡ Err Device)
        ↔ (IsTrue (F.has_failed feed.new) ⊎ IsTrue (S.has_failed sink.new)) }
    ensures front { IsErr result → IsFrontPut (checks unknown levels) inputs.now
        (F.remaining feed.old) (F.remaining feed.new) (S.written sink.old) (S.written sink.new) }
    ensures no_memory { result ≡ Err NoMemory → LinesAnswered (OfLine (checks unknown levels) inputs.now)
        (flat_map text_of) (F.remaining feed.old) (F.remaining feed.new) (S.written sink.old) (S.written sink.new) }
    ensures endless { result ≡ Err Endless → LinesAnswered (OfLine (checks unknown levels) inputs.now)
        (flat_map text_of) (F.remaining feed.old) (F.remaining feed.new) (S.written sink.old) (S.written sink.new) }
    ensures pieces { result ≡ Err Endless
        → IfSome (F.remaining feed.old) (λ bytes. most_pieces ≤ length bytes) }
{
    let first = match read_dictionary(alloc, 1, &inputs.first) {
        Ok(read) => read,
        Err(refused) => return refuse(alloc, refused, sink),
    };
    let judge = CheckJudge {
        book: &first.book,
        unknown,
        levels,
    };
    run_checks(alloc, &judge, judge.book, feed, sink)
}

/// `refute` of each line of a feed: yes where one refutes.
pub fn refute_lines<F: Feed, S: Sink>(
    alloc: Global,
    unknown: Unknown,
    levels: Levels,
    inputs: &Inputs,
    feed: &mut F,
    sink: &mut S,
) -> Result<Captured, LinesFault>
    requires sound_feed { ¬ IsTrue (F.has_failed feed.old) }
    requires sound_sink { ¬ IsTrue (S.has_failed sink.old) }
    ensures answered { IfOk result (λ captured. AreLinesAnswered (refutations unknown levels) inputs.now
        (F.remaining feed.old) (F.remaining feed.new) (S.written sink.old) (S.written sink.new)
        captured.reported.exit) }
    ensures all { IfOk result
        (λ captured. captured.reported.exit ≢ Exit.Bad → IsAtEnd (F.remaining feed.new)) }
    ensures unread { IfOk result (λ captured. captured.reported.exit ≡ Exit.Bad → feed.new ≡ feed.old) }
    ensures summary { IfOk result (λ captured. captured.reported.exit ≢ Exit.Bad → IsMade captured.summary
        (λ text. IsRefuteSummary unknown levels inputs.now (F.remaining feed.old) (F.remaining feed.new)
        (S.written sink.old) (S.written sink.new) (string_bytes text))) }
    ensures no_summary { IfOk result
        (λ captured. captured.reported.exit ≡ Exit.Bad → captured.summary ≡ None) }
    ensures report { IfOk result
        (λ captured. captured.reported.exit ≢ Exit.Bad → captured.reported.report ≡ Report.Done) }
    ensures device { (result ≡ Err Device)
        ↔ (IsTrue (F.has_failed feed.new) ⊎ IsTrue (S.has_failed sink.new)) }
    ensures front { IsErr result → IsFrontPut (refutations unknown levels) inputs.now
        (F.remaining feed.old) (F.remaining feed.new) (S.written sink.old) (S.written sink.new) }
    ensures no_memory { result ≡ Err NoMemory
        → LinesAnswered (OfLine (refutations unknown levels) inputs.now)
        (flat_map text_of) (F.remaining feed.old) (F.remaining feed.new) (S.written sink.old) (S.written sink.new) }
    ensures endless { result ≡ Err Endless
        → LinesAnswered (OfLine (refutations unknown levels) inputs.now)
        (flat_map text_of) (F.remaining feed.old) (F.remaining feed.new) (S.written sink.old) (S.written sink.new) }
    ensures pieces { result ≡ Err Endless
        → IfSome (F.remaining feed.old) (λ bytes. most_pieces ≤ length bytes) }
{
    let first = match read_dictionary(alloc, 1, &inputs.first) {
        Ok(read) => read,
        Err(refused) => return refuse(alloc, refused, sink),
    };
    let second = match read_dictionary(alloc, 2, &inputs.second) {
        Ok(read) => read,
        Err(refused) => return refuse(alloc, refused, sink),
    };
    let judge = RefuteJudge {
        first: &first.book,
        second: &second.book,
        unknown,
        levels,
    };
    run_refutations(alloc, &judge, judge.first, feed, sink)
}

/// `check` of each message of a stream: yes where each is valid.
pub fn check_stream<F: Feed, S: Sink>(
    alloc: Global,
    unknown: Unknown,
    levels: Levels,
    inputs: &Inputs,
    feed: &mut F,
    sink: &mut S,
) -> Result<Captured, LinesFault>
    requires sound_feed { ¬ IsTrue (F.has_failed feed.old) }
    requires sound_sink { ¬ IsTrue (S.has_failed sink.old) }
    ensures answered { IfOk result (λ captured. IsStreamAnswered unknown levels inputs.now
        (F.remaining feed.old) (F.remaining feed.new) (S.written sink.old) (S.written sink.new)
        captured.reported.exit) }
    ensures unread { IfOk result (λ captured. captured.reported.exit ≡ Exit.Bad → feed.new ≡ feed.old) }
    ensures summary { IfOk result (λ captured. captured.reported.exit ≢ Exit.Bad → IsMade captured.summary
        (λ text. IsStreamSummary unknown levels inputs.now (F.remaining feed.old) (F.remaining feed.new)
        (S.written sink.old) (S.written sink.new) (string_bytes text))) }
    ensures no_summary { IfOk result
        (λ captured. captured.reported.exit ≡ Exit.Bad → captured.summary ≡ None) }
    ensures report { IfOk result
        (λ captured. captured.reported.exit ≢ Exit.Bad → captured.reported.report ≡ Report.Done) }
    ensures device { (result ≡ Err Device)
        ↔ (IsTrue (F.has_failed feed.new) ⊎ IsTrue (S.has_failed sink.new)) }
    ensures front { IsErr result → IsStreamFrontPut unknown levels inputs.now
        (F.remaining feed.old) (F.remaining feed.new) (S.written sink.old) (S.written sink.new) }
    ensures no_memory { result ≡ Err NoMemory → WholeRecorded (OfMessage unknown levels inputs.now)
        placed (F.remaining feed.old) (F.remaining feed.new) (S.written sink.old) (S.written sink.new) }
    ensures endless { result ≡ Err Endless → WholeRecorded (OfMessage unknown levels inputs.now)
        placed (F.remaining feed.old) (F.remaining feed.new) (S.written sink.old) (S.written sink.new) }
    ensures pieces { result ≡ Err Endless
        → IfSome (F.remaining feed.old) (λ bytes. most_places ≤ length bytes) }
{
    let first = match read_dictionary(alloc, 1, &inputs.first) {
        Ok(read) => read,
        Err(refused) => return refuse(alloc, refused, sink),
    };
    let judge = CheckJudge {
        book: &first.book,
        unknown,
        levels,
    };
    run_stream(alloc, &judge, judge.book, feed, sink)
}

/// Puts the line of a dictionary that is refused.
pub fn refuse<S: Sink>(
    alloc: Global,
    refused: Refused,
    sink: &mut S,
) -> Result<Captured, LinesFault>
    requires { ¬ IsTrue (S.has_failed sink.old) }
    ensures exit { IfOk result (λ captured. captured.reported.exit ≡ Exit.Bad) }
    ensures summary { IfOk result (λ captured. captured.summary ≡ None) }
    ensures put { IsOk result
        → RecordsOf (λ recorded. Appends (S.written sink.old) (S.written sink.new) (line recorded)) refused }
    ensures device { (result ≡ Err Device) ↔ IsTrue (S.has_failed sink.new) }
    ensures front { result ≡ Err Device
        → RecordsOf (λ recorded. AppendsFront (S.written sink.old) (S.written sink.new) (line recorded)) refused }
    ensures memory { refused ≡ Refused.NoMemory → result ≡ Err NoMemory }
    ensures no_memory { result ≡ Err NoMemory → S.written sink.new ≡ S.written sink.old }
    ensures counted { result ≢ Err Endless }
{
    let Answered { text, exit, report } = answer_of(alloc, Err(refused))?;
    put_all(sink, text.as_bytes())?;
    Ok(Captured {
        reported: Reported { exit, report },
        summary: None,
    })
}
