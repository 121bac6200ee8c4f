//! The command over a text that has a request a line.

ghost use Rattle.std.specs.Prelude.{◌≡◌, ◌≢◌, ◌↔◌, ◌≤◌, ◌⊎◌, ◌++◌, OnOk, length};
ghost use Rattle.std.specs.Prelude.{Err, IfOk, IfSome, IsErr, IsTrue, None, string_bytes};
ghost use Rattle.std.specs.List.{flat_map};
ghost use Rattle.std.specs.Io.KnownBytes.{IsAtEnd};
ghost use Rattle.dia_streams.specs.declared.fault.LinesFault.TheVariants.{NoMemory, Device, Endless};
ghost use Rattle.dia_streams.specs.FeedToSink.{FrontAnswered, LinesAnswered, most_pieces};
ghost use Rattle.dia_streams.specs.Lines.{recorded_lines};
ghost use Rattle.dia_report.specs.declared.reporting.Report.TheVariants.{Done};
ghost use Rattle.dia_captures.specs.Lines.{AreLinesAnswered, IsFrontPut, OfLine, text_of};
ghost use Rattle.dia_captures.specs.Runs.{AreLinesRecorded, each_exit};
ghost use Rattle.dia_captures.specs.Summaries.{IsMade};
ghost use Rattle.dia_answer.specs.Lines.{AreLinesCounted, IsReplySummary, exit_of, replies, replies_line};

use crate::command::text_by;
use crate::names::Names;
use dia_captures::{Captured, Ended, is_yes, refuse};
use dia_dict::Book;
use dia_io::{Exit, Feed, Input, Inputs, Sink};
use dia_run::{Outcome, read_dictionary};
use dia_streams::{Judge, LinesFault, Watch, answer_lines};
use dia_terms::{Levels, Unknown};
use std::alloc::{AllocError, Global};

/// `answer` of each line.
#[derive(Drop)]
struct ReplyJudge<'a, B: Book> {
    book: &'a B,
    unknown: Unknown,
    levels: Levels,
    names: &'a Names<'a>,
}

/// The lines that were answered, counted.
#[derive(Drop)]
struct Replies {
    ended: Ended,
    all: u64,
    /// How many have an answer.
    made: u64,
}

/// `answer` of each line of a feed, by the first dictionary: a line of text each, in order. Yes where each has an answer. A line
/// that spells no message has the line of an input that is refused, and is none with an answer. Where the dictionary is refused,
/// nothing is read.
///
/// The answers are put after each piece that was read. It takes the memory of one line, of its bytes and its answer, and of the
/// answers of one piece.
pub fn write_answers<F: Feed, S: Sink>(
    alloc: Global,
    unknown: Unknown,
    levels: Levels,
    names: &Names<'_>,
    inputs: &Inputs,
    feed: &mut F,
    sink: &mut S,
) -> Result<Captured, LinesFault>
    requires sound_feed { ¬ IsTrue (F.has_failed feed.old) }
    requires sound_sink { ¬ IsTrue (S.has_failed sink.old) }
    ensures answered { IfOk result (λ captured. AreLinesAnswered (replies names.now.host.now names.now.realm.now unknown levels) inputs.now
        (F.remaining feed.old) (F.remaining feed.new) (S.written sink.old) (S.written sink.new)
        captured.reported.exit) }
    ensures all { IfOk result
        (λ captured. captured.reported.exit ≢ Exit.Bad → IsAtEnd (F.remaining feed.new)) }
    ensures unread { IfOk result (λ captured. captured.reported.exit ≡ Exit.Bad → feed.new ≡ feed.old) }
    ensures summary { IfOk result (λ captured. captured.reported.exit ≢ Exit.Bad → IsMade captured.summary
        (λ text. IsReplySummary names.now.host.now names.now.realm.now unknown levels inputs.now (F.remaining feed.old) (F.remaining feed.new)
        (S.written sink.old) (S.written sink.new) (string_bytes text))) }
    ensures no_summary { IfOk result
        (λ captured. captured.reported.exit ≡ Exit.Bad → captured.summary ≡ None) }
    ensures report { IfOk result
        (λ captured. captured.reported.exit ≢ Exit.Bad → captured.reported.report ≡ Done) }
    ensures device { (result ≡ Err Device)
        ↔ (IsTrue (F.has_failed feed.new) ⊎ IsTrue (S.has_failed sink.new)) }
    ensures front { IsErr result → IsFrontPut (replies names.now.host.now names.now.realm.now unknown levels) inputs.now
        (F.remaining feed.old) (F.remaining feed.new) (S.written sink.old) (S.written sink.new) }
    ensures no_memory { result ≡ Err NoMemory → LinesAnswered (OfLine (replies names.now.host.now names.now.realm.now unknown levels) inputs.now)
        (flat_map text_of) (F.remaining feed.old) (F.remaining feed.new) (S.written sink.old) (S.written sink.new) }
    ensures endless { result ≡ Err Endless → LinesAnswered (OfLine (replies names.now.host.now names.now.realm.now unknown levels) inputs.now)
        (flat_map text_of) (F.remaining feed.old) (F.remaining feed.new) (S.written sink.old) (S.written sink.new) }
    ensures pieces { result ≡ Err Endless
        → IfSome (F.remaining feed.old) (λ bytes. most_pieces ≤ length bytes) }
{
    let first = match read_dictionary(alloc, 1, &inputs.first) {
        Ok(read) => read,
        Err(refused) => return refuse(alloc, refused, sink),
    };
    let judge = ReplyJudge {
        book: &first.book,
        unknown,
        levels,
        names,
    };
    run_replies(alloc, &judge, feed, sink)
}

/// Answers each line of a feed by a judge of outcomes: yes where each ended with yes.
fn run_replies<J: Judge<Verdict = Outcome>, F: Feed, S: Sink>(
    alloc: Global,
    judge: &J,
    feed: &mut F,
    sink: &mut S,
) -> Result<Captured, LinesFault>
    requires sound_feed { ¬ IsTrue (F.has_failed feed.old) }
    requires sound_sink { ¬ IsTrue (S.has_failed sink.old) }
    ensures recorded { IfOk result (λ captured. AreLinesRecorded (J.says judge.now) (recorded_lines (J.recorded judge.now))
        exit_of each_exit (F.remaining feed.old) (F.remaining feed.new) (S.written sink.old) (S.written sink.new)
        captured.reported.exit) }
    ensures all { IfOk result (λ captured. IsAtEnd (F.remaining feed.new)) }
    ensures exit { IfOk result (λ captured. captured.reported.exit ≢ Exit.Bad) }
    ensures summary { IfOk result (λ captured. IsMade captured.summary
        (λ text. AreLinesCounted (J.says judge.now) (recorded_lines (J.recorded judge.now)) exit_of
        (F.remaining feed.old) (F.remaining feed.new) (S.written sink.old) (S.written sink.new) (string_bytes text))) }
    ensures report { IfOk result (λ captured. captured.reported.report ≡ Done) }
    ensures device { (result ≡ Err Device)
        ↔ (IsTrue (F.has_failed feed.new) ⊎ IsTrue (S.has_failed sink.new)) }
    ensures front { IsErr result → FrontAnswered (J.says judge.now) (recorded_lines (J.recorded judge.now))
        (F.remaining feed.old) (F.remaining feed.new) (S.written sink.old) (S.written sink.new) }
    ensures no_memory { result ≡ Err NoMemory → LinesAnswered (J.says judge.now) (recorded_lines (J.recorded judge.now))
        (F.remaining feed.old) (F.remaining feed.new) (S.written sink.old) (S.written sink.new) }
    ensures endless { result ≡ Err Endless → LinesAnswered (J.says judge.now) (recorded_lines (J.recorded judge.now))
        (F.remaining feed.old) (F.remaining feed.new) (S.written sink.old) (S.written sink.new) }
    ensures pieces { result ≡ Err Endless
        → IfSome (F.remaining feed.old) (λ bytes. most_pieces ≤ length bytes) }
{
    let mut replies = Replies::new();
    answer_lines(alloc, judge, &mut replies, feed, sink)?;
    let each = replies.ended.each;
    Ok(Captured::ended(each, replies.summary(alloc)))
}

impl<'a, B: Book> Judge for ReplyJudge<'a, B> {
    ghost use Rattle.std.specs.Prelude.{string_bytes};
    ghost use Rattle.dia_answer.specs.Lines.{IsLineAnswered, answer_of};

    type Verdict = Outcome;

    ghost says = { λ judge line verdict. IsLineAnswered judge.names.now.host.now judge.names.now.realm.now judge.unknown judge.levels
        (B.Book.meaning judge.book.now) line (answer_of verdict) };

    ghost recorded = { λ _ _ verdict. string_bytes verdict.text };

    fn judge(
        &self,
        alloc: Global,
        _number: u64,
        line: &Input,
        _space: &mut Vec<u8>,
        text: &mut String,
    ) -> Result<Outcome, AllocError> {
        let answered = text_by(
            alloc,
            self.book,
            self.unknown,
            self.levels,
            self.names,
            line,
        )?;
        text.push_str(answered.text.as_str())?;
        Ok(answered.outcome())
    }
}

impl Watch<Outcome> for Replies {
    ghost use Rattle.dia_answer.specs.Lines.{HasSeen};

    ghost saw = { HasSeen };

    fn see(&mut self, verdict: Outcome) {
        self.count(verdict.exit);
    }
}

impl Replies {
    ghost use Rattle.std.specs.Prelude.{◌≡◌, ◌+◌, if◌then◌else◌, [], IfOk, string_bytes};
    ghost use Rattle.dia_captures.specs.Counts.{counted};
    ghost use Rattle.dia_captures.specs.Ending.{ended_with, is_yes};
    ghost use Rattle.dia_answer.specs.Lines.{HasSeen, replies_line};

    /// No line was answered yet.
    fn new() -> Self
        ensures { HasSeen result [] }
    {
        Replies {
            ended: Ended::none(),
            all: 0,
            made: 0,
        }
    }

    /// One more line ended so.
    fn count(&mut self, exit: Exit)
        ensures ended { self.new.ended ≡ ended_with self.old.ended exit }
        ensures all { self.new.all ≡ counted (self.old.all + 1) }
        ensures made { self.new.made ≡ (if is_yes exit then counted (self.old.made + 1) else self.old.made) }
    {
        self.ended = self.ended.and(exit);
        self.all = self.all.saturating_add(1);
        if is_yes(exit) {
            self.made = self.made.saturating_add(1);
        }
    }

    /// How many lines of all have an answer.
    fn summary(&self, alloc: Global) -> Result<String, AllocError>
        ensures { IfOk result (λ text. string_bytes text ≡ replies_line self.now.made self.now.all) }
    {
        let mut text = String::new(alloc);
        push_replies(&mut text, self.made, self.all)?;
        Ok(text)
    }
}

/// Adds how many lines of all have an answer.
fn push_replies(text: &mut String, made: u64, all: u64) -> Result<(), AllocError>
    ensures { OnOk result (string_bytes text.new ≡ string_bytes text.old ++ replies_line made all) }
{
    write!(text, "{made} of {all} lines have an answer\n")
}
