//! The commands over many messages, which are read a piece at a time.

ghost use Rattle.std.specs.Prelude.{◌≡◌, ◌≢◌, ◌↔◌, ◌≤◌, ◌⊎◌, [], length, List, ℕ};
ghost use Rattle.std.specs.Prelude.{Err, IfOk, IfSome, IsErr, IsTrue, None, string_bytes};
ghost use Rattle.std.specs.Io.KnownBytes.{Appends, IsAtEnd};
ghost use Rattle.dia_io.specs.Writing.{AppendsFront};
ghost use Rattle.dia_streams.specs.declared.fault.LinesFault.TheVariants.{NoMemory, Device, Endless};
ghost use Rattle.dia_streams.specs.FeedToSink.{most_pieces};
ghost use Rattle.dia_streams.specs.Streams.{most_places};
ghost use Rattle.dia_captures.specs.Summaries.{IsMade};
ghost use Rattle.dia_json.specs.Runs.{ChecksFront, ChecksLines, ChecksStream, ChecksSummary, ChecksWhole};
ghost use Rattle.dia_json.specs.Runs.{RefutesFront, RefutesLines, RefutesSummary, RefutesWhole};
ghost use Rattle.dia_json.specs.Runs.{StreamFront, StreamSummary, StreamWhole};
ghost use Rattle.dia_refused_json.specs.Recording.{RecordsBad};

use crate::judges::{JsonCheck, JsonRefute};
use dia_captures::{Captured, CheckJudge, RefuteJudge, run_checks, run_refutations, run_stream};
use dia_check::{Levels, Unknown};
use dia_io::{Exit, Feed, Input, Inputs, Sink, put_all};
use dia_refused_json::refuse;
use dia_report::{Answered, Refused, Report, Reported};
use dia_run::read_dictionary;
use dia_streams::LinesFault;
use std::alloc::Global;

/// `check` of each line of a feed: yes where each is valid.
pub fn check_lines<F: Feed, S: Sink>(
    alloc: Global,
    unknown: Unknown,
    levels: Levels,
    inputs: &Inputs,
    feed: &mut F,
    sink: &mut S,
) -> Result<Captured, LinesFault>
    requires sound_feed { ¬ IsTrue (F.has_failed feed.old) }
    requires sound_sink { ¬ IsTrue (S.has_failed sink.old) }
    ensures recorded { IfOk result (λ captured. ChecksLines unknown levels inputs.now
        (F.remaining feed.old) (F.remaining feed.new) (S.written sink.old) (S.written sink.new)
        captured.reported.exit) }
    ensures all { IfOk result
        (λ captured. captured.reported.exit ≢ Exit.Bad → IsAtEnd (F.remaining feed.new)) }
    ensures unread { IfOk result (λ captured. captured.reported.exit ≡ Exit.Bad → feed.new ≡ feed.old) }
    ensures summary { IfOk result (λ captured. captured.reported.exit ≢ Exit.Bad → IsMade captured.summary
        (λ text. ChecksSummary unknown levels inputs.now (F.remaining feed.old) (F.remaining feed.new)
        (S.written sink.old) (S.written sink.new) (string_bytes text))) }
    ensures no_summary { IfOk result
        (λ captured. captured.reported.exit ≡ Exit.Bad → captured.summary ≡ None) }
    ensures report { IfOk result
        (λ captured. captured.reported.exit ≢ Exit.Bad → captured.reported.report ≡ Report.Done) }
    ensures device { (result ≡ Err Device)
        ↔ (IsTrue (F.has_failed feed.new) ⊎ IsTrue (S.has_failed sink.new)) }
    ensures front { IsErr result → ChecksFront unknown levels inputs.now
        (F.remaining feed.old) (F.remaining feed.new) (S.written sink.old) (S.written sink.new) }
    ensures no_memory { result ≡ Err NoMemory → ChecksWhole unknown levels inputs.now
        (F.remaining feed.old) (F.remaining feed.new) (S.written sink.old) (S.written sink.new) }
    ensures endless { result ≡ Err Endless → ChecksWhole unknown levels inputs.now
        (F.remaining feed.old) (F.remaining feed.new) (S.written sink.old) (S.written sink.new) }
    ensures pieces { result ≡ Err Endless
        → IfSome (F.remaining feed.old) (λ bytes. most_pieces ≤ length bytes) }
{
    let first = match read_dictionary(alloc, 1, &inputs.first) {
        Ok(read) => read,
        Err(refused) => return put_refusal(alloc, &inputs.first, refused, sink),
    };
    let judge = JsonCheck {
        check: CheckJudge {
            book: &first.book,
            unknown,
            levels,
        },
    };
    run_checks(alloc, &judge, judge.check.book, feed, sink)
}

/// `refute` of each line of a feed: yes where one refutes.
pub fn refute_lines<F: Feed, S: Sink>(
    alloc: Global,
    unknown: Unknown,
    levels: Levels,
    inputs: &Inputs,
    feed: &mut F,
    sink: &mut S,
) -> Result<Captured, LinesFault>
    requires sound_feed { ¬ IsTrue (F.has_failed feed.old) }
    requires sound_sink { ¬ IsTrue (S.has_failed sink.old) }
    ensures recorded { IfOk result (λ captured. RefutesLines unknown levels inputs.now
        (F.remaining feed.old) (F.remaining feed.new) (S.written sink.old) (S.written sink.new)
        captured.reported.exit) }
    ensures all { IfOk result
        (λ captured. captured.reported.exit ≢ Exit.Bad → IsAtEnd (F.remaining feed.new)) }
    ensures unread { IfOk result (λ captured. captured.reported.exit ≡ Exit.Bad → feed.new ≡ feed.old) }
    ensures summary { IfOk result (λ captured. captured.reported.exit ≢ Exit.Bad → IsMade captured.summary
        (λ text. RefutesSummary unknown levels inputs.now (F.remaining feed.old) (F.remaining feed.new)
        (S.written sink.old) (S.written sink.new) (string_bytes text))) }
    ensures no_summary { IfOk result
        (λ captured. captured.reported.exit ≡ Exit.Bad → captured.summary ≡ None) }
    ensures report { IfOk result
        (λ captured. captured.reported.exit ≢ Exit.Bad → captured.reported.report ≡ Report.Done) }
    ensures device { (result ≡ Err Device)
        ↔ (IsTrue (F.has_failed feed.new) ⊎ IsTrue (S.has_failed sink.new)) }
    ensures front { IsErr result → RefutesFront unknown levels inputs.now
        (F.remaining feed.old) (F.remaining feed.new) (S.written sink.old) (S.written sink.new) }
    ensures no_memory { result ≡ Err NoMemory → RefutesWhole unknown levels inputs.now
        (F.remaining feed.old) (F.remaining feed.new) (S.written sink.old) (S.written sink.new) }
    ensures endless { result ≡ Err Endless → RefutesWhole unknown levels inputs.now
        (F.remaining feed.old) (F.remaining feed.new) (S.written sink.old) (S.written sink.new) }
    ensures pieces { result ≡ Err Endless
        → IfSome (F.remaining feed.old) (λ bytes. most_pieces ≤ length bytes) }
{
    let first = match read_dictionary(alloc, 1, &inputs.first) {
        Ok(read) => read,
        Err(refused) => return put_refusal(alloc, &inputs.first, refused, sink),
    };
    let second = match read_dictionary(alloc, 2, &inputs.second) {
        Ok(read) => read,
        Err(refused) => return put_refusal(alloc, &inputs.second, refused, sink),
    };
    let judge = JsonRefute {
        refute: RefuteJudge {
            first: &first.book,
            second: &second.book,
            unknown,
            levels,
        },
    };
    run_refutations(alloc, &judge, judge.refute.first, feed, sink)
}

/// `check` of each message of a stream: yes where each is valid.
pub fn check_stream<F: Feed, S: Sink>(
    alloc: Global,
    unknown: Unknown,
    levels: Levels,
    inputs: &Inputs,
    feed: &mut F,
    sink: &mut S,
) -> Result<Captured, LinesFault>
    requires sound_feed { ¬ IsTrue (F.has_failed feed.old) }
    requires sound_sink { ¬ IsTrue (S.has_failed sink.old) }
    ensures recorded { IfOk result (λ captured. ChecksStream unknown levels inputs.now
        (F.remaining feed.old) (F.remaining feed.new) (S.written sink.old) (S.written sink.new)
        captured.reported.exit) }
    ensures unread { IfOk result (λ captured. captured.reported.exit ≡ Exit.Bad → feed.new ≡ feed.old) }
    ensures summary { IfOk result (λ captured. captured.reported.exit ≢ Exit.Bad → IsMade captured.summary
        (λ text. StreamSummary unknown levels inputs.now (F.remaining feed.old) (F.remaining feed.new)
        (S.written sink.old) (S.written sink.new) (string_bytes text))) }
    ensures no_summary { IfOk result
        (λ captured. captured.reported.exit ≡ Exit.Bad → captured.summary ≡ None) }
    ensures report { IfOk result
        (λ captured. captured.reported.exit ≢ Exit.Bad → captured.reported.report ≡ Report.Done) }
    ensures device { (result ≡ Err Device)
        ↔ (IsTrue (F.has_failed feed.new) ⊎ IsTrue (S.has_failed sink.new)) }
    ensures front { IsErr result → StreamFront unknown levels inputs.now
        (F.remaining feed.old) (F.remaining feed.new) (S.written sink.old) (S.written sink.new) }
    ensures no_memory { result ≡ Err NoMemory → StreamWhole unknown levels inputs.now
        (F.remaining feed.old) (F.remaining feed.new) (S.written sink.old) (S.written sink.new) }
    ensures endless { result ≡ Err Endless → StreamWhole unknown levels inputs.now
        (F.remaining feed.old) (F.remaining feed.new) (S.written sink.old) (S.written sink.new) }
    ensures pieces { result ≡ Err Endless
        → IfSome (F.remaining feed.old) (λ bytes. most_places ≤ length bytes) }
{
    let first = match read_dictionary(alloc, 1, &inputs.first) {
        Ok(read) => read,
        Err(refused) => return put_refusal(alloc, &inputs.first, refused, sink),
    };
    let judge = JsonCheck {
        check: CheckJudge {
            book: &first.book,
            unknown,
            levels,
        },
    };
    run_stream(alloc, &judge, judge.check.book, feed, sink)
}

/// Puts the line of a dictionary that is refused.
fn put_refusal<S: Sink>(
    alloc: Global,
    input: &Input,
    refused: Refused,
    sink: &mut S,
) -> Result<Captured, LinesFault>
    requires { ¬ IsTrue (S.has_failed sink.old) }
    ensures recorded { IfOk result (λ captured. (text : List ℕ) × RecordsBad input.now refused text captured.reported.exit
        × Appends (S.written sink.old) (S.written sink.new) text) }
    ensures exit { IfOk result (λ captured. captured.reported.exit ≡ Exit.Bad) }
    ensures summary { IfOk result (λ captured. captured.summary ≡ None) }
    ensures device { (result ≡ Err Device) ↔ IsTrue (S.has_failed sink.new) }
    ensures front { result ≡ Err Device → (text : List ℕ) × RecordsBad input.now refused text Exit.Bad
        × AppendsFront (S.written sink.old) (S.written sink.new) text }
    ensures nothing { result ≡ Err NoMemory → S.written sink.new ≡ S.written sink.old }
    ensures counted { result ≢ Err Endless }
{
    let Answered { text, exit, report } = refuse(alloc, input, refused)?;
    put_all(sink, text.as_bytes())?;
    Ok(Captured {
        reported: Reported { exit, report },
        summary: None,
    })
}
