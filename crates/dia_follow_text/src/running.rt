//! The command over the text of a connection.

ghost use Rattle.std.specs.Prelude.{◌≡◌, ◌≢◌, ◌↔◌, ◌⊎◌, ◌++◌, [], ℕ, List, Option, Ok, Err, IfOk, IsErr, IsOk, IsTrue, OnOk, string_bytes};
ghost use Rattle.std.specs.Io.KnownBytes.{Appends, IsAtEnd};
ghost use Rattle.dia_io.specs.Writing.{AppendsFront};
ghost use Rattle.dia_streams.specs.declared.fault.LinesFault.TheVariants.{Device};
ghost use Rattle.dia_follow_text.specs.declared.entry.BadLine.{BadLine as AnyBadLine};
ghost use Rattle.dia_follow_text.specs.Answers.{bad_line};
ghost use Rattle.dia_report.specs.Refusals.{RecordsOf};
ghost use Rattle.dia_run.specs.Report.{HasFinding};
ghost use Rattle.dia_follow_text.specs.FollowOutcome.{IsDictionaryRefused, RefusesDictionary};
ghost use Rattle.dia_follow_text.specs.Runs.{AreEnded, AreFollowed, AreRead, AreRefused, FrontFollowed, IsAnswerPut, IsFollowBegun};
ghost use Rattle.dia_follow_text.specs.Runs.{IsRefusalBegun, IsRefusalPut, after_end, after_piece, exit_by};

use crate::answering::{Answered, Manner};
use crate::entry::BadLine;
use crate::forms::push_bad_line;
use crate::options::Options;
use crate::summary::summary_of;
use dia_dict::Book;
use dia_io::{Exit, Failed, Feed, Input, Sink, put_all};
use dia_report::{Refused, Report, Reported};
use dia_run::{answer_of, read_dictionary};
use dia_streams::LinesFault;
use std::alloc::{AllocError, Global};

/// How many bytes are asked for at a time.
const PIECE: usize = 4096;

/// How the command ended.
#[derive(Drop)]
pub struct Followed {
    /// Yes where no end departs, no where one does, bad where the dictionary or a line is refused.
    pub reported: Reported,
    /// The number of the line that is refused, and why.
    pub bad_line: Option<(u64, BadLine)>,
    /// What standard error says, unless memory was refused to it. None where the dictionary or a line is refused.
    pub summary: Option<Result<String, AllocError>>,
}

/// Answers the messages of a captured connection: each with its departures from RFC 6733 and the notes on it.
///
/// The answer to a line is put as soon as the line is at its end. It takes the memory of one line, and of 65,536 requests of each
/// end.
pub fn follow<F: Feed, S: Sink>(
    alloc: Global,
    options: &Options,
    dictionary: &Input,
    feed: &mut F,
    sink: &mut S,
) -> Result<Followed, LinesFault>
    requires sound_feed { ¬ IsTrue (F.has_failed feed.old) }
    requires sound_sink { ¬ IsTrue (S.has_failed sink.old) }
    ensures exact { IfOk result (λ followed. AreFollowed options.now dictionary.now (F.remaining feed.old)
        (F.remaining feed.new) (S.written sink.old) (S.written sink.new) followed.reported.exit) }
    ensures pieces { IfOk result (λ followed. IsAnswerPut options.now dictionary.now (F.remaining feed.old)
        (S.written sink.old) (S.written sink.new) followed.reported.exit) }
    ensures all { IfOk result
        (λ followed. followed.reported.exit ≢ Exit.Bad → IsAtEnd (F.remaining feed.new)) }
    ensures front { IsErr result → IsFollowBegun options.now dictionary.now (F.remaining feed.old)
        (F.remaining feed.new) (S.written sink.old) (S.written sink.new) }
    ensures device { (result ≡ Err Device)
        ↔ (IsTrue (F.has_failed feed.new) ⊎ IsTrue (S.has_failed sink.new)) }
{
    let first = match read_dictionary(alloc, 1, dictionary) {
        Ok(read) => read,
        Err(refused) => return refuse(alloc, options, dictionary, refused, sink),
    };
    let manner = Manner {
        book: &first.book,
        options: *options,
    };
    follow_lines(alloc, &manner, feed, sink)
}

/// Answers the lines of a feed.
fn follow_lines<B: Book, F: Feed, S: Sink>(
    alloc: Global,
    manner: &Manner<'_, B>,
    feed: &mut F,
    sink: &mut S,
) -> Result<Followed, LinesFault>
    requires sound_feed { ¬ IsTrue (F.has_failed feed.old) }
    requires sound_sink { ¬ IsTrue (S.has_failed sink.old) }
    ensures exact { IfOk result (λ followed. AreEnded (B.meaning manner.now.book.now) manner.now.options (F.remaining feed.old)
        (F.remaining feed.new) (S.written sink.old) (S.written sink.new) followed.reported.exit) }
    ensures all { IfOk result
        (λ followed. followed.reported.exit ≢ Exit.Bad → IsAtEnd (F.remaining feed.new)) }
    ensures front { IsErr result → FrontFollowed (B.meaning manner.now.book.now) manner.now.options (F.remaining feed.old)
        (F.remaining feed.new) (S.written sink.old) (S.written sink.new) }
    ensures device { (result ≡ Err Device)
        ↔ (IsTrue (F.has_failed feed.new) ⊎ IsTrue (S.has_failed sink.new)) }
{
    let mut answered = Answered::new(alloc, &manner.options);
    let mut piece = [0u8; PIECE];
    let mut pieces_left = u64::MAX;
    while pieces_left > 0 {
        match answer_piece(alloc, manner, &mut answered, feed, sink, &mut piece)? {
            Progress::More => {}
            Progress::Bad(bad) => {
                return refuse_line(alloc, manner.options.json, answered.number, bad, sink);
            }
            Progress::Done => return Ok(ended(alloc, &answered)),
        }
        pieces_left -= 1;
    }
    Err(LinesFault::Endless)
}

/// What a piece comes to.
#[derive(Clone, Copy)]
enum Progress {
    More,
    /// A line is refused.
    Bad(BadLine),
    /// The feed is at its end.
    Done,
}

/// Reads the next piece of a feed, and puts the answers to the lines that end in it.
fn answer_piece<B: Book, F: Feed, S: Sink>(
    alloc: Global,
    manner: &Manner<'_, B>,
    answered: &mut Answered,
    feed: &mut F,
    sink: &mut S,
    piece: &mut [u8; PIECE],
) -> Result<Progress, LinesFault>
    requires sound_feed { ¬ IsTrue (F.has_failed feed.old) }
    requires sound_sink { ¬ IsTrue (S.has_failed sink.old) }
    ensures more { (fed put : Option (List ℕ)) → result ≡ Ok Progress.More
        → AreRead (B.meaning manner.now.book.now) manner.now.options fed (F.remaining feed.old) put (S.written sink.old) answered.old
        → AreRead (B.meaning manner.now.book.now) manner.now.options fed (F.remaining feed.new) put (S.written sink.new) answered.new }
    ensures bad { (fed put : Option (List ℕ)) (bad : AnyBadLine) → result ≡ Ok (Progress.Bad bad)
        → AreRead (B.meaning manner.now.book.now) manner.now.options fed (F.remaining feed.old) put (S.written sink.old) answered.old
        → AreRefused (B.meaning manner.now.book.now) manner.now.options fed (F.remaining feed.new) put (S.written sink.new)
        answered.new.number bad }
    ensures done { (fed put : Option (List ℕ)) → result ≡ Ok Progress.Done
        → AreRead (B.meaning manner.now.book.now) manner.now.options fed (F.remaining feed.old) put (S.written sink.old) answered.old
        → AreEnded (B.meaning manner.now.book.now) manner.now.options fed (F.remaining feed.new) put (S.written sink.new)
        (exit_by answered.new.state.departs) }
    ensures all { result ≡ Ok Progress.Done → IsAtEnd (F.remaining feed.new) }
    ensures front { (fed put : Option (List ℕ)) → IsErr result
        → AreRead (B.meaning manner.now.book.now) manner.now.options fed (F.remaining feed.old) put (S.written sink.old) answered.old
        → FrontFollowed (B.meaning manner.now.book.now) manner.now.options fed (F.remaining feed.new) put (S.written sink.new) }
    ensures device { (result ≡ Err Device)
        ↔ (IsTrue (F.has_failed feed.new) ⊎ IsTrue (S.has_failed sink.new)) }
{
    let count = feed.get(piece)?;
    if count == 0 {
        let ended = answered.end(alloc, manner)?;
        put_answers(answered, sink)?;
        Ok(after_end(ended))
    } else {
        let stopped = answered.read(alloc, manner, &piece[..count])?;
        put_answers(answered, sink)?;
        Ok(after_piece(stopped))
    }
}

fn after_end(bad: Option<BadLine>) -> Progress
    ensures { result ≡ after_end bad }
{
    match bad {
        Some(bad) => Progress::Bad(bad),
        None => Progress::Done,
    }
}

fn after_piece(bad: Option<BadLine>) -> Progress
    ensures { result ≡ after_piece bad }
{
    match bad {
        Some(bad) => Progress::Bad(bad),
        None => Progress::More,
    }
}

/// Flushes pending answers.
fn put_answers<S: Sink>(answered: &mut Answered, sink: &mut S) -> Result<(), Failed>
    requires { ¬ IsTrue (S.has_failed sink.old) }
    ensures put { OnOk result
        (Appends (S.written sink.old) (S.written sink.new) (string_bytes answered.old.text)) }
    ensures front { AppendsFront (S.written sink.old) (S.written sink.new) (string_bytes answered.old.text) }
    ensures failed { IsErr result ↔ IsTrue (S.has_failed sink.new) }
    ensures nothing { OnOk result (string_bytes answered.new.text ≡ []) }
    ensures line { answered.new.line ≡ answered.old.line }
    ensures number { answered.new.number ≡ answered.old.number }
    ensures state { answered.new.state ≡ answered.old.state }
{
    put_all(sink, answered.text.as_bytes())?;
    answered.text.clear();
    Ok(())
}

fn ended(alloc: Global, answered: &Answered) -> Followed
    ensures { result.reported.exit ≡ exit_by answered.now.state.departs }
{
    let exit = if answered.state.departs {
        Exit::No
    } else {
        Exit::Yes
    };
    Followed {
        reported: Reported {
            exit,
            report: Report::Done,
        },
        bad_line: None,
        summary: Some(summary_of(alloc, &answered.state.counts)),
    }
}

/// Puts the diagnostic for a refused line.
fn refuse_line<S: Sink>(
    alloc: Global,
    json: bool,
    number: u64,
    bad: BadLine,
    sink: &mut S,
) -> Result<Followed, LinesFault>
    requires { ¬ IsTrue (S.has_failed sink.old) }
    ensures put { IsOk result
        → Appends (S.written sink.old) (S.written sink.new) (bad_line json number bad) }
    ensures exit { IfOk result (λ followed. followed.reported.exit ≡ Exit.Bad) }
    ensures front { IsErr result
        → AppendsFront (S.written sink.old) (S.written sink.new) (bad_line json number bad) }
    ensures device { (result ≡ Err Device) ↔ IsTrue (S.has_failed sink.new) }
{
    let mut text = String::new(alloc);
    push_bad_line(&mut text, json, number, bad)?;
    put_all(sink, text.as_bytes())?;
    Ok(Followed {
        reported: Reported {
            exit: Exit::Bad,
            report: Report::Done,
        },
        bad_line: Some((number, bad)),
        summary: None,
    })
}

/// Puts the line of a dictionary that is refused.
fn refuse<S: Sink>(
    alloc: Global,
    options: &Options,
    dictionary: &Input,
    refused: Refused,
    sink: &mut S,
) -> Result<Followed, LinesFault>
    requires sound { ¬ IsTrue (S.has_failed sink.old) }
    requires records { RecordsOf (RefusesDictionary dictionary.now) refused }
    requires kept { HasFinding dictionary.now refused }
    ensures put { IfOk result (λ followed. IsRefusalPut options.now dictionary.now
        (S.written sink.old) (S.written sink.new) followed.reported.exit) }
    ensures exit { IfOk result (λ followed. followed.reported.exit ≡ Exit.Bad) }
    ensures front { IsErr result → IsRefusalBegun options.now dictionary.now
        (S.written sink.old) (S.written sink.new) }
    ensures device { (result ≡ Err Device) ↔ IsTrue (S.has_failed sink.new) }
{
    let answered = refusal(alloc, options.json, dictionary, refused)?;
    put_all(sink, answered.text.as_bytes())?;
    Ok(Followed {
        reported: Reported {
            exit: answered.exit,
            report: answered.report,
        },
        bad_line: None,
        summary: None,
    })
}

/// The answer where the dictionary is refused.
fn refusal(
    alloc: Global,
    json: bool,
    dictionary: &Input,
    refused: Refused,
) -> Result<dia_report::Answered, AllocError>
    requires records { RecordsOf (RefusesDictionary dictionary.now) refused }
    requires kept { HasFinding dictionary.now refused }
    ensures text { IfOk result (λ answered. IsDictionaryRefused json dictionary.now
        (string_bytes answered.text) answered.exit) }
    ensures exit { IfOk result (λ answered. answered.exit ≡ Exit.Bad) }
{
    if json {
        dia_refused_json::refuse(alloc, dictionary, refused)
    } else {
        answer_of(alloc, Err(refused))
    }
}
