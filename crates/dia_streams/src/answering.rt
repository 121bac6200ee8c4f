//! Lines that are answered from a feed into a sink.

ghost use Rattle.std.specs.Prelude.{◌≡◌, ◌↔◌, ◌≤◌, ◌⊎◌, ◌+◌, List, ℕ, Option, length};
ghost use Rattle.std.specs.Prelude.{Ok, Err, IfSome, IsErr, IsTrue, OnOk, true, false, ◌≢◌, [], string_bytes};
ghost use Rattle.std.specs.Io.KnownBytes.{Appends, IsAtEnd};
ghost use Rattle.dia_io.specs.Writing.{AppendsFront};
ghost use Rattle.dia_streams.specs.declared.fault.LinesFault.TheVariants.{NoMemory, Device, Endless};
ghost use Rattle.dia_streams.specs.FeedToSink.{AllAnswered, FrontAnswered, LinesAnswered, most_pieces};
ghost use Rattle.dia_streams.specs.Lines.{recorded_lines};
ghost use Rattle.dia_streams.specs.LinesUnderWay.{AreRead};

use crate::answered::Answered;
use crate::fault::LinesFault;
use crate::judge::Judge;
use crate::watch::Watch;
use dia_io::{Failed, Feed, Sink, put_all};
use std::alloc::Global;

/// How many bytes are asked for at a time.
const PIECE: usize = 4096;

/// Puts the answer for each line of a feed into a sink, and shows the verdicts to a watch.
///
/// The answers are put after each piece that was read. It takes the memory of one line, and of the answers of one piece.
pub fn answer_lines<J: Judge, W: Watch<J::Verdict>, F: Feed, S: Sink>(
    alloc: Global,
    judge: &J,
    watch: &mut W,
    feed: &mut F,
    sink: &mut S,
) -> Result<(), LinesFault>
    requires sound_feed { ¬ IsTrue (F.has_failed feed.old) }
    requires sound_sink { ¬ IsTrue (S.has_failed sink.old) }
    ensures answered { OnOk result (AllAnswered (J.says judge.now) (recorded_lines (J.recorded judge.now)) W.saw
        (F.remaining feed.old) (F.remaining feed.new) (S.written sink.old) (S.written sink.new)
        watch.old watch.new) }
    ensures all { OnOk result (IsAtEnd (F.remaining feed.new)) }
    ensures device { (result ≡ Err Device)
        ↔ (IsTrue (F.has_failed feed.new) ⊎ IsTrue (S.has_failed sink.new)) }
    ensures front { IsErr result → FrontAnswered (J.says judge.now) (recorded_lines (J.recorded judge.now))
        (F.remaining feed.old) (F.remaining feed.new) (S.written sink.old) (S.written sink.new) }
    ensures no_memory { result ≡ Err NoMemory → LinesAnswered (J.says judge.now) (recorded_lines (J.recorded judge.now))
        (F.remaining feed.old) (F.remaining feed.new) (S.written sink.old) (S.written sink.new) }
    ensures endless { result ≡ Err Endless → LinesAnswered (J.says judge.now) (recorded_lines (J.recorded judge.now))
        (F.remaining feed.old) (F.remaining feed.new) (S.written sink.old) (S.written sink.new) }
    ensures pieces { result ≡ Err Endless
        → IfSome (F.remaining feed.old) (λ bytes. most_pieces ≤ length bytes) }
{
    let mut answered = Answered::new(alloc);
    let mut piece = [0u8; PIECE];
    let mut pieces_left = u64::MAX;
    while pieces_left > 0 {
        if !answer_piece(alloc, judge, watch, &mut answered, feed, sink, &mut piece)? {
            return Ok(());
        }
        pieces_left -= 1;
    }
    Err(LinesFault::Endless)
}

/// Reads the next piece of a feed, and puts the answers of the lines that end in it. `false` after the last one.
fn answer_piece<J: Judge, W: Watch<J::Verdict>, F: Feed, S: Sink>(
    alloc: Global,
    judge: &J,
    watch: &mut W,
    answered: &mut Answered,
    feed: &mut F,
    sink: &mut S,
    piece: &mut [u8; PIECE],
) -> Result<bool, LinesFault>
    requires sound_feed { ¬ IsTrue (F.has_failed feed.old) }
    requires sound_sink { ¬ IsTrue (S.has_failed sink.old) }
    ensures more { (fed put : Option (List ℕ)) (begun : W) (n : ℕ) → result ≡ Ok true
        → AreRead (J.says judge.now) (J.recorded judge.now) W.saw fed (F.remaining feed.old)
        put (S.written sink.old) begun watch.old answered.old n
        → AreRead (J.says judge.now) (J.recorded judge.now) W.saw fed (F.remaining feed.new)
        put (S.written sink.new) begun watch.new answered.new (n + 1) }
    ensures end { (fed put : Option (List ℕ)) (begun : W) (n : ℕ) → result ≡ Ok false
        → AreRead (J.says judge.now) (J.recorded judge.now) W.saw fed (F.remaining feed.old)
        put (S.written sink.old) begun watch.old answered.old n
        → AllAnswered (J.says judge.now) (recorded_lines (J.recorded judge.now)) W.saw fed (F.remaining feed.new)
        put (S.written sink.new) begun watch.new }
    ensures all { result ≡ Ok false → IsAtEnd (F.remaining feed.new) }
    ensures device { (result ≡ Err Device)
        ↔ (IsTrue (F.has_failed feed.new) ⊎ IsTrue (S.has_failed sink.new)) }
    ensures front { (fed put : Option (List ℕ)) (begun : W) (n : ℕ) → IsErr result
        → AreRead (J.says judge.now) (J.recorded judge.now) W.saw fed (F.remaining feed.old)
        put (S.written sink.old) begun watch.old answered.old n
        → FrontAnswered (J.says judge.now) (recorded_lines (J.recorded judge.now)) fed (F.remaining feed.new)
        put (S.written sink.new) }
    ensures no_memory { (fed put : Option (List ℕ)) (begun : W) (n : ℕ) → result ≡ Err NoMemory
        → AreRead (J.says judge.now) (J.recorded judge.now) W.saw fed (F.remaining feed.old)
        put (S.written sink.old) begun watch.old answered.old n
        → LinesAnswered (J.says judge.now) (recorded_lines (J.recorded judge.now)) fed (F.remaining feed.new)
        put (S.written sink.new) }
    ensures counted { result ≢ Err Endless }
{
    let count = feed.get(piece)?;
    if count == 0 {
        answered.end(alloc, judge, watch)?;
        put_answers(answered, sink)?;
        Ok(false)
    } else {
        answered.read(alloc, judge, watch, &piece[..count])?;
        put_answers(answered, sink)?;
        Ok(true)
    }
}

/// Puts the answers that weren't put yet.
fn put_answers<S: Sink>(answered: &mut Answered, sink: &mut S) -> Result<(), Failed>
    requires { ¬ IsTrue (S.has_failed sink.old) }
    ensures put { OnOk result
        (Appends (S.written sink.old) (S.written sink.new) (string_bytes answered.old.text)) }
    ensures front { AppendsFront (S.written sink.old) (S.written sink.new) (string_bytes answered.old.text) }
    ensures failed { IsErr result ↔ IsTrue (S.has_failed sink.new) }
    ensures nothing { OnOk result (string_bytes answered.new.text ≡ []) }
    ensures line { answered.new.line ≡ answered.old.line }
    ensures count { answered.new.count ≡ answered.old.count }
{
    put_all(sink, answered.text.as_bytes())?;
    answered.text.clear();
    Ok(())
}
