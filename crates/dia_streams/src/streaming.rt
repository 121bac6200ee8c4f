//! A stream of messages that is answered from a feed into a sink.

ghost use Rattle.std.specs.Prelude.{◌≡◌, ◌↔◌, ◌≤◌, ◌⊎◌, ◌+◌, List, ℕ, [], Option, length};
ghost use Rattle.std.specs.Prelude.{Ok, Err, IfSome, IsErr, IsTrue, OnOk, true, false, string_bytes};
ghost use Rattle.std.specs.Io.KnownBytes.{Appends};
ghost use Rattle.dia_io.specs.Writing.{AppendsFront};
ghost use Rattle.dia_streams.specs.declared.fault.LinesFault.TheVariants.{NoMemory, Device, Endless};
ghost use Rattle.dia_streams.specs.Streams.{AllRecorded, SomeRecorded, WholeRecorded, most_places};
ghost use Rattle.dia_streams.specs.StreamUnderWay.{AreRead};

use crate::fault::LinesFault;
use crate::message_judge::MessageJudge;
use crate::streamed::Streamed;
use crate::watch::Watch;
use dia_io::{Failed, Feed, Sink, put_all};
use std::alloc::Global;

/// How many bytes are asked for at a time.
const PIECE: usize = 4096;

/// Puts a line for each message of a stream into a sink, and shows the verdicts with their places to a watch.
///
/// The lines are put after each piece that was read. It takes the memory of one message, and of the lines of one piece.
pub fn answer_stream<J: MessageJudge, W: Watch<(u64, J::Verdict)>, F: Feed, S: Sink>(
    alloc: Global,
    judge: &J,
    watch: &mut W,
    feed: &mut F,
    sink: &mut S,
) -> Result<(), LinesFault>
    requires sound_feed { ¬ IsTrue (F.has_failed feed.old) }
    requires sound_sink { ¬ IsTrue (S.has_failed sink.old) }
    ensures recorded { OnOk result (AllRecorded (J.says judge.now) (J.recorded judge.now) W.saw
        (F.remaining feed.old) (F.remaining feed.new) (S.written sink.old) (S.written sink.new)
        watch.old watch.new) }
    ensures device { (result ≡ Err Device)
        ↔ (IsTrue (F.has_failed feed.new) ⊎ IsTrue (S.has_failed sink.new)) }
    ensures front { IsErr result → SomeRecorded (J.says judge.now) (J.recorded judge.now)
        (F.remaining feed.old) (F.remaining feed.new) (S.written sink.old) (S.written sink.new) }
    ensures no_memory { result ≡ Err NoMemory → WholeRecorded (J.says judge.now) (J.recorded judge.now)
        (F.remaining feed.old) (F.remaining feed.new) (S.written sink.old) (S.written sink.new) }
    ensures endless { result ≡ Err Endless → WholeRecorded (J.says judge.now) (J.recorded judge.now)
        (F.remaining feed.old) (F.remaining feed.new) (S.written sink.old) (S.written sink.new) }
    ensures pieces { result ≡ Err Endless
        → IfSome (F.remaining feed.old) (λ bytes. most_places ≤ length bytes) }
{
    let mut streamed = Streamed::new(alloc);
    let mut piece = [0u8; PIECE];
    let mut pieces_left = u64::MAX;
    while pieces_left > 0 {
        if !answer_piece(alloc, judge, watch, &mut streamed, feed, sink, &mut piece)? {
            return Ok(());
        }
        pieces_left -= 1;
    }
    Err(LinesFault::Endless)
}

/// Reads the next piece of a feed, and puts the lines of the messages that end in it. `false` after the last one.
fn answer_piece<J: MessageJudge, W: Watch<(u64, J::Verdict)>, F: Feed, S: Sink>(
    alloc: Global,
    judge: &J,
    watch: &mut W,
    streamed: &mut Streamed,
    feed: &mut F,
    sink: &mut S,
    piece: &mut [u8; PIECE],
) -> Result<bool, LinesFault>
    requires sound_feed { ¬ IsTrue (F.has_failed feed.old) }
    requires sound_sink { ¬ IsTrue (S.has_failed sink.old) }
    ensures more { (fed put : Option (List ℕ)) (begun : W) (n : ℕ) → result ≡ Ok true
        → AreRead (J.says judge.now) (J.recorded judge.now) W.saw fed (F.remaining feed.old)
        put (S.written sink.old) begun watch.old streamed.old n
        → AreRead (J.says judge.now) (J.recorded judge.now) W.saw fed (F.remaining feed.new)
        put (S.written sink.new) begun watch.new streamed.new (n + 1) }
    ensures end { (fed put : Option (List ℕ)) (begun : W) (n : ℕ) → result ≡ Ok false
        → AreRead (J.says judge.now) (J.recorded judge.now) W.saw fed (F.remaining feed.old)
        put (S.written sink.old) begun watch.old streamed.old n
        → AllRecorded (J.says judge.now) (J.recorded judge.now) W.saw fed (F.remaining feed.new)
        put (S.written sink.new) begun watch.new }
    ensures device { (result ≡ Err Device)
        ↔ (IsTrue (F.has_failed feed.new) ⊎ IsTrue (S.has_failed sink.new)) }
    ensures front { (fed put : Option (List ℕ)) (begun : W) (n : ℕ) → IsErr result
        → AreRead (J.says judge.now) (J.recorded judge.now) W.saw fed (F.remaining feed.old)
        put (S.written sink.old) begun watch.old streamed.old n
        → SomeRecorded (J.says judge.now) (J.recorded judge.now) fed (F.remaining feed.new)
        put (S.written sink.new) }
    ensures whole { (fed put : Option (List ℕ)) (begun : W) (n : ℕ) → (result ≡ Err NoMemory) ⊎ (result ≡ Err Endless)
        → AreRead (J.says judge.now) (J.recorded judge.now) W.saw fed (F.remaining feed.old)
        put (S.written sink.old) begun watch.old streamed.old n
        → WholeRecorded (J.says judge.now) (J.recorded judge.now) fed (F.remaining feed.new)
        put (S.written sink.new) }
    ensures pieces { (fed put : Option (List ℕ)) (begun : W) (n : ℕ) → result ≡ Err Endless
        → AreRead (J.says judge.now) (J.recorded judge.now) W.saw fed (F.remaining feed.old)
        put (S.written sink.old) begun watch.old streamed.old n
        → IfSome fed (λ bytes. most_places ≤ length bytes) }
{
    let count = feed.get(piece)?;
    if count == 0 {
        streamed.end(alloc, judge, watch)?;
        put_lines(streamed, sink)?;
        Ok(false)
    } else {
        let goes_on = streamed.read(alloc, judge, watch, &piece[..count])?;
        put_lines(streamed, sink)?;
        Ok(goes_on)
    }
}

/// Puts the lines that weren't put yet.
fn put_lines<S: Sink>(streamed: &mut Streamed, sink: &mut S) -> Result<(), Failed>
    requires { ¬ IsTrue (S.has_failed sink.old) }
    ensures put { OnOk result
        (Appends (S.written sink.old) (S.written sink.new) (string_bytes streamed.old.recorded.text)) }
    ensures front { AppendsFront (S.written sink.old) (S.written sink.new) (string_bytes streamed.old.recorded.text) }
    ensures failed { IsErr result ↔ IsTrue (S.has_failed sink.new) }
    ensures nothing { OnOk result (string_bytes streamed.new.recorded.text ≡ []) }
    ensures digits { streamed.new.digits ≡ streamed.old.digits }
    ensures at { streamed.new.recorded.at ≡ streamed.old.recorded.at }
{
    put_all(sink, streamed.recorded.text.as_bytes())?;
    streamed.recorded.text.clear();
    Ok(())
}
