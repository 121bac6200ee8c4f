//! The command over the lines of a text.

ghost use Rattle.std.specs.Prelude.{◌≡◌, ◌≢◌, ◌↔◌, ◌⊎◌, ◌+◌, ◌==◌, if◌then◌else◌, ℕ, List, [], Option, Ok, Err, IfOk, IsErr, IsTrue, OnOk, string_bytes, false, true};
ghost use Rattle.std.specs.Io.KnownBytes.{Appends, IsAtEnd};
ghost use Rattle.dia_io.specs.Writing.{AppendsFront};
ghost use Rattle.dia_streams.specs.declared.fault.LinesFault.TheVariants.{Device};
ghost use Rattle.dia_report.specs.Refusals.{RecordsOf};
ghost use Rattle.dia_mask.specs.Runs.{words_of};
ghost use Rattle.dia_mask.specs.Words.{AreAllNumbers};
ghost use Rattle.dia_mask_text.specs.Names.{lists};
ghost use Rattle.dia_mask_text.specs.Outcome.{IsRefusedName, RefusesDictionary, name_line};
ghost use Rattle.dia_mask_text.specs.Runs.{AllMasked, AreAllMasked, FrontMasked, HasRead, IsMaskBegun, IsMaskOfAll, IsMaskPut};
ghost use Rattle.dia_mask_text.specs.Runs.{IsRefusalBegun, IsRefusalPut};

use crate::answering::{Answered, Manner, State};
use crate::choosing::{BadName, Why, choice_of};
use crate::options::Options;
use crate::summary::push_summary;
use dia_dict::Book;
use dia_explain_places::unknown_avp;
use dia_io::{Exit, Failed, Feed, Input, Sink, put_all};
use dia_report::{Refused, Report, Reported};
use dia_run::{answer_of, read_dictionary};
use dia_streams::LinesFault;
use std::alloc::{AllocError, Global};

/// How many bytes are asked for at a time.
const PIECE: usize = 4096;

/// Puts for each line of a feed the message that it spells, in lower-case hexadecimal digits, with the data replaced that may say who
/// or where; or `message: not hexadecimal` or `message: too long`. It is yes where each line spells bytes, else no, and bad where the
/// dictionary or a name of the options is refused, of which one line is put.
///
/// The answers are put after each piece that was read. It takes the memory of one line, of the answers of one piece, and of each
/// different word.
///
/// A summary is added to `notes`, or a hint about a name that is refused. Where memory is refused to it, they are empty.
pub fn mask<F: Feed, S: Sink>(
    alloc: Global,
    options: &Options<'_>,
    dictionary: &Input,
    notes: &mut String,
    feed: &mut F,
    sink: &mut S,
) -> Result<Reported, LinesFault>
    requires sound_feed { ¬ IsTrue (F.has_failed feed.old) }
    requires sound_sink { ¬ IsTrue (S.has_failed sink.old) }
    ensures exact { IfOk result (λ reported. IsMaskPut (lists options.now) dictionary.now (F.remaining feed.old)
        (F.remaining feed.new) (S.written sink.old) (S.written sink.new) reported.exit) }
    ensures pieces { IfOk result (λ reported. IsMaskOfAll (lists options.now) dictionary.now (F.remaining feed.old)
        (S.written sink.old) (S.written sink.new) reported.exit) }
    ensures all { IfOk result (λ reported. reported.exit ≢ Exit.Bad → IsAtEnd (F.remaining feed.new)) }
    ensures front { IsErr result → IsMaskBegun (lists options.now) dictionary.now (F.remaining feed.old)
        (F.remaining feed.new) (S.written sink.old) (S.written sink.new) }
    ensures device { (result ≡ Err Device)
        ↔ (IsTrue (F.has_failed feed.new) ⊎ IsTrue (S.has_failed sink.new)) }
{
    let first = match read_dictionary(alloc, 1, dictionary) {
        Ok(read) => read,
        Err(refused) => return refuse(alloc, options, dictionary, refused, sink),
    };
    match choice_of(alloc, &first.book, options)? {
        Ok(choice) => {
            let manner = Manner {
                book: &first.book,
                choice,
            };
            let mut state = State::new(alloc, manner.book, options.json)?;
            mask_all(alloc, &manner, &mut state, options.json, notes, feed, sink)
        }
        Err(bad) => {
            note_refused(alloc, &first.book, bad, notes);
            refuse_name(alloc, options, dictionary, bad, sink)
        }
    }
}

/// Adds a hint about a name that is refused, if there is memory for it.
fn note_refused<B: Book>(alloc: Global, book: &B, bad: BadName<'_>, notes: &mut String) {
    if let Ok(hint) = hint_of(alloc, book, bad) {
        *notes = hint;
    }
}

fn hint_of<B: Book>(alloc: Global, book: &B, bad: BadName<'_>) -> Result<String, AllocError> {
    match bad.why {
        Why::Missing => unknown_avp(alloc, book, bad.name),
        Why::Fixed => String::from_str(
            alloc,
            "hint: name the members of a group; of an Enumerated with a list no other value is valid\n",
        ),
        Why::Twice => String::from_str(alloc, "hint: leave it in one of the lists\n"),
    }
}

/// Masks the lines of a feed, and adds the summary.
fn mask_all<B: Book, F: Feed, S: Sink>(
    alloc: Global,
    manner: &Manner<'_, B>,
    state: &mut State,
    json: bool,
    notes: &mut String,
    feed: &mut F,
    sink: &mut S,
) -> Result<Reported, LinesFault>
    requires sound_feed { ¬ IsTrue (F.has_failed feed.old) }
    requires sound_sink { ¬ IsTrue (S.has_failed sink.old) }
    requires numbers { AreAllNumbers (words_of state.old.run) }
    requires none_yet { state.old.unread ≡ 0 }
    ensures exact { IfOk result (λ reported. AreAllMasked manner.now.choice (B.meaning manner.now.book.now)
        (F.remaining feed.old) (F.remaining feed.new) (S.written sink.old) (S.written sink.new) reported.exit) }
    ensures all { IfOk result (λ reported. IsAtEnd (F.remaining feed.new)) }
    ensures front { IsErr result → FrontMasked manner.now.choice (B.meaning manner.now.book.now)
        (F.remaining feed.old) (F.remaining feed.new) (S.written sink.old) (S.written sink.new) }
    ensures device { (result ≡ Err Device)
        ↔ (IsTrue (F.has_failed feed.new) ⊎ IsTrue (S.has_failed sink.new)) }
{
    let count = mask_lines(alloc, manner, state, feed, sink)?;
    if push_summary(alloc, notes, manner, state, count, json).is_err() {
        notes.clear();
    }
    let exit = exit_by(state.unread);
    let report = Report::Done;
    Ok(Reported { exit, report })
}

/// Yes where each line spells bytes.
fn exit_by(unread: u64) -> Exit
    ensures { result ≡ (if unread == 0 then Exit.Yes else Exit.No) }
{
    if unread == 0 { Exit::Yes } else { Exit::No }
}

/// Puts the answer for each line of a feed, and answers how many there were.
fn mask_lines<B: Book, F: Feed, S: Sink>(
    alloc: Global,
    manner: &Manner<'_, B>,
    state: &mut State,
    feed: &mut F,
    sink: &mut S,
) -> Result<u64, LinesFault>
    requires sound_feed { ¬ IsTrue (F.has_failed feed.old) }
    requires sound_sink { ¬ IsTrue (S.has_failed sink.old) }
    requires numbers { AreAllNumbers (words_of state.old.run) }
    requires none_yet { state.old.unread ≡ 0 }
    ensures masked { IfOk result (λ _. AllMasked manner.now.choice (B.meaning manner.now.book.now)
        (F.remaining feed.old) (F.remaining feed.new) (S.written sink.old) (S.written sink.new) state.new.unread) }
    ensures all { IfOk result (λ _. IsAtEnd (F.remaining feed.new)) }
    ensures front { IsErr result → FrontMasked manner.now.choice (B.meaning manner.now.book.now)
        (F.remaining feed.old) (F.remaining feed.new) (S.written sink.old) (S.written sink.new) }
    ensures device { (result ≡ Err Device)
        ↔ (IsTrue (F.has_failed feed.new) ⊎ IsTrue (S.has_failed sink.new)) }
{
    let mut answered = Answered::new(alloc);
    let mut piece = [0u8; PIECE];
    let mut pieces_left = u64::MAX;
    while pieces_left > 0 {
        if !mask_piece(alloc, manner, state, &mut answered, feed, sink, &mut piece)? {
            return Ok(answered.count);
        }
        pieces_left -= 1;
    }
    Err(LinesFault::Endless)
}

/// Reads the next piece of a feed, and puts the answers of the lines that end in it. `false` after the last one.
fn mask_piece<B: Book, F: Feed, S: Sink>(
    alloc: Global,
    manner: &Manner<'_, B>,
    state: &mut State,
    answered: &mut Answered,
    feed: &mut F,
    sink: &mut S,
    piece: &mut [u8; PIECE],
) -> Result<bool, LinesFault>
    requires sound_feed { ¬ IsTrue (F.has_failed feed.old) }
    requires sound_sink { ¬ IsTrue (S.has_failed sink.old) }
    ensures more { (fed put : Option (List ℕ)) (n : ℕ) → result ≡ Ok true
        → HasRead manner.now.choice (B.meaning manner.now.book.now) fed (F.remaining feed.old)
        put (S.written sink.old) state.old answered.old n
        → HasRead manner.now.choice (B.meaning manner.now.book.now) fed (F.remaining feed.new)
        put (S.written sink.new) state.new answered.new (n + 1) }
    ensures end { (fed put : Option (List ℕ)) (n : ℕ) → result ≡ Ok false
        → HasRead manner.now.choice (B.meaning manner.now.book.now) fed (F.remaining feed.old)
        put (S.written sink.old) state.old answered.old n
        → AllMasked manner.now.choice (B.meaning manner.now.book.now) fed (F.remaining feed.new)
        put (S.written sink.new) state.new.unread }
    ensures all { result ≡ Ok false → IsAtEnd (F.remaining feed.new) }
    ensures front { (fed put : Option (List ℕ)) (n : ℕ) → IsErr result
        → HasRead manner.now.choice (B.meaning manner.now.book.now) fed (F.remaining feed.old)
        put (S.written sink.old) state.old answered.old n
        → FrontMasked manner.now.choice (B.meaning manner.now.book.now) fed (F.remaining feed.new)
        put (S.written sink.new) }
    ensures device { (result ≡ Err Device)
        ↔ (IsTrue (F.has_failed feed.new) ⊎ IsTrue (S.has_failed sink.new)) }
{
    let count = feed.get(piece)?;
    if count == 0 {
        answered.end(alloc, manner, state)?;
        put_answers(answered, sink)?;
        Ok(false)
    } else {
        answered.read(alloc, manner, state, &piece[..count])?;
        put_answers(answered, sink)?;
        Ok(true)
    }
}

/// Flushes pending answers.
fn put_answers<S: Sink>(answered: &mut Answered, sink: &mut S) -> Result<(), Failed>
    requires { ¬ IsTrue (S.has_failed sink.old) }
    ensures put { OnOk result
        (Appends (S.written sink.old) (S.written sink.new) (string_bytes answered.old.text)) }
    ensures front { AppendsFront (S.written sink.old) (S.written sink.new) (string_bytes answered.old.text) }
    ensures failed { IsErr result ↔ IsTrue (S.has_failed sink.new) }
    ensures nothing { OnOk result (string_bytes answered.new.text ≡ []) }
    ensures line { answered.new.line ≡ answered.old.line }
    ensures count { answered.new.count ≡ answered.old.count }
{
    put_all(sink, answered.text.as_bytes())?;
    answered.text.clear();
    Ok(())
}

/// Puts the line of a name that is refused.
fn refuse_name<S: Sink>(
    alloc: Global,
    options: &Options<'_>,
    dictionary: &Input,
    bad: BadName<'_>,
    sink: &mut S,
) -> Result<Reported, LinesFault>
    requires sound { ¬ IsTrue (S.has_failed sink.old) }
    requires named { IsRefusedName (lists options.now) dictionary.now bad.name.now bad.why }
    ensures put { IfOk result (λ reported. IsRefusalPut (lists options.now) dictionary.now
        (S.written sink.old) (S.written sink.new) reported.exit) }
    ensures exit { IfOk result (λ reported. reported.exit ≡ Exit.Bad) }
    ensures front { IsErr result → IsRefusalBegun (lists options.now) dictionary.now
        (S.written sink.old) (S.written sink.new) }
    ensures device { (result ≡ Err Device) ↔ IsTrue (S.has_failed sink.new) }
{
    let text = line_of(alloc, bad)?;
    put_all(sink, text.as_bytes())?;
    let exit = Exit::Bad;
    let report = Report::Done;
    Ok(Reported { exit, report })
}

fn line_of(alloc: Global, bad: BadName<'_>) -> Result<String, AllocError>
    ensures { IfOk result (λ text. string_bytes text ≡ name_line bad.entry.name.now bad.entry.why) }
{
    let name = bad.name;
    match bad.why {
        Why::Missing => format!(in alloc; "mask: no AVP {name}\n"),
        Why::Fixed => format!(in alloc; "mask: {name} can't be masked\n"),
        Why::Twice => format!(in alloc; "mask: {name} in two lists\n"),
    }
}

/// Puts the line of a dictionary that is refused.
fn refuse<S: Sink>(
    alloc: Global,
    options: &Options<'_>,
    dictionary: &Input,
    refused: Refused,
    sink: &mut S,
) -> Result<Reported, LinesFault>
    requires sound { ¬ IsTrue (S.has_failed sink.old) }
    requires records { RecordsOf (RefusesDictionary dictionary.now) refused }
    ensures put { IfOk result (λ reported. IsRefusalPut (lists options.now) dictionary.now
        (S.written sink.old) (S.written sink.new) reported.exit) }
    ensures exit { IfOk result (λ reported. reported.exit ≡ Exit.Bad) }
    ensures front { IsErr result → IsRefusalBegun (lists options.now) dictionary.now
        (S.written sink.old) (S.written sink.new) }
    ensures device { (result ≡ Err Device) ↔ IsTrue (S.has_failed sink.new) }
{
    let answered = answer_of(alloc, Err(refused))?;
    put_all(sink, answered.text.as_bytes())?;
    Ok(Reported {
        exit: answered.exit,
        report: answered.report,
    })
}
