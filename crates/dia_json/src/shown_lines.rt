//! `show` as JSON of a text that has a message a line.

ghost use Rattle.std.specs.Prelude.{◌≡◌, ◌≢◌, ◌↔◌, ◌≤◌, ◌⊎◌, ◌++◌, ◌==◌, length};
ghost use Rattle.std.specs.Prelude.{Err, IfOk, IfSome, IsErr, IsTrue, OnOk, string_bytes};
ghost use Rattle.std.specs.Io.KnownBytes.{IsAtEnd};
ghost use Rattle.dia_streams.specs.declared.fault.LinesFault.TheVariants.{NoMemory, Device, Endless};
ghost use Rattle.dia_io.specs.declared.Input.TheVariants.{TooLong};
ghost use Rattle.dia_streams.specs.FeedToSink.{most_pieces};
ghost use Rattle.dia_refused_json.specs.Recording.{RecordsBad};
ghost use Rattle.std.specs.List.{after_first};
ghost use Rattle.dia_run.specs.Report.{IsReadFrom};
ghost use Rattle.dia_show.specs.Manners.{plain_manner_of};
ghost use Rattle.dia_json.specs.ShownLines.{HasLinesReport, IsOpening, OfLine, ShowsFront, ShowsLines, ShowsWhole};
ghost use Rattle.dia_json.specs.ShownLines.{numbered_row, numbered_rows};

use crate::listing::JsonRows;
use crate::showing::{no_values, of_show};
use dia_dict::{Book, IndexedBook};
use dia_io::{Exit, Feed, Input, Inputs, Sink};
use dia_refused_json::refuse;
use dia_report::{Answered, ReadBook, Refused};
use dia_run::{Outcome, read_dictionary, read_message, write_message};
use dia_show::{Manner, Opening, Reported, list_lines, put_refusal, read_manner};
use dia_streams::{Judge, LinesFault};
use std::alloc::{AllocError, Global};

/// `show` of each line of a feed, as JSON: what `show` writes for it alone, with the line's number as the first member of each
/// object, `line`. A message that is refused has one object with its kind, and without a place in the line. Yes where each line
/// is shown to its end, else no.
///
/// Where the dictionary or the words of values are refused, nothing is read, and the answer is bad.
pub fn show_lines<F: Feed, S: Sink>(
    alloc: Global,
    names: bool,
    inputs: &Inputs,
    feed: &mut F,
    sink: &mut S,
) -> Result<Reported, LinesFault>
    requires sound_feed { ¬ IsTrue (F.has_failed feed.old) }
    requires sound_sink { ¬ IsTrue (S.has_failed sink.old) }
    ensures shown { IfOk result (λ reported. ShowsLines names inputs.now (F.remaining feed.old)
        (F.remaining feed.new) (S.written sink.old) (S.written sink.new) reported.exit) }
    ensures report { IfOk result (HasLinesReport inputs.now (S.written sink.old) (S.written sink.new)) }
    ensures all { IfOk result (λ reported. reported.exit ≢ Exit.Bad → IsAtEnd (F.remaining feed.new)) }
    ensures unread { IfOk result (λ reported. reported.exit ≡ Exit.Bad → feed.new ≡ feed.old) }
    ensures device { (result ≡ Err Device)
        ↔ (IsTrue (F.has_failed feed.new) ⊎ IsTrue (S.has_failed sink.new)) }
    ensures front { IsErr result → ShowsFront names inputs.now
        (F.remaining feed.old) (F.remaining feed.new) (S.written sink.old) (S.written sink.new) }
    ensures no_memory { result ≡ Err NoMemory → ShowsWhole names inputs.now
        (F.remaining feed.old) (F.remaining feed.new) (S.written sink.old) (S.written sink.new) }
    ensures endless { result ≡ Err Endless → ShowsWhole names inputs.now
        (F.remaining feed.old) (F.remaining feed.new) (S.written sink.old) (S.written sink.new) }
    ensures pieces { result ≡ Err Endless
        → IfSome (F.remaining feed.old) (λ bytes. most_pieces ≤ length bytes) }
{
    let opening = open(alloc, names, inputs)?;
    match opening {
        Opening::Ready { manner, first } => {
            let judge = JsonShow {
                manner: &manner,
                book: &first.book,
            };
            list_lines(alloc, &judge, feed, sink)
        }
        Opening::Refused(answered) => put_refusal(answered, sink),
    }
}

/// Reads the dictionary and the words.
fn open<'t>(alloc: Global, names: bool, inputs: &'t Inputs) -> Result<Opening<'t>, AllocError>
    ensures { IfOk result (IsOpening ⟦<IndexedBook as Book>⟧.meaning names inputs.now) }
{
    match read_dictionary(alloc, 1, &inputs.first) {
        Ok(first) => with_words(alloc, names, first, inputs),
        Err(refused) => {
            let answered = refuse(alloc, &inputs.first, refused)?;
            Ok(Opening::Refused(of_show(answered)))
        }
    }
}

/// Reads the words.
fn with_words<'t>(
    alloc: Global,
    names: bool,
    first: Box<ReadBook>,
    inputs: &'t Inputs,
) -> Result<Opening<'t>, AllocError>
    requires { IsReadFrom ⟦<IndexedBook as Book>⟧.meaning inputs.now.first first.value }
    ensures { IfOk result (IsOpening ⟦<IndexedBook as Book>⟧.meaning names inputs.now) }
{
    match read_manner(alloc, names, &inputs.table)? {
        Ok(manner) => Ok(Opening::Ready { manner, first }),
        Err(bad) => Ok(Opening::Refused(no_values(alloc, bad)?)),
    }
}

/// `show` of each line as JSON, in a manner and with the names of a dictionary.
#[derive(Drop)]
struct JsonShow<'a, 't, B: Book> {
    manner: &'a Manner<'t>,
    book: &'a B,
}

impl<'a, 't, B: Book> Judge for JsonShow<'a, 't, B> {
    ghost use Rattle.dia_json.specs.ShownLines.{OfLine, recorded};
    ghost use Rattle.dia_show.specs.Manners.{plain_manner_of};

    type Verdict = Outcome;

    ghost says = { λ judge. OfLine (plain_manner_of judge.manner.now) (B.Book.meaning judge.book.now) };

    ghost recorded = { λ _. recorded };

    fn judge(
        &self,
        alloc: Global,
        number: u64,
        line: &Input,
        _space: &mut Vec<u8>,
        text: &mut String,
    ) -> Result<Outcome, AllocError> {
        let shown = show_line(alloc, self.manner, self.book, line)?;
        push_numbered(text, number, shown.text.as_str())?;
        Ok(shown)
    }
}

/// The objects for the message of a line, and how they end.
fn show_line<B: Book>(
    alloc: Global,
    manner: &Manner<'_>,
    book: &B,
    line: &Input,
) -> Result<Outcome, AllocError>
    ensures { IfOk result (OfLine (plain_manner_of manner.now) (B.meaning book.now) line.now) }
{
    let message = match read_message(alloc, line) {
        Ok(message) => message,
        Err(refused) => return refused_line(alloc, refused),
    };
    match write_message(alloc, &JsonRows { manner }, book, message.as_slice()) {
        Ok(outcome) => Ok(outcome),
        Err(refused) => refused_line(alloc, refused),
    }
}

/// The object for a message that is refused, without a place in its text.
fn refused_line(alloc: Global, refused: Refused) -> Result<Outcome, AllocError>
    ensures { IfOk result (λ outcome. RecordsBad TooLong refused (string_bytes outcome.text) outcome.exit) }
{
    let Answered { text, exit, .. } = refuse(alloc, &Input::TooLong, refused)?;
    Ok(Outcome { text, exit })
}

/// Adds the objects, each with the number of the message's line.
fn push_numbered(text: &mut String, number: u64, objects: &str) -> Result<(), AllocError>
    ensures { OnOk result (string_bytes text.new ≡ string_bytes text.old ++ numbered_rows number objects.now) }
{
    for row in objects.lines() {
        push_row(text, number, row)?;
    }
    Ok(())
}

/// Adds an object with the number of the message's line.
fn push_row(text: &mut String, number: u64, row: &str) -> Result<(), AllocError>
    ensures { OnOk result (string_bytes text.new ≡ string_bytes text.old ++ numbered_row number row.now) }
{
    let members = members_of(row);
    writeln!(text, "{{\"line\":{number},{members}")
}

/// What follows the brace of an object.
fn members_of(row: &str) -> &str
    ensures { result.now ≡ after_first (λ c. c == 123) row.now }
{
    match row.split_once('{') {
        Some((_, members)) => members,
        None => "",
    }
}
