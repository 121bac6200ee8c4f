//! `show --as-text`, from its inputs to what is written.

ghost use Rattle.std.specs.Prelude.{◌≡◌, ◌≢◌, ◌↔◌, ℕ, List, IfOk, OnOk, Err, IsTrue, string_bytes};
ghost use Rattle.std.specs.Io.KnownBytes.{Appends};
ghost use Rattle.dia_terms.specs.Limits.{max_message_text};
ghost use Rattle.dia_io.specs.declared.Exit.{Exit as AnyExit};
ghost use Rattle.dia_io.specs.declared.Exit.TheVariants.{Yes};
ghost use Rattle.dia_io.specs.declared.Inputs.{Inputs as AnyInputs};
ghost use Rattle.dia_io.specs.Inputs.{Holds};
ghost use Rattle.dia_io.specs.Writing.{AppendsFront};
ghost use Rattle.dia_text.specs.Made.{digits_line};
ghost use Rattle.dia_text.specs.TextOf.{HasNoText};
ghost use Rattle.dia_text.specs.declared.writing.NotWritten.TheVariants.{Avps};
ghost use Rattle.dia_run.specs.Texts.{IsMessageText};
ghost use Rattle.dia_run.specs.Listing.{bad_length_line};
ghost use Rattle.dia_make.specs.Outcome.{IsMakeOutcome};
ghost use Rattle.dia_make.specs.Shown.{IsShowTextOutcome, IsTextShown, IsCutAt, Gives};
ghost use Rattle.dia_make.specs.Reports.{IsRecorded, HasReport};

use crate::cutting::cut_place;
use crate::refusing::refuse;
use crate::reporting::{Answered, Report, Reported};
use dia_dict::Book;
use dia_io::{Exit, Inputs, RunFault, Sink, put_all};
use dia_report::Refused;
use dia_run::{read_dictionary, read_message};
use dia_text::{NotWritten, as_text};
use std::alloc::{AllocError, Global};

/// Writes the text of a message with the first dictionary, which `make` reads as the same bytes; or why it has none.
///
/// The message's input is hexadecimal text, as `show` reads it. What is written is made first, and then written in whatever
/// pieces the sink takes. `shown` becomes the bytes of the message, unless an input is refused.
pub fn show_text<S: Sink>(
    alloc: Global,
    inputs: &Inputs,
    shown: &mut Vec<u8>,
    sink: &mut S,
) -> Result<Reported, RunFault>
    requires { ¬ IsTrue (S.has_failed sink.old) }
    ensures text { IfOk result (λ reported. (text : List ℕ) × IsShowTextOutcome inputs.now text reported.exit
        × IsRecorded reported.report text reported.exit
        × Appends (S.written sink.old) (S.written sink.new) text) }
    ensures shown { IfOk result (λ reported. reported.exit ≢ Exit.Bad
        → IsMessageText inputs.now.message shown.new.items) }
    ensures device { (result ≡ Err RunFault.Device) ↔ IsTrue (S.has_failed sink.new) }
    ensures front { result ≡ Err RunFault.Device
        → (text : List ℕ) × (exit : AnyExit) × IsShowTextOutcome inputs.now text exit
        × AppendsFront (S.written sink.old) (S.written sink.new) text }
    ensures no_memory { result ≡ Err RunFault.NoMemory → S.written sink.new ≡ S.written sink.old }
{
    let Answered { text, exit, report } = answer(alloc, inputs, shown)?;
    put_all(sink, text.as_bytes())?;
    Ok(Reported { exit, report })
}

/// The law of the way back: of a text that `show_text` writes with the exit Yes, `make` writes the message that it was
/// written of, by the same dictionary.
pub fn shown_is_made()
    ensures { (shown given : AnyInputs) (text : List ℕ) → IsShowTextOutcome shown text Yes
        → given.first ≡ shown.first → Holds given.message max_message_text text
        → (bytes : List ℕ) × IsMessageText shown.message bytes
        × IsMakeOutcome given (digits_line bytes) Yes }
{}

/// The text for the inputs, how it ends, and what was found.
fn answer(alloc: Global, inputs: &Inputs, shown: &mut Vec<u8>) -> Result<Answered, AllocError>
    ensures outcome { IfOk result
        (λ answered. IsShowTextOutcome inputs.now (string_bytes answered.text) answered.exit) }
    ensures report { IfOk result HasReport }
    ensures shown { IfOk result (λ answered. answered.exit ≢ Exit.Bad
        → IsMessageText inputs.now.message shown.new.items) }
{
    match attempt(alloc, inputs, shown) {
        Ok(answered) => Ok(answered),
        Err(Refused::Bad(bad)) => refuse(alloc, bad),
        Err(Refused::NoMemory) => Err(AllocError),
    }
}

/// The answer, or why an input is refused.
fn attempt(alloc: Global, inputs: &Inputs, shown: &mut Vec<u8>) -> Result<Answered, Refused>
    ensures outcome { Gives (IsShowTextOutcome inputs.now) result }
    ensures report { IfOk result HasReport }
    ensures shown { OnOk result (IsMessageText inputs.now.message shown.new.items) }
{
    let first = read_dictionary(alloc, 1, &inputs.first)?;
    let message = read_message(alloc, &inputs.message)?;
    let answered = text_of(alloc, &first.book, message.as_slice());
    *shown = message;
    answered
}

/// The text of a message, or the place at which it ends too early.
fn text_of<B: Book>(alloc: Global, book: &B, message: &[u8]) -> Result<Answered, Refused>
    ensures outcome { Gives (IsTextShown (B.meaning book.now) message.now) result }
    ensures report { IfOk result HasReport }
{
    match as_text(alloc, book, message) {
        Ok(text) => Ok(Answered {
            text,
            exit: Exit::Yes,
            report: Report::Done,
        }),
        Err(NotWritten::Message(fault)) => Err(Refused::from(fault)),
        Err(NotWritten::Avps) => Ok(cut(alloc, message)?),
        Err(NotWritten::NoMemory) => Err(Refused::NoMemory),
    }
}

/// The answer of a message that ends where no AVP begins.
fn cut(alloc: Global, message: &[u8]) -> Result<Answered, AllocError>
    requires { HasNoText Avps message.now }
    ensures cut { IfOk result (λ answered. (place : ℕ) × IsCutAt message.now place
        × (string_bytes answered.text ≡ bad_length_line place)
        × (answered.report ≡ Report.Cut place)) }
    ensures exit { IfOk result (λ answered. answered.exit ≡ Exit.No) }
{
    let place = cut_place(message);
    let text = format!(in alloc; "fault 5014 at {place} avp-length -\n")?;
    let exit = Exit::No;
    let report = Report::Cut { place };
    Ok(Answered { text, exit, report })
}
