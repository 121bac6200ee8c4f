//! `check`: whether a message is valid, or its first fault.

ghost use Rattle.std.specs.Prelude.{◌≡◌, ◌≢◌, ◌<◌, ◌++◌, length, codes, Err, IfOk};
ghost use Rattle.std.specs.Prelude.{OnOk, string_bytes, slice_get, Some};
ghost use Rattle.dia_dict.specs.Dictionary.{PlainDefinition, definitions};
ghost use Rattle.dia_check.specs.Faults.{IsAnswer};
ghost use Rattle.dia_run.specs.Kinds.{IsOfCheck, Reports};
ghost use Rattle.dia_run.specs.Outcome.{IsCheckOutcome};
ghost use Rattle.dia_run.specs.Report.{Answers, HasReport, IsReport};
ghost use Rattle.dia_run.specs.Texts.{line};
ghost use Rattle.dia_run.specs.Verdict.{IsVerdict, fault_line, subject_text};

mod feeding;

use crate::commands::check::feeding::{CheckedMessage, check_message};
use crate::commands::{Outcome, recorded};
use crate::inputs::dictionary::read_dictionary;
use dia_check::{Fault, Levels, Refusal, Selected, Subject, Unknown};
use dia_dict::{Book, DefId, IndexedBook};
use dia_io::{Exit, Inputs};
use dia_report::{Answered, Invalid, Refused, Report};
use std::alloc::{AllocError, Global};

/// The verdict on the message, under the first dictionary.
pub fn check(
    alloc: Global,
    unknown: Unknown,
    levels: Levels,
    inputs: &Inputs,
) -> Result<Answered, Refused>
    ensures outcome { Answers (IsCheckOutcome unknown levels inputs.now) result }
    ensures report { IfOk result (HasReport ⟦<IndexedBook as Book>⟧.meaning inputs.now) }
    ensures kind { IfOk result (Reports (IsOfCheck unknown levels)) }
{
    let first = read_dictionary(alloc, 1, &inputs.first)?;
    let CheckedMessage {
        bytes: message,
        answer,
    } = check_message(alloc, &first.book, unknown, levels, &inputs.message)?;
    let Outcome { text, exit } = verdict(alloc, &first.book, &answer)?;
    let Err(refusal) = answer else {
        let report = Report::Done;
        return Ok(Answered { text, exit, report });
    };
    let report = Report::Invalid(Invalid {
        first,
        message,
        unknown,
        levels,
        refusal,
    });
    Ok(Answered { text, exit, report })
}

/// The line of an answer.
pub fn verdict<B: Book>(
    alloc: Global,
    book: &B,
    answer: &Result<Selected, Refusal>,
) -> Result<Outcome, AllocError>
    requires def { IfOk answer.now
        (λ found. found.def < length (definitions (B.meaning book.now))) }
    requires live { answer.now ≢ Err Refusal.Spent }
    ensures { IfOk result (λ outcome. IsVerdict
        (B.meaning book.now) answer.now (string_bytes outcome.text) outcome.exit) }
{
    match answer {
        Ok(found) => valid(alloc, book, found.def),
        Err(Refusal::Fault(fault)) => faulty(alloc, book, fault),
        Err(Refusal::Truncated) => recorded(alloc, "truncated\n", Exit::No),
        Err(Refusal::Trailing) => recorded(alloc, "trailing\n", Exit::No),
        Err(Refusal::NoMemory) => Err(AllocError),
        Err(Refusal::Spent) => unreachable!(),
    }
}

/// The outcome of a valid message of this command.
fn valid<B: Book>(alloc: Global, book: &B, def: DefId) -> Result<Outcome, AllocError>
    requires { def < length (definitions (B.meaning book.now)) }
    ensures text { IfOk result (λ outcome. (c : PlainDefinition)
        × (slice_get (definitions (B.meaning book.now)) def ≡ Some c)
        × (string_bytes outcome.text ≡ line (codes "valid " ++ c.name))) }
    ensures exit { IfOk result (λ outcome. outcome.exit ≡ Exit.Yes) }
{
    let name = book.def(def).name.as_str();
    let text = format!(in alloc; "valid {name}\n")?;
    let exit = Exit::Yes;
    Ok(Outcome { text, exit })
}

/// The outcome of a message with this first fault.
pub(super) fn faulty<B: Book>(alloc: Global, book: &B, fault: &Fault) -> Result<Outcome, AllocError>
    ensures text { IfOk result
        (λ outcome. string_bytes outcome.text ≡ fault_line (B.meaning book.now) fault.now) }
    ensures exit { IfOk result (λ outcome. outcome.exit ≡ Exit.No) }
{
    let code = fault.code;
    let place = fault.place;
    let reason = fault.reason.word();
    let mut text = format!(in alloc; "fault {code} at {place} {reason} ")?;
    push_subject(&mut text, book, fault.subject)?;
    text.push('\n')?;
    let exit = Exit::No;
    Ok(Outcome { text, exit })
}

/// Adds what a fault is about: an AVP by its name, or by code and vendor where the dictionary doesn't know it.
pub fn push_subject<B: Book>(
    text: &mut String,
    book: &B,
    subject: Subject,
) -> Result<(), AllocError>
    ensures { OnOk result (string_bytes text.new
        ≡ string_bytes text.old ++ subject_text (B.meaning book.now) subject) }
{
    match subject {
        Subject::Nothing => text.push('-'),
        Subject::Wildcard => text.push_str("AVP"),
        Subject::Avp(key) => match book.avp(key) {
            Some(entry) => text.push_str(book.entry_name(entry)),
            None => {
                let code = key.code;
                let vendor = key.vendor;
                write!(text, "{code}:{vendor}")
            }
        },
    }
}
