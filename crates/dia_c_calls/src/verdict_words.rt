//! The line of a verdict.

ghost use Rattle.std.specs.Prelude.{◌≡◌, ℕ, List, None, Ok, IfOk, IfSome, string_bytes};
ghost use Rattle.dia_check.specs.declared.fault.Fault.{Fault as AnyFault};
ghost use Rattle.dia_run.specs.Texts.{line};
ghost use Rattle.dia_run.specs.Verdict.{fault_line};
ghost use Rattle.dia_c_calls.specs.Verdicts.{fault_verdict, said};
ghost use Rattle.dia_c_calls.specs.Words.{IsVerdictText};

use crate::names::command_name;
use crate::numbers::reason_of;
use crate::verdict::{TRAILING, TRUNCATED, Verdict, faulty, valid};
use dia_book::{Book, Key};
use dia_check::{Fault, Subject};
use dia_run::push_subject;
use std::alloc::{AllocError, Global};

/// The line of `check` for a verdict, without its line feed; none where no check has this verdict.
pub fn text_of<B: Book>(
    alloc: Global,
    book: &B,
    verdict: &Verdict,
) -> Result<Option<String>, AllocError>
    ensures some { IfOk result (λ found. IfSome found
        (λ text. IsVerdictText (B.meaning book.now) verdict.now (string_bytes text))) }
    ensures none { result ≡ Ok None → (text : List ℕ) → ¬ IsVerdictText (B.meaning book.now) verdict.now text }
{
    if let Some(fault) = fault_of(verdict) {
        return Ok(Some(fault_text(alloc, book, &fault)?));
    }
    if *verdict == TRUNCATED {
        return Ok(Some(String::from_str(alloc, "truncated")?));
    }
    if *verdict == TRAILING {
        return Ok(Some(String::from_str(alloc, "trailing")?));
    }
    if *verdict != valid(verdict.command) {
        return Ok(None);
    }
    match command_name(book, verdict.command) {
        Some(name) => Ok(Some(format!(in alloc; "valid {name}")?)),
        None => Ok(None),
    }
}

/// The line of a fault, without its line feed.
fn fault_text<B: Book>(alloc: Global, book: &B, fault: &Fault) -> Result<String, AllocError>
    ensures { IfOk result (λ text. line (string_bytes text) ≡ fault_line (B.meaning book.now) fault.now) }
{
    let code = fault.code;
    let place = fault.place;
    let reason = fault.reason.word();
    let mut text = format!(in alloc; "fault {code} at {place} {reason} ")?;
    push_subject(&mut text, book, fault.subject)?;
    Ok(text)
}

/// The fault whose verdict this is.
fn fault_of(verdict: &Verdict) -> Option<Fault>
    ensures some { IfSome result (λ fault. verdict.now ≡ fault_verdict fault) }
    ensures none { result ≡ None → (fault : AnyFault) → ¬ (verdict.now ≡ fault_verdict fault) }
{
    let fault = Fault {
        place: verdict.place,
        code: verdict.code,
        reason: reason_of(verdict.reason)?,
        subject: subject_of(verdict),
    };
    if faulty(fault) == *verdict {
        Some(fault)
    } else {
        None
    }
}

/// What a verdict's fault is about.
fn subject_of(verdict: &Verdict) -> Subject
    ensures { (fault : AnyFault) → verdict.now ≡ fault_verdict fault → result ≡ fault.subject }
{
    match verdict.subject {
        1 => Subject::Avp(Key {
            code: verdict.avp_code,
            vendor: verdict.avp_vendor,
        }),
        2 => Subject::Wildcard,
        _ => Subject::Nothing,
    }
}
