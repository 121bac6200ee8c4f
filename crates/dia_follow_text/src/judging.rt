//! What `check` says of a message.

ghost use Rattle.std.specs.Prelude.{◌≡◌, ◌++◌, ◌∷◌, [], List, ℕ, IfOk, Some, string_bytes, take};
ghost use Rattle.std.specs.Option.{option_copied};
ghost use Rattle.dia_follow_text.specs.Judging.{IsChecked, IsJudgedAs, counted, counted_of, counted_unread, judged_of};

use crate::answering::Manner;
use crate::options::Check;
use dia_check::check;
use dia_dict::Book;
use dia_follow::{Body, Judged, Seen};
use dia_io::Exit;
use dia_run::verdict;
use dia_wire::HeadFault;
use std::alloc::{AllocError, Global};

/// What `check` says of a message, and its line.
#[derive(Drop)]
pub(crate) struct Verdict {
    pub(crate) judged: Judged,
    pub(crate) text: String,
}

/// What `check` says of a message. One that bytes are missing of isn't checked.
pub(crate) fn judge<B: Book>(
    alloc: Global,
    manner: &Manner<'_, B>,
    bytes: &[u8],
    seen: &Seen<'_>,
) -> Result<Verdict, AllocError>
    ensures { IfOk result (λ verdict. IsJudgedAs (B.meaning manner.now.book.now)
        manner.now.options.check bytes.now seen.now verdict.judged (string_bytes verdict.text)) }
{
    match manner.options.check {
        Some(asked) => check_counted(alloc, manner.book, asked, counted(bytes, seen)),
        None => Ok(without_text(alloc, Judged::Unasked)),
    }
}

fn without_text(alloc: Global, judged: Judged) -> Verdict
    ensures judged { result.judged ≡ judged }
    ensures text { string_bytes result.text ≡ [] }
{
    let text = String::new(alloc);
    Verdict { judged, text }
}

/// The bytes of a message that count. `None` where some are missing.
fn counted<'a>(bytes: &'a [u8], seen: &Seen<'_>) -> Option<&'a [u8]>
    ensures { option_copied result ≡ counted bytes.entry.now seen.now }
{
    match seen {
        Seen::Unread(fault) => counted_unread(bytes, *fault),
        Seen::Message(message) => counted_of(bytes, message.length, &message.body),
    }
}

fn counted_unread(bytes: &[u8], fault: HeadFault) -> Option<&[u8]>
    ensures { option_copied result ≡ counted_unread bytes.entry.now fault }
{
    match fault {
        HeadFault::Short => None,
        HeadFault::Version => Some(bytes),
        HeadFault::Length => Some(bytes),
    }
}

fn counted_of<'a>(bytes: &'a [u8], length: u32, body: &Body<'_>) -> Option<&'a [u8]>
    ensures { option_copied result ≡ counted_of bytes.entry.now length body.now }
{
    match body {
        Body::Cut => None,
        Body::Gap(_) => Some(front(bytes, length)),
        Body::Known(_) => Some(front(bytes, length)),
    }
}

fn front(bytes: &[u8], length: u32) -> &[u8]
    ensures { result.now ≡ take length bytes.entry.now }
{
    let length = length as usize;
    if length < bytes.len() {
        &bytes[..length]
    } else {
        bytes
    }
}

fn check_counted<B: Book>(
    alloc: Global,
    book: &B,
    asked: Check,
    bytes: Option<&[u8]>,
) -> Result<Verdict, AllocError>
    ensures { IfOk result (λ verdict. IsChecked (B.meaning book.now) asked
        (option_copied bytes.entry) verdict.judged (string_bytes verdict.text)) }
{
    match bytes {
        Some(bytes) => check_bytes(alloc, book, asked, bytes),
        None => Ok(without_text(alloc, Judged::Passed)),
    }
}

fn check_bytes<B: Book>(
    alloc: Global,
    book: &B,
    asked: Check,
    bytes: &[u8],
) -> Result<Verdict, AllocError>
    ensures { IfOk result (λ verdict. IsChecked (B.meaning book.now) asked
        (Some bytes.now) verdict.judged (string_bytes verdict.text)) }
{
    let answer = check(alloc, book, asked.unknown, asked.levels, bytes);
    let outcome = verdict(alloc, book, &answer)?;
    let judged = judged_of(outcome.exit);
    let text = String::from_str(alloc, without_end(outcome.text.as_str()))?;
    Ok(Verdict { judged, text })
}

fn judged_of(exit: Exit) -> Judged
    ensures { result ≡ judged_of exit }
{
    match exit {
        Exit::Yes => Judged::Passed,
        Exit::No | Exit::Bad => Judged::Invalid,
    }
}

/// A line without its line feed.
fn without_end(line: &str) -> &str
    ensures { (text : List ℕ) → line.entry.now ≡ text ++ 10 ∷ [] → result.now ≡ text }
{
    match line.strip_suffix('\n') {
        Some(front) => front,
        None => line,
    }
}
