//! The summary of a run, as text.

ghost use Rattle.std.specs.Prelude.{◌≡◌, ◌++◌, OnOk, string_bytes};
ghost use Rattle.std.specs.List.{flat_map};
ghost use Rattle.dia_captures.specs.Summaries.{AreInOrder, first_line, first_text, met_line, others_line};
ghost use Rattle.dia_captures.specs.Summaries.{place_words, reason_text, yes_words};

use crate::reasons::{Met, Seen};
use crate::verdicts::Flaw;
use dia_dict::Book;
use dia_run::push_subject;
use std::alloc::AllocError;

/// Which messages are judged, and how.
#[derive(Clone, Copy, PartialEq, Eq)]
pub enum Lines {
    /// By `check`, one in each line.
    Checked,
    /// By `refute`, one in each line.
    Refuted,
    /// By `check`, back to back.
    Placed,
}

/// Adds how many of how many messages are valid, or refute.
pub fn push_first_line(
    text: &mut String,
    lines: Lines,
    yes: u64,
    all: u64,
) -> Result<(), AllocError>
    ensures { OnOk result (string_bytes text.new ≡ string_bytes text.old ++ first_line lines yes all) }
{
    let what = yes_words(lines);
    write!(text, "{yes} of {all} {what}\n")
}

/// Puts what was met most often first. Of what was met equally often the order stays.
pub fn put_in_order(mets: &mut Vec<Met>) -> Result<(), AllocError>
    ensures { OnOk result (AreInOrder mets.old.items mets.new.items) }
{
    mets.sort_by_key(|met| u64::MAX - met.seen.times)?;
    Ok(())
}

/// Adds a line for each reason.
pub fn push_mets<B: Book>(
    text: &mut String,
    book: &B,
    lines: Lines,
    mets: &[Met],
) -> Result<(), AllocError>
    ensures { OnOk result (string_bytes text.new
        ≡ string_bytes text.old ++ flat_map (met_line (B.meaning book.now) lines) mets.now) }
{
    for met in mets {
        push_met(text, book, lines, met)?;
    }
    Ok(())
}

/// Adds a line for all reasons that have no line of their own, if there are some.
pub fn push_others(text: &mut String, lines: Lines, others: Option<Seen>) -> Result<(), AllocError>
    ensures { OnOk result (string_bytes text.new ≡ string_bytes text.old ++ others_line lines others) }
{
    match others {
        Some(seen) => {
            let times = seen.times;
            write!(text, "{times} x other reasons")?;
            push_first(text, lines, seen.first)
        }
        None => Ok(()),
    }
}

/// Adds the line of a reason.
fn push_met<B: Book>(text: &mut String, book: &B, lines: Lines, met: &Met) -> Result<(), AllocError>
    ensures { OnOk result (string_bytes text.new
        ≡ string_bytes text.old ++ met_line (B.meaning book.now) lines met.now) }
{
    let times = met.seen.times;
    write!(text, "{times} x ")?;
    push_reason(text, book, &met.flaw)?;
    push_first(text, lines, met.seen.first)
}

/// Adds where a reason was met first, and a line feed.
fn push_first(text: &mut String, lines: Lines, first: u64) -> Result<(), AllocError>
    ensures { OnOk result (string_bytes text.new ≡ string_bytes text.old ++ first_text lines first) }
{
    let place = place_words(lines);
    write!(text, ", first {place} {first}\n")
}

/// Adds what a flaw is, without the place of a fault.
fn push_reason<B: Book>(text: &mut String, book: &B, flaw: &Flaw) -> Result<(), AllocError>
    ensures { OnOk result (string_bytes text.new
        ≡ string_bytes text.old ++ reason_text (B.meaning book.now) flaw.now) }
{
    match flaw {
        Flaw::Fault(fault) => {
            let code = fault.code;
            let reason = fault.reason.word();
            write!(text, "fault {code} {reason} ")?;
            push_subject(text, book, fault.subject)
        }
        Flaw::Truncated => flaw.push(text, book),
        Flaw::Trailing => flaw.push(text, book),
        Flaw::TooLong => flaw.push(text, book),
        Flaw::NotHexadecimal => flaw.push(text, book),
    }
}

fn yes_words(lines: Lines) -> &'static str
    ensures { result.now ≡ yes_words lines }
{
    match lines {
        Lines::Checked => "lines valid",
        Lines::Refuted => "lines refute",
        Lines::Placed => "messages valid",
    }
}

fn place_words(lines: Lines) -> &'static str
    ensures { result.now ≡ place_words lines }
{
    match lines {
        Lines::Checked => "in line",
        Lines::Refuted => "in line",
        Lines::Placed => "at byte",
    }
}
