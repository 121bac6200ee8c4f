//! The lines of the answer, as text.

ghost use Rattle.std.specs.Prelude.{◌≡◌, ◌++◌, OnOk, Some, length, option_map, string_bytes};
ghost use Rattle.std.specs.Option.{option_copied};
ghost use Rattle.dia_follow.specs.Messages.{contents_of};
ghost use Rattle.dia_follow_text.specs.Entries.{bad_line_text};
ghost use Rattle.dia_follow_text.specs.Said.{after_text, answer_rest, answered_text, cause_text, code_text, contents_code, error_text};
ghost use Rattle.dia_follow_text.specs.Said.{fields_text, finding_line, front_text, head_text, kind_word, message_line, opening_text};
ghost use Rattle.dia_follow_text.specs.Said.{reason_front, rest_text, section_text, unanswered_line, unread_finding_line, unread_line};

use crate::commons::push_known_common;
use crate::details::push_detail;
use crate::entry::BadLine;
use crate::names::{mark, push_name};
use crate::reasons::{kind, section, word};
use crate::times::{after, push_seconds};
use crate::unread::push_unread_detail;
use dia_dict::Book;
use dia_follow::{End, Head, Moment, Reason, Request};
use std::alloc::{AllocError, Global};

/// Adds the diagnostic for a refused line.
pub(crate) fn push_bad_line(text: &mut String, number: u64, bad: BadLine) -> Result<(), AllocError>
    ensures { OnOk result (string_bytes text.new ≡ string_bytes text.old ++ bad_line_text number bad) }
{
    let word = bad.word();
    writeln!(text, "connection: {word} at line {number}")
}

/// Adds the line of bytes whose header can't be read.
pub(crate) fn push_unread(
    text: &mut String,
    number: u64,
    end: End,
    count: usize,
) -> Result<(), AllocError>
    ensures { OnOk result (string_bytes text.new ≡ string_bytes text.old ++ unread_line number end count) }
{
    let mark = mark(end);
    writeln!(text, "{number} {mark} unread {count} bytes")
}

/// Adds the line of a message.
pub(crate) fn push_message<B: Book>(
    alloc: Global,
    text: &mut String,
    book: &B,
    end: End,
    moment: &Moment<'_>,
) -> Result<(), AllocError>
    ensures { OnOk result (string_bytes text.new
        ≡ string_bytes text.old ++ message_line (B.meaning book.now) end moment.now) }
{
    push_head(
        text,
        book,
        moment.line().number,
        end,
        &moment.message().head,
    )?;
    push_rest(alloc, text, moment)?;
    text.push_str("\n")
}

/// Adds what a request or an answer says beside its header.
fn push_rest(alloc: Global, text: &mut String, moment: &Moment<'_>) -> Result<(), AllocError>
    ensures { OnOk result (string_bytes text.new ≡ string_bytes text.old ++ rest_text moment.now) }
{
    if moment.message().head.request {
        push_cause(text, moment)
    } else {
        push_answer(alloc, text, moment)
    }
}

fn push_answer(alloc: Global, text: &mut String, moment: &Moment<'_>) -> Result<(), AllocError>
    ensures { OnOk result (string_bytes text.new ≡ string_bytes text.old ++ answer_rest moment.now) }
{
    push_code(text, moment)?;
    push_request(text, moment)?;
    push_opening(alloc, text, moment)
}

/// Adds the command of a message and the fields of its header.
fn push_head<B: Book>(
    text: &mut String,
    book: &B,
    number: u64,
    end: End,
    head: &Head,
) -> Result<(), AllocError>
    ensures { OnOk result (string_bytes text.new
        ≡ string_bytes text.old ++ head_text (B.meaning book.now) number end head.now) }
{
    push_front(text, number, end, head.request)?;
    push_name(text, book, head.code, head.request, head.app)?;
    push_fields(text, head)
}

fn push_front(text: &mut String, number: u64, end: End, request: bool) -> Result<(), AllocError>
    ensures { OnOk result (string_bytes text.new ≡ string_bytes text.old ++ front_text number end request) }
{
    let mark = mark(end);
    let kind = kind_word(request);
    write!(text, "{number} {mark} {kind} ")
}

pub(crate) fn kind_word(request: bool) -> &'static str
    ensures { result.now ≡ kind_word request }
{
    if request { "request" } else { "answer" }
}

/// Adds the fields of a header.
fn push_fields(text: &mut String, head: &Head) -> Result<(), AllocError>
    ensures { OnOk result (string_bytes text.new ≡ string_bytes text.old ++ fields_text head.now) }
{
    let app = head.app;
    let hop = head.hop;
    let e2e = head.e2e;
    write!(text, " app {app} hop {hop} end {e2e}")
}

fn push_cause(text: &mut String, moment: &Moment<'_>) -> Result<(), AllocError>
    ensures { OnOk result (string_bytes text.new
        ≡ string_bytes text.old ++ cause_text (contents_of moment.now.message.body)) }
{
    let Some(contents) = moment.contents() else {
        return Ok(());
    };
    match contents.cause {
        Some(cause) => write!(text, " cause {cause}"),
        None => Ok(()),
    }
}

/// Adds the Result-Code or the Experimental-Result of an answer, and whether E is set.
fn push_code(text: &mut String, moment: &Moment<'_>) -> Result<(), AllocError>
    ensures { OnOk result (string_bytes text.new ≡ string_bytes text.old
        ++ contents_code (contents_of moment.now.message.body) ++ error_text moment.now.message.head.error) }
{
    push_contents_code(text, moment)?;
    text.push_str(error_text(moment.message().head.error))
}

fn push_contents_code(text: &mut String, moment: &Moment<'_>) -> Result<(), AllocError>
    ensures { OnOk result (string_bytes text.new
        ≡ string_bytes text.old ++ contents_code (contents_of moment.now.message.body)) }
{
    match moment.contents() {
        Some(contents) => push_result(text, contents.result, contents.experimental),
        None => Ok(()),
    }
}

fn error_text(error: bool) -> &'static str
    ensures { result.now ≡ error_text error }
{
    if error { " E" } else { "" }
}

fn push_result(
    text: &mut String,
    result_code: Option<u32>,
    experimental: Option<(u32, u32)>,
) -> Result<(), AllocError>
    ensures { OnOk result (string_bytes text.new
        ≡ string_bytes text.old ++ code_text result_code experimental) }
{
    if let Some(code) = result_code {
        return write!(text, " code {code}");
    }
    match experimental {
        Some((vendor, code)) => write!(text, " code {vendor}:{code}"),
        None => Ok(()),
    }
}

/// Adds the line of the request of an answer, and how long after it the answer comes.
fn push_request(text: &mut String, moment: &Moment<'_>) -> Result<(), AllocError>
    ensures { OnOk result (string_bytes text.new
        ≡ string_bytes text.old ++ answered_text moment.now.line.time moment.now.request) }
{
    let Some(request) = moment.request() else {
        return Ok(());
    };
    let line = request.line;
    write!(text, " answers {line}")?;
    push_after(text, after(request.time, moment.line().time))
}

/// Adds how long after its request an answer comes.
fn push_after(text: &mut String, nanoseconds: Option<u64>) -> Result<(), AllocError>
    ensures { OnOk result (string_bytes text.new ≡ string_bytes text.old ++ after_text nanoseconds) }
{
    let Some(nanoseconds) = nanoseconds else {
        return Ok(());
    };
    text.push_str(" after ")?;
    push_seconds(text, nanoseconds)
}

/// Adds the common applications of a CEA of success.
fn push_opening(alloc: Global, text: &mut String, moment: &Moment<'_>) -> Result<(), AllocError>
    ensures { OnOk result (string_bytes text.new ≡ string_bytes text.old ++ opening_text moment.now) }
{
    if !moment.is_opening() || !moment.knows_common() {
        return Ok(());
    }
    text.push_str(" common ")?;
    push_known_common(alloc, text, moment)
}

/// Adds the line of a departure or a note on bytes whose header can't be read.
pub(crate) fn push_unread_finding(
    text: &mut String,
    number: u64,
    end: End,
    bytes: &[u8],
    verdict: &str,
    reason: Reason,
) -> Result<(), AllocError>
    ensures { OnOk result (string_bytes text.new
        ≡ string_bytes text.old ++ unread_finding_line number end bytes.now verdict.now reason) }
{
    push_reason(text, number, end, reason)?;
    push_unread_detail(text, bytes, verdict, reason)?;
    push_section(text, section(reason, None))
}

/// Adds the line of a departure or a note.
pub(crate) fn push_finding(
    alloc: Global,
    text: &mut String,
    end: End,
    moment: &Moment<'_>,
    verdict: &str,
    reason: Reason,
) -> Result<(), AllocError>
    ensures { OnOk result (string_bytes text.new
        ≡ string_bytes text.old ++ finding_line end moment.now verdict.now reason) }
{
    push_reason(text, moment.line().number, end, reason)?;
    push_detail(alloc, text, moment, verdict, reason)?;
    push_section(text, section(reason, moment.message().body.result()))
}

fn push_reason(text: &mut String, number: u64, end: End, reason: Reason) -> Result<(), AllocError>
    ensures { OnOk result (string_bytes text.new ≡ string_bytes text.old ++ reason_front number end reason) }
{
    let mark = mark(end);
    let kind = kind(reason);
    let word = word(reason);
    write!(text, "{number} {mark} {kind} {word}: ")
}

fn push_section(text: &mut String, section: Option<&'static str>) -> Result<(), AllocError>
    ensures { OnOk result (string_bytes text.new
        ≡ string_bytes text.old ++ section_text (option_copied section.entry)) }
{
    match section {
        Some(section) => push_number_of_section(text, section),
        None => text.push_str("\n"),
    }
}

fn push_number_of_section(text: &mut String, section: &str) -> Result<(), AllocError>
    ensures { OnOk result (string_bytes text.new
        ≡ string_bytes text.old ++ section_text (Some section.now)) }
{
    writeln!(text, " (RFC 6733 {section})")
}

/// Adds the note on a request that has no answer.
pub(crate) fn push_unanswered<B: Book>(
    text: &mut String,
    book: &B,
    end: End,
    request: &Request,
) -> Result<(), AllocError>
    ensures { OnOk result (string_bytes text.new
        ≡ string_bytes text.old ++ unanswered_line (B.meaning book.now) end request.now) }
{
    let number = request.line;
    let mark = mark(end);
    write!(text, "{number} {mark} note unanswered: ")?;
    push_name(text, book, request.code, true, request.app)?;
    text.push_str("\n")
}
