//! The lines of the answer, as JSON (RFC 8259).

ghost use Rattle.std.specs.Prelude.{◌≡◌, ◌++◌, IfOk, OnOk, Some, string_bytes};
ghost use Rattle.std.specs.Option.{option_copied};
ghost use Rattle.json.specs.Print.{quoted};
ghost use Rattle.dia_follow.specs.Messages.{contents_of, result_of};
ghost use Rattle.dia_follow_text.specs.Objects.{answer_members, answered_members, bad_line_object, begin_text, cause_member, code_members};
ghost use Rattle.dia_follow_text.specs.Objects.{contents_members, duration_member, error_member, finding_object, head_members, identifier_members};
ghost use Rattle.dia_follow_text.specs.Objects.{line_member, line_word, message_object, opening_member, reason_members, rest_members};
ghost use Rattle.dia_follow_text.specs.Objects.{section_member, unanswered_object, unread_finding_object, unread_object};
ghost use Rattle.dia_follow_text.specs.Names.{name_of};

use crate::commons::push_known_common;
use crate::details::push_detail;
use crate::earlier::other_line;
use crate::entry::BadLine;
use crate::names::{mark, push_name};
use crate::reasons::{kind, section, word};
use crate::said::kind_word;
use crate::times::after;
use crate::unread::push_unread_detail;
use dia_dict::Book;
use dia_follow::{End, Head, Moment, Reason, Request};
use dia_refused_json::quoted;
use std::alloc::{AllocError, Global};

/// Adds the diagnostic for a refused line.
pub(crate) fn push_bad_line(text: &mut String, number: u64, bad: BadLine) -> Result<(), AllocError>
    ensures { OnOk result (string_bytes text.new ≡ string_bytes text.old ++ bad_line_object number bad) }
{
    let kind = bad.word();
    writeln!(
        text,
        "{{\"error\":\"connection\",\"kind\":\"{kind}\",\"line\":{number}}}"
    )
}

fn push_begin(text: &mut String, number: u64, end: End) -> Result<(), AllocError>
    ensures { OnOk result (string_bytes text.new ≡ string_bytes text.old ++ begin_text number end) }
{
    let mark = mark(end);
    write!(text, "{{\"line\":{number},\"end\":\"{mark}\"")
}

/// Adds the object of bytes whose header can't be read.
pub(crate) fn push_unread(
    text: &mut String,
    number: u64,
    end: End,
    count: usize,
) -> Result<(), AllocError>
    ensures { OnOk result (string_bytes text.new ≡ string_bytes text.old ++ unread_object number end count) }
{
    push_begin(text, number, end)?;
    writeln!(text, ",\"message\":\"unread\",\"bytes\":{count}}}")
}

/// Adds the object of a message.
pub(crate) fn push_message<B: Book>(
    alloc: Global,
    text: &mut String,
    book: &B,
    end: End,
    moment: &Moment<'_>,
) -> Result<(), AllocError>
    ensures { OnOk result (string_bytes text.new
        ≡ string_bytes text.old ++ message_object (B.meaning book.now) end moment.now) }
{
    push_begin(text, moment.line().number, end)?;
    push_head(alloc, text, book, &moment.message().head)?;
    push_rest(alloc, text, moment)?;
    text.push_str("}\n")
}

/// Adds what a request or an answer says beside its header.
fn push_rest(alloc: Global, text: &mut String, moment: &Moment<'_>) -> Result<(), AllocError>
    ensures { OnOk result (string_bytes text.new ≡ string_bytes text.old ++ rest_members moment.now) }
{
    if moment.message().head.request {
        push_cause(text, moment)
    } else {
        push_answer(alloc, text, moment)
    }
}

fn push_answer(alloc: Global, text: &mut String, moment: &Moment<'_>) -> Result<(), AllocError>
    ensures { OnOk result (string_bytes text.new ≡ string_bytes text.old ++ answer_members moment.now) }
{
    push_code(text, moment)?;
    push_request(text, moment)?;
    push_opening(alloc, text, moment)
}

fn push_head<B: Book>(
    alloc: Global,
    text: &mut String,
    book: &B,
    head: &Head,
) -> Result<(), AllocError>
    ensures { OnOk result (string_bytes text.new
        ≡ string_bytes text.old ++ head_members (B.meaning book.now) head.now) }
{
    let name = quoted_name(alloc, book, head.code, head.request, head.app)?;
    let kind = kind_word(head.request);
    write!(text, ",\"message\":\"{kind}\",\"command\":{name}")?;
    push_identifiers(text, head)
}

/// The name of a command as a string of JSON.
fn quoted_name<B: Book>(
    alloc: Global,
    book: &B,
    code: u32,
    request: bool,
    app: u32,
) -> Result<String, AllocError>
    ensures { IfOk result (λ name. string_bytes name ≡ quoted (name_of (B.meaning book.now) code request app)) }
{
    let mut name = String::new(alloc);
    push_name(&mut name, book, code, request, app)?;
    quoted(alloc, name.as_str())
}

fn push_identifiers(text: &mut String, head: &Head) -> Result<(), AllocError>
    ensures { OnOk result (string_bytes text.new ≡ string_bytes text.old ++ identifier_members head.now) }
{
    let code = head.code;
    let app = head.app;
    let hop = head.hop;
    let e2e = head.e2e;
    write!(
        text,
        ",\"code\":{code},\"application\":{app},\"hop_by_hop\":{hop},\"end_to_end\":{e2e}"
    )
}

fn push_cause(text: &mut String, moment: &Moment<'_>) -> Result<(), AllocError>
    ensures { OnOk result (string_bytes text.new
        ≡ string_bytes text.old ++ cause_member (contents_of moment.now.message.body)) }
{
    let Some(contents) = moment.contents() else {
        return Ok(());
    };
    match contents.cause {
        Some(cause) => write!(text, ",\"cause\":{cause}"),
        None => Ok(()),
    }
}

fn push_code(text: &mut String, moment: &Moment<'_>) -> Result<(), AllocError>
    ensures { OnOk result (string_bytes text.new ≡ string_bytes text.old
        ++ contents_members (contents_of moment.now.message.body) ++ error_member moment.now.message.head.error) }
{
    push_contents_code(text, moment)?;
    text.push_str(error_member(moment.message().head.error))
}

fn push_contents_code(text: &mut String, moment: &Moment<'_>) -> Result<(), AllocError>
    ensures { OnOk result (string_bytes text.new
        ≡ string_bytes text.old ++ contents_members (contents_of moment.now.message.body)) }
{
    match moment.contents() {
        Some(contents) => push_result(text, contents.result, contents.experimental),
        None => Ok(()),
    }
}

fn push_result(
    text: &mut String,
    result_code: Option<u32>,
    experimental: Option<(u32, u32)>,
) -> Result<(), AllocError>
    ensures { OnOk result (string_bytes text.new
        ≡ string_bytes text.old ++ code_members result_code experimental) }
{
    if let Some(code) = result_code {
        return write!(text, ",\"result\":{code}");
    }
    match experimental {
        Some((vendor, code)) => write!(text, ",\"result\":{code},\"vendor\":{vendor}"),
        None => Ok(()),
    }
}

fn error_member(error: bool) -> &'static str
    ensures { result.now ≡ error_member error }
{
    if error { ",\"error_flag\":true" } else { "" }
}

fn push_request(text: &mut String, moment: &Moment<'_>) -> Result<(), AllocError>
    ensures { OnOk result (string_bytes text.new
        ≡ string_bytes text.old ++ answered_members moment.now.line.time moment.now.request) }
{
    let Some(request) = moment.request() else {
        return Ok(());
    };
    let line = request.line;
    write!(text, ",\"answers\":{line}")?;
    push_after(text, after(request.time, moment.line().time))
}

/// Adds how long after its request an answer comes, in nanoseconds.
fn push_after(text: &mut String, nanoseconds: Option<u64>) -> Result<(), AllocError>
    ensures { OnOk result (string_bytes text.new ≡ string_bytes text.old ++ duration_member nanoseconds) }
{
    match nanoseconds {
        Some(nanoseconds) => write!(text, ",\"after\":{nanoseconds}"),
        None => Ok(()),
    }
}

fn push_opening(alloc: Global, text: &mut String, moment: &Moment<'_>) -> Result<(), AllocError>
    ensures { OnOk result (string_bytes text.new ≡ string_bytes text.old ++ opening_member moment.now) }
{
    if !moment.is_opening() || !moment.knows_common() {
        return Ok(());
    }
    text.push_str(",\"common\":\"")?;
    push_known_common(alloc, text, moment)?;
    text.push_str("\"")
}

/// Adds the object of a departure or a note on bytes whose header can't be read.
pub(crate) fn push_unread_finding(
    alloc: Global,
    text: &mut String,
    number: u64,
    end: End,
    bytes: &[u8],
    verdict: &str,
    reason: Reason,
) -> Result<(), AllocError>
    ensures { OnOk result (string_bytes text.new
        ≡ string_bytes text.old ++ unread_finding_object number end bytes.now verdict.now reason) }
{
    let mut detail = String::new(alloc);
    push_unread_detail(&mut detail, bytes, verdict, reason)?;
    push_begin(text, number, end)?;
    push_reason(alloc, text, reason, section(reason, None), detail.as_str())?;
    text.push_str("}\n")
}

/// Adds the object of a departure or a note.
pub(crate) fn push_finding(
    alloc: Global,
    text: &mut String,
    end: End,
    moment: &Moment<'_>,
    verdict: &str,
    reason: Reason,
) -> Result<(), AllocError>
    ensures { OnOk result (string_bytes text.new
        ≡ string_bytes text.old ++ finding_object end moment.now verdict.now reason) }
{
    let mut detail = String::new(alloc);
    push_detail(alloc, &mut detail, moment, verdict, reason)?;
    push_begin(text, moment.line().number, end)?;
    let section = section(reason, moment.message().body.result());
    push_reason(alloc, text, reason, section, detail.as_str())?;
    push_other_line(text, other_line(moment, reason), reason)?;
    text.push_str("}\n")
}

/// Adds the line that a departure or a note speaks of.
fn push_other_line(text: &mut String, line: Option<u64>, reason: Reason) -> Result<(), AllocError>
    ensures { OnOk result (string_bytes text.new ≡ string_bytes text.old ++ line_member reason line) }
{
    let Some(line) = line else {
        return Ok(());
    };
    let member = line_word(reason);
    write!(text, ",\"{member}\":{line}")
}

fn line_word(reason: Reason) -> &'static str
    ensures { result.now ≡ line_word reason }
{
    match reason {
        Reason::Order => "answer",
        _ => "request",
    }
}

fn push_reason(
    alloc: Global,
    text: &mut String,
    reason: Reason,
    section: Option<&'static str>,
    detail: &str,
) -> Result<(), AllocError>
    ensures { OnOk result (string_bytes text.new ≡ string_bytes text.old
        ++ reason_members reason (option_copied section.entry) detail.now) }
{
    let detail = quoted(alloc, detail)?;
    let kind = kind(reason);
    let word = word(reason);
    write!(text, ",\"{kind}\":\"{word}\"")?;
    push_section(text, section)?;
    write!(text, ",\"text\":{detail}")
}

fn push_section(text: &mut String, section: Option<&'static str>) -> Result<(), AllocError>
    ensures { OnOk result (string_bytes text.new
        ≡ string_bytes text.old ++ section_member (option_copied section.entry)) }
{
    match section {
        Some(section) => push_number_of_section(text, section),
        None => Ok(()),
    }
}

fn push_number_of_section(text: &mut String, section: &str) -> Result<(), AllocError>
    ensures { OnOk result (string_bytes text.new
        ≡ string_bytes text.old ++ section_member (Some section.now)) }
{
    write!(text, ",\"section\":\"{section}\"")
}

/// Adds the note on a request that has no answer.
pub(crate) fn push_unanswered<B: Book>(
    alloc: Global,
    text: &mut String,
    book: &B,
    end: End,
    request: &Request,
) -> Result<(), AllocError>
    ensures { OnOk result (string_bytes text.new
        ≡ string_bytes text.old ++ unanswered_object (B.meaning book.now) end request.now) }
{
    let name = quoted_name(alloc, book, request.code, true, request.app)?;
    push_begin(text, request.line, end)?;
    writeln!(text, ",\"note\":\"unanswered\",\"text\":{name}}}")
}
