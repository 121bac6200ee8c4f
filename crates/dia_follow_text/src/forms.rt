//! The lines of the answer, as text or as JSON.

ghost use Rattle.std.specs.Prelude.{◌≡◌, ◌++◌, OnOk, length, string_bytes};
ghost use Rattle.dia_follow_text.specs.Answers.{bad_line, finding, message_text, unanswered, unread, unread_finding};

use crate::answering::Manner;
use crate::entry::BadLine;
use crate::{objects, said};
use dia_dict::Book;
use dia_follow::{End, Line, Moment, Reason, Request};
use std::alloc::{AllocError, Global};

pub(crate) fn push_unread(
    text: &mut String,
    json: bool,
    end: End,
    line: &Line<'_>,
) -> Result<(), AllocError>
    ensures { OnOk result (string_bytes text.new ≡ string_bytes text.old
        ++ unread json line.now.number end (length line.now.bytes.now)) }
{
    if json {
        objects::push_unread(text, line.number, end, line.bytes.len())
    } else {
        said::push_unread(text, line.number, end, line.bytes.len())
    }
}

pub(crate) fn push_unread_finding(
    alloc: Global,
    text: &mut String,
    json: bool,
    end: End,
    line: &Line<'_>,
    verdict: &str,
    reason: Reason,
) -> Result<(), AllocError>
    ensures { OnOk result (string_bytes text.new ≡ string_bytes text.old
        ++ unread_finding json line.now.number end line.now.bytes.now verdict.now reason) }
{
    if json {
        objects::push_unread_finding(alloc, text, line.number, end, line.bytes, verdict, reason)
    } else {
        said::push_unread_finding(text, line.number, end, line.bytes, verdict, reason)
    }
}

pub(crate) fn push_message<B: Book>(
    alloc: Global,
    text: &mut String,
    manner: &Manner<'_, B>,
    end: End,
    moment: &Moment<'_>,
) -> Result<(), AllocError>
    ensures { OnOk result (string_bytes text.new ≡ string_bytes text.old
        ++ message_text manner.now.options.json (B.meaning manner.now.book.now) end moment.now) }
{
    if manner.options.json {
        objects::push_message(alloc, text, manner.book, end, moment)
    } else {
        said::push_message(alloc, text, manner.book, end, moment)
    }
}

pub(crate) fn push_finding(
    alloc: Global,
    text: &mut String,
    json: bool,
    end: End,
    moment: &Moment<'_>,
    verdict: &str,
    reason: Reason,
) -> Result<(), AllocError>
    ensures { OnOk result (string_bytes text.new
        ≡ string_bytes text.old ++ finding json end moment.now verdict.now reason) }
{
    if json {
        objects::push_finding(alloc, text, end, moment, verdict, reason)
    } else {
        said::push_finding(alloc, text, end, moment, verdict, reason)
    }
}

pub(crate) fn push_unanswered<B: Book>(
    alloc: Global,
    text: &mut String,
    manner: &Manner<'_, B>,
    end: End,
    request: &Request,
) -> Result<(), AllocError>
    ensures { OnOk result (string_bytes text.new ≡ string_bytes text.old
        ++ unanswered manner.now.options.json (B.meaning manner.now.book.now) end request.now) }
{
    if manner.options.json {
        objects::push_unanswered(alloc, text, manner.book, end, request)
    } else {
        said::push_unanswered(text, manner.book, end, request)
    }
}

/// Adds the diagnostic for a refused line.
pub(crate) fn push_bad_line(
    text: &mut String,
    json: bool,
    number: u64,
    bad: BadLine,
) -> Result<(), AllocError>
    ensures { OnOk result (string_bytes text.new ≡ string_bytes text.old ++ bad_line json number bad) }
{
    if json {
        objects::push_bad_line(text, number, bad)
    } else {
        said::push_bad_line(text, number, bad)
    }
}
