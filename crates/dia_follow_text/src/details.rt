//! What a departure or a note says of its message.

ghost use Rattle.std.specs.Prelude.{◌≡◌, ◌++◌, OnOk, codes, if◌then◌else◌, length, string_bytes};
ghost use Rattle.std.specs.Fmt.{decimal};
ghost use Rattle.dia_follow.specs.Messages.{is_base_code, result_of};
ghost use Rattle.dia_follow_text.specs.Details.{detail_text, field_pair, field_text, forgotten_text, gap_text, has_session};
ghost use Rattle.dia_follow_text.specs.Details.{no_result_text, number_text, on_result, plain_text, result_text, sizes};
ghost use Rattle.dia_follow_text.specs.Details.{unlike_flag, unlike_session, unlike_text, with_flag};

use crate::commons::push_known_common;
use crate::earlier::{push_earlier, push_silence, push_states};
use crate::hosts::push_hosts;
use dia_follow::{Body, Head, Line, Message, Moment, Reason, Request};
use std::alloc::{AllocError, Global};

/// How many requests of an end wait at most.
const MOST_WAITING: u32 = 65_536;

/// Adds the text of a departure or a note. `verdict` is what `check` says.
pub(crate) fn push_detail(
    alloc: Global,
    text: &mut String,
    moment: &Moment<'_>,
    verdict: &str,
    reason: Reason,
) -> Result<(), AllocError>
    ensures { OnOk result (string_bytes text.new
        ≡ string_bytes text.old ++ detail_text moment.now verdict.now reason) }
{
    match reason {
        Reason::Invalid => text.push_str(verdict),
        Reason::AvpLength => push_gap(text, moment.message()),
        Reason::EndToEnd | Reason::Command | Reason::Application => {
            push_other(text, moment, reason)
        }
        Reason::Proxiable | Reason::SessionId => push_unlike(text, moment, reason),
        Reason::NoCommon | Reason::CommonRefused | Reason::ErrorFlag => {
            push_result(alloc, text, moment, reason)
        }
        Reason::OriginHost => push_hosts(text, moment),
        Reason::Truncated => push_sizes(text, true, moment.line(), moment.message()),
        Reason::Trailing => push_sizes(text, false, moment.line(), moment.message()),
        Reason::HopByHop | Reason::WatchdogWaits | Reason::Order | Reason::WatchdogEarly => {
            push_earlier(text, moment, reason)
        }
        Reason::NotAdvertised | Reason::OwnApplication | Reason::AnswersNothing => {
            push_number(text, &moment.message().head, reason)
        }
        Reason::Silence => push_silence(text, moment),
        Reason::OriginState => push_states(text, moment),
        Reason::Forgotten => push_forgotten(text),
        _ => text.push_str(plain(&moment.message().head, reason)),
    }
}

fn wrong_bit(head: &Head) -> &'static str
    ensures { result.now ≡ (if head.now.request then codes "E in a request" else codes "T in an answer") }
{
    if head.request {
        "E in a request"
    } else {
        "T in an answer"
    }
}

/// What an answer lacks.
fn no_result(head: &Head) -> &'static str
    ensures { result.now ≡ no_result_text (is_base_code head.now.code) }
{
    if head.is_base() {
        "no Result-Code"
    } else {
        "neither Result-Code nor Experimental-Result"
    }
}

/// The text of a departure or a note that has no numbers.
fn plain(head: &Head, reason: Reason) -> &'static str
    ensures { result.now ≡ plain_text reason head.now }
{
    match reason {
        Reason::Bits => wrong_bit(head),
        Reason::NoCer => "the first message of the connection",
        Reason::CerFromAcceptor => "the other end opened the connection",
        Reason::CerAgain => "the CER of this connection is sent",
        Reason::BeforeCea => "no CEA yet",
        Reason::AfterDpr => "its DPR is sent",
        Reason::AfterDpa => "its DPA is sent",
        Reason::Destination => "an answer has none",
        Reason::NoResult => no_result(head),
        Reason::AnswersBefore => "no request that is known",
        Reason::Again => "T is set",
        Reason::Kinds => "auth of one end, acct of the other",
        Reason::GoesOn => "behind a CEA that refuses",
        _ => "",
    }
}

fn push_forgotten(text: &mut String) -> Result<(), AllocError>
    ensures { OnOk result (string_bytes text.new ≡ string_bytes text.old ++ forgotten_text) }
{
    write!(text, "more than {MOST_WAITING} requests wait")
}

fn push_gap(text: &mut String, message: &Message<'_>) -> Result<(), AllocError>
    ensures { OnOk result (string_bytes text.new ≡ string_bytes text.old ++ gap_text message.now.body) }
{
    match message.body {
        Body::Gap(at) => write!(text, "no AVP begins at byte {at}"),
        _ => Ok(()),
    }
}

/// Adds a field of an answer, and that of its request.
fn push_other(text: &mut String, moment: &Moment<'_>, reason: Reason) -> Result<(), AllocError>
    ensures { OnOk result (string_bytes text.new ≡ string_bytes text.old ++ field_text reason moment.now.message.head moment.now.request) }
{
    let head = moment.message().head;
    let Some(request) = moment.request() else {
        return Ok(());
    };
    let line = request.line;
    let (own, wanted) = field_pair(&head, request, reason);
    write!(text, "{own}, {wanted} in line {line}")
}

/// A field of an answer, and that of its request.
fn field_pair(head: &Head, request: &Request, reason: Reason) -> (u32, u32)
    ensures { result ≡ field_pair reason head.now request.now }
{
    match reason {
        Reason::EndToEnd => (head.e2e, request.e2e),
        Reason::Command => (head.code, request.code),
        _ => (head.app, request.app),
    }
}

/// Adds which P flags an answer and its request have.
fn push_flags(text: &mut String, request: &Request) -> Result<(), AllocError>
    ensures { OnOk result (string_bytes text.new
        ≡ string_bytes text.old ++ unlike_flag request.now.proxiable ++ decimal request.now.line) }
{
    push_line(text, unlike_flag(request.proxiable), request.line)
}

fn unlike_flag(proxiable: bool) -> &'static str
    ensures { result.now ≡ unlike_flag proxiable }
{
    if proxiable {
        "P clear, set in line "
    } else {
        "P set, clear in line "
    }
}

/// Adds which Session-Ids an answer and its request have.
fn push_sessions(
    text: &mut String,
    moment: &Moment<'_>,
    request: &Request,
) -> Result<(), AllocError>
    ensures { OnOk result (string_bytes text.new ≡ string_bytes text.old
        ++ unlike_session (has_session moment.now) ++ decimal request.now.line) }
{
    push_line(text, unlike_session(has_session(moment)), request.line)
}

fn unlike_session(has_session: bool) -> &'static str
    ensures { result.now ≡ unlike_session has_session }
{
    if has_session {
        "another in line "
    } else {
        "none, one in line "
    }
}

pub(crate) fn push_line(text: &mut String, lead: &str, line: u64) -> Result<(), AllocError>
    ensures { OnOk result (string_bytes text.new ≡ string_bytes text.old ++ lead.now ++ decimal line) }
{
    write!(text, "{lead}{line}")
}

/// Adds what of an answer isn't as in its request.
fn push_unlike(text: &mut String, moment: &Moment<'_>, reason: Reason) -> Result<(), AllocError>
    ensures { OnOk result (string_bytes text.new
        ≡ string_bytes text.old ++ unlike_text reason moment.now moment.now.request) }
{
    let Some(request) = moment.request() else {
        return Ok(());
    };
    match reason {
        Reason::Proxiable => push_flags(text, request),
        _ => push_sessions(text, moment, request),
    }
}

fn has_session(moment: &Moment<'_>) -> bool
    ensures { result ≡ has_session moment.now }
{
    match moment.contents() {
        Some(contents) => contents.session.is_some(),
        None => false,
    }
}

/// Adds what a Result-Code doesn't go with.
fn push_result(
    alloc: Global,
    text: &mut String,
    moment: &Moment<'_>,
    reason: Reason,
) -> Result<(), AllocError>
    ensures { OnOk result (string_bytes text.new ≡ string_bytes text.old
        ++ on_result reason moment.now (result_of moment.now.message.body)) }
{
    match moment.message().body.result() {
        Some(code) => push_code(alloc, text, moment, reason, code),
        None => Ok(()),
    }
}

fn push_code(
    alloc: Global,
    text: &mut String,
    moment: &Moment<'_>,
    reason: Reason,
    code: u32,
) -> Result<(), AllocError>
    ensures { OnOk result (string_bytes text.new
        ≡ string_bytes text.old ++ result_text reason moment.now code) }
{
    match reason {
        Reason::NoCommon => write!(text, "{code}, and no application of the CER"),
        Reason::CommonRefused => push_refused(alloc, text, moment, code),
        _ => push_with_flag(text, code, moment.message().head.error),
    }
}

/// Adds a Result-Code, and the applications in common.
fn push_refused(
    alloc: Global,
    text: &mut String,
    moment: &Moment<'_>,
    code: u32,
) -> Result<(), AllocError>
    ensures { OnOk result (string_bytes text.new ≡ string_bytes text.old ++ result_text Reason.CommonRefused moment.now code) }
{
    write!(text, "{code}, and common ")?;
    push_known_common(alloc, text, moment)
}

fn push_with_flag(text: &mut String, code: u32, error: bool) -> Result<(), AllocError>
    ensures { OnOk result (string_bytes text.new ≡ string_bytes text.old ++ decimal code ++ with_flag error) }
{
    if error {
        write!(text, "{code} with E")
    } else {
        write!(text, "{code} without E")
    }
}

/// Adds how many bytes there are, and how many there should be.
fn push_sizes(
    text: &mut String,
    is_cut: bool,
    line: &Line<'_>,
    message: &Message<'_>,
) -> Result<(), AllocError>
    ensures { OnOk result (string_bytes text.new ≡ string_bytes text.old
        ++ sizes is_cut (length line.now.bytes.now) message.now.length) }
{
    let count = line.bytes.len();
    let length = message.length;
    if is_cut {
        write!(text, "{count} of {length} bytes")
    } else {
        write!(text, "{count} bytes for {length}")
    }
}

/// Adds a number of the header.
fn push_number(text: &mut String, head: &Head, reason: Reason) -> Result<(), AllocError>
    ensures { OnOk result (string_bytes text.new ≡ string_bytes text.old ++ number_text reason head.now) }
{
    let app = head.app;
    let hop = head.hop;
    match reason {
        Reason::NotAdvertised => write!(text, "{app} isn't advertised by the other end"),
        Reason::OwnApplication => write!(text, "{app} isn't advertised by this end"),
        _ => write!(text, "no request with {hop} waits"),
    }
}
