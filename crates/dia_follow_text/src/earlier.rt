//! The line that a departure or a note speaks of, and what is said of an earlier one.

ghost use Rattle.std.specs.Prelude.{◌≡◌, ◌++◌, OnOk, option_map, string_bytes};
ghost use Rattle.dia_follow.specs.Connections.{state_in};
ghost use Rattle.dia_follow_text.specs.Details.{earlier_at, earlier_text, interval, interval_text};
ghost use Rattle.dia_follow_text.specs.Details.{order_text, other_line, request_line, silence_text, since_text, states_text};

use crate::details::push_line;
use crate::times::{after, push_seconds};
use dia_follow::{Head, Moment, Reason};
use std::alloc::AllocError;

/// The line that a departure or a note speaks of.
pub(crate) fn other_line(moment: &Moment<'_>, reason: Reason) -> Option<u64>
    ensures { result ≡ other_line reason moment.now }
{
    match reason {
        Reason::HopByHop => moment.since(),
        Reason::WatchdogWaits => moment.waiting_dwr(),
        Reason::Order => moment.answer_line(),
        Reason::WatchdogEarly => last_line(moment),
        Reason::EndToEnd | Reason::Command | Reason::Application => request_line(moment),
        Reason::Proxiable | Reason::SessionId => request_line(moment),
        _ => None,
    }
}

fn last_line(moment: &Moment<'_>) -> Option<u64>
    ensures { result ≡ option_map (λ dwr. dwr.line) moment.now.own.dwr }
{
    match moment.last_dwr() {
        Some(last) => Some(last.line),
        None => None,
    }
}

fn request_line(moment: &Moment<'_>) -> Option<u64>
    ensures { result ≡ request_line moment.now.request }
{
    match moment.request() {
        Some(request) => Some(request.line),
        None => None,
    }
}

/// Adds an earlier line.
pub(crate) fn push_earlier(
    text: &mut String,
    moment: &Moment<'_>,
    reason: Reason,
) -> Result<(), AllocError>
    ensures { OnOk result (string_bytes text.new
        ≡ string_bytes text.old ++ earlier_text reason moment.now (other_line reason moment.now)) }
{
    match other_line(moment, reason) {
        Some(line) => push_earlier_at(text, moment, reason, line),
        None => Ok(()),
    }
}

fn push_earlier_at(
    text: &mut String,
    moment: &Moment<'_>,
    reason: Reason,
    line: u64,
) -> Result<(), AllocError>
    ensures { OnOk result (string_bytes text.new
        ≡ string_bytes text.old ++ earlier_at reason moment.now line) }
{
    match reason {
        Reason::HopByHop => push_since(text, &moment.message().head, line),
        Reason::WatchdogWaits => write!(text, "the DWR of line {line} waits"),
        Reason::Order => push_order(text, line),
        _ => push_interval(text, interval(moment), line),
    }
}

fn push_since(text: &mut String, head: &Head, line: u64) -> Result<(), AllocError>
    ensures { OnOk result (string_bytes text.new ≡ string_bytes text.old ++ since_text head.now.hop line) }
{
    let hop = head.hop;
    write!(text, "{hop}")?;
    push_line(text, " waits since line ", line)
}

fn push_order(text: &mut String, line: u64) -> Result<(), AllocError>
    ensures { OnOk result (string_bytes text.new ≡ string_bytes text.old ++ order_text line) }
{
    write!(text, "line {line} answers this one")
}

fn push_interval(text: &mut String, nanoseconds: u64, line: u64) -> Result<(), AllocError>
    ensures { OnOk result (string_bytes text.new ≡ string_bytes text.old ++ interval_text nanoseconds line) }
{
    push_seconds(text, nanoseconds)?;
    write!(text, " behind line {line}")
}

/// How long the message comes after the last DWR of its end.
fn interval(moment: &Moment<'_>) -> u64
    ensures { result ≡ interval moment.now }
{
    match moment.last_dwr() {
        Some(last) => after(last.time, moment.line().time).unwrap_or(0),
        None => 0,
    }
}

/// Adds how long the message comes after the line before.
pub(crate) fn push_silence(text: &mut String, moment: &Moment<'_>) -> Result<(), AllocError>
    ensures { OnOk result (string_bytes text.new ≡ string_bytes text.old ++ silence_text moment.now) }
{
    let length = after(moment.last_time(), moment.line().time);
    push_seconds(text, length.unwrap_or(0))?;
    text.push_str(" s")
}

/// Adds the Origin-State-Id of the message, and the one before.
pub(crate) fn push_states(text: &mut String, moment: &Moment<'_>) -> Result<(), AllocError>
    ensures { OnOk result (string_bytes text.new ≡ string_bytes text.old ++ states_text moment.now) }
{
    let now = state_in(moment).unwrap_or(0);
    let known = moment.origin_state().unwrap_or(0);
    write!(text, "{now}, {known} before")
}

fn state_in(moment: &Moment<'_>) -> Option<u32>
    ensures { result ≡ state_in moment.now.message.body }
{
    match moment.contents() {
        Some(contents) => contents.origin_state,
        None => None,
    }
}
