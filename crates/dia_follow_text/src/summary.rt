//! The summary, for standard error.

use crate::counts::{Command, Counts, Disconnect, Last, Recorded};
use crate::names::mark;
use crate::reasons::{is_departure, word};
use crate::times::push_seconds;
use dia_follow::{End, Reason};
use std::alloc::{AllocError, Global};
use std::collections::BTreeMap;

/// What was counted, as text.
pub(crate) fn summary_of(alloc: Global, counts: &Counts) -> Result<String, AllocError> {
    let mut text = String::new(alloc);
    push_messages(&mut text, counts)?;
    for command in &counts.commands {
        push_command(&mut text, command)?;
    }
    push_common(&mut text, counts)?;
    push_reasons(alloc, &mut text, counts)?;
    push_lasts(&mut text, counts)?;
    push_disconnect(&mut text, counts.disconnect)?;
    push_hints(&mut text, counts)?;
    Ok(text)
}

fn push_messages(text: &mut String, counts: &Counts) -> Result<(), AllocError> {
    let messages = counts.messages;
    let requests = counts.requests;
    let answers = counts.answers;
    writeln!(
        text,
        "{messages} messages: {requests} requests, {answers} answers"
    )
}

fn push_command(text: &mut String, command: &Command) -> Result<(), AllocError> {
    let mark = mark(command.end);
    let name = command.name.as_str();
    let requests = command.requests;
    let answered = command.answered;
    write!(text, "{mark} {name}: {requests}, {answered} answered")?;
    push_times(text, command)?;
    text.push('\n')
}

/// Adds the least and the greatest time of an answer, the median and the 99th percentile.
fn push_times(text: &mut String, command: &Command) -> Result<(), AllocError> {
    let count = total(&command.times);
    if count == 0 {
        return Ok(());
    }
    text.push_str("; after ")?;
    push_seconds(text, command.least)?;
    text.push_str(" to ")?;
    push_seconds(text, command.most)?;
    text.push_str(" s, median ")?;
    push_seconds(
        text,
        smallest(&command.times, count / 2 + count % 2).saturating_mul(1000),
    )?;
    text.push_str(", 99th ")?;
    push_seconds(
        text,
        smallest(&command.times, nearly_all(count)).saturating_mul(1000),
    )
}

/// 99 of a hundred, rounded up.
fn nearly_all(count: u64) -> u64 {
    count - count / 100
}

fn total(times: &BTreeMap<u64, u64>) -> u64 {
    let mut sum = 0u64;
    for (_, count) in times {
        sum = sum.saturating_add(*count);
    }
    sum
}

/// The k-th smallest.
fn smallest(times: &BTreeMap<u64, u64>, k: u64) -> u64 {
    let mut seen = 0u64;
    for (time, count) in times {
        seen = seen.saturating_add(*count);
        if seen >= k {
            return *time;
        }
    }
    0
}

fn push_common(text: &mut String, counts: &Counts) -> Result<(), AllocError> {
    match &counts.common {
        Some(common) => {
            let common = common.as_str();
            writeln!(text, "common: {common}")
        }
        None => text.push_str("no CEA of success\n"),
    }
}

/// Adds how often each departure and each note was reported of an end: departures first, the most frequent first.
fn push_reasons(alloc: Global, text: &mut String, counts: &Counts) -> Result<(), AllocError> {
    let mut sorted = Vec::from_slice(alloc, counts.recorded.as_slice())?;
    sorted.sort_by_key(|recorded| (is_note(recorded), u64::MAX - recorded.count, recorded.first))?;
    for recorded in &sorted {
        push_recorded(text, recorded)?;
    }
    Ok(())
}

fn is_note(recorded: &Recorded) -> bool {
    match recorded.reason {
        Some(reason) => !is_departure(reason),
        None => true,
    }
}

fn push_recorded(text: &mut String, recorded: &Recorded) -> Result<(), AllocError> {
    let count = recorded.count;
    let mark = mark(recorded.end);
    let kind = if is_note(recorded) {
        "note"
    } else {
        "departure"
    };
    let word = match recorded.reason {
        Some(reason) => word(reason),
        None => "unanswered",
    };
    let first = recorded.first;
    writeln!(
        text,
        "{count} x {mark} {kind} {word}, first in line {first}"
    )
}

fn push_lasts(text: &mut String, counts: &Counts) -> Result<(), AllocError> {
    let mut lead = "last: ";
    if let Some(last) = counts.last_initiator {
        push_last(text, lead, End::Initiator, last)?;
        lead = ", ";
    }
    if let Some(last) = counts.last_responder {
        push_last(text, lead, End::Responder, last)?;
    }
    if counts.messages > 0 {
        text.push('\n')
    } else {
        Ok(())
    }
}

fn push_last(
    text: &mut String,
    lead: &'static str,
    end: End,
    last: Last,
) -> Result<(), AllocError> {
    let mark = mark(end);
    let line = last.line;
    write!(text, "{lead}{mark} line {line}")?;
    match last.time {
        Some(time) => {
            text.push_str(" at ")?;
            push_seconds(text, time)
        }
        None => Ok(()),
    }
}

fn push_disconnect(text: &mut String, disconnect: Option<Disconnect>) -> Result<(), AllocError> {
    let Some(disconnect) = disconnect else {
        return text.push_str("neither end asks to disconnect\n");
    };
    let mark = mark(disconnect.end);
    let line = disconnect.line;
    write!(text, "{mark} asks to disconnect in line {line}")?;
    if let Some(cause) = disconnect.cause {
        write!(text, ", cause {cause}")?;
    }
    match disconnect.answered {
        Some(line) => writeln!(text, "; answered in line {line}"),
        None => text.push_str("; not answered\n"),
    }
}

/// Adds what explains some departures and notes beside a fault of an end.
fn push_hints(text: &mut String, counts: &Counts) -> Result<(), AllocError> {
    if was_recorded(counts, Reason::NoCer) {
        text.push_str(
            "no-cer: where the capture begins in the middle of the connection, use --middle\n",
        )?;
    }
    if was_recorded(counts, Reason::AnswersNothing) || was_recorded(counts, Reason::Order) {
        text.push_str(
            "answers-nothing, order: packets may be missing from the capture, or exchanged in it\n",
        )?;
    }
    Ok(())
}

fn was_recorded(counts: &Counts, reason: Reason) -> bool {
    for recorded in &counts.recorded {
        if recorded.reason == Some(reason) {
            return true;
        }
    }
    false
}
