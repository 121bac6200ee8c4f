//! The answer to a message: its line, its departures, and the notes on it.

ghost use Rattle.std.specs.Prelude.{◌≡◌, ◌++◌, ◌||◌, OnOk, string_bytes};
ghost use Rattle.std.specs.List.{list_any};
ghost use Rattle.dia_follow.specs.Connections.{findings_of};
ghost use Rattle.dia_follow_text.specs.Answers.{answer_by, answer_text, departs, message_answer, unread_answer};
ghost use Rattle.dia_follow_text.specs.Reasons.{is_departure};

use crate::answering::{Manner, State};
use crate::counts::Counts;
use crate::forms::{push_finding, push_message, push_unread, push_unread_finding};
use crate::reasons::is_departure;
use dia_dict::Book;
use dia_follow::{Connection, End, Line, Moment, Reason, Seen};
use std::alloc::{AllocError, Global};

/// Adds the lines of a message, of its departures and of the notes on it, and counts them.
pub(crate) fn push_answer<B: Book>(
    alloc: Global,
    text: &mut String,
    manner: &Manner<'_, B>,
    state: &mut State,
    end: End,
    line: &Line<'_>,
    verdict: &str,
) -> Result<(), AllocError>
    ensures text { OnOk result (string_bytes text.new ≡ string_bytes text.old
        ++ answer_text manner.now.options.json (B.meaning manner.now.book.now)
        state.old.connection end line.now verdict.now) }
    ensures departs { OnOk result (state.new.departs
        ≡ state.old.departs || departs (findings_of state.old.connection end line.now)) }
    ensures connection { OnOk result (state.new.connection ≡ state.old.connection) }
{
    let found = state.connection.findings(alloc, end, line)?;
    push_seen(
        alloc,
        text,
        manner,
        &state.connection,
        end,
        line,
        &found,
        verdict,
    )?;
    count_seen(
        alloc,
        manner,
        &state.connection,
        &mut state.counts,
        end,
        line,
    )?;
    count_reasons(&mut state.counts, end, line.number, &found)?;
    state.departs = state.departs || departs(&found);
    Ok(())
}

/// Adds the lines of a message, of its departures and of the notes on it.
fn push_seen<B: Book>(
    alloc: Global,
    text: &mut String,
    manner: &Manner<'_, B>,
    connection: &Connection,
    end: End,
    line: &Line<'_>,
    found: &[Reason],
    verdict: &str,
) -> Result<(), AllocError>
    ensures { OnOk result (string_bytes text.new ≡ string_bytes text.old
        ++ answer_by manner.now.options.json (B.meaning manner.now.book.now) connection.now end line.now
        verdict.now found.now line.now.seen) }
{
    match &line.seen {
        Seen::Unread(_) => push_unread_answer(
            alloc,
            text,
            manner.options.json,
            end,
            line,
            found,
            verdict,
        ),
        Seen::Message(message) => {
            let moment = connection.moment(end, line, message);
            push_message_answer(alloc, text, manner, end, &moment, found, verdict)
        }
    }
}

fn push_unread_answer(
    alloc: Global,
    text: &mut String,
    json: bool,
    end: End,
    line: &Line<'_>,
    found: &[Reason],
    verdict: &str,
) -> Result<(), AllocError>
    ensures { OnOk result (string_bytes text.new ≡ string_bytes text.old
        ++ unread_answer json line.now.number end line.now.bytes.now verdict.now found.now) }
{
    push_unread(text, json, end, line)?;
    for reason in found {
        push_unread_finding(alloc, text, json, end, line, verdict, *reason)?;
    }
    Ok(())
}

fn push_message_answer<B: Book>(
    alloc: Global,
    text: &mut String,
    manner: &Manner<'_, B>,
    end: End,
    moment: &Moment<'_>,
    found: &[Reason],
    verdict: &str,
) -> Result<(), AllocError>
    ensures { OnOk result (string_bytes text.new ≡ string_bytes text.old
        ++ message_answer manner.now.options.json (B.meaning manner.now.book.now) end moment.now
        verdict.now found.now) }
{
    push_message(alloc, text, manner, end, moment)?;
    for reason in found {
        push_finding(
            alloc,
            text,
            manner.options.json,
            end,
            moment,
            verdict,
            *reason,
        )?;
    }
    Ok(())
}

fn departs(found: &[Reason]) -> bool
    ensures { result ≡ list_any is_departure found.now }
{
    found.iter().any(|reason| is_departure(*reason))
}

/// Counts a message.
fn count_seen<B: Book>(
    alloc: Global,
    manner: &Manner<'_, B>,
    connection: &Connection,
    counts: &mut Counts,
    end: End,
    line: &Line<'_>,
) -> Result<(), AllocError> {
    counts.last(end, line.number, line.time);
    match &line.seen {
        Seen::Unread(_) => {
            counts.unread();
            Ok(())
        }
        Seen::Message(message) => {
            let moment = connection.moment(end, line, message);
            counts.message(alloc, manner.book, end, &moment)
        }
    }
}

/// Counts departures and notes.
fn count_reasons(
    counts: &mut Counts,
    end: End,
    number: u64,
    found: &[Reason],
) -> Result<(), AllocError> {
    for reason in found {
        counts.reason(end, number, *reason)?;
    }
    Ok(())
}
