//! The notes on the requests without answer.

ghost use Rattle.std.specs.Prelude.{◌≡◌, ◌++◌, List, None, Some, OnOk, drop, nat_lt, option_map, slice_get, string_bytes};
ghost use Rattle.dia_follow.specs.declared.Request.{Request as AnyRequest};
ghost use Rattle.std.specs.List.{flat_map};
ghost use Rattle.dia_follow_text.specs.Answers.{unanswered};
ghost use Rattle.dia_follow_text.specs.Notes.{IsNext, in_order, ours_after, theirs_after};
ghost use Rattle.dia_follow_text.specs.Outcome.{notes};

use crate::answering::{Manner, State};
use crate::counts::Counts;
use crate::forms::push_unanswered;
use dia_dict::Book;
use dia_follow::{End, Request};
use std::alloc::{AllocError, Global};

/// Adds the notes on the requests without answer, by line.
pub(crate) fn push_all_unanswered<B: Book>(
    alloc: Global,
    text: &mut String,
    manner: &Manner<'_, B>,
    state: &mut State,
) -> Result<(), AllocError>
    ensures text { OnOk result (string_bytes text.new ≡ string_bytes text.old
        ++ notes (B.meaning manner.now.book.now) manner.now.options.json state.old.connection) }
    ensures departs { state.new.departs ≡ state.old.departs }
{
    let ours = state.connection.unanswered(alloc, End::Initiator)?;
    let theirs = state.connection.unanswered(alloc, End::Responder)?;
    push_notes(alloc, text, manner, &mut state.counts, &ours, &theirs)
}

/// Adds the notes on requests of both ends, by line.
fn push_notes<B: Book>(
    alloc: Global,
    text: &mut String,
    manner: &Manner<'_, B>,
    counts: &mut Counts,
    ours: &[Request],
    theirs: &[Request],
) -> Result<(), AllocError>
    ensures { OnOk result (string_bytes text.new ≡ string_bytes text.old
        ++ flat_map (λ n. unanswered manner.now.options.json (B.meaning manner.now.book.now) n.0 n.1)
        (in_order ours.now theirs.now)) }
{
    let mut ours = ours;
    let mut theirs = theirs;
    while let Some((end, request)) = next_unanswered(ours, theirs) {
        push_unanswered(alloc, text, manner, end, request)?;
        counts.unanswered(end, request.line)?;
        ours = ours_after(end, ours);
        theirs = theirs_after(end, theirs);
    }
    Ok(())
}

/// The requests of the initiator that are left after one of an end.
fn ours_after(end: End, ours: &[Request]) -> &[Request]
    ensures { result.now ≡ ours_after end ours.entry.now }
{
    match end {
        End::Initiator => after_first(ours),
        End::Responder => ours,
    }
}

/// The requests of the responder that are left after one of an end.
fn theirs_after(end: End, theirs: &[Request]) -> &[Request]
    ensures { result.now ≡ theirs_after end theirs.entry.now }
{
    match end {
        End::Initiator => theirs,
        End::Responder => after_first(theirs),
    }
}

fn after_first(requests: &[Request]) -> &[Request]
    ensures { result.now ≡ drop 1 requests.entry.now }
{
    if requests.is_empty() {
        requests
    } else {
        &requests[1..]
    }
}

/// The first of both lists, by line.
fn next_unanswered<'a>(ours: &'a [Request], theirs: &'a [Request]) -> Option<(End, &'a Request)>
    ensures { IsNext ours.entry.now theirs.entry.now (option_map (λ note. (note.0, note.1.now)) result) }
{
    match ours.first() {
        Some(our) => Some(earlier(our, theirs)),
        None => first_of_responder(theirs),
    }
}

/// The first request of the initiator, or one of the responder that is before it.
fn earlier<'a>(our: &'a Request, theirs: &'a [Request]) -> (End, &'a Request)
    ensures { (ours : List AnyRequest) → slice_get ours 0 ≡ Some our.entry.now
        → IsNext ours theirs.entry.now (Some (result.0, result.1.now)) }
{
    let Some(their) = theirs.first() else {
        return (End::Initiator, our);
    };
    if is_earlier(their, our) {
        return (End::Responder, their);
    }
    (End::Initiator, our)
}

fn is_earlier(their: &Request, our: &Request) -> bool
    ensures { result ≡ nat_lt their.now.line our.now.line }
{
    their.line < our.line
}

fn first_of_responder(theirs: &[Request]) -> Option<(End, &Request)>
    ensures { (ours : List AnyRequest) → slice_get ours 0 ≡ None
        → IsNext ours theirs.entry.now (option_map (λ note. (note.0, note.1.now)) result) }
{
    match theirs.first() {
        Some(their) => Some((End::Responder, their)),
        None => None,
    }
}
