//! The program of the crate's docs.

use super::{auth, end, first, second};
use dia_peer::{Cause, Core, Event, Output, Role, State};
use std::process::Abort;

/// What a core sends at an event.
fn recorded(rt: &(impl AllocGlobal + Abort), core: &mut Core, event: Event<'_>) -> Vec<Vec<u8>> {
    let mut sent = Vec::new(rt.alloc());
    for output in core.step(event).expect(rt, "memory") {
        if let Output::Send(bytes) = output {
            sent.push(bytes).ok().expect(rt, "memory");
        }
    }
    sent
}

/// One end gets an event, and the messages of both ends are delivered until none is left.
fn exchanged(rt: &(impl AllocGlobal + Abort), core: &mut Core, event: Event<'_>, other: &mut Core) {
    for request in recorded(rt, core, event) {
        for answer in recorded(rt, other, Event::Bytes(&request)) {
            recorded(rt, core, Event::Bytes(&answer));
        }
    }
}

/// Both ends are in these states.
fn are(rt: &impl Abort, initiator: &Core, responder: &Core, state: State) {
    assert!(rt; initiator.state() == state && responder.state() == state);
}

/// The capabilities are exchanged, a watchdog is sent and answered, and the initiator goes.
fn from_start_to_end(rt: &(impl AllocGlobal + Abort), initiator: &mut Core, responder: &mut Core) {
    recorded(rt, responder, Event::Start);
    exchanged(rt, initiator, Event::Start, responder);
    are(rt, initiator, responder, State::Open);

    // No message came for a time: a watchdog and its answer.
    exchanged(rt, initiator, Event::Tick, responder);
    are(rt, initiator, responder, State::Open);

    exchanged(rt, initiator, Event::Stop(Cause::Rebooting), responder);
    are(rt, initiator, responder, State::Closed);
}

#[test]
fn two_ends_from_start_to_end(rt: HostRuntime) {
    let ours = first(rt.alloc(), &[auth(4)]).expect(&rt, "memory");
    let theirs = second(rt.alloc(), &[auth(4)]).expect(&rt, "memory");
    let mut initiator = end(&rt, ours, Role::Initiator);
    let mut responder = end(&rt, theirs, Role::Responder);
    from_start_to_end(&rt, &mut initiator, &mut responder);
}
