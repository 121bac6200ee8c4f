//! What the timer of a connection does after a step, and identifiers for requests of the caller's own.

use super::{auth, end, first};
use dia_peer::{Cause, Event, Output, Role, State, TimerAction, quiet_ms, timer};

/// The state before, the event, the state after, and what the timer does.
const ROWS: [(State, Event<'static>, State, TimerAction); 8] = [
    (
        State::Idle,
        Event::Start,
        State::WaitCer,
        TimerAction::Reply,
    ),
    (
        State::WaitCer,
        Event::Bytes(&[]),
        State::WaitCer,
        TimerAction::Keep,
    ),
    (
        State::WaitCer,
        Event::Bytes(&[]),
        State::Open,
        TimerAction::Quiet,
    ),
    (State::Open, Event::Tick, State::Open, TimerAction::Quiet),
    (State::Open, Event::Start, State::Open, TimerAction::Keep),
    (
        State::Open,
        Event::Stop(Cause::Busy),
        State::WaitDpa,
        TimerAction::Reply,
    ),
    (
        State::WaitDpa,
        Event::Bytes(&[]),
        State::WaitDpa,
        TimerAction::Keep,
    ),
    (State::Open, Event::Lost, State::Closed, TimerAction::Off),
];

#[test]
fn timers(rt: HostRuntime) {
    for (before, event, after, wanted) in ROWS {
        assert!(rt; timer(before, event, after) == wanted);
    }
}

#[test]
fn times_of_quiet_connections(rt: HostRuntime) {
    assert!(rt; quiet_ms(30_000, 0) == 28_000);
    assert!(rt; quiet_ms(30_000, 4000) == 32_000);
    assert!(rt; quiet_ms(30_000, 4001) == 28_000);
    assert!(rt; quiet_ms(0, 2000) == 6000);
    assert!(rt; quiet_ms(u32::MAX, 4000) == 4_294_969_295);
}

/// The identifiers of a message (RFC 6733 section 3).
fn ids_of(output: &Output) -> Option<(u8, u8)> {
    match output {
        Output::Send(bytes) => Some((*bytes.get(15)?, *bytes.get(19)?)),
        Output::Close(_) => None,
    }
}

#[test]
fn identifiers_are_taken_once(rt: HostRuntime) {
    let ours = first(rt.alloc(), &[auth(4)]).expect(&rt, "memory");
    let mut core = end(&rt, ours, Role::Initiator);
    assert!(rt; core.take_ids() == (1, 1));
    assert!(rt; core.take_ids() == (2, 2));
    let outputs = core.step(Event::Start).expect(&rt, "memory");
    assert!(rt; outputs.first().and_then(ids_of) == Some((3, 3)));
    assert!(rt; core.take_ids() == (4, 4));
}
