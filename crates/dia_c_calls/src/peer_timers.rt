//! What the timer of a connection does, and identifiers for requests of the caller's own.

ghost use Rattle.std.specs.Prelude.{◌⊎◌, ◌≡◌, ◌≢◌, ◌<◌, ◌↔◌, IfSome, IsSome, None};
ghost use Rattle.dia_peer.specs.Timers.{IsQuietTime};
ghost use Rattle.dia_c_calls.specs.Held.{peer_in};
ghost use Rattle.dia_c_calls.specs.PeerSteps.{state_number};
ghost use Rattle.dia_c_calls.specs.PeerTimers.{AreStepNumbers, IsTimerOf, TakesIds, event_number, timer_number};

use crate::handle::{PeerHandle, take_ids_in};
use crate::status::{BAD_ARGUMENT, DONE, IS_CLOSED};
use dia_peer::{Cause, Event, State, TimerAction, quiet_ms, timer};
use std::alloc::Global;

/// Takes the next identifiers of the end, for a request of the caller's own.
pub fn peer_identifiers(alloc: Global, handle: &mut PeerHandle, hop: &mut u32, e2e: &mut u32) -> u32
    ensures ends { (result ≡ DONE) ⊎ (result ≡ IS_CLOSED) }
    ensures done { result ≡ DONE → IfSome (peer_in handle.old.slot.seal.held)
        (λ old. IfSome (peer_in handle.new.slot.seal.held) (TakesIds hop.new e2e.new old)) }
    ensures is_open { result ≡ DONE → IsSome (peer_in handle.new.slot.seal.held) }
    ensures was_open { result ≡ DONE → IsSome (peer_in handle.old.slot.seal.held) }
    ensures closed { result ≡ IS_CLOSED → handle.old.slot.seal.held ≡ None }
    ensures kept { result ≡ IS_CLOSED → handle.new.slot.seal.held ≡ handle.old.slot.seal.held }
    ensures only { result ≡ IS_CLOSED → (hop.new ≡ hop.old) × (e2e.new ≡ e2e.old) }
{
    let Some(mut held) = handle.take(alloc) else {
        return IS_CLOSED;
    };
    let ids = take_ids_in(&mut held);
    handle.put(held);
    *hop = ids.0;
    *e2e = ids.1;
    DONE
}

/// Delivers what the timer of a connection does after a step, by the numbers of the states around it and of the event.
pub fn peer_timer(before: u32, event: u32, after: u32, timer: &mut u32) -> u32
    ensures ends { (result ≡ DONE) ⊎ (result ≡ BAD_ARGUMENT) }
    ensures done { result ≡ DONE → IsTimerOf before event after timer.new }
    ensures bad { (result ≡ BAD_ARGUMENT) ↔ (¬ AreStepNumbers before event after) }
    ensures only { result ≡ BAD_ARGUMENT → timer.new ≡ timer.old }
{
    match timer_between(before, event, after) {
        Some(found) => {
            *timer = found;
            DONE
        }
        None => BAD_ARGUMENT,
    }
}

/// The number of what the timer does.
fn timer_between(before: u32, event: u32, after: u32) -> Option<u32>
    ensures some { IfSome result (λ n. IsTimerOf before event after n × AreStepNumbers before event after) }
    ensures none { result ≡ None → ¬ AreStepNumbers before event after }
{
    let from = state_of(before)?;
    let happened = event_of(event)?;
    let to = state_of(after)?;
    Some(timer_number(timer(from, happened, to)))
}

/// How long a connection may be quiet before a watchdog, in milliseconds.
pub fn peer_quiet_ms(tw: u32, drawn: u32) -> u64
    ensures { IsQuietTime tw drawn result }
{
    quiet_ms(tw, drawn)
}

/// The state of a number.
fn state_of(state: u32) -> Option<State>
    ensures some { IfSome result (λ found. (state ≡ state_number found) × (state < 6)) }
    ensures none { result ≡ None → ¬ (state < 6) }
{
    match state {
        0 => Some(State::Idle),
        1 => Some(State::WaitCea),
        2 => Some(State::WaitCer),
        3 => Some(State::Open),
        4 => Some(State::WaitDpa),
        5 => Some(State::Closed),
        _ => None,
    }
}

/// An event of a number. A timer depends neither on the bytes nor on the cause.
fn event_of(event: u32) -> Option<Event<'static>>
    ensures some { IfSome result (λ found. (event ≡ event_number found) × (event < 5)) }
    ensures none { result ≡ None → ¬ (event < 5) }
{
    match event {
        0 => Some(Event::Start),
        1 => Some(Event::Bytes(&[])),
        2 => Some(Event::Tick),
        3 => Some(Event::Stop(Cause::Rebooting)),
        4 => Some(Event::Lost),
        _ => None,
    }
}

/// The number of what a timer does.
fn timer_number(timer: TimerAction) -> u32
    ensures { result ≡ timer_number timer }
{
    match timer {
        TimerAction::Off => 0,
        TimerAction::Quiet => 1,
        TimerAction::Reply => 2,
        TimerAction::Keep => 3,
    }
}
