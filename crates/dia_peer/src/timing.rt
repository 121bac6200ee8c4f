//! When an event `Tick` is due.

ghost use Rattle.std.specs.Prelude.{◌≡◌};
ghost use Rattle.dia_peer.specs.Timers.{IsQuietTime, timer_of};

use crate::event::{Event, State};

/// The least time without a message before a watchdog, in milliseconds: Twinit of RFC 3539 section 3.4.1.
const LEAST_QUIET: u32 = 6000;

/// How far the time is drawn to either side, in milliseconds (RFC 3539 section 3.4.1).
const JITTER: u32 = 2000;

/// What the caller's timer of a connection is to do after a step.
#[derive(Debug, Clone, Copy, PartialEq, Eq)]
pub enum TimerAction {
    /// No `Tick` is due.
    Off,
    /// Begin anew, with the time of `quiet_ms`.
    Quiet,
    /// Begin anew, with the time in which the other end is to answer: 10 to 30 seconds.
    Reply,
    /// Run on.
    Keep,
}

/// What the timer is to do after a step, by the event and the states before and after it.
pub fn timer(before: State, event: Event<'_>, after: State) -> TimerAction
    ensures { result ≡ timer_of before event.entry after }
{
    match (before, after) {
        (_, State::Idle | State::Closed) => TimerAction::Off,
        (State::Open, State::Open) => timer_of_open(event),
        (_, State::Open) => TimerAction::Quiet,
        (State::WaitCea, State::WaitCea)
        | (State::WaitCer, State::WaitCer)
        | (State::WaitDpa, State::WaitDpa) => TimerAction::Keep,
        _ => TimerAction::Reply,
    }
}

/// The same where the connection was open and is.
fn timer_of_open(event: Event<'_>) -> TimerAction
    ensures { result ≡ timer_of State.Open event.entry State.Open }
{
    match event {
        Event::Start | Event::Stop(_) | Event::Lost => TimerAction::Keep,
        Event::Bytes(_) | Event::Tick => TimerAction::Quiet,
    }
}

/// How long a connection may be quiet before a watchdog, in milliseconds: Tw and a jitter of two seconds to either side (RFC
/// 3539 section 3.4.1). `tw` is in milliseconds, and less than 6 seconds count as 6. `drawn` is a random number.
pub fn quiet_ms(tw: u32, drawn: u32) -> u64
    ensures { IsQuietTime tw drawn result }
{
    let quiet = if tw < LEAST_QUIET { LEAST_QUIET } else { tw };
    u64::from(quiet - JITTER) + u64::from(drawn % (2 * JITTER + 1))
}
