//! What numbers of C say of the two ends of a connection, and the numbers of what an end says.

ghost use Rattle.std.specs.Prelude.{◌≡◌, ◌≢◌, ◌<◌, IfSome, None};
ghost use Rattle.dia_c_calls.specs.PeerSteps.{IsEventNumber, IsEventOf, cause_number, state_number, why_number};
ghost use Rattle.dia_peer.specs.Core.{Serves};
ghost use Rattle.dia_c_calls.specs.Peers.{IsManner, IsRole, fault_number, manner_of, role_of};

use dia_peer::{Cause, ConfigFault, Core, Event, Manner, Role, State, Why};

/// The role of a number.
pub fn role_of(role: u32) -> Option<Role>
    ensures some { IfSome result (λ found. (found ≡ role_of role) × IsRole role) }
    ensures none { result ≡ None → ¬ IsRole role }
{
    match role {
        0 => Some(Role::Initiator),
        1 => Some(Role::Responder),
        _ => None,
    }
}

/// The manner of a number.
pub fn manner_of(manner: u32) -> Option<Manner>
    ensures some { IfSome result (λ found. (found ≡ manner_of manner) × IsManner manner) }
    ensures none { result ≡ None → ¬ IsManner manner }
{
    if manner >= 16 {
        return None;
    }
    Some(Manner {
        relays: manner & 1 != 0,
        answers: manner & 2 != 0,
        life: manner & 4 != 0,
        values: manner & 8 != 0,
    })
}

/// Whether messages of an application are for this connection, as a number.
pub fn serves_number(core: &Core, id: u32) -> u32
    ensures yes { Serves core.now.common id → result ≡ 1 }
    ensures no { ¬ Serves core.now.common id → result ≡ 0 }
{
    if core.serves(id) { 1 } else { 0 }
}

/// The number of a fault of a configuration. Memory that was refused is none.
pub fn fault_number(fault: ConfigFault) -> Option<u32>
    ensures some { IfSome result (λ number. (number ≡ fault_number fault) × (fault ≢ ConfigFault.NoMemory)) }
    ensures none { result ≡ None → fault ≡ ConfigFault.NoMemory }
{
    match fault {
        ConfigFault::Host => Some(1),
        ConfigFault::Realm => Some(2),
        ConfigFault::Product => Some(3),
        ConfigFault::Address => Some(4),
        ConfigFault::Application => Some(5),
        ConfigFault::NoMemory => None,
    }
}

/// The event of these numbers, with these bytes.
pub fn event_of(event: u32, bytes: &[u8], cause: u32) -> Option<Event<'_>>
    ensures some { IfSome result (λ found. IsEventOf event bytes.now cause found × IsEventNumber event cause) }
    ensures none { result ≡ None → ¬ IsEventNumber event cause }
{
    match event {
        0 => Some(Event::Start),
        1 => Some(Event::Bytes(bytes)),
        2 => Some(Event::Tick),
        3 => Some(Event::Stop(cause_of(cause)?)),
        4 => Some(Event::Lost),
        _ => None,
    }
}

/// The cause of a number.
fn cause_of(cause: u32) -> Option<Cause>
    ensures some { IfSome result (λ found. (cause ≡ cause_number found) × (cause < 3)) }
    ensures none { result ≡ None → ¬ (cause < 3) }
{
    match cause {
        0 => Some(Cause::Rebooting),
        1 => Some(Cause::Busy),
        2 => Some(Cause::DoNotWant),
        _ => None,
    }
}

/// The number of a state.
pub fn state_number(state: State) -> u32
    ensures { result ≡ state_number state }
{
    match state {
        State::Idle => 0,
        State::WaitCea => 1,
        State::WaitCer => 2,
        State::Open => 3,
        State::WaitDpa => 4,
        State::Closed => 5,
    }
}

/// The number of a reason to close.
pub fn why_number(why: Why) -> u32
    ensures { result ≡ why_number why }
{
    match why {
        Why::Invalid => 0,
        Why::NoCommon => 1,
        Why::Refused => 2,
        Why::Watchdog => 3,
        Why::Timeout => 4,
        Why::PeerStopped => 5,
        Why::Stopped => 6,
    }
}
