//! Two ends that send messages to each other: the messages byte for byte, and schedules that a generator draws.

use dia_peer::{App, Config, Core, Event, Ip, Kind, Manner, Output, Role};
use std::alloc::{AllocError, Global};
use std::process::Abort;

mod connections;
mod drawing;
mod example;
mod faults;
mod manner_steps;
mod manners;
mod names;
mod relays;
mod schedules;
mod steps;
mod timing;

pub const fn auth(id: u32) -> App {
    App {
        kind: Kind::Auth,
        id,
        vendor: None,
    }
}

/// The two ends of a connection.
#[derive(Drop)]
struct Ends {
    initiator: Box<Core>,
    responder: Box<Core>,
}

/// An end of this configuration.
fn end(rt: &(impl AllocGlobal + Abort), config: Config, role: Role) -> Box<Core> {
    let core = Core::new(rt.alloc(), config, role).expect(rt, "an end");
    Box::new(rt.alloc(), core).ok().expect(rt, "memory")
}

/// An end that relays.
fn relay(rt: &(impl AllocGlobal + Abort), config: Config, role: Role) -> Box<Core> {
    let manner = Manner {
        relays: true,
        answers: false,
        life: false,
        values: false,
    };
    let core = Core::with(rt.alloc(), config, role, manner).expect(rt, "an end");
    Box::new(rt.alloc(), core).ok().expect(rt, "memory")
}

/// What a core does at an event. Where memory is refused, nothing has changed, and the event is given again.
pub fn deliver(rt: &impl Abort, core: &mut Core, event: Event<'_>) -> Vec<Output> {
    let before = (
        core.state(),
        core.common().len(),
        core.common().first().copied(),
    );
    if let Ok(outputs) = core.step(event) {
        return outputs;
    }
    let now = (
        core.state(),
        core.common().len(),
        core.common().first().copied(),
    );
    assert!(rt; now == before);
    core.step(event).expect(rt, "memory")
}

/// The end `a.b`, which sends the CER.
pub fn first(alloc: Global, apps: &[App]) -> Result<Config, AllocError> {
    config(alloc, "a.b", "b", "p", [127, 0, 0, 1], apps)
}

/// The end `c.d`, which answers it.
pub fn second(alloc: Global, apps: &[App]) -> Result<Config, AllocError> {
    config(alloc, "c.d", "d", "q", [127, 0, 0, 2], apps)
}

fn config(
    alloc: Global,
    host: &str,
    realm: &str,
    product: &str,
    address: [u8; 4],
    apps: &[App],
) -> Result<Config, AllocError> {
    Ok(Config {
        host: String::from_str(alloc, host)?,
        realm: String::from_str(alloc, realm)?,
        product: String::from_str(alloc, product)?,
        addresses: vec![in alloc; Ip::V4(address)]?,
        vendor: 0,
        apps: Vec::from_slice(alloc, apps)?,
        state_id: None,
        hop: 1,
        e2e: 1,
    })
}
