//! A connection of two ends, from its start to its end.

use crate::peer::{auth, deliver, first, second};
use dia_peer::{App, Config, ConfigFault, Core, Event, Kind, Output, Role, State, Why};
use std::alloc::{AllocError, Global};
use std::process::Abort;

/// The CER of the initiator and the CEA of the responder.
const CER: &str = "\
0100006c80000101000000000000000100000001000001084000000b612e6200000001284000000962000000\
000001014000000e00017f00000100000000010a4000000c000000000000010d0000000970000000\
000001024000000c00000001000001024000000c00000004";

const CEA: &str = "\
01000078000001010000000000000001000000010000010c4000000c000007d1000001084000000b632e6400\
000001284000000964000000000001014000000e00017f00000200000000010a4000000c00000000\
0000010d0000000971000000000001024000000c00000004000001034000000c00000003";

/// A watchdog request of the initiator, the responder's answer, and the responder's own request.
const REQUEST: [u8; 44] = [
    1, 0, 0, 44, 0x80, 0, 1, 24, 0, 0, 0, 0, 0, 0, 0, 1, 0, 0, 0, 2, 0, 0, 1, 8, 0x40, 0, 0, 11,
    b'a', b'.', b'b', 0, 0, 0, 1, 40, 0x40, 0, 0, 9, b'b', 0, 0, 0,
];

const DWA: &str = "\
01000038000001180000000000000001000000020000010c4000000c000007d1\
000001084000000b632e6400000001284000000964000000";

const OWN_DWR: &str = "\
0100002c80000118000000000000000100000001000001084000000b632e6400000001284000000964000000";

/// Whether two digits are a byte.
fn is_byte(pair: &[u8], byte: u8) -> bool {
    match str::from_utf8(pair) {
        Ok(pair) => u8::from_str_radix(pair, 16) == Ok(byte),
        Err(_) => false,
    }
}

/// Whether digits are bytes.
fn are_bytes(digits: &str, bytes: &[u8]) -> bool {
    let mut pairs = digits.as_bytes().chunks(2);
    for byte in bytes {
        match pairs.next() {
            Some(pair) if is_byte(pair, *byte) => {}
            _ => return false,
        }
    }
    pairs.next().is_none()
}

/// An end is in a state, and sends one message, with these digits, which it answers.
fn sends(
    rt: &impl Abort,
    core: &mut Core,
    event: Event<'_>,
    digits: &str,
    state: State,
) -> Vec<Output> {
    let outputs = deliver(rt, core, event);
    assert!(rt; sent(&outputs).is_some_and(|bytes| are_bytes(digits, bytes)));
    assert!(rt; core.state() == state);
    outputs
}

/// The message that is sent, where nothing else is done.
fn sent(outputs: &[Output]) -> Option<&[u8]> {
    match outputs {
        [Output::Send(bytes)] => Some(bytes.as_slice()),
        _ => None,
    }
}

/// An end is in a state, and does nothing.
fn rests(rt: &impl Abort, core: &mut Core, event: Event<'_>, state: State) {
    assert!(rt; deliver(rt, core, event).is_empty());
    assert!(rt; core.state() == state);
}

/// The capabilities are exchanged.
fn opens(rt: &impl Abort, initiator: &mut Core, responder: &mut Core) {
    let cer = sends(rt, initiator, Event::Start, CER, State::WaitCea);
    rests(rt, responder, Event::Start, State::WaitCer);
    let cer = sent(&cer).unwrap_or(&[]);
    let cea = sends(rt, responder, Event::Bytes(cer), CEA, State::Open);
    let cea = sent(&cea).unwrap_or(&[]);
    rests(rt, initiator, Event::Bytes(cea), State::Open);
    let common = [(Kind::Auth, 4)];
    assert!(rt; initiator.common() == common.as_slice() && responder.common() == common.as_slice());
}

/// The responder answers a watchdog, and closes where its own has no answer.
fn watches(rt: &impl Abort, responder: &mut Core) {
    sends(rt, responder, Event::Bytes(&REQUEST), DWA, State::Open);
    sends(rt, responder, Event::Tick, OWN_DWR, State::Open);
    let outputs = deliver(rt, responder, Event::Tick);
    assert!(rt; matches!(outputs.as_slice(), [Output::Close(Why::Watchdog)]));
    assert!(rt; responder.state() == State::Closed);
}

/// An end, unless memory is refused for it.
fn end(
    rt: &(impl AllocGlobal + Abort),
    config: Result<Config, AllocError>,
    role: Role,
) -> Option<Core> {
    match Core::new(rt.alloc(), config.ok()?, role) {
        Ok(core) => Some(core),
        Err(fault) => {
            assert!(rt; fault == ConfigFault::NoMemory);
            None
        }
    }
}

fn initiator(alloc: Global) -> Result<Config, AllocError> {
    first(alloc, &[auth(1), auth(4)])
}

fn responder(alloc: Global) -> Result<Config, AllocError> {
    let accounting = App {
        kind: Kind::Acct,
        id: 3,
        vendor: None,
    };
    second(alloc, &[auth(4), accounting])
}

#[test]
fn a_refused_step_changes_nothing(rt: HostRuntime) {
    let Some(mut initiator) = end(&rt, initiator(rt.alloc()), Role::Initiator) else {
        return;
    };
    let Some(mut responder) = end(&rt, responder(rt.alloc()), Role::Responder) else {
        return;
    };
    opens(&rt, &mut initiator, &mut responder);
    watches(&rt, &mut responder);
}
