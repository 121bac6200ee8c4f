//! Worked connections, each as a list of what happens at an end, and what the end then does.
//!
//! ```text
//! ends HOP [STATE] | APPLICATIONS | APPLICATIONS => STATE STATE
//! END start, END comes MESSAGE, END tick, END stop CAUSE, END lost => STATE [send MESSAGE] [close WHY]
//! END common => APPLICATIONS, END serves NUMBER => true, or false
//! ```
//!
//! `ends` makes a new initiator, `i`, and a new responder, `r`: the Hop-by-Hop Identifier of the initiator's first request, the
//! Origin-State-Id of both where there is one, and the applications of each, such as `auth:4`; `relays` in place of `ends`
//! makes two ends that relay. A step is what happens at an
//! end, and its answer the state that the end then is in and what it did. `common` is answered by the applications that an
//! end shares with the other.

use super::names::NAMES;
use super::steps::STEPS;
use super::{Ends, deliver, end, first, relay, second};
use crate::words::{number_of, same};
use dia_peer::{App, Cause, Core, Event, Kind, Output, Role};
use dia_rows::{Names, Row, bytes_of, field, without_blanks, word};
use std::alloc::{AllocError, Global};
use std::process::Abort;

#[test]
fn plays_connections(rt: HostRuntime) {
    let mut names = Names::new(rt.alloc());
    names.learn_all(NAMES).expect(&rt, "names");
    let mut ends = ends_of(&rt, "ends 1 | auth:1 | auth:1");
    for line in STEPS.lines() {
        if let Some(row) = names.row(line).expect(&rt, line) {
            plays(&rt, &names, &mut ends, &row);
        }
    }
}

/// Checks a row: new ends, or a step of the ends that there are. Blanks count for nothing.
fn plays(rt: &(impl AllocGlobal + Abort), names: &Names, ends: &mut Ends, row: &Row<'_>) {
    let found = match word(row.call, 0) {
        "ends" | "relays" => begins(rt, ends, row.call),
        "i" => done(rt, names, &mut ends.initiator, row.call),
        _ => done(rt, names, &mut ends.responder, row.call),
    };
    let found = without_blanks(rt.alloc(), found.as_bytes()).expect(rt, "memory");
    let wanted = names.text(row.wanted).expect(rt, row.line);
    let wanted = without_blanks(rt.alloc(), wanted.as_slice()).expect(rt, "memory");
    same(rt, found.as_slice(), wanted.as_slice(), row.line);
}

/// New ends, and their states.
fn begins(rt: &(impl AllocGlobal + Abort), ends: &mut Ends, call: &str) -> String {
    *ends = ends_of(rt, call);
    let (a, b) = (ends.initiator.state(), ends.responder.state());
    format!(in rt.alloc(); "{a:?} {b:?}").expect(rt, "memory")
}

/// New ends with the numbers and the applications of a row.
fn ends_of(rt: &(impl AllocGlobal + Abort), call: &str) -> Ends {
    let numbers = field(call, 0);
    let state = match word(numbers, 2) {
        "" => None,
        number => Some(number_of(rt, number)),
    };
    let apps = apps_of(rt, field(call, 1));
    let mut ours = first(rt.alloc(), apps.as_slice()).expect(rt, "memory");
    ours.hop = number_of(rt, word(numbers, 1));
    ours.state_id = state;
    let apps = apps_of(rt, field(call, 2));
    let mut theirs = second(rt.alloc(), apps.as_slice()).expect(rt, "memory");
    theirs.state_id = state;
    if word(numbers, 0) == "relays" {
        return Ends {
            initiator: relay(rt, ours, Role::Initiator),
            responder: relay(rt, theirs, Role::Responder),
        };
    }
    Ends {
        initiator: end(rt, ours, Role::Initiator),
        responder: end(rt, theirs, Role::Responder),
    }
}

/// Applications, each as its kind and its number.
pub(super) fn apps_of(rt: &(impl AllocGlobal + Abort), text: &str) -> Vec<App> {
    let mut apps = Vec::new(rt.alloc());
    for word in text.split_ascii_whitespace() {
        apps.push(app_of(rt, word)).ok().expect(rt, "memory");
    }
    apps
}

/// An application such as `auth:4`, or `auth:4@10415` for one of a vendor.
fn app_of(rt: &impl Abort, word: &str) -> App {
    let (kind, rest) = word.split_once(':').expect(rt, word);
    let kind = if kind == "auth" {
        Kind::Auth
    } else {
        Kind::Acct
    };
    match rest.split_once('@') {
        Some((id, vendor)) => App {
            kind,
            id: number_of(rt, id),
            vendor: Some(number_of(rt, vendor)),
        },
        None => App {
            kind,
            id: number_of(rt, rest),
            vendor: None,
        },
    }
}

/// What an end does at a step, as text.
fn done(rt: &(impl AllocGlobal + Abort), names: &Names, core: &mut Core, call: &str) -> String {
    let (_, message) = call.split_once(" comes ").unwrap_or(("", ""));
    let digits = names.text(message).expect(rt, call);
    let bytes = bytes_of(rt.alloc(), digits.as_slice()).expect(rt, call);
    let event = match word(call, 1) {
        "common" => return common(rt.alloc(), core).expect(rt, "memory"),
        "serves" => return serves(rt, core, number_of(rt, word(call, 2))),
        "start" => Event::Start,
        "tick" => Event::Tick,
        "lost" => Event::Lost,
        "stop" => Event::Stop(cause_of(word(call, 2))),
        _ => Event::Bytes(bytes.as_slice()),
    };
    let outputs = deliver(rt, core, event);
    recorded(rt.alloc(), core, outputs.as_slice()).expect(rt, "memory")
}

pub(super) fn cause_of(word: &str) -> Cause {
    match word {
        "Rebooting" => Cause::Rebooting,
        "Busy" => Cause::Busy,
        _ => Cause::DoNotWant,
    }
}

/// Whether messages of an application are for an end, as text.
fn serves(rt: &(impl AllocGlobal + Abort), core: &Core, id: u32) -> String {
    let found = core.serves(id);
    format!(in rt.alloc(); "{found}").expect(rt, "memory")
}

/// The applications that an end shares with the other, as text.
pub(super) fn common(alloc: Global, core: &Core) -> Result<String, AllocError> {
    let mut text = String::new(alloc);
    for (kind, id) in core.common() {
        write!(text, "{kind:?} {id} ")?;
    }
    Ok(text)
}

/// The state of an end after an event, and what it did, as text.
pub(super) fn recorded(
    alloc: Global,
    core: &Core,
    outputs: &[Output],
) -> Result<String, AllocError> {
    let state = core.state();
    let mut text = format!(in alloc; "{state:?}")?;
    if core.suspect() {
        text.push_str(" suspect")?;
    }
    for output in outputs {
        match output {
            Output::Send(bytes) => push_sent(&mut text, bytes.as_slice())?,
            Output::Close(why) => write!(text, " close {why:?}")?,
        }
    }
    Ok(text)
}

fn push_sent(text: &mut String, bytes: &[u8]) -> Result<(), AllocError> {
    text.push_str(" send ")?;
    for byte in bytes {
        write!(text, "{byte:02x}")?;
    }
    Ok(())
}
