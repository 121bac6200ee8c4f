//! What cores of each manner do, as a list of what happens at each.
//!
//! ```text
//! core MANNER.. | ROLE | APPLICATIONS => STATE
//! start, comes MESSAGE, tick, stop CAUSE, lost, heard => STATE [suspect] [send MESSAGE] [close WHY]
//! ids => HOP E2E, common => APPLICATIONS, values => host TEXT realm TEXT product TEXT result NUMBER cause NUMBER
//! ```
//!
//! `core` makes a new core of the end `host.invalid`: its manners, or `none`. A step is what happens to it, and its answer the
//! state that it then is in and what it did. `ids` takes the next identifiers, and `values` is answered by what the peer said of
//! itself, `-` where it said nothing.

use super::connections::{apps_of, cause_of, common, recorded};
use super::manner_steps::STEPS;
use super::names::NAMES;
use super::{config, deliver};
use crate::words::same;
use dia_peer::{Core, Event, Manner, Role};
use dia_rows::{Names, Row, bytes_of, field, without_blanks, word};
use std::alloc::{AllocError, Global};
use std::process::Abort;

#[test]
fn plays_manners(rt: HostRuntime) {
    let mut names = Names::new(rt.alloc());
    names.learn_all(NAMES).expect(&rt, "names");
    let mut core = core_of(&rt, "core none | Initiator | auth:4");
    for line in STEPS.lines() {
        if let Some(row) = names.row(line).expect(&rt, line) {
            plays(&rt, &names, &mut core, &row);
        }
    }
}

/// Checks a row: a new core, or a step of the core that there is. Blanks count for nothing.
fn plays(rt: &(impl AllocGlobal + Abort), names: &Names, core: &mut Box<Core>, row: &Row<'_>) {
    if word(row.call, 0) == "core" {
        *core = core_of(rt, row.call);
    }
    let found = done(rt, names, core, row.call);
    let found = without_blanks(rt.alloc(), found.as_bytes()).expect(rt, "memory");
    let wanted = names.text(row.wanted).expect(rt, row.line);
    let wanted = without_blanks(rt.alloc(), wanted.as_slice()).expect(rt, "memory");
    same(rt, found.as_slice(), wanted.as_slice(), row.line);
}

/// A new core of a row.
fn core_of(rt: &(impl AllocGlobal + Abort), call: &str) -> Box<Core> {
    let apps = apps_of(rt, field(call, 2));
    let address = [127, 0, 0, 1];
    let mut config = config(rt.alloc(), "host.invalid", "invalid", "p", address, &apps).expect(
        rt, "memory",
    );
    config.hop = 16;
    config.e2e = 32;
    let role = if field(call, 1) == "Initiator" {
        Role::Initiator
    } else {
        Role::Responder
    };
    let core = Core::with(rt.alloc(), config, role, manner_of(field(call, 0))).expect(rt, call);
    Box::new(rt.alloc(), core).ok().expect(rt, "memory")
}

fn manner_of(words: &str) -> Manner {
    Manner {
        relays: has(words, "relays"),
        answers: has(words, "answers"),
        life: has(words, "life"),
        values: has(words, "values"),
    }
}

fn has(words: &str, name: &str) -> bool {
    words.split_ascii_whitespace().any(|word| word == name)
}

/// What a core does at a step, as text.
fn done(rt: &(impl AllocGlobal + Abort), names: &Names, core: &mut Core, call: &str) -> String {
    let (_, message) = call.split_once("comes ").unwrap_or(("", ""));
    let digits = names.text(message).expect(rt, call);
    let bytes = bytes_of(rt.alloc(), digits.as_slice()).expect(rt, call);
    let event = match word(call, 0) {
        "core" => return recorded(rt.alloc(), core, &[]).expect(rt, "memory"),
        "common" => return common(rt.alloc(), core).expect(rt, "memory"),
        "ids" => return ids(rt, core),
        "values" => return values(rt.alloc(), core).expect(rt, "memory"),
        "heard" => {
            core.heard();
            return recorded(rt.alloc(), core, &[]).expect(rt, "memory");
        }
        "start" => Event::Start,
        "tick" => Event::Tick,
        "lost" => Event::Lost,
        "stop" => Event::Stop(cause_of(word(call, 1))),
        _ => Event::Bytes(bytes.as_slice()),
    };
    let outputs = deliver(rt, core, event);
    recorded(rt.alloc(), core, outputs.as_slice()).expect(rt, "memory")
}

/// The next identifiers, as text.
fn ids(rt: &(impl AllocGlobal + Abort), core: &mut Core) -> String {
    let (hop, e2e) = core.take_ids();
    format!(in rt.alloc(); "{hop} {e2e}").expect(rt, "memory")
}

/// What the peer said of itself, as text.
fn values(alloc: Global, core: &Core) -> Result<String, AllocError> {
    let mut text = String::new(alloc);
    push_text(&mut text, "host", core.host())?;
    push_text(&mut text, "realm", core.realm())?;
    push_text(&mut text, "product", core.product())?;
    push_number(&mut text, "result", core.result())?;
    push_number(&mut text, "cause", core.cause())?;
    Ok(text)
}

fn push_text(text: &mut String, name: &str, value: Option<&[u8]>) -> Result<(), AllocError> {
    let value = match value {
        Some(bytes) => str::from_utf8(bytes).unwrap_or("bytes that are no text"),
        None => "-",
    };
    write!(text, "{name} {value} ")
}

fn push_number(text: &mut String, name: &str, value: Option<u32>) -> Result<(), AllocError> {
    match value {
        Some(number) => write!(text, "{name} {number} "),
        None => write!(text, "{name} - "),
    }
}
