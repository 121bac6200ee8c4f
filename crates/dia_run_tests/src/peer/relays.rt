//! Two ends of which either, both or none relays.
//!
//! ```text
//! [relays] APPLICATIONS | [relays] APPLICATIONS => STATE APPLICATIONS | STATE APPLICATIONS
//! ```
//!
//! The initiator is on the left. The answer has the state of each end after the exchange of capabilities, and the
//! applications that it then has in common with the other.

use super::connections::{apps_of, common};
use super::{deliver, end, first, relay, second};
use crate::words::same;
use dia_peer::{Config, ConfigFault, Core, Event, Manner, Output, Role};
use dia_rows::{Names, Row, field, without_blanks};
use std::process::Abort;

const ROWS: &str = r"
# Both relay, and read the number so.
relays auth:4294967295 | relays auth:4 acct:3 => Open Auth 4 Acct 3 | Open Auth 4 Acct 3
relays auth:4294967295 | relays acct:4294967295 auth:9 => Open Auth 4294967295 | Open Auth 4294967295
relays auth:4294967295 auth:1 | relays auth:4 => Open Auth 4 | Open Auth 4
relays auth:1 | relays auth:4 auth:4294967295@10415 => Open Auth 1 | Open Auth 1
relays auth:4 acct:3 | relays acct:4 auth:4 => Open Auth 4 | Open Auth 4
relays auth:4 | relays acct:4 => Closed | Closed

# One end relays, and to the other the number is one as others: what each holds is by its own reading.
relays auth:4294967295 | auth:4 => Closed | Closed
auth:4 | relays auth:4294967295 => Closed | Open Auth 4
relays auth:4294967295 auth:4 | auth:4 auth:5 => Open Auth 4 Auth 5 | Open Auth 4
auth:4 auth:5 | relays auth:4294967295 auth:4 => Open Auth 4 | Open Auth 4 Auth 5

# None relays.
auth:4 acct:3 | auth:4 => Open Auth 4 | Open Auth 4
";

#[test]
fn exchanges_capabilities(rt: HostRuntime) {
    let mut names = Names::new(rt.alloc());
    for line in ROWS.lines() {
        if let Some(row) = names.row(line).expect(&rt, line) {
            exchanges(&rt, &row);
        }
    }
}

fn exchanges(rt: &(impl AllocGlobal + Abort), row: &Row<'_>) {
    let mut initiator = end_of(rt, field(row.call, 0), Role::Initiator);
    let mut responder = end_of(rt, field(row.call, 1), Role::Responder);
    deliver(rt, &mut responder, Event::Start);
    for request in deliver(rt, &mut initiator, Event::Start) {
        for answer in taken(rt, &mut responder, &request) {
            taken(rt, &mut initiator, &answer);
        }
    }
    let (ours, theirs) = (recorded(rt, &initiator), recorded(rt, &responder));
    let found = format!(in rt.alloc(); "{ours}|{theirs}").expect(rt, "memory");
    let found = without_blanks(rt.alloc(), found.as_bytes()).expect(rt, "memory");
    let wanted = without_blanks(rt.alloc(), row.wanted.as_bytes()).expect(rt, "memory");
    same(rt, found.as_slice(), wanted.as_slice(), row.line);
}

/// What an end does with what the other has sent.
fn taken(rt: &impl Abort, core: &mut Core, output: &Output) -> Vec<Output> {
    match output {
        Output::Send(bytes) => deliver(rt, core, Event::Bytes(bytes)),
        Output::Close(_) => deliver(rt, core, Event::Lost),
    }
}

/// The end of a text.
fn end_of(rt: &(impl AllocGlobal + Abort), text: &str, role: Role) -> Box<Core> {
    match text.strip_prefix("relays") {
        Some(apps) => relay(rt, config_of(rt, apps, role), role),
        None => end(rt, config_of(rt, text, role), role),
    }
}

fn config_of(rt: &(impl AllocGlobal + Abort), apps: &str, role: Role) -> Config {
    let apps = apps_of(rt, apps);
    let config = match role {
        Role::Initiator => first(rt.alloc(), &apps),
        Role::Responder => second(rt.alloc(), &apps),
    };
    config.expect(rt, "memory")
}

/// The state of an end and its common applications, as text.
fn recorded(rt: &(impl AllocGlobal + Abort), core: &Core) -> String {
    let state = core.state();
    let common = common(rt.alloc(), core).expect(rt, "memory");
    format!(in rt.alloc(); "{state:?} {common}").expect(rt, "memory")
}

#[test]
fn one_manner_allows_the_application(rt: HostRuntime) {
    for relays in [false, true] {
        let config = config_of(&rt, "auth:4294967295", Role::Initiator);
        let manner = Manner {
            relays,
            answers: false,
            life: false,
            values: false,
        };
        let found = Core::with(rt.alloc(), config, Role::Initiator, manner).err();
        let refused = found == Some(ConfigFault::Application);
        assert!(&rt; refused == !relays);
    }
}
