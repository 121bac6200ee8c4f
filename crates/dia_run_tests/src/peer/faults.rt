//! Configurations, and the first of the faults for which one is refused.
//!
//! ```text
//! HOST | REALM | PRODUCT | ADDRESSES | APPLICATIONS => good, or the fault
//! ```
//!
//! ADDRESSES is how many there are. In place of applications `FROM..TO` are those for authentication with these
//! numbers.

use super::auth;
use super::connections::apps_of;
use crate::words::{number_of, same};
use dia_peer::{App, Config, ConfigFault, Core, Ip, Role};
use dia_rows::{Names, Row, field};
use std::process::Abort;

const ROWS: &str = r"
let N = x

# Names: at most 255 bytes.
a.b | b | | 1 | auth:1 => good
a.b | b | $N*255 | 1 | auth:1 => good
| | $N*256 | 1 | auth:1 => Host
a b | b | | 1 | auth:1 => Host
é | b | | 1 | auth:1 => Host
a.b | | $N*256 | 1 | auth:1 => Realm
a.b | b | $N*256 | 1 | auth:1 => Product
$N*255 | $N*255 | $N*255 | 1 | auth:1 => good
$N*256 | $N*255 | | 1 | auth:1 => Host
$N*255 | $N*256 | | 1 | auth:1 => Realm

# Counts: at most 64 addresses and 1,024 applications, and one of each at least.
a.b | b | p | 64 | 0..1024 => good
a.b | b | p | 0 | 0..0 => Address
a.b | b | p | 65 | 0..1 => Address
a.b | b | p | 1 | 0..0 => Application
a.b | b | p | 1 | 0..1025 => Application

# The application of relays, and one that is there twice.
a.b | b | p | 1 | auth:4 acct:4 => good
a.b | b | p | 1 | auth:4 auth:4@10415 => Application
a.b | b | p | 1 | auth:4 auth:4294967295 => Application
";

#[test]
fn judges_configurations(rt: HostRuntime) {
    let mut names = Names::new(rt.alloc());
    for line in ROWS.lines() {
        if let Some(row) = names.row(line).expect(&rt, line) {
            judges(&rt, &names, &row);
        }
    }
}

/// Checks why the configuration of a row is refused, where it is.
fn judges(rt: &(impl AllocGlobal + Abort), names: &Names, row: &Row<'_>) {
    let config = config_of(rt, names, row.call);
    let found = match Core::new(rt.alloc(), config, Role::Initiator).err() {
        Some(fault) => format!(in rt.alloc(); "{fault:?}").expect(rt, "memory"),
        None => String::from_str(rt.alloc(), "good").expect(rt, "memory"),
    };
    same(rt, found.as_bytes(), row.wanted.as_bytes(), row.line);
}

/// The configuration of a row.
fn config_of(rt: &(impl AllocGlobal + Abort), names: &Names, call: &str) -> Config {
    Config {
        host: name_of(rt, names, field(call, 0)),
        realm: name_of(rt, names, field(call, 1)),
        product: name_of(rt, names, field(call, 2)),
        addresses: addresses(rt, field(call, 3)),
        apps: apps(rt, field(call, 4)),
        vendor: 0,
        state_id: None,
        hop: 1,
        e2e: 1,
    }
}

fn name_of(rt: &(impl AllocGlobal + Abort), names: &Names, text: &str) -> String {
    let bytes = names.text(text).expect(rt, text);
    let name = str::from_utf8(bytes.as_slice()).expect(rt, text);
    String::from_str(rt.alloc(), name).expect(rt, "memory")
}

/// So many addresses.
fn addresses(rt: &(impl AllocGlobal + Abort), count: &str) -> Vec<Ip> {
    let count = number_of(rt, count) as usize;
    vec![in rt.alloc(); Ip::V4([127, 0, 0, 1]); count].expect(rt, "memory")
}

/// The applications of a text.
fn apps(rt: &(impl AllocGlobal + Abort), text: &str) -> Vec<App> {
    let Some((from, to)) = text.split_once("..") else {
        return apps_of(rt, text);
    };
    let mut apps = Vec::new(rt.alloc());
    for id in number_of(rt, from)..number_of(rt, to) {
        apps.push(auth(id)).ok().expect(rt, "memory");
    }
    apps
}

/// The text of each fault.
const RECORDED: [(ConfigFault, &str); 6] = [
    (
        ConfigFault::Host,
        "the host is no DiameterIdentity of at most 255 bytes",
    ),
    (
        ConfigFault::Realm,
        "the realm is no DiameterIdentity of at most 255 bytes",
    ),
    (
        ConfigFault::Product,
        "the product's name is longer than 255 bytes",
    ),
    (
        ConfigFault::Address,
        "there are no addresses, or more than 64",
    ),
    (
        ConfigFault::Application,
        "there are no applications, more than 1024, the relay's, or one twice",
    ),
    (ConfigFault::NoMemory, "out of memory"),
];

#[test]
fn records_people_of_a_fault(rt: HostRuntime) {
    for (fault, words) in RECORDED.iter() {
        let text = fault.to_string(rt.alloc()).expect(&rt, words);
        same(&rt, text.as_bytes(), words.as_bytes(), words);
    }
}
