//! The applications of a configuration, in order.

ghost use Rattle.std.specs.Prelude.{◌≡◌, ◌==◌, ◌<◌, ◌+◌, ◌^◌, ◌↔◌, IsTrue, IfOk, IfSome, Some};
ghost use Rattle.std.specs.Prelude.{length, map, drop, position, slice_get};
ghost use Rattle.std.specs.List.{AllByRecursion, list_any};
ghost use Rattle.dia_peer.specs.declared.config.App.{App as AnyApp};
ghost use Rattle.dia_peer.specs.Core.{AreDistinct, MayHold, pair_of, the_pair, pairs_of};
ghost use Rattle.dia_peer.specs.Core.{comes_before, same_pair, sorted_pairs};

use crate::codes::RELAY;
use crate::config::{App, Kind, Manner};
use std::alloc::{AllocError, Global};

/// Whether an end of this manner may advertise the applications: the number of relays (RFC 6733 section 2.4) is for those
/// of that manner.
pub(crate) fn may_be_used(apps: &[App], manner: Manner) -> bool
    ensures { IsTrue result ↔ MayHold manner apps.now }
{
    manner.relays || have_no_relay(apps)
}

fn have_no_relay(apps: &[App]) -> bool
    ensures { IsTrue result ↔ AllByRecursion (λ a. a.id < RELAY) apps.now }
{
    for app in apps {
        if is_relay(app.id) {
            return false;
        }
    }
    true
}

/// Each number has four bytes.
pub(crate) fn know_their_numbers(apps: &[App])
    ensures { AllByRecursion (λ a. a.id < 2 ^ 32) apps.now }
{
    for app in apps {
        has_four_bytes(app.id);
    }
}

fn has_four_bytes(id: u32)
    ensures { id < 2 ^ 32 }
{}

pub(crate) fn is_relay(id: u32) -> bool
    ensures below { IsTrue result ↔ ¬ (id < RELAY) }
    ensures same { result ≡ (id == RELAY) }
{
    id == RELAY
}

/// Whether no two applications are of one kind and number. It allocates nothing, and takes at most 1,024 times 1,024 steps,
/// once for each core.
pub(crate) fn are_distinct(apps: &[App]) -> bool
    ensures { IsTrue result ↔ AreDistinct apps.now }
{
    for place in 0..apps.len() {
        if occurs_again(apps, place) {
            return false;
        }
    }
    true
}

/// Whether an application after the one at a place is of its kind and number.
fn occurs_again(apps: &[App], place: usize) -> bool
    requires { place < length apps.now }
    ensures { (app : AnyApp) → slice_get apps.now place ≡ Some app
        → result ≡ list_any (λ other. same_pair (pair_of app) (pair_of other))
        (drop (place + 1) apps.now) }
{
    let app = apps[place];
    is_among((app.kind, app.id), &apps[place + 1..])
}

fn is_among(pair: (Kind, u32), apps: &[App]) -> bool
    ensures { result ≡ list_any (λ other. same_pair (the_pair pair) (pair_of other)) apps.now }
{
    apps.iter()
        .any(|other| is_same(pair, (other.kind, other.id)))
}

/// The applications, Auth first and then by number. Each is put into its place by a scan of those before it.
pub(crate) fn sorted(alloc: Global, apps: &[App]) -> Result<Vec<(Kind, u32)>, AllocError>
    ensures { IfOk result (λ pairs. pairs_of pairs.items ≡ sorted_pairs (map pair_of apps.now)) }
{
    let mut pairs = Vec::new(alloc);
    for app in apps {
        let pair = (app.kind, app.id);
        let place = place_of(pair, &pairs).unwrap_or(pairs.len());
        pairs.insert(place, pair)?;
    }
    Ok(pairs)
}

/// The place of the first application that follows this one in the order.
fn place_of(pair: (Kind, u32), pairs: &[(Kind, u32)]) -> Option<usize>
    ensures place { result ≡ position
        (λ other. comes_before (the_pair pair) (the_pair other)) pairs.now }
    ensures inside { IfSome result (λ place. place < length pairs.now) }
{
    pairs.iter().position(|other| is_before(pair, *other))
}

fn is_same(one: (Kind, u32), other: (Kind, u32)) -> bool
    ensures { result ≡ same_pair (the_pair one) (the_pair other) }
{
    match (one.0, other.0) {
        (Kind::Auth, Kind::Auth) | (Kind::Acct, Kind::Acct) => one.1 == other.1,
        (Kind::Auth, Kind::Acct) | (Kind::Acct, Kind::Auth) => false,
    }
}

/// Whether an application comes before another: Auth before Acct, and then by number.
fn is_before(one: (Kind, u32), other: (Kind, u32)) -> bool
    ensures { result ≡ comes_before (the_pair one) (the_pair other) }
{
    match (one.0, other.0) {
        (Kind::Auth, Kind::Auth) | (Kind::Acct, Kind::Acct) => one.1 < other.1,
        (Kind::Auth, Kind::Acct) => true,
        (Kind::Acct, Kind::Auth) => false,
    }
}
