//! The configuration of one end of a connection, out of the arguments of a program in C.

ghost use Rattle.std.specs.Prelude.{◌≡◌, ◌<◌, ◌≤◌, IfOk, IfSome, IsSome, None, length, map, slice_get};
ghost use Rattle.dia_peer.specs.Core.{pairs_of, plain_config};
ghost use Rattle.dia_c_calls.specs.Peers.{app_of, config_of, if_there, ip_of, kind_number, kind_of, recorded_pair};

use dia_peer::{App, Config, Ip, Kind};
use std::alloc::{AllocError, Global};

/// An IP address, in network byte order.
#[repr(C)]
#[derive(Clone, Copy)]
pub struct PeerAddress {
    /// 0: IPv4, the first four bytes. Else: IPv6.
    pub is_v6: u32,
    pub bytes: [u8; 16],
}

/// An application that an end advertises.
#[repr(C)]
#[derive(Clone, Copy)]
pub struct PeerApp {
    /// 0: for authentication and authorization. Else: for accounting.
    pub is_acct: u32,
    /// The Application-ID.
    pub id: u32,
    /// 0: the application is in an AVP of its own. Else: in a Vendor-Specific-Application-Id with this Vendor-Id.
    pub has_vendor: u32,
    pub vendor: u32,
}

/// The numbers of a configuration.
#[repr(C)]
#[derive(Clone, Copy)]
pub struct PeerNumbers {
    /// Vendor-Id.
    pub vendor: u32,
    /// 0: Origin-State-Id is not sent.
    pub has_state_id: u32,
    pub state_id: u32,
    /// The Hop-by-Hop Identifier of the first request.
    pub hop: u32,
    /// The End-to-End Identifier of the first request.
    pub e2e: u32,
}

/// The three names of a configuration.
#[derive(Clone, Copy)]
pub struct Names<'a> {
    pub host: &'a str,
    pub realm: &'a str,
    pub product: &'a str,
}

/// The configuration of these names, addresses, applications and numbers.
pub fn config_of(
    alloc: Global,
    names: Names<'_>,
    addresses: &[PeerAddress],
    apps: &[PeerApp],
    numbers: &PeerNumbers,
) -> Result<Config, AllocError>
    ensures { IfOk result (λ config. plain_config config ≡ config_of names.entry.host.now names.entry.realm.now
        names.entry.product.now addresses.now apps.now numbers.now) }
{
    Ok(Config {
        host: String::from_str(alloc, names.host)?,
        realm: String::from_str(alloc, names.realm)?,
        product: String::from_str(alloc, names.product)?,
        addresses: addresses_of(alloc, addresses)?,
        vendor: numbers.vendor,
        apps: apps_of(alloc, apps)?,
        state_id: if_there(numbers.has_state_id, numbers.state_id),
        hop: numbers.hop,
        e2e: numbers.e2e,
    })
}

fn addresses_of(alloc: Global, given: &[PeerAddress]) -> Result<Vec<Ip>, AllocError>
    ensures { IfOk result (λ addresses. addresses.items ≡ map ip_of given.now) }
{
    let mut addresses = Vec::new(alloc);
    for address in given {
        addresses.push(ip_of(address))?;
    }
    Ok(addresses)
}

fn apps_of(alloc: Global, given: &[PeerApp]) -> Result<Vec<App>, AllocError>
    ensures { IfOk result (λ apps. apps.items ≡ map app_of given.now) }
{
    let mut apps = Vec::new(alloc);
    for app in given {
        apps.push(app_of(app))?;
    }
    Ok(apps)
}

fn ip_of(address: &PeerAddress) -> Ip
    ensures { result ≡ ip_of address.now }
{
    if address.is_v6 != 0 {
        return Ip::V6(address.bytes);
    }
    let mut bytes = [0; 4];
    bytes.copy_from_slice(&address.bytes[..4]);
    Ip::V4(bytes)
}

fn app_of(app: &PeerApp) -> App
    ensures { result ≡ app_of app.now }
{
    App {
        kind: kind_of(app.is_acct),
        id: app.id,
        vendor: if_there(app.has_vendor, app.vendor),
    }
}

fn kind_of(is_acct: u32) -> Kind
    ensures { result ≡ kind_of is_acct }
{
    if is_acct == 0 { Kind::Auth } else { Kind::Acct }
}

fn if_there(has_it: u32, number: u32) -> Option<u32>
    ensures { result ≡ if_there has_it number }
{
    if has_it == 0 { None } else { Some(number) }
}

/// The application at a place of those that both ends advertise.
#[tactic(auto, using(crate::proofs::Places::mapped_at))]
pub fn common_at(common: &[(Kind, u32)], index: usize) -> Option<PeerApp>
    ensures some { IfSome result (λ app. IfSome (slice_get (pairs_of common.now) index) (λ p. app ≡ recorded_pair p)) }
    ensures within { IsSome result → index < length common.now }
    ensures none { result ≡ None → length common.now ≤ index }
{
    let (kind, id) = *common.get(index)?;
    Some(PeerApp {
        is_acct: kind_number(kind),
        id,
        has_vendor: 0,
        vendor: 0,
    })
}

fn kind_number(kind: Kind) -> u32
    ensures { result ≡ kind_number kind }
{
    match kind {
        Kind::Auth => 0,
        Kind::Acct => 1,
    }
}
