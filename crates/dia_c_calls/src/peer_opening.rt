//! One end of a connection is opened.

ghost use Rattle.std.specs.Prelude.{◌⊎◌, ◌≡◌, ◌≢◌, IfErr, IfOk, IfSome, IsSome, None, Some};
ghost use Rattle.dia_peer.specs.Core.{plain_config};
ghost use Rattle.dia_peer.specs.Machine.{IsRefusedAs};
ghost use Rattle.dia_c_calls.specs.Held.{MayBePeer, peer_in};
ghost use Rattle.dia_c_calls.specs.Peers.{AreUnderstood, HasFault, IsFaultOf, IsManner, IsRole};
ghost use Rattle.dia_c_calls.specs.Peers.{IsBegun, IsBegunAs, config_of, configured};
ghost use Rattle.dia_c_calls.specs.PeerSteps.{plain_end};

use crate::handle::PeerHandle;
use crate::held::Held;
use crate::peer::Peer;
use crate::peer_config::{Names, PeerAddress, PeerApp, PeerNumbers, config_of};
use crate::peer_numbers::{fault_number, manner_of, role_of};
use crate::peer_options::{OPTIONS_SIZE, PeerOptions, RESERVED};
use crate::status::{BAD_ARGUMENT, DONE, IS_OPEN, NO_MEMORY, REFUSED};
use dia_peer::{Config, ConfigFault, Manner, Role};
use std::alloc::{AllocError, Global};

/// Opens one end of a connection.
pub fn peer_open(
    alloc: Global,
    role: u32,
    host: &[u8],
    realm: &[u8],
    product: &[u8],
    addresses: &[PeerAddress],
    apps: &[PeerApp],
    numbers: &PeerNumbers,
    handle: &mut PeerHandle,
    fault: &mut u32,
) -> u32
    ensures ends { (result ≡ DONE) ⊎ (result ≡ REFUSED) ⊎ (result ≡ NO_MEMORY) ⊎ (result ≡ IS_OPEN) ⊎ (result ≡ BAD_ARGUMENT) }
    ensures done { result ≡ DONE → IfSome (peer_in handle.new.slot.seal.held)
        (IsBegun role 0 (config_of host.now realm.now product.now addresses.now apps.now numbers.now)) }
    ensures is_open { result ≡ DONE → IsSome (peer_in handle.new.slot.seal.held) }
    ensures kept { result ≢ DONE → handle.new.slot.seal.held ≡ handle.old.slot.seal.held }
    ensures refused { result ≡ REFUSED
        → HasFault 0 (config_of host.now realm.now product.now addresses.now apps.now numbers.now) fault.new }
    ensures only { result ≢ REFUSED → fault.new ≡ fault.old }
    ensures was_closed { result ≢ IS_OPEN → result ≢ BAD_ARGUMENT → handle.old.slot.seal.held ≡ None }
    ensures was_open { result ≡ IS_OPEN → IsSome handle.old.slot.seal.held }
    ensures bad { result ≡ BAD_ARGUMENT → ¬ IsRole role }
    ensures good { result ≢ BAD_ARGUMENT → IsRole role }
{
    peer_open_as(
        alloc, role, 0, host, realm, product, addresses, apps, numbers, handle, fault,
    )
}

/// Opens one end of a connection that is of manners, each a bit: 1 relays, 2 answers, 4 life, 8 values; 0 is none.
pub fn peer_open_as(
    alloc: Global,
    role: u32,
    manner: u32,
    host: &[u8],
    realm: &[u8],
    product: &[u8],
    addresses: &[PeerAddress],
    apps: &[PeerApp],
    numbers: &PeerNumbers,
    handle: &mut PeerHandle,
    fault: &mut u32,
) -> u32
    ensures ends { (result ≡ DONE) ⊎ (result ≡ REFUSED) ⊎ (result ≡ NO_MEMORY) ⊎ (result ≡ IS_OPEN) ⊎ (result ≡ BAD_ARGUMENT) }
    ensures done { result ≡ DONE → IfSome (peer_in handle.new.slot.seal.held)
        (IsBegun role manner (config_of host.now realm.now product.now addresses.now apps.now numbers.now)) }
    ensures is_open { result ≡ DONE → IsSome (peer_in handle.new.slot.seal.held) }
    ensures kept { result ≢ DONE → handle.new.slot.seal.held ≡ handle.old.slot.seal.held }
    ensures refused { result ≡ REFUSED
        → HasFault manner (config_of host.now realm.now product.now addresses.now apps.now numbers.now) fault.new }
    ensures only { result ≢ REFUSED → fault.new ≡ fault.old }
    ensures was_closed { result ≢ IS_OPEN → result ≢ BAD_ARGUMENT → handle.old.slot.seal.held ≡ None }
    ensures was_open { result ≡ IS_OPEN → IsSome handle.old.slot.seal.held }
    ensures bad { result ≡ BAD_ARGUMENT → ¬ (IsRole role × IsManner manner) }
    ensures good { result ≢ BAD_ARGUMENT → IsRole role × IsManner manner }
{
    let options = PeerOptions {
        size: OPTIONS_SIZE,
        role,
        manner,
        host,
        realm,
        product,
        addresses,
        apps,
        numbers: *numbers,
        reserved: [0; RESERVED],
    };
    peer_open_with(alloc, &options, handle, fault)
}

/// Opens one end of a connection with options.
pub fn peer_open_with(
    alloc: Global,
    options: &PeerOptions<'_>,
    handle: &mut PeerHandle,
    fault: &mut u32,
) -> u32
    ensures ends { (result ≡ DONE) ⊎ (result ≡ REFUSED) ⊎ (result ≡ NO_MEMORY) ⊎ (result ≡ IS_OPEN) ⊎ (result ≡ BAD_ARGUMENT) }
    ensures done { result ≡ DONE → IfSome (peer_in handle.new.slot.seal.held)
        (IsBegun options.now.role options.now.manner (configured options.now)) }
    ensures is_open { result ≡ DONE → IsSome (peer_in handle.new.slot.seal.held) }
    ensures kept { result ≢ DONE → handle.new.slot.seal.held ≡ handle.old.slot.seal.held }
    ensures refused { result ≡ REFUSED → HasFault options.now.manner (configured options.now) fault.new }
    ensures only { result ≢ REFUSED → fault.new ≡ fault.old }
    ensures was_closed { result ≢ IS_OPEN → result ≢ BAD_ARGUMENT → handle.old.slot.seal.held ≡ None }
    ensures was_open { result ≡ IS_OPEN → IsSome handle.old.slot.seal.held }
    ensures bad { result ≡ BAD_ARGUMENT
        → ¬ (AreUnderstood options.now × IsRole options.now.role × IsManner options.now.manner) }
    ensures good { result ≢ BAD_ARGUMENT
        → AreUnderstood options.now × IsRole options.now.role × IsManner options.now.manner }
{
    if !options.are_understood() {
        return BAD_ARGUMENT;
    }
    let Some(role) = role_of(options.role) else {
        return BAD_ARGUMENT;
    };
    let Some(manner) = manner_of(options.manner) else {
        return BAD_ARGUMENT;
    };
    if handle.is_open() {
        return IS_OPEN;
    }
    match begun(alloc, options, role, manner) {
        Ok(held) => {
            handle.put(held);
            DONE
        }
        Err(found) => match fault_number(found) {
            Some(number) => {
                *fault = number;
                REFUSED
            }
            None => NO_MEMORY,
        },
    }
}

/// An end with these options.
fn begun(
    alloc: Global,
    options: &PeerOptions<'_>,
    role: Role,
    manner: Manner,
) -> Result<Box<Held>, ConfigFault>
    ensures ok { IfOk result (λ held. IfSome (peer_in (Some held.value)) (IsBegunAs role manner (configured options.now))) }
    ensures is_peer { IfOk result (λ held. (∥ MayBePeer (Some held.value) ∥₁) × IsSome (peer_in (Some held.value))) }
    ensures err { IfErr result (λ found. found ≢ ConfigFault.NoMemory → IsFaultOf manner (configured options.now) found) }
{
    let Ok(host) = str::from_utf8(options.host) else {
        return Err(ConfigFault::Host);
    };
    let Ok(realm) = str::from_utf8(options.realm) else {
        return Err(ConfigFault::Realm);
    };
    let Ok(product) = str::from_utf8(options.product) else {
        return Err(ConfigFault::Product);
    };
    let names = Names {
        host,
        realm,
        product,
    };
    let config = config_of(
        alloc,
        names,
        options.addresses,
        options.apps,
        &options.numbers,
    )?;
    begun_of(alloc, config, role, manner)
}

/// An end of this configuration, in a box.
fn begun_of(
    alloc: Global,
    config: Config,
    role: Role,
    manner: Manner,
) -> Result<Box<Held>, ConfigFault>
    ensures ok { IfOk result (λ held. IfSome (peer_in (Some held.value)) (IsBegunAs role manner (plain_config config))) }
    ensures is_peer { IfOk result (λ held. (∥ MayBePeer (Some held.value) ∥₁) × IsSome (peer_in (Some held.value))) }
    ensures err { IfErr result (IsRefusedAs manner (plain_config config)) }
{
    let peer = Peer::new(alloc, config, role, manner)?;
    Ok(boxed(alloc, peer)?)
}

fn boxed(alloc: Global, peer: Peer) -> Result<Box<Held>, AllocError>
    ensures { IfOk result (λ held. (peer_in (Some held.value) ≡ Some (plain_end peer)) × ∥ MayBePeer (Some held.value) ∥₁) }
{
    let peer = Box::new(alloc, peer)?;
    Ok(Box::new(alloc, Held::Peer(peer))?)
}
