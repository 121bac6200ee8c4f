//! One end of a connection is opened.

ghost use Rattle.std.specs.Prelude.{◌⊎◌, ◌≡◌, ◌≢◌, IfSome, IsSome, None};
ghost use Rattle.dia_c_calls.specs.Held.{peer_in};
ghost use Rattle.dia_c_calls.specs.Peers.{AreUnderstood, HasFault, IsBegun, IsManner, IsRole, config_of, configured};

use dia_c_calls::{
    BAD_ARGUMENT, DONE, IS_OPEN, NO_MEMORY, PeerAddress, PeerApp, PeerHandle, PeerNumbers,
    PeerOptions, REFUSED,
};
use std::alloc::Global;

/// Opens one end of a connection.
#[unsafe(no_mangle)]
pub extern "C" fn dia_peer_open(
    alloc: Global,
    role: u32,
    host: &[u8],
    realm: &[u8],
    product: &[u8],
    addresses: &[PeerAddress],
    apps: &[PeerApp],
    numbers: &PeerNumbers,
    handle: &mut PeerHandle,
    fault: &mut u32,
) -> u32
    ensures ends { (result ≡ DONE) ⊎ (result ≡ REFUSED) ⊎ (result ≡ NO_MEMORY) ⊎ (result ≡ IS_OPEN) ⊎ (result ≡ BAD_ARGUMENT) }
    ensures done { result ≡ DONE → IfSome (peer_in handle.new.slot.seal.held)
        (IsBegun role 0 (config_of host.now realm.now product.now addresses.now apps.now numbers.now)) }
    ensures is_open { result ≡ DONE → IsSome (peer_in handle.new.slot.seal.held) }
    ensures kept { result ≢ DONE → handle.new.slot.seal.held ≡ handle.old.slot.seal.held }
    ensures refused { result ≡ REFUSED
        → HasFault 0 (config_of host.now realm.now product.now addresses.now apps.now numbers.now) fault.new }
    ensures only { result ≢ REFUSED → fault.new ≡ fault.old }
    ensures was_closed { result ≢ IS_OPEN → result ≢ BAD_ARGUMENT → handle.old.slot.seal.held ≡ None }
    ensures was_open { result ≡ IS_OPEN → IsSome handle.old.slot.seal.held }
    ensures bad { result ≡ BAD_ARGUMENT → ¬ IsRole role }
    ensures good { result ≢ BAD_ARGUMENT → IsRole role }
{
    dia_c_calls::peer_open(
        alloc, role, host, realm, product, addresses, apps, numbers, handle, fault,
    )
}

/// Opens one end of a connection that is of manners, each a bit: 1 relays, 2 answers, 4 life, 8 values; 0 is none.
#[unsafe(no_mangle)]
pub extern "C" fn dia_peer_open_as(
    alloc: Global,
    role: u32,
    manner: u32,
    host: &[u8],
    realm: &[u8],
    product: &[u8],
    addresses: &[PeerAddress],
    apps: &[PeerApp],
    numbers: &PeerNumbers,
    handle: &mut PeerHandle,
    fault: &mut u32,
) -> u32
    ensures ends { (result ≡ DONE) ⊎ (result ≡ REFUSED) ⊎ (result ≡ NO_MEMORY) ⊎ (result ≡ IS_OPEN) ⊎ (result ≡ BAD_ARGUMENT) }
    ensures done { result ≡ DONE → IfSome (peer_in handle.new.slot.seal.held)
        (IsBegun role manner (config_of host.now realm.now product.now addresses.now apps.now numbers.now)) }
    ensures is_open { result ≡ DONE → IsSome (peer_in handle.new.slot.seal.held) }
    ensures kept { result ≢ DONE → handle.new.slot.seal.held ≡ handle.old.slot.seal.held }
    ensures refused { result ≡ REFUSED
        → HasFault manner (config_of host.now realm.now product.now addresses.now apps.now numbers.now) fault.new }
    ensures only { result ≢ REFUSED → fault.new ≡ fault.old }
    ensures was_closed { result ≢ IS_OPEN → result ≢ BAD_ARGUMENT → handle.old.slot.seal.held ≡ None }
    ensures was_open { result ≡ IS_OPEN → IsSome handle.old.slot.seal.held }
    ensures bad { result ≡ BAD_ARGUMENT → ¬ (IsRole role × IsManner manner) }
    ensures good { result ≢ BAD_ARGUMENT → IsRole role × IsManner manner }
{
    dia_c_calls::peer_open_as(
        alloc, role, manner, host, realm, product, addresses, apps, numbers, handle, fault,
    )
}

/// Opens one end of a connection with options.
#[unsafe(no_mangle)]
pub extern "C" fn dia_peer_open_with(
    alloc: Global,
    options: &PeerOptions<'_>,
    handle: &mut PeerHandle,
    fault: &mut u32,
) -> u32
    ensures ends { (result ≡ DONE) ⊎ (result ≡ REFUSED) ⊎ (result ≡ NO_MEMORY) ⊎ (result ≡ IS_OPEN) ⊎ (result ≡ BAD_ARGUMENT) }
    ensures done { result ≡ DONE → IfSome (peer_in handle.new.slot.seal.held)
        (IsBegun options.now.role options.now.manner (configured options.now)) }
    ensures is_open { result ≡ DONE → IsSome (peer_in handle.new.slot.seal.held) }
    ensures kept { result ≢ DONE → handle.new.slot.seal.held ≡ handle.old.slot.seal.held }
    ensures refused { result ≡ REFUSED → HasFault options.now.manner (configured options.now) fault.new }
    ensures only { result ≢ REFUSED → fault.new ≡ fault.old }
    ensures was_closed { result ≢ IS_OPEN → result ≢ BAD_ARGUMENT → handle.old.slot.seal.held ≡ None }
    ensures was_open { result ≡ IS_OPEN → IsSome handle.old.slot.seal.held }
    ensures bad { result ≡ BAD_ARGUMENT
        → ¬ (AreUnderstood options.now × IsRole options.now.role × IsManner options.now.manner) }
    ensures good { result ≢ BAD_ARGUMENT
        → AreUnderstood options.now × IsRole options.now.role × IsManner options.now.manner }
{
    dia_c_calls::peer_open_with(alloc, options, handle, fault)
}
