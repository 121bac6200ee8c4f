//! What is asked of a configuration.

ghost use Rattle.std.specs.Prelude.{◌≡◌, ◌↔◌, IfOk, IfErr, IsTrue, length, All};
ghost use Rattle.dia_peer.specs.Core.{IsAccepted, IsIdentity, IsIp, plain_config};
ghost use Rattle.dia_peer.specs.Machine.{IsRefusedAs};

use crate::applications::{are_distinct, know_their_numbers, may_be_used};
use crate::codes::{ADDRESS_LIMIT, APP_LIMIT, NAME_LIMIT};
use crate::config::{Config, ConfigFault, Ip, Manner};
use dia_book::{Format, Leaf, accepts};

/// Reports the first thing that is wrong with a configuration. It allocates nothing.
pub(crate) fn judge(config: &Config, manner: Manner) -> Result<(), ConfigFault>
    ensures ok { IfOk result (λ _. IsAccepted manner (plain_config config.now)) }
    ensures err { IfErr result (IsRefusedAs manner (plain_config config.now)) }
{
    if !is_identity(&config.host) {
        return Err(ConfigFault::Host);
    }
    if !is_identity(&config.realm) {
        return Err(ConfigFault::Realm);
    }
    let product = config.product.as_str();
    if product.len() > NAME_LIMIT {
        return Err(ConfigFault::Product);
    }
    if config.addresses.is_empty() || config.addresses.len() > ADDRESS_LIMIT {
        return Err(ConfigFault::Address);
    }
    know_their_lengths(&config.addresses);
    if config.apps.is_empty()
        || config.apps.len() > APP_LIMIT
        || !may_be_used(&config.apps, manner)
    {
        return Err(ConfigFault::Application);
    }
    know_their_numbers(&config.apps);
    if are_distinct(&config.apps) {
        Ok(())
    } else {
        Err(ConfigFault::Application)
    }
}

/// Whether it is a DiameterIdentity of at most 255 bytes.
fn is_identity(name: &str) -> bool
    ensures { IsTrue result ↔ IsIdentity name.now }
{
    name.len() <= NAME_LIMIT && accepts(&Format::DiameterIdentity, name.as_bytes()) == Leaf::Fine
}

/// Each address has the bytes of its family.
fn know_their_lengths(addresses: &[Ip])
    ensures { All IsIp addresses.now }
{
    for address in addresses {
        match address {
            Ip::V4(bytes) => has_length(bytes),
            Ip::V6(bytes) => has_length(bytes),
        }
    }
}

/// An array has as many items as its type says.
fn has_length<const N: usize>(bytes: &[u8; N])
    ensures { length bytes.now ≡ N }
{}
