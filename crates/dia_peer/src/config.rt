//! Who the two ends are, and what each is configured with.

use std::alloc::AllocError;
use thiserror::Error;

/// Which end of a connection a core is: the one that sends the CER, or the one that answers it (RFC 6733 section 5.3).
#[derive(Clone, Copy, PartialEq, Eq)]
pub enum Role {
    Initiator,
    Responder,
}

/// Whether an application is for authentication and authorization, or for accounting (RFC 6733 section 2.4).
#[derive(Debug, Clone, Copy, PartialEq, Eq)]
pub enum Kind {
    Auth,
    Acct,
}

/// An application that an end advertises.
#[derive(Clone, Copy, PartialEq, Eq)]
pub struct App {
    pub kind: Kind,
    /// The Application-ID.
    pub id: u32,
    /// If present, the application is in a Vendor-Specific-Application-Id with this Vendor-Id.
    pub vendor: Option<u32>,
}

/// An IP address, in network byte order.
#[derive(Clone, Copy, PartialEq, Eq)]
pub enum Ip {
    V4([u8; 4]),
    V6([u8; 16]),
}

/// What an end says of itself in its messages (RFC 6733 section 5.3), and the identifiers that it begins with.
#[derive(Drop)]
pub struct Config {
    /// Origin-Host: 1 to 255 bytes, each from `!` to `~`.
    pub host: String,
    /// Origin-Realm: 1 to 255 bytes, each from `!` to `~`.
    pub realm: String,
    /// Product-Name: at most 255 bytes.
    pub product: String,
    /// Host-IP-Address: 1 to 64 of them.
    pub addresses: Vec<Ip>,
    /// Vendor-Id.
    pub vendor: u32,
    /// 1 to 1,024 applications, each kind and number once. Only the manner `relays` allows the number 4294967295.
    pub apps: Vec<App>,
    /// Origin-State-Id, where it is sent.
    pub state_id: Option<u32>,
    /// The Hop-by-Hop Identifier of the first request.
    pub hop: u32,
    /// The End-to-End Identifier of the first request.
    pub e2e: u32,
}

/// What a core does beyond a connection of two nodes that aren't agents.
#[derive(Clone, Copy, PartialEq, Eq)]
pub struct Manner {
    /// The application 4294967295 says that an end relays (RFC 6733 sections 2.4 and 5.3): it has all applications of the
    /// other in common with it. Without this manner the number is one as others, and no configuration may hold it.
    pub relays: bool,
    /// A request that is no valid message is answered with its fault in front of the close (RFC 6733 sections 7.1.5 and 7.2),
    /// where the connection is open, or it is a CER that is waited for. Without this manner it only closes the connection.
    pub answers: bool,
    /// A watchdog without answer first makes the connection suspect, and closes it at the `Tick` after that, if nothing is
    /// heard of the peer (RFC 3539 section 3.4.1). Without this manner the first such `Tick` closes it.
    pub life: bool,
    /// What the peer says of itself is kept: `Core::host`, `realm`, `product`, `result` and `cause`. Without this manner they
    /// answer nothing.
    pub values: bool,
}

/// Why a configuration is refused: the first that applies, in this order.
#[derive(Clone, Copy, Debug, PartialEq, Eq, Error)]
pub enum ConfigFault {
    #[error("the host is no DiameterIdentity of at most 255 bytes")]
    Host,
    #[error("the realm is no DiameterIdentity of at most 255 bytes")]
    Realm,
    #[error("the product's name is longer than 255 bytes")]
    Product,
    #[error("there are no addresses, or more than 64")]
    Address,
    #[error("there are no applications, more than 1024, the relay's, or one twice")]
    Application,
    #[error("out of memory")]
    NoMemory,
}

impl From<AllocError> for ConfigFault {
    ghost use Rattle.std.specs.Prelude.{◌≡◌};
    ghost use Rattle.dia_peer.specs.declared.config.ConfigFault.TheVariants.{NoMemory};

    ghost from_gives = { λ _ e. e ≡ NoMemory };

    fn from(_error: AllocError) -> ConfigFault {
        ConfigFault::NoMemory
    }
}
