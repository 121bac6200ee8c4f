//! The arguments that open one end of a connection, as one struct.

ghost use Rattle.std.specs.Prelude.{◌↔◌, IsTrue};
ghost use Rattle.dia_c_calls.specs.Peers.{AreUnderstood};

use crate::peer_config::{PeerAddress, PeerApp, PeerNumbers};

/// The arguments that open an end.
#[repr(C)]
#[derive(Clone, Copy)]
pub struct PeerOptions<'a> {
    /// Its size as the caller was compiled, in bytes.
    pub size: usize,
    pub role: u32,
    pub manner: u32,
    pub host: &'a [u8],
    pub realm: &'a [u8],
    pub product: &'a [u8],
    pub addresses: &'a [PeerAddress],
    pub apps: &'a [PeerApp],
    pub numbers: PeerNumbers,
    /// The place of fields that are added: zeros.
    pub reserved: [u64; RESERVED],
}

/// How many words fields that are added may take.
pub const RESERVED: usize = 8;

/// The size of the struct, in bytes.
pub const OPTIONS_SIZE: usize = size_of::<PeerOptions<'_>>();

impl PeerOptions<'_> {
    /// Whether this library has all the fields that the caller set.
    pub fn are_understood(&self) -> bool
        ensures { IsTrue result ↔ AreUnderstood self.now }
    {
        self.size == OPTIONS_SIZE && self.reserved == [0; RESERVED]
    }
}
