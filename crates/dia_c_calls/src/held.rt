//! What a handle may hold.

use crate::feeding::Feeding;
use crate::findings::TextFault;
use crate::peer::Peer;
use dia_check::Room;
use dia_dict::IndexedBook;
use std::sync::Arc;

/// What a handle may hold.
#[derive(Drop)]
pub enum Held {
    /// An owner of a dictionary, which other handles may have too, and memory for what this handle checks.
    Dict(Arc<IndexedBook>, Room),
    /// The bytes of a text.
    Text(Vec<u8>),
    /// The faults of a dictionary's text.
    Faults(Vec<TextFault>),
    /// One end of a connection.
    Peer(Box<Peer>),
    /// A message that comes in pieces.
    Stream(Feeding),
    /// What was held is out during a call.
    Nothing,
}
