//! Where AVPs are in messages.

use dia_wire::Key;

/// What reads a level of AVPs: a definition, and for a command the Application-ID of the message.
#[derive(Clone, Copy, PartialEq, Eq, Hash)]
pub struct Place {
    /// The number of the definition.
    pub def: usize,
    /// The Application-ID of the header (RFC 6733 section 3). It is 0 for groups, and for errors, whose definition serves all.
    pub app: u32,
}

/// The AVPs of a key in the levels of a place.
#[derive(Clone, Copy, PartialEq, Eq, Hash)]
pub struct Spot {
    pub place: Place,
    pub key: Key,
}
