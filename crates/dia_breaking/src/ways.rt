//! How long messages may be.

/// What a message's AVPs may take together.
pub(crate) const ROOM: u64 = 16_777_192;
