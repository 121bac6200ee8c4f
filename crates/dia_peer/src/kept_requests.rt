//! What a core records of messages.

/// The Hop-by-Hop and End-to-End Identifiers of a request (RFC 6733 section 3).
#[derive(Clone, Copy, PartialEq, Eq)]
pub(crate) struct Ids {
    pub hop: u32,
    pub e2e: u32,
}

/// The CER that was accepted: its bytes, and the identifiers that its CEA repeats.
#[derive(Drop)]
pub(crate) struct Taken {
    pub bytes: Vec<u8>,
    pub ids: Ids,
}
