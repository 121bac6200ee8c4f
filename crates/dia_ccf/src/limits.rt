//! The limits of texts.

/// The most bytes that a text may have (our profile).
pub const MAX_TEXT: usize = 1_048_576;

/// The greatest command code, which has three bytes (RFC 6733 section 3).
pub(crate) const MAX_COMMAND_CODE: u32 = 16_777_215;

/// The greatest value in a list of an Enumerated AVP (our profile).
pub(crate) const MAX_VALUE: u32 = 2_147_483_647;
