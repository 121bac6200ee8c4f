//! Numbers of RFC 6733, and limits.

/// Command codes (RFC 6733 section 3.1, and RFC 6737 for Capabilities-Update).
pub(crate) const CAPABILITIES_EXCHANGE: u32 = 257;

pub(crate) const DEVICE_WATCHDOG: u32 = 280;

pub(crate) const DISCONNECT_PEER: u32 = 282;

pub(crate) const CAPABILITIES_UPDATE: u32 = 328;

/// AVP codes (RFC 6733 section 4.5).
pub(crate) const AUTH_APPLICATION_ID: u32 = 258;

pub(crate) const ACCT_APPLICATION_ID: u32 = 259;

pub(crate) const VENDOR_SPECIFIC_APPLICATION_ID: u32 = 260;

pub(crate) const SESSION_ID: u32 = 263;

pub(crate) const ORIGIN_HOST: u32 = 264;

pub(crate) const VENDOR_ID: u32 = 266;

pub(crate) const RESULT_CODE: u32 = 268;

pub(crate) const DISCONNECT_CAUSE: u32 = 273;

pub(crate) const ORIGIN_STATE_ID: u32 = 278;

pub(crate) const DESTINATION_REALM: u32 = 283;

pub(crate) const DESTINATION_HOST: u32 = 293;

pub(crate) const EXPERIMENTAL_RESULT: u32 = 297;

pub(crate) const EXPERIMENTAL_RESULT_CODE: u32 = 298;

/// DIAMETER_NO_COMMON_APPLICATION (RFC 6733 section 7.1.5).
pub(crate) const NO_COMMON_APPLICATION: u32 = 5010;

/// The Application-ID of relays (RFC 6733 section 2.4).
pub(crate) const RELAY: u32 = 0xffff_ffff;

/// How many requests of an end wait at most (our profile).
pub(crate) const MOST_WAITING: usize = 65_536;

/// How many answers to nothing are remembered of an end (our profile).
pub(crate) const MOST_STRAYS: usize = 64;

/// How many bytes of a Session-Id are compared (our profile).
pub(crate) const SESSION_START: usize = 256;

/// The least nanoseconds between two watchdogs: Tw of 6 seconds, less 2 of jitter (RFC 3539 section 3.4.1).
pub(crate) const WATCHDOG_INTERVAL: u64 = 4_000_000_000;

/// The most nanoseconds without a message before a watchdog: Tw of 30 seconds, and 2 of jitter (RFC 3539 section 3.4.1).
pub(crate) const SILENCE: u64 = 32_000_000_000;
