//! Codes of commands and AVPs (RFC 6733 sections 3.1 and 4.5), and of results (section 7.1); limits of a configuration.

/// The Command Flags of an answer: none.
pub(crate) const ANSWER: u8 = 0;

pub(crate) const CAPABILITIES_EXCHANGE: u32 = 257;

pub(crate) const DEVICE_WATCHDOG: u32 = 280;

pub(crate) const DISCONNECT_PEER: u32 = 282;

pub(crate) const HOST_IP_ADDRESS: u32 = 257;

pub(crate) const AUTH_APPLICATION_ID: u32 = 258;

pub(crate) const ACCT_APPLICATION_ID: u32 = 259;

pub(crate) const VENDOR_SPECIFIC_APPLICATION_ID: u32 = 260;

pub(crate) const ORIGIN_HOST: u32 = 264;

pub(crate) const VENDOR_ID: u32 = 266;

pub(crate) const RESULT_CODE: u32 = 268;

pub(crate) const PRODUCT_NAME: u32 = 269;

pub(crate) const DISCONNECT_CAUSE: u32 = 273;

pub(crate) const ORIGIN_STATE_ID: u32 = 278;

pub(crate) const ORIGIN_REALM: u32 = 296;

/// DIAMETER_SUCCESS.
pub(crate) const SUCCESS: u32 = 2001;
/// DIAMETER_NO_COMMON_APPLICATION.
pub(crate) const NO_COMMON_APPLICATION: u32 = 5010;

/// The Application-ID of relays (RFC 6733 section 2.4).
pub(crate) const RELAY: u32 = 0xffff_ffff;

/// The greatest count of bytes of a host, a realm and a product's name.
pub(crate) const NAME_LIMIT: usize = 255;

pub(crate) const ADDRESS_LIMIT: usize = 64;

pub(crate) const APP_LIMIT: usize = 1024;
