//! Diameter messages and AVPs as bytes (RFC 6733 sections 3 and 4.1).
//!
//! All numbers are in network byte order. Places count from byte 0.
//!
//! A message is written from a header and AVPs, split into header and body, and read AVP by AVP:
//!
//! ```text
//! let host = Avp { code: 264, flags: AVP_MANDATORY, vendor: None, bytes: b"a.b" };
//! let request = Header { flags: COMMAND_REQUEST, code: 280, app: 0, hop: 1, e2e: 2 };
//! assert!(rt; request.fits() && host.agrees());
//! let mut message = Vec::new(alloc);
//! put_message(&mut message, &request, &[host])?;
//!
//! let (header, body) = split_message(&message)?;
//! assert!(rt; header.is_request());
//! for avp in Avps::new(body) {
//!     let avp = avp?;
//!     assert_eq!(rt; key(&avp), Key { code: 264, vendor: 0 });
//!     assert!(rt; avp.bytes == b"a.b".as_slice());
//! }
//! ```
#![tactic(auto)]

mod avp;
mod avp_key;
mod avps;
mod header;
mod opening;
mod reading;
mod writing;

pub use avp::{
    AVP_HEAD_LENGTH, AVP_MANDATORY, AVP_PROTECTED, AVP_VENDOR, Avp, AvpFault, AvpHead,
    VENDOR_AVP_HEAD_LENGTH, key,
};
pub use avp_key::Key;
pub use avps::Avps;
pub use header::{
    COMMAND_ERROR, COMMAND_PROXIABLE, COMMAND_REQUEST, COMMAND_RETRANSMITTED, HEADER_LENGTH,
    HeadFault, Header, MessageFault,
};
pub use reading::{
    avp_head, next_avp, number32, one_header, one_spelling, read_header, split_message,
};
pub use writing::{PutFault, put_avp, put_message};
