//! Shortest data of a format, and shortest data that one format accepts and another doesn't (RFC 6733 sections 4.2 and
//! 4.3).
//!
//! ```text
//! let found = witness(&Format::Unsigned32, &Format::Address);
//! assert_eq!(rt; found.map(|data| data.as_slice().len()), Some(4));
//! assert!(rt; witness(&Format::Unsigned32, &Format::Time).is_none());
//! ```
#![tactic(auto)]

mod candidates;
mod finding;
mod kinds;
mod numbers;
mod short_data;

pub use finding::{shortest, witness};
pub use short_data::{Witness, big_endian};
