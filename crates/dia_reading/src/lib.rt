//! Bytes that begin like a message, or that are one up to its end.
//!
//! Where the beginning of a message isn't known, these tests find it: [`is_likely`], and [`sound_length`].
#![tactic(auto)]

mod messages;

pub use messages::{is_likely, is_tls, sound_length};
