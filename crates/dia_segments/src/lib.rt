//! TCP segments in packets.
//!
//! [`segment_of`] finds the segment in the bytes of a packet: after the headers of Ethernet with its tags, of Linux cooked
//! captures, or of BSD loopback, and of IPv4 or IPv6. It reports why a packet has none that is read.
#![tactic(auto)]

mod datagrams;
mod extensions;
mod ipv4;
mod ipv6;
mod link;
mod numbers;
mod segments;
mod unread;

pub use datagrams::{Datagram, Fragment, datagram_of};
pub use link::network_of;
pub use segments::{End, Segment, segment_in, segment_of};
pub use unread::Unread;
