//! Packets of capture files.
//!
//! A [`Capture`] reads a capture file (pcap, pcapng) as its pieces come, and gives its packets. It takes the memory of one packet
//! or block and one piece, with the packets of that piece.
#![tactic(auto)]

mod blocks;
mod capture;
mod fault;
mod interfaces;
mod kind;
mod laws;
mod order;
mod packet;
mod position;
mod records;
mod sections;

pub use capture::Capture;
pub use fault::{CaptureFault, Cause, Refusal};
pub use kind::{Kind, Unit, kind_of};
pub use laws::one_answer;
pub use order::Order;
pub use packet::Packet;
