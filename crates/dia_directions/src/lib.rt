//! The bytes of one direction of a TCP connection in their order.
//!
//! A [`Reassembly`] takes segments in any order, and gives the bytes that are next. Of bytes that come several times those that
//! came first count. Where bytes are missing for too long (`is_late`), or too many bytes or segments wait for them (`is_full`), the
//! gap is given up: what waits is read, with how many bytes are missing before each part.
#![tactic(auto)]

mod gaps;
mod laws;
mod piece;
mod reassembly;
mod sequence;
mod waiting;

pub use gaps::{PATIENCE, is_late};
pub use laws::cuts;
pub use piece::Piece;
pub use reassembly::Reassembly;
pub use sequence::WINDOW;
pub use waiting::{MOST_WAITING, Resumed, Run};
