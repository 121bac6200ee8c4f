//! The tests of `dia_packets`, `dia_segments` and `dia_directions`: the packets of captures, in pieces of several sizes, the
//! segments in them, and the bytes of a direction in their order. They go through public calls alone. There is nothing but tests.
#![tactic(auto)]

#[cfg(test)]
mod blocks;
#[cfg(test)]
mod directions;
#[cfg(test)]
mod files;
#[cfg(test)]
mod packets;
#[cfg(test)]
mod rows;
#[cfg(test)]
mod segments;
