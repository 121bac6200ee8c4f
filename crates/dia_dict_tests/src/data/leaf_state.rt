//! Data that comes in pieces: each row is asked of `accepts`, and of a state that is fed the data cut anywhere and byte by byte.

use super::is_leaf;
use dia_data::{Format, Leaf, LeafState};
use std::process::Abort;

/// What a format says of data that comes in these two pieces.
fn in_two_pieces(format: &Format, front: &[u8], following: &[u8]) -> Leaf {
    let mut state = LeafState::start(format);
    state.feed(front);
    state.feed(following);
    state.finish()
}

/// What a format says of data that comes byte by byte.
fn in_bytes(format: &Format, data: &[u8]) -> Leaf {
    let mut state = LeafState::start(format);
    for byte in data {
        state.feed(&[*byte]);
    }
    state.finish()
}

/// Checks what a format says of data, cut anywhere and byte by byte.
pub(super) fn is_leaf_in_pieces(
    rt: &impl Abort,
    format: &Format,
    data: &[u8],
    wanted: Leaf,
    line: &str,
) {
    for place in 0..data.len() + 1 {
        let (front, following) = data.split_at(place);
        is_leaf(rt, in_two_pieces(format, front, following), wanted, line);
    }
    is_leaf(rt, in_bytes(format, data), wanted, line);
}

pub(super) const ROWS: &str = r"
# Texts.
accepts UTF8String 61c3a9e282acf09f988062f48fbfbf63dfbf => Fine
accepts UTF8String 61c3a9e282 => BadValue
accepts UTF8String 6162eda0806364 => BadValue
accepts UTF8String f4908080 => BadValue
accepts UTF8String f09f988080 => BadValue
accepts UTF8String e282e282ac => BadValue

# Numbers and other data.
accepts Unsigned32 31323334 => Fine
accepts Unsigned32 3132333435 => BadLength
accepts Float64 3132333435363738 => Fine
accepts OctetString 00ff => Fine

# Addresses.
accepts Address 00013132333435 => BadLength
accepts Address 000231323334353637383930313233343536 => Fine
accepts Address 00023132333435363738393031323334353637 => BadLength
accepts Address 0002313233343536373839303132333435363738 => BadLength
accepts Address 000231323334353637383930313233343536373839 => BadLength
accepts Address 0003313233343536373839303132333435363738393031323334353637383930 => Fine

# Identities and URIs.
accepts DiameterIdentity 612e62 => Fine
accepts DiameterIdentity 31323334353637383930313233343536373839303132333435363738393020 => BadValue
accepts DiameterURI 414141533a2f2f682e6578616d706c652e6f72673a333836383b7472616e73706f72743d746370 => Fine
accepts DiameterURI 6161613a2f2f682e6578616d706c652e6f72673a333836383b7472616e73706f72743d74637080 => BadValue
";

#[test]
fn joins_the_pieces_of_a_character(rt: HostRuntime) {
    let mut state = LeafState::start(&Format::Utf8String);
    state.feed(b"\xc3");
    assert!(rt; state.finish() == Leaf::BadValue);
    state.feed(b"\xa9");
    assert!(rt; state.finish() == Leaf::Fine);
}
