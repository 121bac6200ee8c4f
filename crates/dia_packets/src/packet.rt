ghost use Rattle.std.specs.Prelude.{◌≡◌, ◌++◌, ◌∷◌, [], IfOk, OnOk, map};
ghost use Rattle.dia_packets.specs.Packets.{numbered, plain_packet};

use std::alloc::{AllocError, Global};

/// A packet of a capture.
#[derive(Drop)]
pub struct Packet {
    /// Its number in the file, from 1.
    pub number: u64,
    /// Nanoseconds since 1970, if the file has its time.
    pub time: Option<u64>,
    /// Its link type.
    pub link: u16,
    /// The bytes that were captured.
    pub bytes: Vec<u8>,
    /// How many bytes there were on the link.
    pub size: u32,
}

/// A packet as it is in its file.
#[derive(Clone, Copy)]
pub struct Captured<'b> {
    pub time: Option<u64>,
    pub link: u16,
    pub bytes: &'b [u8],
    pub size: u32,
}

/// Adds the packet of this number.
pub(crate) fn push_packet(
    alloc: Global,
    number: u64,
    captured: &Captured<'_>,
    packets: &mut Vec<Packet>,
) -> Result<(), AllocError>
    ensures { OnOk result (map plain_packet packets.new.items
        ≡ map plain_packet packets.old.items ++ numbered number captured.now ∷ []) }
{
    let packet = Packet {
        number,
        time: captured.time,
        link: captured.link,
        bytes: Vec::from_slice(alloc, captured.bytes)?,
        size: captured.size,
    };
    packets.push(packet)?;
    Ok(())
}
