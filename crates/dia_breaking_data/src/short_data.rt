//! A few bytes, held by value.
ghost use Rattle.std.specs.Prelude.{◌≡◌, ◌<◌, ◌≤◌, ℕ, length, slice_index};
ghost use Rattle.std.specs.Int.{to_be_bytes, w32};

use byteorder::{BigEndian, ByteOrder};

/// Data of at most 8 bytes.
#[derive(Clone, Copy)]
pub struct Witness {
    count: usize,
    bytes: [u8; 8],
    ghost within: { count ≤ 8 },
    ghost are_bytes: { (i : ℕ) → slice_index bytes i < 256 },
}

impl Witness {
    ghost use Rattle.dia_breaking_data.specs.Shortest.{witness_bytes};
    ghost use Rattle.dia_breaking_data.specs.Kinds.{four_bytes};

    /// These bytes.
    pub fn new(bytes: &[u8]) -> Self
        requires { length bytes.now ≤ 8 }
        ensures { witness_bytes result ≡ bytes.now }
    {
        let mut room = [0; 8];
        room[..bytes.len()].copy_from_slice(bytes);
        Witness {
            count: bytes.len(),
            bytes: room,
        }
    }

    /// The 4 bytes of a number.
    pub(crate) fn of_number(number: u32) -> Self
        ensures { witness_bytes result ≡ four_bytes number }
    {
        Witness::new(&big_endian(number))
    }

    /// The bytes.
    pub fn as_slice(&self) -> &[u8]
        ensures { result.now ≡ witness_bytes self.now }
    {
        &self.bytes[..self.count]
    }
}

/// A number in network byte order.
pub fn big_endian(number: u32) -> [u8; 4]
    ensures { result ≡ to_be_bytes w32 number }
{
    let mut bytes = [0; 4];
    BigEndian::write_u32(&mut bytes, number);
    bytes
}
