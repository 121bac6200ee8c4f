//! AVPs and messages written as bytes.

ghost use Rattle.std.specs.Prelude.{◌≡◌, ◌<◌, ◌≤◌, ◌+◌, ◌-◌, ◌*◌, ◌/◌, ◌%◌};
ghost use Rattle.std.specs.Prelude.{◌++◌, ◌↔◌, List, ℕ, OnOk, OnErr};
ghost use Rattle.std.specs.Prelude.{All, IsNone, IfSome, Err, length};
ghost use Rattle.std.specs.Prelude.{map, sum_by, vec_len, vec_capacity};
ghost use Rattle.byteorder.specs.Endian.{big_bytes};
ghost use Rattle.dia_wire.specs.Lengths.{header_length, three_bytes};
ghost use Rattle.dia_wire.specs.Number.{IsField};
ghost use Rattle.dia_wire.specs.Wire.{plain_avp, Agrees, avp_length};
ghost use Rattle.dia_wire.specs.Wire.{padded_length, IsHead, IsVendorField};
ghost use Rattle.dia_wire.specs.Wire.{SpellsWithZeros, MessageWithZeros, IsTooLong};
ghost use Rattle.dia_wire.specs.Written.{avp_bytes, header_bytes, padding, vendor_bytes};

use crate::avp::{Avp, padded};
use crate::header::{HEADER_LENGTH, Header, THREE_BYTES};
use byteorder::{BigEndian, ByteOrder};
use std::alloc::AllocError;
use thiserror::Error;

/// Why nothing was written.
#[derive(Clone, Copy, Debug, PartialEq, Eq, Error)]
pub enum PutFault {
    /// An AVP Length is above 16,777,215, or a message is above 16,777,212 bytes.
    #[error("the length is above what its field can say")]
    TooLong,
    #[error("no memory")]
    NoMemory,
}

impl From<AllocError> for PutFault {
    ghost use Rattle.dia_wire.specs.declared.writing.PutFault.TheVariants.{NoMemory};

    ghost from_gives = { λ _ e. e ≡ NoMemory };

    fn from(_error: AllocError) -> PutFault {
        PutFault::NoMemory
    }
}

/// Appends an AVP (RFC 6733 section 4.1), padded with zero bytes to a multiple of four.
///
/// `TooLong` is looked for before anything is appended. On a refusal nothing was appended.
pub fn put_avp(out: &mut Vec<u8>, avp: &Avp<'_>) -> Result<(), PutFault>
    requires { Agrees (plain_avp avp.now) }
    ensures ok { OnOk result ((b : List ℕ) × SpellsWithZeros (plain_avp avp.now) b
        × (out.new.items ≡ out.old.items ++ b)) }
    ensures too_long { (result ≡ Err PutFault.TooLong)
        ↔ (three_bytes ≤ avp_length (plain_avp avp.now)) }
    ensures err { OnErr result (out.new.items ≡ out.old.items) }
{
    let length = avp.length();
    if length >= THREE_BYTES as usize {
        return Err(PutFault::TooLong);
    }
    let length = length as u32;
    out.reserve(padded(length))?;
    push_avp(out, avp, length);
    Ok(())
}

/// Appends a message (RFC 6733 section 3): version 1, its length, the header and the AVPs, each padded with zero bytes.
///
/// `TooLong` is looked for before anything is appended. On a refusal nothing was appended.
pub fn put_message(out: &mut Vec<u8>, header: &Header, avps: &[Avp<'_>]) -> Result<(), PutFault>
    requires fits { header.now.code < three_bytes }
    requires agree { All (λ avp. Agrees (plain_avp avp)) avps.now }
    ensures ok { OnOk result ((b : List ℕ) × MessageWithZeros header.now (map plain_avp avps.now) b
        × (out.new.items ≡ out.old.items ++ b)) }
    ensures too_long { (result ≡ Err PutFault.TooLong) ↔ IsTooLong (map plain_avp avps.now) }
    ensures err { OnErr result (out.new.items ≡ out.old.items) }
{
    let Some(total) = message_length(avps) else {
        return Err(PutFault::TooLong);
    };
    out.reserve(total as usize)?;
    push_header(out, header, total);
    for avp in avps {
        let length = avp.length();
        push_avp(out, avp, length as u32);
    }
    Ok(())
}

/// The Message Length of a header and these AVPs, where the fields can say it and each AVP Length.
fn message_length(avps: &[Avp<'_>]) -> Option<u32>
    ensures none { IsNone result ↔ IsTooLong (map plain_avp avps.now) }
    ensures some { IfSome result
        (λ total. total ≡ header_length + sum_by padded_length (map plain_avp avps.now)) }
    ensures small { IfSome result (λ total. total < three_bytes) }
{
    let mut total = HEADER_LENGTH;
    for avp in avps {
        let length = avp.length();
        if length >= THREE_BYTES as usize {
            return None;
        }
        total += padded(length as u32);
        if total >= THREE_BYTES as usize {
            return None;
        }
    }
    Some(total as u32)
}

fn push_header(out: &mut Vec<u8>, header: &Header, length: u32)
    requires fits { header.now.code < three_bytes }
    requires small { length < three_bytes }
    requires room { vec_len out.old + header_length ≤ vec_capacity out.old }
    ensures bytes { out.new.items ≡ out.old.items ++ header_bytes header.now length }
    ensures head { IsHead header.now length (header_bytes header.now length) }
    ensures len { vec_len out.new ≡ vec_len out.old + header_length }
    ensures capacity { vec_capacity out.old ≤ vec_capacity out.new }
{
    push(out, &[1]);
    push_u24(out, length);
    push(out, &[header.flags]);
    push_u24(out, header.code);
    push_u32(out, header.app);
    push_u32(out, header.hop);
    push_u32(out, header.e2e);
}

fn push_avp(out: &mut Vec<u8>, avp: &Avp<'_>, length: u32)
    requires small { length < three_bytes }
    requires length { length ≡ avp_length (plain_avp avp.now) }
    requires agrees { Agrees (plain_avp avp.now) }
    requires room { vec_len out.old + (length + 3) / 4 * 4 ≤ vec_capacity out.old }
    ensures bytes { out.new.items ≡ out.old.items ++ avp_bytes (plain_avp avp.now) }
    ensures spells { SpellsWithZeros (plain_avp avp.now) (avp_bytes (plain_avp avp.now)) }
    ensures len { vec_len out.new ≡ vec_len out.old + (length + 3) / 4 * 4 }
    ensures capacity { vec_capacity out.old ≤ vec_capacity out.new }
{
    push_u32(out, avp.code);
    push(out, &[avp.flags]);
    push_u24(out, length);
    push_vendor(out, avp.vendor);
    push(out, avp.bytes);
    push_padding(out, length);
}

fn push_vendor(out: &mut Vec<u8>, vendor: Option<u32>)
    requires { vec_len out.old + length (vendor_bytes vendor) ≤ vec_capacity out.old }
    ensures bytes { out.new.items ≡ out.old.items ++ vendor_bytes vendor }
    ensures field { IsVendorField vendor (vendor_bytes vendor) }
    ensures len { vec_len out.new ≡ vec_len out.old + length (vendor_bytes vendor) }
    ensures capacity { vec_capacity out.old ≤ vec_capacity out.new }
{
    if let Some(vendor) = vendor {
        push_u32(out, vendor);
    }
}

/// Appends the zero bytes after an AVP of this length.
fn push_padding(out: &mut Vec<u8>, length: u32)
    requires { vec_len out.old + (4 - length % 4) % 4 ≤ vec_capacity out.old }
    ensures bytes { out.new.items ≡ out.old.items ++ padding length }
    ensures len { vec_len out.new ≡ vec_len out.old + (4 - length % 4) % 4 }
    ensures capacity { vec_capacity out.old ≤ vec_capacity out.new }
{
    let count = (4 - length as usize % 4) % 4;
    let zeros = [0, 0, 0];
    push(out, &zeros[..count]);
}

fn push_u32(out: &mut Vec<u8>, number: u32)
    requires { vec_len out.old + 4 ≤ vec_capacity out.old }
    ensures bytes { out.new.items ≡ out.old.items ++ big_bytes 4 number }
    ensures field { IsField 4 number (big_bytes 4 number) }
    ensures len { vec_len out.new ≡ vec_len out.old + 4 }
    ensures capacity { vec_capacity out.old ≤ vec_capacity out.new }
{
    let mut bytes = [0; 4];
    BigEndian::write_u32(&mut bytes, number);
    push(out, &bytes);
}

fn push_u24(out: &mut Vec<u8>, number: u32)
    requires small { number < three_bytes }
    requires room { vec_len out.old + 3 ≤ vec_capacity out.old }
    ensures bytes { out.new.items ≡ out.old.items ++ big_bytes 3 number }
    ensures len { vec_len out.new ≡ vec_len out.old + 3 }
    ensures capacity { vec_capacity out.old ≤ vec_capacity out.new }
{
    let mut bytes = [0; 3];
    BigEndian::write_u24(&mut bytes, number);
    push(out, &bytes);
}

/// Appends bytes that the vector has room for.
fn push(out: &mut Vec<u8>, bytes: &[u8])
    requires { vec_len out.old + length bytes.now ≤ vec_capacity out.old }
    ensures bytes { out.new.items ≡ out.old.items ++ bytes.now }
    ensures len { vec_len out.new ≡ vec_len out.old + length bytes.now }
    ensures capacity { vec_capacity out.old ≤ vec_capacity out.new }
{
    out.extend_from_slice(bytes).unwrap();
}
