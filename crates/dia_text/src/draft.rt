//! A message under way.
ghost use Rattle.std.specs.Prelude.{◌≡◌, ◌<◌, ◌≤◌, ◌+◌, ◌^◌, ◌++◌, ◌∷◌, IfOk, Ok, OnOk};
ghost use Rattle.std.specs.Prelude.{length, take, drop, vec_len};
ghost use Rattle.std.specs.Option.{option_map};
ghost use Rattle.byteorder.specs.Endian.{big_bytes};
ghost use Rattle.dia_wire.specs.Wire.{head_length};
ghost use Rattle.dia_wire.specs.Written.{padding, vendor_bytes};
ghost use Rattle.dia_text.specs.PlainLines.{plain_line, Open, Close};
ghost use Rattle.dia_text.specs.AllFaults.{IsLeft};
ghost use Rattle.dia_text.specs.Drafts.{front_bytes, length_of, end_bytes, avp_of};
ghost use Rattle.dia_text.specs.Drafts.{Level, Occurs, IsAppended, IsAdded, added};

use crate::fault::{Kind, Misread};
use crate::line::{Head, Line};
use byteorder::{BigEndian, ByteOrder};
use dia_wire::{AVP_HEAD_LENGTH, VENDOR_AVP_HEAD_LENGTH};
use std::alloc::{AllocError, Global};

/// A group that is open: where it begins, and what its line says.
#[derive(Clone, Copy)]
pub struct Opened {
    pub place: usize,
    pub head: Head,
}

/// The first length that no AVP can have.
const TOO_LONG: usize = 1 << 24;

/// Adds what a line says.
pub(crate) fn add(
    alloc: Global,
    out: &mut Vec<u8>,
    groups: &mut Vec<Opened>,
    line: &Line,
) -> Result<(), Misread>
    requires { (level : Level) × Occurs level.outer level.bytes out.old.items groups.old.items }
    ensures added { (level : Level) → Occurs level.outer level.bytes out.old.items groups.old.items
        → IsAdded (added level (plain_line line.now)) result out.new.items groups.new.items }
    ensures bytes { IsLeft result out.old.items out.new.items }
    ensures groups { IsLeft result groups.old.items groups.new.items }
{
    match line {
        Line::Blank => Ok(()),
        Line::Leaf(head, bytes, pad) => push_avp(out, head, bytes, pad),
        Line::Open(head) => Ok(open_group(out, groups, head)?),
        Line::Close(pad) => close_group(alloc, out, groups, pad),
    }
}

#[tactic(auto, unfolding(crate::specs::Drafts::avp_of))]
fn push_avp(
    out: &mut Vec<u8>,
    head: &Head,
    bytes: &[u8],
    pad: &Option<Vec<u8>>,
) -> Result<(), Misread>
    ensures value { IsAppended (avp_of head.now bytes.now (option_map (λ p. p.items) pad.now)) result
        out.old.items out.new.items }
    ensures left { IsLeft result out.old.items out.new.items }
{
    let length = length_of(head, bytes.len())?;
    push_front(out, head, length)?;
    out.extend_from_slice(bytes)?;
    push_end(out, head, bytes.len(), pad)?;
    Ok(())
}

fn length_of(head: &Head, count: usize) -> Result<u32, Kind>
    requires { count < 2 ^ 63 }
    ensures value { result ≡ length_of head.now count }
    ensures small { IfOk result (λ n. n < 2 ^ 24) }
{
    let length = match head.said_length {
        Some(length) => length as usize,
        None => front_len(head) + count,
    };
    if length < TOO_LONG {
        Ok(length as u32)
    } else {
        Err(Kind::Limit)
    }
}

fn front_len(head: &Head) -> usize
    ensures value { result ≡ head_length head.now.code.vendor }
    ensures small { result ≤ 12 }
{
    match head.code.vendor {
        Some(_) => VENDOR_AVP_HEAD_LENGTH,
        None => AVP_HEAD_LENGTH,
    }
}

fn push_front(out: &mut Vec<u8>, head: &Head, length: u32) -> Result<(), AllocError>
    requires { length < 2 ^ 24 }
    ensures { OnOk result (out.new.items ≡ out.old.items ++ front_bytes head.now length) }
{
    push_u32(out, head.code.code)?;
    push_byte_and_u24(out, head.flags, length)?;
    match head.code.vendor {
        Some(vendor) => push_u32(out, vendor),
        None => Ok(()),
    }
}

/// Adds what follows the data: the padding that is written, or else zero bytes.
fn push_end(
    out: &mut Vec<u8>,
    head: &Head,
    count: usize,
    pad: &Option<Vec<u8>>,
) -> Result<(), AllocError>
    requires { count < 2 ^ 63 }
    ensures { OnOk result (out.new.items
        ≡ out.old.items ++ end_bytes head.now count (option_map (λ p. p.items) pad.now)) }
{
    match pad {
        Some(bytes) => out.extend_from_slice(bytes),
        None => push_padding(out, front_len(head) + count),
    }
}

fn push_padding(out: &mut Vec<u8>, length: usize) -> Result<(), AllocError>
    ensures { OnOk result (out.new.items ≡ out.old.items ++ padding length) }
{
    let count = (4 - length % 4) % 4;
    let zeros = [0, 0, 0];
    out.extend_from_slice(&zeros[..count])
}

pub(crate) fn push_u32(out: &mut Vec<u8>, number: u32) -> Result<(), AllocError>
    ensures { OnOk result (out.new.items ≡ out.old.items ++ big_bytes 4 number) }
{
    let mut bytes = [0; 4];
    BigEndian::write_u32(&mut bytes, number);
    out.extend_from_slice(&bytes)
}

/// Adds a byte, and a number of three bytes after it.
pub(crate) fn push_byte_and_u24(out: &mut Vec<u8>, byte: u8, number: u32) -> Result<(), AllocError>
    requires { number < 2 ^ 24 }
    ensures { OnOk result (out.new.items ≡ out.old.items ++ byte ∷ big_bytes 3 number) }
{
    let mut bytes = [0; 3];
    BigEndian::write_u24(&mut bytes, number);
    out.extend_from_slice(&[byte])?;
    out.extend_from_slice(&bytes)
}

/// Opens a group.
pub(crate) fn open_group(
    out: &mut Vec<u8>,
    groups: &mut Vec<Opened>,
    head: &Head,
) -> Result<(), AllocError>
    ensures { (level : Level) → Occurs level.outer level.bytes out.old.items groups.old.items
        → OnOk result (IsAdded (added level (Open head.now)) (Ok tt) out.new.items groups.new.items) }
{
    let place = out.len();
    push_front(out, head, 0)?;
    groups.push(Opened { place, head: *head })?;
    Ok(())
}

fn close_group(
    alloc: Global,
    out: &mut Vec<u8>,
    groups: &mut Vec<Opened>,
    pad: &Option<Vec<u8>>,
) -> Result<(), Misread>
    requires { (level : Level) × Occurs level.outer level.bytes out.old.items groups.old.items }
    ensures added { (level : Level) → Occurs level.outer level.bytes out.old.items groups.old.items
        → IsAdded (added level (Close (option_map (λ p. p.items) pad.now))) result
        out.new.items groups.new.items }
    ensures bytes { IsLeft result out.old.items out.new.items }
    ensures groups { IsLeft result groups.old.items groups.new.items }
{
    let Some(group) = groups.pop() else {
        return Err(Misread::Fault(Kind::Braces));
    };
    let begin = group.place + front_len(&group.head);
    let count = out.len() - begin;
    let length = match length_of(&group.head, count) {
        Ok(length) => length,
        Err(kind) => {
            groups.push(group)?;
            return Err(Misread::Fault(kind));
        }
    };
    write_front(alloc, out, group.place, &group.head, length)?;
    push_end(out, &group.head, count, pad)?;
    Ok(())
}

/// Writes the bytes before a group's data, now that its length is known.
fn write_front(
    alloc: Global,
    out: &mut Vec<u8>,
    place: usize,
    head: &Head,
    length: u32,
) -> Result<(), AllocError>
    requires small { length < 2 ^ 24 }
    requires within { place + head_length head.now.code.vendor ≤ vec_len out.old }
    ensures { OnOk result (out.new.items ≡ take place out.old.items ++ (front_bytes head.now length
        ++ drop (place + head_length head.now.code.vendor) out.old.items)) }
{
    let mut front = Vec::new(alloc);
    push_front(&mut front, head, length)?;
    write_at(out, place, &front);
    Ok(())
}

fn write_at(out: &mut Vec<u8>, place: usize, bytes: &[u8])
    requires { place + length bytes.now ≤ vec_len out.old }
    ensures { out.new.items ≡ take place out.old.items
        ++ (bytes.now ++ drop (place + length bytes.now) out.old.items) }
{
    out[place..place + bytes.len()].copy_from_slice(bytes);
}
