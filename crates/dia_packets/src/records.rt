//! The records of a pcap file.

ghost use Rattle.std.specs.Prelude.{◌≡◌, ◌≤◌, ◌+◌, ◌<◌, ℕ, length, drop, Ok, None, IfOk, IfErr, IfSome, OnErr};
ghost use Rattle.dia_packets.specs.declared.fault.Cause.TheVariants.{Length, Version};
ghost use Rattle.dia_packets.specs.Packets.{numbered};
ghost use Rattle.dia_packets.specs.Records.{HasRecord, HasVersion, IsLong, IsShort, form_of, record_packet, record_size};
ghost use Rattle.dia_packets.specs.Records.{head_size, time_of, unit_length};

use crate::fault::Cause;
use crate::kind::Unit;
use crate::order::{Order, u16_at, u32_at};
use crate::packet::Captured;

/// How the records of a file are read.
#[derive(Clone, Copy)]
pub struct Form {
    pub order: Order,
    pub unit: Unit,
    pub link: u16,
}

/// The bytes of a file before its records.
pub(crate) const FILE_HEAD: usize = 24;

/// The bytes of a record before those of its packet.
const RECORD_HEAD: usize = 16;

/// The most bytes of a packet that are read.
pub(crate) const MOST_CAPTURED: usize = 262_144;

pub(crate) const NANOSECONDS: u64 = 1_000_000_000;

/// How the records of the file with this head are read. `None` where the head isn't whole.
pub(crate) fn form_at(order: Order, unit: Unit, bytes: &[u8]) -> Result<Option<Form>, Cause>
    ensures form { IfOk result (λ found. IfSome found (λ form. (head_size ≤ length bytes.now)
        × HasVersion order bytes.now × (form ≡ form_of order unit bytes.now))) }
    ensures none { result ≡ Ok None → length bytes.now < head_size }
    ensures version { OnErr result ((head_size ≤ length bytes.now) × ¬ HasVersion order bytes.now) }
    ensures cause { IfErr result (λ cause. cause ≡ Version) }
{
    if bytes.len() < FILE_HEAD {
        return Ok(None);
    }
    if u16_at(order, bytes, 4) != 2 || u16_at(order, bytes, 6) != 4 {
        return Err(Cause::Version);
    }
    Ok(Some(Form {
        order,
        unit,
        link: (u32_at(order, bytes, 20) % 0x1_0000) as u16,
    }))
}

/// The packet of the record at the front, and what follows it. `None` where the record isn't whole.
pub(crate) fn next_record(form: Form, bytes: &[u8]) -> Result<Option<(Captured<'_>, &[u8])>, Cause>
    ensures packet { IfOk result (λ next. IfSome next (λ found. HasRecord form bytes.entry.now
        × ((n : ℕ) → numbered n found.0 ≡ record_packet form n bytes.entry.now)
        × (found.1.now ≡ drop (record_size form bytes.entry.now) bytes.entry.now))) }
    ensures none { result ≡ Ok None → IsShort form bytes.entry.now }
    ensures long { OnErr result (IsLong form bytes.entry.now) }
    ensures cause { IfErr result (λ cause. cause ≡ Length) }
{
    if bytes.len() < RECORD_HEAD {
        return Ok(None);
    }
    let kept = u32_at(form.order, bytes, 8) as usize;
    if kept > MOST_CAPTURED {
        return Err(Cause::Length);
    }
    let size = RECORD_HEAD + kept;
    if bytes.len() < size {
        return Ok(None);
    }
    let captured = Captured {
        time: Some(time_at(form, bytes)),
        link: form.link,
        bytes: &bytes[RECORD_HEAD..size],
        size: u32_at(form.order, bytes, 12),
    };
    Ok(Some((captured, &bytes[size..])))
}

/// The time at the front of a record, in nanoseconds since 1970.
fn time_at(form: Form, bytes: &[u8]) -> u64
    requires { 8 ≤ length bytes.now }
    ensures { result ≡ time_of form bytes.now }
{
    let seconds = u64::from(u32_at(form.order, bytes, 0));
    let fraction = u64::from(u32_at(form.order, bytes, 4));
    seconds * NANOSECONDS + fraction * nanoseconds(form.unit)
}

/// How many nanoseconds a unit has.
fn nanoseconds(unit: Unit) -> u64
    ensures length { result ≡ unit_length unit }
    ensures most { result ≤ 1000 }
{
    match unit {
        Unit::Microseconds => 1000,
        Unit::Nanoseconds => 1,
    }
}
