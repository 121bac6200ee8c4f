//! Headers and AVPs read from bytes.

ghost use Rattle.std.specs.Prelude.{◌≡◌, ◌≢◌, ◌<◌, ◌≤◌, ◌↔◌, length, take};
ghost use Rattle.std.specs.Prelude.{drop, slice_index, IfOk, IfSome};
ghost use Rattle.std.specs.Prelude.{IsSome, IsErr, OnErr, ◌⊎◌, Ok, Err, None, ℕ, List, ◌++◌};
ghost use Rattle.dia_wire.specs.declared.header.Header.{Header as AnyHeader};
ghost use Rattle.dia_wire.specs.Lengths.{avp_head_length, header_length, three_bytes};
ghost use Rattle.dia_wire.specs.Number.{number};
ghost use Rattle.dia_wire.specs.Wire.{IsHead, IsMessageLength, BeginsMessage};
ghost use Rattle.dia_wire.specs.Wire.{PlainAvp, Spells, BeginsWith, BeginsWithNone};
ghost use Rattle.dia_wire.specs.Wire.{HasWholeHead, Heads, CannotBegin, IsBadLength, plain_avp};

use crate::avp::{AVP_HEAD_LENGTH, Avp, AvpFault, AvpHead, padded};
use crate::header::{HEADER_LENGTH, HeadFault, Header, MessageFault};
use crate::opening::{Opening, flags_and_length};
use byteorder::{BigEndian, ByteOrder};

/// The header and the Message Length of the first 20 bytes (RFC 6733 section 3), whatever follows them:
/// the Message Length isn't compared with the bytes that are there. The header fits, as `put_message` asks.
///
/// The first fault that applies is reported: `Short`, then `Version`, then `Length`.
pub fn read_header(bytes: &[u8]) -> Result<(Header, u32), HeadFault>
    ensures head { IfOk result (λ found. IsHead found.0 found.1 (take header_length bytes.now)) }
    ensures long { IfOk result (λ found. IsMessageLength found.1) }
    ensures bounded { IfOk result (λ found. found.1 < three_bytes) }
    ensures fits { IfOk result (λ found. found.0.code < three_bytes) }

    // The first fault that applies.
    ensures short { (result ≡ Err HeadFault.Short) ↔ (length bytes.now < header_length) }
    ensures version { (result ≡ Err HeadFault.Version)
        ↔ ((header_length ≤ length bytes.now) × (slice_index bytes.now 0 ≢ 1)) }
    ensures length_fault { (result ≡ Err HeadFault.Length)
        ↔ ((header_length ≤ length bytes.now) × (slice_index bytes.now 0 ≡ 1)
        × ¬ IsMessageLength (number (take 3 (drop 1 bytes.now)))) }
{
    if bytes.len() < HEADER_LENGTH {
        return Err(HeadFault::Short);
    }
    if bytes[0] != 1 {
        return Err(HeadFault::Version);
    }
    let length = BigEndian::read_u24(&bytes[1..]);
    if length < HEADER_LENGTH as u32 || length % 4 != 0 {
        return Err(HeadFault::Length);
    }
    let (flags, code) = flags_and_length(bytes);
    let header = Header {
        flags,
        code,
        app: BigEndian::read_u32(&bytes[8..]),
        hop: BigEndian::read_u32(&bytes[12..]),
        e2e: BigEndian::read_u32(&bytes[16..]),
    };
    Ok((header, length))
}

/// The header and the body of the message that these bytes are (RFC 6733 section 3): one message, and nothing after it.
/// The body's AVPs aren't looked at.
///
/// The first fault that applies is reported: `Short`, then `Version`, then `Length`, then `Truncated` or `Trailing`.
pub fn split_message(bytes: &[u8]) -> Result<(Header, &[u8]), MessageFault>
    ensures head { IfOk result
        (λ found. IsHead found.0 (length bytes.now) (take header_length bytes.now)) }
    ensures long { IfOk result (λ found. IsMessageLength (length bytes.now)) }
    ensures bounded { IfOk result (λ found. length bytes.now < three_bytes) }
    ensures fits { IfOk result (λ found. found.0.code < three_bytes) }
    ensures body { IfOk result (λ found. found.1.now ≡ drop header_length bytes.now) }

    // The first fault that applies.
    ensures short { (result ≡ Err MessageFault.Short) ↔ (length bytes.now < header_length) }
    ensures version { (result ≡ Err MessageFault.Version)
        ↔ ((header_length ≤ length bytes.now) × (slice_index bytes.now 0 ≢ 1)) }
    ensures length_fault { (result ≡ Err MessageFault.Length)
        ↔ ((header_length ≤ length bytes.now) × (slice_index bytes.now 0 ≡ 1)
        × ¬ IsMessageLength (number (take 3 (drop 1 bytes.now)))) }
    ensures truncated { (result ≡ Err MessageFault.Truncated)
        ↔ ((n : ℕ) × BeginsMessage bytes.now n × (length bytes.now < n)) }
    ensures trailing { (result ≡ Err MessageFault.Trailing)
        ↔ ((n : ℕ) × BeginsMessage bytes.now n × (n < length bytes.now)) }
{
    let (header, length) = read_header(bytes)?;
    let length = length as usize;
    if bytes.len() < length {
        return Err(MessageFault::Truncated);
    }
    if length < bytes.len() {
        return Err(MessageFault::Trailing);
    }
    Ok((header, &bytes[HEADER_LENGTH..]))
}

/// The first AVP of a level (RFC 6733 section 4.1) and what follows its padding, or `None` for an empty level.
///
/// A level is the body of a message or the data of a grouped AVP. Padding of any value is read over (our profile).
/// `Length` comes where the level isn't empty and no front of it spells an AVP.
pub fn next_avp(level: &[u8]) -> Result<Option<(Avp<'_>, &[u8])>, AvpFault>
    ensures end { (result ≡ Ok None) ↔ (length level.now ≡ 0) }
    ensures avp { IfOk result
        (λ next. IfSome next (λ found. BeginsWith (plain_avp found.0) level.now found.1.now)) }
    ensures fault { OnErr result ((0 < length level.now) × BeginsWithNone level.now) }
{
    if level.is_empty() {
        return Ok(None);
    }
    if level.len() < AVP_HEAD_LENGTH {
        return Err(AvpFault::Length);
    }
    let opening = Opening::read(level, level.len())?;
    let avp = Avp {
        code: opening.code,
        flags: opening.flags,
        vendor: opening.vendor(level),
        bytes: &level[opening.start..opening.length as usize],
    };
    Ok(Some((avp, &level[padded(opening.length)..])))
}

/// Bytes spell at most one header and one Message Length.
pub fn one_header()
    ensures { (h k : AnyHeader) (n m : ℕ) (b : List ℕ)
        → IsHead h n b → IsHead k m b → (h ≡ k) × (n ≡ m) }
{}

/// No spelling of an AVP begins another, and bytes spell at most one AVP.
/// So what was written is read again, whatever follows it.
pub fn one_spelling()
    ensures { (v w : PlainAvp) (a b x y : List ℕ)
        → Spells v a → Spells w b → a ++ x ≡ b ++ y → (v ≡ w) × (a ≡ b) }
{}

/// The head of the AVP that these first bytes of a level begin, where `room` bytes of the level are left.
///
/// `None` where the head isn't whole yet: 8 bytes, 12 with a Vendor-ID. `Length` where `room` is under 8, or
/// where the first 8 bytes show a Length that no AVP in that room has.
pub fn avp_head(bytes: &[u8], room: usize) -> Result<Option<AvpHead>, AvpFault>
    ensures head { IfOk result
        (λ o. IfSome o (λ head. HasWholeHead bytes.now × Heads bytes.now head)) }
    ensures none { result ≡ Ok None → ¬ HasWholeHead bytes.now }
    ensures fault { OnErr result (CannotBegin bytes.now room) }
    ensures refused { IsErr result
        ↔ ((room < avp_head_length)
        ⊎ ((avp_head_length ≤ length bytes.now)
        × IsBadLength (slice_index bytes.now 4) (number (take 3 (drop 5 bytes.now))) room)) }
{
    if room < AVP_HEAD_LENGTH {
        return Err(AvpFault::Length);
    }
    if bytes.len() < AVP_HEAD_LENGTH {
        return Ok(None);
    }
    let opening = Opening::read(bytes, room)?;
    if bytes.len() < opening.start {
        return Ok(None);
    }
    Ok(Some(AvpHead {
        code: opening.code,
        flags: opening.flags,
        vendor: opening.vendor(bytes),
        length: opening.length,
    }))
}

/// The number that exactly four bytes are, or `None` for any other count of bytes.
pub fn number32(bytes: &[u8]) -> Option<u32>
    ensures some { IsSome result ↔ (length bytes.now ≡ 4) }
    ensures value { IfSome result (λ n. n ≡ number bytes.now) }
{
    if bytes.len() == 4 {
        Some(BigEndian::read_u32(bytes))
    } else {
        None
    }
}
