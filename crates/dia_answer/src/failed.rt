//! The data of Failed-AVP (RFC 6733 section 7.5).

ghost use Rattle.std.specs.Prelude.{◌≡◌, ◌++◌, ◌+◌, ◌<◌, ◌≤◌, ◌↔◌, ◌^◌, IfOk, IfSome, IsTrue, OnOk, length};
ghost use Rattle.std.specs.Option.{option_map};
ghost use Rattle.byteorder.specs.Endian.{big_bytes};
ghost use Rattle.dia_wire.specs.Lengths.{header_length};
ghost use Rattle.dia_wire.specs.Wire.{plain_avp, Agrees};
ghost use Rattle.dia_wire.specs.Written.{avp_bytes};
ghost use Rattle.dia_answer.specs.Failed.{
  BeginsBy,
  IsFailed,
  IsFailedIn,
  head_bytes,
  heads_length,
  shown_bytes,
  wrapped,
};
ghost use Rattle.dia_answer.specs.Levels.{plain_way};
ghost use Rattle.dia_answer.specs.Requests.{IsOfHeader};

use crate::around::{Around, Step, head_length, padded_length};
use crate::example::Example;
use byteorder::{BigEndian, ByteOrder};
use dia_book::{Book, Class, DRule};
use dia_check::{Fault, Reason, Subject};
use dia_wire::{Avp, HEADER_LENGTH, Header, next_avp};
use std::alloc::{AllocError, Global};

/// The data of Failed-AVP; none for a fault of the header, and for a missing AVP of no key in no group.
pub(crate) fn failed_data<B: Book>(
    alloc: Global,
    book: &B,
    header: &Header,
    bytes: &[u8],
    fault: &Fault,
) -> Result<Option<Vec<u8>>, AllocError>
    requires { header_length ≤ length bytes.now }
    ensures { IfOk result (λ failed. IsFailed (B.meaning book.now) header.now bytes.now fault.now
        (option_map (λ f. f.items) failed)) }
{
    if is_of_header(fault.reason) {
        return Ok(None);
    }
    match book.select(header.code, Class::Request, header.app) {
        Some(def) => {
            let rules = &book.def(def).rules;
            in_body(alloc, book, rules, &bytes[HEADER_LENGTH..], fault)
        }
        None => Ok(None),
    }
}

/// Whether a fault of this reason is one of the header.
fn is_of_header(reason: Reason) -> bool
    ensures { IsTrue result ↔ IsOfHeader reason }
{
    match reason {
        Reason::Version | Reason::Length | Reason::Bits => true,
        Reason::Command | Reason::Application | Reason::Proxiable => true,
        Reason::AvpLength | Reason::Unknown | Reason::MBit | Reason::Missing => false,
        Reason::NotAllowed | Reason::TooMany | Reason::LeafLength => false,
        Reason::LeafValue | Reason::Depth => false,
    }
}

/// The data of Failed-AVP for a fault of the body.
fn in_body<B: Book>(
    alloc: Global,
    book: &B,
    rules: &[DRule],
    body: &[u8],
    fault: &Fault,
) -> Result<Option<Vec<u8>>, AllocError>
    ensures { IfOk result (λ failed. IsFailedIn (B.meaning book.now) rules.now body.now fault.now
        (option_map (λ f. f.items) failed)) }
{
    let around = Around::new(alloc, book, rules, body, fault)?;
    let here = around.here();
    match fault.reason {
        Reason::Missing => match fault.subject {
            Subject::Avp(key) => {
                let example = Example::of_key(book, key);
                wrapped(alloc, &around.groups, Some(example.as_avp()))
            }
            Subject::Nothing => wrapped(alloc, &around.groups, None),
            Subject::Wildcard => wrapped(alloc, &around.groups, None),
        },
        Reason::AvpLength => {
            let example = Example::of_head(book, here);
            wrapped(alloc, &around.groups, Some(example.as_avp()))
        }
        _ => wrapped(alloc, &around.groups, first_of(here)),
    }
}

/// The AVP that begins a level.
fn first_of(level: &[u8]) -> Option<Avp<'_>>
    ensures { BeginsBy level.now (option_map plain_avp result) }
{
    match next_avp(level) {
        Ok(Some((avp, _))) => Some(avp),
        Ok(None) => None,
        Err(_) => None,
    }
}

/// The groups in one another, the outermost first, and in the innermost the AVP; nothing where there is none of them.
fn wrapped(
    alloc: Global,
    groups: &[Step<'_>],
    shown: Option<Avp<'_>>,
) -> Result<Option<Vec<u8>>, AllocError>
    requires { heads_length (plain_way groups.now)
        + length (shown_bytes (option_map plain_avp shown)) < 2 ^ 64 }
    ensures { IfOk result (λ failed. option_map (λ f. f.items) failed
        ≡ wrapped (plain_way groups.now) (option_map plain_avp shown.entry)) }
{
    if groups.is_empty() && shown.is_none() {
        return Ok(None);
    }
    let mut length = match &shown {
        Some(avp) => padded_length(avp),
        None => 0,
    };
    for step in groups {
        length += head_length(step.group.vendor);
    }
    let mut out = Vec::new(alloc);
    for step in groups {
        push_head(&mut out, &step.group, length)?;
        length -= head_length(step.group.vendor);
    }
    if let Some(avp) = &shown {
        push_avp(&mut out, avp)?;
    }
    Ok(Some(out))
}

/// Adds an AVP, padded with zero bytes (RFC 6733 section 4.1).
fn push_avp(out: &mut Vec<u8>, avp: &Avp<'_>) -> Result<(), AllocError>
    ensures { OnOk result (out.new.items ≡ out.old.items ++ avp_bytes (plain_avp avp.now)) }
{
    let length = avp.length();
    push_head(out, avp, length)?;
    out.extend_from_slice(avp.bytes)?;
    let zeros = [0, 0, 0];
    out.extend_from_slice(&zeros[..(4 - length % 4) % 4])
}

/// Adds the head of an AVP of this length (RFC 6733 section 4.1).
fn push_head(out: &mut Vec<u8>, avp: &Avp<'_>, length: usize) -> Result<(), AllocError>
    ensures { OnOk result (out.new.items ≡ out.old.items ++ head_bytes (plain_avp avp.now) length) }
{
    out.extend_from_slice(&four_bytes(avp.code))?;
    out.push(avp.flags)?;
    let mut size = [0; 8];
    BigEndian::write_u64(&mut size, length as u64);
    out.extend_from_slice(&size[5..])?;
    match avp.vendor {
        Some(vendor) => out.extend_from_slice(&four_bytes(vendor)),
        None => Ok(()),
    }
}

/// A number in network byte order.
fn four_bytes(number: u32) -> [u8; 4]
    ensures { result ≡ big_bytes 4 number }
{
    let mut bytes = [0; 4];
    BigEndian::write_u32(&mut bytes, number);
    bytes
}
