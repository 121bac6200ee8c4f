//! What is read of bytes, as text.

use super::{Added, push_hex};
use crate::words::number_of;
use dia_wire::{
    Avp, AvpHead, Avps, Header, Key, avp_head, key, number32, read_header, split_message,
};
use std::process::Abort;

/// Adds the AVPs of a level.
pub fn push_avps(out: &mut String, level: &[u8]) -> Added {
    for avp in Avps::new(level) {
        match avp {
            Ok(avp) => push_avp(out, &avp)?,
            Err(_) => out.push_str("fault")?,
        }
    }
    Ok(())
}

fn push_avp(out: &mut String, avp: &Avp<'_>) -> Added {
    let (key, flags, length) = (key(avp), avp.flags, avp.length());
    let mark = if avp.is_mandatory() { " M" } else { "" };
    write!(out, "{key} {flags:02x}{mark} {length} ")?;
    push_hex(out, avp.bytes)?;
    out.push(';')
}

/// Adds the head of the AVP that these bytes begin.
pub fn push_head(rt: &impl Abort, out: &mut String, bytes: &[u8], room: &str) -> Added {
    match avp_head(bytes, number_of(rt, room) as usize) {
        Ok(Some(head)) => push_fields_of_avp(out, &head),
        Ok(None) => out.push_str("more"),
        Err(fault) => write!(out, "{fault:?}"),
    }
}

fn push_fields_of_avp(out: &mut String, head: &AvpHead) -> Added {
    let key = Key {
        code: head.code,
        vendor: head.vendor.unwrap_or(0),
    };
    let length = head.length;
    write!(out, "{key} {length}")
}

/// Adds the fields of the header at the front of some bytes, and the Message Length.
pub fn push_header(out: &mut String, bytes: &[u8]) -> Added {
    match read_header(bytes) {
        Ok((header, length)) => {
            push_fields(out, &header)?;
            write!(out, " {length}")
        }
        Err(fault) => write!(out, "{fault:?}"),
    }
}

/// Adds the fields of the header of a message, and the AVPs.
pub fn push_message(out: &mut String, bytes: &[u8]) -> Added {
    match split_message(bytes) {
        Ok((header, body)) => {
            push_fields(out, &header)?;
            out.push(' ')?;
            push_avps(out, body)
        }
        Err(fault) => write!(out, "{fault:?}"),
    }
}

fn push_fields(out: &mut String, header: &Header) -> Added {
    let Header {
        flags,
        code,
        app,
        hop,
        e2e,
    } = *header;
    write!(out, "{flags:02x} {code} {app} {hop} {e2e}")?;
    push_letter(out, header.is_request(), " R")?;
    push_letter(out, header.is_proxiable(), " P")?;
    push_letter(out, header.is_error(), " E")?;
    push_letter(out, header.is_retransmitted(), " T")
}

fn push_letter(out: &mut String, is_set: bool, letter: &str) -> Added {
    out.push_str(if is_set { letter } else { "" })
}

/// Adds the number of 32 bits that these bytes are.
pub fn push_number(out: &mut String, bytes: &[u8]) -> Added {
    match number32(bytes) {
        Some(number) => write!(out, "{number}"),
        None => out.push('-'),
    }
}
