//! Shortest AVPs as bytes.
ghost use Rattle.std.specs.Prelude.{◌≡◌, ◌<◌, ◌+◌, ◌++◌, suc, IfOk, OnOk, length, reverse};
ghost use Rattle.std.specs.List.{flat_map};
ghost use Rattle.std.specs.Option.{option_map, option_map_or};
ghost use Rattle.dia_wire.specs.Written.{padding};
ghost use Rattle.dia_breaking_data.specs.Shortest.{witness_bytes};
ghost use Rattle.dia_breaking_shortest.specs.Bytes.{avp_bytes, avp_flags, front_bytes, head_bytes, inner_parts, is_short};
ghost use Rattle.dia_breaking_shortest.specs.Bytes.{leaf_bytes, least_avp, length_bytes, needs_m, rule_parts, vendor_bytes};
ghost use Rattle.dia_breaking_shortest.specs.Waiting.{bytes_of, bytes_waiting, steps_of, steps_waiting, waiting_parts};

use crate::lengths::shortest_head;
use crate::lookup::Least;
use crate::order::{group_of, rules_of};
use byteorder::{BigEndian, ByteOrder};
use dia_book::{Book, DRule, Entry, Key, MRule};
use dia_breaking_data::{Witness, big_endian};
use dia_breaking_levels::{Part, TOO_LONG};
use dia_wire::{AVP_MANDATORY, AVP_VENDOR};
use std::alloc::{AllocError, Global};

/// AVPs that are still to be written, each with at most so many nested levels of groups.
#[derive(Clone, Copy)]
pub(crate) struct Waiting {
    part: Part,
    levels: usize,
}

/// Adds a shortest AVP of the key that is sent; nothing where none is. M is set only where the dictionary demands it. Of a key
/// that it doesn't know, the AVP is a head without data.
///
/// Open groups wait in a list, so depth costs heap and no stack.
pub fn push_least<B: Book>(
    out: &mut Vec<u8>,
    book: &B,
    least: &Least,
    key: Key,
) -> Result<(), AllocError>
    ensures { OnOk result (out.new.items ≡ out.old.items ++ least_avp (B.meaning book.now) least.now key) }
{
    if !is_short(book, least, key) {
        return Ok(());
    }
    let alloc = *out.allocator();
    let levels = least.lengths.len();
    let mut waiting = Vec::new(alloc);
    waiting.push(Waiting {
        part: Part { key, count: 1 },
        levels,
    })?;
    while let Some(next) = waiting.pop() {
        push_next(alloc, out, &mut waiting, book, least, next)?;
    }
    Ok(())
}

/// Whether a message has room for a shortest AVP of the key.
fn is_short<B: Book>(book: &B, least: &Least, key: Key) -> bool
    ensures { result ≡ is_short (B.meaning book.now) least.now key }
{
    match book.avp(key) {
        Some(entry) => least.entry(entry) < TOO_LONG,
        None => true,
    }
}

/// Adds the first of these AVPs, but for the AVPs within it: they wait, before the others.
fn push_next<B: Book>(
    alloc: Global,
    out: &mut Vec<u8>,
    waiting: &mut Vec<Waiting>,
    book: &B,
    least: &Least,
    next: Waiting,
) -> Result<(), AllocError>
    ensures bytes { OnOk result (out.new.items ++ bytes_waiting (B.meaning book.now) least.now waiting.new.items
        ≡ out.old.items ++ (bytes_of (B.meaning book.now) least.now next
        ++ bytes_waiting (B.meaning book.now) least.now waiting.old.items)) }
    ensures steps { OnOk result (steps_waiting (B.meaning book.now) least.now waiting.new.items
        < steps_of (B.meaning book.now) least.now next
        + steps_waiting (B.meaning book.now) least.now waiting.old.items) }
{
    let Waiting { part, levels } = next;
    if part.count == 0 {
        return Ok(());
    }
    waiting.push(Waiting {
        part: Part {
            key: part.key,
            count: part.count - 1,
        },
        levels,
    })?;
    push_front(out, book, least, part.key)?;
    push_inner(alloc, waiting, book, least, part.key, levels)?;
    Ok(())
}

/// Adds the head of an AVP and a leaf's data.
fn push_front<B: Book>(
    out: &mut Vec<u8>,
    book: &B,
    least: &Least,
    key: Key,
) -> Result<(), AllocError>
    ensures { OnOk result (out.new.items ≡ out.old.items ++ front_bytes (B.meaning book.now) least.now key) }
{
    let Some(entry) = book.avp(key) else {
        return push_head(out, key, false, shortest_head(key));
    };
    match group_of(book, entry) {
        Some(_) => push_head(out, key, needs_m(book, entry), least.entry(entry)),
        None => push_leaf(out, key, needs_m(book, entry), least.data_at(entry)),
    }
}

fn needs_m<B: Book>(book: &B, entry: Entry) -> bool
    requires { entry < length (B.meaning book.now).entries }
    ensures { result ≡ needs_m (B.meaning book.now) entry }
{
    match book.rule(entry) {
        MRule::Must => true,
        MRule::MustNot => false,
        MRule::Any => false,
    }
}

/// Adds a leaf with these data; nothing where there are none.
fn push_leaf(out: &mut Vec<u8>, key: Key, m: bool, found: Option<Witness>) -> Result<(), AllocError>
    ensures { OnOk result (out.new.items ≡ out.old.items ++ leaf_bytes key m (option_map witness_bytes found)) }
{
    match found {
        Some(found) => push_avp(out, key, m, found.as_slice()),
        None => Ok(()),
    }
}

/// Adds an AVP with these data, and its padding (RFC 6733 section 4.1).
#[tactic(auto, using(crate::proofs::BytesInParts::three_parts))]
pub fn push_avp(out: &mut Vec<u8>, key: Key, m: bool, bytes: &[u8]) -> Result<(), AllocError>
    ensures { OnOk result (out.new.items ≡ out.old.items ++ avp_bytes key m bytes.now) }
{
    push_head(out, key, m, shortest_head(key) + bytes.len() as u64)?;
    out.extend_from_slice(bytes)?;
    push_padding(out, bytes.len())
}

/// Adds the head of an AVP of this length, with no Vendor-ID for the vendor 0 (RFC 6733 section 4.1).
#[tactic(auto, using(crate::proofs::BytesInParts::four_parts))]
pub fn push_head(out: &mut Vec<u8>, key: Key, m: bool, length: u64) -> Result<(), AllocError>
    ensures { OnOk result (out.new.items ≡ out.old.items ++ head_bytes key m length) }
{
    out.extend_from_slice(&big_endian(key.code))?;
    out.push(avp_flags(key.vendor, m))?;
    push_length(out, length)?;
    push_vendor(out, key.vendor)
}

/// The V and the M flag.
fn avp_flags(vendor: u32, m: bool) -> u8
    ensures { result ≡ avp_flags vendor m }
{
    if vendor == 0 {
        if m { AVP_MANDATORY } else { 0 }
    } else if m {
        AVP_VENDOR | AVP_MANDATORY
    } else {
        AVP_VENDOR
    }
}

/// Adds the three bytes of a length, or of another such number.
pub fn push_length(out: &mut Vec<u8>, length: u64) -> Result<(), AllocError>
    ensures { OnOk result (out.new.items ≡ out.old.items ++ length_bytes length) }
{
    let mut bytes = [0; 8];
    BigEndian::write_u64(&mut bytes, length);
    out.extend_from_slice(&bytes[5..])
}

fn push_vendor(out: &mut Vec<u8>, vendor: u32) -> Result<(), AllocError>
    ensures { OnOk result (out.new.items ≡ out.old.items ++ vendor_bytes vendor) }
{
    if vendor == 0 {
        Ok(())
    } else {
        out.extend_from_slice(&big_endian(vendor))
    }
}

/// Adds the zero bytes after data of this length.
fn push_padding(out: &mut Vec<u8>, length: usize) -> Result<(), AllocError>
    ensures { OnOk result (out.new.items ≡ out.old.items ++ padding length) }
{
    let zeros = [0, 0, 0];
    out.extend_from_slice(&zeros[..(4 - length % 4) % 4])
}

/// Puts the AVPs within an AVP of the key at the end of the list, the first of them last, if any levels are left for them.
fn push_inner<B: Book>(
    alloc: Global,
    waiting: &mut Vec<Waiting>,
    book: &B,
    least: &Least,
    key: Key,
    levels: usize,
) -> Result<(), AllocError>
    ensures { OnOk result (waiting.new.items ≡ waiting.old.items
        ++ waiting_parts levels (reverse (inner_parts (B.meaning book.now) least.now key))) }
{
    if levels == 0 {
        return Ok(());
    }
    let mut inner = inner_parts(alloc, book, least, key)?;
    inner.reverse();
    push_parts(waiting, inner.as_slice(), levels - 1)?;
    Ok(())
}

fn push_parts(waiting: &mut Vec<Waiting>, parts: &[Part], levels: usize) -> Result<(), AllocError>
    ensures { OnOk result (waiting.new.items ≡ waiting.old.items ++ waiting_parts (suc levels) parts.now) }
{
    for part in parts {
        waiting.push(Waiting {
            part: *part,
            levels,
        })?;
    }
    Ok(())
}

/// The AVPs within a shortest AVP of the key, in their order.
fn inner_parts<B: Book>(
    alloc: Global,
    book: &B,
    least: &Least,
    key: Key,
) -> Result<Vec<Part>, AllocError>
    ensures { IfOk result (λ parts. parts.items ≡ inner_parts (B.meaning book.now) least.now key) }
{
    let Some(entry) = book.avp(key) else {
        return Ok(Vec::new(alloc));
    };
    match group_of(book, entry) {
        Some(def) => parts_of(alloc, rules_of(book, def), least.filler_at(entry)),
        None => Ok(Vec::new(alloc)),
    }
}

/// The key of each rule as often as its least count, and the filler for the wildcard.
fn parts_of(alloc: Global, rules: &[DRule], filler: Option<Key>) -> Result<Vec<Part>, AllocError>
    ensures { IfOk result (λ parts. parts.items ≡ flat_map (rule_parts filler) rules.now) }
{
    let mut parts = Vec::new(alloc);
    for rule in rules {
        push_part(&mut parts, rule, filler)?;
    }
    Ok(parts)
}

fn push_part(parts: &mut Vec<Part>, rule: &DRule, filler: Option<Key>) -> Result<(), AllocError>
    ensures { OnOk result (parts.new.items ≡ parts.old.items ++ rule_parts filler rule.now) }
{
    if rule.min == 0 {
        return Ok(());
    }
    match rule.key.or(filler) {
        Some(key) => parts.push(Part {
            key,
            count: rule.min,
        })?,
        None => {}
    }
    Ok(())
}
