//! AVPs that are made as examples of what is missing or broken.

ghost use Rattle.std.specs.Prelude.{◌≡◌, ◌≤◌, drop, option_and_then, take};
ghost use Rattle.std.specs.Option.{option_map};
ghost use Rattle.dia_wire.specs.Number.{number};
ghost use Rattle.dia_wire.specs.Wire.{plain_avp};
ghost use Rattle.dia_breaking_data.specs.Shortest.{witness_bytes};
ghost use Rattle.dia_breaking_data.specs.TheData.{the_data};
ghost use Rattle.dia_valid.specs.Valid.{known};
ghost use Rattle.dia_answer.specs.Failed.{corrected, example, filled_head, head_vendor};
ghost use Rattle.dia_answer.specs.Stocks.{m_flag};

use crate::around::head_length;
use dia_book::{Book, Key, MRule};
use dia_breaking_data::{Witness, shortest};
use dia_wire::{AVP_HEAD_LENGTH, AVP_MANDATORY, AVP_VENDOR, Avp, VENDOR_AVP_HEAD_LENGTH, number32};

/// An AVP with least data.
#[derive(Clone, Copy)]
pub(crate) struct Example {
    code: u32,
    flags: u8,
    vendor: Option<u32>,
    least: Option<Witness>,
}

impl Example {
    ghost use Rattle.dia_answer.specs.Examples.{plain_example};

    /// An AVP of the key, as the dictionary has it.
    pub(crate) fn of_key<B: Book>(book: &B, key: Key) -> Example
        ensures { plain_example result ≡ example (B.meaning book.now) key }
    {
        let vendor_flag = if key.vendor == 0 { 0 } else { AVP_VENDOR };
        Example {
            code: key.code,
            flags: m_flag(book, key) | vendor_flag,
            vendor: if key.vendor == 0 {
                None
            } else {
                Some(key.vendor)
            },
            least: least_data(book, key),
        }
    }

    /// The AVP whose head these bytes begin, with zero bytes for those that aren't there.
    pub(crate) fn of_head<B: Book>(book: &B, level: &[u8]) -> Example
        ensures { plain_example result ≡ corrected (B.meaning book.now) level.now }
    {
        let head = filled(level);
        let vendor = vendor_in(&head);
        let key = Key {
            code: number_at(&head, 0),
            vendor: vendor.unwrap_or(0),
        };
        Example {
            code: key.code,
            flags: head[4],
            vendor,
            least: if level.len() < head_length(vendor) {
                None
            } else {
                least_data(book, key)
            },
        }
    }

    pub(crate) fn as_avp(&self) -> Avp<'_>
        ensures { plain_avp result ≡ plain_example self.now }
    {
        Avp {
            code: self.code,
            flags: self.flags,
            vendor: self.vendor,
            bytes: match &self.least {
                Some(least) => least.as_slice(),
                None => &[],
            },
        }
    }
}

/// The first 12 bytes of a level, with zero bytes for those that aren't there.
fn filled(level: &[u8]) -> [u8; VENDOR_AVP_HEAD_LENGTH]
    ensures { result ≡ filled_head level.now }
{
    let mut head = [0; VENDOR_AVP_HEAD_LENGTH];
    let count = level.len().min(VENDOR_AVP_HEAD_LENGTH);
    head[..count].copy_from_slice(&level[..count]);
    head
}

/// The Vendor-ID of a head.
fn vendor_in(head: &[u8; VENDOR_AVP_HEAD_LENGTH]) -> Option<u32>
    ensures { result ≡ head_vendor head.now }
{
    if head[4] & AVP_VENDOR == 0 {
        None
    } else {
        Some(number_at(head, AVP_HEAD_LENGTH))
    }
}

fn number_at(head: &[u8; VENDOR_AVP_HEAD_LENGTH], at: usize) -> u32
    requires { at ≤ 8 }
    ensures { result ≡ number (take 4 (drop at head.now)) }
{
    match number32(&head[at..at + 4]) {
        Some(number) => number,
        None => unreachable!(),
    }
}

/// The M flag of an AVP that is made: set unless its rule forbids it (RFC 6733 section 4.5).
pub(crate) fn m_flag<B: Book>(book: &B, key: Key) -> u8
    ensures { result ≡ m_flag (B.meaning book.now) key }
{
    let Some(entry) = book.avp(key) else {
        return AVP_MANDATORY;
    };
    match book.rule(entry) {
        MRule::Must | MRule::Any => AVP_MANDATORY,
        MRule::MustNot => 0,
    }
}

/// The least data of a known AVP: none of a group.
fn least_data<B: Book>(book: &B, key: Key) -> Option<Witness>
    ensures { option_map witness_bytes result
        ≡ option_and_then (λ e. the_data e.format) (known (B.meaning book.now) key) }
{
    let entry = book.avp(key)?;
    shortest(book.format(entry))
}
