//! The first word of an AVP's line, and what the dictionary says of the AVP.
ghost use Rattle.std.specs.Prelude.{◌≡◌, ◌<◌, ◌≤◌, length};
ghost use Rattle.std.specs.Prelude.{option_and_then, slice_get, IfSome};
ghost use Rattle.std.specs.Option.{option_map};
ghost use Rattle.dia_data.specs.Plain.{plain_format};
ghost use Rattle.dia_text.specs.Keys.{numbered, parted_code, vendor_code};
ghost use Rattle.dia_text.specs.Keys.{code_of_key, code_of};
ghost use Rattle.dia_text.specs.Keys.{entry_at, format_at, m_flag, default_flags};

use crate::fault::Kind;
use crate::names::NamedBook;
use crate::numbers::number32;
use crate::splitting::split_once;
use dia_book::{Book, Entry, Format, Key, MRule};
use dia_wire::{AVP_MANDATORY, AVP_VENDOR};

/// The code of an AVP, and its Vendor-ID where it has the field.
#[derive(Clone, Copy)]
pub struct AvpCode {
    pub code: u32,
    pub vendor: Option<u32>,
}

impl AvpCode {
    ghost use Rattle.std.specs.Prelude.{◌≡◌};
    ghost use Rattle.dia_text.specs.Keys.{key_of_code};

    /// The AVP's key: without a Vendor-ID its vendor is 0.
    pub fn key(&self) -> Key
        ensures { result ≡ key_of_code self.now }
    {
        Key {
            code: self.code,
            vendor: self.vendor.unwrap_or(0),
        }
    }
}

/// The AVP of a word: `CODE`, `CODE/VENDOR` or `CODE:VENDOR`, or else a name of the dictionary.
pub(crate) fn code_of<B: Book>(named: &NamedBook<'_, B>, word: &[u8]) -> Result<AvpCode, Kind>
    ensures { result ≡ code_of named.now word.now }
{
    if let Some(code) = numbered(word) {
        return Ok(code);
    }
    match named.key(word) {
        Some(key) => Ok(code_of_key(&key)),
        None => Err(Kind::Name),
    }
}

/// The AVP of a word `CODE`, `CODE/VENDOR` or `CODE:VENDOR`, of decimal numbers below 2^32.
pub fn numbered(word: &[u8]) -> Option<AvpCode>
    ensures { result ≡ numbered word.now }
{
    match number32(word) {
        Some(code) => Some(AvpCode { code, vendor: None }),
        None => vendor_code(word),
    }
}

fn vendor_code(word: &[u8]) -> Option<AvpCode>
    ensures { result ≡ vendor_code word.now }
{
    match parted_code(b'/', word) {
        Some(code) => Some(code),
        None => parted_code(b':', word),
    }
}

/// The AVP of `CODE`, this mark, and `VENDOR`.
fn parted_code(mark: u8, word: &[u8]) -> Option<AvpCode>
    ensures { result ≡ parted_code mark word.now }
{
    let (code, vendor) = split_once(mark, word)?;
    let code = number32(code)?;
    let vendor = number32(vendor)?;
    Some(AvpCode {
        code,
        vendor: Some(vendor),
    })
}

fn code_of_key(key: &Key) -> AvpCode
    ensures { result ≡ code_of_key key.now }
{
    AvpCode {
        code: key.code,
        vendor: if key.vendor == 0 {
            None
        } else {
            Some(key.vendor)
        },
    }
}

pub(crate) fn entry<B: Book>(book: &B, code: &AvpCode) -> Option<Entry>
    ensures entry { option_and_then (slice_get (B.meaning book.now).entries) result
        ≡ entry_at (B.meaning book.now) code.now }
    ensures known { IfSome result (λ entry. entry < length (B.meaning book.now).entries) }
{
    book.avp(code.key())
}

/// The format of an AVP that the dictionary knows.
pub(crate) fn format_at<'a, B: Book>(book: &'a B, code: &AvpCode) -> Option<&'a Format>
    ensures { option_map (λ format. plain_format format.now) result
        ≡ format_at (B.meaning book.now) code.now }
{
    match entry(book, code) {
        Some(entry) => Some(book.format(entry)),
        None => None,
    }
}

/// The flags of an AVP where its line has no others.
pub(crate) fn default_flags<B: Book>(book: &B, code: &AvpCode) -> u8
    ensures { result ≡ default_flags (B.meaning book.now) code.now }
{
    let vendor = match code.vendor {
        Some(_) => AVP_VENDOR,
        None => 0,
    };
    vendor + m_flag(rule_at(book, code))
}

fn rule_at<B: Book>(book: &B, code: &AvpCode) -> Option<MRule>
    ensures { result ≡ option_map (λ e. e.rule) (entry_at (B.meaning book.now) code.now) }
{
    match entry(book, code) {
        Some(entry) => Some(book.rule(entry)),
        None => None,
    }
}

fn m_flag(rule: Option<MRule>) -> u8
    ensures value { result ≡ m_flag rule }
    ensures small { result ≤ 64 }
{
    match rule {
        Some(MRule::Must | MRule::Any) => AVP_MANDATORY,
        Some(MRule::MustNot) | None => 0,
    }
}
