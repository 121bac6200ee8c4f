//! The data that a value writes.
ghost use Rattle.std.specs.Prelude.{◌≡◌, ◌==◌, ◌<◌, ◌^◌, ◌++◌, IfSome, Err, if◌then◌else◌, map, option_copied};
ghost use Rattle.std.specs.Option.{option_map, option_or};
ghost use Rattle.byteorder.specs.Endian.{big_bytes};
ghost use Rattle.std.specs.List.{slice_split};
ghost use Rattle.dia_data.specs.Plain.{plain_format};
ghost use Rattle.dia_text.specs.declared.fault.Kind.TheVariants.{Value};
ghost use Rattle.dia_text.specs.Words.{unblanked, first_word, after_letter};
ghost use Rattle.dia_text.specs.Numbers.{number_below, any_below};
ghost use Rattle.dia_text.specs.Dates.{time_of};
ghost use Rattle.dia_text.specs.Reading.{Gives, Reads, some_or, at_word};
ghost use Rattle.dia_text.specs.Values.{value_at, words_at, text_at, family_at, value_of, formatted};
ghost use Rattle.dia_text.specs.Values.{number_bytes, address_of, in_family, each, unescaped};
ghost use Rattle.dia_text.specs.Values.{may_be_text, is_address, is_text};
ghost use Rattle.dia_text.specs.Values.{format_wanted, kind_wanted, value_wanted};
ghost use Rattle.dia_text.specs.Values.{eight_read, formatted_as, four_read};
ghost use Rattle.dia_text.specs.ValueParts.{part_bytes};

use crate::dates::time_of;
use crate::fault::{Kind, Misread, NotRead, Wanted};
use crate::fields::{bytes_at, bytes_of};
use crate::numbers::{any_below, any_number, number_below, signed_below};
use crate::splitting::{split, split_once};
use crate::value_parts::{Part, push_parts};
use crate::words::{after_letter, next_word, without_blanks};
use byteorder::{BigEndian, ByteOrder};
use dia_data::{Format, FormatKind, Reading};
use std::alloc::Global;

/// The data that a value writes for an AVP of this format, or for one that the dictionary doesn't know; and what follows it.
#[tactic(auto, unfolding(crate::specs::Values::value_at))]
pub(crate) fn value_at<'a>(
    alloc: Global,
    format: Option<&Format>,
    text: &'a [u8],
) -> Result<(Vec<u8>, &'a [u8]), NotRead>
    ensures { Reads (λ x. (x.0.items, x.1.now)) result
        (value_at (option_map (λ format. plain_format format.now) format.entry) text.entry.now) }
{
    match after_quote(text) {
        None => words_at(alloc, format, text),
        Some(rest) => match quoted_at(alloc, format, rest) {
            Ok(value) => Ok(value),
            Err(misread) => Err(misread.at(text, format_wanted(format))),
        },
    }
}

/// The bytes of a text after its opening quote, if its AVP may have one, and what follows its closing quote.
fn quoted_at<'a>(
    alloc: Global,
    format: Option<&Format>,
    text: &'a [u8],
) -> Result<(Vec<u8>, &'a [u8]), Misread>
    ensures { Gives (λ x. (x.0.items, x.1.now)) result
        (if may_be_text (option_map (λ format. plain_format format.now) format.entry) then some_or (text_at text.entry.now) Value else Err Value) }
{
    if may_be_text(format) {
        text_at(alloc, text)
    } else {
        Err(Misread::Fault(Kind::Value))
    }
}

/// What could be in place of a value of this format.
fn format_wanted(format: Option<&Format>) -> Wanted
    ensures { result
        ≡ format_wanted (option_map (λ format. plain_format format.now) format.entry) }
{
    match format {
        Some(format) => kind_wanted(format.kind()),
        None => Wanted::BytesOfUnknown,
    }
}

fn kind_wanted(kind: FormatKind) -> Wanted
    ensures { result ≡ kind_wanted kind }
{
    match kind {
        FormatKind::AnyBytes => Wanted::TextOrBytes,
        FormatKind::Utf8String | FormatKind::DiameterIdentity | FormatKind::DiameterUri => {
            Wanted::Text
        }
        FormatKind::FourBytes(Reading::Unsigned) => Wanted::Unsigned32,
        FormatKind::FourBytes(Reading::Signed) | FormatKind::Enumerated => Wanted::Signed32,
        FormatKind::EightBytes(Reading::Unsigned) => Wanted::Unsigned64,
        FormatKind::EightBytes(Reading::Signed) => Wanted::Signed64,
        FormatKind::FourBytes(Reading::Bits) | FormatKind::EightBytes(Reading::Bits) => {
            Wanted::Bytes
        }
        FormatKind::Grouped => Wanted::Group,
        FormatKind::Address => Wanted::Address,
    }
}

/// What could be in place of a word that is no value of this format, or is missing.
fn value_wanted(format: Option<&Format>, word: &[u8]) -> Wanted
    ensures { result
        ≡ value_wanted (option_map (λ format. plain_format format.now) format.entry) word.now }
{
    match word {
        [] => Wanted::AnyValue,
        _ => format_wanted(format),
    }
}

/// What follows the opening quote of a text.
fn after_quote(text: &[u8]) -> Option<&[u8]>
    ensures { option_copied result ≡ after_letter 34 (unblanked text.entry.now) }
{
    after_letter(b'"', without_blanks(text))
}

fn may_be_text(format: Option<&Format>) -> bool
    ensures { result
        ≡ may_be_text (option_map (λ format. plain_format format.now) format.entry) }
{
    match format {
        Some(format) => is_text(format.kind()),
        None => true,
    }
}

fn is_text(kind: FormatKind) -> bool
    ensures { result ≡ is_text kind }
{
    matches!(
        kind,
        FormatKind::AnyBytes
            | FormatKind::Utf8String
            | FormatKind::DiameterIdentity
            | FormatKind::DiameterUri
    )
}

/// The bytes of a text after its opening quote, and what follows its closing quote.
fn text_at(alloc: Global, text: &[u8]) -> Result<(Vec<u8>, &[u8]), Misread>
    ensures { Gives (λ x. (x.0.items, x.1.now)) result (some_or (text_at text.entry.now) Value) }
{
    let Some((quoted, rest)) = split_once(b'"', text) else {
        return Err(Misread::Fault(Kind::Value));
    };
    let bytes = unescaped(alloc, quoted)?;
    Ok((bytes, rest))
}

/// The bytes of a text between its quotes.
fn unescaped(alloc: Global, text: &[u8]) -> Result<Vec<u8>, Misread>
    ensures { Gives (λ bytes. bytes.items) result
        (some_or (unescaped (slice_split (λ c. c == 92) text.now)) Value) }
{
    let parts = split(alloc, b'\\', text)?;
    match parts.as_slice() {
        [] => Ok(Vec::new(alloc)),
        [first, rest @ ..] => parts_after(alloc, first, Part::Escaped, rest),
    }
}

/// These bytes, and then those of parts.
fn parts_after(alloc: Global, front: &[u8], part: Part, texts: &[&[u8]]) -> Result<Vec<u8>, Misread>
    ensures { Gives (λ bytes. bytes.items) result (some_or (option_map (λ rest. front.now ++ rest)
        (each (part_bytes part) (map (λ x. x.now) texts.now))) Value) }
{
    let mut bytes = Vec::from_slice(alloc, front)?;
    push_parts(&mut bytes, part, texts)?;
    Ok(bytes)
}

/// The data of a value of words, and what follows it.
#[tactic(auto, unfolding(crate::specs::Values::words_at))]
fn words_at<'a>(
    alloc: Global,
    format: Option<&Format>,
    text: &'a [u8],
) -> Result<(Vec<u8>, &'a [u8]), NotRead>
    ensures { Reads (λ x. (x.0.items, x.1.now)) result
        (words_at (option_map (λ format. plain_format format.now) format.entry) text.entry.now) }
{
    let (word, rest) = next_word(text);
    if is_address(format) && word == b"family".as_slice() {
        return family_at(alloc, rest);
    }
    match value_of(alloc, format, word) {
        Ok(bytes) => Ok((bytes, rest)),
        Err(misread) => Err(misread.at(text, value_wanted(format, word))),
    }
}

fn is_address(format: Option<&Format>) -> bool
    ensures { result
        ≡ is_address (option_map (λ format. plain_format format.now) format.entry) }
{
    matches!(format, Some(Format::Address))
}

/// The data of an address after the word `family`, and what follows it.
#[tactic(auto, unfolding(crate::specs::Values::family_at))]
fn family_at(alloc: Global, text: &[u8]) -> Result<(Vec<u8>, &[u8]), NotRead>
    ensures { Reads (λ x. (x.0.items, x.1.now)) result (family_at text.entry.now) }
{
    let mut bytes = number_at(alloc, text)?;
    let (_, following) = next_word(text);
    let address = bytes_at(alloc, following)?;
    bytes.extend_from_slice(&address)?;
    let (_, rest) = next_word(following);
    Ok((bytes, rest))
}

/// The two bytes of the number of a family, which the first word writes.
fn number_at(alloc: Global, text: &[u8]) -> Result<Vec<u8>, NotRead>
    ensures { Reads (λ bytes. bytes.items) result (at_word text.now Wanted.Family
        (number_bytes 2 (number_below (2 ^ 16) (first_word text.now)))) }
{
    let (word, _) = next_word(text);
    match two(alloc, number_below(1 << 16, word)) {
        Ok(bytes) => Ok(bytes),
        Err(misread) => Err(misread.at(text, Wanted::Family)),
    }
}

/// The data that a word writes for an AVP of this format, or for one that the dictionary doesn't know.
fn value_of(alloc: Global, format: Option<&Format>, word: &[u8]) -> Result<Vec<u8>, Misread>
    ensures { Gives (λ bytes. bytes.items) result
        (value_of (option_map (λ format. plain_format format.now) format.entry) word.now) }
{
    match word {
        [] => Err(Misread::Fault(Kind::Syntax)),
        [b'x', ..] => bytes_of(alloc, word),
        _ => formatted(alloc, format, word),
    }
}

fn formatted(alloc: Global, format: Option<&Format>, word: &[u8]) -> Result<Vec<u8>, Misread>
    ensures { Gives (λ bytes. bytes.items) result
        (formatted (option_map (λ format. plain_format format.now) format.entry) word.now) }
{
    match format {
        Some(Format::Time) => four(alloc, time_number(word)),
        Some(format) => formatted_as(alloc, format.kind(), word),
        None => Err(Misread::Fault(Kind::Value)),
    }
}

/// The number of a Time, as a number or a date.
fn time_number(word: &[u8]) -> Option<u64>
    ensures value { result ≡ option_or (any_below (2 ^ 32) word.now) (time_of word.now) }
    ensures small { IfSome result (λ n. n < 2 ^ 32) }
{
    match any_below(1 << 32, word) {
        Some(number) => Some(number),
        None => Some(u64::from(time_of(word)?)),
    }
}

fn formatted_as(alloc: Global, kind: FormatKind, word: &[u8]) -> Result<Vec<u8>, Misread>
    ensures { Gives (λ bytes. bytes.items) result (formatted_as kind word.now) }
{
    match kind {
        FormatKind::FourBytes(reading) => four_read(alloc, reading, word),
        FormatKind::EightBytes(reading) => eight_read(alloc, reading, word),
        FormatKind::Enumerated => four(alloc, signed_below(1 << 31, word)),
        FormatKind::Address => address_of(alloc, word),
        FormatKind::AnyBytes
        | FormatKind::Grouped
        | FormatKind::Utf8String
        | FormatKind::DiameterIdentity
        | FormatKind::DiameterUri => Err(Misread::Fault(Kind::Value)),
    }
}

/// The 4 bytes of a number that is read so.
fn four_read(alloc: Global, reading: Reading, word: &[u8]) -> Result<Vec<u8>, Misread>
    ensures { Gives (λ bytes. bytes.items) result (four_read reading word.now) }
{
    match reading {
        Reading::Signed => four(alloc, signed_below(1 << 31, word)),
        Reading::Unsigned => four(alloc, any_below(1 << 32, word)),
        Reading::Bits => Err(Misread::Fault(Kind::Value)),
    }
}

/// The 8 bytes of a number that is read so.
fn eight_read(alloc: Global, reading: Reading, word: &[u8]) -> Result<Vec<u8>, Misread>
    ensures { Gives (λ bytes. bytes.items) result (eight_read reading word.now) }
{
    match reading {
        Reading::Signed => eight(alloc, signed_below(1 << 63, word)),
        Reading::Unsigned => eight(alloc, any_number(word)),
        Reading::Bits => Err(Misread::Fault(Kind::Value)),
    }
}

/// The data of an IPv4 or an IPv6 address.
fn address_of(alloc: Global, word: &[u8]) -> Result<Vec<u8>, Misread>
    ensures { Gives (λ bytes. bytes.items) result (some_or (address_of word.now) Value) }
{
    let numbers = split(alloc, b'.', word)?;
    if numbers.len() == 4 {
        return in_family(alloc, 1, Part::Decimal, &numbers);
    }
    let groups = split(alloc, b':', word)?;
    if groups.len() == 8 {
        return in_family(alloc, 2, Part::Pair, &groups);
    }
    Err(Misread::Fault(Kind::Value))
}

/// The data of an address of these parts.
fn in_family(alloc: Global, family: u8, part: Part, texts: &[&[u8]]) -> Result<Vec<u8>, Misread>
    ensures { Gives (λ bytes. bytes.items) result
        (some_or (in_family family (each (part_bytes part) (map (λ x. x.now) texts.now))) Value) }
{
    parts_after(alloc, &[0, family], part, texts)
}

fn two(alloc: Global, number: Option<u64>) -> Result<Vec<u8>, Misread>
    requires { IfSome number (λ n. n < 2 ^ 16) }
    ensures { Gives (λ bytes. bytes.items) result (number_bytes 2 number) }
{
    let Some(number) = number else {
        return Err(Misread::Fault(Kind::Value));
    };
    let mut bytes = [0; 2];
    BigEndian::write_u16(&mut bytes, number as u16);
    Ok(Vec::from_slice(alloc, &bytes)?)
}

fn four(alloc: Global, number: Option<u64>) -> Result<Vec<u8>, Misread>
    requires { IfSome number (λ n. n < 2 ^ 32) }
    ensures { Gives (λ bytes. bytes.items) result (number_bytes 4 number) }
{
    let Some(number) = number else {
        return Err(Misread::Fault(Kind::Value));
    };
    let mut bytes = [0; 4];
    BigEndian::write_u32(&mut bytes, number as u32);
    Ok(Vec::from_slice(alloc, &bytes)?)
}

fn eight(alloc: Global, number: Option<u64>) -> Result<Vec<u8>, Misread>
    ensures { Gives (λ bytes. bytes.items) result (number_bytes 8 number) }
{
    let Some(number) = number else {
        return Err(Misread::Fault(Kind::Value));
    };
    let mut bytes = [0; 8];
    BigEndian::write_u64(&mut bytes, number);
    Ok(Vec::from_slice(alloc, &bytes)?)
}
