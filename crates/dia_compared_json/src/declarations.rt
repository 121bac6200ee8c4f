//! The declarations of AVPs as JSON.

ghost use Rattle.std.specs.Prelude.{◌≡◌, ◌<◌, ◌++◌, IfOk, IfSome, OnOk, length, map, slice_get, string_bytes, true};
ghost use Rattle.std.specs.List.{flat_map};
ghost use Rattle.serde_json.specs.Data.{object};
ghost use Rattle.serde_json.specs.Written.{compact_text, members_text};
ghost use Rattle.dia_data.specs.Plain.{plain_format, ranges_of};
ghost use Rattle.dia_refused_json.specs.Members.{named_members};
ghost use Rattle.dia_compared_json.specs.Objects.{avp_value, declared_members, declared_value, element, range_value};
ghost use Rattle.dia_compared_json.specs.Objects.{taken_members, values_members, values_value};

use crate::arrays::{array_text, null_text};
use dia_book::{Book, Entry, Format, Key, MRule};
use dia_data::Values;
use dia_refused_json::quoted;
use std::alloc::{AllocError, Global};

/// The AVP with this key by its name, code and vendor, if the dictionary has it.
pub fn avp_text<B: Book>(alloc: Global, book: &B, key: Key) -> Result<String, AllocError>
    ensures { IfOk result (λ text. string_bytes text ≡ compact_text (avp_value (B.meaning book.now) key)) }
{
    match book.avp(key) {
        Some(entry) => named_text(alloc, book.entry_name(entry), key),
        None => null_text(alloc),
    }
}

/// The declaration of the AVP with this key, if the dictionary has one.
pub fn declared_text<B: Book>(
    alloc: Global,
    book: &B,
    key: Option<Key>,
) -> Result<String, AllocError>
    ensures { IfOk result (λ text. string_bytes text ≡ compact_text (declared_value (B.meaning book.now) key)) }
{
    let Some(key) = key else {
        return null_text(alloc);
    };
    match book.avp(key) {
        Some(entry) => entry_text(alloc, book, entry),
        None => null_text(alloc),
    }
}

fn named_text(alloc: Global, name: &str, key: Key) -> Result<String, AllocError>
    ensures { IfOk result (λ text. string_bytes text ≡ compact_text (object (named_members name.now key))) }
{
    let name = quoted(alloc, name)?;
    let code = key.code;
    let vendor = key.vendor;
    format!(in alloc; "{{\"name\":{name},\"code\":{code},\"vendor\":{vendor}}}")
}

fn entry_text<B: Book>(alloc: Global, book: &B, entry: Entry) -> Result<String, AllocError>
    requires { entry < length (B.meaning book.now).entries }
    ensures { IfOk result (λ text. IfSome (slice_get (B.meaning book.now).entries entry)
        (λ e. string_bytes text ≡ compact_text (object (declared_members e)))) }
{
    let format = book.format(entry);
    let key = book.entry_key(entry);
    let code = key.code;
    let vendor = key.vendor;
    let name = quoted(alloc, book.entry_name(entry))?;
    let taken = taken_text(alloc, format, book.rule(entry))?;
    format!(in alloc; "{{\"name\":{name},\"code\":{code},\"vendor\":{vendor}{taken}")
}

/// The members of what an AVP of this format and M rule may be, with the closing brace.
fn taken_text(alloc: Global, format: &Format, rule: MRule) -> Result<String, AllocError>
    ensures { IfOk result (λ text. string_bytes text ≡ members_text true (taken_members (plain_format format.now) rule)) }
{
    let word = format.word();
    let m = rule.word();
    let values = values_text(alloc, format)?;
    format!(in alloc; ",\"format\":\"{word}\",\"m\":\"{m}\"{values}")
}

/// The member of a list of values, if the format may have one, and the closing brace.
fn values_text(alloc: Global, format: &Format) -> Result<String, AllocError>
    ensures { IfOk result (λ text. string_bytes text ≡ members_text true (values_members (plain_format format.now))) }
{
    match format {
        Format::Enumerated(values) => {
            let listed = listed_text(alloc, values)?;
            format!(in alloc; ",\"values\":{listed}}}")
        }
        _ => String::from_str(alloc, "}"),
    }
}

/// The ranges of a list, if there is one.
fn listed_text(alloc: Global, values: &Values) -> Result<String, AllocError>
    ensures { IfOk result (λ text. string_bytes text ≡ compact_text (values_value (ranges_of values.now))) }
{
    let Some(ranges) = values.list() else {
        return null_text(alloc);
    };
    let mut elements = String::new(alloc);
    push_ranges(&mut elements, ranges)?;
    array_text(alloc, elements.as_str())
}

/// Adds the ranges of a list.
fn push_ranges(elements: &mut String, ranges: &[(u32, u32)]) -> Result<(), AllocError>
    ensures { OnOk result (string_bytes elements.new
        ≡ string_bytes elements.old ++ flat_map element (map range_value ranges.now)) }
{
    for range in ranges {
        push_range(elements, *range)?;
    }
    Ok(())
}

fn push_range(elements: &mut String, range: (u32, u32)) -> Result<(), AllocError>
    ensures { OnOk result (string_bytes elements.new ≡ string_bytes elements.old ++ element (range_value range)) }
{
    let (least, most) = range;
    write!(elements, ",[{least},{most}]")
}
