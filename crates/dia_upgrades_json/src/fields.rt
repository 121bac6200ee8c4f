//! The texts of members, each with the comma before it.

ghost use Rattle.std.specs.Prelude.{◌≡◌, ◌∷◌, [], IfOk, List, OnOk, false, string_bytes, true};
ghost use Rattle.serde_json.specs.Data.{Data, boolean, null};
ghost use Rattle.serde_json.specs.Written.{compact_text};
ghost use Rattle.json.specs.Print.{quoted};
ghost use Rattle.dia_upgrades_json.specs.Fields.{Adds, Field, after_comma, fields_text, object_of, text_field};
ghost use Rattle.dia_upgrades_json.specs.Members.{unsigned_field};

use serde_json::Value;
use std::alloc::{AllocError, Global};

/// The string in quotes, with its escapes (RFC 8259 section 7).
pub(crate) fn quoted(alloc: Global, string: &str) -> Result<String, AllocError>
    ensures { IfOk result (λ text. string_bytes text ≡ quoted string.now) }
{
    Value::try_from_str(alloc, string)?.to_string(alloc)
}

/// The object that has these members.
pub(crate) fn object_text(alloc: Global, fields: &str) -> Result<String, AllocError>
    ensures { IfOk result (λ text. (members : List Field) → fields.now ≡ fields_text members
        → string_bytes text ≡ compact_text (object_of members)) }
{
    let members = after_comma(fields);
    format!(in alloc; "{{{members}}}")
}

/// What follows the first comma.
pub(crate) fn after_comma(text: &str) -> &str
    ensures { result.now ≡ after_comma text.now }
{
    match text.split_once(',') {
        Some((_, rest)) => rest,
        None => "",
    }
}

/// Adds a member of which this is the text of the value.
pub(crate) fn push_field(
    alloc: Global,
    out: &mut String,
    name: &str,
    value: &str,
) -> Result<(), AllocError>
    ensures { OnOk result ((recorded : Data) → value.now ≡ compact_text recorded
        → Adds out.old out.new ((name.now, recorded) ∷ [])) }
{
    let name = quoted(alloc, name)?;
    write!(out, ",{name}:{value}")
}

/// Adds a string.
pub(crate) fn push_text(
    alloc: Global,
    out: &mut String,
    name: &str,
    text: &str,
) -> Result<(), AllocError>
    ensures { OnOk result (Adds out.old out.new (text_field name.now text.now)) }
{
    let value = quoted(alloc, text)?;
    push_field(alloc, out, name, value.as_str())
}

/// Adds whether something is so.
pub(crate) fn push_bool(
    alloc: Global,
    out: &mut String,
    name: &str,
    is_so: bool,
) -> Result<(), AllocError>
    ensures { OnOk result (Adds out.old out.new ((name.now, boolean is_so) ∷ [])) }
{
    push_field(alloc, out, name, bool_text(is_so))
}

fn bool_text(is_so: bool) -> &'static str
    ensures { result.now ≡ compact_text (boolean is_so) }
{
    if is_so { "true" } else { "false" }
}

/// Adds that there is no value.
pub(crate) fn push_null(alloc: Global, out: &mut String, name: &str) -> Result<(), AllocError>
    ensures { OnOk result (Adds out.old out.new ((name.now, null) ∷ [])) }
{
    push_field(alloc, out, name, "null")
}

/// Adds a number.
pub(crate) fn push_unsigned(
    alloc: Global,
    out: &mut String,
    name: &str,
    number: u64,
) -> Result<(), AllocError>
    ensures { OnOk result (Adds out.old out.new (unsigned_field name.now number)) }
{
    let value = format!(in alloc; "{number}")?;
    push_field(alloc, out, name, value.as_str())
}

/// Adds a number of 32 bits.
pub(crate) fn push_u32(
    alloc: Global,
    out: &mut String,
    name: &str,
    number: u32,
) -> Result<(), AllocError>
    ensures { OnOk result (Adds out.old out.new (unsigned_field name.now number)) }
{
    push_unsigned(alloc, out, name, u64::from(number))
}
