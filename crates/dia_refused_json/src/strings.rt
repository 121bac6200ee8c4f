//! Strings in JSON.

ghost use Rattle.std.specs.Prelude.{◌≡◌, ◌++◌, flat_map, map, IfOk, OnOk, string_bytes};
ghost use Rattle.json.specs.Print.{quoted};
ghost use Rattle.serde_json.specs.Written.{compact_text};
ghost use Rattle.dia_refused_json.specs.Refusals.{another, strings};

use serde_json::Value;
use std::alloc::{AllocError, Global};

/// The string in quotes, with its escapes (RFC 8259 section 7).
pub fn quoted(alloc: Global, string: &str) -> Result<String, AllocError>
    ensures { IfOk result (λ text. string_bytes text ≡ quoted string.now) }
{
    Value::try_from_str(alloc, string)?.to_string(alloc)
}

/// The strings as an array.
pub(crate) fn quoted_array(alloc: Global, list: &[&str]) -> Result<String, AllocError>
    ensures { IfOk result (λ text. string_bytes text
        ≡ compact_text (strings (map (λ string. string.now) list.now))) }
{
    match list {
        [] => String::from_str(alloc, "[]"),
        [first, others @ ..] => {
            let first = quoted(alloc, first)?;
            let mut text = format!(in alloc; "[{first}")?;
            push_others(alloc, &mut text, others)?;
            text.push_str("]")?;
            Ok(text)
        }
    }
}

/// Adds the strings after the first of an array.
fn push_others(alloc: Global, text: &mut String, others: &[&str]) -> Result<(), AllocError>
    ensures { OnOk result (string_bytes text.new
        ≡ string_bytes text.old ++ flat_map another (map (λ string. string.now) others.now)) }
{
    for other in others {
        let other = quoted(alloc, other)?;
        write!(text, ",{other}")?;
    }
    Ok(())
}
