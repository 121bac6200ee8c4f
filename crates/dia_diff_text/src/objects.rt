//! Lines as JSON objects (RFC 8259). Names and words are of ASCII without quotes and backslashes, and need no escapes.
ghost use Rattle.std.specs.Prelude.{◌≡◌, ◌++◌, OnOk, Some, codes, string_bytes};
ghost use Rattle.std.specs.Option.{option_map};
ghost use Rattle.dia_diff_text.specs.Lines.{json_directions, json_effect, json_effects, json_kind, json_line, json_start};
ghost use Rattle.dia_diff_text.specs.Lines.{member_words};
ghost use Rattle.dia_diff_text.specs.Plain.{plain_parts};

use crate::parts::Parts;
use crate::writing::sign;
use dia_differences::Effects;
use std::alloc::AllocError;

/// Adds the object of a line.
pub(crate) fn push_object(out: &mut String, parts: &Parts<'_>) -> Result<(), AllocError>
    ensures { OnOk result (string_bytes out.new ≡ string_bytes out.old ++ json_line (plain_parts parts.now)) }
{
    push_start(out, parts)?;
    push_field(out, parts.field)?;
    push_words(out, "first", &parts.first)?;
    push_words(out, "second", &parts.second)?;
    push_effects(out, parts.there, parts.back)
}

fn push_start(out: &mut String, parts: &Parts<'_>) -> Result<(), AllocError>
    ensures { OnOk result (string_bytes out.new ≡ string_bytes out.old ++ json_start (plain_parts parts.now)) }
{
    out.push_str("{\"sign\":\"")?;
    out.push_str(sign(parts))?;
    out.push_str("\",\"kind\":\"")?;
    out.push_str(kind(parts.is_command))?;
    out.push_str("\",\"name\":\"")?;
    out.push_str(parts.name)?;
    out.push_str("\"")
}

fn kind(is_command: bool) -> &'static str
    ensures { result.now ≡ json_kind is_command }
{
    if is_command { "command" } else { "avp" }
}

fn push_field(out: &mut String, field: Option<&'static str>) -> Result<(), AllocError>
    ensures { OnOk result (string_bytes out.new
        ≡ string_bytes out.old ++ member_words (codes "field") (option_map (λ w. w.now) field.entry)) }
{
    match field {
        Some(field) => push_member(out, "field", field),
        None => Ok(()),
    }
}

fn push_words(out: &mut String, member: &str, words: &Option<String>) -> Result<(), AllocError>
    ensures { OnOk result (string_bytes out.new
        ≡ string_bytes out.old ++ member_words member.now (option_map string_bytes words.now)) }
{
    match words {
        Some(words) => push_member(out, member, words.as_str()),
        None => Ok(()),
    }
}

fn push_member(out: &mut String, member: &str, value: &str) -> Result<(), AllocError>
    ensures { OnOk result (string_bytes out.new
        ≡ string_bytes out.old ++ member_words member.now (Some value.now)) }
{
    out.push_str(",\"")?;
    out.push_str(member)?;
    out.push_str("\":\"")?;
    out.push_str(value)?;
    out.push_str("\"")
}

fn push_effects(out: &mut String, there: Effects, back: Effects) -> Result<(), AllocError>
    ensures { OnOk result (string_bytes out.new
        ≡ string_bytes out.old ++ json_effects there back) }
{
    push_effect(out, "breaks", there.breaks, back.breaks)?;
    push_effect(out, "other_format", there.other_format, back.other_format)?;
    push_effect(out, "ignored", there.ignored, back.ignored)?;
    out.push_str("}\n")
}

fn push_effect(out: &mut String, name: &str, there: bool, back: bool) -> Result<(), AllocError>
    ensures { OnOk result (string_bytes out.new
        ≡ string_bytes out.old ++ json_effect name.now there back) }
{
    out.push_str(",\"")?;
    out.push_str(name)?;
    out.push_str("\":[")?;
    out.push_str(directions(there, back))?;
    out.push_str("]")
}

fn directions(there: bool, back: bool) -> &'static str
    ensures { result.now ≡ json_directions there back }
{
    match (there, back) {
        (true, true) => "\"A to B\",\"B to A\"",
        (true, false) => "\"A to B\"",
        (false, true) => "\"B to A\"",
        (false, false) => "",
    }
}
