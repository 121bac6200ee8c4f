//! Lines in words.
ghost use Rattle.std.specs.Prelude.{◌≡◌, ◌++◌, OnOk, Some, codes, string_bytes};
ghost use Rattle.std.specs.Option.{option_map};
ghost use Rattle.dia_diff_text.specs.Lines.{before_effect, effect_words, effects_words, field_words, kind_word, sign_word, start_words};
ghost use Rattle.dia_diff_text.specs.Lines.{text_line, values_words};
ghost use Rattle.dia_diff_text.specs.Plain.{plain_parts};

use crate::parts::{Parts, RULE};
use dia_differences::Effects;
use std::alloc::AllocError;

/// Adds a line, as `~ AVP Vendor-Specific-Application-Id: { Vendor-Id } 1..* -> { Vendor-Id } 1; breaks A to B`.
pub(crate) fn push_line(out: &mut String, parts: &Parts<'_>) -> Result<(), AllocError>
    ensures { OnOk result (string_bytes out.new ≡ string_bytes out.old ++ text_line (plain_parts parts.now)) }
{
    push_start(out, parts)?;
    push_field(out, parts.field)?;
    push_values(out, &parts.first, &parts.second)?;
    push_ending(out, parts.there, parts.back)
}

fn push_start(out: &mut String, parts: &Parts<'_>) -> Result<(), AllocError>
    ensures { OnOk result (string_bytes out.new ≡ string_bytes out.old ++ start_words (plain_parts parts.now)) }
{
    out.push_str(sign(parts))?;
    out.push_str(" ")?;
    out.push_str(kind(parts.is_command))?;
    out.push_str(" ")?;
    out.push_str(parts.name)
}

fn kind(is_command: bool) -> &'static str
    ensures { result.now ≡ kind_word is_command }
{
    if is_command { "command" } else { "AVP" }
}

/// The sign of a line: what one dictionary alone has is removed or added.
pub(crate) fn sign(parts: &Parts<'_>) -> &'static str
    ensures { result.now ≡ sign_word (plain_parts parts.now).first (plain_parts parts.now).second }
{
    match (&parts.first, &parts.second) {
        (Some(_), None) => "-",
        (None, Some(_)) => "+",
        (Some(_), Some(_)) | (None, None) => "~",
    }
}

fn push_field(out: &mut String, field: Option<&'static str>) -> Result<(), AllocError>
    ensures { OnOk result (string_bytes out.new
        ≡ string_bytes out.old ++ field_words (option_map (λ w. w.now) field.entry)) }
{
    match field {
        Some(word) => push_word(out, word),
        None => out.push_str(" "),
    }
}

fn push_values(
    out: &mut String,
    first: &Option<String>,
    second: &Option<String>,
) -> Result<(), AllocError>
    ensures { OnOk result (string_bytes out.new ≡ string_bytes out.old
        ++ values_words (option_map string_bytes first.now) (option_map string_bytes second.now)) }
{
    match (first, second) {
        (Some(first), Some(second)) => {
            out.push_str(first.as_str())?;
            out.push_str(" -> ")?;
            out.push_str(second.as_str())
        }
        (Some(first), None) => out.push_str(first.as_str()),
        (None, Some(second)) => out.push_str(second.as_str()),
        (None, None) => Ok(()),
    }
}

fn push_word(out: &mut String, word: &str) -> Result<(), AllocError>
    ensures { OnOk result (string_bytes out.new ≡ string_bytes out.old ++ field_words (Some word.now)) }
{
    if word == RULE {
        return out.push_str(": ");
    }
    out.push_str(": ")?;
    out.push_str(word)?;
    out.push_str(" ")
}

fn push_ending(out: &mut String, there: Effects, back: Effects) -> Result<(), AllocError>
    ensures { OnOk result (string_bytes out.new
        ≡ string_bytes out.old ++ (effects_words there back ++ codes "\n")) }
{
    let breaks = there.breaks || back.breaks;
    let others = breaks || (there.other_format || back.other_format);
    push_effect(out, false, "breaks", there.breaks, back.breaks)?;
    push_effect(
        out,
        breaks,
        "read as another format",
        there.other_format,
        back.other_format,
    )?;
    push_effect(out, others, "ignored", there.ignored, back.ignored)?;
    out.push_str("\n")
}

/// Adds an effect, in each direction that has it.
fn push_effect(
    out: &mut String,
    others: bool,
    word: &str,
    there: bool,
    back: bool,
) -> Result<(), AllocError>
    ensures { OnOk result (string_bytes out.new
        ≡ string_bytes out.old ++ effect_words others word.now there back) }
{
    let before = before_effect(others);
    match (there, back) {
        (true, true) => write!(out, "{before}{word} A to B, {word} B to A"),
        (true, false) => write!(out, "{before}{word} A to B"),
        (false, true) => write!(out, "{before}{word} B to A"),
        (false, false) => Ok(()),
    }
}

fn before_effect(others: bool) -> &'static str
    ensures { result.now ≡ before_effect others }
{
    if others { ", " } else { "; " }
}
