//! Lines and causes as JSON objects, by their parts.

ghost use Rattle.std.specs.Prelude.{◌≡◌, IfOk, List, OnOk, false, string_bytes};
ghost use Rattle.std.specs.Option.{option_map, option_map_or};
ghost use Rattle.serde_json.specs.Written.{compact_text};
ghost use Rattle.dia_breaking.specs.LineParts.{plain_parts, plain_subject};
ghost use Rattle.dia_upgrades_json.specs.Fields.{Adds, Field, fields_text, object_of};
ghost use Rattle.dia_upgrades_json.specs.Keys.{key_in};
ghost use Rattle.dia_upgrades_json.specs.SpotTexts.{both_in};
ghost use Rattle.dia_upgrades_json.specs.LineObjects.{cause_object, fields_at, header_field, is_of_header};
ghost use Rattle.dia_upgrades_json.specs.LineObjects.{line_object, matter_fields, reason_field, subject_field};
ghost use Rattle.dia_upgrades_json.specs.LineObjects.{text_if, undecided_field};

use crate::amounts::push_detail;
use crate::fields::{object_text, push_bool, push_text, push_u32};
use crate::keys::Names;
use crate::paths::{first_members, path_members};
use crate::spots::push_spots;
use crate::subjects::push_avp;
use dia_breaking::{LineParts, LineReason, Standing, Subject};
use std::alloc::{AllocError, Global};

/// The object of a line, which has these words. `message` is its message in hexadecimal digits, if it has one. The error comes
/// only where memory was refused.
pub fn line_object(
    alloc: Global,
    names: &Names<'_>,
    parts: &LineParts<'_>,
    words: &str,
    message: Option<&str>,
) -> Result<String, AllocError>
    ensures { IfOk result
        (λ text. string_bytes text
        ≡ line_object (key_in names.now.first) (key_in names.now.second) (both_in names.now.texts.value)
        (plain_parts parts.now) words.now (option_map (λ digits. digits.now) message.entry)) }
{
    let place = path_members(alloc, &parts.path)?;
    object_at(alloc, place.as_str(), names, parts, words, message)
}

/// The object of a cause, by the first line that has it, and by how many commands have it. Its line has these words. The error
/// comes only where memory was refused.
pub fn cause_object(
    alloc: Global,
    names: &Names<'_>,
    commands: u64,
    parts: &LineParts<'_>,
    words: &str,
    message: Option<&str>,
) -> Result<String, AllocError>
    ensures { IfOk result
        (λ text. string_bytes text
        ≡ cause_object (key_in names.now.first) (key_in names.now.second) (both_in names.now.texts.value) commands
        (plain_parts parts.now) words.now (option_map (λ digits. digits.now) message.entry)) }
{
    let place = first_members(alloc, commands, &parts.path)?;
    object_at(alloc, place.as_str(), names, parts, words, message)
}

/// The object of a line in a place with these members.
fn object_at(
    alloc: Global,
    place: &str,
    names: &Names<'_>,
    parts: &LineParts<'_>,
    words: &str,
    message: Option<&str>,
) -> Result<String, AllocError>
    ensures { IfOk result (λ text. (members : List Field) → place.now ≡ fields_text members → string_bytes text
        ≡ compact_text (object_of (fields_at members (key_in names.now.first) (key_in names.now.second)
        (both_in names.now.texts.value)
        (plain_parts parts.now) words.now (option_map (λ digits. digits.now) message.entry)))) }
{
    let mut fields = String::new(alloc);
    push_undecided(alloc, &mut fields, parts.standing)?;
    fields.push_str(place)?;
    push_matter(alloc, &mut fields, names, parts)?;
    push_if(alloc, &mut fields, "message", message)?;
    push_spots(alloc, &mut fields, &names.texts, parts)?;
    push_text(alloc, &mut fields, "text", words)?;
    object_text(alloc, fields.as_str())
}

fn push_undecided(alloc: Global, out: &mut String, standing: Standing) -> Result<(), AllocError>
    ensures { OnOk result (Adds out.old out.new (undecided_field standing)) }
{
    match standing {
        Standing::Confirmed | Standing::Unchecked => Ok(()),
        Standing::Undecided => push_bool(alloc, out, "undecided", true),
    }
}

/// Adds a text, if there is one.
pub(crate) fn push_if(
    alloc: Global,
    out: &mut String,
    name: &str,
    text: Option<&str>,
) -> Result<(), AllocError>
    ensures { OnOk result (Adds out.old out.new (text_if name.now (option_map (λ t. t.now) text.entry))) }
{
    match text {
        Some(text) => push_text(alloc, out, name, text),
        None => Ok(()),
    }
}

/// Adds the reason, the subject, what is sent and accepted, and whether the header breaks.
fn push_matter(
    alloc: Global,
    out: &mut String,
    names: &Names<'_>,
    parts: &LineParts<'_>,
) -> Result<(), AllocError>
    ensures { OnOk result (Adds out.old out.new
        (matter_fields (key_in names.now.first) (key_in names.now.second) (plain_parts parts.now))) }
{
    push_reason(alloc, out, parts.reason)?;
    push_subject(alloc, out, names, parts.subject)?;
    push_detail(alloc, out, parts)?;
    push_header(alloc, out, parts.reason)
}

fn push_reason(
    alloc: Global,
    out: &mut String,
    reason: Option<LineReason>,
) -> Result<(), AllocError>
    ensures { OnOk result (Adds out.old out.new (reason_field reason)) }
{
    match reason {
        Some(reason) => push_text(alloc, out, "reason", reason.word()),
        None => Ok(()),
    }
}

fn push_subject(
    alloc: Global,
    out: &mut String,
    names: &Names<'_>,
    subject: Subject<'_>,
) -> Result<(), AllocError>
    ensures { OnOk result (Adds out.old out.new
        (subject_field (key_in names.now.first) (key_in names.now.second) (plain_subject subject.entry))) }
{
    match subject {
        Subject::Header => Ok(()),
        Subject::Application(app) => push_u32(alloc, out, "refused_application", app),
        Subject::Avp(name) => push_avp(alloc, out, names, name),
    }
}

fn push_header(
    alloc: Global,
    out: &mut String,
    reason: Option<LineReason>,
) -> Result<(), AllocError>
    ensures { OnOk result (Adds out.old out.new (header_field reason)) }
{
    push_bool(alloc, out, "in_header", is_in_header(reason))
}

fn is_in_header(reason: Option<LineReason>) -> bool
    ensures { result ≡ option_map_or is_of_header reason false }
{
    match reason {
        Some(LineReason::Command | LineReason::Application | LineReason::Proxiable) => true,
        Some(_) => false,
        None => false,
    }
}
