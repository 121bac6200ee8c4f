//! What fails a test of a pair, as JSON.

ghost use Rattle.std.specs.Prelude.{◌≡◌, ◌++◌, IfOk, OnOk, map, string_bytes, true};
ghost use Rattle.std.specs.List.{flat_map};
ghost use Rattle.serde_json.specs.Data.{array, member, no_members};
ghost use Rattle.serde_json.specs.Written.{compact_text, members_text};
ghost use Rattle.dia_compared_json.specs.Objects.{element, items_of};
ghost use Rattle.dia_compared_json.specs.Parts.{failing_value, more_members, part_value};

use crate::arrays::{array_text, push_element};
use crate::failing_parts::{accepted_part, sent_part};
use crate::failing_words::why_word;
use crate::parts::{Part, part_text};
use crate::sides::Side;
use dia_book::Book;
use dia_compat::Failing;
use dia_refused_json::quoted;
use std::alloc::{AllocError, Global};

/// The array of an object for each.
pub fn failings_text<A: Book, B: Book>(
    alloc: Global,
    a: &Side<'_, A>,
    b: &Side<'_, B>,
    failings: &[Failing],
) -> Result<String, AllocError>
    ensures { IfOk result (λ text. string_bytes text
        ≡ compact_text (array (items_of (map (failing_value a.now b.now) failings.now)))) }
{
    let mut elements = String::new(alloc);
    push_failings(alloc, &mut elements, a, b, failings)?;
    array_text(alloc, elements.as_str())
}

/// Adds an object for each.
fn push_failings<A: Book, B: Book>(
    alloc: Global,
    elements: &mut String,
    a: &Side<'_, A>,
    b: &Side<'_, B>,
    failings: &[Failing],
) -> Result<(), AllocError>
    ensures { OnOk result (string_bytes elements.new ≡ string_bytes elements.old
        ++ flat_map element (map (failing_value a.now b.now) failings.now)) }
{
    for failing in failings {
        push_failing(alloc, elements, a, b, *failing)?;
    }
    Ok(())
}

fn push_failing<A: Book, B: Book>(
    alloc: Global,
    elements: &mut String,
    a: &Side<'_, A>,
    b: &Side<'_, B>,
    failing: Failing,
) -> Result<(), AllocError>
    ensures { OnOk result (string_bytes elements.new
        ≡ string_bytes elements.old ++ element (failing_value a.now b.now failing)) }
{
    let value = failing_text(alloc, a, b, failing)?;
    push_element(elements, value.as_str())
}

/// The object of a failing.
fn failing_text<A: Book, B: Book>(
    alloc: Global,
    a: &Side<'_, A>,
    b: &Side<'_, B>,
    failing: Failing,
) -> Result<String, AllocError>
    ensures { IfOk result (λ text. string_bytes text ≡ compact_text (failing_value a.now b.now failing)) }
{
    let why = why_word(failing);
    let sent = part_text(alloc, a, sent_part(a, failing))?;
    let accepted = part_text(alloc, b, accepted_part(a, failing))?;
    let more = more_text(alloc, a, b, failing)?;
    format!(in alloc; "{{\"why\":\"{why}\",\"sent\":{sent},\"accepted\":{accepted}{more}")
}

/// The other members of a failing, with the closing brace.
fn more_text<A: Book, B: Book>(
    alloc: Global,
    a: &Side<'_, A>,
    b: &Side<'_, B>,
    failing: Failing,
) -> Result<String, AllocError>
    ensures { IfOk result (λ text. string_bytes text ≡ members_text true (more_members a.now b.now failing)) }
{
    match failing {
        Failing::NotCounted { second, .. } => {
            more_of(alloc, "listed", b, Part::Rule(Some(second)))
        }
        Failing::Stranger { key, .. } => more_of(alloc, "avp", b, Part::Avp(key)),
        Failing::LetIn { key, .. } => more_of(alloc, "avp", a, Part::Avp(key)),
        _ => String::from_str(alloc, "}"),
    }
}

/// One more member, with the closing brace.
fn more_of<B: Book>(
    alloc: Global,
    name: &str,
    side: &Side<'_, B>,
    part: Part,
) -> Result<String, AllocError>
    ensures { IfOk result (λ text. string_bytes text
        ≡ members_text true (member name.now (part_value side.now part) no_members)) }
{
    let name = quoted(alloc, name)?;
    let value = part_text(alloc, side, part)?;
    format!(in alloc; ",{name}:{value}}}")
}
