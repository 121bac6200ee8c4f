//! What the applications of a CEA have in common with those of its CER, as text.

ghost use Rattle.std.specs.Prelude.{◌≡◌, ◌++◌, OnOk, drop, false, string_bytes};
ghost use Rattle.std.specs.List.{flat_map};
ghost use Rattle.dia_follow.specs.Commons.{common_of};
ghost use Rattle.dia_follow.specs.Departures.{known_common};
ghost use Rattle.dia_follow_text.specs.Commons.{comma, common_text, entries_text, entry_text, known_common_text, listed_text};

use dia_follow::{Common, Listed, Moment};
use std::alloc::{AllocError, Global};

/// Adds what the applications of a CEA have in common with those of its CER.
pub(crate) fn push_known_common(
    alloc: Global,
    text: &mut String,
    moment: &Moment<'_>,
) -> Result<(), AllocError>
    ensures { OnOk result (string_bytes text.new
        ≡ string_bytes text.old ++ known_common_text (known_common moment.now)) }
{
    match moment.common(alloc)? {
        Some(common) => push_common(text, &common),
        None => Ok(()),
    }
}

fn push_common(text: &mut String, common: &Common) -> Result<(), AllocError>
    ensures { OnOk result (string_bytes text.new
        ≡ string_bytes text.old ++ common_text (common_of common.now)) }
{
    if common.is_empty() {
        return text.push_str("none");
    }
    match common {
        Common::All => text.push_str("all"),
        Common::These(listed) => push_listed(text, listed),
    }
}

fn push_listed(text: &mut String, listed: &Listed) -> Result<(), AllocError>
    ensures { OnOk result (string_bytes text.new
        ≡ string_bytes text.old ++ listed_text listed.now.auth.items listed.now.acct.items) }
{
    push_entries(text, true, "auth", &listed.auth)?;
    push_entries(text, listed.auth.is_empty(), "acct", &listed.acct)
}

/// Adds applications of one kind, with a comma before each but the first of all.
fn push_entries(
    text: &mut String,
    is_first: bool,
    kind: &str,
    numbers: &[u32],
) -> Result<(), AllocError>
    ensures { OnOk result (string_bytes text.new
        ≡ string_bytes text.old ++ entries_text is_first kind.now numbers.now) }
{
    match numbers.first() {
        Some(first) => push_first(text, is_first, kind, *first, after_first(numbers)),
        None => Ok(()),
    }
}

fn push_first(
    text: &mut String,
    is_first: bool,
    kind: &str,
    number: u32,
    others: &[u32],
) -> Result<(), AllocError>
    ensures { OnOk result (string_bytes text.new ≡ string_bytes text.old
        ++ (entry_text is_first kind.now number ++ flat_map (entry_text false kind.now) others.now)) }
{
    push_entry(text, is_first, kind, number)?;
    push_others(text, kind, others)
}

fn after_first(numbers: &[u32]) -> &[u32]
    ensures { result.now ≡ drop 1 numbers.entry.now }
{
    if numbers.is_empty() {
        numbers
    } else {
        &numbers[1..]
    }
}

fn push_others(text: &mut String, kind: &str, numbers: &[u32]) -> Result<(), AllocError>
    ensures { OnOk result (string_bytes text.new
        ≡ string_bytes text.old ++ flat_map (entry_text false kind.now) numbers.now) }
{
    for number in numbers {
        push_entry(text, false, kind, *number)?;
    }
    Ok(())
}

fn push_entry(text: &mut String, is_first: bool, kind: &str, number: u32) -> Result<(), AllocError>
    ensures { OnOk result (string_bytes text.new
        ≡ string_bytes text.old ++ entry_text is_first kind.now number) }
{
    let comma = comma(is_first);
    write!(text, "{comma}{kind} {number}")
}

fn comma(is_first: bool) -> &'static str
    ensures { result.now ≡ comma is_first }
{
    if is_first { "" } else { ", " }
}
