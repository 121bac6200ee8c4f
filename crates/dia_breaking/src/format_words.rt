//! The words of formats, and the numbers of their lists.
ghost use Rattle.std.specs.Prelude.{◌≡◌, ◌++◌, IfOk, OnOk, codes};
ghost use Rattle.std.specs.Option.{option_map, option_map_or};
ghost use Rattle.dia_data.specs.Plain.{plain_format};
ghost use Rattle.dia_breaking.specs.Runs.{lacking_of};
ghost use Rattle.dia_breaking.specs.Words.{format_detail, plain_of};
ghost use Rattle.dia_breaking.specs.Words.{range_text, ranges_at, ranges_text};
ghost use Rattle.dia_breaking.specs.Words.{whole_format, Writes};

use crate::number_lists::{lacking, numbers_of};
use dia_book::Format;
use std::alloc::{AllocError, Global};

/// Adds all numbers that are sent and that the list of the other format lacks, where both have lists; else both formats.
pub(crate) fn push_format_detail(
    alloc: Global,
    out: &mut String,
    sent: Option<&Format>,
    accepted: Option<&Format>,
) -> Result<(), AllocError>
    ensures { OnOk result (Writes out.old out.new (format_detail (plain_of sent.entry) (plain_of accepted.entry))) }
{
    match lacking_of(alloc, sent, accepted)? {
        Some(numbers) => push_lacking(out, &numbers),
        None => push_formats(out, sent, accepted, " accepted"),
    }
}

/// The numbers of the first format that the second lacks, where both have a list.
pub(crate) fn lacking_of(
    alloc: Global,
    sent: Option<&Format>,
    accepted: Option<&Format>,
) -> Result<Option<Vec<(u32, u32)>>, AllocError>
    ensures { IfOk result (λ found. option_map (λ v. v.items) found
        ≡ lacking_of (ranges_at (plain_of sent.entry)) (ranges_at (plain_of accepted.entry))) }
{
    match (sent, accepted) {
        (Some(sent), Some(accepted)) => lacking(alloc, sent, accepted),
        _ => Ok(None),
    }
}

fn push_lacking(out: &mut String, numbers: &[(u32, u32)]) -> Result<(), AllocError>
    ensures { OnOk result (Writes out.old out.new (ranges_text numbers.now ++ codes "sent, not in the list")) }
{
    push_ranges(out, numbers)?;
    out.push_str("sent, not in the list")
}

/// Adds ranges, each followed by a space.
fn push_ranges(out: &mut String, ranges: &[(u32, u32)]) -> Result<(), AllocError>
    ensures { OnOk result (Writes out.old out.new (ranges_text ranges.now)) }
{
    for &(low, high) in ranges {
        push_range(out, low, high)?;
    }
    Ok(())
}

fn push_range(out: &mut String, low: u32, high: u32) -> Result<(), AllocError>
    ensures { OnOk result (Writes out.old out.new (range_text (low, high) ++ codes " ")) }
{
    if low == high {
        write!(out, "{low} ")
    } else {
        write!(out, "{low}..{high} ")
    }
}

/// Adds both formats: what is sent, and what B's side does (`end`) with the other.
pub(crate) fn push_formats(
    out: &mut String,
    sent: Option<&Format>,
    other: Option<&Format>,
    end: &str,
) -> Result<(), AllocError>
    ensures { OnOk result (Writes out.old out.new (option_map_or whole_format (plain_of sent.entry) (codes "any data") ++ codes " sent, "
        ++ option_map_or whole_format (plain_of other.entry) (codes "nothing") ++ end.now)) }
{
    push_format_or(out, sent, "any data")?;
    out.push_str(" sent, ")?;
    push_format_or(out, other, "nothing")?;
    out.push_str(end)
}

/// Adds a format, or this word where there is none.
pub(crate) fn push_format_or(
    out: &mut String,
    format: Option<&Format>,
    otherwise: &str,
) -> Result<(), AllocError>
    ensures { OnOk result (Writes out.old out.new (option_map_or whole_format (plain_of format.entry) otherwise.now)) }
{
    match format {
        Some(format) => push_whole(out, format),
        None => out.push_str(otherwise),
    }
}

/// Adds the word of a format, and all numbers of its list.
fn push_whole(out: &mut String, format: &Format) -> Result<(), AllocError>
    ensures { OnOk result (Writes out.old out.new (whole_format (plain_format format.now))) }
{
    out.push_str(format.word())?;
    match numbers_of(format) {
        Some(numbers) => push_list(out, numbers),
        None => Ok(()),
    }
}

fn push_list(out: &mut String, numbers: &[(u32, u32)]) -> Result<(), AllocError>
    ensures { OnOk result (Writes out.old out.new (codes " ( " ++ ranges_text numbers.now ++ codes ")")) }
{
    out.push_str(" ( ")?;
    push_ranges(out, numbers)?;
    out.push_str(")")
}
