//! Numbers of a list that are sent.
ghost use Rattle.std.specs.Prelude.{◌≡◌, IfOk, OnOk};
ghost use Rattle.std.specs.Option.{option_map};
ghost use Rattle.dia_breaking.specs.LineParts.{more_numbers, numbers_sent, numbers_text, plain_amount};
ghost use Rattle.dia_breaking.specs.Words.{Writes, range_text};

use crate::line_parts::Amount;
use std::alloc::{AllocError, Global};

/// Numbers that are sent, with a space between.
pub(crate) fn numbers_sent(
    alloc: Global,
    numbers: &[(u32, u32)],
) -> Result<Option<Amount>, AllocError>
    ensures { IfOk result (λ sent. option_map plain_amount sent ≡ numbers_sent numbers.now) }
{
    let Some((first, others)) = numbers.split_first() else {
        return Ok(None);
    };
    let mut text = String::new(alloc);
    push_numbers(&mut text, *first, others)?;
    Ok(Some(Amount::Data(text)))
}

fn push_numbers(
    out: &mut String,
    first: (u32, u32),
    others: &[(u32, u32)],
) -> Result<(), AllocError>
    ensures { OnOk result (Writes out.old out.new (numbers_text first others.now)) }
{
    push_numbers_of(out, first)?;
    push_more_numbers(out, others)
}

/// Adds numbers, each after a space.
fn push_more_numbers(out: &mut String, others: &[(u32, u32)]) -> Result<(), AllocError>
    ensures { OnOk result (Writes out.old out.new (more_numbers others.now)) }
{
    for other in others {
        out.push_str(" ")?;
        push_numbers_of(out, *other)?;
    }
    Ok(())
}

/// Adds a number, or the least and the greatest of several.
fn push_numbers_of(out: &mut String, range: (u32, u32)) -> Result<(), AllocError>
    ensures { OnOk result (Writes out.old out.new (range_text range)) }
{
    let (low, high) = range;
    if low == high {
        write!(out, "{low}")
    } else {
        write!(out, "{low}..{high}")
    }
}
