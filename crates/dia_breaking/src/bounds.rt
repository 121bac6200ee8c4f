//! How often AVPs may occur in a level.
ghost use Rattle.std.specs.Prelude.{◌≡◌, ◌++◌, OnOk};
ghost use Rattle.dia_breaking.specs.Words.{bounds_of, bounds_text, max_text, no_bounds, rule_bounds, wild_bounds, Writes};

use dia_book::DRule;
use std::alloc::AllocError;

/// How often an AVP may occur in a level.
#[derive(Clone, Copy)]
pub(crate) struct Bounds {
    pub min: u32,
    pub max: Option<u32>,
}

impl Bounds {
    /// None at all.
    pub fn none() -> Bounds
        ensures { result ≡ no_bounds }
    {
        Bounds {
            min: 0,
            max: Some(0),
        }
    }

    /// The bounds of a rule.
    pub fn of(rule: DRule) -> Bounds
        ensures { result ≡ rule_bounds rule }
    {
        Bounds {
            min: rule.min,
            max: rule.max,
        }
    }

    /// The bounds of a rule; where there is none, those of an AVP that never occurs there.
    pub fn of_rule(rule: Option<DRule>) -> Bounds
        ensures { result ≡ bounds_of rule }
    {
        match rule {
            Some(rule) => Bounds::of(rule),
            None => Bounds::none(),
        }
    }

    /// The bounds of an AVP that only the wildcard lets in: none occurs if none is sent.
    pub fn of_wildcard(is_sent: bool, wildcard: DRule) -> Bounds
        ensures { result ≡ wild_bounds is_sent wildcard }
    {
        if is_sent {
            Bounds {
                min: 0,
                max: wildcard.max,
            }
        } else {
            Bounds::none()
        }
    }
}

/// Adds counts, as `3`, `0..1` or `1..*`.
pub(crate) fn push_bounds(out: &mut String, bounds: Bounds) -> Result<(), AllocError>
    ensures { OnOk result (Writes out.old out.new (bounds_text bounds)) }
{
    let min = bounds.min;
    write!(out, "{min}")?;
    push_max(out, min, bounds.max)
}

fn push_max(out: &mut String, min: u32, max: Option<u32>) -> Result<(), AllocError>
    ensures { OnOk result (Writes out.old out.new (max_text min max)) }
{
    match max {
        None => out.push_str("..*"),
        Some(max) => {
            if max == min {
                return Ok(());
            }
            write!(out, "..{max}")
        }
    }
}
