//! The counts of rules, in words.
ghost use Rattle.std.specs.Prelude.{◌≡◌, ◌++◌, OnOk, string_bytes};
ghost use Rattle.dia_differences.specs.Counts.{counts_text, max_text};

use dia_book::DRule;
use std::alloc::AllocError;

/// Adds the counts of a rule, as `3`, `0..1` or `1..*`. The error comes only where memory was refused.
pub fn push_counts(out: &mut String, rule: DRule) -> Result<(), AllocError>
    ensures { OnOk result (string_bytes out.new ≡ string_bytes out.old ++ counts_text rule) }
{
    let min = rule.min;
    write!(out, "{min}")?;
    push_max(out, min, rule.max)
}

fn push_max(out: &mut String, min: u32, max: Option<u32>) -> Result<(), AllocError>
    ensures { OnOk result (string_bytes out.new ≡ string_bytes out.old ++ max_text min max) }
{
    match max {
        None => out.push_str("..*"),
        Some(max) => {
            if max == min {
                return Ok(());
            }
            write!(out, "..{max}")
        }
    }
}
