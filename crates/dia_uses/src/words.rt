//! Lines in words, as `CCR/Subscription-Id: Subscription-Id-Data 1` or `CCR: User-Name by [ AVP ]`.
ghost use Rattle.std.specs.Prelude.{◌≡◌, ◌++◌, OnOk, codes, flat_map, map, string_bytes};
ghost use Rattle.dia_uses.specs.Lines.{by_text, counts_text, path_text, range_text, wildcard_text, words_of};

use dia_book::{DRule, RuleKind};
use dia_places::By;
use std::alloc::AllocError;

/// Adds a line.
pub(crate) fn push_words(
    out: &mut String,
    path: &[&str],
    avp: &str,
    by: By,
) -> Result<(), AllocError>
    ensures { OnOk result (string_bytes out.new ≡ string_bytes out.old
        ++ words_of (map (λ name. name.now) path.now) avp.now by) }
{
    push_path(out, path)?;
    out.push_str(": ")?;
    out.push_str(avp)?;
    push_by(out, by)?;
    out.push_str("\n")
}

fn push_path(out: &mut String, path: &[&str]) -> Result<(), AllocError>
    ensures { OnOk result (string_bytes out.new ≡ string_bytes out.old
        ++ path_text (map (λ name. name.now) path.now)) }
{
    match path {
        [command, groups @ ..] => {
            out.push_str(command)?;
            push_groups(out, groups)
        }
        [] => Ok(()),
    }
}

/// Adds names after slashes.
fn push_groups(out: &mut String, groups: &[&str]) -> Result<(), AllocError>
    ensures { OnOk result (string_bytes out.new ≡ string_bytes out.old
        ++ flat_map (λ group. codes "/" ++ group) (map (λ name. name.now) groups.now)) }
{
    for group in groups {
        out.push_str("/")?;
        out.push_str(group)?;
    }
    Ok(())
}

fn push_by(out: &mut String, by: By) -> Result<(), AllocError>
    ensures { OnOk result (string_bytes out.new ≡ string_bytes out.old ++ by_text by) }
{
    match by {
        By::Rule(rule) => {
            out.push_str(" ")?;
            push_counts(out, rule)
        }
        By::Wildcard(rule) => out.push_str(wildcard_words(rule.kind)),
    }
}

/// Adds the counts of a rule, as `3`, `0..1` or `1..*`.
fn push_counts(out: &mut String, rule: DRule) -> Result<(), AllocError>
    ensures { OnOk result (string_bytes out.new ≡ string_bytes out.old ++ counts_text rule) }
{
    let min = rule.min;
    match rule.max {
        None => write!(out, "{min}..*"),
        Some(max) => push_range(out, min, max),
    }
}

fn push_range(out: &mut String, min: u32, max: u32) -> Result<(), AllocError>
    ensures { OnOk result (string_bytes out.new ≡ string_bytes out.old ++ range_text min max) }
{
    if max == min {
        write!(out, "{min}")
    } else {
        write!(out, "{min}..{max}")
    }
}

fn wildcard_words(kind: RuleKind) -> &'static str
    ensures { result.now ≡ wildcard_text kind }
{
    match kind {
        RuleKind::Fixed => " by < AVP >",
        RuleKind::Required => " by { AVP }",
        RuleKind::Optional => " by [ AVP ]",
    }
}
