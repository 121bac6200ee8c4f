//! What follows the lines of an answer.
ghost use Rattle.std.specs.Prelude.{◌≡◌, ◌++◌, [], OnOk, codes};
ghost use Rattle.std.specs.Prelude.{flat_map, map, nat_eq, string_bytes};
ghost use Rattle.std.specs.List.{list_any};
ghost use Rattle.std.specs.Fmt.{decimal};
ghost use Rattle.json.specs.Print.{quoted};
ghost use Rattle.dia_accepted.specs.Accepted.{plain_entry};
ghost use Rattle.dia_lint.specs.Words.{rule_number};
ghost use Rattle.dia_lint_text.specs.Lines.{counts_json, ending};
ghost use Rattle.dia_lint_text.specs.Lines.{nothing_text, rules_among};
ghost use Rattle.dia_lint_text.specs.Lines.{stale_line, strings, another};

use crate::listing::Shown;
use dia_accepted::Entry;
use dia_lint::{Rule, all_rules};
use dia_refused_json::quoted;
use std::alloc::{AllocError, Global};

/// Adds what follows the lines.
pub(crate) fn push_ending(
    alloc: Global,
    out: &mut String,
    json: bool,
    shown: &[Shown],
    accepted: usize,
    stale: &[Entry],
) -> Result<(), AllocError>
    ensures { OnOk result (string_bytes out.new ≡ string_bytes out.old
        ++ ending json (map (λ s. s.rule) shown.now) accepted (map plain_entry stale.now)) }
{
    if json {
        push_counts(alloc, out, shown, accepted, stale)
    } else if shown.is_empty() && stale.is_empty() {
        out.push_str(nothing(accepted))
    } else {
        push_stale(out, stale)
    }
}

/// The line where no other is written.
fn nothing(accepted: usize) -> &'static str
    ensures { result.now ≡ nothing_text accepted }
{
    if accepted == 0 {
        "nothing found\n"
    } else {
        "nothing else found\n"
    }
}

fn push_stale(out: &mut String, stale: &[Entry]) -> Result<(), AllocError>
    ensures { OnOk result (string_bytes out.new ≡ string_bytes out.old ++ flat_map stale_line (map plain_entry stale.now)) }
{
    for entry in stale {
        push_stale_line(out, entry.words.as_str())?;
    }
    Ok(())
}

fn push_stale_line(out: &mut String, words: &str) -> Result<(), AllocError>
    ensures { OnOk result (string_bytes out.new ≡ string_bytes out.old ++ (codes "stale: " ++ words.now ++ codes "\n")) }
{
    write!(out, "stale: {words}\n")
}

/// Adds the object that counts.
fn push_counts(
    alloc: Global,
    out: &mut String,
    shown: &[Shown],
    accepted: usize,
    stale: &[Entry],
) -> Result<(), AllocError>
    ensures { OnOk result (string_bytes out.new ≡ string_bytes out.old
        ++ counts_json (map (λ s. s.rule) shown.now) accepted (map plain_entry stale.now)) }
{
    push_numbers(out, shown.len(), rules_among(shown), accepted)?;
    push_array(alloc, out, stale)?;
    out.push_str("]}\n")
}

fn push_numbers(
    out: &mut String,
    lines: usize,
    rules: usize,
    accepted: usize,
) -> Result<(), AllocError>
    ensures { OnOk result (string_bytes out.new ≡ string_bytes out.old ++ (codes "{\"lines\":" ++ decimal lines
        ++ codes ",\"rules\":" ++ decimal rules ++ codes ",\"accepted\":" ++ decimal accepted ++ codes ",\"stale\":[")) }
{
    write!(
        out,
        "{{\"lines\":{lines},\"rules\":{rules},\"accepted\":{accepted},\"stale\":["
    )
}

/// How many rules the lines have.
pub(crate) fn rules_among(shown: &[Shown]) -> usize
    ensures { result ≡ rules_among (map (λ s. s.rule) shown.now) }
{
    all_rules()
        .iter()
        .filter(|rule| has_rule(shown, **rule))
        .count()
}

fn has_rule(shown: &[Shown], rule: Rule) -> bool
    ensures { result ≡ list_any (nat_eq (rule_number rule)) (map (λ s. s.rule) shown.now) }
{
    let number = rule.number();
    shown.iter().any(|line| number == line.rule)
}

/// Adds the words of entries as strings, with commas between them.
fn push_array(alloc: Global, out: &mut String, entries: &[Entry]) -> Result<(), AllocError>
    ensures { OnOk result (string_bytes out.new ≡ string_bytes out.old
        ++ strings (map (λ e. e.words) (map plain_entry entries.now))) }
{
    match entries {
        [] => Ok(()),
        [first, others @ ..] => {
            out.push_str(&quoted(alloc, &first.words)?)?;
            push_others(alloc, out, others)
        }
    }
}

fn push_others(alloc: Global, out: &mut String, entries: &[Entry]) -> Result<(), AllocError>
    ensures { OnOk result (string_bytes out.new ≡ string_bytes out.old
        ++ flat_map another (map (λ e. e.words) (map plain_entry entries.now))) }
{
    for entry in entries {
        push_other(out, &quoted(alloc, &entry.words)?)?;
    }
    Ok(())
}

fn push_other(out: &mut String, string: &str) -> Result<(), AllocError>
    ensures { OnOk result (string_bytes out.new ≡ string_bytes out.old ++ (codes "," ++ string.now)) }
{
    write!(out, ",{string}")
}
