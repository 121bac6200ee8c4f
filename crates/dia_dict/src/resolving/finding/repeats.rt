//! What is equal to something before it.
ghost use Rattle.std.specs.Prelude.{◌≡◌, ◌++◌, ◌∷◌, [], Some, OnOk, map, is_some};
ghost use Rattle.std.specs.Prelude.{if◌then◌else◌};
ghost use Rattle.std.specs.Option.{option_map_or};
ghost use Rattle.indexmap.specs.IndexMap.{get};
ghost use Rattle.dia_dict.specs.Resolution.{finding, repeats};
ghost use Rattle.dia_dict.specs.SourceChecks.{recorded, plain_finding};

use super::push_finding;
use crate::findings::{Finding, Part, Recorded};
use crate::resolving::noting::note;
use indexmap::IndexMap;
use std::alloc::{AllocError, Global};
use std::hash::Hash;

/// A part, what it is compared by, and what is reported of it where one before it is equal.
#[derive(Clone, Copy)]
pub(super) struct Keyed<'a, T> {
    pub part: Part,
    pub key: T,
    pub recorded: Recorded<'a>,
}

/// Adds what is reported of the items that are equal to one before them.
pub(super) fn push_repeats<'a, T: Eq + Hash + Copy>(
    alloc: Global,
    findings: &mut Vec<Finding<'a>>,
    items: &[Keyed<'a, T>],
) -> Result<(), AllocError>
    ensures { OnOk result (map plain_finding findings.new.items ≡ map plain_finding findings.old.items
        ++ map (λ p. finding (recorded p.0.recorded) p.0.part (Some p.1.part))
        (repeats (λ a b. T.eq a.key b.key) [] items.now)) }
{
    let mut parts = Box::new(alloc, IndexMap::new(alloc))?;
    for item in items {
        push_repeat(findings, &mut parts, item.key, item.part, item.recorded)?;
    }
    Ok(())
}

/// Adds a finding where a key is equal to this one, else the key.
fn push_repeat<'a, T: Eq + Hash + Copy>(
    findings: &mut Vec<Finding<'a>>,
    parts: &mut IndexMap<T, Part>,
    key: T,
    part: Part,
    fault: Recorded<'a>,
) -> Result<(), AllocError>
    ensures findings { OnOk result (map plain_finding findings.new.items ≡ map plain_finding findings.old.items
        ++ option_map_or (λ first. finding (recorded fault.entry) part (Some first) ∷ []) (get T.eq parts.old key) []) }
    ensures parts { OnOk result (parts.new.entries ≡ (if is_some (get T.eq parts.old key)
        then parts.old.entries else parts.old.entries ++ (key, part) ∷ [])) }
{
    match note(parts, key, part)? {
        Some(first) => push_finding(findings, fault.at_both(part, Some(first))),
        None => Ok(()),
    }
}
