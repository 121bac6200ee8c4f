//! Names that occur again.
ghost use Rattle.std.specs.Prelude.{◌≡◌, ◌++◌, [], OnOk, map};
ghost use Rattle.dia_ccf.specs.Plain.{plain_source};
ghost use Rattle.dia_terms.specs.Names.{same_bytes};
ghost use Rattle.dia_dict.specs.declared.fault.DictKind.TheVariants.{DuplicateName};
ghost use Rattle.dia_dict.specs.Resolution.{wrong, wrong_names, again, part_at, placed};
ghost use Rattle.dia_dict.specs.SourceChecks.{plain_finding, keyed_text};

use super::repeats::{Keyed, push_repeats};
use crate::fault::DictKind;
use crate::findings::{Finding, Part, PartKind, Recorded};
use crate::resolving::parts::Named;
use dia_ccf::Source;
use std::alloc::{AllocError, Global};

/// Adds the names that occur again among declarations, among groups and among commands.
pub(super) fn push_names<'a>(
    alloc: Global,
    findings: &mut Vec<Finding<'a>>,
    source: &'a Source,
) -> Result<(), AllocError>
    ensures { OnOk result (map plain_finding findings.new.items
        ≡ map plain_finding findings.old.items ++ wrong_names (plain_source source.now)) }
{
    push_names_of(alloc, findings, PartKind::Declaration, &source.avps)?;
    push_names_of(alloc, findings, PartKind::Group, &source.groups)?;
    push_names_of(alloc, findings, PartKind::Command, &source.commands)
}

fn push_names_of<'a, T: Named>(
    alloc: Global,
    findings: &mut Vec<Finding<'a>>,
    kind: PartKind,
    items: &'a [T],
) -> Result<(), AllocError>
    ensures { OnOk result (map plain_finding findings.new.items ≡ map plain_finding findings.old.items
        ++ again same_bytes (λ n. wrong DuplicateName n []) (placed (part_at kind) (map T.name items.now))) }
{
    let mut names = Vec::new(alloc);
    for (index, item) in items.iter().enumerate() {
        names.push(named(kind.at(index), item.name()))?;
    }
    push_repeats(alloc, findings, &names)
}

fn named(part: Part, name: &str) -> Keyed<'_, &str>
    ensures { keyed_text result ≡ (part, (name.now, wrong DuplicateName name.now [])) }
{
    Keyed {
        part,
        key: name,
        recorded: Recorded::of(DictKind::DuplicateName, name),
    }
}
