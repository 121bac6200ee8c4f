//! Sources and definitions that are too large.
ghost use Rattle.std.specs.Prelude.{◌≡◌, ◌<◌, ◌+◌, ◌^◌, ◌++◌, OnOk, map, length};
ghost use Rattle.dia_ccf.specs.Plain.{plain_source, plain_def};
ghost use Rattle.dia_dict.specs.Resolution.{wrong_limits, too_many_rules, too_many};
ghost use Rattle.dia_dict.specs.Resolution.{part_at, placed, placed_defs};
ghost use Rattle.dia_dict.specs.SourceChecks.{plain_finding};

use super::push_if;
use crate::fault::DictKind;
use crate::findings::{Finding, PartKind, Recorded};
use crate::resolving::checks::{MAX_PARTS, is_long};
use dia_ccf::{Decl, Def, Source};
use std::alloc::AllocError;

/// Adds the definitions with too many rules, and that the source has too many parts.
pub(super) fn push_limits<'a>(
    findings: &mut Vec<Finding<'a>>,
    source: &'a Source,
) -> Result<(), AllocError>
    ensures { OnOk result (map plain_finding findings.new.items
        ≡ map plain_finding findings.old.items ++ wrong_limits (plain_source source.now)) }
{
    push_all_long(findings, source)?;
    push_many(findings, source)
}

/// Adds that the source has too many parts, if it has.
fn push_many(findings: &mut Vec<Finding<'_>>, source: &Source) -> Result<(), AllocError>
    ensures { OnOk result (map plain_finding findings.new.items
        ≡ map plain_finding findings.old.items ++ too_many (plain_source source.now)) }
{
    let parts = count(&source.avps, &source.groups, &source.commands);
    push_if(
        findings,
        parts > MAX_PARTS,
        Recorded::of(DictKind::Limit, "").of_source(),
    )
}

/// How many parts there are.
fn count(avps: &[Decl], groups: &[Def], commands: &[Def]) -> usize
    requires { length avps.now + length groups.now + length commands.now < 2 ^ 64 }
    ensures { result ≡ length avps.now + length groups.now + length commands.now }
{
    avps.len() + groups.len() + commands.len()
}

/// Adds the groups and the commands with too many rules.
fn push_all_long<'a>(findings: &mut Vec<Finding<'a>>, source: &'a Source) -> Result<(), AllocError>
    ensures { OnOk result (map plain_finding findings.new.items ≡ map plain_finding findings.old.items
        ++ too_many_rules (placed_defs (plain_source source.now))) }
{
    push_long(findings, PartKind::Group, &source.groups)?;
    push_long(findings, PartKind::Command, &source.commands)
}

fn push_long<'a>(
    findings: &mut Vec<Finding<'a>>,
    kind: PartKind,
    defs: &'a [Def],
) -> Result<(), AllocError>
    ensures { OnOk result (map plain_finding findings.new.items ≡ map plain_finding findings.old.items
        ++ too_many_rules (placed (part_at kind) (map plain_def defs.now))) }
{
    for (index, def) in defs.iter().enumerate() {
        let finding = Recorded::of(DictKind::Limit, &def.name).at(kind.at(index));
        push_if(findings, is_long(def), finding)?;
    }
    Ok(())
}
