//! All that is wrong with a source, in the order in which it is reported.
ghost use Rattle.std.specs.Prelude.{◌≡◌, ◌++◌, ◌∷◌, [], OnOk, IfOk, map};
ghost use Rattle.std.specs.Prelude.{if◌then◌else◌};
ghost use Rattle.dia_ccf.specs.Plain.{plain_source};
ghost use Rattle.dia_dict.specs.Resolution.{all_findings};
ghost use Rattle.dia_dict.specs.SourceChecks.{plain_finding};

mod entries;
mod limits;
mod repeated_names;
mod repeats;
mod rule_faults;

use super::names::Names;
use crate::findings::Finding;
use std::alloc::{AllocError, Global};

/// All that is wrong with a source.
pub(super) fn found<'a>(alloc: Global, names: &Names<'a>) -> Result<Vec<Finding<'a>>, AllocError>
    ensures { IfOk result (λ findings. map plain_finding findings.items
        ≡ all_findings (plain_source names.now.source.now)) }
{
    let mut findings = Vec::new(alloc);
    limits::push_limits(&mut findings, names.source)?;
    repeated_names::push_names(alloc, &mut findings, names.source)?;
    entries::push_entries(alloc, &mut findings, names)?;
    rule_faults::push_all_rules(alloc, &mut findings, names)?;
    Ok(findings)
}

fn push_finding<'a>(findings: &mut Vec<Finding<'a>>, finding: Finding<'a>) -> Result<(), AllocError>
    ensures { OnOk result (map plain_finding findings.new.items
        ≡ map plain_finding findings.old.items ++ plain_finding finding.entry ∷ []) }
{
    findings.push(finding)?;
    Ok(())
}

/// Adds a finding where it applies.
fn push_if<'a>(
    findings: &mut Vec<Finding<'a>>,
    occurs: bool,
    finding: Finding<'a>,
) -> Result<(), AllocError>
    ensures { OnOk result (map plain_finding findings.new.items ≡ map plain_finding findings.old.items
        ++ (if occurs then plain_finding finding.entry ∷ [] else [])) }
{
    if occurs {
        push_finding(findings, finding)
    } else {
        Ok(())
    }
}
