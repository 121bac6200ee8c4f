//! What is wrong with rules.
ghost use Rattle.std.specs.Prelude.{◌≡◌, ◌++◌, ◌∷◌, [], None, OnOk, IfOk, map};
ghost use Rattle.std.specs.Prelude.{if◌then◌else◌};
ghost use Rattle.dia_ccf.specs.Plain.{plain_source, plain_def, plain_rule};
ghost use Rattle.dia_dict.specs.declared.fault.DictKind.TheVariants.{RepeatedSlot};
ghost use Rattle.dia_dict.specs.Resolution.{wrong, finding, wrong_rules, bad_rules, bad_in, is_bad};
ghost use Rattle.dia_dict.specs.Resolution.{repeated_slots, repeated_in, placed_defs};
ghost use Rattle.dia_dict.specs.Resolution.{part_at, placed, placed_rules, rule_at, slot_name};
ghost use Rattle.dia_dict.specs.SourceChecks.{plain_finding, placed_def, keyed_text};

use super::push_if;
use super::repeats::{Keyed, push_repeats};
use crate::fault::DictKind;
use crate::findings::{Finding, PartKind, Recorded};
use crate::resolving::names::Names;
use crate::resolving::parts::{Placed, PlacedDef};
use crate::resolving::rules::is_bad;
use dia_ccf::{Def, Rule, Source};
use std::alloc::{AllocError, Global};

/// Adds what is wrong with rules.
pub(super) fn push_all_rules<'a>(
    alloc: Global,
    findings: &mut Vec<Finding<'a>>,
    names: &Names<'a>,
) -> Result<(), AllocError>
    ensures { OnOk result (map plain_finding findings.new.items ≡ map plain_finding findings.old.items
        ++ wrong_rules (plain_source names.now.source.now)) }
{
    push_rules(findings, names, DictKind::UndefinedName)?;
    push_slots(alloc, findings, names.source)?;
    push_rules(findings, names, DictKind::MinOverMax)?;
    push_rules(findings, names, DictKind::RequiredMin)?;
    push_rules(findings, names, DictKind::OptionalMin)
}

/// Adds the rules of the source that have this fault.
fn push_rules<'a>(
    findings: &mut Vec<Finding<'a>>,
    names: &Names<'a>,
    kind: DictKind,
) -> Result<(), AllocError>
    ensures { OnOk result (map plain_finding findings.new.items ≡ map plain_finding findings.old.items
        ++ bad_rules kind (plain_source names.now.source.now)
        (placed_defs (plain_source names.now.source.now))) }
{
    push_rules_of(findings, names, kind, PartKind::Group, &names.source.groups)?;
    push_rules_of(
        findings,
        names,
        kind,
        PartKind::Command,
        &names.source.commands,
    )
}

fn push_rules_of<'a>(
    findings: &mut Vec<Finding<'a>>,
    names: &Names<'_>,
    kind: DictKind,
    of: PartKind,
    defs: &'a [Def],
) -> Result<(), AllocError>
    ensures { OnOk result (map plain_finding findings.new.items ≡ map plain_finding findings.old.items
        ++ bad_rules kind (plain_source names.now.source.now) (placed (part_at of) (map plain_def defs.now))) }
{
    for (index, def) in defs.iter().enumerate() {
        let part = of.at(index);
        push_rules_in(findings, names, kind, Placed { part, item: def })?;
    }
    Ok(())
}

fn push_rules_in<'a>(
    findings: &mut Vec<Finding<'a>>,
    names: &Names<'_>,
    kind: DictKind,
    def: PlacedDef<'a>,
) -> Result<(), AllocError>
    ensures { OnOk result (map plain_finding findings.new.items ≡ map plain_finding findings.old.items
        ++ bad_in kind (plain_source names.now.source.now) (placed_def def.entry)) }
{
    for (index, rule) in def.item.rules.iter().enumerate() {
        push_rule(findings, names, kind, def, index, rule)?;
    }
    Ok(())
}

/// Adds a rule of a definition, if it has the fault.
fn push_rule<'a>(
    findings: &mut Vec<Finding<'a>>,
    names: &Names<'_>,
    kind: DictKind,
    def: PlacedDef<'a>,
    index: usize,
    rule: &'a Rule,
) -> Result<(), AllocError>
    ensures { OnOk result (map plain_finding findings.new.items ≡ map plain_finding findings.old.items
        ++ (if is_bad kind (plain_source names.now.source.now) (plain_rule rule.now)
        then finding (wrong kind (placed_def def.entry).1.name (slot_name (plain_rule rule.now)))
        (rule_at def.entry.part index) None ∷ [] else [])) }
{
    let recorded = Recorded::of_rule(kind, &def.item.name, rule.slot_name());
    push_if(
        findings,
        is_bad(names, kind, rule),
        recorded.at(def.part.rule_at(index)),
    )
}

/// Adds the rules of the source for an AVP that has a rule before in its definition.
fn push_slots<'a>(
    alloc: Global,
    findings: &mut Vec<Finding<'a>>,
    source: &'a Source,
) -> Result<(), AllocError>
    ensures { OnOk result (map plain_finding findings.new.items ≡ map plain_finding findings.old.items
        ++ repeated_slots (placed_defs (plain_source source.now))) }
{
    push_slots_of(alloc, findings, PartKind::Group, &source.groups)?;
    push_slots_of(alloc, findings, PartKind::Command, &source.commands)
}

fn push_slots_of<'a>(
    alloc: Global,
    findings: &mut Vec<Finding<'a>>,
    of: PartKind,
    defs: &'a [Def],
) -> Result<(), AllocError>
    ensures { OnOk result (map plain_finding findings.new.items ≡ map plain_finding findings.old.items
        ++ repeated_slots (placed (part_at of) (map plain_def defs.now))) }
{
    for (index, def) in defs.iter().enumerate() {
        let part = of.at(index);
        push_slots_in(alloc, findings, Placed { part, item: def })?;
    }
    Ok(())
}

fn push_slots_in<'a>(
    alloc: Global,
    findings: &mut Vec<Finding<'a>>,
    def: PlacedDef<'a>,
) -> Result<(), AllocError>
    ensures { OnOk result (map plain_finding findings.new.items ≡ map plain_finding findings.old.items
        ++ repeated_in (placed_def def.entry)) }
{
    let slots = slots_in(alloc, def)?;
    push_repeats(alloc, findings, &slots)
}

fn slots_in<'a>(alloc: Global, def: PlacedDef<'a>) -> Result<Vec<Keyed<'a, &'a str>>, AllocError>
    ensures { IfOk result (λ slots. map keyed_text slots.items
        ≡ map (λ r. (r.0, (slot_name r.1, wrong RepeatedSlot (placed_def def.entry).1.name (slot_name r.1))))
        (placed_rules (placed_def def.entry))) }
{
    let mut slots = Vec::new(alloc);
    for (index, rule) in def.item.rules.iter().enumerate() {
        slots.push(slot_in(def, index, rule))?;
    }
    Ok(slots)
}

fn slot_in<'a>(def: PlacedDef<'a>, index: usize, rule: &'a Rule) -> Keyed<'a, &'a str>
    ensures { keyed_text result ≡ (
      rule_at def.entry.part index,
      (
        slot_name (plain_rule rule.now),
        wrong RepeatedSlot (placed_def def.entry).1.name (slot_name (plain_rule rule.now)),
      ),
    ) }
{
    let slot = rule.slot_name();
    Keyed {
        part: def.part.rule_at(index),
        key: slot,
        recorded: Recorded::of_rule(DictKind::RepeatedSlot, &def.item.name, slot),
    }
}
