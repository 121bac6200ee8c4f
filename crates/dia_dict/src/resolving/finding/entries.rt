//! What is wrong with declarations and headers.
ghost use Rattle.std.specs.Prelude.{◌≡◌, ◌++◌, ◌∷◌, [], OnOk, IfOk, map, filter};
ghost use Rattle.std.specs.Prelude.{if◌then◌else◌};
ghost use Rattle.dia_ccf.specs.Plain.{plain_source, plain_decl};
ghost use Rattle.dia_dict.specs.declared.fault.DictKind.TheVariants.{DuplicateCommand};
ghost use Rattle.dia_dict.specs.Resolution.{wrong, wrong_entries, no_groups, lacks_group};
ghost use Rattle.dia_dict.specs.Resolution.{header_mismatches, mismatch_of, is_mismatched, duplicate_keys, placed_names};
ghost use Rattle.dia_dict.specs.Resolution.{duplicate_commands, key_of_decl, group_key, is_bare};
ghost use Rattle.dia_dict.specs.SourceChecks.{plain_finding, placed_decl, placed_def};
ghost use Rattle.dia_dict.specs.SourceChecks.{keyed_key, recorded_key, keyed_selector, recorded_selector};

use super::repeats::{Keyed, push_repeats};
use super::{push_finding, push_if};
use crate::fault::DictKind;
use crate::findings::{Finding, Part, Recorded};
use crate::resolving::building::head;
use crate::resolving::checks::{is_grouped, is_mismatch};
use crate::resolving::names::{Names, key_of_declaration, key_of_group};
use crate::resolving::parts::{PlacedDecl, PlacedDef};
use crate::selectors::Selector;
use dia_ccf::Decl;
use dia_wire::Key;
use std::alloc::{AllocError, Global};

/// Adds what is wrong with declarations and headers, of the first part of each name.
pub(super) fn push_entries<'a>(
    alloc: Global,
    findings: &mut Vec<Finding<'a>>,
    names: &Names<'a>,
) -> Result<(), AllocError>
    ensures { OnOk result (map plain_finding findings.new.items ≡ map plain_finding findings.old.items
        ++ wrong_entries (plain_source names.now.source.now)) }
{
    push_lacking(findings, names)?;
    push_mismatches(findings, names)?;
    push_keys(alloc, findings, names)?;
    push_commands(alloc, findings, names)
}

/// Adds the Grouped declarations without a group.
fn push_lacking<'a>(findings: &mut Vec<Finding<'a>>, names: &Names<'a>) -> Result<(), AllocError>
    ensures { OnOk result (map plain_finding findings.new.items ≡ map plain_finding findings.old.items
        ++ no_groups (plain_source names.now.source.now)) }
{
    let decls = names.first_avps();
    for decl in decls {
        let finding = Recorded::of(DictKind::NoGroupFormat, &decl.item.name).at(decl.part);
        push_if(findings, lacks_group(names, decl.item), finding)?;
    }
    Ok(())
}

fn lacks_group(names: &Names<'_>, decl: &Decl) -> bool
    ensures { result ≡ lacks_group (plain_source names.now.source.now) (plain_decl decl.now) }
{
    is_grouped(decl.format) && !names.is_group(&decl.name)
}

/// Adds the groups that conflict with their declaration.
fn push_mismatches<'a>(findings: &mut Vec<Finding<'a>>, names: &Names<'a>) -> Result<(), AllocError>
    ensures { OnOk result (map plain_finding findings.new.items ≡ map plain_finding findings.old.items
        ++ header_mismatches (plain_source names.now.source.now)) }
{
    let groups = names.first_groups();
    for group in groups {
        push_mismatch(findings, names, *group)?;
    }
    Ok(())
}

/// Adds a group, if it conflicts with its declaration.
fn push_mismatch<'a>(
    findings: &mut Vec<Finding<'a>>,
    names: &Names<'_>,
    group: PlacedDef<'a>,
) -> Result<(), AllocError>
    ensures { OnOk result (map plain_finding findings.new.items ≡ map plain_finding findings.old.items
        ++ (if is_mismatched (plain_source names.now.source.now) (placed_def group.entry).1
        then mismatch_of (plain_source names.now.source.now) (placed_def group.entry) ∷ [] else [])) }
{
    if is_mismatch(names, group.item) {
        push_finding(findings, mismatch(names, group))
    } else {
        Ok(())
    }
}

/// The finding that a group conflicts with its declaration.
fn mismatch<'a>(names: &Names<'_>, group: PlacedDef<'a>) -> Finding<'a>
    ensures { plain_finding result
        ≡ mismatch_of (plain_source names.now.source.now) (placed_def group.entry) }
{
    let name = &group.item.name;
    let declaration = match names.placed_declaration(name) {
        Some(declaration) => Some(declaration.part),
        None => None,
    };
    Recorded::of(DictKind::HeaderMismatch, name).at_both(group.part, declaration)
}

/// Adds the AVPs with the key of one before them.
fn push_keys<'a>(
    alloc: Global,
    findings: &mut Vec<Finding<'a>>,
    names: &Names<'a>,
) -> Result<(), AllocError>
    ensures { OnOk result (map plain_finding findings.new.items ≡ map plain_finding findings.old.items
        ++ duplicate_keys (plain_source names.now.source.now)) }
{
    let avps = keyed_avps(alloc, names)?;
    push_repeats(alloc, findings, &avps)
}

/// The declared AVPs, and then the groups without a declaration.
fn keyed_avps<'a>(alloc: Global, names: &Names<'a>) -> Result<Vec<Keyed<'a, Key>>, AllocError>
    ensures { IfOk result (λ avps. map keyed_key avps.items
        ≡ map recorded_key (placed_names (plain_source names.now.source.now))) }
{
    let mut avps = Vec::new(alloc);
    push_declared(&mut avps, names.first_avps())?;
    push_bare(&mut avps, names, names.first_groups())?;
    Ok(avps)
}

fn push_declared<'a>(
    avps: &mut Vec<Keyed<'a, Key>>,
    decls: &[PlacedDecl<'a>],
) -> Result<(), AllocError>
    ensures { OnOk result (map keyed_key avps.new.items ≡ map keyed_key avps.old.items
        ++ map recorded_key (map (λ d. (d.0, (d.1.name, key_of_decl d.1))) (map placed_decl decls.now))) }
{
    for decl in decls {
        avps.push(recorded_avp(decl.part, key_of_declaration(decl.item), &decl.item.name))?;
    }
    Ok(())
}

fn push_bare<'a>(
    avps: &mut Vec<Keyed<'a, Key>>,
    names: &Names<'_>,
    groups: &[PlacedDef<'a>],
) -> Result<(), AllocError>
    ensures { OnOk result (map keyed_key avps.new.items
        ≡ map keyed_key avps.old.items ++ map recorded_key (map (λ g. (g.0, (g.1.name, group_key g.1.head)))
        (filter (λ g. is_bare (plain_source names.now.source.now) g.1) (map placed_def groups.now)))) }
{
    for group in groups {
        if !names.is_declared(&group.item.name) {
            avps.push(recorded_avp(group.part, key_of_group(group.item), &group.item.name))?;
        }
    }
    Ok(())
}

fn recorded_avp(part: Part, key: Key, name: &str) -> Keyed<'_, Key>
    ensures { keyed_key result ≡ recorded_key (part, (name.now, key)) }
{
    Keyed {
        part,
        key,
        recorded: Recorded::of(DictKind::DuplicateKey, name),
    }
}

/// Adds the commands that select the messages of one before them.
fn push_commands<'a>(
    alloc: Global,
    findings: &mut Vec<Finding<'a>>,
    names: &Names<'a>,
) -> Result<(), AllocError>
    ensures { OnOk result (map plain_finding findings.new.items ≡ map plain_finding findings.old.items
        ++ duplicate_commands (plain_source names.now.source.now)) }
{
    let commands = selecting(alloc, names.first_commands())?;
    push_repeats(alloc, findings, &commands)
}

fn selecting<'a>(
    alloc: Global,
    commands: &[PlacedDef<'a>],
) -> Result<Vec<Keyed<'a, Selector>>, AllocError>
    ensures { IfOk result (λ selecting. map keyed_selector selecting.items
        ≡ map recorded_selector (map placed_def commands.now)) }
{
    let mut selecting = Vec::new(alloc);
    for command in commands {
        let selector = Selector::of(head(command.item.head));
        selecting.push(recorded_command(command.part, selector, &command.item.name))?;
    }
    Ok(selecting)
}

fn recorded_command(part: Part, selector: Selector, name: &str) -> Keyed<'_, Selector>
    ensures { keyed_selector result ≡ (part, (selector, wrong DuplicateCommand name.now [])) }
{
    Keyed {
        part,
        key: selector,
        recorded: Recorded::of(DictKind::DuplicateCommand, name),
    }
}
