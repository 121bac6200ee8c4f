//! The dictionary of a sound source.
ghost use Rattle.std.specs.Prelude.{◌≡◌, ◌++◌, ◌∷◌, [], IfOk, OnOk, map, filter, string_bytes};
ghost use Rattle.dia_data.specs.Plain.{format_of, plain_format, ranges_of};
ghost use Rattle.dia_ccf.specs.Plain.{plain_source, plain_decl, plain_def, plain_rule};
ghost use Rattle.dia_book.specs.Dictionary.{plain_definition};
ghost use Rattle.dia_dict.specs.PlainMeaning.{entries_of};
ghost use Rattle.dia_dict.specs.Resolution.{resolved, all_findings, declared_entry};
ghost use Rattle.dia_dict.specs.Resolution.{bare_entry, is_bare, definition_of};
ghost use Rattle.dia_dict.specs.Resolution.{rule_of, head_of, class_of, proxy_of};

use super::names::{Names, key_of_declaration, key_of_group};
use super::rules;
use crate::entry_list::EntryList;
use crate::plain_book::PlainBook;
use dia_book::{Book, Class, DRule, DefHead, Definition};
use dia_ccf::{Decl, Def, Head, MRule, Pxy, Rule};
use dia_data::{Format, Values};
use dia_wire::Key;
use std::alloc::{AllocError, Global};

pub(super) fn book(alloc: Global, names: &Names<'_>) -> Result<PlainBook, AllocError>
    requires { all_findings (plain_source names.now.source.now) ≡ [] }
    ensures { IfOk result (λ book. ⟦<PlainBook as Book>⟧.meaning book
        ≡ resolved (plain_source names.now.source.now)) }
{
    let mut entries = EntryList::new(alloc);
    push_declarations(alloc, names, &names.source.avps, &mut entries)?;
    push_groups(alloc, names, &names.source.groups, &mut entries)?;
    let commands = definitions(alloc, names, &names.source.commands)?;
    Ok(PlainBook::new(entries, commands))
}

/// Adds the declared AVPs.
fn push_declarations(
    alloc: Global,
    names: &Names<'_>,
    decls: &[Decl],
    entries: &mut EntryList,
) -> Result<(), AllocError>
    ensures { OnOk result (entries_of entries.new.rows.items entries.new.groups.items
        ≡ entries_of entries.old.rows.items entries.old.groups.items
        ++ map (declared_entry (plain_source names.now.source.now)) (map plain_decl decls.now)) }
{
    for decl in decls {
        push_declared(alloc, names, decl, entries)?;
    }
    Ok(())
}

/// Adds a declared AVP, with its group if there is one.
fn push_declared(
    alloc: Global,
    names: &Names<'_>,
    decl: &Decl,
    entries: &mut EntryList,
) -> Result<(), AllocError>
    ensures { OnOk result (entries_of entries.new.rows.items entries.new.groups.items
        ≡ entries_of entries.old.rows.items entries.old.groups.items
        ++ declared_entry (plain_source names.now.source.now) (plain_decl decl.now) ∷ []) }
{
    let name = String::from_str(alloc, &decl.name)?;
    let key = key_of_declaration(decl);
    let format = format(alloc, decl)?;
    match names.group(&decl.name) {
        Some(group) => {
            let definition = definition(alloc, names, group)?;
            entries.push_group(name, key, format, decl.rule, definition)
        }
        None => entries.push(name, key, format, decl.rule),
    }
}

/// Adds the groups that no declaration names.
fn push_groups(
    alloc: Global,
    names: &Names<'_>,
    groups: &[Def],
    entries: &mut EntryList,
) -> Result<(), AllocError>
    ensures { OnOk result (entries_of entries.new.rows.items entries.new.groups.items
        ≡ entries_of entries.old.rows.items entries.old.groups.items
        ++ map (bare_entry (plain_source names.now.source.now))
        (filter (is_bare (plain_source names.now.source.now)) (map plain_def groups.now))) }
{
    for group in groups {
        if !names.is_declared(&group.name) {
            push_bare(alloc, names, group, entries)?;
        }
    }
    Ok(())
}

fn push_bare(
    alloc: Global,
    names: &Names<'_>,
    group: &Def,
    entries: &mut EntryList,
) -> Result<(), AllocError>
    ensures { OnOk result (entries_of entries.new.rows.items entries.new.groups.items
        ≡ entries_of entries.old.rows.items entries.old.groups.items
        ++ bare_entry (plain_source names.now.source.now) (plain_def group.now) ∷ []) }
{
    let name = String::from_str(alloc, &group.name)?;
    let definition = definition(alloc, names, group)?;
    entries.push_group(
        name,
        key_of_group(group),
        Format::Grouped,
        MRule::Any,
        definition,
    )
}

fn definitions(
    alloc: Global,
    names: &Names<'_>,
    defs: &[Def],
) -> Result<Vec<Definition>, AllocError>
    ensures { IfOk result
        (λ ds. map plain_definition ds.items
        ≡ map (definition_of (plain_source names.now.source.now)) (map plain_def defs.now)) }
{
    let mut definitions = Vec::new(alloc);
    for def in defs {
        definitions.push(definition(alloc, names, def)?)?;
    }
    Ok(definitions)
}

fn definition(alloc: Global, names: &Names<'_>, def: &Def) -> Result<Definition, AllocError>
    ensures { IfOk result (λ d. plain_definition d
        ≡ definition_of (plain_source names.now.source.now) (plain_def def.now)) }
{
    let name = String::from_str(alloc, &def.name)?;
    let rules = rule_list(alloc, names, &def.rules)?;
    Definition::new(alloc, name, head(def.head), rules)
}

fn rule_list(alloc: Global, names: &Names<'_>, rules: &[Rule]) -> Result<Vec<DRule>, AllocError>
    ensures { IfOk result (λ rs. rs.items
        ≡ map (rule_of (plain_source names.now.source.now)) (map plain_rule rules.now)) }
{
    let mut list = Vec::new(alloc);
    for rule in rules {
        list.push(rules::rule(names, rule))?;
    }
    Ok(list)
}

pub(super) fn head(head: Head) -> DefHead
    ensures { result ≡ head_of head }
{
    match head {
        Head::Group { code, vendor } => DefHead::Group(Key { code, vendor }),
        Head::Command {
            code,
            request,
            pxy,
            app,
        } => DefHead::Command {
            code,
            class: class(request),
            app,
            p: proxy(pxy),
        },
        Head::Error { pxy } => DefHead::Error { p: pxy },
    }
}

fn class(request: bool) -> Class
    ensures { result ≡ class_of request }
{
    if request {
        Class::Request
    } else {
        Class::Answer
    }
}

fn proxy(set: bool) -> Pxy
    ensures { result ≡ proxy_of set }
{
    if set { Pxy::Set } else { Pxy::Clear }
}

/// The format that the declaration names.
fn format(alloc: Global, decl: &Decl) -> Result<Format, AllocError>
    ensures { IfOk result (λ format. plain_format format
        ≡ format_of (plain_decl decl.now).format (plain_decl decl.now).values) }
{
    let values = values(alloc, decl)?;
    Ok(Format::named(decl.format, values))
}

/// The numbers that the declaration lists, or all.
fn values(alloc: Global, decl: &Decl) -> Result<Values, AllocError>
    ensures { IfOk result (λ values. ranges_of values ≡ (plain_decl decl.now).values) }
{
    match &decl.values {
        Some(ranges) => Values::new(alloc, Vec::from_slice(alloc, ranges)?),
        None => Ok(Values::any()),
    }
}
