//! The source of the base dictionary, out of its tables.
ghost use Rattle.std.specs.Prelude.{◌≡◌, IfOk, IsTrue, map, string_bytes};
ghost use Rattle.std.specs.List.{list_all};
ghost use Rattle.std.specs.Option.{option_map};
ghost use Rattle.dia_ccf.specs.Plain.{plain_source, plain_decl, plain_def, plain_rule};
ghost use Rattle.dia_dict.specs.Base.{base_source};
ghost use Rattle.dia_dict.specs.BaseTables.{kind_of_row, name_of_row, qual_of_row};
ghost use Rattle.dia_dict.specs.BaseTables.{decl_of_row, def_of_row};
ghost use Rattle.dia_dict.specs.BaseTables.{rule_of_row, is_avp_row, is_def_row, is_rule_row};

use super::tables::{AVPS, AvpRow, COMMANDS, DefRow, GROUPS, RuleRow};
use dia_ccf::{Decl, Def, MRule, Qual, Rule, RuleKind, Source};
use std::alloc::{AllocError, Global};

pub(super) fn source(alloc: Global) -> Result<Source, AllocError>
    ensures { IfOk result (λ source. plain_source source ≡ base_source) }
{
    Ok(Source {
        avps: avps(alloc)?,
        groups: groups(alloc)?,
        commands: commands(alloc)?,
    })
}

// The prover takes long for a function that reads several tables, or that reads one and returns at several places.

fn avps(alloc: Global) -> Result<Vec<Decl>, AllocError>
    ensures { IfOk result (λ decls. map plain_decl decls.items ≡ base_source.avps) }
{
    declarations(alloc, &AVPS)
}

fn groups(alloc: Global) -> Result<Vec<Def>, AllocError>
    ensures { IfOk result (λ defs. map plain_def defs.items ≡ base_source.groups) }
{
    definitions(alloc, &GROUPS)
}

fn commands(alloc: Global) -> Result<Vec<Def>, AllocError>
    ensures { IfOk result (λ defs. map plain_def defs.items ≡ base_source.commands) }
{
    definitions(alloc, &COMMANDS)
}

fn declarations(alloc: Global, rows: &[AvpRow]) -> Result<Vec<Decl>, AllocError>
    requires { IsTrue (list_all is_avp_row rows.now) }
    ensures { IfOk result (λ decls. map plain_decl decls.items ≡ map decl_of_row rows.now) }
{
    let mut decls = Vec::new(alloc);
    for row in rows {
        decls.push(declaration(alloc, row)?)?;
    }
    Ok(decls)
}

fn declaration(alloc: Global, row: &AvpRow) -> Result<Decl, AllocError>
    requires { IsTrue (is_avp_row row.now) }
    ensures { IfOk result (λ decl. plain_decl decl ≡ decl_of_row row.now) }
{
    Ok(Decl {
        at: 0,
        name: String::from_str(alloc, row.name)?,
        code: row.code,
        vendor: 0,
        format: row.format,
        values: values(alloc, row.values)?,
        rule: MRule::Any,
    })
}

fn values(
    alloc: Global,
    ranges: Option<&[(u32, u32)]>,
) -> Result<Option<Vec<(u32, u32)>>, AllocError>
    ensures { IfOk result (λ values. option_map (λ v. v.items) values
        ≡ option_map (λ v. v.now) ranges.entry) }
{
    match ranges {
        Some(ranges) => Ok(Some(Vec::from_slice(alloc, ranges)?)),
        None => Ok(None),
    }
}

fn definitions(alloc: Global, rows: &[DefRow]) -> Result<Vec<Def>, AllocError>
    requires { IsTrue (list_all is_def_row rows.now) }
    ensures { IfOk result (λ defs. map plain_def defs.items ≡ map def_of_row rows.now) }
{
    let mut defs = Vec::new(alloc);
    for row in rows {
        defs.push(definition(alloc, row)?)?;
    }
    Ok(defs)
}

fn definition(alloc: Global, row: &DefRow) -> Result<Def, AllocError>
    requires { IsTrue (is_def_row row.now) }
    ensures { IfOk result (λ def. plain_def def ≡ def_of_row row.now) }
{
    Ok(Def {
        at: 0,
        name: String::from_str(alloc, row.name)?,
        head: row.head,
        rules: rules(alloc, row.rules)?,
    })
}

fn rules(alloc: Global, rows: &[RuleRow]) -> Result<Vec<Rule>, AllocError>
    requires { IsTrue (list_all is_rule_row rows.now) }
    ensures { IfOk result (λ rules. map plain_rule rules.items ≡ map rule_of_row rows.now) }
{
    let mut rules = Vec::new(alloc);
    for row in rows {
        rules.push(rule(alloc, *row)?)?;
    }
    Ok(rules)
}

fn rule(alloc: Global, row: RuleRow) -> Result<Rule, AllocError>
    requires { IsTrue (is_rule_row row) }
    ensures { IfOk result (λ rule. plain_rule rule ≡ rule_of_row row) }
{
    Ok(Rule {
        at: 0,
        kind: kind(row),
        name: name(alloc, row)?,
        qual: qualifier(row),
    })
}

fn kind(row: RuleRow) -> RuleKind
    ensures { result ≡ kind_of_row row }
{
    match row {
        RuleRow::FixedAtMostOne(_) => RuleKind::Fixed,
        RuleRow::Required(_) | RuleRow::RequiredMany(_) | RuleRow::SomeAvps => RuleKind::Required,
        RuleRow::Optional(_) | RuleRow::OptionalMany(_) | RuleRow::AnyAvps => RuleKind::Optional,
    }
}

fn name(alloc: Global, row: RuleRow) -> Result<Option<String>, AllocError>
    ensures { IfOk result (λ name. option_map (λ n. string_bytes n) name ≡ name_of_row row) }
{
    match row {
        RuleRow::FixedAtMostOne(name)
        | RuleRow::Required(name)
        | RuleRow::RequiredMany(name)
        | RuleRow::Optional(name)
        | RuleRow::OptionalMany(name) => Ok(Some(String::from_str(alloc, name)?)),
        RuleRow::SomeAvps | RuleRow::AnyAvps => Ok(None),
    }
}

fn qualifier(row: RuleRow) -> Option<Qual>
    ensures { result ≡ qual_of_row row }
{
    match row {
        RuleRow::FixedAtMostOne(_) => Some(Qual {
            min: Some(0),
            max: Some(1),
        }),
        RuleRow::Required(_) | RuleRow::Optional(_) => None,
        RuleRow::RequiredMany(_) | RuleRow::SomeAvps => Some(Qual {
            min: Some(1),
            max: None,
        }),
        RuleRow::OptionalMany(_) | RuleRow::AnyAvps => Some(Qual {
            min: None,
            max: None,
        }),
    }
}
