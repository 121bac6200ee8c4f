//! Where a line is, as members.

ghost use Rattle.std.specs.Prelude.{◌≡◌, ◌++◌, IfOk, List, OnOk, map, string_bytes, ℕ};
ghost use Rattle.std.specs.List.{flat_map};
ghost use Rattle.serde_json.specs.Data.{array};
ghost use Rattle.serde_json.specs.Written.{compact_text};
ghost use Rattle.dia_breaking.specs.LineParts.{plain_path};
ghost use Rattle.dia_upgrades_json.specs.Fields.{Adds, fields_text, name_text, strings};
ghost use Rattle.dia_upgrades_json.specs.LineObjects.{application_field, first_fields, path_fields};

use crate::fields::{
    after_comma, object_text, push_field, push_text, push_u32, push_unsigned, quoted,
};
use dia_breaking::Path;
use std::alloc::{AllocError, Global};

/// The members of a path.
pub(crate) fn path_members(alloc: Global, path: &Path<'_>) -> Result<String, AllocError>
    ensures { IfOk result (λ text. string_bytes text ≡ fields_text (path_fields (plain_path path.now))) }
{
    let groups = groups_text(alloc, path.groups.as_slice())?;
    let mut fields = String::new(alloc);
    push_text(alloc, &mut fields, "command", path.command)?;
    push_application(alloc, &mut fields, path.application)?;
    push_field(alloc, &mut fields, "path", groups.as_str())?;
    Ok(fields)
}

/// How many commands have a cause, and the first path.
pub(crate) fn first_members(
    alloc: Global,
    commands: u64,
    path: &Path<'_>,
) -> Result<String, AllocError>
    ensures { IfOk result (λ text. string_bytes text ≡ fields_text (first_fields commands (plain_path path.now))) }
{
    let members = path_members(alloc, path)?;
    let first = object_text(alloc, members.as_str())?;
    let mut fields = String::new(alloc);
    push_unsigned(alloc, &mut fields, "commands", commands)?;
    push_field(alloc, &mut fields, "first", first.as_str())?;
    Ok(fields)
}

fn push_application(
    alloc: Global,
    out: &mut String,
    application: Option<u32>,
) -> Result<(), AllocError>
    ensures { OnOk result (Adds out.old out.new (application_field application)) }
{
    match application {
        Some(application) => push_u32(alloc, out, "application", application),
        None => Ok(()),
    }
}

/// The array of the names of groups.
fn groups_text(alloc: Global, groups: &[&str]) -> Result<String, AllocError>
    ensures { IfOk result (λ text. string_bytes text ≡ compact_text (array (strings (map (λ name. name.now) groups.now)))) }
{
    let names = names_text(alloc, groups)?;
    array_text(alloc, names.as_str())
}

/// Names, each after a comma.
fn names_text(alloc: Global, groups: &[&str]) -> Result<String, AllocError>
    ensures { IfOk result (λ text. string_bytes text ≡ flat_map name_text (map (λ name. name.now) groups.now)) }
{
    let mut names = String::new(alloc);
    for name in groups {
        push_name(alloc, &mut names, name)?;
    }
    Ok(names)
}

/// The array of names, of which each has the comma before it.
fn array_text(alloc: Global, names: &str) -> Result<String, AllocError>
    ensures { IfOk result (λ text. (members : List (List ℕ)) → names.now ≡ flat_map name_text members
        → string_bytes text ≡ compact_text (array (strings members))) }
{
    let members = after_comma(names);
    format!(in alloc; "[{members}]")
}

/// Adds a name, with the comma before it.
fn push_name(alloc: Global, names: &mut String, name: &str) -> Result<(), AllocError>
    ensures { OnOk result (string_bytes names.new ≡ string_bytes names.old ++ name_text name.now) }
{
    let name = quoted(alloc, name)?;
    write!(names, ",{name}")
}
