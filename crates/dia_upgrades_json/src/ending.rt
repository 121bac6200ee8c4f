//! The objects after those of lines: the stale entries, and how much there is of all; or why nothing was compared.

ghost use Rattle.std.specs.Prelude.{◌≡◌, ◌++◌, IfOk, List, OnOk, codes, string_bytes};
ghost use Rattle.dia_accepted.specs.Accepted.{plain_entry};
ghost use Rattle.dia_upgrades_json.specs.Fields.{Adds, Field, fields_text};
ghost use Rattle.dia_upgrades_json.specs.Members.{unsigned_field};
ghost use Rattle.dia_upgrades_json.specs.Objects.{counts_fields, line_fields, list_fields, list_kind, no_command_fields};
ghost use Rattle.dia_upgrades_json.specs.Objects.{no_commands_fields, object_line, refused_fields, stale_fields, where_fields};
ghost use Rattle.dia_upgrades_json.specs.Spots.{place_fields};

use crate::fields::{object_text, push_text, push_unsigned};
use dia_explain_places::{line_from, place_of, start_of_line};
use dia_upgrades::{BadList, Counts, Entry};
use std::alloc::{AllocError, Global};

/// The object of a stale entry.
pub(crate) fn stale_line(alloc: Global, entry: &Entry) -> Result<String, AllocError>
    ensures { IfOk result (λ text. string_bytes text ≡ object_line (stale_fields (plain_entry entry.now))) }
{
    let mut fields = String::new(alloc);
    push_text(alloc, &mut fields, "stale", entry.words.as_str())?;
    push_unsigned(alloc, &mut fields, "line", entry.line as u64)?;
    object_line(alloc, fields.as_str())
}

/// The object with how much there is of all.
pub(crate) fn counts_line(alloc: Global, counts: Counts) -> Result<String, AllocError>
    ensures { IfOk result (λ text. string_bytes text
        ≡ object_line (counts_fields counts.lines counts.causes counts.accepted counts.stale)) }
{
    let mut fields = String::new(alloc);
    push_unsigned(alloc, &mut fields, "lines", counts.lines as u64)?;
    push_unsigned(alloc, &mut fields, "causes", counts.causes as u64)?;
    push_unsigned(alloc, &mut fields, "accepted", counts.accepted as u64)?;
    push_unsigned(alloc, &mut fields, "stale", counts.stale as u64)?;
    object_line(alloc, fields.as_str())
}

/// The object of a list that is refused.
pub(crate) fn bad_list_line(alloc: Global, list: &[u8], bad: BadList) -> Result<String, AllocError>
    ensures { IfOk result (λ text. string_bytes text ≡ object_line (list_fields list.now bad)) }
{
    let mut fields = String::new(alloc);
    push_refused(alloc, &mut fields, "accepted", list_kind(bad))?;
    push_where(alloc, &mut fields, list, bad)?;
    object_line(alloc, fields.as_str())
}

fn list_kind(bad: BadList) -> &'static str
    ensures { result.now ≡ list_kind bad }
{
    match bad {
        BadList::TooLong => "too long",
        BadList::NotText { .. } => "not text",
        BadList::Syntax { .. } => "syntax",
        BadList::Limit { .. } => "limit",
    }
}

/// Adds where a list is refused.
fn push_where(alloc: Global, out: &mut String, list: &[u8], bad: BadList) -> Result<(), AllocError>
    ensures { OnOk result (Adds out.old out.new (where_fields list.now bad)) }
{
    match bad {
        BadList::TooLong => Ok(()),
        BadList::NotText { at } => push_place(alloc, out, list, at),
        BadList::Syntax { line, at } => push_in_line(alloc, out, list, line, at),
        BadList::Limit { line } => push_unsigned(alloc, out, "line", u64::from(line)),
    }
}

/// Adds the line and the column of a place.
fn push_place(alloc: Global, out: &mut String, text: &[u8], at: usize) -> Result<(), AllocError>
    ensures { OnOk result (Adds out.old out.new (place_fields text.now at)) }
{
    let place = place_of(text, at);
    push_line_and_column(alloc, out, place.line as u64, place.column as u64)
}

/// Adds the line and the column of an offset in a line.
fn push_in_line(
    alloc: Global,
    out: &mut String,
    text: &[u8],
    line: u32,
    at: usize,
) -> Result<(), AllocError>
    ensures { OnOk result (Adds out.old out.new (line_fields text.now line at)) }
{
    let place = place_of(line_from(text, start_of_line(text, line)), at);
    push_line_and_column(alloc, out, u64::from(line), place.column as u64)
}

fn push_line_and_column(
    alloc: Global,
    out: &mut String,
    line: u64,
    column: u64,
) -> Result<(), AllocError>
    ensures { OnOk result (Adds out.old out.new (unsigned_field (codes "line") line ++ unsigned_field (codes "column") column)) }
{
    push_unsigned(alloc, out, "line", line)?;
    push_unsigned(alloc, out, "column", column)
}

/// The object of a dictionary without commands.
pub(crate) fn no_commands_line(alloc: Global) -> Result<String, AllocError>
    ensures { IfOk result (λ text. string_bytes text ≡ object_line no_commands_fields) }
{
    let mut fields = String::new(alloc);
    push_refused(alloc, &mut fields, "breaking", "no command")?;
    object_line(alloc, fields.as_str())
}

/// The object of a name that no command has.
pub(crate) fn no_command_line(alloc: Global, name: &str) -> Result<String, AllocError>
    ensures { IfOk result (λ text. string_bytes text ≡ object_line (no_command_fields name.now)) }
{
    let mut fields = String::new(alloc);
    push_refused(alloc, &mut fields, "breaking", "no command")?;
    push_text(alloc, &mut fields, "name", name)?;
    object_line(alloc, fields.as_str())
}

/// Adds which input is refused, and the kind of what is wrong.
fn push_refused(alloc: Global, out: &mut String, input: &str, kind: &str) -> Result<(), AllocError>
    ensures { OnOk result (Adds out.old out.new (refused_fields input.now kind.now)) }
{
    push_text(alloc, out, "error", input)?;
    push_text(alloc, out, "kind", kind)
}

/// The object of these members, on a line.
fn object_line(alloc: Global, fields: &str) -> Result<String, AllocError>
    ensures { IfOk result (λ text. (members : List Field) → fields.now ≡ fields_text members
        → string_bytes text ≡ object_line members) }
{
    let object = object_text(alloc, fields)?;
    format!(in alloc; "{object}\n")
}
