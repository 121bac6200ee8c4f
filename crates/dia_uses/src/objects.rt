//! Lines as JSON objects (RFC 8259). Names are of letters, digits and dashes, and need no escapes.
ghost use Rattle.std.specs.Prelude.{◌≡◌, ◌++◌, IfOk, OnOk, codes, flat_map, map, string_bytes};
ghost use Rattle.std.specs.Fmt.{decimal};
ghost use Rattle.std.specs.Option.{option_map_or};
ghost use Rattle.dia_uses.specs.Lines.{avp_object, by_object, by_word, groups_text};
ghost use Rattle.dia_uses.specs.Lines.{key_text, name_text, object_of, path_object};

use crate::writing::name_of;
use dia_book::Book;
use dia_places::By;
use dia_wire::Key;
use std::alloc::{AllocError, Global};

/// Adds the object of a line.
pub(crate) fn push_object(
    out: &mut String,
    path: &[&str],
    avp: &str,
    by: By,
) -> Result<(), AllocError>
    ensures { OnOk result (string_bytes out.new ≡ string_bytes out.old
        ++ object_of (map (λ name. name.now) path.now) avp.now by) }
{
    out.push_str("{\"avp\":")?;
    out.push_str(avp)?;
    push_path(out, path)?;
    push_by(out, by)?;
    out.push_str("}\n")
}

/// The object of an AVP.
pub(crate) fn avp_object<B: Book>(alloc: Global, book: &B, key: Key) -> Result<String, AllocError>
    ensures { IfOk result (λ avp. string_bytes avp ≡ avp_object (B.meaning book.now) key) }
{
    let mut out = String::from_str(alloc, "{")?;
    if let Some(name) = name_of(book, key) {
        out.push_str("\"name\":")?;
        push_name(&mut out, name)?;
        out.push_str(",")?;
    }
    push_key(&mut out, key)?;
    Ok(out)
}

/// Adds the members of a key, and the end of its object.
fn push_key(out: &mut String, key: Key) -> Result<(), AllocError>
    ensures { OnOk result (string_bytes out.new ≡ string_bytes out.old ++ key_text key) }
{
    let Key { code, vendor } = key;
    out.push_str("\"code\":")?;
    write!(out, "{code}")?;
    out.push_str(",\"vendor\":")?;
    write!(out, "{vendor}")?;
    out.push_str("}")
}

/// Adds a name in quotes.
fn push_name(out: &mut String, name: &str) -> Result<(), AllocError>
    ensures { OnOk result (string_bytes out.new ≡ string_bytes out.old ++ name_text name.now) }
{
    out.push_str("\"")?;
    out.push_str(name)?;
    out.push_str("\"")
}

/// Adds the command, and the groups that lead to the level.
fn push_path(out: &mut String, path: &[&str]) -> Result<(), AllocError>
    ensures { OnOk result (string_bytes out.new ≡ string_bytes out.old
        ++ path_object (map (λ name. name.now) path.now)) }
{
    match path {
        [command, groups @ ..] => {
            push_command(out, command)?;
            push_groups(out, groups)?;
            out.push_str("]")
        }
        [] => Ok(()),
    }
}

fn push_command(out: &mut String, command: &str) -> Result<(), AllocError>
    ensures { OnOk result (string_bytes out.new ≡ string_bytes out.old
        ++ codes ",\"command\":" ++ name_text command.now ++ codes ",\"path\":[") }
{
    out.push_str(",\"command\":")?;
    push_name(out, command)?;
    out.push_str(",\"path\":[")
}

fn push_groups(out: &mut String, groups: &[&str]) -> Result<(), AllocError>
    ensures { OnOk result (string_bytes out.new ≡ string_bytes out.old
        ++ groups_text (map (λ name. name.now) groups.now)) }
{
    match groups {
        [first, others @ ..] => {
            push_name(out, first)?;
            push_others(out, others)
        }
        [] => Ok(()),
    }
}

/// Adds names after commas.
fn push_others(out: &mut String, others: &[&str]) -> Result<(), AllocError>
    ensures { OnOk result (string_bytes out.new ≡ string_bytes out.old
        ++ flat_map (λ g. codes "," ++ name_text g) (map (λ name. name.now) others.now)) }
{
    for name in others {
        out.push_str(",")?;
        push_name(out, name)?;
    }
    Ok(())
}

/// Adds by what the AVP occurs, and the counts of that rule.
fn push_by(out: &mut String, by: By) -> Result<(), AllocError>
    ensures { OnOk result (string_bytes out.new ≡ string_bytes out.old ++ by_object by) }
{
    out.push_str(",\"by\":")?;
    push_name(out, word_of(by))?;
    let min = by.rule().min;
    out.push_str(",\"min\":")?;
    write!(out, "{min}")?;
    out.push_str(",\"max\":")?;
    push_greatest(out, by.rule().max)
}

fn push_greatest(out: &mut String, max: Option<u32>) -> Result<(), AllocError>
    ensures { OnOk result (string_bytes out.new ≡ string_bytes out.old
        ++ option_map_or decimal max (codes "null")) }
{
    match max {
        Some(max) => write!(out, "{max}"),
        None => out.push_str("null"),
    }
}

fn word_of(by: By) -> &'static str
    ensures { result.now ≡ by_word by }
{
    match by {
        By::Rule(_) => "rule",
        By::Wildcard(_) => "wildcard",
    }
}
