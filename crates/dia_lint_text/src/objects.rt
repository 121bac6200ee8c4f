//! Findings as JSON (RFC 8259): an object a line.
ghost use Rattle.std.specs.Prelude.{◌≡◌, ◌++◌, ℕ, List, IfOk, OnOk, codes, string_bytes, true};
ghost use Rattle.std.specs.Fmt.{decimal};
ghost use Rattle.json.specs.Print.{quoted};
ghost use Rattle.dia_explain_places.specs.Places.{column_at, line_at};
ghost use Rattle.dia_lint_text.specs.Lines.{avp_json, definition_json, entry_json, named_json, object_at, rule_json};
ghost use Rattle.dia_lint_text.specs.Lines.{subject_json};
ghost use Rattle.dia_lint_text.specs.Lists.{bad_list_json, fault_place_json};
ghost use Rattle.dia_lint_text.specs.Outcome.{no_rule_text};

use crate::accepted::BadList;
use crate::parts::Parts;
use crate::words::name_of;
use dia_book::{Book, Entry, Key};
use dia_explain_places::{Place, place_of};
use dia_lint::{Finding, Named, Rule, Subject};
use dia_refused_json::quoted;
use std::alloc::{AllocError, Global};

/// Adds the object of a finding, whose place is at an offset of the text.
pub(crate) fn push_object<B: Book>(
    alloc: Global,
    out: &mut String,
    parts: &Parts<'_, B>,
    file: &str,
    place: Place,
    finding: &Finding,
    detail: &str,
) -> Result<(), AllocError>
    ensures { OnOk result ((text : List ℕ) (at : ℕ) → place.line ≡ line_at text at → place.column ≡ column_at text at
        → string_bytes out.new ≡ string_bytes out.old
        ++ object_at (B.meaning parts.now.book.now) file.now text at finding.now detail.now) }
{
    push_rule(out, finding.rule)?;
    push_place(alloc, out, file, place)?;
    push_subject(alloc, out, parts, finding.subject)?;
    push_words(alloc, out, detail)
}

fn push_words(alloc: Global, out: &mut String, detail: &str) -> Result<(), AllocError>
    ensures { OnOk result (string_bytes out.new ≡ string_bytes out.old ++ (codes ",\"detail\":" ++ quoted detail.now
        ++ codes "}\n")) }
{
    let detail = quoted(alloc, detail)?;
    write!(out, ",\"detail\":{detail}}}\n")
}

fn push_rule(out: &mut String, rule: Rule) -> Result<(), AllocError>
    ensures { OnOk result (string_bytes out.new ≡ string_bytes out.old ++ rule_json rule) }
{
    push_kind(out, rule.word(), rule.set().word())?;
    match rule.section() {
        Some(section) => push_section(out, section),
        None => Ok(()),
    }
}

fn push_kind(out: &mut String, word: &str, kind: &str) -> Result<(), AllocError>
    ensures { OnOk result (string_bytes out.new ≡ string_bytes out.old
        ++ (codes "{\"rule\":\"" ++ word.now ++ codes "\",\"kind\":\"" ++ kind.now ++ codes "\"")) }
{
    write!(out, "{{\"rule\":\"{word}\",\"kind\":\"{kind}\"")
}

fn push_section(out: &mut String, section: &str) -> Result<(), AllocError>
    ensures { OnOk result (string_bytes out.new ≡ string_bytes out.old ++ (codes ",\"section\":\"" ++ section.now
        ++ codes "\"")) }
{
    write!(out, ",\"section\":\"{section}\"")
}

fn push_place(alloc: Global, out: &mut String, file: &str, place: Place) -> Result<(), AllocError>
    ensures { OnOk result (string_bytes out.new ≡ string_bytes out.old ++ (codes ",\"file\":" ++ quoted file.now
        ++ codes ",\"line\":" ++ decimal place.line ++ codes ",\"column\":" ++ decimal place.column)) }
{
    let file = quoted(alloc, file)?;
    let line = place.line;
    let column = place.column;
    write!(out, ",\"file\":{file},\"line\":{line},\"column\":{column}")
}

fn push_subject<B: Book>(
    alloc: Global,
    out: &mut String,
    parts: &Parts<'_, B>,
    subject: Subject,
) -> Result<(), AllocError>
    ensures { OnOk result (string_bytes out.new ≡ string_bytes out.old ++ subject_json (B.meaning parts.now.book.now) subject) }
{
    match subject {
        Subject::Definition(def) => push_definition(alloc, out, parts.def_name(def)),
        Subject::Avp(entry) => push_entry(alloc, out, parts, entry),
        Subject::Within(def, named) => {
            push_definition(alloc, out, parts.def_name(def))?;
            push_named(alloc, out, parts, named)
        }
    }
}

fn push_definition(alloc: Global, out: &mut String, name: &str) -> Result<(), AllocError>
    ensures { OnOk result (string_bytes out.new ≡ string_bytes out.old ++ definition_json name.now) }
{
    push_string(out, &quoted(alloc, name)?)
}

fn push_string(out: &mut String, name: &str) -> Result<(), AllocError>
    ensures { OnOk result (string_bytes out.new ≡ string_bytes out.old ++ (codes ",\"definition\":" ++ name.now)) }
{
    write!(out, ",\"definition\":{name}")
}

fn push_named<B: Book>(
    alloc: Global,
    out: &mut String,
    parts: &Parts<'_, B>,
    named: Named,
) -> Result<(), AllocError>
    ensures { OnOk result (string_bytes out.new ≡ string_bytes out.old ++ named_json (B.meaning parts.now.book.now) named) }
{
    let name = name_of(parts, named);
    match named {
        Named::Key(key) => push_avp(alloc, out, name, key),
        Named::Base(avp) => push_avp(alloc, out, name, avp.key()),
        Named::Others => out.push_str(",\"avp\":{\"name\":\"AVP\"}"),
    }
}

fn push_entry<B: Book>(
    alloc: Global,
    out: &mut String,
    parts: &Parts<'_, B>,
    entry: Entry,
) -> Result<(), AllocError>
    ensures { OnOk result (string_bytes out.new ≡ string_bytes out.old ++ entry_json (B.meaning parts.now.book.now) entry) }
{
    if entry.index() < parts.book.entries() {
        push_avp(
            alloc,
            out,
            parts.book.entry_name(entry),
            parts.book.entry_key(entry),
        )
    } else {
        Ok(())
    }
}

fn push_avp(alloc: Global, out: &mut String, name: &str, key: Key) -> Result<(), AllocError>
    ensures { OnOk result (string_bytes out.new ≡ string_bytes out.old ++ avp_json name.now key) }
{
    let name = quoted(alloc, name)?;
    let code = key.code;
    let vendor = key.vendor;
    write!(
        out,
        ",\"avp\":{{\"name\":{name},\"code\":{code},\"vendor\":{vendor}}}"
    )
}

/// The line of a list that is refused, of which this is the text.
pub(crate) fn bad_list_line(alloc: Global, text: &[u8], bad: BadList) -> Result<String, AllocError>
    ensures { IfOk result (λ made. string_bytes made ≡ bad_list_json text.now bad) }
{
    let mut out = String::new(alloc);
    push_fault(&mut out, bad.word())?;
    push_fault_place(&mut out, text, bad)?;
    out.push_str("}\n")?;
    Ok(out)
}

fn push_fault(out: &mut String, kind: &str) -> Result<(), AllocError>
    ensures { OnOk result (string_bytes out.new ≡ string_bytes out.old
        ++ (codes "{\"error\":\"accepted\",\"kind\":\"" ++ kind.now ++ codes "\"")) }
{
    write!(out, "{{\"error\":\"accepted\",\"kind\":\"{kind}\"")
}

fn push_fault_place(out: &mut String, text: &[u8], bad: BadList) -> Result<(), AllocError>
    ensures { OnOk result (string_bytes out.new ≡ string_bytes out.old ++ fault_place_json text.now bad) }
{
    match bad {
        BadList::TooLong => Ok(()),
        BadList::NotText { at } => push_line_column(out, place_of(text, at)),
        BadList::Syntax { line: _, at } => push_line_column(out, place_of(text, at)),
        BadList::Limit { line } => push_line(out, line),
    }
}

fn push_line_column(out: &mut String, place: Place) -> Result<(), AllocError>
    ensures { OnOk result (string_bytes out.new ≡ string_bytes out.old
        ++ (codes ",\"line\":" ++ decimal place.line ++ codes ",\"column\":" ++ decimal place.column)) }
{
    let line = place.line;
    let column = place.column;
    write!(out, ",\"line\":{line},\"column\":{column}")
}

fn push_line(out: &mut String, line: u32) -> Result<(), AllocError>
    ensures { OnOk result (string_bytes out.new ≡ string_bytes out.old ++ (codes ",\"line\":" ++ decimal line)) }
{
    write!(out, ",\"line\":{line}")
}

/// The line of a word that names no rule.
pub(crate) fn no_rule_line(alloc: Global, word: &str) -> Result<String, AllocError>
    ensures { IfOk result (λ made. string_bytes made ≡ no_rule_text true word.now) }
{
    let name = quoted(alloc, word)?;
    format!(in alloc; "{{\"error\":\"lint\",\"kind\":\"no rule\",\"name\":{name}}}\n")
}
