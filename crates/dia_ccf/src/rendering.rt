//! The canonical text.

ghost use Rattle.std.specs.Prelude.{◌≡◌, ◌++◌, ℕ, List, [], ◌∷◌, map, codes, ◌==◌};
ghost use Rattle.std.specs.Prelude.{if◌then◌else◌, Some, OnOk, IfOk, string_bytes};
ghost use Rattle.std.specs.List.{flat_map};
ghost use Rattle.std.specs.Fmt.{decimal};
ghost use Rattle.dia_ccf.specs.Plain.{plain_source, plain_decl, plain_rule, plain_def};
ghost use Rattle.dia_ccf.specs.Tokens.{tokens};
ghost use Rattle.dia_ccf.specs.Grammar.{Derives, rule_word};
ghost use Rattle.dia_terms.specs.Formats.{format_word};
ghost use Rattle.dia_ccf.specs.CanonicalText.{canonical, declaration_line, vendor_text};
ghost use Rattle.dia_ccf.specs.CanonicalText.{values_text, range_text, definition_lines};
ghost use Rattle.dia_ccf.specs.CanonicalText.{head_text, flag_text, application_text};
ghost use Rattle.dia_ccf.specs.CanonicalText.{error_proxy_text, rule_line, qualifier_text};
ghost use Rattle.dia_ccf.specs.CanonicalText.{count_text, bracketed_text};

use crate::source::{Decl, Def, Head, Qual, Rule, Source};
use dia_terms::{Pxy, RuleKind};
use std::alloc::{AllocError, Global};

/// The canonical text of a source: a line for each declaration, then a line for the head and one for each rule of each
/// group and then of each command, in the source's order (our profile's form of RFC 6733 section 3.2).
/// A vendor of 0 is left out, numbers have no leading zeros, and each line ends with a line feed.
/// The text may be longer than the limit of texts that are read: where it is not, it is read as the source again.
/// The error comes only where memory was refused.
pub fn render(alloc: Global, source: &Source) -> Result<String, AllocError>
    ensures text { IfOk result (λ text. string_bytes text ≡ canonical (plain_source source.now)) }
    ensures read_again { Derives (tokens (canonical (plain_source source.now)))
        (plain_source source.now) }
{
    let mut text = String::new(alloc);
    put_declarations(&mut text, &source.avps)?;
    put_definitions(&mut text, &source.groups)?;
    put_definitions(&mut text, &source.commands)?;
    Ok(text)
}

fn put_declarations(text: &mut String, decls: &[Decl]) -> Result<(), AllocError>
    ensures { OnOk result (string_bytes text.new ≡ string_bytes text.old
        ++ flat_map declaration_line (map plain_decl decls.now)) }
{
    for decl in decls {
        put_declaration(text, decl)?;
    }
    Ok(())
}

fn put_declaration(text: &mut String, decl: &Decl) -> Result<(), AllocError>
    ensures { OnOk result (string_bytes text.new
        ≡ string_bytes text.old ++ declaration_line (plain_decl decl.now)) }
{
    put_key(text, decl)?;
    put_type(text, decl)?;
    text.push('\n')
}

fn put_key(text: &mut String, decl: &Decl) -> Result<(), AllocError>
    ensures { OnOk result (string_bytes text.new ≡ string_bytes text.old
        ++ (codes "%avp " ++ string_bytes decl.now.name
        ++ codes " " ++ decimal decl.now.code ++ vendor_text decl.now.vendor)) }
{
    write!(text, "%avp {} {}", decl.name, decl.code)?;
    put_vendor(text, decl.vendor)
}

fn put_type(text: &mut String, decl: &Decl) -> Result<(), AllocError>
    ensures { OnOk result (string_bytes text.new ≡ string_bytes text.old
        ++ (codes " " ++ format_word decl.now.format
        ++ codes " " ++ rule_word decl.now.rule ++ values_text (plain_decl decl.now).values)) }
{
    write!(text, " {} {}", decl.format.word(), decl.rule.word())?;
    put_values(text, decl)
}

fn put_vendor(text: &mut String, vendor: u32) -> Result<(), AllocError>
    ensures { OnOk result (string_bytes text.new ≡ string_bytes text.old ++ vendor_text vendor) }
{
    if vendor == 0 {
        return Ok(());
    }
    write!(text, " vendor {vendor}")
}

fn put_values(text: &mut String, decl: &Decl) -> Result<(), AllocError>
    ensures { OnOk result (string_bytes text.new
        ≡ string_bytes text.old ++ values_text (plain_decl decl.now).values) }
{
    let Some(ranges) = &decl.values else {
        return Ok(());
    };
    text.push_str(" ( ")?;
    put_ranges(text, ranges)?;
    text.push(')')
}

fn put_ranges(text: &mut String, ranges: &[(u32, u32)]) -> Result<(), AllocError>
    ensures { OnOk result (string_bytes text.new ≡ string_bytes text.old
        ++ flat_map (λ r. range_text r ++ codes " ") ranges.now) }
{
    for range in ranges {
        put_range(text, *range)?;
    }
    Ok(())
}

fn put_range(text: &mut String, range: (u32, u32)) -> Result<(), AllocError>
    ensures { OnOk result (string_bytes text.new
        ≡ string_bytes text.old ++ range_text range ++ codes " ") }
{
    let (low, high) = range;
    if low == high {
        write!(text, "{low} ")
    } else {
        write!(text, "{low}..{high} ")
    }
}

fn put_definitions(text: &mut String, defs: &[Def]) -> Result<(), AllocError>
    ensures { OnOk result (string_bytes text.new
        ≡ string_bytes text.old ++ flat_map definition_lines (map plain_def defs.now)) }
{
    for def in defs {
        put_definition(text, def)?;
    }
    Ok(())
}

fn put_definition(text: &mut String, def: &Def) -> Result<(), AllocError>
    ensures { OnOk result (string_bytes text.new
        ≡ string_bytes text.old ++ definition_lines (plain_def def.now)) }
{
    write!(text, "<{}> ::= < ", def.name)?;
    put_head(text, def.head)?;
    text.push_str(" >\n")?;
    put_rules(text, &def.rules)
}

fn put_head(text: &mut String, head: Head) -> Result<(), AllocError>
    ensures { OnOk result (string_bytes text.new ≡ string_bytes text.old ++ head_text head) }
{
    match head {
        Head::Group { code, vendor } => {
            write!(text, "AVP Header: {code}")?;
            put_group_vendor(text, vendor)
        }
        Head::Command {
            code,
            request,
            pxy,
            app,
        } => {
            let request = flag_text(request, ", REQ");
            let pxy = flag_text(pxy, ", PXY");
            write!(text, "Diameter Header: {code}{request}{pxy}")?;
            put_application(text, app)
        }
        Head::Error { pxy } => write!(text, "Diameter Header: code, ERR{}", error_proxy(pxy)),
    }
}

fn put_group_vendor(text: &mut String, vendor: u32) -> Result<(), AllocError>
    ensures { OnOk result (string_bytes text.new ≡ string_bytes text.old
        ++ (if vendor == 0 then [] else codes " " ++ decimal vendor)) }
{
    if vendor == 0 {
        return Ok(());
    }
    write!(text, " {vendor}")
}

fn flag_text(is_set: bool, flag: &str) -> &str
    ensures { result.now ≡ flag_text is_set flag.now }
{
    if is_set { flag } else { "" }
}

fn put_application(text: &mut String, app: Option<u32>) -> Result<(), AllocError>
    ensures { OnOk result (string_bytes text.new ≡ string_bytes text.old ++ application_text app) }
{
    match app {
        Some(app) => write!(text, ", {app}"),
        None => Ok(()),
    }
}

fn error_proxy(pxy: Pxy) -> &'static str
    ensures { result.now ≡ error_proxy_text pxy }
{
    match pxy {
        Pxy::Clear => "",
        Pxy::Set => ", PXY",
        Pxy::Either => " [, PXY]",
    }
}

fn put_rules(text: &mut String, rules: &[Rule]) -> Result<(), AllocError>
    ensures { OnOk result (string_bytes text.new
        ≡ string_bytes text.old ++ flat_map rule_line (map plain_rule rules.now)) }
{
    for rule in rules {
        put_rule(text, rule)?;
    }
    Ok(())
}

fn put_rule(text: &mut String, rule: &Rule) -> Result<(), AllocError>
    ensures { OnOk result (string_bytes text.new
        ≡ string_bytes text.old ++ rule_line (plain_rule rule.now)) }
{
    text.push_str("  ")?;
    put_qualifier(text, rule.qual)?;
    put_bracketed(text, rule.kind, rule.slot_name())?;
    text.push('\n')
}

fn put_bracketed(text: &mut String, kind: RuleKind, name: &str) -> Result<(), AllocError>
    ensures { OnOk result (string_bytes text.new
        ≡ string_bytes text.old ++ bracketed_text kind name.now) }
{
    match kind {
        RuleKind::Fixed => write!(text, "< {name} >"),
        RuleKind::Required => write!(text, "{{ {name} }}"),
        RuleKind::Optional => write!(text, "[ {name} ]"),
    }
}

fn put_qualifier(text: &mut String, qual: Option<Qual>) -> Result<(), AllocError>
    ensures { OnOk result (string_bytes text.new ≡ string_bytes text.old ++ qualifier_text qual) }
{
    let Some(qual) = qual else {
        return Ok(());
    };
    put_count(text, qual.min, "*")?;
    put_count(text, qual.max, " ")
}

/// A count, and what follows it.
fn put_count(text: &mut String, count: Option<u32>, following: &str) -> Result<(), AllocError>
    ensures { OnOk result (string_bytes text.new
        ≡ string_bytes text.old ++ (count_text count ++ following.now)) }
{
    match count {
        Some(count) => write!(text, "{count}{following}"),
        None => text.push_str(following),
    }
}
