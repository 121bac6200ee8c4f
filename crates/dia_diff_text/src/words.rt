//! The words of AVPs, headers and rules.

ghost use Rattle.std.specs.Prelude.{◌≡◌, ◌<◌, ◌++◌, IfSome, MatchOption, None, OnOk, length, slice_get, string_bytes};
ghost use Rattle.std.specs.Fmt.{decimal};
ghost use Rattle.std.specs.List.{flat_map};
ghost use Rattle.dia_data.specs.Plain.{plain_format};
ghost use Rattle.dia_data.specs.Ranges.{IsSetOf};
ghost use Rattle.dia_book.specs.Dictionary.{plain_definition};
ghost use Rattle.dia_diff_text.specs.Words.{AddsText, IsAvpField, IsDeclaration, IsFormat, IsListOf};
ghost use Rattle.dia_diff_text.specs.Words.{application_words, class_words, declared_words, error_word};
ghost use Rattle.dia_diff_text.specs.Words.{head_field_words, header_words, list_words, number_words};
ghost use Rattle.dia_diff_text.specs.Words.{pxy_words, range_words, ranges_of_format, request_word, set_word, vendor_words};

use dia_book::{Book, Class, DefHead, Definition, Entry, Format, Key, MRule};
use dia_differences::{AvpField, HeadField, pxy_of, selector_of};
use dia_terms::Pxy;
use std::alloc::AllocError;

fn push_text(out: &mut String, text: &str) -> Result<(), AllocError>
    ensures { OnOk result (string_bytes out.new ≡ string_bytes out.old ++ text.now) }
{
    out.push_str(text)
}

fn push_number(out: &mut String, number: u32) -> Result<(), AllocError>
    ensures { OnOk result (string_bytes out.new ≡ string_bytes out.old ++ decimal number) }
{
    write!(out, "{number}")
}

/// Adds what a declaration says after the name, as `1010 vendor 10415 Unsigned32 must`.
pub(crate) fn push_declaration(
    out: &mut String,
    key: Key,
    format: &Format,
    rule: MRule,
) -> Result<(), AllocError>
    ensures { OnOk result (AddsText out.old out.new (IsDeclaration key (plain_format format.now) rule)) }
{
    push_declared(out, key, format, rule)?;
    push_list(out, format)
}

fn push_declared(out: &mut String, key: Key, format: &Format, rule: MRule) -> Result<(), AllocError>
    ensures { OnOk result (string_bytes out.new
        ≡ string_bytes out.old ++ declared_words key (plain_format format.now) rule) }
{
    let code = key.code;
    write!(out, "{code} ")?;
    push_vendor(out, key.vendor)?;
    out.push_str(format.word())?;
    out.push_str(" ")?;
    out.push_str(rule.word())
}

fn push_vendor(out: &mut String, vendor: u32) -> Result<(), AllocError>
    ensures { OnOk result (string_bytes out.new ≡ string_bytes out.old ++ vendor_words vendor) }
{
    if vendor == 0 {
        return Ok(());
    }
    write!(out, "vendor {vendor} ")
}

/// Adds the words of a field.
pub(crate) fn push_avp_field<D: Book>(
    out: &mut String,
    book: &D,
    entry: Entry,
    field: AvpField,
) -> Result<(), AllocError>
    requires { entry < length (D.meaning book.now).entries }
    ensures { IfSome (slice_get (D.meaning book.now).entries entry)
        (λ e. OnOk result (AddsText out.old out.new (IsAvpField field e))) }
{
    match field {
        AvpField::Name => push_name(out, book, entry),
        AvpField::Code => push_code(out, book, entry),
        AvpField::Vendor => push_vendor_of(out, book, entry),
        AvpField::Format => push_format_of(out, book, entry),
        AvpField::MRule => push_m_rule(out, book, entry),
    }
}

fn push_name<D: Book>(out: &mut String, book: &D, entry: Entry) -> Result<(), AllocError>
    requires { entry < length (D.meaning book.now).entries }
    ensures { IfSome (slice_get (D.meaning book.now).entries entry)
        (λ e. OnOk result (AddsText out.old out.new (IsAvpField AvpField.Name e))) }
{
    push_text(out, book.entry_name(entry))
}

fn push_code<D: Book>(out: &mut String, book: &D, entry: Entry) -> Result<(), AllocError>
    requires { entry < length (D.meaning book.now).entries }
    ensures { IfSome (slice_get (D.meaning book.now).entries entry)
        (λ e. OnOk result (AddsText out.old out.new (IsAvpField AvpField.Code e))) }
{
    push_number(out, book.entry_key(entry).code)
}

fn push_vendor_of<D: Book>(out: &mut String, book: &D, entry: Entry) -> Result<(), AllocError>
    requires { entry < length (D.meaning book.now).entries }
    ensures { IfSome (slice_get (D.meaning book.now).entries entry)
        (λ e. OnOk result (AddsText out.old out.new (IsAvpField AvpField.Vendor e))) }
{
    push_number(out, book.entry_key(entry).vendor)
}

fn push_format_of<D: Book>(out: &mut String, book: &D, entry: Entry) -> Result<(), AllocError>
    requires { entry < length (D.meaning book.now).entries }
    ensures { IfSome (slice_get (D.meaning book.now).entries entry)
        (λ e. OnOk result (AddsText out.old out.new (IsAvpField AvpField.Format e))) }
{
    push_format(out, book.format(entry))
}

fn push_m_rule<D: Book>(out: &mut String, book: &D, entry: Entry) -> Result<(), AllocError>
    requires { entry < length (D.meaning book.now).entries }
    ensures { IfSome (slice_get (D.meaning book.now).entries entry)
        (λ e. OnOk result (AddsText out.old out.new (IsAvpField AvpField.MRule e))) }
{
    push_text(out, book.rule(entry).word())
}

/// Adds a format, with the numbers of its list.
fn push_format(out: &mut String, format: &Format) -> Result<(), AllocError>
    ensures { OnOk result (AddsText out.old out.new (IsFormat (plain_format format.now))) }
{
    push_text(out, format.word())?;
    push_list(out, format)
}

fn push_list(out: &mut String, format: &Format) -> Result<(), AllocError>
    ensures { OnOk result (AddsText out.old out.new (IsListOf (ranges_of_format (plain_format format.now)))) }
{
    match numbers_of(format) {
        Some(numbers) => push_numbers(out, numbers),
        None => Ok(()),
    }
}

/// The numbers of a list, if the format has one.
fn numbers_of(format: &Format) -> Option<&[(u32, u32)]>
    ensures { MatchOption result (ranges_of_format (plain_format format.now) ≡ None)
        (λ numbers. IsSetOf numbers.now (ranges_of_format (plain_format format.now))) }
{
    match format {
        Format::Enumerated(values) => values.numbers(),
        _ => None,
    }
}

fn push_numbers(out: &mut String, numbers: &[(u32, u32)]) -> Result<(), AllocError>
    ensures { OnOk result (string_bytes out.new ≡ string_bytes out.old ++ list_words numbers.now) }
{
    out.push_str(" (")?;
    push_ranges(out, numbers)?;
    out.push_str(" )")
}

fn push_ranges(out: &mut String, ranges: &[(u32, u32)]) -> Result<(), AllocError>
    ensures { OnOk result (string_bytes out.new ≡ string_bytes out.old ++ flat_map range_words ranges.now) }
{
    for &(low, high) in ranges {
        push_range(out, low, high)?;
    }
    Ok(())
}

fn push_range(out: &mut String, low: u32, high: u32) -> Result<(), AllocError>
    ensures { OnOk result (string_bytes out.new ≡ string_bytes out.old ++ range_words (low, high)) }
{
    if low == high {
        write!(out, " {low}")
    } else {
        write!(out, " {low}..{high}")
    }
}

/// Adds the header of a command, as `render` does.
pub(crate) fn push_header(out: &mut String, head: DefHead) -> Result<(), AllocError>
    ensures { OnOk result (string_bytes out.new ≡ string_bytes out.old ++ header_words head) }
{
    match head {
        DefHead::Command {
            code,
            class,
            app,
            p,
        } => push_command_header(out, code, class, app, p),
        DefHead::Error { p } => push_error_header(out, p),
        DefHead::Group(_) => push_text(out, " >"),
    }
}

fn push_command_header(
    out: &mut String,
    code: u32,
    class: Class,
    app: Option<u32>,
    p: Pxy,
) -> Result<(), AllocError>
    ensures { OnOk result (string_bytes out.new
        ≡ string_bytes out.old ++ header_words (DefHead.Command code class app p)) }
{
    write!(out, "< Diameter Header: {code}")?;
    out.push_str(request_word(class))?;
    out.push_str(set_word(p))?;
    push_application(out, app)?;
    out.push_str(" >")
}

fn push_error_header(out: &mut String, p: Pxy) -> Result<(), AllocError>
    ensures { OnOk result (string_bytes out.new
        ≡ string_bytes out.old ++ header_words (DefHead.Error p)) }
{
    out.push_str("< Diameter Header: code, ERR")?;
    out.push_str(error_word(p))?;
    out.push_str(" >")
}

fn request_word(class: Class) -> &'static str
    ensures { result.now ≡ request_word class }
{
    match class {
        Class::Request => ", REQ",
        Class::Answer | Class::Error => "",
    }
}

fn set_word(p: Pxy) -> &'static str
    ensures { result.now ≡ set_word p }
{
    match p {
        Pxy::Set => ", PXY",
        Pxy::Clear | Pxy::Either => "",
    }
}

fn error_word(p: Pxy) -> &'static str
    ensures { result.now ≡ error_word p }
{
    match p {
        Pxy::Clear => "",
        Pxy::Set => ", PXY",
        Pxy::Either => " [, PXY]",
    }
}

fn push_application(out: &mut String, app: Option<u32>) -> Result<(), AllocError>
    ensures { OnOk result (string_bytes out.new ≡ string_bytes out.old ++ application_words app) }
{
    match app {
        Some(app) => write!(out, ", {app}"),
        None => Ok(()),
    }
}

/// Adds the words of a field of a command. What a header doesn't have is `none`.
pub(crate) fn push_head_field(
    out: &mut String,
    definition: &Definition,
    field: HeadField,
) -> Result<(), AllocError>
    ensures { OnOk result (string_bytes out.new
        ≡ string_bytes out.old ++ head_field_words field (plain_definition definition.now)) }
{
    match field {
        HeadField::Name => push_text(out, definition.name.as_str()),
        HeadField::Code => push_if(out, selector_of(definition.head).0),
        HeadField::Class => push_text(out, class_word(selector_of(definition.head).1)),
        HeadField::Application => push_if(out, selector_of(definition.head).2),
        HeadField::Proxiable => push_text(out, pxy_word(pxy_of(definition.head))),
    }
}

fn push_if(out: &mut String, number: Option<u32>) -> Result<(), AllocError>
    ensures { OnOk result (string_bytes out.new ≡ string_bytes out.old ++ number_words number) }
{
    match number {
        Some(number) => push_number(out, number),
        None => push_text(out, "none"),
    }
}

fn class_word(class: Class) -> &'static str
    ensures { result.now ≡ class_words class }
{
    match class {
        Class::Request => "request",
        Class::Answer => "answer",
        Class::Error => "error",
    }
}

fn pxy_word(p: Pxy) -> &'static str
    ensures { result.now ≡ pxy_words p }
{
    match p {
        Pxy::Clear => "clear",
        Pxy::Set => "set",
        Pxy::Either => "either",
    }
}
