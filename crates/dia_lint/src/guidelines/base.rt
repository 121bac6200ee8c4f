//! AVPs of the base protocol that a dictionary declares otherwise (RFC 6733 section 4.5).
ghost use Rattle.std.specs.Prelude.{◌≡◌, ◌<◌, IfOk, IfSome, length, position, slice_get};
ghost use Rattle.dia_lint.specs.BaseTable.{base_rows, plain_row};
ghost use Rattle.dia_lint.specs.Declarations.{about_avp, at_lines, base_lines, code_differs, code_lines, contradicts, declared_lines};
ghost use Rattle.dia_lint.specs.Declarations.{declared_of, has_code, has_name, name_lines, other_code, other_format, other_m};
ghost use Rattle.dia_lint.specs.Declarations.{other_name, plain_declared, row_lines};

use crate::base_table::{BaseRow, base_rows};
use crate::detail::Detail;
use crate::finding::{Finding, Place, Subject, push};
use crate::guidelines::only_if;
use crate::rule::Rule;
use dia_book::{Book, Entry, Key};
use dia_terms::{FormatName, MRule};
use std::alloc::{AllocError, Global};

/// An AVP as it is declared.
#[derive(Clone, Copy)]
pub(crate) struct Declared<'a> {
    pub key: Key,
    pub name: &'a str,
    pub format: FormatName,
    pub m: MRule,
}

/// What of an AVP isn't as in the base protocol.
pub(super) fn base_findings<B: Book>(
    alloc: Global,
    book: &B,
    entry: Entry,
) -> Result<Vec<Finding>, AllocError>
    requires { entry < length (B.meaning book.now).entries }
    ensures { IfOk result (λ found. found.items ≡ base_lines (B.meaning book.now) entry) }
{
    let own = declared_of(book, entry);
    declared_findings(alloc, entry, &own)
}

fn declared_of<B: Book>(book: &B, entry: Entry) -> Declared<'_>
    requires { entry < length (B.meaning book.now).entries }
    ensures { IfSome (slice_get (B.meaning book.now).entries entry) (λ x. plain_declared result ≡ declared_of x) }
{
    Declared {
        key: book.entry_key(entry),
        name: book.entry_name(entry),
        format: book.format(entry).name(),
        m: book.rule(entry),
    }
}

fn declared_findings(
    alloc: Global,
    entry: Entry,
    own: &Declared<'_>,
) -> Result<Vec<Finding>, AllocError>
    ensures { IfOk result (λ found. found.items ≡ declared_lines entry (plain_declared own.now)) }
{
    let mut found = code_findings(alloc, entry, own)?;
    found.extend_from_slice(&name_findings(alloc, entry, own)?)?;
    Ok(found)
}

/// What isn't as in the base protocol's AVP of the code.
fn code_findings(
    alloc: Global,
    entry: Entry,
    own: &Declared<'_>,
) -> Result<Vec<Finding>, AllocError>
    ensures { IfOk result (λ found. found.items ≡ code_lines entry (plain_declared own.now)) }
{
    if own.key.vendor != 0 {
        return Ok(Vec::new(alloc));
    }
    match place_of_code(own.key.code) {
        Some(place) => place_findings(alloc, entry, own, place),
        None => Ok(Vec::new(alloc)),
    }
}

fn place_findings(
    alloc: Global,
    entry: Entry,
    own: &Declared<'_>,
    place: usize,
) -> Result<Vec<Finding>, AllocError>
    ensures { IfOk result (λ found. found.items ≡ at_lines entry (plain_declared own.now) place) }
{
    match BaseRow::at(place) {
        Some(row) => row_findings(alloc, entry, own, place, row),
        None => Ok(Vec::new(alloc)),
    }
}

fn row_findings(
    alloc: Global,
    entry: Entry,
    own: &Declared<'_>,
    place: usize,
    row: &BaseRow,
) -> Result<Vec<Finding>, AllocError>
    ensures { IfOk result (λ found. found.items ≡ row_lines entry (plain_declared own.now) place (plain_row row.now)) }
{
    let mut found = Vec::new(alloc);
    push(&mut found, other_name(entry, own, place, row))?;
    push(&mut found, other_format(entry, own, row))?;
    push(&mut found, other_m(entry, own, row))?;
    Ok(found)
}

fn name_findings(
    alloc: Global,
    entry: Entry,
    own: &Declared<'_>,
) -> Result<Vec<Finding>, AllocError>
    ensures { IfOk result (λ found. found.items ≡ name_lines entry (plain_declared own.now)) }
{
    let mut found = Vec::new(alloc);
    if let Some(place) = place_of_name(own.name) {
        push(&mut found, other_code(entry, own, place))?;
    }
    Ok(found)
}

fn about(entry: Entry, detail: Detail) -> Finding
    ensures { result ≡ about_avp entry detail }
{
    Finding {
        rule: Rule::BaseAvp,
        place: Place::Avp(entry),
        subject: Subject::Avp(entry),
        detail,
    }
}

fn place_of_code(code: u32) -> Option<usize>
    ensures { result ≡ position (has_code code) base_rows }
{
    place_in(base_rows(), code)
}

fn place_in(rows: &[BaseRow], code: u32) -> Option<usize>
    ensures { result ≡ position (λ row. has_code code (plain_row row)) rows.now }
{
    rows.iter().position(|row| has_code(row, code))
}

fn has_code(row: &BaseRow, code: u32) -> bool
    ensures { result ≡ has_code code (plain_row row.now) }
{
    row.code == code
}

fn place_of_name(name: &str) -> Option<usize>
    ensures { result ≡ position (has_name name.now) base_rows }
{
    place_named(base_rows(), name)
}

fn place_named(rows: &[BaseRow], name: &str) -> Option<usize>
    ensures { result ≡ position (λ row. has_name name.now (plain_row row)) rows.now }
{
    rows.iter().position(|row| has_name(row, name))
}

fn has_name(row: &BaseRow, name: &str) -> bool
    ensures { result ≡ has_name name.now (plain_row row.now) }
{
    row.name == name
}

fn other_name(entry: Entry, own: &Declared<'_>, place: usize, row: &BaseRow) -> Option<Finding>
    ensures { result ≡ other_name entry (plain_declared own.now) place (plain_row row.now) }
{
    only_if(own.name != row.name, about(entry, Detail::NameOf(place)))
}

fn other_format(entry: Entry, own: &Declared<'_>, row: &BaseRow) -> Option<Finding>
    ensures { result ≡ other_format entry (plain_declared own.now) (plain_row row.now) }
{
    let detail = Detail::Format {
        own: own.format,
        base: row.format,
    };
    only_if(own.format.word() != row.format.word(), about(entry, detail))
}

fn other_m(entry: Entry, own: &Declared<'_>, row: &BaseRow) -> Option<Finding>
    ensures { result ≡ other_m entry (plain_declared own.now) (plain_row row.now) }
{
    let detail = Detail::M {
        own: own.m,
        base: row.m,
    };
    only_if(contradicts(own.m, row.m), about(entry, detail))
}

/// Whether M has to be set by one rule, and clear by the other.
fn contradicts(own: MRule, base: MRule) -> bool
    ensures { result ≡ contradicts own base }
{
    match (own, base) {
        (MRule::Must, MRule::MustNot) | (MRule::MustNot, MRule::Must) => true,
        _ => false,
    }
}

fn other_code(entry: Entry, own: &Declared<'_>, place: usize) -> Option<Finding>
    ensures { result ≡ other_code entry (plain_declared own.now) place }
{
    match BaseRow::at(place) {
        Some(row) => code_differs(entry, own, place, row),
        None => None,
    }
}

fn code_differs(entry: Entry, own: &Declared<'_>, place: usize, row: &BaseRow) -> Option<Finding>
    ensures { result ≡ code_differs entry (plain_declared own.now) place (plain_row row.now) }
{
    only_if(
        !(own.key.vendor == 0 && own.key.code == row.code),
        about(entry, Detail::CodeOf(own.key, place)),
    )
}
