//! The lines of AVPs and their rules.

ghost use Rattle.std.specs.Prelude.{◌≡◌, ◌<◌, ◌↔◌, IsTrue, OnOk, length};
ghost use Rattle.dia_data.specs.Plain.{plain_format};
ghost use Rattle.dia_differences.specs.Same.{IsSameFormat};
ghost use Rattle.dia_differences.specs.Matching.{At, IsSameField, partner_of};
ghost use Rattle.dia_differences.specs.Lines.{AddedAvp, Adds, AloneAvp, AvpLines, AvpsAdded, AvpsOfFirst, FieldLine, FieldLines};
ghost use Rattle.dia_differences.specs.Partners.{paired};

use crate::lines::{AvpField, Line, What, push_line, push_unless};
use crate::owner::Owner;
use crate::partners::Partners;
use crate::rules::{push_all_rules, push_rules};
use crate::sides::Side;
use dia_book::{Book, Entry, Format, MRule};
use dia_data::format_below;
use std::alloc::AllocError;

/// Adds the lines of the AVPs of the first dictionary.
pub fn push_avps<A: Book, B: Book>(
    lines: &mut Vec<Line>,
    a: &A,
    b: &B,
    partners: &Partners,
) -> Result<(), AllocError>
    ensures { OnOk result (Adds lines.old.items lines.new.items
        (AvpsOfFirst (A.meaning a.now) (B.meaning b.now) (paired partners.now))) }
{
    for first in 0..a.entries() {
        push_avp(lines, a, first, b, partners)?;
    }
    Ok(())
}

/// Adds the lines of an AVP of the first dictionary.
fn push_avp<A: Book, B: Book>(
    lines: &mut Vec<Line>,
    a: &A,
    first: usize,
    b: &B,
    partners: &Partners,
) -> Result<(), AllocError>
    requires { first < length (A.meaning a.now).entries }
    ensures { OnOk result (Adds lines.old.items lines.new.items
        (AvpLines (A.meaning a.now) (B.meaning b.now) (paired partners.now) first
        (partner_of partners.now.avps.there.items first (length (B.meaning b.now).entries)))) }
{
    match partner(&partners.avps.there, first, b.entries()) {
        Some(second) => {
            push_fields(lines, a, first, b, second)?;
            push_rules(lines, a, Owner::Avp(first), b, Owner::Avp(second), partners)
        }
        None => push_alone(lines, Side::First, a, first),
    }
}

/// Adds the lines of the AVPs that the second dictionary alone has. The first has so many.
pub fn push_added_avps<B: Book>(
    lines: &mut Vec<Line>,
    b: &B,
    partners: &Partners,
    count: usize,
) -> Result<(), AllocError>
    ensures { OnOk result (Adds lines.old.items lines.new.items
        (AvpsAdded (B.meaning b.now) count partners.now.avps.back.items)) }
{
    for second in 0..b.entries() {
        push_added_avp(
            lines,
            b,
            second,
            partner(&partners.avps.back, second, count),
        )?;
    }
    Ok(())
}

/// Adds the lines of an AVP of the second dictionary that has no partner.
fn push_added_avp<B: Book>(
    lines: &mut Vec<Line>,
    b: &B,
    second: usize,
    partner: Option<usize>,
) -> Result<(), AllocError>
    ensures { OnOk result (Adds lines.old.items lines.new.items (AddedAvp (B.meaning b.now) second partner)) }
{
    match partner {
        Some(_) => Ok(()),
        None => push_alone(lines, Side::Second, b, second),
    }
}

/// The partner of the one at a place, if it has one below the count.
pub fn partner(pairs: &[Option<usize>], index: usize, count: usize) -> Option<usize>
    ensures { result ≡ partner_of pairs.now index count }
{
    let other = pairs.get(index).copied()??;
    if other < count { Some(other) } else { None }
}

/// Adds an AVP that one dictionary alone has, and its rules.
fn push_alone<D: Book>(
    lines: &mut Vec<Line>,
    side: Side,
    book: &D,
    index: usize,
) -> Result<(), AllocError>
    ensures { OnOk result (Adds lines.old.items lines.new.items (AloneAvp side (D.meaning book.now) index)) }
{
    push_line(lines, What::Avp(side, index))?;
    push_all_rules(lines, side, book, Owner::Avp(index))
}

/// Adds a line for each field that differs.
fn push_fields<A: Book, B: Book>(
    lines: &mut Vec<Line>,
    a: &A,
    first: usize,
    b: &B,
    second: usize,
) -> Result<(), AllocError>
    requires first { first < length (A.meaning a.now).entries }
    requires second { second < length (B.meaning b.now).entries }
    ensures { OnOk result (Adds lines.old.items lines.new.items
        (FieldLines (A.meaning a.now) (B.meaning b.now) first second)) }
{
    push_field(lines, a, first, b, second, AvpField::Name)?;
    push_field(lines, a, first, b, second, AvpField::Code)?;
    push_field(lines, a, first, b, second, AvpField::Vendor)?;
    push_field(lines, a, first, b, second, AvpField::Format)?;
    push_field(lines, a, first, b, second, AvpField::MRule)
}

/// Adds a line for a field, if it differs.
fn push_field<A: Book, B: Book>(
    lines: &mut Vec<Line>,
    a: &A,
    first: usize,
    b: &B,
    second: usize,
    field: AvpField,
) -> Result<(), AllocError>
    requires first { first < length (A.meaning a.now).entries }
    requires second { second < length (B.meaning b.now).entries }
    ensures { OnOk result (Adds lines.old.items lines.new.items
        (FieldLine (A.meaning a.now) (B.meaning b.now) first second field)) }
{
    let same = is_same(a, a.entry_at(first), b, b.entry_at(second), field);
    push_unless(
        lines,
        same,
        What::AvpField {
            first,
            second,
            field,
        },
    )
}

/// Whether two AVPs have the same field.
fn is_same<A: Book, B: Book>(a: &A, own: Entry, b: &B, other: Entry, field: AvpField) -> bool
    requires own { own < length (A.meaning a.now).entries }
    requires other { other < length (B.meaning b.now).entries }
    ensures { IsTrue result
        ↔ At (IsSameField field) (A.meaning a.now).entries (B.meaning b.now).entries own other }
{
    match field {
        AvpField::Name => is_same_name(a, own, b, other),
        AvpField::Code => is_same_code(a, own, b, other),
        AvpField::Vendor => is_same_vendor(a, own, b, other),
        AvpField::Format => has_same_format(a, own, b, other),
        AvpField::MRule => is_same_m_rule(a, own, b, other),
    }
}

fn is_same_name<A: Book, B: Book>(a: &A, own: Entry, b: &B, other: Entry) -> bool
    requires own { own < length (A.meaning a.now).entries }
    requires other { other < length (B.meaning b.now).entries }
    ensures { IsTrue result
        ↔ At (IsSameField AvpField.Name) (A.meaning a.now).entries (B.meaning b.now).entries own other }
{
    is_same_text(a.entry_name(own), b.entry_name(other))
}

fn is_same_code<A: Book, B: Book>(a: &A, own: Entry, b: &B, other: Entry) -> bool
    requires own { own < length (A.meaning a.now).entries }
    requires other { other < length (B.meaning b.now).entries }
    ensures { IsTrue result
        ↔ At (IsSameField AvpField.Code) (A.meaning a.now).entries (B.meaning b.now).entries own other }
{
    is_same_number(a.entry_key(own).code, b.entry_key(other).code)
}

fn is_same_vendor<A: Book, B: Book>(a: &A, own: Entry, b: &B, other: Entry) -> bool
    requires own { own < length (A.meaning a.now).entries }
    requires other { other < length (B.meaning b.now).entries }
    ensures { IsTrue result
        ↔ At (IsSameField AvpField.Vendor) (A.meaning a.now).entries (B.meaning b.now).entries own other }
{
    is_same_number(a.entry_key(own).vendor, b.entry_key(other).vendor)
}

fn has_same_format<A: Book, B: Book>(a: &A, own: Entry, b: &B, other: Entry) -> bool
    requires own { own < length (A.meaning a.now).entries }
    requires other { other < length (B.meaning b.now).entries }
    ensures { IsTrue result
        ↔ At (IsSameField AvpField.Format) (A.meaning a.now).entries (B.meaning b.now).entries own other }
{
    is_same_format(a.format(own), b.format(other))
}

fn is_same_m_rule<A: Book, B: Book>(a: &A, own: Entry, b: &B, other: Entry) -> bool
    requires own { own < length (A.meaning a.now).entries }
    requires other { other < length (B.meaning b.now).entries }
    ensures { IsTrue result
        ↔ At (IsSameField AvpField.MRule) (A.meaning a.now).entries (B.meaning b.now).entries own other }
{
    is_same_word(a.rule(own), b.rule(other))
}

fn is_same_text(own: &str, other: &str) -> bool
    ensures { IsTrue result ↔ (own.now ≡ other.now) }
{
    own == other
}

fn is_same_number(own: u32, other: u32) -> bool
    ensures { IsTrue result ↔ (own ≡ other) }
{
    own == other
}

fn is_same_word(own: MRule, other: MRule) -> bool
    ensures { IsTrue result ↔ (own ≡ other) }
{
    own == other
}

/// Whether two formats are the same: those of an Enumerated have the same numbers in their lists.
fn is_same_format(own: &Format, other: &Format) -> bool
    ensures { IsTrue result ↔ IsSameFormat (plain_format own.now) (plain_format other.now) }
{
    match (own, other) {
        (Format::Enumerated(_), Format::Enumerated(_)) => {
            format_below(own, other) && format_below(other, own)
        }
        _ => own.name() == other.name(),
    }
}
