//! The lines of commands and their rules.

ghost use Rattle.std.specs.Prelude.{◌<◌, ◌↔◌, IsTrue, OnOk, length};
ghost use Rattle.dia_book.specs.Dictionary.{plain_definition};
ghost use Rattle.dia_differences.specs.Matching.{IsSameHeadField, partner_of};
ghost use Rattle.dia_differences.specs.Lines.{AddedCommand, Adds, AloneCommand, CommandLines, CommandsAdded, CommandsOfFirst};
ghost use Rattle.dia_differences.specs.Lines.{HeadLine, HeadLines};
ghost use Rattle.dia_differences.specs.Partners.{paired};

use crate::avps::partner;
use crate::headers::{pxy_of, selector_of};
use crate::lines::{HeadField, Line, What, push_line, push_unless};
use crate::owner::Owner;
use crate::partners::Partners;
use crate::rules::{push_all_rules, push_rules};
use crate::sides::Side;
use dia_book::{Book, Definition};
use std::alloc::AllocError;

/// Adds the lines of the commands of the first dictionary.
pub fn push_commands<A: Book, B: Book>(
    lines: &mut Vec<Line>,
    a: &A,
    b: &B,
    partners: &Partners,
) -> Result<(), AllocError>
    ensures { OnOk result (Adds lines.old.items lines.new.items
        (CommandsOfFirst (A.meaning a.now) (B.meaning b.now) (paired partners.now))) }
{
    for first in 0..a.commands() {
        push_command(lines, a, first, b, partners)?;
    }
    Ok(())
}

/// Adds the lines of a command of the first dictionary.
fn push_command<A: Book, B: Book>(
    lines: &mut Vec<Line>,
    a: &A,
    first: usize,
    b: &B,
    partners: &Partners,
) -> Result<(), AllocError>
    requires { first < length (A.meaning a.now).commands }
    ensures { OnOk result (Adds lines.old.items lines.new.items
        (CommandLines (A.meaning a.now) (B.meaning b.now) (paired partners.now) first
        (partner_of partners.now.commands.there.items first (length (B.meaning b.now).commands)))) }
{
    match partner(&partners.commands.there, first, b.commands()) {
        Some(second) => {
            push_fields(lines, a, first, b, second)?;
            push_rules(
                lines,
                a,
                Owner::Command(first),
                b,
                Owner::Command(second),
                partners,
            )
        }
        None => push_alone(lines, Side::First, a, first),
    }
}

/// Adds the lines of the commands that the second dictionary alone has. The first has so many.
pub fn push_added_commands<B: Book>(
    lines: &mut Vec<Line>,
    b: &B,
    partners: &Partners,
    count: usize,
) -> Result<(), AllocError>
    ensures { OnOk result (Adds lines.old.items lines.new.items
        (CommandsAdded (B.meaning b.now) count partners.now.commands.back.items)) }
{
    for second in 0..b.commands() {
        push_added_command(
            lines,
            b,
            second,
            partner(&partners.commands.back, second, count),
        )?;
    }
    Ok(())
}

/// Adds the lines of a command of the second dictionary that has no partner.
fn push_added_command<B: Book>(
    lines: &mut Vec<Line>,
    b: &B,
    second: usize,
    partner: Option<usize>,
) -> Result<(), AllocError>
    ensures { OnOk result (Adds lines.old.items lines.new.items (AddedCommand (B.meaning b.now) second partner)) }
{
    match partner {
        Some(_) => Ok(()),
        None => push_alone(lines, Side::Second, b, second),
    }
}

/// Adds a command that one dictionary alone has, and its rules.
fn push_alone<D: Book>(
    lines: &mut Vec<Line>,
    side: Side,
    book: &D,
    index: usize,
) -> Result<(), AllocError>
    ensures { OnOk result (Adds lines.old.items lines.new.items (AloneCommand side (D.meaning book.now) index)) }
{
    push_line(lines, What::Command(side, index))?;
    push_all_rules(lines, side, book, Owner::Command(index))
}

/// Adds a line for each field that differs.
fn push_fields<A: Book, B: Book>(
    lines: &mut Vec<Line>,
    a: &A,
    first: usize,
    b: &B,
    second: usize,
) -> Result<(), AllocError>
    requires first { first < length (A.meaning a.now).commands }
    requires second { second < length (B.meaning b.now).commands }
    ensures { OnOk result (Adds lines.old.items lines.new.items
        (HeadLines (A.meaning a.now) (B.meaning b.now) first second)) }
{
    push_field(lines, a, first, b, second, HeadField::Name)?;
    push_field(lines, a, first, b, second, HeadField::Code)?;
    push_field(lines, a, first, b, second, HeadField::Class)?;
    push_field(lines, a, first, b, second, HeadField::Application)?;
    push_field(lines, a, first, b, second, HeadField::Proxiable)
}

/// Adds a line for a field, if it differs.
fn push_field<A: Book, B: Book>(
    lines: &mut Vec<Line>,
    a: &A,
    first: usize,
    b: &B,
    second: usize,
    field: HeadField,
) -> Result<(), AllocError>
    requires first { first < length (A.meaning a.now).commands }
    requires second { second < length (B.meaning b.now).commands }
    ensures { OnOk result (Adds lines.old.items lines.new.items
        (HeadLine (A.meaning a.now) (B.meaning b.now) first second field)) }
{
    let own = a.def(a.command_at(first));
    let other = b.def(b.command_at(second));
    push_unless(
        lines,
        is_same(own, other, field),
        What::HeadField {
            first,
            second,
            field,
        },
    )
}

/// Whether two commands have the same field.
fn is_same(own: &Definition, other: &Definition, field: HeadField) -> bool
    ensures { IsTrue result
        ↔ IsSameHeadField field (plain_definition own.now) (plain_definition other.now) }
{
    match field {
        HeadField::Name => own.name == other.name,
        HeadField::Code => selector_of(own.head).0 == selector_of(other.head).0,
        HeadField::Class => selector_of(own.head).1 == selector_of(other.head).1,
        HeadField::Application => selector_of(own.head).2 == selector_of(other.head).2,
        HeadField::Proxiable => pxy_of(own.head) == pxy_of(other.head),
    }
}
