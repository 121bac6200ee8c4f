//! What a line says, in its parts.

ghost use Rattle.std.specs.Prelude.{◌≡◌, IfOk};
ghost use Rattle.std.specs.Option.{option_map};
ghost use Rattle.dia_diff_text.specs.Lines.{IsLineParts};
ghost use Rattle.dia_diff_text.specs.Plain.{plain_parts};
ghost use Rattle.dia_diff_text.specs.Parts.{avp_word, field_of, head_word, is_command, name_in, subject_of};

use crate::sides::words_in;
use dia_book::Book;
use dia_differences::{AvpField, Effects, HeadField, Line, Owner, Side, What};
use std::alloc::{AllocError, Global};

/// What a line says.
#[derive(Drop)]
pub(crate) struct Parts<'d> {
    /// Whether it is about a command, or about an AVP.
    pub is_command: bool,
    /// The name of the command or the AVP.
    pub name: &'d str,
    /// What differs of it; nothing where one dictionary alone has it.
    pub field: Option<&'static str>,
    /// The words of the first dictionary.
    pub first: Option<String>,
    /// The words of the second dictionary.
    pub second: Option<String>,
    /// What comes of messages of the first side.
    pub there: Effects,
    /// What comes of those of the second.
    pub back: Effects,
}

/// The field of a rule.
pub(crate) const RULE: &str = "rule";

/// The parts of a line.
pub(crate) fn parts_of<'d, A: Book, B: Book>(
    alloc: Global,
    a: &'d A,
    b: &'d B,
    line: &Line,
) -> Result<Parts<'d>, AllocError>
    ensures { IfOk result (λ parts. IsLineParts (A.meaning a.now) (B.meaning b.now) line.now (plain_parts parts)) }
{
    let Line { what, there, back } = *line;
    let subject = subject_of(what);
    let first = words_in(alloc, a, Side::First, what)?;
    let second = words_in(alloc, b, Side::Second, what)?;
    Ok(Parts {
        is_command: is_command(subject.1),
        name: name_in(a, b, subject),
        field: field_of(what),
        first,
        second,
        there,
        back,
    })
}

/// The AVP or command that a line is about: that of the first dictionary, if it has it.
fn subject_of(what: What) -> (Side, Owner)
    ensures { result ≡ subject_of what }
{
    match what {
        What::Avp(side, index) => (side, Owner::Avp(index)),
        What::AvpField { first, .. } => (Side::First, Owner::Avp(first)),
        What::Command(side, index) => (side, Owner::Command(index)),
        What::HeadField { first, .. } => (Side::First, Owner::Command(first)),
        What::Rule(side, place) => (side, place.of),
        What::NewRule { own, .. } => (Side::First, own),
        What::RuleChange { first, .. } => (Side::First, first.of),
    }
}

fn is_command(of: Owner) -> bool
    ensures { result ≡ is_command of }
{
    match of {
        Owner::Avp(_) => false,
        Owner::Command(_) => true,
    }
}

fn name_in<'d, A: Book, B: Book>(a: &'d A, b: &'d B, subject: (Side, Owner)) -> &'d str
    ensures { result.now ≡ name_in (A.meaning a.now) (B.meaning b.now) subject }
{
    let (side, of) = subject;
    match side {
        Side::First => of.name(a),
        Side::Second => of.name(b),
    }
}

fn field_of(what: What) -> Option<&'static str>
    ensures { option_map (λ w. w.now) result ≡ field_of what }
{
    match what {
        What::Avp(..) | What::Command(..) => None,
        What::AvpField { field, .. } => Some(avp_word(field)),
        What::HeadField { field, .. } => Some(head_word(field)),
        What::Rule(..) | What::NewRule { .. } | What::RuleChange { .. } => Some(RULE),
    }
}

fn avp_word(field: AvpField) -> &'static str
    ensures { result.now ≡ avp_word field }
{
    match field {
        AvpField::Name => "name",
        AvpField::Code => "code",
        AvpField::Vendor => "vendor",
        AvpField::Format => "format",
        AvpField::MRule => "M",
    }
}

fn head_word(field: HeadField) -> &'static str
    ensures { result.now ≡ head_word field }
{
    match field {
        HeadField::Name => "name",
        HeadField::Code => "code",
        HeadField::Class => "class",
        HeadField::Application => "application",
        HeadField::Proxiable => "P",
    }
}
