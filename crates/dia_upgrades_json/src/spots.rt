//! Where the dictionaries' texts have what a line is about, as members.

ghost use Rattle.std.specs.Prelude.{◌≡◌, ◌∷◌, ◌-◌, [], IfOk, OnOk, length, map, slice_get, string_bytes};
ghost use Rattle.std.specs.Option.{option_map};
ghost use Rattle.serde_json.specs.Written.{compact_text};
ghost use Rattle.dia_breaking.specs.LineParts.{plain_parts, plain_subject};
ghost use Rattle.dia_upgrades_json.specs.Fields.{Adds, object_of};
ghost use Rattle.dia_upgrades_json.specs.SpotTexts.{both_in};
ghost use Rattle.dia_upgrades_json.specs.Spots.{kind_of, matter_of, place_fields, spot_field, spot_fields, subject_text};
ghost use Rattle.dia_breaking_places.specs.MarkedTexts.{text_in};
ghost use Rattle.dia_breaking_places.specs.Sought.{plain_matter};

use crate::fields::{object_text, push_field, push_unsigned};
use dia_breaking::{LineParts, LineReason, Subject};
use dia_breaking_places::{Marks, Matter, MatterKind, Places, first_place, second_place};
use dia_ccf::Source;
use std::alloc::{AllocError, Global};

/// A dictionary's text, with the places of its parts.
#[derive(Drop)]
pub struct Spelt<'s> {
    pub(crate) places: Places<'s>,
    pub(crate) marks: Marks<'s>,
}

/// The texts of two dictionaries.
pub struct Texts<'s> {
    pub first: Spelt<'s>,
    pub second: Spelt<'s>,
}

// Written out: for a derived `Drop`, each crate that drops this type proves the drops of all its parts again.
impl Drop for Texts<'_> {
    fn drop(self) {
        let Texts {
            first: _,
            second: _,
        } = self;
    }
}

impl<'s> Spelt<'s> {
    ghost use Rattle.std.specs.Prelude.{◌≡◌, IfOk};
    ghost use Rattle.dia_upgrades_json.specs.SpotTexts.{spelt, spelt_in};

    /// The text of a dictionary, which says this.
    pub fn new(alloc: Global, text: &'s [u8], source: &'s Source) -> Result<Spelt<'s>, AllocError>
        ensures { IfOk result (λ made. spelt_in made ≡ spelt text.now source.now) }
    {
        let places = Places::new(alloc, source)?;
        let marks = Marks::new(alloc, text)?;
        Ok(Spelt { places, marks })
    }
}

/// Adds where A's text and B's have what a line is about.
pub(crate) fn push_spots(
    alloc: Global,
    out: &mut String,
    texts: &Texts<'_>,
    parts: &LineParts<'_>,
) -> Result<(), AllocError>
    ensures { OnOk result (Adds out.old out.new (spot_fields (both_in texts.now) (plain_parts parts.now))) }
{
    let matter = matter_of(parts);
    let a = &texts.first.places;
    let second = second_place(alloc, a, &texts.second.places, matter)?;
    push_spot(alloc, out, "a", &texts.first.marks, first_place(a, matter))?;
    push_spot(alloc, out, "b", &texts.second.marks, second)
}

/// What a line is about.
fn matter_of<'u>(parts: &LineParts<'u>) -> Matter<'u>
    ensures { plain_matter result ≡ matter_of (plain_parts parts.now) }
{
    Matter {
        kind: kind_of(parts.reason),
        command: parts.path.command,
        application: parts.path.application,
        group: last_of(parts.path.groups.as_slice()),
        subject: subject_text(parts.subject),
    }
}

fn kind_of(reason: Option<LineReason>) -> MatterKind
    ensures { result ≡ kind_of reason }
{
    match reason {
        Some(LineReason::Command | LineReason::Application | LineReason::Proxiable) => {
            MatterKind::Head
        }
        Some(LineReason::Missing | LineReason::TooMany) => MatterKind::Rule,
        Some(LineReason::NotAllowed | LineReason::Order) => MatterKind::Rule,
        Some(_) => MatterKind::Avp,
        None => MatterKind::Avp,
    }
}

/// The last of some names.
fn last_of<'u>(names: &[&'u str]) -> Option<&'u str>
    ensures { option_map (λ name. name.now) result
        ≡ slice_get (map (λ name. name.now) names.now) (length (map (λ name. name.now) names.now) - 1) }
{
    match names.get(names.len().saturating_sub(1)) {
        Some(name) => Some(*name),
        None => None,
    }
}

fn subject_text<'u>(subject: Subject<'u>) -> &'u str
    ensures { result.now ≡ subject_text (plain_subject subject.entry) }
{
    match subject {
        Subject::Header => "-",
        Subject::Application(_) => "-",
        Subject::Avp(name) => name,
    }
}

/// Adds a place of a text, if there is one.
fn push_spot(
    alloc: Global,
    out: &mut String,
    name: &str,
    marks: &Marks<'_>,
    at: Option<usize>,
) -> Result<(), AllocError>
    ensures { OnOk result (Adds out.old out.new (spot_field name.now (text_in marks.now) at)) }
{
    match at {
        Some(at) => push_place(alloc, out, name, marks, at),
        None => Ok(()),
    }
}

fn push_place(
    alloc: Global,
    out: &mut String,
    name: &str,
    marks: &Marks<'_>,
    at: usize,
) -> Result<(), AllocError>
    ensures { OnOk result (Adds out.old out.new ((name.now, object_of (place_fields (text_in marks.now) at)) ∷ [])) }
{
    let place = place_text(alloc, marks, at)?;
    push_field(alloc, out, name, place.as_str())
}

/// The object of a place.
fn place_text(alloc: Global, marks: &Marks<'_>, at: usize) -> Result<String, AllocError>
    ensures { IfOk result (λ text. string_bytes text ≡ compact_text (object_of (place_fields (text_in marks.now) at))) }
{
    let mut fields = String::new(alloc);
    push_position(alloc, &mut fields, marks, at)?;
    object_text(alloc, fields.as_str())
}

fn push_position(
    alloc: Global,
    out: &mut String,
    marks: &Marks<'_>,
    at: usize,
) -> Result<(), AllocError>
    ensures { OnOk result (Adds out.old out.new (place_fields (text_in marks.now) at)) }
{
    let place = marks.place(at);
    push_unsigned(alloc, out, "line", place.line as u64)?;
    push_unsigned(alloc, out, "column", place.column as u64)
}
