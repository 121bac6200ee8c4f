//! The lists of subjects from which a line of `breaking` can come. It comes from the first of which some difference is about one:
//!
//! - Of headers: the P flag where the line is about it; all of the two commands.
//! - Of a level: the rules for the line's AVP, or for the wildcard, and for the AVP that precedes; the code or vendor of the AVP; all
//!   rules of the two definitions; all of the AVP.
//! - Of an AVP by itself: the field that the line is about, its key, and AVPs that one dictionary alone has; all of the AVP.
//! - Of AVPs that are ignored: their code or vendor; the sender's rule; all rules of the two definitions.

ghost use Rattle.std.specs.Prelude.{◌≡◌, ◌∷◌, ◌++◌, IfOk, OnOk, Some, [], map};
ghost use Rattle.std.specs.Option.{option_map_or};
ghost use Rattle.dia_diff.specs.Candidates.{candidates, entry_for, named_rules, of_avp, of_header, of_ignored, of_level};
ghost use Rattle.dia_diff.specs.Candidates.{part_at, part_of, rule_for};
ghost use Rattle.dia_diff.specs.Routes.{route_of};
ghost use Rattle.dia_differences.specs.Sides.{other_side};

use crate::origins::Origin;
use crate::subjects::Subject;
use crate::traffic::Traffic;
use dia_book::Book;
use dia_breaking_levels::Line as LevelLine;
use dia_differences::{AvpField, HeadField, Owner, RulePlace, Side, place_of_rule};
use dia_wire::Key;
use std::alloc::{AllocError, Global};

/// What a list has of a command or an AVP.
#[derive(Clone, Copy)]
pub(crate) enum Part {
    Command,
    HeadField(HeadField),
    Avp,
    /// The code and the vendor.
    Key,
    /// A field, the key, and that one dictionary alone has the AVP.
    Change(AvpField),
}

/// The lists of subjects for what a line is about.
pub(crate) fn candidates_of<A: Book, B: Book>(
    alloc: Global,
    traffic: &Traffic<'_, A, B>,
    origin: Origin,
) -> Result<Vec<Vec<Subject>>, AllocError>
    ensures { IfOk result (λ lists. map (λ list. list.items) lists.items ≡ candidates (route_of A.meaning B.meaning traffic.now) origin) }
{
    match origin {
        Origin::Header { own, other, field } => {
            of_header(alloc, traffic.side, own, other, field)
        }
        Origin::Avp { key, field } => of_change(alloc, traffic, key, field),
        Origin::Level { own, other, line } => of_level(alloc, traffic, own, other, line),
        Origin::Ignored { own, other, key } => of_ignored(alloc, traffic, own, other, key),
    }
}

fn of_header(
    alloc: Global,
    side: Side,
    own: usize,
    other: Option<usize>,
    field: Option<HeadField>,
) -> Result<Vec<Vec<Subject>>, AllocError>
    ensures { IfOk result (λ lists. map (λ list. list.items) lists.items ≡ of_header side own other field) }
{
    let of_field = of_head_field(alloc, side, own, other, field)?;
    let all = part_of(alloc, Part::Command, side, Some(own), other)?;
    Ok(vec![in alloc; of_field, all]?)
}

fn of_head_field(
    alloc: Global,
    side: Side,
    own: usize,
    other: Option<usize>,
    field: Option<HeadField>,
) -> Result<Vec<Subject>, AllocError>
    ensures { IfOk result (λ list. list.items
        ≡ option_map_or (λ f. part_of (Part.HeadField f) side (Some own) other) field []) }
{
    match field {
        Some(field) => part_of(alloc, Part::HeadField(field), side, Some(own), other),
        None => Ok(Vec::new(alloc)),
    }
}

fn of_change<A: Book, B: Book>(
    alloc: Global,
    traffic: &Traffic<'_, A, B>,
    key: Key,
    field: AvpField,
) -> Result<Vec<Vec<Subject>>, AllocError>
    ensures { IfOk result (λ lists. map (λ list. list.items) lists.items
        ≡ candidates (route_of A.meaning B.meaning traffic.now) (Origin.Avp key field)) }
{
    let change = of_avp(alloc, traffic, Part::Change(field), Some(key))?;
    let all = of_avp(alloc, traffic, Part::Avp, Some(key))?;
    Ok(vec![in alloc; change, all]?)
}

fn of_level<A: Book, B: Book>(
    alloc: Global,
    traffic: &Traffic<'_, A, B>,
    own: Owner,
    other: Owner,
    line: LevelLine,
) -> Result<Vec<Vec<Subject>>, AllocError>
    ensures { IfOk result (λ lists. map (λ list. list.items) lists.items ≡ of_level (route_of A.meaning B.meaning traffic.now) own other line) }
{
    let named = named_rules(alloc, traffic, own, other, line)?;
    let key = of_avp(alloc, traffic, Part::Key, line.key)?;
    let rules = all_rules(alloc, traffic.side, own, other)?;
    let avp = of_avp(alloc, traffic, Part::Avp, line.key)?;
    Ok(vec![in alloc; named, key, rules, avp]?)
}

fn of_ignored<A: Book, B: Book>(
    alloc: Global,
    traffic: &Traffic<'_, A, B>,
    own: Owner,
    other: Owner,
    key: Key,
) -> Result<Vec<Vec<Subject>>, AllocError>
    ensures { IfOk result (λ lists. map (λ list. list.items) lists.items ≡ of_ignored (route_of A.meaning B.meaning traffic.now) own other key) }
{
    let code = of_avp(alloc, traffic, Part::Key, Some(key))?;
    let mut rule = Vec::new(alloc);
    push_rule(&mut rule, traffic.side, traffic.sender, own, Some(key))?;
    let rules = all_rules(alloc, traffic.side, own, other)?;
    Ok(vec![in alloc; code, rule, rules]?)
}

fn all_rules(
    alloc: Global,
    side: Side,
    own: Owner,
    other: Owner,
) -> Result<Vec<Subject>, AllocError>
    ensures { IfOk result (λ list. list.items ≡ Subject.Rules side own ∷ Subject.Rules (other_side side) other ∷ []) }
{
    Vec::from_slice(
        alloc,
        &[
            Subject::Rules(side, own),
            Subject::Rules(side.other(), other),
        ],
    )
}

/// The rules of two definitions that a line names.
fn named_rules<A: Book, B: Book>(
    alloc: Global,
    traffic: &Traffic<'_, A, B>,
    own: Owner,
    other: Owner,
    line: LevelLine,
) -> Result<Vec<Subject>, AllocError>
    ensures { IfOk result (λ list. list.items
        ≡ named_rules (route_of A.meaning B.meaning traffic.now).between.sender traffic.now.side own line
        ++ named_rules (route_of A.meaning B.meaning traffic.now).between.receiver (other_side traffic.now.side) other line) }
{
    let side = traffic.side;
    let mut list = Vec::new(alloc);
    push_rules(&mut list, side, traffic.sender, own, line)?;
    push_rules(&mut list, side.other(), traffic.receiver, other, line)?;
    Ok(list)
}

/// Adds the rules of a definition that a line names.
fn push_rules<D: Book>(
    list: &mut Vec<Subject>,
    side: Side,
    book: &D,
    of: Owner,
    line: LevelLine,
) -> Result<(), AllocError>
    ensures { OnOk result (list.new.items ≡ list.old.items ++ named_rules (D.meaning book.now) side of line) }
{
    push_rule(list, side, book, of, line.key)?;
    match line.following {
        Some(key) => push_rule(list, side, book, of, Some(key)),
        None => Ok(()),
    }
}

/// Adds the rule of a definition for a key, or for the wildcard, if there is one.
fn push_rule<D: Book>(
    list: &mut Vec<Subject>,
    side: Side,
    book: &D,
    of: Owner,
    key: Option<Key>,
) -> Result<(), AllocError>
    ensures { OnOk result (list.new.items ≡ list.old.items ++ rule_for (D.meaning book.now) side of key) }
{
    match place_of_rule(book, of, key) {
        Some(rule) => {
            list.push(Subject::Rule(side, RulePlace { of, rule }))?;
            Ok(())
        }
        None => Ok(()),
    }
}

/// A part of the AVP of a key, of both dictionaries.
fn of_avp<A: Book, B: Book>(
    alloc: Global,
    traffic: &Traffic<'_, A, B>,
    part: Part,
    key: Option<Key>,
) -> Result<Vec<Subject>, AllocError>
    ensures { IfOk result (λ list. list.items ≡ of_avp (route_of A.meaning B.meaning traffic.now) part key) }
{
    let own = entry_for(traffic.sender, key);
    let other = entry_for(traffic.receiver, key);
    part_of(alloc, part, traffic.side, own, other)
}

/// The place of the AVP of a key.
fn entry_for<D: Book>(book: &D, key: Option<Key>) -> Option<usize>
    ensures { result ≡ entry_for (D.meaning book.now) key }
{
    match book.avp(key?) {
        Some(entry) => Some(entry.index()),
        None => None,
    }
}

/// A part of what is at these places of the sender and of the receiver.
fn part_of(
    alloc: Global,
    part: Part,
    side: Side,
    own: Option<usize>,
    other: Option<usize>,
) -> Result<Vec<Subject>, AllocError>
    ensures { IfOk result (λ list. list.items ≡ part_of part side own other) }
{
    let mut list = Vec::new(alloc);
    push_part(&mut list, part, side, own)?;
    push_part(&mut list, part, side.other(), other)?;
    Ok(list)
}

/// Adds the part, if there is a place.
fn push_part(
    list: &mut Vec<Subject>,
    part: Part,
    side: Side,
    place: Option<usize>,
) -> Result<(), AllocError>
    ensures { OnOk result (list.new.items ≡ list.old.items ++ option_map_or (part_at part side) place []) }
{
    match place {
        Some(place) => push_part_at(list, part, side, place),
        None => Ok(()),
    }
}

fn push_part_at(
    list: &mut Vec<Subject>,
    part: Part,
    side: Side,
    place: usize,
) -> Result<(), AllocError>
    ensures { OnOk result (list.new.items ≡ list.old.items ++ part_at part side place) }
{
    let code = Subject::AvpField(side, place, AvpField::Code);
    let vendor = Subject::AvpField(side, place, AvpField::Vendor);
    match part {
        Part::Command => list.extend_from_slice(&[Subject::Command(side, place)]),
        Part::HeadField(field) => list.extend_from_slice(&[Subject::HeadField(side, place, field)]),
        Part::Avp => list.extend_from_slice(&[Subject::Avp(side, place)]),
        Part::Key => list.extend_from_slice(&[code, vendor]),
        Part::Change(field) => list.extend_from_slice(&[
            Subject::AloneAvp(side, place),
            Subject::AvpField(side, place, field),
            code,
            vendor,
        ]),
    }
}
