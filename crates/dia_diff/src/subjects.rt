//! What differences are about.

ghost use Rattle.std.specs.Prelude.{◌≡◌, ◌||◌, IfOk, OnOk};
ghost use Rattle.std.specs.HashSet.{contains};
ghost use Rattle.std.specs.List.{list_any};
ghost use Rattle.dia_diff.specs.Marks.{has, is_there, whats};
ghost use Rattle.dia_diff.specs.Subjects.{same_subject, subjects};

use dia_differences::{AvpField, HeadField, Line, Owner, RulePlace, Side, What};
use std::alloc::{AllocError, Global};
use std::collections::HashSet;

/// What a difference is about. AVPs and commands are named by their places.
#[derive(Clone, Copy, PartialEq, Eq, Hash)]
pub(crate) enum Subject {
    Avp(Side, usize),
    /// An AVP that one dictionary alone has.
    AloneAvp(Side, usize),
    AvpField(Side, usize, AvpField),
    /// The header of a command.
    Command(Side, usize),
    HeadField(Side, usize, HeadField),
    Rule(Side, RulePlace),
    /// All rules of a definition.
    Rules(Side, Owner),
}

/// What a difference is about.
pub(crate) fn subjects_of(alloc: Global, what: What) -> Result<Vec<Subject>, AllocError>
    ensures { IfOk result (λ found. found.items ≡ subjects what) }
{
    match what {
        What::Avp(side, index) => Vec::from_slice(
            alloc,
            &[Subject::Avp(side, index), Subject::AloneAvp(side, index)],
        ),
        What::AvpField {
            first,
            second,
            field,
        } => of_avp_field(alloc, first, second, field),
        What::Command(side, index) => Vec::from_slice(alloc, &[Subject::Command(side, index)]),
        What::HeadField {
            first,
            second,
            field,
        } => of_head_field(alloc, first, second, field),
        What::Rule(side, place) => Vec::from_slice(
            alloc,
            &[Subject::Rule(side, place), Subject::Rules(side, place.of)],
        ),
        What::NewRule { place, .. } => Vec::from_slice(
            alloc,
            &[
                Subject::Rule(Side::Second, place),
                Subject::Rules(Side::Second, place.of),
            ],
        ),
        What::RuleChange { first, second } => of_rule_change(alloc, first, second),
    }
}

fn of_avp_field(
    alloc: Global,
    first: usize,
    second: usize,
    field: AvpField,
) -> Result<Vec<Subject>, AllocError>
    ensures { IfOk result (λ found. found.items ≡ subjects (What.AvpField first second field)) }
{
    Vec::from_slice(
        alloc,
        &[
            Subject::Avp(Side::First, first),
            Subject::Avp(Side::Second, second),
            Subject::AvpField(Side::First, first, field),
            Subject::AvpField(Side::Second, second, field),
        ],
    )
}

fn of_head_field(
    alloc: Global,
    first: usize,
    second: usize,
    field: HeadField,
) -> Result<Vec<Subject>, AllocError>
    ensures { IfOk result (λ found. found.items ≡ subjects (What.HeadField first second field)) }
{
    Vec::from_slice(
        alloc,
        &[
            Subject::Command(Side::First, first),
            Subject::Command(Side::Second, second),
            Subject::HeadField(Side::First, first, field),
            Subject::HeadField(Side::Second, second, field),
        ],
    )
}

fn of_rule_change(
    alloc: Global,
    first: RulePlace,
    second: RulePlace,
) -> Result<Vec<Subject>, AllocError>
    ensures { IfOk result (λ found. found.items ≡ subjects (What.RuleChange first second)) }
{
    Vec::from_slice(
        alloc,
        &[
            Subject::Rule(Side::First, first),
            Subject::Rules(Side::First, first.of),
            Subject::Rule(Side::Second, second),
            Subject::Rules(Side::Second, second.of),
        ],
    )
}

/// What the lines are about.
pub(crate) fn all_subjects(alloc: Global, lines: &[Line]) -> Result<HashSet<Subject>, AllocError>
    ensures { IfOk result (λ found. (q : Subject) → contains same_subject found q ≡ is_there (whats lines.now) q) }
{
    let mut found = HashSet::new(alloc);
    for line in lines {
        let subjects = subjects_of(alloc, line.what)?;
        put_all(&mut found, &subjects)?;
    }
    Ok(found)
}

/// Adds the subjects to a set.
pub(crate) fn put_all(set: &mut HashSet<Subject>, subjects: &[Subject]) -> Result<(), AllocError>
    ensures { OnOk result ((q : Subject)
        → contains same_subject set.new q ≡ (contains same_subject set.old q || has subjects.now q)) }
{
    for subject in subjects {
        put(set, *subject)?;
    }
    Ok(())
}

fn put(set: &mut HashSet<Subject>, subject: Subject) -> Result<(), AllocError>
    ensures { OnOk result ((q : Subject)
        → contains same_subject set.new q ≡ (contains same_subject set.old q || same_subject subject q)) }
{
    set.insert(subject)?;
    Ok(())
}

/// Whether one of the subjects is in a set.
pub(crate) fn any_of(set: &HashSet<Subject>, subjects: &[Subject]) -> bool
    ensures { result ≡ list_any (contains same_subject set.now) subjects.now }
{
    for subject in subjects {
        if is_in(set, *subject) {
            return true;
        }
    }
    false
}

fn is_in(set: &HashSet<Subject>, subject: Subject) -> bool
    ensures { result ≡ contains same_subject set.now subject }
{
    set.contains(&subject)
}
