//! The faults as they are reported: each undefined name once.

use dia_dict::{DictKind, Finding, Part};
use std::alloc::{AllocError, Global};

/// A fault. Of the rules for an undefined name it is the first, `more` is how many more there are, and the first of those is what
/// it doesn't match.
#[derive(Clone, Copy)]
pub struct RecordedFault<'a> {
    pub finding: &'a Finding<'a>,
    /// What the fault doesn't match, which for an undefined name the finding doesn't say.
    pub other: Option<Part>,
    pub more: usize,
}

/// The faults, of which those for one undefined name are one.
pub fn recorded_faults<'a>(
    alloc: Global,
    findings: &'a [Finding<'a>],
) -> Result<Vec<RecordedFault<'a>>, AllocError> {
    let uses = uses_of(alloc, findings)?;
    let mut recorded = Vec::new(alloc);
    for (place, finding) in findings.iter().enumerate() {
        if let Some(fault) = recorded_at(findings, &uses, place, finding) {
            recorded.push(fault)?;
        }
    }
    Ok(recorded)
}

/// The undefined names of faults in order, each with the places of its faults.
fn uses_of<'a>(
    alloc: Global,
    findings: &[Finding<'a>],
) -> Result<Vec<(&'a str, usize)>, AllocError> {
    let mut uses = Vec::new(alloc);
    for (place, finding) in findings.iter().enumerate() {
        if matches!(finding.recorded.kind, DictKind::UndefinedName) {
            uses.push((finding.recorded.slot, place))?;
        }
    }
    uses.sort_unstable();
    Ok(uses)
}

/// The fault at a place, unless an earlier one is for the same undefined name.
fn recorded_at<'a>(
    findings: &[Finding<'a>],
    uses: &[(&str, usize)],
    place: usize,
    finding: &'a Finding<'a>,
) -> Option<RecordedFault<'a>> {
    let mut other = finding.other;
    let mut more = 0;
    if matches!(finding.recorded.kind, DictKind::UndefinedName) {
        let name = finding.recorded.slot;
        let of_name = uses.get(first_from(uses, name, 0)..first_from(uses, name, usize::MAX))?;
        if of_name.first()?.1 != place {
            return None;
        }
        if let Some((_, second)) = of_name.get(1) {
            other = part_at(findings, *second);
        }
        more = of_name.len().saturating_sub(1);
    }
    Some(RecordedFault {
        finding,
        other,
        more,
    })
}

fn part_at(findings: &[Finding<'_>], place: usize) -> Option<Part> {
    findings.get(place)?.part
}

/// The place of the first use that isn't before this place of a name.
fn first_from(uses: &[(&str, usize)], name: &str, place: usize) -> usize {
    match uses.binary_search(&(name, place)) {
        Ok(at) | Err(at) => at,
    }
}
