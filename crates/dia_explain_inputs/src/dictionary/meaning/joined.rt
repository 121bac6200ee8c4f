//! What faults show of the files that a text is joined of: some are missing, or one is there twice.

use super::parts::Parts;
use super::recorded::RecordedFault;
use crate::dictionary::expecting::push_items;
use crate::dictionary::shipped::declared_in;
use dia_dict::DictKind;
use dia_explain_places::Note;
use std::alloc::{AllocError, Global};

/// The most files that are listed.
const MOST_FILES: usize = 5;

/// How many of the names that are there twice are looked up.
const LOOKED_UP: usize = 3;

/// The files of a text, by its faults.
#[derive(Drop)]
pub struct Joined {
    /// The files of `dictionaries/` that declare all undefined names; none where there is one such name, or these files are
    /// many.
    missing: Vec<&'static str>,
    /// How many names are undefined.
    undefined: usize,
    /// Whether the first names that are there twice have the same distance from each other.
    is_repeated: bool,
}

impl Joined {
    pub fn of(
        alloc: Global,
        parts: &Parts<'_>,
        faults: &[RecordedFault<'_>],
    ) -> Result<Joined, AllocError> {
        let undefined = count_undefined(faults);
        let mut missing = files_for(alloc, faults)?;
        if undefined < 2 || missing.len() > MOST_FILES {
            missing.clear();
        }
        Ok(Joined {
            missing,
            undefined,
            is_repeated: is_repeated(parts, faults),
        })
    }

    /// Whether the files are the cause of faults of a kind.
    pub fn causes(&self, kind: DictKind) -> bool {
        match kind {
            DictKind::UndefinedName => !self.missing.is_empty(),
            DictKind::DuplicateName => self.is_repeated,
            _ => false,
        }
    }

    /// Adds the cause of faults of a kind.
    pub fn push(&self, note: &mut Note, kind: DictKind) {
        if matches!(kind, DictKind::DuplicateName) {
            note.put_hint(
                "these lines seem to be in the text twice, as where `cat` was given a file twice: leave them out once",
            );
        } else {
            note.put("hint: the ");
            note.put_number(self.undefined as u64);
            note.put(" names that aren't defined here are in ");
            push_items(note, &self.missing, " and ");
            note.put(" of dictionaries/: `cat` joins files\n");
        }
    }
}

fn count_undefined(faults: &[RecordedFault<'_>]) -> usize {
    let mut count = 0usize;
    for fault in faults {
        if matches!(fault.finding.recorded.kind, DictKind::UndefinedName) {
            count = count.saturating_add(1);
        }
    }
    count
}

/// The files of `dictionaries/` that declare the undefined names, none where one of these isn't declared.
fn files_for(alloc: Global, faults: &[RecordedFault<'_>]) -> Result<Vec<&'static str>, AllocError> {
    let mut files = Vec::new(alloc);
    for fault in faults {
        let recorded = &fault.finding.recorded;
        if matches!(recorded.kind, DictKind::UndefinedName) {
            let Some((file, _)) = declared_in(recorded.slot) else {
                return Ok(Vec::new(alloc));
            };
            if !files.contains(&file) {
                files.push(file)?;
            }
        }
    }
    Ok(files)
}

/// Whether the first names that are there twice have the same distance from each other.
fn is_repeated(parts: &Parts<'_>, faults: &[RecordedFault<'_>]) -> bool {
    let mut count = 0usize;
    let mut distance = None;
    for fault in faults {
        if count < LOOKED_UP && matches!(fault.finding.recorded.kind, DictKind::DuplicateName) {
            let own = distance_of(parts, fault);
            if count > 0 && own != distance {
                return false;
            }
            distance = own;
            count = count.saturating_add(1);
        }
    }
    count == LOOKED_UP && distance.is_some()
}

/// How far a name is from the one that it repeats.
fn distance_of(parts: &Parts<'_>, fault: &RecordedFault<'_>) -> Option<usize> {
    let first = parts.at(fault.other)?;
    parts.at(fault.finding.part)?.checked_sub(first)
}
